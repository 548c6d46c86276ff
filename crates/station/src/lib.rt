// The station's filters: recording, extracting and serial coding, from one descriptor to another. What each decides is in the library;
// what comes of reading and writing is up to the system, so no contract can determine it.
#![tactic(auto)]

mod coder;
mod entries;
mod extractor;
mod listing;
mod outputs;
mod recorder;
mod sidecar;
mod taping;
mod telling;
mod turning;

pub use coder::code_input;
pub use extractor::{Extracted, extract};
pub use recorder::record_input;
pub use sidecar::Sidecar;
