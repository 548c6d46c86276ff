// The crates programme and system: what is asked of a walk.
use cases::{Numbers, WALK, number, walk};
use system::Walk;

// The bytes of what each kind brings.
fn size_of(kind: u32) -> usize {
    match kind {
        84 => 8,
        90 => WALK,
        _ => WALK + 4,
    }
}

// With the number behind the walk: the line at which V of the first field falls, or the most lines.
fn answered(kind: u32, walk: Walk, behind: u32) -> Numbers {
    match kind {
        82 => Numbers::none().with_truth(programme::takes_row(walk, behind)),
        83 => Numbers::none().with_truth(programme::ends_frame(walk, behind)),
        84 => Numbers::one(programme::piece_lines(walk.system, walk.line)),
        85 => Numbers::none().with_truth(programme::ends_piece(walk, behind)),
        90 => Numbers::none()
            .with_place(walk.line_words())
            .with_place(walk.line_bytes()),
        _ => Numbers::none(),
    }
}

pub(crate) fn answer_case(kind: u32, payload: &[u8]) -> Numbers {
    if payload.len() != size_of(kind) {
        return Numbers::none();
    }
    answered(kind, walk(payload, 0), number(payload, WALK))
}
