// The crate refusal: reasons, by the rows of the table counted from 1.
use cases::Numbers;
use refusal::Reason;

const ROWS: [Reason; 20] = [
    Reason::NoSystem,
    Reason::NoLine,
    Reason::WrongLength,
    Reason::BadCounts,
    Reason::Over,
    Reason::NoCode,
    Reason::BitNine,
    Reason::HopelessEven,
    Reason::NotDue,
    Reason::NoFill,
    Reason::Reserved,
    Reason::Outside,
    Reason::BadState,
    Reason::HopelessOdd,
    Reason::BadParity,
    Reason::BadChecksum,
    Reason::PacketPast,
    Reason::BadParts,
    Reason::BadRange,
    Reason::BadEntry,
];

// Refusal::of, of nothing that refuses where the row is 0, and otherwise of Reason::at of the row's reason; and Reason::number.
pub(crate) fn answered(row: u32, place: u32) -> Numbers {
    if row == 0 {
        return Numbers::of_result(Ok(())).with(0);
    }
    match ROWS.get(row as usize - 1) {
        Some(reason) => Numbers::of_result(Err(reason.at(place as usize))).with(reason.number()),
        None => Numbers::none(),
    }
}
