// The crate captions: heads of a packets file's entries.
use captions::{Entry, Head};
use cases::{
    MOST_BYTES, Numbers, after_bytes, number, part, put_bytes, put_numbers, taken_bytes, wide,
};
use refusal::Refused;

const NO_ENTRY: Entry = Entry {
    ordinal: 0,
    space: 0,
    words: 0,
};

// A head that was judged where this was the least key that might come: of a refused one the entry is told as all zero, and the key as it was.
fn of_head(least: u64, judged: Result<Head, Refused>) -> Numbers {
    let (number, head) = match judged {
        Ok(head) => (0, head),
        Err(refused) => (
            refused.reason.number(),
            Head {
                entry: NO_ENTRY,
                least,
            },
        ),
    };
    Numbers::one(number)
        .with_wide(head.entry.ordinal)
        .with(head.entry.space)
        .with(head.entry.words)
        .with_wide(head.least)
}

// captions::judge_head.
pub(crate) fn judge(payload: &[u8]) -> Numbers {
    let end = after_bytes(payload, MOST_BYTES, 8, 12);
    if payload.len() != end {
        return Numbers::none();
    }
    let least = wide(payload, 0);
    of_head(least, captions::judge_head(least, part(payload, 12, end)))
}

// The entry that the first numbers tell.
fn entry(payload: &[u8]) -> Entry {
    Entry {
        ordinal: wide(payload, 0),
        space: number(payload, 8),
        words: number(payload, 12),
    }
}

fn put_filled(payload: &[u8], head: &mut [u8], answer: &mut [u8]) -> usize {
    let result = captions::put_head(entry(payload), head);
    let at_head = put_numbers(answer, Numbers::of_result(result));
    put_bytes(answer, at_head, head)
}

// captions::put_head.
pub(crate) fn with_room(payload: &[u8], answer: &mut [u8]) -> usize {
    let mut head = [0u8; MOST_BYTES];
    if after_bytes(payload, MOST_BYTES, 16, 20) != payload.len() {
        return 0;
    }
    put_filled(payload, taken_bytes(payload, 16, 20, &mut head), answer)
}
