// Words: ten bits, 0 to 1023, held in 16; and words as bytes, two per word, low byte first.
#![tactic(auto)]

ghost use Rattle.std.specs.List.{position};
ghost use Rattle.std.specs.Prelude.{◌≡◌, ◌↔◌, ◌||◌, true, ℕ, ◌+◌, ◌*◌, ◌/◌, ◌%◌, ◌<◌, ◌≤◌, ltb, length, get_or};
ghost use Rattle.refusal.specs.Answer.{written_by};
ghost use Rattle.refusal.specs.Reasons.{answered};
ghost use Rattle.words.specs.Words.{tab, most_word, least_sample, most_sample, fill_at, over_refusal};
ghost use Rattle.words.specs.Passes.{Sampled};
ghost use Rattle.words.specs.Bytes.{word_of_bytes, words_of, bytes_of, pairs_refusal};

use refusal::{Reason, Refused};

// The highest word of ten bits.
pub const MOST_WORD: u16 = 1023;

// A sample is 4 to 1019.
pub const LEAST_SAMPLE: u16 = 4;

pub const MOST_SAMPLE: u16 = 1019;

// Fill by offset: a word for even and a word for odd offsets.
#[derive(Clone, Copy)]
pub struct FillWords {
    pub even: u16,
    pub odd: u16,
}

impl FillWords {
    // The word of fill at an offset.
    pub fn at(self, offset: usize) -> u16
        ensures { result ≡ fill_at self offset }
    {
        if offset % 2 == 0 { self.even } else { self.odd }
    }
}

// Whether a word is none of the samples 4 to 1019.
pub fn reserved(word: u16) -> bool
    ensures { result ≡ (ltb word least_sample || ltb most_sample word) }
{
    (word < LEAST_SAMPLE) | (MOST_SAMPLE < word)
}

// Whether every word is a sample. No branch leaves the loop, so that it runs on vectors; and inlined, so that a length that a caller knows is known
// to it.
#[inline]
pub fn all_samples(words: &[u16]) -> bool
    ensures { (result ≡ true) ↔ Sampled (λ k. get_or words.now k 0) (length words.now) }
{
    let mut well = true;
    for word in words {
        well = well & !reserved(*word);
    }
    well
}

// 5 at the first word over 1023, or number 0. The search is for the place only: all words are judged at once before it.
pub fn first_over(words: &[u16]) -> Result<(), Refused>
    ensures { answered result ≡ over_refusal words.now }
{
    if any_of(words) <= MOST_WORD {
        return Ok(());
    }
    match place_over(words) {
        Some(i) => Err(Reason::Over.at(i)),
        None => Ok(()),
    }
}

// Where the first word over 1023 stands.
fn place_over(words: &[u16]) -> Option<usize>
    ensures { result ≡ position (λ w. ltb most_word w) words.now }
{
    words.iter().position(|word| MOST_WORD < *word)
}

// All words or'ed: no word is larger.
fn any_of(words: &[u16]) -> u16
    ensures { (i : ℕ) → i < length words.now → get_or words.now i 0 ≤ result }
{
    let mut all: u16 = 0;
    for word in words {
        all = *word | all;
    }
    all
}

// Two bytes as a word, low byte first.
pub fn word_of(low: u8, high: u8) -> u16
    ensures { result ≡ low + 256 * high }
{
    u16::from_le_bytes([low, high])
}

// Two words as one number, which the processor compares at once.
pub fn pair_of(first: u16, second: u16) -> u32
    ensures { result ≡ first + 65536 * second }
{
    u32::from(first) + 65536 * u32::from(second)
}

// The word of the two bytes at an offset of the bytes.
fn word_at(bytes: &[u8], at: usize) -> u16
    requires { at + 2 ≤ length bytes.now }
    ensures { result ≡ word_of_bytes bytes.now at }
{
    word_of(bytes[at], bytes[at + 1])
}

// Copies the words of bytes out. By an index: two slices are walked at two strides.
fn copy_words(bytes: &[u8], words: &mut [u16])
    requires { length bytes.now ≡ 2 * length words.old }
    ensures { words.new ≡ tab (length words.old) (λ k. word_of_bytes bytes.now (2 * k)) }
{
    for k in 0..words.len() {
        words[k] = word_at(bytes, 2 * k);
    }
}

// What is wrong where so many bytes are to be so many words.
fn pairs_refusal(bytes: usize, words: usize) -> Result<(), Refused>
    ensures { answered result ≡ pairs_refusal bytes words }
{
    if bytes % 2 != 0 || bytes / 2 != words {
        return Err(Reason::WrongLength.at(0));
    }
    Ok(())
}

// Takes the words of bytes. Bytes that are not twice the words are 3, and no word is written.
pub fn to_words(bytes: &[u8], words: &mut [u16]) -> Result<(), Refused>
    ensures answer { answered result ≡ pairs_refusal (length bytes.now) (length words.old) }
    ensures words { words.new ≡ written_by (answered result) (words_of bytes.now) words.old }
{
    pairs_refusal(bytes.len(), words.len())?;
    copy_words(bytes, words);
    Ok(())
}

// Copies the bytes of words out, by an index as well.
fn copy_bytes(words: &[u16], bytes: &mut [u8])
    requires { length bytes.old ≡ 2 * length words.now }
    ensures { bytes.new ≡ bytes_of words.now }
{
    for k in 0..words.len() {
        let [low, high] = words[k].to_le_bytes();
        bytes[2 * k] = low;
        bytes[2 * k + 1] = high;
    }
}

// Gives the bytes of words. Bytes that are not twice the words are 3, and no byte is written.
pub fn to_bytes(words: &[u16], bytes: &mut [u8]) -> Result<(), Refused>
    ensures answer { answered result ≡ pairs_refusal (length bytes.old) (length words.now) }
    ensures bytes { bytes.new ≡ written_by (answered result) (bytes_of words.now) bytes.old }
{
    pairs_refusal(bytes.len(), words.len())?;
    copy_bytes(words, bytes);
    Ok(())
}
