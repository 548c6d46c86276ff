// Timing codes: the fourth word of F, V, H, and the correction of a fourth word that was read.
// F, V, H are one number from 0 to 7: F counts 4, V counts 2, H counts 1. A number, and no three flags: `fourth` and `correct_expecting` take
// every number.
#![tactic(auto)]

ghost use Rattle.std.specs.Prelude.{◌≡◌, ℕ, ◌+◌, ◌*◌, ◌/◌, ◌%◌, ◌^◌};
ghost use Rattle.refusal.specs.Reasons.{number_of, fault_number};
ghost use Rattle.timing.specs.Code.{legal_of, fourth_of, said_by, hopeless_of, seven_of, pattern_correction, correction_of, Bits};
ghost use Rattle.timing.specs.declared.Correction.TheVariants.{Refused};
ghost use Rattle.timing.specs.Report.{Values, values_of, number_where, code_report_of};

use refusal::Reason;
use words::MOST_WORD;

// What correction finds. A bit is told by its number in the word, 2 to 8.
// Refused holds a number, and no Reason: the theorems beyond_correction and only_odd_is_14 speak of it, and code_report takes every one.
#[derive(Clone, Copy, Debug, PartialEq, Eq)]
pub enum Correction {
    Clean { fvh: u32 },
    Repaired { fvh: u32, bit: u32 },
    Refused { number: u32 },
}

// What the reader tells of one code. Not an Option of a bit: document 01 asks for two enum fields, each Clean or Repaired with a bit number.
#[derive(Clone, Copy, Debug, PartialEq, Eq)]
pub enum CodeReport {
    Clean,
    Repaired { bit: u32 },
}

// What the reader tells of a line: both codes in one record.
#[derive(Clone, Copy, Debug, PartialEq, Eq)]
pub struct Report {
    pub eav: CodeReport,
    pub sav: CodeReport,
}

impl Report {
    // Both codes told as clean.
    pub const CLEAN: Report = Report {
        eav: CodeReport::Clean,
        sav: CodeReport::Clean,
    };
}

// The seven bits F, V, H, P3, P2, P1, P0 of a legal code: each flag stands for itself and inverts the protection bits that follow it.
fn legal(fvh: u32) -> u32
    ensures { result ≡ legal_of fvh }
{
    let f = fvh / 4 % 2 * 0b1000111;
    let v = fvh / 2 % 2 * 0b0101011;
    let h = fvh % 2 * 0b0011101;
    f ^ v ^ h
}

// The fourth word that the writer sets.
#[tactic(auto, using(crate::proofs::Laws::legal_below), unfolding(crate::specs::Code::fourth_of))]
pub fn fourth(fvh: u32) -> u16
    ensures { result ≡ fourth_of fvh }
{
    (512 + 4 * legal(fvh)) as u16
}

// The refusal of seven bits that no legal pattern is near, by their number of ones.
#[tactic(auto, unfolding(crate::specs::Code::hopeless_of))]
fn hopeless(pattern: u32) -> Reason
    ensures { number_of result ≡ hopeless_of pattern }
{
    if pattern.count_ones() % 2 == 0 {
        Reason::HopelessEven
    } else {
        Reason::HopelessOdd
    }
}

// What the legal pattern of these F, V, H says of seven bits, if it is within one inverted bit of them.
#[tactic(auto, unfolding(crate::specs::Code::said_by))]
fn near(pattern: u32, fvh: u32) -> Option<Correction>
    ensures { result ≡ said_by fvh pattern }
{
    let difference = pattern ^ legal(fvh);
    match difference.count_ones() {
        0 => Some(Correction::Clean { fvh }),
        1 => Some(Correction::Repaired {
            fvh,
            bit: difference.trailing_zeros() + 2,
        }),
        _ => None,
    }
}

// What seven bits say: the legal pattern within one inverted bit, if there is one.
fn correct_pattern(pattern: u32) -> Correction
    ensures { result ≡ pattern_correction pattern }
{
    for fvh in (0..8).rev() {
        if let Some(correction) = near(pattern, fvh) {
            return correction;
        }
    }
    Correction::Refused {
        number: hopeless(pattern).number(),
    }
}

// The table of the 128 answers: a row for each P3, P2, P1, P0, and in it two hexadecimal digits for each F, V, H, from 111 down to 000. They are
// the repaired bit, 0 where there is none, and F, V, H of the legal code; or the refusal, 08 or 0e. Digits, and no Corrections: a row is one number
// that a shift reads.
fn answers(pattern: u32) -> u64
    ensures { (let told : Values = values_of (pattern_correction (pattern % 128)) in result / 2 ^ (pattern / 16 % 8 * 8) % 256 ≡ told.number + told.fvh + 16 * told.bit) }
{
    match pattern % 16 {
        0b0000 => 0x27_08_08_80_08_70_60_00,
        0b0001 => 0x07_67_77_08_87_08_08_20,
        0b0010 => 0x08_0e_55_08_43_08_08_30,
        0b0011 => 0x37_08_08_44_08_52_0e_08,
        0b0100 => 0x08_56_0e_08_33_08_08_40,
        0b0101 => 0x47_08_08_34_08_0e_51_08,
        0b0110 => 0x83_08_08_24_03_63_73_08,
        0b0111 => 0x08_74_64_04_23_08_08_84,
        0b1000 => 0x08_46_35_08_0e_08_08_50,
        0b1001 => 0x57_08_08_0e_08_32_41_08,
        0b1010 => 0x75_08_05_65_08_22_85_08,
        0b1011 => 0x08_82_25_08_62_02_08_72,
        0b1100 => 0x66_06_08_76_08_86_21_08,
        0b1101 => 0x08_26_81_08_71_08_01_61,
        0b1110 => 0x08_36_45_08_53_08_08_0e,
        _ => 0x0e_08_08_54_08_42_31_08,
    }
}

// What the table says of a word's seven bits. Correction does not ask it yet.
fn looked_up(word: u16) -> Correction
    ensures { result ≡ pattern_correction (seven_of word) }
{
    let pattern = (word / 4 % 128) as u32;
    let column = pattern / 16 * 8;
    let answer = ((answers(pattern) >> column) % 256) as u32;
    // the first of two digits is the repaired bit
    if 15 < answer {
        return Correction::Repaired {
            fvh: answer % 16,
            bit: answer / 16,
        };
    }
    // F, V, H are 7 at the most
    if 7 < answer {
        return Correction::Refused { number: answer };
    }
    Correction::Clean { fvh: answer }
}

// The seven bits of a word that was read as a fourth word, or why it is none: 5, 7.
#[tactic(auto, using(crate::proofs::Laws::over_is_5, crate::proofs::Laws::clear_is_7))]
fn seven_bits(word: u16) -> Result<u32, Reason>
    ensures { Bits word result }
{
    if MOST_WORD < word {
        return Err(Reason::Over);
    }
    if word < 512 {
        return Err(Reason::BitNine);
    }
    Ok((word / 4 % 128) as u32)
}

// The correction of a word that was read as a fourth word, whatever word it is.
#[tactic(auto, using(crate::proofs::Laws::by_pattern))]
pub fn correct(word: u16) -> Correction
    ensures { result ≡ correction_of word }
{
    match seven_bits(word) {
        Ok(pattern) => correct_pattern(pattern),
        Err(reason) => Correction::Refused {
            number: reason.number(),
        },
    }
}

// The same correction, quick where the word is the fourth word of these F, V, H or one bit from it.
#[tactic(auto, using(crate::proofs::Laws::by_pattern))]
pub fn correct_expecting(word: u16, fvh: u32) -> Correction
    ensures { result ≡ correction_of word }
{
    match seven_bits(word) {
        Ok(pattern) => match near(pattern, fvh % 8) {
            Some(correction) => correction,
            None => correct_pattern(pattern),
        },
        Err(reason) => Correction::Refused {
            number: reason.number(),
        },
    }
}

// Why a word is refused by correction, where it is.
#[tactic(auto, using(crate::proofs::Laws::refused_as))]
fn refused_for(word: u16) -> Reason
    ensures { (n : ℕ) → correction_of word ≡ Refused n → number_of result ≡ n }
{
    match seven_bits(word) {
        Ok(pattern) => hopeless(pattern),
        Err(reason) => reason,
    }
}

// What is wrong with a word where these F, V, H are due: what refuses its correction, or that it is corrected to others.
pub fn fault(word: u16, fvh: u32) -> Option<Reason>
    ensures { fault_number result ≡ number_where fvh (correction_of word) }
{
    match correct_expecting(word, fvh) {
        Correction::Clean { fvh: told } | Correction::Repaired { fvh: told, .. } => {
            (told != fvh).then_some(Reason::NotDue)
        }
        Correction::Refused { .. } => Some(refused_for(word)),
    }
}

// What the reader tells of a code: a refused one is told as clean, as document 01 says of a refused line.
pub fn code_report(correction: Correction) -> CodeReport
    ensures { result ≡ code_report_of correction }
{
    match correction {
        Correction::Repaired { bit, .. } => CodeReport::Repaired { bit },
        Correction::Clean { .. } | Correction::Refused { .. } => CodeReport::Clean,
    }
}
