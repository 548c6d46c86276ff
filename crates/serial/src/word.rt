// A word of the low bits of a number.
ghost use Rattle.std.specs.Prelude.{◌≡◌, ◌%◌};

// The low ten bits, as a word.
pub(crate) fn low_ten(bits: u32) -> u16
    ensures { result ≡ bits % 1024 }
{
    (bits % 1024) as u16
}
