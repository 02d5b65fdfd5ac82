// Text, written piece by piece: each function writes its piece over the first bytes of the memory that it is lent, and returns how many they are.
#![tactic(auto)]

ghost use Rattle.std.specs.Prelude.{◌≡◌, ◌≤◌, [], ◌∷◌, length};
ghost use Rattle.text.specs.Text.{in_decimal};
ghost use Rattle.text.specs.Written.{Fits, Wrote};

// A byte.
pub fn put_byte(byte: u8, out: &mut [u8]) -> usize
    requires { Fits (byte ∷ []) out.old }
    ensures { Wrote (byte ∷ []) out.old out.new result }
{
    out[0] = byte;
    1
}

// Bytes as they stand. (Written out where it is called: a word's length is then known, and copying it calls nothing.)
#[inline(always)]
pub fn put_bytes(bytes: &[u8], out: &mut [u8]) -> usize
    requires { Fits bytes.now out.old }
    ensures { Wrote bytes.now out.old out.new result }
{
    out[..bytes.len()].copy_from_slice(bytes);
    bytes.len()
}

// How many digits a number has. (Up to four by comparisons, which the processor guesses: where the next piece begins waits for this, and `ilog10` takes longer than all else of a short number.)
#[tactic(auto, using(crate::proofs::Decimal::one_digit, crate::proofs::Decimal::two_digits, crate::proofs::Decimal::three_digits, crate::proofs::Decimal::four_digits, crate::proofs::Decimal::decimal_size))]
#[inline]
pub fn digits(n: u32) -> usize
    ensures size { result ≡ length (in_decimal n) }
    ensures few { result ≤ 10 }
{
    match n {
        0..10 => 1,
        10..100 => 2,
        100..1000 => 3,
        1000..10000 => 4,
        _ => n.ilog10() as usize + 1,
    }
}

// A number of so many digits in decimal. (Written out for each: the compiler then writes them without a test.)
#[tactic(auto, using(crate::proofs::Decimal::decimal_printed))]
#[inline(always)]
fn put_digits(n: u32, size: usize, out: &mut [u8]) -> usize
    requires size { size ≡ length (in_decimal n) }
    requires room { Fits (in_decimal n) out.old }
    ensures { Wrote (in_decimal n) out.old out.new result }
{
    itoa::write_digits(u64::from(n), out, size);
    size
}

// A number in decimal.
#[tactic(auto, using(crate::proofs::Decimal::one_digit, crate::proofs::Decimal::two_digits, crate::proofs::Decimal::three_digits, crate::proofs::Decimal::four_digits))]
pub fn put_decimal(n: u32, out: &mut [u8]) -> usize
    requires { Fits (in_decimal n) out.old }
    ensures { Wrote (in_decimal n) out.old out.new result }
{
    match n {
        0..10 => put_digits(n, 1, out),
        10..100 => put_digits(n, 2, out),
        100..1000 => put_digits(n, 3, out),
        1000..10000 => put_digits(n, 4, out),
        _ => put_digits(n, digits(n), out),
    }
}
