ghost use Rattle.std.specs.Prelude.{◌≡◌, ◌<◌, ◌≤◌, ◌%◌, ◌^◌};
ghost use Rattle.sh_base.specs.Cells.{bits_of};
ghost use Rattle.sh_int.specs.Signed.{signed_of, reduced, least_of, greatest_of, minus_one_of, TwosComplement};

use sh_base::Width;

/// How many bits a width has.
pub(crate) fn bits(w: Width) -> u32
    ensures value { result ≡ bits_of w }
    ensures range { result ≤ 64 }
{
    match w {
        Width::I1 => 1,
        Width::I8 => 8,
        Width::I16 => 16,
        Width::I32 => 32,
        Width::I64 => 64,
    }
}

/// How many numbers a width has.
pub(crate) fn modulus(w: Width) -> u128
    ensures value { result ≡ 2 ^ bits_of w }
    ensures range { result ≤ 2 ^ 64 }
    ensures some { 2 ≤ result }
{
    1 << bits(w)
}

/// The number that the width keeps of another.
pub(crate) fn low_bits(w: Width, number: u128) -> u64
    ensures { result ≡ number % 2 ^ bits_of w }
{
    (number % modulus(w)) as u64
}

/// The integer that a number stands for in two's complement.
pub(crate) fn signed(w: Width, number: u64) -> i128
    requires { number < 2 ^ bits_of w }
    ensures value { result ≡ signed_of w number }
{
    let integer = i128::from(number);
    let numbers = modulus(w) as i128;
    if 2 * integer < numbers {
        integer
    } else {
        integer - numbers
    }
}

/// The number that the width keeps of an integer.
pub(crate) fn wrapped(w: Width, integer: i128) -> u64
    ensures { result ≡ reduced w integer }
{
    integer.rem_euclid(modulus(w) as i128) as u64
}

/// The number of the least signed integer.
pub(crate) fn least(w: Width) -> u64
    ensures { result ≡ least_of w }
{
    1 << (bits(w) - 1)
}

/// The number of -1: all bits are ones.
pub(crate) fn minus_one(w: Width) -> u64
    ensures { result ≡ minus_one_of w }
{
    u64::MAX >> (64 - bits(w))
}

/// Two's complement: the numbers of a width stand for its signed integers, one for one.
///
/// The function does nothing: its contract is the law.
pub fn signed_laws(w: Width)
    ensures { TwosComplement w }
{}
