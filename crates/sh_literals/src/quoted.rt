ghost use Rattle.std.specs.Prelude.{◌≡◌, ◌*◌, ◌<◌, ◌≤◌, ◌/◌, drop, length, IfOk, IfSome};
ghost use Rattle.std.specs.Prelude.{map};
ghost use Rattle.std.specs.List.{All};
ghost use Rattle.sh_base.specs.Cells.{bits_of};
ghost use Rattle.sh_literals.specs.LiteralCells.{
  all_of,
  bytes_of as bytes_in_text,
  cells_of_bytes as cells_in_bytes,
  hex_value as value_of_hex,
  little_endian as number_of_bytes,
  paired as paired_digits,
  quoted_cells as cells_of_quoted,
};

use sh_base::{Cell, Cells, Items, Mem, Text, Width};
use std::alloc::Global;

/// The value of a hexadecimal digit.
fn hex_value(byte: u8) -> Option<u8>
    ensures value { result ≡ value_of_hex byte }
    ensures within { IfSome result (λ digit. digit < 16) }
{
    if 48 <= byte && byte <= 57 {
        return Some(byte - 48);
    }
    if 97 <= byte && byte <= 102 {
        return Some(byte - 87);
    }
    if 65 <= byte && byte <= 70 {
        return Some(byte - 55);
    }
    None
}

/// The values of hexadecimal digits, where each byte is one.
fn digits(alloc: Global, text: &[u8]) -> Result<Option<Text>, Mem>
    ensures value { IfOk result (λ it. it ≡ all_of (map value_of_hex text.now)) }
    ensures within { IfOk result (λ it. IfSome it (All (λ digit. digit < 16))) }
{
    let mut values: Vec<u8> = Vec::new(alloc);
    for byte in text {
        match hex_value(*byte) {
            Some(value) => values.push(value)?,
            None => return Ok(None),
        }
    }
    Ok(Some(Items::from_vec(values)))
}

/// The bytes of digits in pairs, the high one first.
#[tactic(auto, using(crate::proofs::Wholes::no_front))]
fn paired(alloc: Global, digits: &[u8]) -> Result<Option<Text>, Mem>
    requires { All (λ digit. digit < 16) digits.now }
    ensures { IfOk result (λ it. it ≡ paired_digits digits.now) }
{
    let mut bytes: Vec<u8> = Vec::new(alloc);
    let mut rest = digits;
    while let Some((high, more)) = rest.split_first() {
        let Some((low, behind)) = more.split_first() else {
            return Ok(None);
        };
        bytes.push(*high * 16 + *low)?;
        rest = behind;
    }
    Ok(Some(Items::from_vec(bytes)))
}

/// The number whose bytes these are, the low one first.
fn little_endian(bytes: &[u8]) -> u64
    requires { length bytes.now ≤ 8 }
    ensures { result ≡ number_of_bytes bytes.now }
{
    let mut number: u64 = 0;
    let mut at = bytes.len();
    while at > 0 {
        at -= 1;
        number = number * 256 + u64::from(bytes[at]);
    }
    number
}

/// The cells of so many bytes each.
fn cells_of_bytes(alloc: Global, size: usize, bytes: &[u8]) -> Result<Option<Cells>, Mem>
    requires some { 0 < size }
    requires within { size ≤ 8 }
    ensures { IfOk result (λ cells. cells ≡ cells_in_bytes size bytes.now) }
{
    if bytes.len() % size != 0 {
        return Ok(None);
    }
    let mut cells: Vec<Cell> = Vec::new(alloc);
    for at in 0..bytes.len() / size {
        let (_, rest) = bytes.split_at(at * size);
        let (front, _) = rest.split_at(size);
        cells.push(Cell::Val(little_endian(front)))?;
    }
    Ok(Some(Items::from_vec(cells)))
}

/// The bytes of a string of `0x` and digits in pairs.
fn bytes_of(alloc: Global, text: &[u8]) -> Result<Option<Text>, Mem>
    ensures { IfOk result (λ bytes. bytes ≡ bytes_in_text text.now) }
{
    if !text.starts_with(b"0x") {
        return Ok(None);
    }
    let (_, rest) = text.split_at(2);
    match digits(alloc, rest)? {
        Some(digits) => paired(alloc, digits.as_slice()),
        None => Ok(None),
    }
}

/// How many whole bytes a number of the width has; 0 where it has less than one.
fn byte_count(width: Width) -> usize
    ensures { result ≡ bits_of width / 8 }
{
    match width {
        Width::I1 => 0,
        Width::I8 => 1,
        Width::I16 => 2,
        Width::I32 => 4,
        Width::I64 => 8,
    }
}

/// The cells of a string.
pub(crate) fn quoted_cells(alloc: Global, width: Width, text: &[u8]) -> Result<Option<Cells>, Mem>
    ensures { IfOk result (λ cells. cells ≡ cells_of_quoted width text.now) }
{
    if width == Width::I1 {
        return Ok(None);
    }
    match bytes_of(alloc, text)? {
        Some(bytes) => cells_of_bytes(alloc, byte_count(width), bytes.as_slice()),
        None => Ok(None),
    }
}
