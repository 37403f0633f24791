ghost use Rattle.std.specs.Prelude.{◌≡◌, ◌==◌, is_some, map, IfOk};
ghost use Rattle.std.specs.Char.{is_ascii_digit};
ghost use Rattle.std.specs.List.{list_all, slice_split};
ghost use Rattle.sh_words.specs.Values.{decimal_of, is_decimal, numbers_of, order_of, size_of};
ghost use Rattle.sh_words.specs.Values.{traversal_of};

use sh_base::{Mem, Numbers, Order, Traversal};
use std::alloc::{AllocError, Global};

/// The traversal of this name.
pub(crate) fn traversal(text: &str) -> Option<Traversal>
    ensures { result ≡ traversal_of text.now }
{
    match text {
        "forward" => Some(Traversal::Forward),
        "backward" => Some(Traversal::Backward),
        "forward-backward" => Some(Traversal::ForwardBackward),
        "backward-forward" => Some(Traversal::BackwardForward),
        _ => None,
    }
}

/// The order of this name.
pub(crate) fn order(text: &str) -> Option<Order>
    ensures { result ≡ order_of text.now }
{
    match text {
        "round" => Some(Order::Round),
        "reverse" => Some(Order::Reverse),
        _ => Some(Order::Seed(decimal(text.strip_prefix("seed:")?)?)),
    }
}

/// The number of 1 to 20 digits, below `2^64`.
pub(crate) fn decimal(text: &str) -> Option<u64>
    ensures { result ≡ decimal_of text.now }
{
    if text.len() > 20 {
        return None;
    }
    // `parse` would take a sign
    if !are_digits(text) {
        return None;
    }
    text.parse::<u64>().ok()
}

/// Whether the text is of digits alone.
fn are_digits(text: &str) -> bool
    ensures { result ≡ list_all is_ascii_digit text.now }
{
    text.bytes().all(|b| b.is_ascii_digit())
}

/// Whether the text is a decimal.
fn is_number(text: &str) -> bool
    ensures { result ≡ is_decimal text.now }
{
    decimal(text).is_some()
}

/// The number, where it is from 1 to 256.
pub(crate) fn size(text: &str) -> Option<u64>
    ensures { result ≡ size_of text.now }
{
    match decimal(text) {
        Some(n) if n >= 1 && n <= 256 => Some(n),
        _ => None,
    }
}

/// Whether the text is of decimals, with a comma between two.
pub(crate) fn are_numbers(text: &str) -> bool
    ensures { result ≡ is_some (numbers_of text.now) }
{
    text.split(',').all(|part| is_number(part))
}

/// The decimals of the text.
pub(crate) fn numbers(alloc: Global, text: &str) -> Result<Option<Numbers>, Mem>
    ensures { IfOk result (λ r. r ≡ numbers_of text.now) }
{
    let pieces = pieces(alloc, text)?;
    let mut all = Numbers::new(alloc);
    for piece in &pieces {
        match decimal(piece) {
            Some(number) => all.push(i128::from(number))?,
            None => return Ok(None),
        }
    }
    Ok(Some(all))
}

/// What stands between the commas.
fn pieces(alloc: Global, text: &str) -> Result<Vec<&str>, AllocError>
    ensures { IfOk result (λ v. map (λ s. s.now) v.items ≡ slice_split (λ b. b == 44) text.now) }
{
    text.split(',').collect(alloc)
}
