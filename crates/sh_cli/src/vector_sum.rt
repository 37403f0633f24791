ghost use Rattle.std.specs.Prelude.{◌≡◌, ◌==◌, ℕ, false, ◌/◌, ◌^◌, ◌<◌, ◌≤◌, ◌↔◌, ◌⊎◌, List, ◌∷◌, ◌++◌, IsTrue, Some, IfOk, IfSome, IfNone, IsSomeAnd, length, string_bytes};
ghost use Rattle.std.specs.Fmt.{decimal};
ghost use Rattle.std.specs.List.{list_any, position};
ghost use Rattle.sh_cli.specs.VectorSum.{vector_type, source_layout, source_text, partitioned_layout, partitioned_text, IsVectorSum, IsDivisible, IsWithinLimits};

use sh_base::{MAX_CELLS, Mem};
use sh_grid::MAX_DEVICES;
use std::alloc::Global;

/// The sum of two vectors of 32-bit cells, split over a line of devices: the one form of module that
/// is partitioned today.
#[derive(Clone, Copy, Debug, PartialEq, Eq)]
pub(crate) struct VectorSum {
    /// The cells of each vector.
    pub extent: u64,
    /// The devices of the grid.
    pub devices: u64,
}

impl VectorSum {
    /// The sum that a text is the source form of, if it is one.
    pub fn read(alloc: Global, text: &[u8]) -> Result<Option<VectorSum>, Mem>
        ensures some { IfOk result (λ read.
            IfSome read (λ sum. IsVectorSum text.now sum.extent sum.devices)) }
        ensures none { IfOk result (λ read.
            IfNone read ((extent devices : ℕ) → ¬ (IsVectorSum text.now extent devices))) }
    {
        let Some(sum) = guess(text) else {
            return Ok(None);
        };
        if !sum.is_within_limits() {
            return Ok(None);
        }
        if sum.source_text(alloc)?.as_bytes() != text {
            return Ok(None);
        }
        Ok(Some(sum))
    }

    /// Whether there are cells and devices, and not too many.
    fn is_within_limits(self) -> bool
        ensures { IsTrue result ↔ IsWithinLimits self.extent self.devices }
    {
        (1..=MAX_CELLS).contains(&self.extent) && (1..=MAX_DEVICES).contains(&self.devices)
    }

    /// Whether each device can have an equal part of each vector.
    pub fn is_divisible(self) -> bool
        requires { 0 < self.devices }
        ensures { IsTrue result ↔ IsDivisible self.extent self.devices }
    {
        self.extent.is_multiple_of(self.devices)
    }

    /// The text of the module in source form.
    fn source_text(self, alloc: Global) -> Result<String, Mem>
        ensures { IfOk result (λ text. string_bytes text ≡ source_text self.extent self.devices) }
    {
        let vector = vector_type(alloc, self.extent)?;
        let devices = format!(in alloc; "{}", self.devices)?;
        source_layout(alloc, vector.as_str(), devices.as_str())
    }

    /// The text of the module in device form.
    pub fn partitioned_text(self, alloc: Global) -> Result<String, Mem>
        requires { 0 < self.devices }
        ensures { IfOk result (λ text. string_bytes text ≡ partitioned_text self.extent self.devices) }
    {
        let whole = vector_type(alloc, self.extent)?;
        let local = vector_type(alloc, self.extent / self.devices)?;
        let devices = format!(in alloc; "{}", self.devices)?;
        partitioned_layout(alloc, whole.as_str(), local.as_str(), devices.as_str())
    }
}

/// The sum with the numbers that stand where a text in source form has its own.
fn guess(text: &[u8]) -> Option<VectorSum>
    ensures { (extent devices : ℕ) → IsVectorSum text.now extent devices
        → result ≡ Some (record { extent = extent; devices = devices }) }
{
    let (devices, rest) = number_between(text, b"module {\n  shard.grid @g(shape = ", b')')?;
    let (extent, _) = number_between(rest, b"\n  func.func @f(%a: tensor<", b'x')?;
    Some(VectorSum { extent, devices })
}

/// The decimal that follows `before` at the start of a text and goes up to the first `after`, and
/// what comes after that.
fn number_between<'a>(text: &'a [u8], before: &[u8], after: u8) -> Option<(u64, &'a [u8])>
    requires { (after < 48) ⊎ (57 < after) }
    ensures { (n : ℕ) (rest : List ℕ) → n < 2 ^ 64
        → text.now ≡ before.now ++ (decimal n ++ after ∷ rest)
        → IsSomeAnd result (λ found. (found.0 ≡ n) × (found.1.now ≡ rest)) }
{
    let rest = text.strip_prefix(before)?;
    let (digits, rest) = split_at_byte(rest, after)?;
    Some((decimal_value(digits)?, rest))
}

/// What stands before the first such byte, and what stands after it.
fn split_at_byte(text: &[u8], byte: u8) -> Option<(&[u8], &[u8])>
    ensures { (before after : List ℕ) → list_any (λ b. b == byte) before ≡ false
        → text.now ≡ before ++ byte ∷ after
        → IsSomeAnd result (λ parts. (parts.0.now ≡ before) × (parts.1.now ≡ after)) }
{
    let end = position_of(text, byte)?;
    Some((&text[..end], &text[end + 1..]))
}

/// The index of the first such byte.
fn position_of(text: &[u8], byte: u8) -> Option<usize>
    ensures at { result ≡ position (λ b. b == byte) text.now }
    ensures within { IfSome result (λ end. end < length text.now) }
{
    text.iter().position(|other| *other == byte)
}

/// The number that a decimal stands for.
fn decimal_value(digits: &[u8]) -> Option<u64>
    ensures { (n : ℕ) → n < 2 ^ 64 → digits.now ≡ decimal n → result ≡ Some n }
{
    match str::from_utf8(digits) {
        Ok(text) => text.parse::<u64>().ok(),
        Err(_) => None,
    }
}

/// The type of a vector of 32-bit cells.
fn vector_type(alloc: Global, extent: u64) -> Result<String, Mem>
    ensures { IfOk result (λ text. string_bytes text ≡ vector_type extent) }
{
    Ok(format!(in alloc; "tensor<{extent}xi32>")?)
}

/// The module in source form, with these texts for the vectors' type and for the number of devices.
#[rattlefmt::skip]
fn source_layout(alloc: Global, vector: &str, devices: &str) -> Result<String, Mem>
    ensures { IfOk result (λ text. string_bytes text ≡ source_layout vector.now devices.now) }
{
    let pieces = [
        "module {\n",
        "  shard.grid @g(shape = ", devices, ")\n",
        "  func.func @f(%a: ", vector, ", %b: ", vector, ") -> ", vector, " {\n",
        "    %s = shard.sharding @g split_axes = [[0]] : !shard.sharding\n",
        "    %a1 = shard.shard %a to %s : ", vector, "\n",
        "    %b1 = shard.shard %b to %s : ", vector, "\n",
        "    %c = arith.addi %a1, %b1 : ", vector, "\n",
        "    %c1 = shard.shard %c to %s : ", vector, "\n",
        "    return %c1 : ", vector, "\n",
        "  }\n",
        "}\n",
    ];
    Ok(pieces.concat(alloc)?)
}

/// The module in device form, with these texts for the types of a whole vector and of a device's part
/// and for the number of devices.
#[rattlefmt::skip]
fn partitioned_layout(alloc: Global, whole: &str, local: &str, devices: &str) -> Result<String, Mem>
    ensures { IfOk result (λ text. string_bytes text ≡ partitioned_layout whole.now local.now devices.now) }
{
    let pieces = [
        "module {\n",
        "  shard.grid @g(shape = ", devices, ")\n",
        "  shardrun.device @f on @g(", whole, " split_axes = [[0]], ", whole, " split_axes = [[0]]) -> (", whole, " split_axes = [[0]])\n",
        "  func.func @f(%arg0 : ", local, ", %arg1 : ", local, ") -> ", local, " {\n",
        "    %0 = arith.addi %arg0, %arg1 : ", local, "\n",
        "    return %0 : ", local, "\n",
        "  }\n",
        "}\n",
    ];
    Ok(pieces.concat(alloc)?)
}
