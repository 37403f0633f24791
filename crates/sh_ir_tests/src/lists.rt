ghost use Rattle.std.specs.Prelude.{◌≡◌, IfOk};

use sh_base::{Items, Mem, Text};
use std::alloc::Global;

/// A text of these bytes.
pub fn text(alloc: Global, bytes: &[u8]) -> Result<Text, Mem>
    ensures { IfOk result (λ list. list ≡ bytes.now) }
{
    Ok(Items::from_vec(Vec::from_slice(alloc, bytes)?))
}
