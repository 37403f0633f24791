use crate::types::Types;
use sh_base::Text;

/// The attributes of `call`.
#[derive(Drop)]
pub struct Call {
    /// The name of the function that is called.
    pub callee: Text,
    /// The written types of the operands; a text may write more or fewer than there are operands.
    pub operand_types: Types,
}
