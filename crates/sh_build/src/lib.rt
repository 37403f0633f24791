//! What the parts of a text stand for, form by form, and the steps that make them.
#![tactic(auto)]

mod arith_forms;
mod boxed;
mod item_forms;
mod laws;
mod list_forms;
mod literal_forms;
mod make;
mod operation_forms;
mod parts;
mod readings;
mod region_forms;
mod regions;
mod row;
mod sections;
mod shard_forms;
mod sides;
mod small_forms;
mod structured_forms;
mod tensor_forms;
mod words;

pub use boxed::Boxed;
pub use laws::rows_have_sizes;
pub use make::open;
pub use parts::{
    Alias, Arith, BodyTail, Combiner, Contents, Device, Mark, Operands, Part, RightSide,
    StructuredName,
};
pub use row::Row;
