//! What the programs do, from command words and an input to an output, an error line and a status.
#![tactic(auto)]

mod judging;
mod laws;
mod line;
mod main_call;
mod status;
mod vector_sum;

pub use laws::{complete, one_answer, one_reading, steps_to_sum};
pub use main_call::shard_main;
pub use sh_words::Tool;
pub use status::{Passed, Status};
