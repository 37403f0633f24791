//! What operations give, computed: the tensor that an operation gives of its operands, or none
//! where it is stuck. The definitions stand in `sh_sem`.
#![tactic(auto)]

mod constants;
mod creators;
mod devices;
mod elements;
mod evaluation;
mod extents;
mod functions;
mod laws;
mod layouts;
mod local;
mod pieces;
mod reading;
mod reshapes;
mod rules;
mod shapes;
mod slices;
mod steps;
mod store;
mod typing;
mod uses;
mod values;
mod work;

pub use constants::{constant, undefined};
pub use devices::{can_run_laws, collective_laws, local_laws, scope_laws};
pub use elements::{element_of_one, element_of_three, element_of_two};
pub use evaluation::{OpSeat, eval_borrowed, eval_op};
pub use functions::{Evaluated, eval_func, returned};
pub use laws::can_evaluate_laws;
pub use local::{axes_on, step_local};
pub use sh_loops::Formula;
