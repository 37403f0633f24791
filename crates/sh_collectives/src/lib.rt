//! What collectives give, computed: the result at a place of a group by the operands of its
//! members, or none where the group mismatches. The definitions stand in `sh_sem`.
#![tactic(auto)]

mod answers;
mod combining;
mod described;
mod groups;
mod joining;
mod laws;
mod members;
mod moving;
mod parts;
mod results;
mod shapes;
mod shifts;
mod sizes;
mod verified;
mod ways;

pub use answers::shape_at;
pub use groups::collect;
pub use laws::device_laws;
pub use results::collect_at;
pub use sizes::Shaped;
pub use verified::device_form_laws;
