//! Shardings: how a tensor is divided among the devices of a grid, and the cuts that devices hold.
#![tactic(auto)]

mod admission;
mod admitted;
mod axis_lists;
mod cuts;
mod halo_sizes;
mod laws;
mod local_sizes;
mod made;
mod normal;
mod offset_lists;
mod offsets;
mod order;
mod padding;
mod parts;
mod positions;
mod reading;
mod shardings;
mod spelling;
mod together;
mod views;

pub use admission::{AdmitRefusal, admit};
pub use admitted::{is_admitted, is_even_view};
pub use cuts::cut;
pub use laws::{admission_laws, cut_laws, equality_laws, owner_laws};
pub use made::{from_dimensions, without_halos};
pub use normal::same;
pub use order::{compare, compare_views};
pub use parts::{size, start};
pub use reading::{
    axes, dimension, dimensions, grid, halo, is_even, local_extent, offset, part_count, rank, whole,
};
pub use shardings::{Dimension, Dimensions, Mark, Sharding};
pub use spelling::raw;
pub use together::{Put, put_together};
pub use views::{
    AxisList, DimensionView, Listing, MarkView, mark_view, unsplit_view, view, views_of,
};
