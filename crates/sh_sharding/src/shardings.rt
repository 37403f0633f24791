use sh_base::{Items, Shape};
use sh_grid::Grid;
use std::marker::Model;

/// Where the parts of a dimension begin.
#[derive(Debug, Drop)]
pub enum Mark {
    /// Each part has the extent over the number of parts, rounded up, as long as the extent lasts.
    Balanced,
    /// At these offsets: the start of each part, then the extent.
    Offsets(Items<u64>),
}

/// How one dimension of a tensor is divided among the devices of a grid.
#[derive(Debug, Drop)]
pub struct Dimension {
    /// The extent of the whole tensor.
    pub extent: u64,
    /// The grid axes that split the dimension, the outermost first. A dimension without axes isn't
    /// split.
    pub axes: Shape,
    /// Where the parts begin.
    pub mark: Mark,
    /// How many cells a shard holds besides its own at its start.
    pub low: u64,
    /// The same at its end.
    pub high: u64,
}

/// The dimensions of a tensor.
pub type Dimensions = Items<Dimension>;

/// An admitted sharding of a tensor on a grid, in normal form, with its whole shape.
#[derive(Debug, Drop)]
pub struct Sharding {
    pub(crate) grid: Grid,
    pub(crate) whole: Shape,
    pub(crate) dimensions: Dimensions,
}

impl Model for Sharding {
    ghost use Rattle.sh_sharding.specs.Sharding.{ShardingValue, IsHeld};

    ghost Value = { ShardingValue };

    ghost view = { λ s. record { grid = s.grid; dimensions = s.dimensions } };

    ghost invariant = { λ s. IsHeld s.whole (record { grid = s.grid; dimensions = s.dimensions }) };
}
