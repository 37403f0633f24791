//! Which structured operations there are, and what each says of its loops.
ghost use Rattle.std.specs.Prelude.{◌≡◌, ◌<◌, ◌≢◌, [], get_or, length, option_map, Some};
ghost use Rattle.sh_iface_linalg.specs.Reading.{loops_in, meant};
ghost use Rattle.sh_iface_linalg.specs.Structured.{inputs_at, is_fill, kind_of_form};

use crate::maps::DimLoops;
use sh_base::Kind;

/// Which structured operation it is, with the numbers that it writes.
#[derive(Clone, Copy)]
pub enum LinalgKind<'a> {
    Fill,
    Matmul,
    BatchMatmul,
    Matvec,
    Vecmat,
    Dot,
    /// With its permutation.
    Transpose(&'a [i128]),
    /// With the dimensions that the input lacks.
    Broadcast(&'a [i128]),
}

impl<'a> LinalgKind<'a> {
    /// How the parts of a reduction are combined; none where nothing is reduced.
    pub(crate) fn reduction(&self) -> Option<Kind>
        ensures { result ≡ kind_of_form (meant self.now) }
    {
        match self {
            LinalgKind::Matmul
            | LinalgKind::BatchMatmul
            | LinalgKind::Matvec
            | LinalgKind::Vecmat
            | LinalgKind::Dot => Some(Kind::Sum),
            LinalgKind::Fill | LinalgKind::Transpose(_) | LinalgKind::Broadcast(_) => None,
        }
    }

    /// Whether its input is a scalar.
    pub(crate) fn is_fill(&self) -> bool
        ensures { result ≡ is_fill (meant self.now) }
    {
        matches!(self, LinalgKind::Fill)
    }

    /// How many inputs there are.
    pub(crate) fn input_count(&self, rank: usize) -> u32
        ensures { result ≡ length (inputs_at (meant self.now) rank rank) }
    {
        match self {
            LinalgKind::Matmul
            | LinalgKind::BatchMatmul
            | LinalgKind::Matvec
            | LinalgKind::Vecmat
            | LinalgKind::Dot => 2,
            LinalgKind::Fill | LinalgKind::Transpose(_) | LinalgKind::Broadcast(_) => 1,
        }
    }

    /// The loops that the first input follows, by the rank of the result.
    fn first_loops(&self, rank: usize) -> DimLoops<'a>
        ensures { loops_in result ≡ get_or (inputs_at (meant self.now) rank rank) 0 [] }
    {
        match self {
            LinalgKind::Fill => DimLoops::Listed(&[]),
            LinalgKind::Matmul => DimLoops::Listed(&[0, 2]),
            LinalgKind::BatchMatmul => DimLoops::Listed(&[0, 1, 3]),
            LinalgKind::Matvec => DimLoops::Listed(&[0, 1]),
            LinalgKind::Vecmat => DimLoops::Listed(&[1]),
            LinalgKind::Dot => DimLoops::Listed(&[0]),
            LinalgKind::Transpose(permutation) => DimLoops::Places(rank, permutation),
            LinalgKind::Broadcast(dimensions) => DimLoops::Unlisted(rank, dimensions),
        }
    }

    /// The loops that the second input follows; none where there is no second.
    fn second_loops(&self, rank: usize) -> DimLoops<'a>
        ensures { loops_in result ≡ get_or (inputs_at (meant self.now) rank rank) 1 [] }
    {
        match self {
            LinalgKind::Matmul => DimLoops::Listed(&[2, 1]),
            LinalgKind::BatchMatmul => DimLoops::Listed(&[0, 3, 2]),
            LinalgKind::Matvec => DimLoops::Listed(&[1]),
            LinalgKind::Vecmat => DimLoops::Listed(&[1, 0]),
            LinalgKind::Dot => DimLoops::Listed(&[0]),
            LinalgKind::Fill | LinalgKind::Transpose(_) | LinalgKind::Broadcast(_) => {
                DimLoops::Listed(&[])
            }
        }
    }

    /// The loops that an input follows.
    pub(crate) fn input_loops(&self, rank: usize, v: u64) -> DimLoops<'a>
        requires { v < length (inputs_at (meant self.now) rank rank) }
        ensures { loops_in result ≡ get_or (inputs_at (meant self.now) rank rank) v [] }
    {
        if v == 0 {
            self.first_loops(rank)
        } else {
            self.second_loops(rank)
        }
    }
}
