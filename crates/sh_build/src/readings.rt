ghost use Rattle.std.specs.Prelude.{◌≡◌};
ghost use Rattle.sh_build.specs.Readings.{
  alias_in,
  aliases_in,
  arg_in,
  args_in,
  bin_op_in,
  body_op_in,
  cast_op_in,
  combiner_in,
  constant_in,
  constants_in,
  contents_in,
  cut_in,
  cuts_in,
  dim_in,
  dims_in,
  flag_in,
  groups_in,
  ids_in,
  iterators_in,
  kind_in,
  lists_in,
  literal_in,
  map_in,
  maps_in,
  mark_in,
  module_name_in,
  number_in,
  numbers_in,
  op_in,
  operands_in,
  ops_in,
  predicate_in,
  quoted_in,
  signed_in,
  structured_in,
  symbol_in,
  tail_in,
  type_in,
  types_in,
  width_in,
};

use crate::parts::{Alias, BodyTail, Combiner, Contents, Mark, Operands, Part, StructuredName};
use sh_base::{BinOp, CastOp, Items, Kind, Numbers, Place, Predicate, Text, Width};
use sh_ir::{AffineMap, Arg, BodyOp, Constant, Cut, Dim, GridAxes, IteratorType, Op, ValueType};
use sh_literals::{Literal, Rest};
use std::alloc::Global;

/// Where nothing stands.
const NO_MARK: Mark = Mark {
    id: 0,
    place: Place { line: 0, column: 0 },
};

/// Lets a part go.
pub(crate) fn discard(_part: Part) {}

/// A part as what its neighbours make of it. A part of another kind is read as nothing.
impl Part {
    pub(crate) fn mark(self) -> Mark
        ensures { result ≡ mark_in self }
    {
        match self {
            Part::Mark(mark) => mark,
            other => {
                discard(other);
                NO_MARK
            }
        }
    }

    pub(crate) fn symbol(self, alloc: Global) -> Text
        ensures { result ≡ symbol_in self }
    {
        match self {
            Part::Symbol(name) => name,
            other => {
                discard(other);
                Items::new(alloc)
            }
        }
    }

    pub(crate) fn alias(self, alloc: Global) -> Alias
        ensures { result ≡ alias_in self }
    {
        match self {
            Part::Alias(alias) => alias,
            other => {
                discard(other);
                Alias {
                    name: Items::new(alloc),
                    map: AffineMap {
                        loops: Items::new(alloc),
                        results: Items::new(alloc),
                    },
                }
            }
        }
    }

    pub(crate) fn number(self) -> u64
        ensures { result ≡ number_in self }
    {
        match self {
            Part::Number(number) => number,
            other => {
                discard(other);
                0
            }
        }
    }

    pub(crate) fn dim(self) -> Dim
        ensures { result ≡ dim_in self }
    {
        match self {
            Part::Dim(dim) => dim,
            other => {
                discard(other);
                Dim::Differs
            }
        }
    }

    pub(crate) fn quoted(self, alloc: Global) -> Text
        ensures { result ≡ quoted_in self }
    {
        match self {
            Part::Quoted(text) => text,
            other => {
                discard(other);
                Items::new(alloc)
            }
        }
    }

    pub(crate) fn flag(self) -> bool
        ensures { result ≡ flag_in self }
    {
        match self {
            Part::Flag(flag) => flag,
            other => {
                discard(other);
                false
            }
        }
    }

    pub(crate) fn signed(self) -> i128
        ensures { result ≡ signed_in self }
    {
        match self {
            Part::Signed(number) => number,
            other => {
                discard(other);
                0
            }
        }
    }

    pub(crate) fn numbers(self, alloc: Global) -> Rest<i128>
        ensures { result ≡ numbers_in self }
    {
        match self {
            Part::Numbers(numbers) => numbers,
            other => {
                discard(other);
                Rest::new(alloc)
            }
        }
    }

    pub(crate) fn lists(self, alloc: Global) -> Rest<Numbers>
        ensures { result ≡ lists_in self }
    {
        match self {
            Part::Lists(lists) => lists,
            other => {
                discard(other);
                Rest::new(alloc)
            }
        }
    }

    pub(crate) fn ids(self, alloc: Global) -> Rest<u32>
        ensures { result ≡ ids_in self }
    {
        match self {
            Part::Ids(ids) => ids,
            other => {
                discard(other);
                Rest::new(alloc)
            }
        }
    }

    pub(crate) fn width(self) -> Width
        ensures { result ≡ width_in self }
    {
        match self {
            Part::Width(width) => width,
            other => {
                discard(other);
                Width::I1
            }
        }
    }

    pub(crate) fn value_type(self) -> ValueType
        ensures { result ≡ type_in self }
    {
        match self {
            Part::Type(value_type) => value_type,
            other => {
                discard(other);
                ValueType::Nothing
            }
        }
    }

    pub(crate) fn types(self, alloc: Global) -> Rest<ValueType>
        ensures { result ≡ types_in self }
    {
        match self {
            Part::Types(types) => types,
            other => {
                discard(other);
                Rest::new(alloc)
            }
        }
    }

    pub(crate) fn dims(self, alloc: Global) -> Rest<Dim>
        ensures { result ≡ dims_in self }
    {
        match self {
            Part::Dims(dims) => dims,
            other => {
                discard(other);
                Rest::new(alloc)
            }
        }
    }

    pub(crate) fn operands(self, alloc: Global) -> Operands
        ensures { result ≡ operands_in self }
    {
        match self {
            Part::Operands(operands) => operands,
            other => {
                discard(other);
                Operands {
                    values: Items::new(alloc),
                    types: Items::new(alloc),
                }
            }
        }
    }

    pub(crate) fn map(self) -> Option<AffineMap>
        ensures { result ≡ map_in self }
    {
        match self {
            Part::Map(map) => Some(map),
            other => {
                discard(other);
                None
            }
        }
    }

    pub(crate) fn maps(self, alloc: Global) -> Rest<AffineMap>
        ensures { result ≡ maps_in self }
    {
        match self {
            Part::Maps(maps) => maps,
            other => {
                discard(other);
                Rest::new(alloc)
            }
        }
    }

    pub(crate) fn iterators(self, alloc: Global) -> Rest<IteratorType>
        ensures { result ≡ iterators_in self }
    {
        match self {
            Part::Iterators(iterators) => iterators,
            other => {
                discard(other);
                Rest::new(alloc)
            }
        }
    }

    pub(crate) fn groups(self, alloc: Global) -> GridAxes
        ensures { result ≡ groups_in self }
    {
        match self {
            Part::On(groups) => groups,
            other => {
                discard(other);
                GridAxes {
                    grid: Items::new(alloc),
                    grid_axes: Items::new(alloc),
                }
            }
        }
    }

    pub(crate) fn literal(self) -> Literal
        ensures { result ≡ literal_in self }
    {
        match self {
            Part::Literal(literal) => literal,
            other => {
                discard(other);
                Literal::Empty
            }
        }
    }

    pub(crate) fn constant(self) -> Option<Constant>
        ensures { result ≡ constant_in self }
    {
        match self {
            Part::Constant(constant) => Some(constant.into_value()),
            other => {
                discard(other);
                None
            }
        }
    }

    pub(crate) fn constants(self, alloc: Global) -> Rest<Constant>
        ensures { result ≡ constants_in self }
    {
        match self {
            Part::Constants(constants) => constants,
            other => {
                discard(other);
                Rest::new(alloc)
            }
        }
    }

    pub(crate) fn arg(self) -> Option<Arg>
        ensures { result ≡ arg_in self }
    {
        match self {
            Part::Arg(arg) => Some(arg.into_value()),
            other => {
                discard(other);
                None
            }
        }
    }

    pub(crate) fn args(self, alloc: Global) -> Rest<Arg>
        ensures { result ≡ args_in self }
    {
        match self {
            Part::Args(args) => args,
            other => {
                discard(other);
                Rest::new(alloc)
            }
        }
    }

    pub(crate) fn cut(self) -> Option<Cut>
        ensures { result ≡ cut_in self }
    {
        match self {
            Part::Cut(cut) => Some(cut.into_value()),
            other => {
                discard(other);
                None
            }
        }
    }

    pub(crate) fn cuts(self, alloc: Global) -> Rest<Cut>
        ensures { result ≡ cuts_in self }
    {
        match self {
            Part::Cuts(cuts) => cuts,
            other => {
                discard(other);
                Rest::new(alloc)
            }
        }
    }

    pub(crate) fn bin_op(self) -> BinOp
        ensures { result ≡ bin_op_in self }
    {
        match self {
            Part::BinOp(op) => op,
            other => {
                discard(other);
                BinOp::Addi
            }
        }
    }

    pub(crate) fn predicate(self) -> Predicate
        ensures { result ≡ predicate_in self }
    {
        match self {
            Part::Predicate(predicate) => predicate,
            other => {
                discard(other);
                Predicate::Eq
            }
        }
    }

    pub(crate) fn cast_op(self) -> CastOp
        ensures { result ≡ cast_op_in self }
    {
        match self {
            Part::CastOp(op) => op,
            other => {
                discard(other);
                CastOp::Extsi
            }
        }
    }

    pub(crate) fn structured(self) -> StructuredName
        ensures { result ≡ structured_in self }
    {
        match self {
            Part::Structured(name) => name,
            other => {
                discard(other);
                StructuredName::Fill
            }
        }
    }

    pub(crate) fn kind(self) -> Kind
        ensures { result ≡ kind_in self }
    {
        match self {
            Part::Kind(kind) => kind,
            other => {
                discard(other);
                Kind::Sum
            }
        }
    }

    pub(crate) fn combiner(self) -> Combiner
        ensures { result ≡ combiner_in self }
    {
        match self {
            Part::Combiner(combiner) => combiner,
            other => {
                discard(other);
                Combiner {
                    op: BinOp::Addi,
                    mark: NO_MARK,
                }
            }
        }
    }

    pub(crate) fn body_op(self) -> Option<BodyOp>
        ensures { result ≡ body_op_in self }
    {
        match self {
            Part::BodyOp(op) => Some(op.into_value()),
            other => {
                discard(other);
                None
            }
        }
    }

    pub(crate) fn tail(self, alloc: Global) -> BodyTail
        ensures { result ≡ tail_in self }
    {
        match self {
            Part::BodyTail(tail) => tail,
            other => {
                discard(other);
                BodyTail {
                    ops: Rest::new(alloc),
                    yields: 0,
                    width: Width::I1,
                    place: NO_MARK.place,
                }
            }
        }
    }

    pub(crate) fn op(self) -> Option<Op>
        ensures { result ≡ op_in self }
    {
        match self {
            Part::Op(op) => Some(op.into_value()),
            other => {
                discard(other);
                None
            }
        }
    }

    pub(crate) fn ops(self, alloc: Global) -> Rest<Op>
        ensures { result ≡ ops_in self }
    {
        match self {
            Part::Ops(ops) => ops,
            other => {
                discard(other);
                Rest::new(alloc)
            }
        }
    }

    /// The aliases of a part.
    pub fn aliases(self, alloc: Global) -> Rest<Alias>
        ensures { result ≡ aliases_in self }
    {
        match self {
            Part::Aliases(aliases) => aliases,
            other => {
                discard(other);
                Rest::new(alloc)
            }
        }
    }

    pub(crate) fn module_name(self) -> Option<Text>
        ensures { result ≡ module_name_in self }
    {
        match self {
            Part::ModuleName(name) => name,
            other => {
                discard(other);
                None
            }
        }
    }

    pub(crate) fn contents(self, alloc: Global) -> Contents
        ensures { result ≡ contents_in self }
    {
        match self {
            Part::Contents(contents) => contents,
            other => {
                discard(other);
                Contents {
                    grids: Rest::new(alloc),
                    funcs: Rest::new(alloc),
                    calls: Rest::new(alloc),
                }
            }
        }
    }
}
