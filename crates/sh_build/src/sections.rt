ghost use Rattle.std.specs.Prelude.{◌≡◌};
ghost use Rattle.sh_build.specs.Sections.{section_of};

use sh_grammar::Form;

/// A part of the grammar.
#[derive(Clone, Copy)]
pub(crate) enum Section {
    /// Aliases, maps and the items of a module.
    Items,
    /// Functions and types.
    Functions,
    /// Literals and lists of numbers.
    Literals,
    /// Operations of a function.
    RightSides,
    /// Operations of regions.
    Regions,
    /// What stands in several operations.
    Clauses,
}

/// The part of the grammar in which a form stands.
pub(crate) fn which_section(form: Form) -> Section
    ensures { result ≡ section_of form }
{
    match form {
        Form::File
        | Form::Aliases
        | Form::Contents
        | Form::ModuleName
        | Form::Items
        | Form::Alias
        | Form::Hash
        | Form::Map
        | Form::Names
        | Form::MoreNames
        | Form::Name
        | Form::Item
        | Form::Extents
        | Form::Arguments
        | Form::MoreArguments
        | Form::Argument
        | Form::Device
        | Form::Cuts
        | Form::MoreCuts
        | Form::Cut
        | Form::MaybeHalo
        | Form::Halo
        | Form::MaybeOffsets
        | Form::Offsets => Section::Items,
        Form::Func
        | Form::Visibility
        | Form::Parameters
        | Form::MoreParameters
        | Form::Parameter
        | Form::Results
        | Form::ResultTypes
        | Form::Operations
        | Form::Return
        | Form::Returned
        | Form::ValueType
        | Form::Dims
        | Form::Dim
        | Form::Width
        | Form::Types
        | Form::MoreTypes
        | Form::Values
        | Form::MoreValues => Section::Functions,
        Form::Dense
        | Form::Cells
        | Form::Element
        | Form::Elements
        | Form::MoreElements
        | Form::Num
        | Form::Nums
        | Form::Numbers
        | Form::MoreNumbers
        | Form::Lists
        | Form::ListItems
        | Form::MoreListItems => Section::Literals,
        Form::Operation
        | Form::RightSide
        | Form::EmptyTensor
        | Form::ExtractSlice
        | Form::InsertSlice
        | Form::CollapseShape
        | Form::ExpandShape
        | Form::Structured
        | Form::StructuredName
        | Form::Transpose
        | Form::Broadcast
        | Form::Reduce
        | Form::Generic
        | Form::Sharding
        | Form::Shard
        | Form::AllGather
        | Form::AllSlice
        | Form::AllReduce
        | Form::ReduceScatter
        | Form::AllToAll
        | Form::Shift
        | Form::UpdateHalo
        | Form::Take
        | Form::Pad
        | Form::Join
        | Form::Call
        | Form::CallName => Section::RightSides,
        Form::Arith
        | Form::Constant
        | Form::Literal
        | Form::Binary
        | Form::BinaryName
        | Form::Compare
        | Form::Predicate
        | Form::Select
        | Form::SelectTypes
        | Form::Cast
        | Form::CastName
        | Form::ReduceTail
        | Form::Combiner
        | Form::MaybeNoOverflow
        | Form::NoOverflow
        | Form::Body
        | Form::BodyOperation
        | Form::GenericBody
        | Form::GenericOperation
        | Form::GenericRightSide
        | Form::LoopIndex
        | Form::IndexCast
        | Form::Yield
        | Form::BlockArguments
        | Form::MoreBlockArguments
        | Form::BlockArgument => Section::Regions,
        Form::Ins
        | Form::MaybeIns
        | Form::Outs
        | Form::Maps
        | Form::MoreMaps
        | Form::MapOrAlias
        | Form::Iterators
        | Form::MoreIterators
        | Form::On
        | Form::MaybeAxes
        | Form::MaybeReduction
        | Form::ReductionKind
        | Form::KindName
        | Form::MaybeForUsers
        | Form::MaybeRotate => Section::Clauses,
    }
}
