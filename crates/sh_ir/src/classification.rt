ghost use Rattle.std.specs.Prelude.{◌≡◌, ◌↔◌, IsTrue};
ghost use Rattle.sh_ir.specs.Classes.{class_of, IsCollective, IsDeviceLayout, IsCreator, IsAnnotation, DefinesValue};

use crate::OpKind;

/// What kinds of operations there are. Each operation is of one.
#[derive(Clone, Copy, Debug, PartialEq, Eq)]
pub enum OpClass {
    /// A constant or an empty tensor: a value from nothing.
    Creator,
    /// An operation of `arith` that goes cell by cell.
    Element,
    /// A slice or a reshape of the `tensor` dialect.
    Layout,
    /// An operation of `linalg` but a convolution.
    Structured,
    /// A convolution.
    Convolution,
    /// `shard.sharding`, which has no meaning by itself.
    Sharding,
    /// `shard.shard`, which is the identity.
    Note,
    /// A slice, a padding or a join of device form, which a device does alone.
    DeviceLayout,
    /// An instruction of device form that the devices of a group do together.
    Collective,
    /// A call of another function.
    Call,
    /// The end of a function.
    Return,
}

impl OpKind {
    /// The class of an operation.
    pub fn class(&self) -> OpClass
        ensures { result ≡ class_of self.now }
    {
        match self {
            OpKind::Constant(_) | OpKind::Empty => OpClass::Creator,
            OpKind::Binary(_) | OpKind::Compare(_) | OpKind::Select(_) | OpKind::Cast(_) => {
                OpClass::Element
            }
            OpKind::ExtractSlice(_)
            | OpKind::InsertSlice(_)
            | OpKind::CollapseShape(_)
            | OpKind::ExpandShape(_) => OpClass::Layout,
            OpKind::Fill(_)
            | OpKind::Matmul(_)
            | OpKind::BatchMatmul(_)
            | OpKind::Matvec(_)
            | OpKind::Vecmat(_)
            | OpKind::Dot(_)
            | OpKind::Transpose(_)
            | OpKind::Broadcast(_)
            | OpKind::Reduce(_)
            | OpKind::Generic(_) => OpClass::Structured,
            OpKind::Conv1d(_) | OpKind::Conv2d(_) => OpClass::Convolution,
            OpKind::Sharding(_) => OpClass::Sharding,
            OpKind::Shard(_) => OpClass::Note,
            OpKind::AllSlice(_) | OpKind::Take(_) | OpKind::Pad(_) | OpKind::Join(_) => {
                OpClass::DeviceLayout
            }
            OpKind::AllGather(_)
            | OpKind::AllReduce(_)
            | OpKind::ReduceScatter(_)
            | OpKind::AllToAll(_)
            | OpKind::Shift(_)
            | OpKind::UpdateHalo(_) => OpClass::Collective,
            OpKind::Call(_) => OpClass::Call,
            OpKind::Return(_) => OpClass::Return,
        }
    }

    /// Whether the devices of a group do it together.
    pub fn is_collective(&self) -> bool
        ensures { IsTrue result ↔ IsCollective self.now }
    {
        self.class() == OpClass::Collective
    }

    /// Whether it is `all_slice`, `take`, `pad` or `join`: an instruction of device form by which a
    /// device makes a tensor of cells that it has.
    pub fn is_device_layout(&self) -> bool
        ensures { IsTrue result ↔ IsDeviceLayout self.now }
    {
        self.class() == OpClass::DeviceLayout
    }

    /// Whether it makes a value from nothing.
    pub fn is_creator(&self) -> bool
        ensures { IsTrue result ↔ IsCreator self.now }
    {
        self.class() == OpClass::Creator
    }

    /// Whether it is a `shard.sharding` or a note, which source form alone has.
    pub fn is_annotation(&self) -> bool
        ensures { IsTrue result ↔ IsAnnotation self.now }
    {
        matches!(self.class(), OpClass::Sharding | OpClass::Note)
    }

    /// Whether it defines a value: everything but the return.
    pub fn defines_value(&self) -> bool
        ensures { IsTrue result ↔ DefinesValue self.now }
    {
        self.class() != OpClass::Return
    }
}
