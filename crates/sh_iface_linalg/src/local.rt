//! A structured operation on local tensors.
ghost use Rattle.std.specs.Prelude.{◌≡◌, ◌≤◌, ◌+◌, ◌-◌, ◌++◌, ◌∷◌, [], IfOk, OnOk, length, map, ℕ};
ghost use Rattle.std.specs.List.{range_with_len};
ghost use Rattle.sh_ir.specs.declared.types.Dim.{Dim};
ghost use Rattle.sh_iface.specs.Elements.{tensor_of};
ghost use Rattle.sh_iface.specs.Valid.{IsValid};
ghost use Rattle.sh_iface_linalg.specs.Ifaces.{structured_in, value_in};
ghost use Rattle.sh_iface_linalg.specs.Reading.{meant};
ghost use Rattle.sh_iface_linalg.specs.Structured.{fill_op, input_types, ins_outs_by, kind_at, local_loop, neutral_op, op_by, operands_in, own_type, part_by, part_names, reducing_names, reducing_ops, renumbered_form, structured_nest, structured_part, tensor_ins};

use crate::names::{next_name, push_names};
use crate::{LinalgIface, LinalgKind};
use sh_base::{Ids, Items, Kind, Mem, Numbers};
use sh_grid::Grid;
use sh_iface::{LocalPart, LoopOption, implied_sharding, local_type, operand_names};
use sh_int::neutral;
use sh_ir::{
    Broadcast, Constant, Contents, InsOuts, OpKind, Ops, Transpose, Types, ValueType, push_op,
};
use std::alloc::Global;

/// The numbers again.
fn copied(alloc: Global, numbers: &[i128]) -> Result<Numbers, Mem>
    ensures { IfOk result (λ out. out ≡ numbers.now) }
{
    let mut out = Items::new(alloc);
    for number in numbers {
        out.push(*number)?;
    }
    Ok(out)
}

/// One output.
fn ins_outs(alloc: Global, ins: Types, out: ValueType) -> Result<InsOuts, Mem>
    ensures { IfOk result (λ x. x ≡ ins_outs_by ins out) }
{
    let mut outs_types = Items::new(alloc);
    outs_types.push(out)?;
    Ok(InsOuts {
        ins_count: ins.len(),
        ins_types: ins,
        outs_count: 1,
        outs_types,
    })
}

impl LinalgKind<'_> {
    /// The operation on operands of these types.
    fn on_types(&self, alloc: Global, ins: Types, out: ValueType) -> Result<OpKind, Mem>
        ensures { IfOk result (λ kind. (first base : ℕ)
            → kind ≡ kind_at (renumbered_form first base (meant self.now)) ins out) }
    {
        let ins_outs = ins_outs(alloc, ins, out)?;
        Ok(match self {
            LinalgKind::Fill => OpKind::Fill(ins_outs),
            LinalgKind::Matmul => OpKind::Matmul(ins_outs),
            LinalgKind::BatchMatmul => OpKind::BatchMatmul(ins_outs),
            LinalgKind::Matvec => OpKind::Matvec(ins_outs),
            LinalgKind::Vecmat => OpKind::Vecmat(ins_outs),
            LinalgKind::Dot => OpKind::Dot(ins_outs),
            LinalgKind::Transpose(permutation) => OpKind::Transpose(Transpose {
                ins_outs,
                permutation: copied(alloc, permutation)?,
            }),
            LinalgKind::Broadcast(dimensions) => OpKind::Broadcast(Broadcast {
                ins_outs,
                dimensions: copied(alloc, dimensions)?,
            }),
        })
    }
}

impl LinalgIface<'_> {
    /// The type of the local tensors of an input, or of the result.
    fn local_type(&self, alloc: Global, g: &Grid, o: &LoopOption, v: u64) -> Result<ValueType, Mem>
        requires valid { IsValid (structured_nest (structured_in self.now)) g.now o.now }
        requires v { v ≤ length (tensor_ins (structured_in self.now)) }
        ensures { IfOk result (λ t. t ≡ tensor_of
            (map (local_loop (structured_in self.now).extents g.now o.now)
            (value_in (structured_in self.now) v).dims) (value_in (structured_in self.now) v).width) }
    {
        let sharding = implied_sharding(alloc, self, g, o, v)?;
        let made = local_type(alloc, &sharding, self.width_at(v))?;
        Ok(made)
    }

    /// The type of the local tensors of the result.
    fn own_type(&self, alloc: Global, g: &Grid, o: &LoopOption) -> Result<ValueType, Mem>
        requires { IsValid (structured_nest (structured_in self.now)) g.now o.now }
        ensures { IfOk result (λ t. t ≡ own_type (structured_in self.now)
            (local_loop (structured_in self.now).extents g.now o.now)) }
    {
        self.local_type(alloc, g, o, u64::from(self.tensor_inputs()))
    }

    /// The types of the local tensors of the inputs; of a fill there are none.
    fn tensor_types(&self, alloc: Global, g: &Grid, o: &LoopOption) -> Result<Types, Mem>
        requires { IsValid (structured_nest (structured_in self.now)) g.now o.now }
        ensures { IfOk result (λ types. types ≡ map (λ x. tensor_of
            (map (local_loop (structured_in self.now).extents g.now o.now) x.dims) x.width)
            (tensor_ins (structured_in self.now))) }
    {
        let mut types = Items::new(alloc);
        for v in 0..self.tensor_inputs() {
            types.push(self.local_type(alloc, g, o, u64::from(v))?)?;
        }
        Ok(types)
    }

    /// The types of the inputs on a device.
    fn input_types(&self, alloc: Global, g: &Grid, o: &LoopOption) -> Result<Types, Mem>
        requires { IsValid (structured_nest (structured_in self.now)) g.now o.now }
        ensures { IfOk result (λ types. types ≡ input_types (structured_in self.now)
            (local_loop (structured_in self.now).extents g.now o.now)) }
    {
        let mut types = self.tensor_types(alloc, g, o)?;
        if self.is_fill() {
            types.push(ValueType::Scalar(self.first))?;
        }
        Ok(types)
    }

    /// Appends the operation on local tensors.
    fn push_operation(
        &self,
        alloc: Global,
        ops: &mut Ops,
        g: &Grid,
        o: &LoopOption,
        operands: Ids,
        name: u32,
    ) -> Result<(), Mem>
        requires { IsValid (structured_nest (structured_in self.now)) g.now o.now }
        ensures { OnOk result (ops.new ≡ ops.old ++ op_by (structured_in self.now)
            (local_loop (structured_in self.now).extents g.now o.now) operands name ∷ []) }
    {
        let ins = self.input_types(alloc, g, o)?;
        let out = self.own_type(alloc, g, o)?;
        let kind = self.kind.on_types(alloc, ins, out)?;
        let result = self.own_type(alloc, g, o)?;
        push_op(ops, kind, operands, Some(name), result, self.place)
    }

    /// Appends the scalar constant that changes no cell which it is combined with.
    fn push_neutral(&self, alloc: Global, ops: &mut Ops, kind: Kind, name: u32) -> Result<(), Mem>
        ensures { OnOk result ((dim : ℕ → Dim) → ops.new
            ≡ ops.old ++ neutral_op (structured_in self.now) dim kind name ∷ []) }
    {
        let mut cells = Items::new(alloc);
        cells.push(neutral(kind, self.width))?;
        let constant = OpKind::Constant(Constant {
            value_type: ValueType::Scalar(self.width),
            contents: Contents::Held(cells),
        });
        let names = Items::new(alloc);
        let result = ValueType::Scalar(self.width);
        push_op(ops, constant, names, Some(name), result, self.place)
    }

    /// Appends the outs, filled with the scalar of a name, under the next name.
    fn push_outs(
        &self,
        alloc: Global,
        ops: &mut Ops,
        g: &Grid,
        o: &LoopOption,
        scalar: u32,
        name: u32,
    ) -> Result<(), Mem>
        requires valid { IsValid (structured_nest (structured_in self.now)) g.now o.now }
        requires next { name ≡ scalar + 1 }
        ensures { OnOk result (ops.new ≡ ops.old ++ fill_op (structured_in self.now)
            (local_loop (structured_in self.now).extents g.now o.now)
            (length (structured_in self.now).ins) scalar ∷ []) }
    {
        let mut ins = Items::new(alloc);
        ins.push(ValueType::Scalar(self.width))?;
        let out = self.own_type(alloc, g, o)?;
        let kind = OpKind::Fill(ins_outs(alloc, ins, out)?);
        let mut names = Items::new(alloc);
        names.push(scalar)?;
        names.push(self.input_count())?;
        let result = self.own_type(alloc, g, o)?;
        push_op(ops, kind, names, Some(name), result, self.place)
    }

    /// How many operands there are, which are named first; none where they aren't to be numbered.
    fn operand_total(&self) -> Result<u32, Mem>
        ensures { IfOk result (λ count. count ≡ operands_in (structured_in self.now)) }
    {
        Ok(self.input_count() + 1)
    }

    /// The names of the operands where nothing is combined: of a fill the scalar comes last.
    fn plain_names(&self, alloc: Global, count: u32) -> Result<Ids, Mem>
        requires { count ≡ operands_in (structured_in self.now) }
        ensures { IfOk result (λ names. names ≡ part_names (structured_in self.now)) }
    {
        if !self.is_fill() {
            return operand_names(alloc, count);
        }
        let mut names = Items::new(alloc);
        names.push(1)?;
        names.push(0)?;
        Ok(names)
    }

    /// The names of the operands where parts are combined: these outs stand in place of its own.
    #[tactic(auto, using(crate::proofs::NestLaws::reducing_named))]
    fn reducing_names(&self, alloc: Global, count: u32, outs: u32) -> Result<Ids, Mem>
        requires { count ≡ operands_in (structured_in self.now) }
        ensures { IfOk result (λ names. names ≡ reducing_names (structured_in self.now) outs) }
    {
        let inputs = self.input_count();
        let mut names = operand_names(alloc, inputs)?;
        names.push(outs)?;
        push_names(&mut names, inputs + 1, count)?;
        Ok(names)
    }

    /// Appends the operation on neutral outs.
    fn push_reducing(
        &self,
        alloc: Global,
        ops: &mut Ops,
        g: &Grid,
        o: &LoopOption,
        kind: Kind,
    ) -> Result<(), Mem>
        requires { IsValid (structured_nest (structured_in self.now)) g.now o.now }
        ensures { OnOk result (ops.new ≡ ops.old ++ reducing_ops (structured_in self.now)
            (local_loop (structured_in self.now).extents g.now o.now) kind) }
    {
        let scalar = self.operand_total()?;
        let outs = next_name(scalar)?;
        let name = next_name(outs)?;
        let names = self.reducing_names(alloc, scalar, outs)?;
        self.push_neutral(alloc, ops, kind, scalar)?;
        self.push_outs(alloc, ops, g, o, scalar, outs)?;
        self.push_operation(alloc, ops, g, o, names, name)?;
        Ok(())
    }

    /// Appends the operation alone.
    fn push_alone(&self, alloc: Global, ops: &mut Ops, g: &Grid, o: &LoopOption) -> Result<(), Mem>
        requires { IsValid (structured_nest (structured_in self.now)) g.now o.now }
        ensures { OnOk result (ops.new ≡ ops.old ++ op_by (structured_in self.now)
            (local_loop (structured_in self.now).extents g.now o.now)
            (part_names (structured_in self.now)) (operands_in (structured_in self.now)) ∷ []) }
    {
        let name = self.operand_total()?;
        let names = self.plain_names(alloc, name)?;
        self.push_operation(alloc, ops, g, o, names, name)?;
        Ok(())
    }

    /// Appends the local part, where parts are combined so.
    fn push_part(
        &self,
        alloc: Global,
        ops: &mut Ops,
        g: &Grid,
        o: &LoopOption,
        combine: Option<Kind>,
    ) -> Result<(), Mem>
        requires { IsValid (structured_nest (structured_in self.now)) g.now o.now }
        ensures { OnOk result (ops.new ≡ ops.old ++ (part_by (structured_in self.now)
            (local_loop (structured_in self.now).extents g.now o.now) combine).ops) }
    {
        match combine {
            Some(kind) => self.push_reducing(alloc, ops, g, o, kind),
            None => self.push_alone(alloc, ops, g, o),
        }
    }

    /// The local part.
    pub(crate) fn local_part(
        &self,
        alloc: Global,
        g: &Grid,
        o: &LoopOption,
    ) -> Result<LocalPart, Mem>
        requires { IsValid (structured_nest (structured_in self.now)) g.now o.now }
        ensures { IfOk result (λ part. part ≡ structured_part (structured_in self.now) g.now o.now) }
    {
        let mut ops = Items::new(alloc);
        let combine = self.combining_kind(o);
        self.push_part(alloc, &mut ops, g, o, combine)?;
        Ok(LocalPart { ops, combine })
    }
}
