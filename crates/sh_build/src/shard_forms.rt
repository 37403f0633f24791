ghost use Rattle.std.specs.Prelude.{◌≡◌, IfOk};
ghost use Rattle.sh_grammar.specs.declared.forms.Form.TheVariants as form;
ghost use Rattle.sh_build.specs.Meaning.{made};
ghost use Rattle.sh_build.specs.Rows.{firsts, past};

use crate::parts::Part;
use crate::row::Row;
use crate::sides::{one_operand, side, two_operands};
use sh_base::Mem;
use sh_ir::{
    AllGather, AllReduce, AllSlice, AllToAll, Join, OpKind, Pad, ReduceScatter, Shard, Shift, Take,
    UpdateHalo,
};
use std::alloc::Global;

/// `shard.shard %a to %s annotate_for_users : T`
#[tactic(auto, unfolding(crate::specs::Meaning::made))]
pub(crate) fn shard(alloc: Global, row: &mut Row) -> Result<Part, Mem>
    ensures made { IfOk result (λ part. part ≡ made form.Shard 0 (firsts 7 row.old)) }
    ensures rest { IfOk result (λ _. row.new ≡ past 7 row.old) }
{
    row.skip(1);
    let value = row.next().mark().id;
    row.skip(1);
    let operands = two_operands(alloc, value, row.next().mark().id)?;
    let annotate_for_users = row.next().flag();
    row.skip(1);
    let value_type = row.next().value_type();
    let kind = OpKind::Shard(Shard { annotate_for_users });
    side(alloc, kind, operands, value_type)
}

/// `shard.all_gather %a on gather_axis = N : T -> U`
#[tactic(auto, unfolding(crate::specs::Meaning::made))]
pub(crate) fn all_gather(alloc: Global, row: &mut Row) -> Result<Part, Mem>
    ensures made { IfOk result (λ part. part ≡ made form.AllGather 0 (firsts 10 row.old)) }
    ensures rest { IfOk result (λ _. row.new ≡ past 10 row.old) }
{
    row.skip(1);
    let operands = one_operand(alloc, row.next().mark().id)?;
    let on = row.next().groups(alloc);
    row.skip(2);
    let gather_axis = row.next().number();
    row.skip(1);
    let operand_type = row.next().value_type();
    row.skip(1);
    let value_type = row.next().value_type();
    let kind = OpKind::AllGather(AllGather {
        on,
        gather_axis,
        operand_type,
    });
    side(alloc, kind, operands, value_type)
}

/// `shard.all_slice %a on slice_axis = N : T -> U`
#[tactic(auto, unfolding(crate::specs::Meaning::made))]
pub(crate) fn all_slice(alloc: Global, row: &mut Row) -> Result<Part, Mem>
    ensures made { IfOk result (λ part. part ≡ made form.AllSlice 0 (firsts 10 row.old)) }
    ensures rest { IfOk result (λ _. row.new ≡ past 10 row.old) }
{
    row.skip(1);
    let operands = one_operand(alloc, row.next().mark().id)?;
    let on = row.next().groups(alloc);
    row.skip(2);
    let slice_axis = row.next().number();
    row.skip(1);
    let operand_type = row.next().value_type();
    row.skip(1);
    let value_type = row.next().value_type();
    let kind = OpKind::AllSlice(AllSlice {
        on,
        slice_axis,
        operand_type,
    });
    side(alloc, kind, operands, value_type)
}

/// `shard.all_reduce %a on reduction = KIND : T -> U`
#[tactic(auto, unfolding(crate::specs::Meaning::made))]
pub(crate) fn all_reduce(alloc: Global, row: &mut Row) -> Result<Part, Mem>
    ensures made { IfOk result (λ part. part ≡ made form.AllReduce 0 (firsts 8 row.old)) }
    ensures rest { IfOk result (λ _. row.new ≡ past 8 row.old) }
{
    row.skip(1);
    let operands = one_operand(alloc, row.next().mark().id)?;
    let on = row.next().groups(alloc);
    let reduction = row.next().kind();
    row.skip(1);
    let operand_type = row.next().value_type();
    row.skip(1);
    let value_type = row.next().value_type();
    let kind = OpKind::AllReduce(AllReduce {
        on,
        reduction,
        operand_type,
    });
    side(alloc, kind, operands, value_type)
}

/// `shard.reduce_scatter %a on reduction = KIND scatter_axis = N : T -> U`
#[tactic(auto, unfolding(crate::specs::Meaning::made))]
pub(crate) fn reduce_scatter(alloc: Global, row: &mut Row) -> Result<Part, Mem>
    ensures made { IfOk result (λ part. part ≡ made form.ReduceScatter 0 (firsts 11 row.old)) }
    ensures rest { IfOk result (λ _. row.new ≡ past 11 row.old) }
{
    row.skip(1);
    let operands = one_operand(alloc, row.next().mark().id)?;
    let on = row.next().groups(alloc);
    let reduction = row.next().kind();
    row.skip(2);
    let scatter_axis = row.next().number();
    row.skip(1);
    let operand_type = row.next().value_type();
    row.skip(1);
    let value_type = row.next().value_type();
    let kind = OpKind::ReduceScatter(ReduceScatter {
        on,
        reduction,
        scatter_axis,
        operand_type,
    });
    side(alloc, kind, operands, value_type)
}

/// `shard.all_to_all %a on split_axis = N concat_axis = M : T -> U`
#[tactic(auto, unfolding(crate::specs::Meaning::made))]
pub(crate) fn all_to_all(alloc: Global, row: &mut Row) -> Result<Part, Mem>
    ensures made { IfOk result (λ part. part ≡ made form.AllToAll 0 (firsts 13 row.old)) }
    ensures rest { IfOk result (λ _. row.new ≡ past 13 row.old) }
{
    row.skip(1);
    let operands = one_operand(alloc, row.next().mark().id)?;
    let on = row.next().groups(alloc);
    row.skip(2);
    let split_axis = row.next().number();
    row.skip(2);
    let concat_axis = row.next().number();
    row.skip(1);
    let operand_type = row.next().value_type();
    row.skip(1);
    let value_type = row.next().value_type();
    let kind = OpKind::AllToAll(AllToAll {
        on,
        split_axis,
        concat_axis,
        operand_type,
    });
    side(alloc, kind, operands, value_type)
}

/// `shard.shift %a on shift_axis = N offset = num rotate : T -> U`
#[tactic(auto, unfolding(crate::specs::Meaning::made))]
pub(crate) fn shift(alloc: Global, row: &mut Row) -> Result<Part, Mem>
    ensures made { IfOk result (λ part. part ≡ made form.Shift 0 (firsts 14 row.old)) }
    ensures rest { IfOk result (λ _. row.new ≡ past 14 row.old) }
{
    row.skip(1);
    let operands = one_operand(alloc, row.next().mark().id)?;
    let on = row.next().groups(alloc);
    row.skip(2);
    let shift_axis = row.next().number();
    row.skip(2);
    let offset = row.next().signed();
    let rotate = row.next().flag();
    row.skip(1);
    let operand_type = row.next().value_type();
    row.skip(1);
    let value_type = row.next().value_type();
    let kind = OpKind::Shift(Shift {
        on,
        shift_axis,
        offset,
        rotate,
        operand_type,
    });
    side(alloc, kind, operands, value_type)
}

/// `shardrun.take %a on axis = N starts = nums sizes = nums : T -> U`
#[tactic(auto, unfolding(crate::specs::Meaning::made))]
pub(crate) fn take(alloc: Global, row: &mut Row) -> Result<Part, Mem>
    ensures made { IfOk result (λ part. part ≡ made form.Take 0 (firsts 16 row.old)) }
    ensures rest { IfOk result (λ _. row.new ≡ past 16 row.old) }
{
    row.skip(1);
    let operands = one_operand(alloc, row.next().mark().id)?;
    let on = row.next().groups(alloc);
    row.skip(2);
    let axis = row.next().number();
    row.skip(2);
    let starts = row.next().numbers(alloc).into_items();
    row.skip(2);
    let sizes = row.next().numbers(alloc).into_items();
    row.skip(1);
    let operand_type = row.next().value_type();
    row.skip(1);
    let value_type = row.next().value_type();
    let kind = OpKind::Take(Take {
        on,
        axis,
        starts,
        sizes,
        operand_type,
    });
    side(alloc, kind, operands, value_type)
}

/// `shard.update_halo %a on @grid split_axes = lists halo_sizes = nums : T`
#[tactic(auto, unfolding(crate::specs::Meaning::made))]
pub(crate) fn update_halo(alloc: Global, row: &mut Row) -> Result<Part, Mem>
    ensures made { IfOk result (λ part. part ≡ made form.UpdateHalo 0 (firsts 10 row.old)) }
    ensures rest { IfOk result (λ _. row.new ≡ past 10 row.old) }
{
    row.skip(1);
    let operands = one_operand(alloc, row.next().mark().id)?;
    row.skip(1);
    let grid = row.next().symbol(alloc);
    row.skip(2);
    let split_axes = row.next().lists(alloc).into_items();
    let halo_sizes = row.next().numbers(alloc).into_items();
    row.skip(1);
    let value_type = row.next().value_type();
    let kind = OpKind::UpdateHalo(UpdateHalo {
        grid,
        split_axes,
        halo_sizes,
    });
    side(alloc, kind, operands, value_type)
}

/// `shardrun.pad %a low = nums high = nums : T -> U`
#[tactic(auto, unfolding(crate::specs::Meaning::made))]
pub(crate) fn pad(alloc: Global, row: &mut Row) -> Result<Part, Mem>
    ensures made { IfOk result (λ part. part ≡ made form.Pad 0 (firsts 12 row.old)) }
    ensures rest { IfOk result (λ _. row.new ≡ past 12 row.old) }
{
    row.skip(1);
    let operands = one_operand(alloc, row.next().mark().id)?;
    row.skip(2);
    let low = row.next().numbers(alloc).into_items();
    row.skip(2);
    let high = row.next().numbers(alloc).into_items();
    row.skip(1);
    let operand_type = row.next().value_type();
    row.skip(1);
    let value_type = row.next().value_type();
    let kind = OpKind::Pad(Pad {
        low,
        high,
        operand_type,
    });
    side(alloc, kind, operands, value_type)
}

/// `shardrun.join %a, %b axis = N : T, U -> V`
#[tactic(auto, unfolding(crate::specs::Meaning::made))]
pub(crate) fn join(alloc: Global, row: &mut Row) -> Result<Part, Mem>
    ensures made { IfOk result (λ part. part ≡ made form.Join 0 (firsts 9 row.old)) }
    ensures rest { IfOk result (λ _. row.new ≡ past 9 row.old) }
{
    row.skip(1);
    let operands = row.next().ids(alloc).into_items();
    row.skip(2);
    let axis = row.next().number();
    row.skip(1);
    let operand_types = row.next().types(alloc).into_items();
    row.skip(1);
    let value_type = row.next().value_type();
    let kind = OpKind::Join(Join {
        axis,
        operand_types,
    });
    side(alloc, kind, operands, value_type)
}
