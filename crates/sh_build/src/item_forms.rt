ghost use Rattle.std.specs.Prelude.{◌≡◌, [], map, IfOk};
ghost use Rattle.sh_grammar.specs.declared.forms.Form.TheVariants as form;
ghost use Rattle.sh_build.specs.Meaning.{made, with_item as with_item_of, carried as carried_of, on_grid as cut_on_grid};
ghost use Rattle.sh_build.specs.Rows.{firsts, past};

use crate::boxed::Boxed;
use crate::parts::{Alias, Contents, Device, Part};
use crate::readings::discard;
use crate::row::Row;
use sh_base::{Duplicate, Items, Mem, Text};
use sh_ir::{AffineMap, CallItem, Carry, Cut, Cuts, Func, GridItem, Module, RawSharding};
use sh_literals::Rest;
use std::alloc::Global;

/// The aliases at the head of a file
#[tactic(auto, unfolding(crate::specs::Meaning::made))]
pub(crate) fn aliases(alloc: Global, row: &mut Row) -> Result<Part, Mem>
    ensures made { IfOk result (λ part. part ≡ made form.Aliases 0 (firsts 2 row.old)) }
    ensures rest { IfOk result (λ _. row.new ≡ past 2 row.old) }
{
    let first = row.next().alias(alloc);
    let more = row.next().aliases(alloc);
    Ok(Part::Aliases(more.before(first)?))
}

/// `#name = affine_map<..>`
#[tactic(auto, unfolding(crate::specs::Meaning::made))]
pub(crate) fn alias(alloc: Global, row: &mut Row) -> Part
    ensures made { result ≡ made form.Alias 0 (firsts 3 row.old) }
    ensures rest { row.new ≡ past 3 row.old }
{
    let name = row.next().alias(alloc).name;
    row.skip(1);
    let map = row.next().map().unwrap_or(AffineMap {
        loops: Items::new(alloc),
        results: Items::new(alloc),
    });
    Part::Alias(Alias { name, map })
}

/// `affine_map<(d0, d1) -> (d1)>`
#[tactic(auto, unfolding(crate::specs::Meaning::made))]
pub(crate) fn map(alloc: Global, row: &mut Row) -> Part
    ensures made { result ≡ made form.Map 0 (firsts 10 row.old) }
    ensures rest { row.new ≡ past 10 row.old }
{
    row.skip(3);
    let loops = row.next().ids(alloc).into_items();
    row.skip(3);
    let results = row.next().ids(alloc).into_items();
    row.skip(2);
    Part::Map(AffineMap { loops, results })
}

/// `module @name { .. }`
#[tactic(auto, unfolding(crate::specs::Meaning::made))]
pub(crate) fn named_module(alloc: Global, row: &mut Row) -> Result<Part, Mem>
    ensures made { IfOk result (λ part. part ≡ made form.Contents 0 (firsts 5 row.old)) }
    ensures rest { IfOk result (λ _. row.new ≡ past 5 row.old) }
{
    row.skip(1);
    let name = row.next().module_name();
    row.skip(1);
    let contents = row.next().contents(alloc);
    row.skip(1);
    let module = Module {
        name,
        grids: contents.grids.into_items(),
        funcs: contents.funcs.into_items(),
        calls: contents.calls.into_items(),
    };
    Ok(Part::Module(Boxed::new(alloc, module)?))
}

/// Items that stand in no `module`
#[tactic(auto, unfolding(crate::specs::Meaning::made))]
pub(crate) fn bare_module(alloc: Global, row: &mut Row) -> Result<Part, Mem>
    ensures made { IfOk result (λ part. part ≡ made form.Contents 0 (firsts 1 row.old)) }
    ensures rest { IfOk result (λ _. row.new ≡ past 1 row.old) }
{
    let contents = row.next().contents(alloc);
    let module = Module {
        name: None,
        grids: contents.grids.into_items(),
        funcs: contents.funcs.into_items(),
        calls: contents.calls.into_items(),
    };
    Ok(Part::Module(Boxed::new(alloc, module)?))
}

/// `@name`
#[tactic(auto, unfolding(crate::specs::Meaning::made))]
pub(crate) fn module_name(alloc: Global, row: &mut Row) -> Part
    ensures made { result ≡ made form.ModuleName 0 (firsts 1 row.old) }
    ensures rest { row.new ≡ past 1 row.old }
{
    Part::ModuleName(Some(row.next().symbol(alloc)))
}

/// One more item in front.
fn with_item(item: Part, contents: Contents) -> Result<Contents, Mem>
    ensures { IfOk result (λ r. r ≡ with_item_of item contents) }
{
    let Contents {
        grids,
        funcs,
        calls,
    } = contents;
    match item {
        Part::Grid(grid) => Ok(Contents {
            grids: grids.before(grid.into_value())?,
            funcs,
            calls,
        }),
        Part::Func(func) => Ok(Contents {
            funcs: funcs.before(func.into_value())?,
            grids,
            calls,
        }),
        Part::Call(call) => Ok(Contents {
            calls: calls.before(call.into_value())?,
            grids,
            funcs,
        }),
        other => {
            discard(other);
            Ok(Contents {
                grids,
                funcs,
                calls,
            })
        }
    }
}

/// No items
#[tactic(auto, unfolding(crate::specs::Meaning::made))]
pub(crate) fn no_items(alloc: Global) -> Part
    ensures { result ≡ made form.Items 0 [] }
{
    Part::Contents(Contents {
        grids: Rest::new(alloc),
        funcs: Rest::new(alloc),
        calls: Rest::new(alloc),
    })
}

/// The items of a module
#[tactic(auto, unfolding(crate::specs::Meaning::made))]
pub(crate) fn items(alloc: Global, row: &mut Row) -> Result<Part, Mem>
    ensures made { IfOk result (λ part. part ≡ made form.Items 0 (firsts 2 row.old)) }
    ensures rest { IfOk result (λ _. row.new ≡ past 2 row.old) }
{
    let first = row.next();
    let more = row.next().contents(alloc);
    Ok(Part::Contents(with_item(first, more)?))
}

/// `shard.grid @g(shape = 2x4)`
#[tactic(auto, unfolding(crate::specs::Meaning::made))]
pub(crate) fn grid(alloc: Global, row: &mut Row) -> Result<Part, Mem>
    ensures made { IfOk result (λ part. part ≡ made form.Item 0 (firsts 7 row.old)) }
    ensures rest { IfOk result (λ _. row.new ≡ past 7 row.old) }
{
    let place = row.next().mark().place;
    let name = row.next().symbol(alloc);
    row.skip(3);
    let extents = row.next().numbers(alloc).into_items();
    row.skip(1);
    let grid = GridItem {
        name,
        extents,
        place,
    };
    Ok(Part::Grid(Boxed::new(alloc, grid)?))
}

/// `shardrun.call @f(dense<1> : T)`
#[tactic(auto, unfolding(crate::specs::Meaning::made))]
pub(crate) fn call_item(alloc: Global, row: &mut Row) -> Result<Part, Mem>
    ensures made { IfOk result (λ part. part ≡ made form.Item 0 (firsts 5 row.old)) }
    ensures rest { IfOk result (λ _. row.new ≡ past 5 row.old) }
{
    let place = row.next().mark().place;
    let callee = row.next().symbol(alloc);
    row.skip(1);
    let args = row.next().constants(alloc).into_items();
    row.skip(1);
    let call = CallItem {
        callee,
        args,
        place,
    };
    Ok(Part::Call(Boxed::new(alloc, call)?))
}

/// The function, carried as the device item before it says.
fn carried(alloc: Global, device: Part, func: Part) -> Result<Part, Mem>
    ensures { IfOk result (λ part. part ≡ carried_of device func) }
{
    match (device, func) {
        (Part::Device(device), Part::Func(func)) => {
            let device = device.into_value();
            let mut func = func.into_value();
            func.carry = Some(device.carry);
            func.place = device.place;
            Ok(Part::Func(Boxed::new(alloc, func)?))
        }
        (other, func) => {
            discard(other);
            Ok(func)
        }
    }
}

/// A device item and its function
#[tactic(auto, unfolding(crate::specs::Meaning::made))]
pub(crate) fn device_func(alloc: Global, row: &mut Row) -> Result<Part, Mem>
    ensures made { IfOk result (λ part. part ≡ made form.Item 0 (firsts 2 row.old)) }
    ensures rest { IfOk result (λ _. row.new ≡ past 2 row.old) }
{
    let device = row.next();
    let func = row.next();
    carried(alloc, device, func)
}

/// `tensor<4xi32> split_axes = [[0]]`
#[tactic(auto, unfolding(crate::specs::Meaning::made))]
pub(crate) fn cut(alloc: Global, row: &mut Row) -> Result<Part, Mem>
    ensures made { IfOk result (λ part. part ≡ made form.Cut 0 (firsts 6 row.old)) }
    ensures rest { IfOk result (λ _. row.new ≡ past 6 row.old) }
{
    let whole = row.next().value_type();
    row.skip(2);
    let split = row.next().lists(alloc).into_items();
    let halos = row.next().numbers(alloc).into_items();
    let offsets = row.next().numbers(alloc).into_items();
    let sharding = RawSharding {
        grid: Items::new(alloc),
        split,
        halos,
        offsets,
    };
    Ok(Part::Cut(Boxed::new(alloc, Cut { whole, sharding })?))
}

/// `func.func @f(%a : T) -> U { .. }`
#[tactic(auto, unfolding(crate::specs::Meaning::made))]
pub(crate) fn func(alloc: Global, row: &mut Row) -> Result<Part, Mem>
    ensures made { IfOk result (λ part. part ≡ made form.Func 0 (firsts 10 row.old)) }
    ensures rest { IfOk result (λ _. row.new ≡ past 10 row.old) }
{
    let place = row.next().mark().place;
    let private = row.next().flag();
    let name = row.next().symbol(alloc);
    row.skip(1);
    let args = row.next().args(alloc).into_items();
    row.skip(1);
    let results = row.next().types(alloc).into_items();
    row.skip(1);
    let ops = row.next().ops(alloc).into_items();
    row.skip(1);
    let func = Func {
        name,
        private,
        args,
        results,
        ops,
        carry: None,
        place,
    };
    Ok(Part::Func(Boxed::new(alloc, func)?))
}

/// The cuts on this grid.
fn on_grid(alloc: Global, cuts: &Cuts, grid: &Text) -> Result<Cuts, Mem>
    ensures { IfOk result (λ placed. placed ≡ map (cut_on_grid grid.now) cuts.now) }
{
    let mut placed: Vec<Cut> = Vec::new(alloc);
    for cut in cuts.as_slice() {
        placed.push(cut_on(alloc, cut, grid)?)?;
    }
    Ok(Items::from_vec(placed))
}

/// The cut on this grid.
fn cut_on(alloc: Global, cut: &Cut, grid: &Text) -> Result<Cut, Mem>
    ensures { IfOk result (λ placed. placed ≡ cut_on_grid grid.now cut.now) }
{
    let sharding = RawSharding {
        grid: grid.duplicate(alloc)?,
        split: cut.sharding.split.duplicate(alloc)?,
        halos: cut.sharding.halos.duplicate(alloc)?,
        offsets: cut.sharding.offsets.duplicate(alloc)?,
    };
    Ok(Cut {
        whole: cut.whole.duplicate(alloc)?,
        sharding,
    })
}

/// `shardrun.device @f on @g(..) -> (..)`
#[tactic(auto, unfolding(crate::specs::Meaning::made))]
pub(crate) fn device(alloc: Global, row: &mut Row) -> Result<Part, Mem>
    ensures made { IfOk result (λ part. part ≡ made form.Device 0 (firsts 11 row.old)) }
    ensures rest { IfOk result (λ _. row.new ≡ past 11 row.old) }
{
    let place = row.next().mark().place;
    let name = row.next().symbol(alloc);
    row.skip(1);
    let grid = row.next().symbol(alloc);
    row.skip(1);
    let args = on_grid(alloc, &row.next().cuts(alloc).into_items(), &grid)?;
    row.skip(3);
    let results = on_grid(alloc, &row.next().cuts(alloc).into_items(), &grid)?;
    row.skip(1);
    let device = Device {
        name,
        carry: Carry {
            grid,
            args,
            results,
        },
        place,
    };
    Ok(Part::Device(Boxed::new(alloc, device)?))
}
