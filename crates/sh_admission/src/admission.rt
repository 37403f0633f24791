ghost use Rattle.std.specs.Prelude.{◌≡◌, [], IfErr, IfOk, IsTrue, List, OnOk};
ghost use Rattle.std.specs.List.{All};
ghost use Rattle.std.specs.Option.{option_copied};
ghost use Rattle.sh_base.specs.declared.places.Refusal.{Refusal as Fault};
ghost use Rattle.sh_admission.specs.Faults.{IsRefused, NoteBreaks, first_source};
ghost use Rattle.sh_admission.specs.Found.{AreCutFaults, AreFuncFaults, AreModuleFaults, AreNoteFaults, IsReadyFunc, IsReadyNote, IsWithin};
ghost use Rattle.sh_admission.specs.Notes.{first_grid};
ghost use Rattle.sh_admission.specs.Refusals.{IsRefusal};
ghost use Rattle.sh_ir.specs.Faults.{limit_faults};
ghost use Rattle.sh_admission.specs.Least.{by_place, least_of};

use crate::grids::GridTable;
use crate::least::{order_is_total, with_broken};
use crate::notes::Notes;
use crate::rules::broken_by;
use sh_base::{Mem, Place, Refusal, Rule};
use sh_ir::{Cut, Func, Module, Op};
use std::alloc::Global;

/// Why the shardings of a module aren't admitted.
#[derive(Debug, Drop)]
pub enum ModuleRefusal {
    /// The first place that breaks a rule, and there the least rule.
    Broken(Refusal),
    /// Memory is wanting.
    Mem,
}

impl From<Mem> for ModuleRefusal {
    ghost use Rattle.sh_admission.specs.declared.admission.ModuleRefusal.TheVariants.{Mem as WantOfMemory};

    ghost from_gives = { λ _ e. e ≡ WantOfMemory };

    fn from(_: Mem) -> ModuleRefusal {
        ModuleRefusal::Mem
    }
}

/// The first rule that an operation breaks, which none does that isn't a note.
fn broken_by_note(
    alloc: Global,
    table: &GridTable<'_>,
    notes: &Notes<'_>,
    first: Option<&[u8]>,
    op: &Op,
) -> Result<Option<Rule>, Mem>
    requires ready { IsReadyNote op.now }
    requires first { option_copied first ≡ first_grid notes.now notes.now }
    ensures { IfOk result (λ broken. NoteBreaks table.now notes.now op.now broken) }
{
    let Some(raw) = notes.noted(op) else {
        return Ok(None);
    };
    if let Some(rule) = broken_by(alloc, table, raw, &op.result)? {
        return Ok(Some(rule));
    }
    match first {
        Some(name) if name != raw.grid.as_slice() => Ok(Some(Rule::A9)),
        _ => Ok(None),
    }
}

/// The least of the refusals so far and of those of the notes of a function.
fn check_notes(
    alloc: Global,
    least: Option<Refusal>,
    table: &GridTable<'_>,
    ops: &[Op],
) -> Result<Option<Refusal>, Mem>
    requires { All IsReadyNote ops.now }
    ensures { IfOk result (λ found. (faults : List Fault)
        × AreNoteFaults table.now ops.now ops.now faults
        × (found ≡ least_of by_place least faults)) }
{
    let notes = Notes::new(alloc, ops)?;
    let first = notes.first_grid();
    let mut found = least;
    for op in ops {
        let broken = broken_by_note(alloc, table, &notes, first, op)?;
        found = with_broken(found, op.place, broken);
    }
    Ok(found)
}

/// The least of the refusals so far and of those of cuts, at the place of their function.
fn check_cuts(
    alloc: Global,
    least: Option<Refusal>,
    table: &GridTable<'_>,
    place: Place,
    cuts: &[Cut],
) -> Result<Option<Refusal>, Mem>
    requires { All (λ cut. IsWithin cut.whole) cuts.now }
    ensures { IfOk result (λ found. (faults : List Fault)
        × AreCutFaults table.now place cuts.now faults
        × (found ≡ least_of by_place least faults)) }
{
    let mut found = least;
    for cut in cuts {
        let broken = broken_by(alloc, table, &cut.sharding, &cut.whole)?;
        found = with_broken(found, place, broken);
    }
    Ok(found)
}

/// The least of the refusals so far and of those of a function.
fn check_func(
    alloc: Global,
    least: Option<Refusal>,
    table: &GridTable<'_>,
    f: &Func,
) -> Result<Option<Refusal>, Mem>
    requires { IsReadyFunc f.now }
    ensures { IfOk result (λ found. (faults : List Fault)
        × AreFuncFaults table.now f.now faults
        × (found ≡ least_of by_place least faults)) }
{
    let noted = check_notes(alloc, least, table, f.ops.as_slice())?;
    match &f.carry {
        None => Ok(noted),
        Some(carry) => {
            let found = check_cuts(alloc, noted, table, f.place, carry.args.as_slice())?;
            check_cuts(alloc, found, table, f.place, carry.results.as_slice())
        }
    }
}

/// The least of the refusals of all functions.
fn check_funcs(alloc: Global, table: &GridTable<'_>, funcs: &[Func]) -> Result<Option<Refusal>, Mem>
    requires { All IsReadyFunc funcs.now }
    ensures { IfOk result (λ found. (faults : List Fault)
        × AreModuleFaults table.now funcs.now faults
        × (found ≡ least_of by_place None faults)) }
{
    let mut found = None;
    for f in funcs {
        found = check_func(alloc, found, table, f)?;
    }
    Ok(found)
}

/// The place of the first function in source form.
fn first_source(funcs: &[Func]) -> Option<Place>
    ensures { result ≡ first_source funcs.now }
{
    for f in funcs {
        if f.carry.is_none() {
            return Some(f.place);
        }
    }
    None
}

/// Whether the shardings of a module are admitted. It is refused at the first place that breaks one
/// of these rules, there with the least rule, or for want of memory:
///
/// - A1 to A8: each note in source form, and each cut in device form, keeps the rules of
///   [`sh_sharding::admit`] on the grid that it names. A cut stands at the place of its function.
/// - A9: a note is on the grid of the first note of its function.
/// - A10: where a grid is needed, a module with a function in source form has one. This is asked
///   last, and stands at the first such function.
///
/// Each note and each cut takes the time of making its grid and of admitting its sharding there. All
/// else takes time linear in the module, by tables of names.
pub fn admit_module(alloc: Global, m: &Module, need_grid: bool) -> Result<(), ModuleRefusal>
    requires { limit_faults m.now ≡ [] }
    ensures kept { OnOk result ((refusal : Fault) → ¬ (IsRefused m.now need_grid refusal)) }
    ensures refused { IfErr result (λ why. IsRefusal why m.now need_grid) }
{
    order_is_total::<Refusal>();
    let table = GridTable::new(alloc, &m.grids)?;
    if let Some(refusal) = check_funcs(alloc, &table, m.funcs.as_slice())? {
        return Err(ModuleRefusal::Broken(refusal));
    }
    if !need_grid || !m.grids.as_slice().is_empty() {
        return Ok(());
    }
    match first_source(m.funcs.as_slice()) {
        Some(place) => Err(ModuleRefusal::Broken(Refusal {
            place,
            rule: Rule::A10,
        })),
        None => Ok(()),
    }
}
