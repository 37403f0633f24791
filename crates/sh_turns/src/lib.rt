//! Devices that run one program, one device turn at a time, and what holds whatever the order of the turns.
//! `docs/TURNS.md` says it in plain words.
#![tactic(auto)]

ghost use Rattle.std.specs.Prelude.{◌≡◌, ◌↔◌, ℕ, ◌<◌, true, false, List, [], slice_index_or};
ghost use Rattle.sh_turns.specs.Program.{Program, IsWellFormed, there, values_before, returned};
ghost use Rattle.sh_turns.specs.Lockstep.{Done, StuckAt, MismatchAt, is_done, lockstep, HasAllValues, LacksFirst};
ghost use Rattle.sh_turns.specs.World.{World, start, can_move, turn, after, goes_on};
ghost use Rattle.sh_turns.specs.Law.{AllAgree, HoldsInEveryOrder};

/// What one turn of a device was.
#[derive(Clone, Copy, Debug, PartialEq, Eq)]
pub enum Turn {
    /// A local instruction gave its value.
    Local,
    /// The operand of a collective was posted.
    Posted,
    /// The value of a collective was taken.
    Took,
    /// A local instruction has no value. The world is as it was.
    Stuck,
    /// A collective has no value, or a member's post is another instruction's. The world is as it was.
    Mismatch,
}

/// The law of turns: for every program over values of any type, and every order in which its devices make turns.
/// The body is empty, since the law is a fact about the definitions alone. Whoever runs device programs gives a
/// `Program` for each, and has the law of it.
pub fn every_order<V>()
    ensures { (p : Program V) → IsWellFormed p → HoldsInEveryOrder p }
{}

/// What the law rests on: before any turn each device has what the program says, and each kind of turn keeps that.
pub fn each_turn<V>()
    ensures before { (p : Program V) → AllAgree p (start p) }
    ensures kept { (p : Program V) (w : World V) (c : ℕ) → IsWellFormed p → AllAgree p w → can_move p w c ≡ true → goes_on (turn p w c) ≡ true → AllAgree p (after p w c) }
{}

/// Running in step is done exactly where every value is there, with the results that each device's values give. Else it
/// names the least instruction that lacks a value, and there the least device.
pub fn in_step<V>()
    ensures done { (p : Program V) → (is_done (lockstep p) ≡ true) ↔ HasAllValues p }
    ensures results { (p : Program V) (rows : List (List V)) → lockstep p ≡ Done rows → (c : ℕ) (values : List V) → c < p.devices → there values ≡ values_before p p.size c → slice_index_or rows c [] ≡ returned p values }
    ensures stuck { (p : Program V) (k c : ℕ) → lockstep p ≡ StuckAt k c → LacksFirst p k c × (p.is_collective k ≡ false) }
    ensures mismatch { (p : Program V) (k c : ℕ) → lockstep p ≡ MismatchAt k c → LacksFirst p k c × (p.is_collective k ≡ true) }
{}
