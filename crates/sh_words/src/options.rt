use sh_base::{Mem, Order, Traversal};

/// Which program is run.
#[derive(Clone, Copy, Debug, PartialEq, Eq)]
pub enum Tool {
    /// `shard-opt` rewrites a module.
    Opt,
    /// `shard-run` runs the calls of a module.
    Run,
}

/// What the words of a program say. A field whose word isn't given is `None`, false or `Round`.
#[derive(Debug, Drop)]
pub struct Options {
    /// `--propagate=V`: propagate the functions in source form, in this traversal.
    pub propagate: Option<Traversal>,
    /// `--partition`: partition the functions in source form.
    pub partition: bool,
    /// `--simplify`: simplify the functions in device form.
    pub simplify: bool,
    /// `--halo-to-shift`: lower the exchange of halos in device form.
    pub halo_to_shift: bool,
    /// `--order=V` or `--turns=D,D`: the order in which devices take their turns.
    pub order: Order,
    /// `--trace`: print every turn.
    pub trace: bool,
    /// `--device`: run functions in device form.
    pub device: bool,
    /// `--generate=D` and `--size=D`: run a generated module.
    pub generate: Option<Generate>,
}

/// Which generated module is run.
#[derive(Clone, Copy, Debug, PartialEq, Eq)]
pub struct Generate {
    /// The number that all its draws come from.
    pub number: u64,
    /// How many layers it has, from 1 to 256.
    pub size: u64,
}

/// Why words give no options.
#[derive(Clone, Copy, Debug, PartialEq, Eq)]
pub enum WordsRefusal {
    /// They aren't accepted.
    Usage,
    /// Want of memory.
    Mem,
}

impl From<Mem> for WordsRefusal {
    ghost use Rattle.std.specs.Prelude.{◌≡◌};
    ghost use Rattle.sh_words.specs.declared.options.WordsRefusal.TheVariants as refusal;

    ghost from_gives = { λ _ e. e ≡ refusal.Mem };

    fn from(_: Mem) -> WordsRefusal {
        WordsRefusal::Mem
    }
}
