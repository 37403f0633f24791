ghost use Rattle.std.specs.Prelude.{◌≡◌};
ghost use Rattle.sh_cli.specs.Status.{code_of};

use sh_base::{Mem, Refusal};
use sh_io::{ReadEnd, WriteFault};

/// How a run of a program ends. A refusal writes nothing to the output, but for `Write`, which may
/// have written a proper prefix, and one line to the error output.
#[derive(Clone, Copy, Debug, PartialEq, Eq)]
pub enum Status {
    /// The whole output was written.
    Success,
    /// The command words aren't accepted.
    Usage,
    /// The text stands for no module.
    Text(Refusal),
    /// The module breaks a rule.
    Verify(Refusal),
    /// A sharding of the module isn't admitted.
    Admission(Refusal),
    /// The input failed.
    Read,
    /// The output failed.
    Write,
    /// A limit is passed.
    Limit(Passed),
    /// Memory is wanting.
    Memory,
    /// What is asked for isn't built yet.
    Unbuilt,
}

/// Which limit is passed.
#[derive(Clone, Copy, Debug, PartialEq, Eq)]
pub enum Passed {
    /// The input is longer than 16,777,216 bytes.
    Input,
    /// A limit of the module, and where.
    At(Refusal),
}

impl Status {
    /// The number with which the program ends.
    pub fn code(&self) -> u8
        ensures { result ≡ code_of self.now }
    {
        match self {
            Status::Success => 0,
            Status::Usage => 2,
            Status::Text(_) => 3,
            Status::Verify(_) => 4,
            Status::Admission(_) => 5,
            Status::Read => 10,
            Status::Write => 11,
            Status::Limit(_) => 12,
            Status::Memory => 13,
            Status::Unbuilt => 14,
        }
    }
}

impl From<Mem> for Status {
    ghost use Rattle.std.specs.Prelude.{◌≡◌};
    ghost use Rattle.sh_cli.specs.declared.status.Status.TheVariants.{Memory};

    ghost from_gives = { λ _ s. s ≡ Memory };

    fn from(_: Mem) -> Status {
        Status::Memory
    }
}

impl From<ReadEnd> for Status {
    ghost use Rattle.std.specs.Prelude.{◌≡◌};
    ghost use Rattle.sh_cli.specs.Status.{read_status};

    ghost from_gives = { λ e s. s ≡ read_status e };

    fn from(end: ReadEnd) -> Status {
        match end {
            ReadEnd::Fault => Status::Read,
            ReadEnd::TooLong => Status::Limit(Passed::Input),
            ReadEnd::Mem => Status::Memory,
        }
    }
}

impl From<WriteFault> for Status {
    ghost use Rattle.std.specs.Prelude.{◌≡◌};
    ghost use Rattle.sh_cli.specs.declared.status.Status.TheVariants.{Write};

    ghost from_gives = { λ _ s. s ≡ Write };

    fn from(_: WriteFault) -> Status {
        Status::Write
    }
}
