ghost use Rattle.std.specs.Prelude.{◌≡◌, ℕ, List, Option, slice_get, option_copied};
ghost use Rattle.sh_turns.specs.Program.{there};
ghost use Rattle.sh_turns_demo.specs.Plain.{read, difference, sum_within, is_collective_of, members_of, operand_of, local_of};

use std::marker::Model;

/// Some numbers: the arguments of a device, or the members of a group.
#[derive(Drop)]
pub struct Numbers {
    items: Vec<usize>,
}

impl Model for Numbers {
    ghost use Rattle.std.specs.Prelude.{List, ℕ};

    ghost Value = { List ℕ };

    ghost view = { λ n. n.items.items };
}

impl Numbers {
    pub fn from_vec(items: Vec<usize>) -> Numbers
        ensures { result ≡ items.items }
    {
        Numbers { items }
    }

    pub fn as_slice(&self) -> &[usize]
        ensures { result.now ≡ self.now }
    {
        self.items.as_slice()
    }
}

/// An instruction. Its operands are named by their places among the values of the device.
#[derive(Drop)]
pub enum Instruction {
    /// The difference of two values. It is stuck where that is below 0.
    Subtract(usize, usize),
    /// The sum of a value over the group of the device, the groups being listed by device. It is a mismatch where the sum
    /// doesn't fit.
    AllReduce(usize, Vec<Numbers>),
}

/// The value at a place.
pub fn value_at(values: &[usize], place: usize) -> Option<usize>
    ensures value { result ≡ slice_get values.now place }
    ensures there { result ≡ read (there values.now) place }
{
    values.get(place).copied()
}

impl Instruction {
    pub fn is_collective(&self) -> bool
        ensures { result ≡ is_collective_of self.now }
    {
        matches!(self, Instruction::AllReduce(_, _))
    }

    /// The group of a device, in group order.
    pub fn members(&self, device: usize) -> &[usize]
        ensures { result.now ≡ members_of self.now device }
    {
        match self {
            Instruction::Subtract(_, _) => &[],
            Instruction::AllReduce(_, groups) => match groups.get(device) {
                None => &[],
                Some(group) => group.as_slice(),
            },
        }
    }

    /// What a device with these values posts.
    pub fn operand(&self, values: &[usize]) -> Option<usize>
        ensures { result ≡ operand_of self.now (there values.now) }
    {
        match self {
            Instruction::Subtract(_, _) => None,
            Instruction::AllReduce(place, _) => value_at(values, *place),
        }
    }

    /// What a local instruction gives on a device with these values. None where it is stuck.
    pub fn local(&self, values: &[usize]) -> Option<usize>
        ensures { result ≡ local_of self.now (there values.now) }
    {
        match self {
            Instruction::Subtract(left, right) => {
                let left = value_at(values, *left)?;
                let right = value_at(values, *right)?;
                left.checked_sub(right)
            }
            Instruction::AllReduce(_, _) => None,
        }
    }
}

/// The sum, if it fits.
pub fn checked_sum(values: &[usize]) -> Option<usize>
    ensures { result ≡ sum_within values.now }
{
    let mut total = 0usize;
    for value in values {
        total = total.checked_add(*value)?;
    }
    Some(total)
}

/// A program of such instructions, with the arguments of each device and the places of the returned values.
#[derive(Drop)]
pub struct Plain {
    pub arguments: Vec<Numbers>,
    pub instructions: Vec<Instruction>,
    pub results: Vec<usize>,
}
