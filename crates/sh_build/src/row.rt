ghost use Rattle.std.specs.Prelude.{◌≡◌, [], ◌∷◌, drop, IfNone, IfOk, IfSome};
ghost use Rattle.sh_build.specs.declared.parts.Part.TheVariants as part;
ghost use Rattle.sh_ir.specs.declared.modules.Module.{Module as ModuleOf};
ghost use Rattle.sh_build.specs.Rows.{first_part, past};

use crate::parts::Part;
use crate::readings::discard;
use sh_base::Mem;
use sh_ir::Module;
use std::alloc::Global;
use std::marker::Model;

/// The parts that are read so far, the first one topmost.
#[derive(Drop)]
pub struct Row {
    stack: Vec<Part>,
}

impl Model for Row {
    ghost use Rattle.std.specs.Prelude.{List, reverse};
    ghost use Rattle.sh_build.specs.declared.parts.Part.{Part};

    ghost Value = { List Part };

    ghost view = { λ it. reverse it.stack.items };
}

impl Row {
    /// No parts.
    pub fn new(alloc: Global) -> Row
        ensures { result ≡ [] }
    {
        Row {
            stack: Vec::new(alloc),
        }
    }

    /// Takes the first part; nothing where there is none.
    pub(crate) fn next(&mut self) -> Part
        ensures part { result ≡ first_part self.old }
        ensures rest { self.new ≡ drop 1 self.old }
    {
        match self.stack.pop() {
            Some(part) => part,
            None => Part::Nothing,
        }
    }

    /// Lets so many parts go.
    #[tactic(auto, using(crate::proofs::Behind::past_one))]
    pub(crate) fn skip(&mut self, count: usize)
        ensures { self.new ≡ past count self.old }
    {
        for _ in 0..count {
            discard(self.next());
        }
    }

    /// Takes one of the next parts, and lets those around it go.
    pub(crate) fn pass(&mut self, before: usize, behind: usize) -> Part
        ensures part { result ≡ first_part (past before self.old) }
        ensures rest { self.new ≡ past behind (drop 1 (past before self.old)) }
    {
        self.skip(before);
        let part = self.next();
        self.skip(behind);
        part
    }

    /// The row with one more part in front.
    pub fn put(self, part: Part) -> Result<Row, Mem>
        ensures { IfOk result (λ row. row ≡ part ∷ self) }
    {
        let mut stack = self.stack;
        stack.push(part)?;
        Ok(Row { stack })
    }

    /// The first part; nothing where there is none. The others are let go.
    pub fn into_first(self) -> Part
        ensures { result ≡ first_part self }
    {
        let mut row = self;
        row.next()
    }

    /// The module that the first part is; nothing where it is none. The others are let go.
    pub fn into_module(self) -> Option<Module>
        ensures some { IfSome result (λ m. first_part self ≡ part.Module m) }
        ensures none { IfNone result ((m : ModuleOf) → first_part self ≡ part.Module m → ⊥) }
    {
        match self.into_first() {
            Part::Module(module) => Some(module.into_value()),
            other => {
                discard(other);
                None
            }
        }
    }

    /// Lets all parts go.
    pub fn discard(self) {}
}
