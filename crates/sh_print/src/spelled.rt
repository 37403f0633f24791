ghost use Rattle.std.specs.Prelude.{◌≡◌, ℤ, List, ◌∷◌, [], OnOk};
ghost use Rattle.sh_lex.specs.declared.tokens.TokenKind.TheVariants as kind;
ghost use Rattle.sh_print.specs.Layout.{Piece};
ghost use Rattle.sh_print.specs.Layout.Piece.{token};
ghost use Rattle.sh_print.specs.Pages.{written};
ghost use Rattle.sh_print.specs.Spellings.{in_brackets, list_of, num, nums, rest_of_list};
ghost use Rattle.sh_print.specs.Words.{iterator_word as iterator_text};
ghost use Rattle.std.specs.Prelude.{codes, decimal, ◌++◌};

use crate::printer::Printer;
use crate::words::iterator_word;
use sh_base::{Items, Mem};
use sh_ir::IteratorType;

/// What is printed the same wherever it stands.
pub(crate) trait Spelled {
    ghost pieces: { Self → List Piece };

    /// Prints it.
    fn print(&self, printer: &mut Printer) -> Result<(), Mem>
        ensures { OnOk result (printer.new ≡ written printer.old (pieces self.now)) };
}

impl Spelled for i128 {
    ghost pieces = { num };

    fn print(&self, printer: &mut Printer) -> Result<(), Mem> {
        if *self < 0 {
            printer.sign(b'-')?;
        }
        printer.number(self.unsigned_abs())
    }
}

impl Spelled for u32 {
    ghost pieces = { λ n. token kind.Word (codes "d" ++ decimal n) ∷ [] };

    fn print(&self, printer: &mut Printer) -> Result<(), Mem> {
        printer.loop_word(*self)
    }
}

impl Spelled for IteratorType {
    ghost pieces = { λ x. token kind.Str (iterator_text x) ∷ [] };

    fn print(&self, printer: &mut Printer) -> Result<(), Mem> {
        printer.quoted(iterator_word(*self))
    }
}

impl Spelled for Items<i128> {
    ghost pieces = { nums };

    fn print(&self, printer: &mut Printer) -> Result<(), Mem> {
        in_brackets(printer, self.as_slice())
    }
}

/// Items behind the first of a list, each behind a comma.
fn rest_of_list<T: Spelled>(printer: &mut Printer, items: &[T]) -> Result<(), Mem>
    ensures { OnOk result (printer.new ≡ written printer.old (rest_of_list T.pieces items.now)) }
{
    for item in items {
        printer.sign(b',')?;
        item.print(printer)?;
    }
    Ok(())
}

/// Items with commas between them.
pub(crate) fn list_of<T: Spelled>(printer: &mut Printer, items: &[T]) -> Result<(), Mem>
    ensures { OnOk result (printer.new ≡ written printer.old (list_of T.pieces items.now)) }
{
    match items.split_first() {
        None => Ok(()),
        Some((first, rest)) => {
            first.print(printer)?;
            rest_of_list(printer, rest)
        }
    }
}

/// The same in brackets.
#[tactic(auto, unfolding(crate::specs::Spellings::in_brackets))]
pub(crate) fn in_brackets<T: Spelled>(printer: &mut Printer, items: &[T]) -> Result<(), Mem>
    ensures { OnOk result (printer.new ≡ written printer.old (in_brackets T.pieces items.now)) }
{
    printer.sign(b'[')?;
    list_of(printer, items)?;
    printer.sign(b']')
}
