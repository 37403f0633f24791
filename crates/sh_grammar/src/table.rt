ghost use Rattle.std.specs.Prelude.{IsTrue, ◌≡◌, ◌-◌, ◌+◌, ◌<◌, ◌≤◌, ◌^◌, length, slice_get, Some};
ghost use Rattle.sh_grammar.specs.Views.{rise, pieces};

use crate::{Beginning, Form, Symbol};

/// A grammar laid out flat, with the choices that one token of look-ahead decides.
#[derive(Clone, Copy)]
pub(crate) struct Table<'a> {
    /// All alternatives of all forms, one behind the other.
    pub symbols: &'a [Symbol],
    /// Where each alternative begins among the symbols, and their end.
    pub starts: &'a [u16],
    /// Where the alternatives of each form begin among the alternatives, and their end.
    pub firsts: &'a [u16],
    /// Rows of choices: by the class of the next token the alternative to take, counted from 1, or
    /// 0.
    pub choices: &'a [u16],
    /// Where the row of each form begins among the choices, and their end.
    pub rows: &'a [u16],
    /// How each form begins.
    pub beginnings: &'a [Beginning],
    ghost starts_rise: { IsTrue (rise (length symbols.now) starts.now) },
    ghost firsts_rise: { IsTrue (rise (length starts.now - 1) firsts.now) },
    ghost rows_rise: { IsTrue (rise (length choices.now) rows.now) },
    ghost short: { length symbols.now < 2 ^ 16 },
}

/// The piece of a list between a cut and the next.
pub(crate) fn piece<'a, T>(items: &'a [T], cuts: &[u16], at: usize) -> &'a [T]
    requires rise { IsTrue (rise (length items.now) cuts.now) }
    requires within { at + 1 < length cuts.now }
    ensures piece { slice_get (pieces items.now cuts.now) at ≡ Some result.now }
    ensures short { length result.now ≤ length items.now }
{
    &items[cuts[at] as usize..cuts[at + 1] as usize]
}

impl<'a> Table<'a> {
    ghost use Rattle.std.specs.Prelude.{IfSome, IfNone, None, get_or};
    ghost use Rattle.sh_grammar.specs.Grammar.{IsAlternative};
    ghost use Rattle.sh_grammar.specs.declared.symbols.Beginning.TheVariants.{Other};
    ghost use Rattle.sh_grammar.specs.Forms.{number};
    ghost use Rattle.sh_grammar.specs.Predictive.{choice};
    ghost use Rattle.sh_grammar.specs.Layout.{rules_of, choices_of};

    /// What a form may be by one of its alternatives.
    pub fn body(&self, form: Form, alternative: u16) -> Option<&'a [Symbol]>
        ensures some { IfSome result (λ b.
            IsAlternative (rules_of self.now) form alternative b.now) }
        ensures short { IfSome result (λ b. length b.now < 2 ^ 16) }
        ensures none { IfNone result (slice_get (rules_of self.now form) alternative ≡ None) }
    {
        let index = form.number();
        if self.firsts.len() <= index + 1 {
            return None;
        }
        let at = self.firsts[index] as usize + alternative as usize;
        if self.firsts[index + 1] as usize <= at || self.starts.len() <= at + 1 {
            return None;
        }
        Some(piece(self.symbols, self.starts, at))
    }

    /// The choice for a form before a token: 0, or 1 and the number of the alternative to take.
    pub fn choice(&self, form: Form, class: u16) -> u16
        ensures { result ≡ choice (choices_of self.now) form class }
    {
        let index = form.number();
        if self.rows.len() <= index + 1 {
            return 0;
        }
        let row = piece(self.choices, self.rows, index);
        row.get(class as usize).copied().unwrap_or(0)
    }

    /// How a form begins.
    pub fn beginning(&self, form: Form) -> Beginning
        ensures { result ≡ get_or self.now.beginnings.now (number form) Other }
    {
        let index = form.number();
        if index < self.beginnings.len() {
            self.beginnings[index]
        } else {
            Beginning::Other
        }
    }
}
