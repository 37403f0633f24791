ghost use Rattle.std.specs.Prelude.{◌≡◌, ◌≤◌, ◌+◌, [], ◌∷◌, IfOk, IsOk, List, OnOk, drop, length, take};
ghost use Rattle.std.specs.List.{prefix_len};
ghost use Rattle.sh_build.specs.Building.{AreSized, parts_by};
ghost use Rattle.sh_build.specs.declared.parts.Alias.{Alias as AliasOf};
ghost use Rattle.sh_grammar.specs.Lexemes.{lexemes};
ghost use Rattle.sh_names.specs.Tables.{AreWithin, tooks};
ghost use Rattle.sh_parse.specs.Leaves.{AreMapsOf};
ghost use Rattle.sh_parse.specs.Reads.{leaves};

use crate::leaves::leaf;
use crate::maps::Maps;
use sh_base::Mem;
use sh_build::{Part, Row, open};
use sh_grammar::Event;
use sh_lex::Token;
use std::alloc::Global;

/// The row with what a token stands for in front.
fn put_leaf(row: Row, part: Result<Part, Mem>) -> Result<Row, Mem>
    ensures put { IfOk result (λ new. IfOk part (λ p. new ≡ p ∷ row)) }
    ensures ok { OnOk result (IsOk part) }
{
    match part {
        Ok(part) => row.put(part),
        Err(refusal) => {
            row.discard();
            Err(refusal)
        }
    }
}

/// The parts of some tokens, over the steps that take them, made from the last step to the first.
/// Each token has the number of its name, and each alias its map.
pub(crate) fn row_of(
    alloc: Global,
    text: &[u8],
    tokens: &[Token],
    ids: &[u32],
    maps: &Maps,
    events: &[Event],
) -> Result<Row, Mem>
    requires within { AreWithin text.now tokens.now }
    requires tokens { tooks events.now ≡ length tokens.now }
    requires ids { length ids.now ≡ length tokens.now }
    requires sized { AreSized events.now }
    ensures { IfOk result (λ row. (aliases : List AliasOf) → AreMapsOf maps.now aliases
        → row ≡ parts_by events.now (leaves aliases (lexemes text.now tokens.now) ids.now) []) }
{
    let mut row = Row::new(alloc);
    let mut events = events;
    let mut tokens = tokens;
    let mut ids = ids;
    while let Some((event, front)) = events.split_last() {
        events = front;
        match *event {
            Event::Opened {
                form,
                alternative,
                size,
            } => row = open(alloc, form, alternative, size, row)?,
            Event::Took => {
                let Some((token, before)) = tokens.split_last() else {
                    unreachable!()
                };
                let Some((id, earlier)) = ids.split_last() else {
                    unreachable!()
                };
                tokens = before;
                ids = earlier;
                row = put_leaf(row, leaf(alloc, text, token, *id, maps))?;
            }
        }
    }
    Ok(row)
}
