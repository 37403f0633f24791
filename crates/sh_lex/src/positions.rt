ghost use Rattle.std.specs.Prelude.{◌≡◌, ◌+◌, ◌<◌, ◌≤◌, fold, length};
ghost use Rattle.sh_base.specs.Limits.{max_bytes};
ghost use Rattle.sh_lex.specs.Scan.{IsAt, place_past};
ghost use Rattle.sh_lex.specs.Tokens.{is_line_feed};

use sh_base::Place;

/// A byte of a text, or its end, and the place there.
#[derive(Clone, Copy)]
pub(crate) struct Position {
    pub(crate) offset: u32,
    pub(crate) place: Place,
}

/// The place behind a byte.
#[tactic(auto, unfolding(crate::specs::Tokens::is_line_feed))]
fn place_past(place: Place, byte: u8) -> Place
    requires line { place.line < 4294967295 }
    requires column { place.column < 4294967295 }
    ensures { result ≡ place_past place byte }
{
    if byte == b'\n' {
        return Place {
            line: place.line + 1,
            column: 1,
        };
    }
    Place {
        line: place.line,
        column: place.column + 1,
    }
}

/// The place behind bytes.
fn place_past_all(from: Place, bytes: &[u8]) -> Place
    requires line { from.line + length bytes.now ≤ 4294967295 }
    requires column { from.column + length bytes.now ≤ 4294967295 }
    ensures { result ≡ fold place_past from bytes.now }
{
    let mut place = from;
    for byte in bytes {
        place = place_past(place, *byte);
    }
    place
}

/// The position `len` bytes on.
pub(crate) fn past(text: &[u8], from: Position, len: usize) -> Position
    requires at { IsAt text.now from }
    requires room { from.offset + len ≤ length text.now }
    requires small { length text.now ≤ max_bytes }
    ensures at { IsAt text.now result }
    ensures offset { result.offset ≡ from.offset + len }
{
    let (_, rest) = text.split_at(from.offset as usize);
    let (bytes, _) = rest.split_at(len);
    Position {
        offset: from.offset + len as u32,
        place: place_past_all(from.place, bytes),
    }
}
