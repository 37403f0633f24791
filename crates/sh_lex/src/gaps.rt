ghost use Rattle.std.specs.Prelude.{◌≡◌, ◌<◌, ◌≤◌, false, length, take, drop};
ghost use Rattle.sh_lex.specs.Tokens.{IsGap, IsGapPart, begins_gap};

use crate::bytes::{Class, is_blank, run_len};

/// How many bytes the blank or the comment at the front has, 0 where none stands there.
fn gap_part_len(rest: &[u8]) -> usize
    ensures within { result ≤ length rest.now }
    ensures part { 0 < result → IsGapPart (take result rest.now) (drop result rest.now) }
    ensures none { result ≡ 0 → begins_gap rest.now ≡ false }
{
    if rest.starts_with(b"//") {
        return run_len(rest, Class::Line);
    }
    match rest.first() {
        Some(byte) if is_blank(*byte) => 1,
        _ => 0,
    }
}

/// How many bytes of blanks and comments stand at the front.
pub(crate) fn gap_len(rest: &[u8]) -> usize
    ensures within { result ≤ length rest.now }
    ensures gap { IsGap (drop result rest.now) (take result rest.now) }
{
    let mut len = 0;
    loop {
        let (_, left) = rest.split_at(len);
        let part = gap_part_len(left);
        if part == 0 {
            return len;
        }
        len += part;
    }
}
