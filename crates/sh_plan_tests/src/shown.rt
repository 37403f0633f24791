use sh_plan::Move;
use std::alloc::Global;
use std::test::Fail;

/// Appends a move.
fn push_move(line: &mut String, m: Move) -> Result<(), Fail> {
    match m {
        Move::M1 { d } => write!(line, "M1 {d}")?,
        Move::M2 { d, a } => write!(line, "M2 {d} {a}")?,
        Move::M3 { d, e } => write!(line, "M3 {d} {e}")?,
        Move::M4 { d } => write!(line, "M4 {d}")?,
        Move::M5 { d } => write!(line, "M5 {d}")?,
    }
    Ok(())
}

/// Moves with commas.
pub fn show_moves(alloc: Global, moves: &[Move]) -> Result<String, Fail> {
    let mut line = String::new(alloc);
    for (at, m) in moves.iter().enumerate() {
        if at > 0 {
            line.push_str(", ")?;
        }
        push_move(&mut line, *m)?;
    }
    Ok(line)
}
