use sh_lex::lex;
use sh_parse::parse;
use sh_print::print;
use std::alloc::Global;
use std::process::Abort;
use std::test::Fail;

const LONGEST: usize = 16_777_216;

/// A function that is open before an operation, with arguments of several types.
const HEAD: &str = "module {
  func.func @f(%arg0 : tensor<4xi32>, %arg1 : tensor<4xi32>, %arg2 : tensor<4xi1>, %arg3 : i1) {
";

/// What closes it.
const TAIL: &str = "    return
  }
}
";

/// What a text is printed as once it is read.
fn printed(rt: &impl Abort, alloc: Global, text: &str) -> Result<Vec<u8>, Fail> {
    assert!(rt; text.len() <= LONGEST);
    let tokens = lex(alloc, text.as_bytes())?;
    let module = parse(alloc, text.as_bytes(), &tokens)?;
    Ok(print(alloc, &module)?)
}

/// A text is printed as another.
pub fn assert_printed(rt: &impl Abort, alloc: Global, text: &str, want: &str) -> Result<(), Fail> {
    let found = printed(rt, alloc, text)?;
    assert!(rt; found.as_slice() == want.as_bytes(), "{text}");
    Ok(())
}

fn assert_row(rt: &impl Abort, alloc: Global, operation: &str, want: &str) -> Result<(), Fail> {
    let text = format!(in alloc; "{HEAD}    {operation}\n{TAIL}")?;
    let want = format!(in alloc; "{HEAD}    {want}\n{TAIL}")?;
    assert_printed(rt, alloc, text.as_str(), want.as_str())
}

/// Each row is an operation that is printed as it stands.
pub fn assert_same(rt: &impl Abort, alloc: Global, rows: &str) -> Result<(), Fail> {
    for row in rows.lines() {
        assert_row(rt, alloc, row, row)?;
    }
    Ok(())
}

/// Each row is an operation, and what it is printed as.
pub fn assert_rows(rt: &impl Abort, alloc: Global, rows: &str) -> Result<(), Fail> {
    for row in rows.lines() {
        let (operation, want) = row.split_once(" | ").ok_or("no bar")?;
        assert_row(rt, alloc, operation, want)?;
    }
    Ok(())
}
