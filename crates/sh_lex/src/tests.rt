use crate::{LexRefusal, lex};
use sh_base::Place;
use std::alloc::Global;
use std::process::Abort;
use std::test::Fail;

const LONGEST: usize = 16_777_216;

/// What `lex` answers, in one line: each token's kind, place and text, or the refusal and its place.
fn shown(rt: &impl Abort, alloc: Global, text: &str) -> Result<String, Fail> {
    assert!(rt; text.len() <= LONGEST);
    let mut line = String::new(alloc);
    let tokens = match lex(alloc, text.as_bytes()) {
        Ok(tokens) => tokens,
        Err(why) => return refusal(alloc, why),
    };
    for token in &tokens {
        let kind = token.kind;
        let Place { line: row, column } = token.place;
        let bytes = text
            .get(token.start as usize..token.end as usize)
            .ok_or("no slice")?;
        write!(line, "{kind:?} {row}:{column} {bytes}|")?;
    }
    Ok(line)
}

fn refusal(alloc: Global, why: LexRefusal) -> Result<String, Fail> {
    let (code, place) = match why {
        LexRefusal::BadByte { place } => ("B1", place),
        LexRefusal::OpenString { place } => ("B2", place),
        LexRefusal::NumberTooWide { place } => ("B3", place),
        LexRefusal::Mem => return Ok(String::from_str(alloc, "Mem")?),
    };
    let Place { line, column } = place;
    Ok(format!(in alloc; "{code} {line}:{column}")?)
}

#[test]
fn lexes_each_kind_and_takes_the_longest(rt: HostRuntime) -> Result<(), Fail> {
    let cases = [
        ("", "End 1:1 |"),
        ("a_1.$Z", "Word 1:1 a_1.$Z|End 1:7 |"),
        ("%c-1_i32", "Val 1:1 %c-1_i32|End 1:9 |"),
        (
            "@f #m ^bb0 !t",
            "At 1:1 @f|Hash 1:4 #m|Block 1:7 ^bb0|Bang 1:12 !t|End 1:14 |",
        ),
        (
            "0 00120 18446744073709551615",
            "Number 1:1 0|Number 1:3 00120|Number 1:9 18446744073709551615|End 1:29 |",
        ),
        (
            "4x ?x 18446744073709551615x",
            "Dim 1:1 4x|Dim 1:4 ?x|Dim 1:7 18446744073709551615x|End 1:28 |",
        ),
        (
            "\"\" \"a b%\u{e9}//\"",
            "Str 1:1 \"\"|Str 1:4 \"a b%\u{e9}//\"|End 1:14 |",
        ),
        (
            "(){}[]<>,:=+*-->",
            "Sign 1:1 (|Sign 1:2 )|Sign 1:3 {|Sign 1:4 }|Sign 1:5 [|Sign 1:6 ]|Sign 1:7 <|Sign 1:8 >|\
             Sign 1:9 ,|Sign 1:10 :|Sign 1:11 =|Sign 1:12 +|Sign 1:13 *|Sign 1:14 -|Sign 1:15 ->|End 1:17 |",
        ),
        ("4x14xi32", "Dim 1:1 4x|Dim 1:3 14x|Word 1:6 i32|End 1:9 |"),
        ("12xy", "Dim 1:1 12x|Word 1:4 y|End 1:5 |"),
        ("?xx", "Dim 1:1 ?x|Word 1:3 x|End 1:4 |"),
        ("0x1F", "Dim 1:1 0x|Number 1:3 1|Word 1:4 F|End 1:5 |"),
        ("2x2", "Dim 1:1 2x|Number 1:3 2|End 1:4 |"),
        ("%a->b", "Val 1:1 %a-|Sign 1:4 >|Word 1:5 b|End 1:6 |"),
        (
            "a->b-1",
            "Word 1:1 a|Sign 1:2 ->|Word 1:4 b|Sign 1:5 -|Number 1:6 1|End 1:7 |",
        ),
        ("a// b\nc", "Word 1:1 a|Word 2:1 c|End 2:2 |"),
        ("// a / \u{e9}", "End 1:10 |"),
        ("a\r\n\tb\n\n //\n ", "Word 1:1 a|Word 2:2 b|End 5:2 |"),
    ];
    for (text, expected) in cases {
        let found = shown(&rt, rt.alloc(), text)?;
        assert_eq!(rt; found.as_str(), expected, "at {text:?}");
    }
    Ok(())
}

#[test]
fn refuses_at_the_first_fault(rt: HostRuntime) -> Result<(), Fail> {
    let cases = [
        ("?", "B1 1:1"),
        ("a ?y", "B1 1:3"),
        ("a\n /", "B1 2:2"),
        ("a // b\n% c", "B1 2:1"),
        ("@", "B1 1:1"),
        ("#-", "B1 1:1"),
        ("^", "B1 1:1"),
        ("a!", "B1 1:2"),
        ("1.5", "B1 1:2"),
        ("a;\"", "B1 1:2"),
        ("\t\u{e9}", "B1 1:2"),
        ("\"", "B2 1:1"),
        ("a \"b\nc\"", "B2 1:3"),
        ("\r\n \"a\\\"b\" ;", "B2 2:2"),
        ("18446744073709551616", "B3 1:1"),
        ("a // 1\n 00018446744073709551616x", "B3 2:2"),
        ("1 99999999999999999999999 ;", "B3 1:3"),
    ];
    for (text, expected) in cases {
        let found = shown(&rt, rt.alloc(), text)?;
        assert_eq!(rt; found.as_str(), expected, "at {text:?}");
    }
    Ok(())
}

#[test]
fn lexes_texts_of_the_greatest_length(rt: HostRuntime) -> Result<(), Fail> {
    let cases = [
        ("", b'+', "", LONGEST + 1),
        ("", b' ', "", 1),
        ("//", b'c', "", 1),
        ("\"", b's', "\"", 2),
        ("", b'w', "", 2),
    ];
    for (opening, byte, closing, count) in cases {
        let mut text = Vec::with_capacity(rt.alloc(), LONGEST)?;
        text.extend_from_slice(opening.as_bytes())?;
        text.resize(LONGEST.saturating_sub(closing.len()), byte)?;
        text.extend_from_slice(closing.as_bytes())?;
        assert_eq!(rt; text.len(), LONGEST);
        assert_eq!(rt; lex(rt.alloc(), text.as_slice())?.len(), count);
    }
    Ok(())
}
