use sh_base::{Cell, Items, Mem, Text, Width};
use sh_ir::{Constant, Contents, Dim, TensorType, ValueType};
use sh_literals::{Element, Literal, dense, in_front, no_list, scalar, single};
use std::alloc::Global;
use std::test::Fail;

/// A list of numbers.
fn row(alloc: Global, numbers: &[i128]) -> Result<Literal, Mem> {
    let mut list = no_list(alloc)?;
    for number in numbers.iter().rev() {
        list = in_front(single(alloc, Element::Number(*number))?, list)?;
    }
    Ok(list)
}

/// A list of two lists.
fn rows(alloc: Global, first: &[i128], second: &[i128]) -> Result<Literal, Mem> {
    let last = in_front(row(alloc, second)?, no_list(alloc)?)?;
    in_front(row(alloc, first)?, last)
}

/// A string.
fn string(alloc: Global, bytes: &[u8]) -> Result<Literal, Mem> {
    let mut text: Vec<u8> = Vec::new(alloc);
    text.extend_from_slice(bytes)?;
    Ok(Literal::Quoted(Items::from_vec(text)))
}

/// A tensor type of known extents.
fn tensor(alloc: Global, extents: &[u64], width: Width) -> Result<ValueType, Mem> {
    let mut dims: Vec<Dim> = Vec::new(alloc);
    for extent in extents {
        dims.push(Dim::Known(*extent))?;
    }
    let dims = Items::from_vec(dims);
    Ok(ValueType::Tensor(TensorType { dims, width }))
}

/// Whether a constant holds these numbers.
fn holds(constant: &Constant, numbers: &[u64]) -> bool {
    match &constant.contents {
        Contents::Broken => false,
        Contents::Held(cells) => are_cells(cells.as_slice(), numbers),
    }
}

fn are_cells(cells: &[Cell], numbers: &[u64]) -> bool {
    if cells.len() != numbers.len() {
        return false;
    }
    for (at, cell) in cells.iter().enumerate() {
        if *cell != Cell::Val(numbers[at]) {
            return false;
        }
    }
    true
}

fn is_broken(constant: &Constant) -> bool {
    match &constant.contents {
        Contents::Broken => true,
        Contents::Held(_) => false,
    }
}

#[test]
fn lists_hold_their_cells(rt: HostRuntime) -> Result<(), Fail> {
    let alloc = rt.alloc();
    let square = tensor(alloc, &[2, 2], Width::I8)?;
    assert!(rt;
        holds(
            &dense(alloc, square, rows(alloc, &[1, 2], &[3, -1])?)?,
            &[1, 2, 3, 255]
        )
    );
    let square = tensor(alloc, &[2, 2], Width::I8)?;
    assert!(rt; holds(&dense(alloc, square, rows(alloc, &[7, 7], &[7, 7])?)?, &[7]));
    let square = tensor(alloc, &[2, 2], Width::I8)?;
    assert!(rt; is_broken(&dense(alloc, square, rows(alloc, &[1, 2], &[3])?)?));
    let square = tensor(alloc, &[2, 2], Width::I8)?;
    assert!(rt; is_broken(&dense(alloc, square, rows(alloc, &[1, 2], &[3, 256])?)?));
    Ok(())
}

#[test]
fn strings_hold_their_cells(rt: HostRuntime) -> Result<(), Fail> {
    let alloc = rt.alloc();
    let pair = tensor(alloc, &[2], Width::I16)?;
    assert!(rt;
        holds(
            &dense(alloc, pair, string(alloc, b"0x0102ffFE")?)?,
            &[513, 65279]
        )
    );
    let pair = tensor(alloc, &[2], Width::I16)?;
    assert!(rt; holds(&dense(alloc, pair, string(alloc, b"0x0100")?)?, &[1]));
    let pair = tensor(alloc, &[2], Width::I16)?;
    assert!(rt; is_broken(&dense(alloc, pair, string(alloc, b"0x01")?)?));
    assert!(rt; holds(&scalar(alloc, Width::I1, Element::Truth(true))?, &[1]));
    assert!(rt; is_broken(&scalar(alloc, Width::I8, Element::Truth(true))?));
    Ok(())
}

/// One number in so many lists.
fn nested(alloc: Global, depth: usize) -> Result<Literal, Mem> {
    let mut literal = single(alloc, Element::Number(1))?;
    for _ in 0..depth {
        literal = in_front(literal, no_list(alloc)?)?;
    }
    Ok(literal)
}

#[test]
fn a_hundred_thousand_brackets(rt: HostRuntime) -> Result<(), Fail> {
    let alloc = rt.alloc();
    let literal = nested(alloc, 100_000)?;
    let vector = tensor(alloc, &[1], Width::I8)?;
    assert!(rt; is_broken(&dense(alloc, vector, literal)?));
    Ok(())
}
