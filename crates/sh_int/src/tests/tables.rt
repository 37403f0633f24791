//! What the operations give, worked out apart from the code. Each table is a function's result, so that proofs needn't look
//! into it.

use BinOp::{
    Addi, Andi, Divsi, Divui, Maxsi, Maxui, Minsi, Minui, Muli, Ori, Remsi, Remui, Shli, Shrsi,
    Shrui, Subi, Xori,
};
use CastOp::{Extsi, Extui, Trunci};
use Width::{I1, I8, I16, I32, I64};
use sh_base::{BinOp, CastOp, Kind, Predicate, Width};

/// The least signed number of 64 bits, and all ones.
const TOP: u64 = 1 << 63;

const ALL: u64 = u64::MAX;

/// The operations, in the order of the lines below.
pub const OPERATIONS: [BinOp; 17] = [
    Addi, Subi, Muli, Divui, Divsi, Remui, Remsi, Andi, Ori, Xori, Maxsi, Minsi, Maxui, Minui,
    Shli, Shrui, Shrsi,
];

/// A line for each operation: the results at `i1` of 0 by 0, 0 by 1, 1 by 0 and 1 by 1, where `-` is stuck.
pub fn at_i1() -> &'static str {
    "0 1 1 0\n\
     0 1 1 0\n\
     0 0 0 1\n\
     - 0 - 1\n\
     - 0 - -\n\
     - 0 - 0\n\
     - 0 - -\n\
     0 0 0 1\n\
     0 1 1 1\n\
     0 1 1 0\n\
     0 0 0 1\n\
     0 1 1 1\n\
     0 1 1 1\n\
     0 0 0 1\n\
     0 - 1 -\n\
     0 - 1 -\n\
     0 - 1 -"
}

/// The same at `i8`, of each of 0, 1, 127, 128 and 255 by each of them.
pub fn at_i8_edges() -> &'static str {
    "0 1 127 128 255 1 2 128 129 0 127 128 254 255 126 128 129 255 0 127 255 0 126 127 254\n\
     0 255 129 128 1 1 0 130 129 2 127 126 0 255 128 128 127 1 0 129 255 254 128 127 0\n\
     0 0 0 0 0 0 1 127 128 255 0 127 1 128 129 0 128 128 0 128 0 255 129 128 1\n\
     - 0 0 0 0 - 1 0 0 0 - 127 1 0 0 - 128 1 1 0 - 255 2 1 1\n\
     - 0 0 0 0 - 1 0 0 255 - 127 1 0 129 - 128 255 1 - - 255 0 0 1\n\
     - 0 0 0 0 - 0 1 1 1 - 0 0 127 127 - 0 1 0 128 - 0 1 127 0\n\
     - 0 0 0 0 - 0 1 1 0 - 0 0 127 0 - 0 255 0 - - 0 255 255 0\n\
     0 0 0 0 0 0 1 1 0 1 0 1 127 0 127 0 0 0 128 128 0 1 127 128 255\n\
     0 1 127 128 255 1 1 127 129 255 127 127 127 255 255 128 129 255 128 255 255 255 255 255 255\n\
     0 1 127 128 255 1 0 126 129 254 127 126 0 255 128 128 129 255 0 127 255 254 128 127 0\n\
     0 1 127 0 0 1 1 127 1 1 127 127 127 127 127 0 1 127 128 255 0 1 127 255 255\n\
     0 0 0 128 255 0 1 1 128 255 0 1 127 128 255 128 128 128 128 128 255 255 255 128 255\n\
     0 1 127 128 255 1 1 127 128 255 127 127 127 128 255 128 128 128 128 255 255 255 255 255 255\n\
     0 0 0 0 0 0 1 1 1 1 0 1 127 127 127 0 1 127 128 128 0 1 127 128 255\n\
     0 0 - - - 1 2 - - - 127 254 - - - 128 0 - - - 255 254 - - -\n\
     0 0 - - - 1 0 - - - 127 63 - - - 128 64 - - - 255 127 - - -\n\
     0 0 - - - 1 0 - - - 127 63 - - - 128 192 - - - 255 255 - - -"
}

/// An operation, a width, two numbers, and the result.
pub fn at_widths() -> [(BinOp, Width, u64, u64, Option<u64>); 32] {
    [
        (Addi, I64, ALL, 1, Some(0)),
        (Addi, I64, TOP, TOP, Some(0)),
        (Subi, I64, 0, 1, Some(ALL)),
        (Subi, I64, TOP, TOP + 1, Some(ALL)),
        (Muli, I64, ALL, ALL, Some(1)),
        (Muli, I64, 4294967297, 4294967297, Some(8589934593)),
        (Divui, I64, ALL, 2, Some(TOP - 1)),
        (Divsi, I64, ALL - 6, 2, Some(ALL - 2)),
        (Divsi, I64, TOP, ALL, None),
        (Divsi, I64, TOP, 1, Some(TOP)),
        (Remsi, I64, ALL - 6, 2, Some(ALL)),
        (Remsi, I64, 7, ALL - 1, Some(1)),
        (Remsi, I64, TOP, ALL, None),
        (Remui, I64, ALL, 10, Some(5)),
        (Maxsi, I64, TOP, TOP - 1, Some(TOP - 1)),
        (Minsi, I64, ALL, 0, Some(ALL)),
        (Shli, I64, 3, 63, Some(TOP)),
        (Shli, I64, 1, 64, None),
        (Shrui, I64, ALL, 63, Some(1)),
        (Shrsi, I64, TOP, 63, Some(ALL)),
        (Shrsi, I64, ALL - 7, 1, Some(ALL - 3)),
        (Addi, I32, 4294967295, 2, Some(1)),
        (Muli, I32, 2147483648, 3, Some(2147483648)),
        (Remsi, I32, 4294967289, 3, Some(4294967295)),
        (Shrsi, I32, 2147483648, 31, Some(4294967295)),
        (Shli, I32, 1, 32, None),
        (Addi, I16, 65535, 1, Some(0)),
        (Subi, I16, 0, 32768, Some(32768)),
        (Divsi, I16, 32768, 65535, None),
        (Divsi, I16, 65529, 2, Some(65533)),
        (Shrsi, I16, 65529, 1, Some(65532)),
        (Shli, I16, 32769, 1, Some(2)),
    ]
}

/// A cast, the widths from which and to which it goes, a number, and the result.
pub fn between_widths() -> [(CastOp, Width, Width, u64, u64); 40] {
    [
        (Extsi, I1, I8, 1, 255),
        (Extui, I1, I8, 1, 1),
        (Extsi, I1, I8, 0, 0),
        (Extsi, I1, I16, 1, 65535),
        (Extui, I1, I16, 1, 1),
        (Extsi, I1, I16, 0, 0),
        (Extsi, I1, I32, 1, 4294967295),
        (Extui, I1, I32, 1, 1),
        (Extsi, I1, I32, 0, 0),
        (Extsi, I1, I64, 1, ALL),
        (Extui, I1, I64, 1, 1),
        (Extsi, I1, I64, 0, 0),
        (Trunci, I8, I1, 17, 1),
        (Extsi, I8, I16, 255, 65535),
        (Extui, I8, I16, 255, 255),
        (Extsi, I8, I16, 127, 127),
        (Extsi, I8, I32, 255, 4294967295),
        (Extui, I8, I32, 255, 255),
        (Extsi, I8, I32, 127, 127),
        (Extsi, I8, I64, 255, ALL),
        (Extui, I8, I64, 255, 255),
        (Extsi, I8, I64, 127, 127),
        (Trunci, I16, I1, 12817, 1),
        (Trunci, I16, I8, 12817, 17),
        (Extsi, I16, I32, 65535, 4294967295),
        (Extui, I16, I32, 65535, 65535),
        (Extsi, I16, I32, 32767, 32767),
        (Extsi, I16, I64, 65535, ALL),
        (Extui, I16, I64, 65535, 65535),
        (Extsi, I16, I64, 32767, 32767),
        (Trunci, I32, I1, 1985229329, 1),
        (Trunci, I32, I8, 1985229329, 17),
        (Trunci, I32, I16, 1985229329, 12817),
        (Extsi, I32, I64, 4294967295, ALL),
        (Extui, I32, I64, 4294967295, 4294967295),
        (Extsi, I32, I64, 2147483647, 2147483647),
        (Trunci, I64, I1, 18364758544493064721, 1),
        (Trunci, I64, I8, 18364758544493064721, 17),
        (Trunci, I64, I16, 18364758544493064721, 12817),
        (Trunci, I64, I32, 18364758544493064721, 1985229329),
    ]
}

/// At each kind, the neutral number of each width.
pub fn neutral_numbers() -> [(Kind, [u64; 5]); 7] {
    [
        (Kind::Sum, [0, 0, 0, 0, 0]),
        (Kind::Product, [1, 1, 1, 1, 1]),
        (Kind::Max, [1, 128, 32768, 2147483648, TOP]),
        (Kind::Min, [0, 127, 32767, 2147483647, TOP - 1]),
        (Kind::And, [1, 255, 65535, 4294967295, ALL]),
        (Kind::Or, [0, 0, 0, 0, 0]),
        (Kind::Xor, [0, 0, 0, 0, 0]),
    ]
}

/// At each predicate, the answers at `i8` for 1 and 255, 255 and 1, 128 and 127, and 5 and 5.
pub fn of_predicates() -> [(Predicate, [u64; 4]); 10] {
    [
        (Predicate::Eq, [0, 0, 0, 1]),
        (Predicate::Ne, [1, 1, 1, 0]),
        (Predicate::Slt, [0, 1, 1, 0]),
        (Predicate::Sle, [0, 1, 1, 1]),
        (Predicate::Sgt, [1, 0, 0, 0]),
        (Predicate::Sge, [1, 0, 0, 1]),
        (Predicate::Ult, [1, 0, 0, 0]),
        (Predicate::Ule, [1, 0, 0, 1]),
        (Predicate::Ugt, [0, 1, 1, 0]),
        (Predicate::Uge, [0, 1, 1, 1]),
    ]
}
