//! The words of a table's terms: a table with every kind of term over two words of inputs.
ghost use Rattle.std.specs.Prelude.{◌≡◌, ◌<◌, ◌∷◌, [], length, IfOk, IsTrue};
ghost use Rattle.gate_core.specs.Table.{Grows};
ghost use Rattle.word_gates.specs.Words.{IsWordOf};
ghost use Rattle.term_core.specs.declared.term.TermKind.TheVariants.{Binary, Fits, Select};
ghost use Rattle.term_core.specs.Shape.{IsShape, one_bit};
ghost use Rattle.term_core.specs.Term.{result_shape, OperandsFit};
ghost use Rattle.term_core.specs.Table.{IsOperand, IsKindAt, IsTermAt};
ghost use Rattle.term_words.specs.Words.{AreWordsOf};

use crate::circuit::operands;
use crate::{evaluated, inputs, word_in_lane};
use gate_core::Gates;
use kv_base::{NoMemory, Sequence};
use sat_clause::Lit;
use std::alloc::Global;
use std::process::Abort;
use std::test::Fail;
use term_core::{BinaryOp, Shape, Term, TermId, TermKind, Terms, UnaryOp};
use term_words::{Words, words};

const NIBBLE: Shape = Shape {
    width: 4,
    signed: true,
};

const SIX: Shape = Shape {
    width: 6,
    signed: true,
};

const SIX_BITS: Shape = Shape {
    width: 6,
    signed: false,
};

const PAIR: Shape = Shape {
    width: 2,
    signed: true,
};

const PAIR_BITS: Shape = Shape {
    width: 2,
    signed: false,
};

/// The first variable and the second.
const X: TermId = TermId(0);

const Y: TermId = TermId(1);

/// The term of X being less than Y.
const LESS: TermId = TermId(12);

/// The two words in each pattern: with a sign 5 and -3, -8 and -1, -7 and 2, 3 and 0, -2 and -2.
const PATTERNS: [(u128, u128); 5] = [(5, 13), (8, 15), (9, 2), (3, 0), (14, 14)];

/// A term, and its values in the patterns.
#[derive(Clone, Copy, Debug, Drop)]
struct Row {
    term: Term,
    values: [i128; 5],
}

const BINARY: [(BinaryOp, [i128; 5]); 12] = [
    (BinaryOp::Add, [2, 7, -5, 3, -4]),
    (BinaryOp::Sub, [-8, -7, 7, 3, 0]),
    (BinaryOp::Mul, [1, -8, 2, 0, 4]),
    (BinaryOp::Div, [-1, -8, -3, 0, 1]),
    (BinaryOp::Rem, [2, 0, -1, 0, 0]),
    (BinaryOp::ShiftLeft, [0, 0, 4, 3, 0]),
    (BinaryOp::ShiftRight, [0, 0, -2, 3, 0]),
    (BinaryOp::BitAnd, [5, -8, 0, 0, -2]),
    (BinaryOp::BitOr, [-3, -1, -5, 3, -2]),
    (BinaryOp::BitXor, [-8, 7, -5, 3, 0]),
    (BinaryOp::Less, [0, 1, 1, 0, 0]),
    (BinaryOp::Equal, [0, 0, 0, 0, 1]),
];

const FITTING: [(BinaryOp, [i128; 5]); 7] = [
    (BinaryOp::Add, [1, 0, 1, 1, 1]),
    (BinaryOp::Sub, [0, 1, 0, 1, 1]),
    (BinaryOp::Mul, [0, 0, 0, 1, 1]),
    (BinaryOp::Div, [1, 0, 1, 1, 1]),
    (BinaryOp::ShiftLeft, [1, 0, 0, 1, 0]),
    (BinaryOp::ShiftRight, [1, 1, 1, 1, 1]),
    (BinaryOp::Rem, [1, 0, 1, 1, 1]),
];

const OTHERS: [(Shape, TermKind, [i128; 5]); 10] = [
    (
        NIBBLE,
        TermKind::Constant { number: -3 },
        [-3, -3, -3, -3, -3],
    ),
    (
        NIBBLE,
        TermKind::Unary {
            op: UnaryOp::Negate,
            of: X,
        },
        [-5, -8, 7, -3, 2],
    ),
    (
        NIBBLE,
        TermKind::Unary {
            op: UnaryOp::BitNot,
            of: X,
        },
        [-6, 7, 6, -4, 1],
    ),
    (
        NIBBLE,
        TermKind::Select {
            test: LESS,
            yes: X,
            no: Y,
        },
        [-3, -8, -7, 0, -2],
    ),
    (SIX_BITS, TermKind::Convert { of: X }, [5, 56, 57, 3, 62]),
    (PAIR, TermKind::Convert { of: X }, [1, 0, 1, -1, -2]),
    (SIX, TermKind::Convert { of: X }, [5, -8, -7, 3, -2]),
    (SIX, TermKind::Variable { number: 0 }, [5, 8, 9, 3, 14]),
    (PAIR_BITS, TermKind::Variable { number: 0 }, [1, 0, 1, 3, 2]),
    (NIBBLE, TermKind::Variable { number: 2 }, [0, 0, 0, 0, 0]),
];

/// The shape of an operation's result on the variables.
fn result_of(op: BinaryOp, shape: Shape) -> Shape
    ensures { result ≡ result_shape op shape }
{
    match op {
        BinaryOp::Less | BinaryOp::Equal => Shape::TRUTH,
        _ => shape,
    }
}

fn row_of(shape: Shape, kind: TermKind, values: [i128; 5]) -> Row {
    Row {
        term: Term { shape, kind },
        values,
    }
}

/// The variables, and the operations on them.
fn operations(alloc: Global) -> Result<Vec<Row>, NoMemory> {
    let mut rows = Vec::new(alloc);
    rows.push(row_of(NIBBLE, TermKind::Variable { number: 0 }, [5, -8, -7, 3, -2]))?;
    rows.push(row_of(NIBBLE, TermKind::Variable { number: 1 }, [-3, -1, 2, 0, -2]))?;
    for (op, values) in BINARY {
        let kind = TermKind::Binary {
            op,
            left: X,
            right: Y,
        };
        rows.push(row_of(result_of(op, NIBBLE), kind, values))?;
    }
    Ok(rows)
}

/// Terms of the other kinds.
fn others(alloc: Global) -> Result<Vec<Row>, NoMemory> {
    let mut rows = Vec::new(alloc);
    for (shape, kind, values) in OTHERS {
        rows.push(row_of(shape, kind, values))?;
    }
    Ok(rows)
}

/// Tests of results fitting.
fn tests_of_fitting(alloc: Global) -> Result<Vec<Row>, NoMemory> {
    let mut rows = Vec::new(alloc);
    for (op, values) in FITTING {
        let kind = TermKind::Fits {
            op,
            left: X,
            right: Y,
        };
        rows.push(row_of(Shape::TRUTH, kind, values))?;
    }
    Ok(rows)
}

/// Whether a term is in the table and has a shape.
fn has(terms: &Terms, id: TermId, shape: Shape) -> bool
    ensures { IsTrue result → IsOperand terms.now (length terms.now) shape id }
{
    if id.0 >= terms.len() {
        return false;
    }
    terms.get(id).shape == shape
}

/// Whether an operation may have operands of two shapes.
fn operands_fit(op: BinaryOp, s: Shape, r: Shape) -> bool
    ensures { IsTrue result → OperandsFit op s r }
{
    match op {
        BinaryOp::ShiftLeft | BinaryOp::ShiftRight => true,
        _ => r == s,
    }
}

/// Whether an operation on two terms of the table can have a shape.
fn can_add_binary(terms: &Terms, shape: Shape, op: BinaryOp, left: TermId, right: TermId) -> bool
    ensures { IsTrue result → IsKindAt terms.now (length terms.now) shape (Binary op left right) }
{
    if left.0 >= terms.len() || right.0 >= terms.len() {
        return false;
    }
    let s = terms.get(left).shape;
    let r = terms.get(right).shape;
    if !operands_fit(op, s, r) {
        return false;
    }
    shape == result_of(op, s)
}

/// Whether a test of such an operation's result fitting can.
fn can_add_fits(terms: &Terms, shape: Shape, op: BinaryOp, left: TermId, right: TermId) -> bool
    ensures { IsTrue result → IsKindAt terms.now (length terms.now) shape (Fits op left right) }
{
    if left.0 >= terms.len() || right.0 >= terms.len() {
        return false;
    }
    let s = terms.get(left).shape;
    let r = terms.get(right).shape;
    if !operands_fit(op, s, r) {
        return false;
    }
    shape == Shape::TRUTH
}

/// Whether a choice of two terms of the table can.
fn can_add_choice(terms: &Terms, shape: Shape, test: TermId, yes: TermId, other: TermId) -> bool
    ensures { IsTrue result → IsKindAt terms.now (length terms.now) shape (Select test yes other) }
{
    if !has(terms, test, Shape::TRUTH) {
        return false;
    }
    if !has(terms, yes, shape) {
        return false;
    }
    has(terms, other, shape)
}

/// Whether a term can be the table's next one.
fn can_add(terms: &Terms, term: Term) -> bool
    ensures { IsTrue result → IsTermAt terms.now (length terms.now) term }
{
    let shape = term.shape;
    if shape.width < 1 || shape.width > 64 {
        return false;
    }
    match term.kind {
        TermKind::Constant { number } => kv_num::fits_at(shape.width, shape.signed, number),
        TermKind::Variable { .. } => true,
        TermKind::Unary { of, .. } => has(terms, of, shape),
        TermKind::Binary { op, left, right } => can_add_binary(terms, shape, op, left, right),
        TermKind::Fits { op, left, right } => can_add_fits(terms, shape, op, left, right),
        TermKind::Select { test, yes, no } => can_add_choice(terms, shape, test, yes, no),
        TermKind::Convert { of } => of.0 < terms.len(),
    }
}

/// Adds the rows' terms, the first of which is number `first` of the table.
fn add_rows(rt: &impl Abort, terms: &mut Terms, rows: &[Row]) -> Result<(), NoMemory> {
    let first = terms.len();
    for (at, row) in rows.iter().enumerate() {
        assert!(rt; can_add(terms, row.term), "{row:?}");
        let id = terms.add(row.term)?;
        assert_eq!(rt; id.0, first.wrapping_add(at as u64), "{row:?}");
    }
    Ok(())
}

/// The words of two variables of 4 bits.
fn variables(alloc: Global, gates: &mut Gates) -> Result<Words, NoMemory>
    ensures { IfOk result (AreWordsOf gates.new) }
{
    let pair = operands(alloc, gates, 4, 4)?;
    let mut variables = Sequence::new(alloc);
    variables.push(pair.a)?;
    variables.push(pair.b)?;
    Ok(variables)
}

/// Compares a word's bits with a row's values, in each pattern.
fn row_agrees(rt: &impl Abort, truths: &[u128], word: &[Lit], row: &Row) {
    let all = 1u128.wrapping_shl(row.term.shape.width).wrapping_sub(1);
    for (lane, value) in row.values.iter().enumerate() {
        let found = word_in_lane(truths, word, lane);
        assert_eq!(rt;
            found,
            value.cast_unsigned() & all,
            "{row:?} in pattern {lane}"
        );
    }
}

#[test]
fn words_have_the_terms_values(rt: HostRuntime) -> Result<(), Fail> {
    let alloc = rt.alloc();
    let mut rows = operations(alloc)?;
    rows.extend_from_slice(&tests_of_fitting(alloc)?)?;
    rows.extend_from_slice(&others(alloc)?)?;
    let mut terms = Terms::new(alloc);
    add_rows(&rt, &mut terms, &rows)?;
    let mut gates = Gates::new(alloc);
    let variables = variables(alloc, &mut gates)?;
    let made = words(alloc, &mut gates, &terms, &variables)?;
    assert_eq!(rt; made.len(), 31);
    let truths = evaluated(alloc, &gates, &inputs(alloc, &PATTERNS, 4, 4)?)?;
    for (word, row) in made.as_slice().iter().zip(rows.as_slice()) {
        row_agrees(&rt, &truths, word.as_slice(), row);
    }
    Ok(())
}
