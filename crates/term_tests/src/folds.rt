//! Folded terms.
ghost use Rattle.std.specs.Prelude.{◌≡◌, ◌<◌, length, IfOk, IsTrue};
ghost use Rattle.term_core.specs.Shape.{IsShape};
ghost use Rattle.term_core.specs.Term.{result_shape};
ghost use Rattle.term_core.specs.Table.{IsOperand};

use kv_base::NoMemory;
use kv_num::IntType;
use std::alloc::Global;
use std::test::Fail;
use term_core::{BinaryOp, Shape, Term, TermId, TermKind, Terms, UnaryOp};
use term_fold::{add_folded, fold};

/// Adds a constant of a type, wrapped.
fn constant(terms: &mut Terms, t: IntType, number: i128) -> Result<TermId, NoMemory>
    ensures { IfOk result (λ id. id.0 < length terms.new) }
{
    let number = kv_num::wrap(t, number);
    terms.add(Term {
        shape: Shape::of(t),
        kind: TermKind::Constant { number },
    })
}

/// Adds a variable of a type.
fn variable(terms: &mut Terms, t: IntType, number: u64) -> Result<TermId, NoMemory>
    ensures { IfOk result (λ id. id.0 < length terms.new) }
{
    terms.add(Term {
        shape: Shape::of(t),
        kind: TermKind::Variable { number },
    })
}

/// The shape of an operation's result.
fn result_of(op: BinaryOp, shape: Shape) -> Shape
    ensures { result ≡ result_shape op shape }
{
    match op {
        BinaryOp::Less | BinaryOp::Equal => Shape::TRUTH,
        _ => shape,
    }
}

/// The type of an operation's result.
fn type_of(op: BinaryOp, t: IntType) -> IntType {
    match op {
        BinaryOp::Less | BinaryOp::Equal => IntType::Bool,
        _ => t,
    }
}

/// The shape of a term of the table.
fn shape_of(terms: &Terms, id: TermId) -> Shape
    ensures { IsShape result }
{
    if id.0 >= terms.len() {
        return Shape::TRUTH;
    }
    terms.get(id).shape
}

/// Whether a term is in the table and has a shape.
fn has(terms: &Terms, id: TermId, shape: Shape) -> bool
    ensures { IsTrue result → IsOperand terms.now (length terms.now) shape id }
{
    if id.0 >= terms.len() {
        return false;
    }
    terms.get(id).shape == shape
}

/// Adds an operation on two terms of one shape, and else answers the first.
fn operation(
    terms: &mut Terms,
    op: BinaryOp,
    left: TermId,
    right: TermId,
) -> Result<TermId, NoMemory> {
    let shape = shape_of(terms, left);
    let left_has = has(terms, left, shape);
    let right_has = has(terms, right, shape);
    if left_has && right_has {
        return terms.add(Term {
            shape: result_of(op, shape),
            kind: TermKind::Binary { op, left, right },
        });
    }
    Ok(left)
}

#[test]
fn what_is_absorbed_vanishes(rt: HostRuntime) -> Result<(), Fail> {
    let mut terms = Terms::new(rt.alloc());
    let x = variable(&mut terms, IntType::Int, 0)?;
    let y = variable(&mut terms, IntType::Int, 1)?;
    let zero = constant(&mut terms, IntType::Int, 0)?;
    let product = operation(&mut terms, BinaryOp::Mul, x, zero)?;
    let sum = operation(&mut terms, BinaryOp::Add, product, y)?;
    assert!(rt; sum.0 < terms.len());
    assert_eq!(rt; fold(rt.alloc(), &mut terms, sum)?, y);
    Ok(())
}

#[test]
fn constants_are_computed(rt: HostRuntime) -> Result<(), Fail> {
    let mut terms = Terms::new(rt.alloc());
    let seven = constant(&mut terms, IntType::Int, 7)?;
    let two = constant(&mut terms, IntType::Int, 2)?;
    let three = constant(&mut terms, IntType::Int, 3)?;
    let quotient = operation(&mut terms, BinaryOp::Div, seven, two)?;
    assert!(rt; quotient.0 < terms.len());
    assert_eq!(rt; fold(rt.alloc(), &mut terms, quotient)?, three);
    Ok(())
}

/// An operand or a result in the table of rules.
#[derive(Clone, Copy)]
enum Part {
    /// A variable.
    Any,
    Number(i128),
}

/// Adds an operand.
fn add_part(terms: &mut Terms, t: IntType, part: Part) -> Result<TermId, NoMemory>
    ensures { IfOk result (λ id. id.0 < length terms.new) }
{
    match part {
        Part::Any => variable(terms, t, 0),
        Part::Number(number) => constant(terms, t, number),
    }
}

/// Whether an operation on two parts folds to the third.
fn folds_to(
    alloc: Global,
    t: IntType,
    rule: (BinaryOp, Part, Part, Part),
) -> Result<bool, NoMemory> {
    let (op, left, right, expected) = rule;
    let mut terms = Terms::new(alloc);
    let left = add_part(&mut terms, t, left)?;
    let right = add_part(&mut terms, t, right)?;
    let id = operation(&mut terms, op, left, right)?;
    if id.0 >= terms.len() {
        return Ok(false);
    }
    let folded = fold(alloc, &mut terms, id)?;
    Ok(folded == add_part(&mut terms, type_of(op, t), expected)?)
}

const ANY: Part = Part::Any;

const ZERO: Part = Part::Number(0);

const ONE: Part = Part::Number(1);

const ONES: Part = Part::Number(-1);

const RULES: [(BinaryOp, Part, Part, Part); 34] = [
    (BinaryOp::Add, ANY, ZERO, ANY),
    (BinaryOp::Add, ZERO, ANY, ANY),
    (BinaryOp::Sub, ANY, ZERO, ANY),
    (BinaryOp::Sub, ANY, ANY, ZERO),
    (BinaryOp::Mul, ANY, ONE, ANY),
    (BinaryOp::Mul, ONE, ANY, ANY),
    (BinaryOp::Mul, ANY, ZERO, ZERO),
    (BinaryOp::Mul, ZERO, ANY, ZERO),
    (BinaryOp::Div, ANY, ONE, ANY),
    (BinaryOp::Div, ZERO, ANY, ZERO),
    (BinaryOp::Rem, ANY, ONE, ZERO),
    (BinaryOp::Rem, ZERO, ANY, ZERO),
    (BinaryOp::ShiftLeft, ANY, ZERO, ANY),
    (BinaryOp::ShiftLeft, ZERO, ANY, ZERO),
    (BinaryOp::ShiftRight, ANY, ZERO, ANY),
    (BinaryOp::ShiftRight, ZERO, ANY, ZERO),
    (BinaryOp::BitAnd, ANY, ANY, ANY),
    (BinaryOp::BitAnd, ANY, ZERO, ZERO),
    (BinaryOp::BitAnd, ZERO, ANY, ZERO),
    (BinaryOp::BitAnd, ANY, ONES, ANY),
    (BinaryOp::BitAnd, ONES, ANY, ANY),
    (BinaryOp::BitOr, ANY, ANY, ANY),
    (BinaryOp::BitOr, ANY, ZERO, ANY),
    (BinaryOp::BitOr, ZERO, ANY, ANY),
    (BinaryOp::BitOr, ANY, ONES, ONES),
    (BinaryOp::BitOr, ONES, ANY, ONES),
    (BinaryOp::BitXor, ANY, ANY, ZERO),
    (BinaryOp::BitXor, ANY, ZERO, ANY),
    (BinaryOp::BitXor, ZERO, ANY, ANY),
    (BinaryOp::Less, ANY, ANY, ZERO),
    (BinaryOp::Equal, ANY, ANY, ONE),
    (BinaryOp::Add, ONES, ONE, ZERO),
    (BinaryOp::Sub, ZERO, ONE, ONES),
    (BinaryOp::Mul, ONES, ONES, ONE),
];

const TYPES: [IntType; 8] = [
    IntType::SChar,
    IntType::UChar,
    IntType::Short,
    IntType::UShort,
    IntType::Int,
    IntType::UInt,
    IntType::LongLong,
    IntType::ULongLong,
];

#[test]
fn each_rule_is_used_for_each_type(rt: HostRuntime) -> Result<(), Fail> {
    for t in TYPES {
        for rule in RULES {
            assert!(rt; folds_to(rt.alloc(), t, rule)?);
        }
    }
    Ok(())
}

/// The next number of a fixed sequence (xorshift).
fn following(state: u64) -> u64 {
    let state = state ^ state.wrapping_mul(1 << 13);
    let state = state ^ (state >> 7);
    state ^ state.wrapping_mul(1 << 17)
}

/// Adds a conversion to a type.
fn conversion(terms: &mut Terms, t: IntType, of: TermId) -> Result<TermId, NoMemory> {
    if of.0 >= terms.len() {
        return Ok(of);
    }
    terms.add(Term {
        shape: Shape::of(t),
        kind: TermKind::Convert { of },
    })
}

/// Adds an operation on one term.
fn turned(terms: &mut Terms, op: UnaryOp, of: TermId) -> Result<TermId, NoMemory> {
    let shape = shape_of(terms, of);
    if has(terms, of, shape) {
        return terms.add(Term {
            shape,
            kind: TermKind::Unary { op, of },
        });
    }
    Ok(of)
}

/// Adds a test of whether a result fits.
fn fitting(
    terms: &mut Terms,
    op: BinaryOp,
    left: TermId,
    right: TermId,
) -> Result<TermId, NoMemory> {
    let shape = shape_of(terms, left);
    let left_has = has(terms, left, shape);
    let right_has = has(terms, right, shape);
    if left_has && right_has {
        return terms.add(Term {
            shape: Shape::TRUTH,
            kind: TermKind::Fits { op, left, right },
        });
    }
    Ok(left)
}

/// Adds a choice between two terms of one shape.
fn choice(terms: &mut Terms, test: TermId, yes: TermId, no: TermId) -> Result<TermId, NoMemory> {
    let shape = shape_of(terms, yes);
    let test_has = has(terms, test, Shape::TRUTH);
    let yes_has = has(terms, yes, shape);
    let no_has = has(terms, no, shape);
    if test_has && yes_has && no_has {
        return terms.add(Term {
            shape,
            kind: TermKind::Select { test, yes, no },
        });
    }
    Ok(yes)
}

const OPERATIONS: [BinaryOp; 12] = [
    BinaryOp::Add,
    BinaryOp::Sub,
    BinaryOp::Mul,
    BinaryOp::Div,
    BinaryOp::Rem,
    BinaryOp::ShiftLeft,
    BinaryOp::ShiftRight,
    BinaryOp::BitAnd,
    BinaryOp::BitOr,
    BinaryOp::BitXor,
    BinaryOp::Less,
    BinaryOp::Equal,
];

/// Adds a term by the bits of a random number, with a shape for the operands where two are needed.
fn random_term(terms: &mut Terms, bits: u64) -> Result<TermId, NoMemory> {
    let t = TYPES[(bits >> 8) as usize % 8];
    let count = terms.len();
    if count == 0 {
        return constant(terms, t, 0);
    }
    let left = conversion(terms, t, TermId((bits >> 16) % count))?;
    let right = conversion(terms, t, TermId((bits >> 32) % count))?;
    let op = OPERATIONS[(bits >> 48) as usize % 12];
    match bits % 8 {
        0 => constant(terms, t, (bits >> 61) as i128 - 2),
        1 => variable(terms, t, (bits >> 61) % 4),
        2 => turned(terms, UnaryOp::Negate, left),
        3 => turned(terms, UnaryOp::BitNot, left),
        4 => fitting(terms, op, left, right),
        5 => {
            let test = operation(terms, BinaryOp::Less, left, right)?;
            choice(terms, test, right, left)
        }
        _ => operation(terms, op, left, right),
    }
}

/// The number of a shape that equals another modulo 2 to the width.
fn wrapped(shape: Shape, exact: i128) -> i128 {
    if shape.width == 0 || shape.width > 64 {
        return exact;
    }
    kv_num::wrap_at(shape.width, shape.signed, exact)
}

/// The value of a term that has one.
fn at(values: &[i128], id: TermId) -> i128 {
    values.get(id.0 as usize).copied().unwrap_or(0)
}

/// The exact result of an operation where the machine holds it, and else its low 128 bits.
fn result(shape: Shape, op: BinaryOp, a: i128, b: i128) -> i128 {
    match op {
        BinaryOp::Add => a.wrapping_add(b),
        BinaryOp::Sub => a.wrapping_sub(b),
        BinaryOp::Mul => a.wrapping_mul(b),
        BinaryOp::Div => a.checked_div(b).unwrap_or(0),
        BinaryOp::Rem => a.checked_rem(b).unwrap_or(0),
        BinaryOp::ShiftLeft => match shift_distance(shape, b) {
            Some(distance) => a.wrapping_shl(distance),
            None => 0,
        },
        BinaryOp::ShiftRight => match shift_distance(shape, b) {
            Some(distance) => a.wrapping_shr(distance),
            None => 0,
        },
        BinaryOp::BitAnd => a & b,
        BinaryOp::BitOr => a | b,
        BinaryOp::BitXor => a ^ b,
        BinaryOp::Less => (a < b) as i128,
        BinaryOp::Equal => (a == b) as i128,
    }
}

/// A distance, read without a sign, if it is below the width.
fn shift_distance(shape: Shape, b: i128) -> Option<u32> {
    if 0 <= b && b < shape.width as i128 {
        Some(b as u32)
    } else {
        None
    }
}

/// Whether the exact result of an operation is as wrapped.
fn is_fitting(shape: Shape, op: BinaryOp, a: i128, b: i128) -> bool {
    match op {
        BinaryOp::Add | BinaryOp::Sub => {
            let exact = result(shape, op, a, b);
            wrapped(shape, exact) == exact
        }
        BinaryOp::Mul => match a.checked_mul(b) {
            Some(exact) => wrapped(shape, exact) == exact,
            None => false,
        },
        BinaryOp::Div | BinaryOp::Rem => {
            let exact = result(shape, BinaryOp::Div, a, b);
            wrapped(shape, exact) == exact
        }
        BinaryOp::ShiftLeft => {
            let exact = result(shape, op, a, b);
            0 <= a && wrapped(shape, exact) == exact
        }
        _ => true,
    }
}

/// The value of a term by the values of earlier ones.
fn value(terms: &Terms, values: &[i128], seed: u64, term: Term) -> i128 {
    let exact = match term.kind {
        TermKind::Constant { number } => number,
        TermKind::Variable { number } => following(seed ^ number) as i128,
        TermKind::Unary { op, of } => match op {
            UnaryOp::Negate => 0i128.wrapping_sub(at(values, of)),
            UnaryOp::BitNot => !at(values, of),
        },
        TermKind::Binary { op, left, right } => {
            result(
                shape_of(terms, left),
                op,
                at(values, left),
                at(values, right),
            )
        }
        TermKind::Fits { op, left, right } => {
            is_fitting(
                shape_of(terms, left),
                op,
                at(values, left),
                at(values, right),
            ) as i128
        }
        TermKind::Select { test, yes, no } => {
            if at(values, test) == 0 {
                at(values, no)
            } else {
                at(values, yes)
            }
        }
        TermKind::Convert { of } => at(values, of),
    };
    wrapped(term.shape, exact)
}

/// The values of all terms where the seed gives those of the variables.
fn evaluated(alloc: Global, terms: &Terms, seed: u64) -> Result<Vec<i128>, NoMemory> {
    let mut values: Vec<i128> = Vec::new(alloc);
    for number in 0..terms.len() {
        let term = terms.get(TermId(number));
        let next = value(terms, values.as_slice(), seed, term);
        values.push(next)?;
    }
    Ok(values)
}

#[test]
fn random_terms_keep_their_values(rt: HostRuntime) -> Result<(), Fail> {
    let mut terms = Terms::new(rt.alloc());
    let mut pairs: Vec<(TermId, TermId)> = Vec::new(rt.alloc());
    let mut state = 0x9e37_79b9_7f4a_7c15;
    for _step in 0..1000 {
        state = following(state);
        let id = random_term(&mut terms, state)?;
        assert!(rt; id.0 < terms.len());
        let folded = fold(rt.alloc(), &mut terms, id)?;
        pairs.push((id, folded))?;
    }
    for seed in 1..=10 {
        let values = evaluated(rt.alloc(), &terms, seed)?;
        for (id, folded) in pairs.as_slice() {
            assert_eq!(rt; at(values.as_slice(), *id), at(values.as_slice(), *folded));
        }
    }
    Ok(())
}

/// The least and the greatest number of a type, and numbers near 0.
fn ends(t: IntType) -> [i128; 5] {
    let least = if kv_num::is_signed(t) {
        kv_num::wrap(t, 1i128.wrapping_shl(kv_num::width(t).saturating_sub(1)))
    } else {
        0
    };
    let greatest = kv_num::wrap(t, least.wrapping_sub(1));
    [least, greatest, 0, 1, kv_num::wrap(t, -1)]
}

/// Whether C defines an operation where this is the second operand.
fn is_defined(shape: Shape, op: BinaryOp, b: i128) -> bool {
    match op {
        BinaryOp::Div | BinaryOp::Rem => b != 0,
        BinaryOp::ShiftLeft | BinaryOp::ShiftRight => shift_distance(shape, b).is_some(),
        _ => true,
    }
}

/// Whether an operation on two constants folds to its result, and the test whether that fits to a truth.
fn is_computed(
    alloc: Global,
    t: IntType,
    op: BinaryOp,
    a: i128,
    b: i128,
) -> Result<bool, NoMemory> {
    let mut terms = Terms::new(alloc);
    let shape = Shape::of(t);
    let left = constant(&mut terms, t, a)?;
    let right = constant(&mut terms, t, b)?;
    let sum = operation(&mut terms, op, left, right)?;
    let fits = fitting(&mut terms, op, left, right)?;
    if sum.0 >= terms.len() || fits.0 >= terms.len() {
        return Ok(false);
    }
    let folded = fold(alloc, &mut terms, sum)?;
    let expected = constant(&mut terms, type_of(op, t), result(shape, op, a, b))?;
    let is_same = folded == expected;
    if fits.0 >= terms.len() {
        return Ok(false);
    }
    let folded = fold(alloc, &mut terms, fits)?;
    let truth = is_fitting(shape, op, a, b) as i128;
    let expected = constant(&mut terms, IntType::Bool, truth)?;
    Ok(is_same && folded == expected)
}

/// Whether an operation is computed at the ends of a type's range.
fn is_computed_at_ends(alloc: Global, t: IntType, op: BinaryOp) -> Result<bool, NoMemory> {
    for a in ends(t) {
        for b in ends(t) {
            if is_defined(Shape::of(t), op, b) && !is_computed(alloc, t, op, a, b)? {
                return Ok(false);
            }
        }
    }
    Ok(true)
}

#[test]
fn operations_are_computed_at_the_ends(rt: HostRuntime) -> Result<(), Fail> {
    for t in TYPES {
        for op in OPERATIONS {
            assert!(rt; is_computed_at_ends(rt.alloc(), t, op)?);
        }
    }
    Ok(())
}

/// Adds a constant of a shape, wrapped.
fn shaped(terms: &mut Terms, shape: Shape, number: i128) -> Result<TermId, NoMemory>
    requires { IsShape shape }
    ensures { IfOk result (λ id. id.0 < length terms.new) }
{
    let number = kv_num::wrap_at(shape.width, shape.signed, number);
    terms.add(Term {
        shape,
        kind: TermKind::Constant { number },
    })
}

/// Adds an operation on one folded term, folded.
fn turned_folded(terms: &mut Terms, op: UnaryOp, of: TermId) -> Result<TermId, NoMemory> {
    let shape = shape_of(terms, of);
    if has(terms, of, shape) {
        return add_folded(
            terms,
            Term {
                shape,
                kind: TermKind::Unary { op, of },
            },
        );
    }
    Ok(of)
}

#[test]
fn constants_of_any_width_are_computed(rt: HostRuntime) -> Result<(), Fail> {
    let mut terms = Terms::new(rt.alloc());
    let three_bits = Shape {
        width: 3,
        signed: false,
    };
    let five = shaped(&mut terms, three_bits, 5)?;
    let two = shaped(&mut terms, three_bits, 2)?;
    let sum = operation(&mut terms, BinaryOp::Add, five, five)?;
    assert!(rt; sum.0 < terms.len());
    assert_eq!(rt; fold(rt.alloc(), &mut terms, sum)?, two);
    let twelve_bits = Shape {
        width: 12,
        signed: true,
    };
    let least = shaped(&mut terms, twelve_bits, -2_048)?;
    let greatest = shaped(&mut terms, twelve_bits, 2_047)?;
    assert_eq!(rt; turned_folded(&mut terms, UnaryOp::Negate, least)?, least);
    assert_eq!(rt;
        turned_folded(&mut terms, UnaryOp::BitNot, least)?,
        greatest
    );
    Ok(())
}

#[test]
fn shared_terms_are_folded_once(rt: HostRuntime) -> Result<(), Fail> {
    let mut terms = Terms::new(rt.alloc());
    let zero = constant(&mut terms, IntType::Int, 0)?;
    let mut sum = variable(&mut terms, IntType::Int, 0)?;
    for _level in 0..1_000 {
        let doubled = operation(&mut terms, BinaryOp::Add, sum, sum)?;
        sum = doubled;
    }
    let last = operation(&mut terms, BinaryOp::Add, sum, zero)?;
    assert!(rt; last.0 < terms.len());
    assert_eq!(rt; fold(rt.alloc(), &mut terms, last)?, sum);
    Ok(())
}

#[test]
fn many_other_terms_cost_nothing(rt: HostRuntime) -> Result<(), Fail> {
    let mut terms = Terms::new(rt.alloc());
    let zero = constant(&mut terms, IntType::Int, 0)?;
    for number in 0..100_000u64 {
        let x = variable(&mut terms, IntType::Int, number)?;
        let sum = operation(&mut terms, BinaryOp::Add, zero, x)?;
        assert!(rt; sum.0 < terms.len());
        assert_eq!(rt; fold(rt.alloc(), &mut terms, sum)?, x);
    }
    Ok(())
}
