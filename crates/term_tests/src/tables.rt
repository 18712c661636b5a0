//! Tables of terms.
use kv_num::IntType;
use std::test::Fail;
use term_core::{BinaryOp, Shape, Term, TermId, TermKind, Terms};

#[test]
fn equal_terms_share_one_number(rt: HostRuntime) -> Result<(), Fail> {
    let mut terms = Terms::new(rt.alloc());
    let shape = Shape::of(IntType::Int);
    let one = Term {
        shape,
        kind: TermKind::Constant { number: 1 },
    };
    let input = Term {
        shape,
        kind: TermKind::Variable { number: 0 },
    };
    let first = terms.add(one)?;
    let second = terms.add(input)?;
    assert_eq!(rt; first, TermId(0));
    assert_eq!(rt; second, TermId(1));
    assert_eq!(rt; terms.add(one)?, first);
    assert_eq!(rt; terms.get(second), input);
    assert_eq!(rt; terms.len(), 2);
    Ok(())
}

#[test]
fn operands_are_earlier_terms(rt: HostRuntime) -> Result<(), Fail> {
    let mut terms = Terms::new(rt.alloc());
    let shape = Shape::of(IntType::UChar);
    let input = terms.add(Term {
        shape,
        kind: TermKind::Variable { number: 7 },
    })?;
    let kind = TermKind::Binary {
        op: BinaryOp::Add,
        left: input,
        right: input,
    };
    let sum = terms.add(Term { shape, kind })?;
    assert_eq!(rt; terms.get(sum), Term { shape, kind });
    Ok(())
}
