use crate::{beside, keeping, pair, triple, with_first};
use sqlite_items::Items;
use std::test::Fail;

#[test]
fn boxes_hold_their_values(rt: HostRuntime) -> Result<(), Fail> {
    let (first, second) = pair(rt.alloc(), 1u8, 2u64)?;
    assert_eq!(rt; (*first.get(), *second.get()), (1u8, 2u64));
    let (first, second, third) = triple(rt.alloc(), 1u8, 2u64, 3u8)?;
    assert_eq!(rt; (*first.get(), *second.get()), (1u8, 2u64));
    assert_eq!(rt; third.into_inner(), 3u8);
    let (value, kept) = beside(rt.alloc(), 4u8, 5u64)?;
    assert_eq!(rt; (*value.get(), kept), (4u8, 5u64));
    Ok(())
}

#[test]
fn what_is_kept_comes_back_with_what_a_step_gives(rt: HostRuntime) -> Result<(), Fail> {
    let step: Result<u64, u8> = Ok(2);
    assert_eq!(rt; keeping(1u8, step), Ok((1u8, 2u64)));
    let step: Result<u64, u8> = Err(3);
    assert_eq!(rt; keeping(1u8, step), Err(3));
    Ok(())
}

#[test]
fn a_first_element_stands_before_the_others(rt: HostRuntime) -> Result<(), Fail> {
    let further = Items::from_slice(rt.alloc(), &[2u8, 3])?;
    let whole = with_first(rt.alloc(), 1u8, further)?;
    assert_eq!(rt; whole.as_slice(), [1u8, 2, 3].as_slice());
    Ok(())
}
