//! Lists and stacks.
use kv_base::{Bytes, Copied, Sequence, Stack};
use std::test::Fail;

#[test]
fn lists_grow_and_shrink(rt: HostRuntime) -> Result<(), Fail> {
    let alloc = rt.alloc();
    let mut list: Bytes = Sequence::from_slice(alloc, b"ab")?;
    list.push(b'c')?;
    list.extend_from_slice(b"de")?;
    list.append(Sequence::from_vec(b"f".to_vec(alloc)?))?;
    assert_eq!(rt; list.len(), 6);
    list.set(0, b'x');
    assert_eq!(rt; list.get(0), Some(&b'x'));
    assert_eq!(rt; list.get(6), None);
    assert_eq!(rt; list.pop(), Some(b'f'));
    list.truncate(3);
    assert_eq!(rt; list.copy(alloc)?.as_slice(), b"xbc".as_slice());
    assert!(rt; !list.is_empty());
    assert_eq!(rt; list.into_vec().len(), 3);
    assert!(rt; Bytes::new(alloc).is_empty());
    Ok(())
}

#[test]
fn stacks_give_the_last_item_first(rt: HostRuntime) -> Result<(), Fail> {
    let mut stack = Stack::new(rt.alloc());
    assert!(rt; stack.is_empty());
    stack.push(1u8)?;
    stack.push(2)?;
    assert_eq!(rt; stack.len(), 2);
    assert_eq!(rt; stack.top(), Some(&2));
    assert_eq!(rt; stack.as_slice(), [1u8, 2].as_slice());
    assert_eq!(rt; stack.pop(), Some(2));
    assert_eq!(rt; stack.into_vec().as_slice(), [1u8].as_slice());
    Ok(())
}

#[test]
fn equal_lists_are_equal(rt: HostRuntime) -> Result<(), Fail> {
    let alloc = rt.alloc();
    let one: Bytes = Sequence::from_slice(alloc, b"ab")?;
    let mut lists: Sequence<Bytes> = Sequence::new(alloc);
    lists.push(one.copy(alloc)?)?;
    assert!(rt; lists == lists.copy(alloc)?);
    lists.push(Sequence::from_slice(alloc, b"ac")?)?;
    assert!(rt; lists.get(0) == Some(&one));
    assert!(rt; lists.get(1) != Some(&one));
    Ok(())
}
