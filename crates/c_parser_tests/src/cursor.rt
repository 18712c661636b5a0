use c_cursor::Cursor;
use kv_base::{Bytes, NoMemory};
use std::alloc::Global;
use std::process::Abort;
use std::test::Fail;

const NAMES: u32 = 20_000;

fn declare(alloc: Global, cursor: &mut Cursor, name: &[u8], is_type: bool) -> Result<(), NoMemory> {
    cursor.declare(Bytes::from_slice(alloc, name)?, is_type)
}

#[test]
fn inner_names_hide_outer_ones(rt: HostRuntime) -> Result<(), Fail> {
    let mut cursor = Cursor::new(rt.alloc())?;
    declare(rt.alloc(), &mut cursor, b"T", true)?;
    cursor.enter()?;
    declare(rt.alloc(), &mut cursor, b"T", false)?;
    assert!(rt; !cursor.names_type(b"T"));
    let block = cursor.leave();
    assert!(rt; cursor.names_type(b"T"));
    cursor.enter_with(block)?;
    assert!(rt; !cursor.names_type(b"T"));
    assert!(rt; !cursor.names_type(b"U"));
    Ok(())
}

#[test]
fn a_cursor_ends_after_the_last_token(rt: HostRuntime) -> Result<(), Fail> {
    let mut cursor = Cursor::new(rt.alloc())?;
    assert!(rt; cursor.kind(&[]).is_none());
    assert!(rt; cursor.second(&[]).is_none());
    cursor.skip();
    assert_eq!(rt; cursor.at(), 1);
    Ok(())
}

/// Declares each name, those of even numbers as typedef names or those of odd ones.
fn declare_all(alloc: Global, cursor: &mut Cursor, even: bool) -> Result<(), NoMemory> {
    for number in 0..NAMES {
        declare(
            alloc,
            cursor,
            &number.to_be_bytes(),
            (number % 2 == 0) == even,
        )?;
    }
    Ok(())
}

fn assert_all(rt: &impl Abort, cursor: &Cursor, even: bool) {
    for number in 0..NAMES {
        assert_eq!(rt;
            cursor.names_type(&number.to_be_bytes()),
            (number % 2 == 0) == even
        );
    }
}

#[test]
fn many_names_are_hidden_and_seen_again(rt: HostRuntime) -> Result<(), Fail> {
    let mut cursor = Cursor::new(rt.alloc())?;
    declare_all(rt.alloc(), &mut cursor, true)?;
    cursor.enter()?;
    assert_all(&rt, &cursor, true);
    declare_all(rt.alloc(), &mut cursor, false)?;
    assert_all(&rt, &cursor, false);
    let block = cursor.leave();
    assert_all(&rt, &cursor, true);
    cursor.enter_with(block)?;
    assert_all(&rt, &cursor, false);
    assert!(rt; !cursor.names_type(&NAMES.to_be_bytes()));
    Ok(())
}
