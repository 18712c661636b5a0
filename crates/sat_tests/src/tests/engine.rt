use sat_engine::{Look, Reason, Seen, Store, Stored, Trail, Watches, look_at};
use std::process::Abort;
use std::test::Fail;

#[test]
fn clauses_are_kept(rt: HostRuntime) -> Result<(), Fail> {
    let mut store = Store::new(rt.alloc());
    store.push(&[0, 3])?;
    store.push(&[5])?;
    assert!(rt; store.len() == 2);
    assert!(rt; store.get(0) == [0u32, 3].as_slice());
    assert!(rt; matches!(store.at(store.place_of(1)), Some(Stored { number: 1, .. })));
    assert!(rt; store.at(1).is_none() && store.at(100).is_none());
    Ok(())
}

#[test]
fn a_literal_is_set_and_unset(rt: HostRuntime) -> Result<(), Fail> {
    let mut trail = Trail::new(rt.alloc());
    trail.widen()?;
    assert!(rt; trail.truth.len() == 2);
    assert!(rt; !trail.truth[0] && !trail.truth[1]);
    trail.push(1, Reason::Assumed)?;
    assert!(rt; trail.truth.len() == 2 && trail.truth[1]);
    assert!(rt; matches!(look_at(&[0, 1], &[false, true], 1), Seen::Unit));
    trail.cut(0);
    assert!(rt; trail.steps.is_empty());
    Ok(())
}

#[test]
fn a_watch_has_another_literal(rt: HostRuntime) -> Result<(), Fail> {
    let alloc = rt.alloc();
    let mut store = Store::new(alloc);
    store.push(&[3, 1, 0])?;
    store.push(&[0, 3])?;
    let mut watches = Watches::new(alloc);
    watches.widen(alloc)?;
    watches.widen(alloc)?;
    watches.add(&store, 0, 0, 3)?;
    assert!(rt; watches.is_watched(0) && !watches.is_watched(1));
    assert!(rt; watches.literals_of(0) == [0u32, 3, 1].as_slice());
    for watch in watches.take(alloc, 3) {
        let look = watches.look(watch, 3, &[false, false, true, false])?;
        assert!(rt; matches!(look, Look::Moved { to: 1, other: 0 }));
    }
    let list = watches.take(alloc, 1);
    assert!(rt; list.len() == 1);
    watches.put_back(1, list);
    watches.forget(0);
    watches.add(&store, 1, 3, 0)?;
    assert!(rt; watches.take(alloc, 1).is_empty());
    assert!(rt; watches.literals_of(1) == [3u32, 0].as_slice());
    Ok(())
}
