//! Tables of gates.
use crate::{evaluated, word_in_lane};
use gate_core::{Gate, Gates};
use kv_base::Copied;
use std::test::Fail;
use word_gates::{constant, resize};

#[test]
fn equal_gates_are_shared(rt: HostRuntime) -> Result<(), Fail> {
    let mut gates = Gates::new(rt.alloc());
    assert!(rt; gates.is_empty());
    let a = gates.input()?;
    let b = gates.input()?;
    let both = gates.and(a, b)?;
    assert_eq!(rt; gates.and(b, a)?, both);
    let odd = gates.xor(a, b.complement())?;
    assert_eq!(rt; gates.xor(b, a)?, odd.complement());
    assert_eq!(rt; gates.len(), 4);
    assert_eq!(rt; gates.gate(0), Gate::Input(0));
    let never = gates.constant(false)?;
    assert_eq!(rt; gates.and(a, never)?, never);
    assert_eq!(rt; gates.and(a, a.complement())?, never);
    assert_eq!(rt; gates.xor(never, b)?, b);
    assert_eq!(rt; gates.xor(b, b.complement())?, never.complement());
    assert_eq!(rt; gates.len(), 5);
    Ok(())
}

#[test]
fn copies_and_inputs(rt: HostRuntime) -> Result<(), Fail> {
    let alloc = rt.alloc();
    let mut gates = Gates::new(alloc);
    let a = gates.input()?;
    let _never = gates.constant(false)?;
    let b = gates.input()?;
    let _both = gates.and(a, b)?;
    let copied = gates.copy(alloc)?;
    assert_eq!(rt; gates.len(), 4);
    assert_eq!(rt; copied.len(), 4);
    assert_eq!(rt; copied.gate(3), gates.gate(3));
    assert_eq!(rt; gates.inputs(alloc)?.as_slice(), [0u64, 2].as_slice());
    Ok(())
}

#[test]
fn other_widths(rt: HostRuntime) -> Result<(), Fail> {
    let alloc = rt.alloc();
    let mut gates = Gates::new(alloc);
    let word = constant(alloc, &mut gates, -3, 8)?;
    let wide = resize(alloc, &mut gates, &word, true, 12)?;
    let plain = resize(alloc, &mut gates, &word, false, 12)?;
    let cut = resize(alloc, &mut gates, &word, true, 4)?;
    let truths = evaluated(alloc, &gates, &[])?;
    assert_eq!(rt; word_in_lane(&truths, word.as_slice(), 0), 0xfd);
    assert_eq!(rt; word_in_lane(&truths, wide.as_slice(), 0), 0xffd);
    assert_eq!(rt; word_in_lane(&truths, plain.as_slice(), 0), 0xfd);
    assert_eq!(rt; word_in_lane(&truths, cut.as_slice(), 0), 0xd);
    Ok(())
}
