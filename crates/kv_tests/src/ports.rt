//! Files and sinks, in memory and of the system, and the open gate.
use kv_base::{NoMemory, Sequence};
use kv_port::{
    Call, Failing, Fault, Files, Gate, MemFiles, MemSink, NamedFile, NamedFiles, OpenGate, Sink,
    StdFiles, StdSink, Worker,
};
use std::alloc::Global;
use std::test::Fail;
use std::{env, fs, process};

// One file, a.c.
fn folder(alloc: Global, content: &[u8]) -> Result<NamedFiles, NoMemory> {
    let mut files = Sequence::new(alloc);
    let name = Sequence::from_slice(alloc, b"a.c")?;
    let content = Sequence::from_slice(alloc, content)?;
    files.push(NamedFile { name, content })?;
    Ok(files)
}

// A folder of one file, a.c, in which one call fails.
fn failing(alloc: Global, call: Call, number: u32) -> Result<MemFiles, NoMemory> {
    let mut failures = Sequence::new(alloc);
    failures.push(Failing { call, number })?;
    Ok(MemFiles::new(alloc, folder(alloc, b"int main")?, failures))
}

#[test]
fn opens(rt: HostRuntime) -> Result<(), Fail> {
    let mut files = failing(rt.alloc(), Call::Open, 3)?;
    for answer in [Ok(true), Ok(true), Err(Fault), Ok(true)] {
        assert_eq!(rt; files.open("a.c"), answer);
    }
    assert_eq!(rt; files.open("b.c"), Ok(false));
    Ok(())
}

#[test]
fn reads(rt: HostRuntime) -> Result<(), Fail> {
    let mut files = failing(rt.alloc(), Call::Read, 2)?;
    let mut buf = [0; 5];
    assert_eq!(rt; files.open("a.c"), Ok(true));
    assert_eq!(rt; files.read(&mut buf), Ok(5));
    assert_eq!(rt; files.read(&mut buf), Err(Fault));
    assert_eq!(rt; files.read(&mut buf), Ok(3));
    assert_eq!(rt; buf, *b"ain m");
    Ok(())
}

#[test]
fn creates(rt: HostRuntime) -> Result<(), Fail> {
    let mut files = failing(rt.alloc(), Call::Create, 2)?;
    for (name, answer) in [("b.c", Ok(())), ("a.c", Err(Fault)), ("a.c", Ok(()))] {
        assert_eq!(rt; files.create(name), answer);
    }
    assert_eq!(rt; files.content("a.c"), Some(b"".as_slice()));
    assert_eq!(rt; files.content("c.c"), None);
    Ok(())
}

#[test]
fn writes(rt: HostRuntime) -> Result<(), Fail> {
    let mut files = failing(rt.alloc(), Call::Write, 2)?;
    assert_eq!(rt; files.create("b.c"), Ok(()));
    assert_eq!(rt; files.write(b"ab"), Ok(2));
    assert_eq!(rt; files.write(b"cd"), Err(Fault));
    assert_eq!(rt; files.write(b"e"), Ok(1));
    assert_eq!(rt; files.content("b.c"), Some(b"abe".as_slice()));
    Ok(())
}

#[test]
fn reads_pieces(rt: HostRuntime) -> Result<(), Fail> {
    let alloc = rt.alloc();
    let mut files = MemFiles::in_pieces(alloc, folder(alloc, b"int")?, 2);
    let mut buf = [b' '; 4];
    assert_eq!(rt; files.open("a.c"), Ok(true));
    assert_eq!(rt; files.read(&mut buf), Ok(2));
    assert_eq!(rt; files.read(&mut buf), Ok(1));
    assert_eq!(rt; buf, *b"tn  ");
    assert_eq!(rt; files.read(&mut buf), Ok(0));
    Ok(())
}

#[test]
fn reads_without_end(rt: HostRuntime) {
    let mut files = MemFiles::endless(rt.alloc(), b';');
    let mut buf = [b' '; 4];
    assert_eq!(rt; files.open("a.c"), Ok(true));
    assert_eq!(rt; files.read(&mut buf), Ok(4));
    assert_eq!(rt; buf, *b";;;;");
}

#[test]
fn takes_bytes(rt: HostRuntime) -> Result<(), Fail> {
    let alloc = rt.alloc();
    let mut out = MemSink::new(alloc, Sequence::from_slice(alloc, &[2])?);
    for (bytes, answer) in [(b"ab", Ok(2)), (b"cd", Err(Fault)), (b"ef", Ok(2))] {
        assert_eq!(rt; out.write(bytes), answer);
    }
    assert_eq!(rt; out.bytes(), b"abef".as_slice());
    Ok(())
}

#[test]
fn takes_bytes_up_to_a_limit(rt: HostRuntime) {
    let text = b"VERIFICATION SUCCESSFUL\n";
    for (limit, answer) in [(0, Err(Fault)), (5, Ok(5)), (23, Ok(23))] {
        let mut out = MemSink::limited(rt.alloc(), limit);
        assert_eq!(rt; out.write(text), answer);
        assert_eq!(rt; out.write(b"x"), Err(Fault));
        assert_eq!(rt; out.bytes(), &text[..limit]);
    }
}

#[test]
fn reaches_the_systems_files(rt: HostRuntime) -> Result<(), Fail> {
    let mut name = env::temp_dir(&rt)?;
    name.push(format!(in rt.alloc(); "kv_port_{}", process::id(rt.process()))?)?;
    let mut files = StdFiles::new(&rt);
    let mut buf = [0; 4];
    assert_eq!(rt; files.open(name.as_str()), Ok(false));
    assert_eq!(rt; files.create(name.as_str()), Ok(()));
    assert_eq!(rt; files.write(b"int"), Ok(3));
    assert_eq!(rt; files.open(name.as_str()), Ok(true));
    assert_eq!(rt; files.read(&mut buf), Ok(3));
    assert_eq!(rt; buf, *b"int\0");
    fs::remove_file(&rt, &name)?;
    Ok(())
}

#[test]
fn counts_the_systems_faults(rt: HostRuntime) {
    let mut files = StdFiles::new(&rt);
    let mut buf = [0; 4];
    assert_eq!(rt; files.open("."), Ok(true));
    assert_eq!(rt; files.read(&mut buf), Err(Fault));
    assert_eq!(rt; files.create("."), Err(Fault));
}

#[test]
fn prints(rt: HostRuntime) {
    let mut out = StdSink::new(&rt);
    assert_eq!(rt; out.write(b""), Ok(0));
    assert_eq!(rt; out.write(b"ok\n"), Ok(3));
}

// Lets each worker pass, without a step and at the last one.
fn all_pass<G: Gate>(gate: &G) {
    for worker in [
        Worker::Base,
        Worker::Forward,
        Worker::Step,
        Worker::Invariants,
        Worker::Engine,
    ] {
        gate.pass(worker, 0);
        gate.pass(worker, 255);
    }
}

#[test]
fn an_open_gate_lets_every_worker_pass() {
    all_pass(&OpenGate);
}
