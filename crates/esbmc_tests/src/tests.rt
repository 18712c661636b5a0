use crate::{folder, in_pieces, run_words};
use kv_base::{NoMemory, Sequence};
use kv_port::{Call, Failing, MemFiles, MemSink};
use std::alloc::Global;
use std::test::Fail;

const SUM: &[u8] = b"int main(void){int x=3;x=x+1;assert(x==4);return 0;}";

const SUCCESSFUL: &[u8] = b"VERIFICATION SUCCESSFUL\n";

#[test]
fn verdicts_and_their_texts(rt: HostRuntime) -> Result<(), Fail> {
    let alloc = rt.alloc();
    let cases: [(&[u8], u8, &[u8]); 9] = [
        (SUM, 0, SUCCESSFUL),
        (
            b"int main(void){int x=3;x=x+1;assert(x==5);return 0;}",
            1,
            b"violated: assertion at line 1\nVERIFICATION FAILED\n",
        ),
        (b"int main(void){return 0;}", 0, SUCCESSFUL),
        (
            b"int main(void){int x=2147483647;x=x+1;assert(x==0-2147483647-1);return 0;}",
            0,
            SUCCESSFUL,
        ),
        (
            b"int main ( void )\n{\tint a = 7 ;\n  int b=a-2+a;\n\n  assert(b!=12);\n  return 0; }\n",
            1,
            b"violated: assertion at line 5\nVERIFICATION FAILED\n",
        ),
        (
            b"int main(void){while(1);return 0;}",
            5,
            b"error: not yet\n",
        ),
        (b"int main(void){int x=x;return 0;}", 5, b"error: not yet\n"),
        (
            b"int main(void){int x=2147483648;return 0;}",
            5,
            b"error: not yet\n",
        ),
        (b"", 5, b"error: not yet\n"),
    ];
    for (text, status, printed) in cases {
        let mut files = folder(alloc, b"a.c", text, &[])?;
        let mut out = MemSink::new(alloc, Sequence::new(alloc));
        let outcome = run_words(alloc, &["a.c"], &mut files, &mut out)?;
        assert_eq!(rt; outcome.status, status);
        assert_eq!(rt; outcome.meant, status);
        assert_eq!(rt; out.bytes(), printed);
    }
    Ok(())
}

#[test]
fn words_that_name_no_file(rt: HostRuntime) -> Result<(), Fail> {
    let alloc = rt.alloc();
    let cases: [(&[&str], u8, &[u8]); 4] = [
        (&[], 4, b"usage: esbmc_k [options] FILE\n"),
        (&["--help"], 4, b"usage: esbmc_k [options] FILE\n"),
        (&["a.c", "a.c"], 4, b"usage: esbmc_k [options] FILE\n"),
        (&["b.c"], 12, b"error: no such file\n"),
    ];
    for (words, status, printed) in cases {
        let mut files = folder(alloc, b"a.c", SUM, &[])?;
        let mut out = MemSink::new(alloc, Sequence::new(alloc));
        let outcome = run_words(alloc, words, &mut files, &mut out)?;
        assert_eq!(rt; outcome.status, status);
        assert_eq!(rt; outcome.meant, status);
        assert_eq!(rt; out.bytes(), printed);
    }
    Ok(())
}

#[test]
fn reads_that_fail(rt: HostRuntime) -> Result<(), Fail> {
    let alloc = rt.alloc();
    let cases = [(Call::Open, 1), (Call::Read, 1), (Call::Read, 2)];
    for (call, number) in cases {
        let mut files = folder(alloc, b"a.c", SUM, &[Failing { call, number }])?;
        let mut out = MemSink::new(alloc, Sequence::new(alloc));
        let outcome = run_words(alloc, &["a.c"], &mut files, &mut out)?;
        assert_eq!(rt; outcome.status, 6);
        assert_eq!(rt; out.bytes(), b"error: read fault\n".as_slice());
        // Once the call is past, the same folder is read.
        let mut later = MemSink::new(alloc, Sequence::new(alloc));
        let outcome = run_words(alloc, &["a.c"], &mut files, &mut later)?;
        assert_eq!(rt; outcome.status, 0);
    }
    Ok(())
}

#[test]
fn sinks_that_fail(rt: HostRuntime) -> Result<(), Fail> {
    let alloc = rt.alloc();
    for limit in 0..=24usize {
        let mut files = folder(alloc, b"a.c", SUM, &[])?;
        let mut out = MemSink::limited(alloc, limit);
        let outcome = run_words(alloc, &["a.c"], &mut files, &mut out)?;
        assert_eq!(rt; outcome.status, if limit < 24 { 7 } else { 0 });
        assert_eq!(rt; outcome.meant, 0);
        assert_eq!(rt; Some(out.bytes()), SUCCESSFUL.get(..limit));
    }
    let mut files = folder(alloc, b"a.c", SUM, &[])?;
    let mut out = MemSink::new(alloc, Sequence::from_slice(alloc, &[1])?);
    assert_eq!(rt; run_words(alloc, &["a.c"], &mut files, &mut out)?.status, 7);
    Ok(())
}

#[test]
fn refused_sources(rt: HostRuntime) -> Result<(), Fail> {
    let alloc = rt.alloc();
    let cases: [(&[u8], &[u8]); 15] = [
        (b"@", b"error: line 1: no token\n"),
        // A C compiler reads on over this line end and skips `x=1;`.
        (
            b"int main(void){int x=0; // c \\\r\nx=1;\r\nassert(x==1);return 0;}\r\n",
            b"error: line 1: no token\n",
        ),
        // A C compiler ends the comment at the carriage return and runs `x=0;`.
        (
            b"int main(void){int x=1; // c \rx=0;\nassert(x==1);return 0;}",
            b"error: line 1: no token\n",
        ),
        // In C the wide constant is one token, here `L` would stand for `return`.
        (
            b"#define L return\nint main(void){L'a';}",
            b"error: line 2: no token\n",
        ),
        (b"int x;\n\n/* int y;", b"error: line 3: no token\n"),
        (b"#if 1", b"error: line 1: directive\n"),
        (
            b"int x;\nint y = 18446744073709551616;",
            b"error: line 2: constant too large\n",
        ),
        (
            b"float x; int main(void){return 0;}",
            b"error: line 1: left out: float\n",
        ),
        (
            b"int main(void){\n__asm__(\"\");}",
            b"error: line 2: left out: __asm__\n",
        ),
        (
            b"int x = 1.5;",
            b"error: line 1: left out: floating constant\n",
        ),
        // What is left out comes before a fault of syntax.
        (
            b"int main(void){while (goto",
            b"error: line 1: left out: goto\n",
        ),
        (b"int main(void){while (i <", b"error: line 1: syntax\n"),
        (b"\nint main(void){return 0;}}", b"error: line 2: syntax\n"),
        (b"int main(void){L:int x;}", b"error: line 1: syntax\n"),
        (
            b"typedef int T; int main(void){T:;T x=1;}",
            b"error: not yet\n",
        ),
    ];
    for (text, printed) in cases {
        let mut files = folder(alloc, b"a.c", text, &[])?;
        let mut out = MemSink::new(alloc, Sequence::new(alloc));
        let outcome = run_words(alloc, &["a.c"], &mut files, &mut out)?;
        assert_eq!(rt; outcome.status, 5);
        assert_eq!(rt; outcome.meant, 5);
        assert_eq!(rt; out.bytes(), printed);
    }
    Ok(())
}

#[test]
fn texts_that_end_early(rt: HostRuntime) -> Result<(), Fail> {
    let alloc = rt.alloc();
    for (end, _) in SUM.iter().enumerate() {
        let Some(text) = SUM.get(..end) else {
            return Ok(());
        };
        let mut files = folder(alloc, b"a.c", text, &[])?;
        let mut out = MemSink::new(alloc, Sequence::new(alloc));
        let outcome = run_words(alloc, &["a.c"], &mut files, &mut out)?;
        assert_eq!(rt; outcome.status, 5);
        let printed: &[u8] = if end == 0 {
            b"error: not yet\n"
        } else {
            b"error: line 1: syntax\n"
        };
        assert_eq!(rt; out.bytes(), printed);
    }
    Ok(())
}

/// What the program prints for a number of equal bytes.
fn printed_for(alloc: Global, byte: u8, count: usize, printed: &[u8]) -> Result<bool, NoMemory> {
    let mut text = Vec::new(alloc);
    for _ in 0..count {
        text.push(byte)?;
    }
    let mut files = folder(alloc, b"a.c", text.as_slice(), &[])?;
    let mut out = MemSink::new(alloc, Sequence::new(alloc));
    let outcome = run_words(alloc, &["a.c"], &mut files, &mut out)?;
    Ok(outcome.status == 5 && out.bytes() == printed)
}

#[test]
fn long_and_deep_sources(rt: HostRuntime) -> Result<(), Fail> {
    let cases: [(u8, usize, &[u8]); 8] = [
        (b' ', 1_048_576, b"error: not yet\n"),
        (b' ', 1_048_577, b"error: file longer than 1048576 bytes\n"),
        (b';', 200_000, b"error: not yet\n"),
        (b';', 200_001, b"error: line 1: more than 200000 tokens\n"),
        (b'(', 499, b"error: line 1: syntax\n"),
        (b'(', 500, b"error: line 1: nested too deep\n"),
        (b')', 499, b"error: line 1: syntax\n"),
        (b')', 500, b"error: line 1: nested too deep\n"),
    ];
    for (byte, count, printed) in cases {
        assert!(rt; printed_for(rt.alloc(), byte, count, printed)?);
    }
    Ok(())
}

/// What is nested 6,000 times: a head, what opens, what stands inside, what closes and an end.
fn nested(
    alloc: Global,
    [head, opens, inside, closes, end]: [&[u8]; 5],
) -> Result<Vec<u8>, NoMemory> {
    let mut text = Vec::from_slice(alloc, head)?;
    for _ in 0..6_000 {
        text.extend_from_slice(opens)?;
    }
    text.extend_from_slice(inside)?;
    for _ in 0..6_000 {
        text.extend_from_slice(closes)?;
    }
    text.extend_from_slice(end)?;
    Ok(text)
}

// These are below the count of nesting, and deeper than a stack may bear: out of memory.
#[test]
fn deep_trees(rt: HostRuntime) -> Result<(), Fail> {
    let alloc = rt.alloc();
    let cases: [[&[u8]; 5]; 2] = [
        [b"int main(void){a=", b"a?a,", b"a?a:a", b",a:a", b";}"],
        [
            b"int main(void){",
            b"if(a);else if(a)while(a)",
            b";",
            b"",
            b"}",
        ],
    ];
    for parts in cases {
        let text = nested(alloc, parts)?;
        let mut files = folder(alloc, b"a.c", text.as_slice(), &[])?;
        let mut out = MemSink::new(alloc, Sequence::new(alloc));
        let outcome = run_words(alloc, &["a.c"], &mut files, &mut out)?;
        assert_eq!(rt; outcome.status, 8);
        assert_eq!(rt; out.bytes(), b"".as_slice());
    }
    Ok(())
}

#[test]
fn files_in_pieces(rt: HostRuntime) -> Result<(), Fail> {
    let alloc = rt.alloc();
    for size in [1usize, 2, 7] {
        let mut files = in_pieces(alloc, b"a.c", SUM, size)?;
        let mut out = MemSink::new(alloc, Sequence::new(alloc));
        let outcome = run_words(alloc, &["a.c"], &mut files, &mut out)?;
        assert_eq!(rt; outcome.status, 0);
        assert_eq!(rt; out.bytes(), SUCCESSFUL);
    }
    Ok(())
}

#[test]
fn files_without_end(rt: HostRuntime) -> Result<(), Fail> {
    let alloc = rt.alloc();
    let mut files = MemFiles::endless(alloc, b' ');
    let mut out = MemSink::new(alloc, Sequence::new(alloc));
    let outcome = run_words(alloc, &["a.c"], &mut files, &mut out)?;
    assert_eq!(rt; outcome.status, 5);
    assert_eq!(rt;
        out.bytes(),
        b"error: file longer than 1048576 bytes\n".as_slice()
    );
    Ok(())
}
