use crate::answer;
use std::alloc::{AllocError, Global};
use std::test::Fail;

// Each word and constant that the accepted C leaves out, which comes before every other fault.
static LEFT_OUT: [(&[u8], &str); 20] = [
    (b"float", "left out: Float at 0"),
    (b"double", "left out: Double at 0"),
    (b"_Complex", "left out: Complex at 0"),
    (b"_Imaginary", "left out: Imaginary at 0"),
    (b"union", "left out: Union at 0"),
    (b"goto", "left out: Goto at 0"),
    (b"asm", "left out: Asm at 0"),
    (b"__asm__", "left out: UnderscoredAsm at 0"),
    (b"__asm", "left out: UnderscoreAsm at 0"),
    (b"_Generic", "left out: Generic at 0"),
    (b"_Atomic", "left out: Atomic at 0"),
    (b"_Thread_local", "left out: ThreadLocal at 0"),
    (b"_Alignas", "left out: Alignas at 0"),
    (b"_Alignof", "left out: Alignof at 0"),
    (b"_Static_assert", "left out: StaticAssert at 0"),
    (b"1.5", "left out: FloatingConstant at 0"),
    (
        b"int main(void){1.x;return 0;}",
        "left out: FloatingConstant at 6",
    ),
    (b"int main(void){goto union;}", "left out: Goto at 6"),
    (b"int int ) float", "left out: Float at 3"),
    (
        b"#define N goto\nint x; int f(void){N L;L:;}",
        "left out: Goto at 9",
    ),
];

#[test]
fn left_out(rt: HostRuntime) -> Result<(), Fail> {
    for (text, wanted) in &LEFT_OUT {
        assert_eq!(rt; answer(rt.alloc(), text)?.as_str(), *wanted, "{text:?}");
    }
    Ok(())
}

/// A part a number of times, another once, and a third the same number of times.
fn nested(
    alloc: Global,
    opening: &[u8],
    inner: &[u8],
    closing: &[u8],
    count: usize,
) -> Result<Vec<u8>, AllocError> {
    let mut text = Vec::new(alloc);
    for _ in 0..count {
        text.extend_from_slice(opening)?;
    }
    text.extend_from_slice(inner)?;
    for _ in 0..count {
        text.extend_from_slice(closing)?;
    }
    Ok(text)
}

/// The same between a head and an end.
fn framed(alloc: Global, head: &[u8], nested: &[u8], end: &[u8]) -> Result<Vec<u8>, AllocError> {
    let mut text = head.to_vec(alloc)?;
    text.extend_from_slice(nested)?;
    text.extend_from_slice(end)?;
    Ok(text)
}

// What is nested a number of times: a head, what opens, what stands inside, what closes and an end, and the answer.
static DEPTHS: [(usize, [&[u8]; 5], &str); 12] = [
    (499, [b"", b"", b"", b")", b""], "syntax"),
    (500, [b"", b"", b"", b")", b""], "nested too deep at 499"),
    (
        494,
        [b"int main(void){", b"(", b"1", b")", b";}"],
        "accepted",
    ),
    (
        495,
        [b"int main(void){", b"(", b"1", b")", b";}"],
        "nested too deep at 501",
    ),
    (
        494,
        [b"int main(void){", b"- ", b"1", b"", b";}"],
        "accepted",
    ),
    (
        495,
        [b"int main(void){", b"- ", b"1", b"", b";}"],
        "nested too deep at 501",
    ),
    (496, [b"int main(void)", b"{", b"", b"}", b""], "accepted"),
    (
        497,
        [b"int main(void)", b"{", b"", b"}", b""],
        "nested too deep at 501",
    ),
    (490, [b"int ", b"*", b"x", b"", b";"], "accepted"),
    (
        600,
        [b"int ", b"*", b"x", b"", b";"],
        "nested too deep at 499",
    ),
    (600, [b"int main(void){", b"", b"", b"x;", b"}"], "accepted"),
    (
        600,
        [b"int main(void){", b"", b"x=0", b"+1", b";}"],
        "nested too deep at 501",
    ),
];

#[test]
fn depths(rt: HostRuntime) -> Result<(), Fail> {
    for (count, [head, opening, inner, closing, end], wanted) in &DEPTHS {
        let inside = nested(rt.alloc(), opening, inner, closing, *count)?;
        let text = framed(rt.alloc(), head, &inside, end)?;
        assert_eq!(rt;
            answer(rt.alloc(), &text)?.as_str(),
            *wanted,
            "{count} {opening:?}"
        );
    }
    Ok(())
}

// Lists and chains don't nest: a head, what comes 10,000 times, and an end.
static CHAINS: [(&[u8], &[u8], &[u8]); 6] = [
    (b"int main(void){x", b",y=1", b";}"),
    (b"int main(void){if(a)x;", b"else if(b){y;}", b"else z;}"),
    (b"int main(void){if(a){x;}", b"else if(b)y;", b"}"),
    (b"int x", b",*y", b";"),
    (b"int x={1", b",{2}", b"};"),
    (b"", b"int f(void){return 0;}", b""),
];

#[test]
fn chains(rt: HostRuntime) -> Result<(), Fail> {
    for (head, part, end) in &CHAINS {
        let inside = nested(rt.alloc(), b"", b"", part, 10_000)?;
        let text = framed(rt.alloc(), head, &inside, end)?;
        assert_eq!(rt; answer(rt.alloc(), &text)?.as_str(), "accepted", "{part:?}");
    }
    Ok(())
}

// What the count of nesting lets through and is nested deeper than a stack bears: a head, what opens 6,000 times, what
// stands inside, what closes and an end.
static DEEP: [[&[u8]; 5]; 4] = [
    [b"int main(void){a=", b"a?a,", b"a?a:a", b",a:a", b";}"],
    [
        b"int main(void){",
        b"if(a);else if(a)while(a)",
        b";",
        b"",
        b"}",
    ],
    [b"int x=", b"a?a,", b"a?a:a", b",a:a", b";"],
    [
        b"int main(void){",
        b"if(a);else if(a)for(;;)",
        b";",
        b"",
        b"}",
    ],
];

#[test]
fn deep_texts_are_out_of_memory(rt: HostRuntime) -> Result<(), Fail> {
    for [head, opening, inner, closing, end] in &DEEP {
        let inside = nested(rt.alloc(), opening, inner, closing, 6_000)?;
        let text = framed(rt.alloc(), head, &inside, end)?;
        assert!(rt; answer(rt.alloc(), &text).is_err(), "{opening:?}");
    }
    Ok(())
}

// What is nested this many times and ends with many operators after each bracket: a head, what opens, what stands inside,
// what closes and an end, and whether it has a tree.
static TALL: [(usize, [&[u8]; 5], bool); 4] = [
    (
        100,
        [b"int main(void){", b"(", b"a", b"++ ++ ++)", b";}"],
        true,
    ),
    (
        300,
        [b"int main(void){", b"(", b"a", b"++ ++ ++)", b";}"],
        false,
    ),
    (100, [b"int ", b"(", b"a", b"[1][1])", b";"], true),
    (200, [b"int ", b"(", b"a", b"[1][1][1][1])", b";"], false),
];

#[test]
fn tall_trees_are_out_of_memory(rt: HostRuntime) -> Result<(), Fail> {
    for (count, [head, opening, inner, closing, end], has_tree) in &TALL {
        let inside = nested(rt.alloc(), opening, inner, closing, *count)?;
        let text = framed(rt.alloc(), head, &inside, end)?;
        assert_eq!(rt; answer(rt.alloc(), &text).is_ok(), *has_tree, "{closing:?}");
    }
    Ok(())
}
