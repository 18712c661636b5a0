use crate::shown;
use c_tokens::DataModel;
use std::alloc::Global;
use std::process::Abort;
use std::test::Fail;

// Tokens, white space and comments (6.4).
static TOKENS: [(&[u8], &str); 20] = [
    (b"", ""),
    (b"@", "no token at 0"),
    (b"a+++b", "a Increment Plus b"),
    (
        b"a>>=b>>c>=d",
        "a ShiftRightEqual b ShiftRight c GreaterEqual d",
    ),
    (b"a...b..c", "a Ellipsis b Dot Dot c"),
    (b"a->b--c", "a Arrow b Decrement c"),
    (b"int inty _Bool", "Int inty Bool"),
    (b"float _Generic", "Float Generic"),
    (b" \t\x0b\x0c\r\nx", "x"),
    (b"x/**/y//z\nw", "x y w"),
    (b"/* a /* b */ x", "x"),
    (b"x /* y", "no token at 2"),
    (b"x /*/ y", "no token at 2"),
    (b"\"a\nb\"", "no token at 0"),
    (b"\"\\\\\"", "no token at 0"),
    (b"f(\"\\\\\", \"a\");", "no token at 2"),
    (
        b"f(\"a\\\"b\\\\c\\n\");",
        "f LeftParenthesis Text RightParenthesis Semicolon",
    ),
    (b"f(\"a\\\\\\\"b\");", "no token at 2"),
    (b"/* \xff */ \"\xff\" x", "Text x"),
    (b"x \xff", "no token at 2"),
];

// Line splices: with a newline after white space of any kind, in comments, strings and directives; a fault before
// one comes first (5.1.1.2, 5.2.1.1).
static SPLICES: [(&[u8], &str); 29] = [
    (b"// a \\\ny;", "no token at 5"),
    (b"/* a\n \\\n*/y;", "no token at 6"),
    (b"/* a\n \\\ny;", "no token at 0"),
    (b"f(\"a\\\nb\");", "no token at 2"),
    (b"// a ??/\ny;", "no token at 5"),
    (b"#pragma x \\\ny", "no token at 10"),
    (b"#if 1 \\\ny", "directive at 0"),
    (b"#define N 1 \\\ny", "directive at 0"),
    (b"// a \\ \ny;", "no token at 5"),
    (b"// a \\\r\ny;", "no token at 5"),
    (b"// a \\ \t\x0b\x0c\r\ny;", "no token at 5"),
    (b"// a ??/\r\ny;", "no token at 5"),
    (b"// a ??/ \t\ny;", "no token at 5"),
    (b"/* a \\\r\n*/y;", "no token at 5"),
    (b"f(\"a\\\r\nb\");", "no token at 2"),
    (b"#pragma x \\ \r\ny", "no token at 10"),
    (b"#define N 1 \\\r\ny", "directive at 0"),
    (b"@ // a \\\r\ny;", "no token at 0"),
    (b"x \\\r\ny;", "no token at 2"),
    (b"// a \\\\\ny;", "no token at 6"),
    (b"// a \\ b\ny;", "y Semicolon"),
    (b"// a ??/ b\r\ny;", "y Semicolon"),
    (b"// a ?/\r\ny;", "y Semicolon"),
    (b"y; // a \\ \r", "no token at 10"),
    (b"// a \\\x00\ny;", "no token at 5"),
    (b"y; // a\rx;\n", "no token at 7"),
    (b"/* a\r */y;", "no token at 4"),
    (b"#pragma a\ry;", "no token at 9"),
    (b"y\r\r\n;", "no token at 1"),
];

// Encoding prefixes (6.4.4.4, 6.4.5).
static PREFIXES: [(&[u8], &str); 14] = [
    (b"int x=L'a';", "no token at 6"),
    (b"f(u8\"a\");", "no token at 2"),
    (b"int L;L=1;", "Int L Semicolon L Equal 1:Int Semicolon"),
    (b"L\"a\"", "no token at 0"),
    (b"u'a'", "no token at 0"),
    (b"u\"a\"", "no token at 0"),
    (b"U'a'", "no token at 0"),
    (b"U\"a\"", "no token at 0"),
    (b"u8'a'", "no token at 0"),
    (b"#define L return\nL'a'", "no token at 17"),
    (b"#define N L'a'\nN", "directive at 0"),
    (b"#pragma L'a'\nx", "x"),
    (b"L 'a' u8/**/\"a\"", "L 97:Int u8 Text"),
    (b"LL'a' u9'b' xu8\"a\"", "LL 97:Int u9 98:Int xu8 Text"),
];

// Directives (6.10).
static DIRECTIVES: [(&[u8], &str); 30] = [
    (b"#if 1", "directive at 0"),
    (b"#\nx", "x"),
    (b" # /* a */\nx", "x"),
    (b"x # 1", "no token at 2"),
    (b"#undef N", "directive at 0"),
    (b"#define N", "directive at 0"),
    (b"#define N (1)", "directive at 0"),
    (b"#define N 1 2", "directive at 0"),
    (b"#define N 1.5", "directive at 0"),
    (b"#define F(x) x", "directive at 0"),
    (b"#include <stdio.h>", "directive at 0"),
    (b"#include <limits.h> x", "directive at 0"),
    (b"#include \"assert.h\" // x\nassert", "assert"),
    (b"#pragma \"\\\\\" /* \n */ int y;\nx", "x"),
    (b"#pragma '\"' /* \n */ int y;\nx", "x"),
    (b"#pragma a /* \n */ int y;\nx", "x"),
    (b"#define/**/N/**/3 // x\nN", "3:Int"),
    (b"# 1 \"a/*b.c\"\nx", "x"),
    (b"int x; /*\n*/ #pragma a\ny", "Int x Semicolon y"),
    (b"#if 1 /*", "directive at 0"),
    (b"#pragma a /*", "no token at 10"),
    (b"# 3 @ 'x\ny", "y"),
    (b"#line 3 @\ny", "y"),
    (b"#line", "directive at 0"),
    (b"#line x\ny", "directive at 0"),
    (
        b"#define N 99999999999999999999\nx",
        "constant too large at 10",
    ),
    (
        b"#include <limits.h>\n#define INT_MAX 1\n",
        "directive at 20",
    ),
    (
        b"#define INT_MAX 1\n#include <limits.h>\n",
        "directive at 18",
    ),
    (b"#define N 1\n#define N 0x1\n", "directive at 12"),
    (b"#define N 1\n#define N 1\nN", "1:Int"),
];

// Replacement (6.10.3.4).
static REPLACED: [(&[u8], &str); 12] = [
    (b"#define N M\n#define M N\nN", "N"),
    (b"#define N M\n#define M N\nM N", "M N"),
    (b"#define N N\nN", "N"),
    (b"#define A B\n#define B C\n#define C B\nA B C", "B B C"),
    (b"#define C B\n#define B C\n#define A B\nA B C", "B B C"),
    (b"#define A B\n#define B 3\nA B C", "3:Int 3:Int C"),
    (b"#define A B\nA\n#define B 3\nA", "B 3:Int"),
    (b"A\n#define A 0x10\nA", "A 16:Int"),
    (b"#define A int\nA", "Int"),
    (b"#define int char\nint", "Int"),
    (
        b"#define B bool\n#include <stdbool.h>\nB x=true;",
        "Bool x Equal 1:Int Semicolon",
    ),
    (
        b"#define B bool\n#define A B\nA\n#include <stdbool.h>\nA",
        "bool Bool",
    ),
];

/// Each text is shown so.
fn are_shown(rt: &impl Abort, alloc: Global, rows: &[(&[u8], &str)]) -> Result<(), Fail> {
    for (text, wanted) in rows {
        assert_eq!(rt;
            shown(alloc, text, DataModel::Lp64)?.as_str(),
            *wanted,
            "{text:?}"
        );
    }
    Ok(())
}

#[test]
fn tokens(rt: HostRuntime) -> Result<(), Fail> {
    are_shown(&rt, rt.alloc(), &TOKENS)
}

#[test]
fn line_splices(rt: HostRuntime) -> Result<(), Fail> {
    are_shown(&rt, rt.alloc(), &SPLICES)
}

#[test]
fn encoding_prefixes(rt: HostRuntime) -> Result<(), Fail> {
    are_shown(&rt, rt.alloc(), &PREFIXES)
}

#[test]
fn directives(rt: HostRuntime) -> Result<(), Fail> {
    are_shown(&rt, rt.alloc(), &DIRECTIVES)
}

#[test]
fn replacements(rt: HostRuntime) -> Result<(), Fail> {
    are_shown(&rt, rt.alloc(), &REPLACED)
}
