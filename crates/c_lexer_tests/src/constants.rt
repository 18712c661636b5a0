use crate::shown;
use c_tokens::DataModel;
use std::test::Fail;

// Integer constants by the table of 6.4.4.1: a text, and what it is where `long` has 64 bits and where it has 32.
static INTEGERS: [(&[u8], &str, &str); 38] = [
    (b"0", "0:Int", "0:Int"),
    (b"0x7fffffffU", "2147483647:UInt", "2147483647:UInt"),
    (b"2147483647", "2147483647:Int", "2147483647:Int"),
    (b"2147483648", "2147483648:Long", "2147483648:LongLong"),
    (
        b"9223372036854775807",
        "9223372036854775807:Long",
        "9223372036854775807:LongLong",
    ),
    (
        b"9223372036854775808",
        "constant too large at 0",
        "constant too large at 0",
    ),
    (
        b"18446744073709551616",
        "constant too large at 0",
        "constant too large at 0",
    ),
    (b"4294967295u", "4294967295:UInt", "4294967295:UInt"),
    (b"4294967296U", "4294967296:ULong", "4294967296:ULongLong"),
    (
        b"18446744073709551615u",
        "18446744073709551615:ULong",
        "18446744073709551615:ULongLong",
    ),
    (
        b"18446744073709551616u",
        "constant too large at 0",
        "constant too large at 0",
    ),
    (b"1l", "1:Long", "1:Long32"),
    (b"2147483648L", "2147483648:Long", "2147483648:LongLong"),
    (b"1ul", "1:ULong", "1:ULong32"),
    (b"4294967296LU", "4294967296:ULong", "4294967296:ULongLong"),
    (b"1ll", "1:LongLong", "1:LongLong"),
    (
        b"9223372036854775808LL",
        "constant too large at 0",
        "constant too large at 0",
    ),
    (b"1ULL", "1:ULongLong", "1:ULongLong"),
    (b"1llU", "1:ULongLong", "1:ULongLong"),
    (b"0x80000000", "2147483648:UInt", "2147483648:UInt"),
    (b"0XFFFFFFFF", "4294967295:UInt", "4294967295:UInt"),
    (b"0x100000000", "4294967296:Long", "4294967296:LongLong"),
    (
        b"0x8000000000000000",
        "9223372036854775808:ULong",
        "9223372036854775808:ULongLong",
    ),
    (
        b"0xffffffffffffffff",
        "18446744073709551615:ULong",
        "18446744073709551615:ULongLong",
    ),
    (
        b"0x10000000000000000",
        "constant too large at 0",
        "constant too large at 0",
    ),
    (b"0x100000000u", "4294967296:ULong", "4294967296:ULongLong"),
    (b"0x7fffffffL", "2147483647:Long", "2147483647:Long32"),
    (b"0x80000000L", "2147483648:Long", "2147483648:ULong32"),
    (b"0x100000000L", "4294967296:Long", "4294967296:LongLong"),
    (
        b"0x7fffffffffffffffLL",
        "9223372036854775807:LongLong",
        "9223372036854775807:LongLong",
    ),
    (
        b"0x8000000000000000LL",
        "9223372036854775808:ULongLong",
        "9223372036854775808:ULongLong",
    ),
    (b"010", "8:Int", "8:Int"),
    (b"00", "0:Int", "0:Int"),
    (b"017777777777", "2147483647:Int", "2147483647:Int"),
    (b"020000000000", "2147483648:UInt", "2147483648:UInt"),
    (b"040000000000", "4294967296:Long", "4294967296:LongLong"),
    (
        b"01777777777777777777777",
        "18446744073709551615:ULong",
        "18446744073709551615:ULongLong",
    ),
    (
        b"02000000000000000000000",
        "constant too large at 0",
        "constant too large at 0",
    ),
];

// Numbers that are no integer constants (6.4.4.2, 6.4.8), and character constants (6.4.4.4).
static OTHERS: [(&[u8], &str); 39] = [
    (b"08", "no token at 0"),
    (b"0x", "no token at 0"),
    (b"1p3", "no token at 0"),
    (b"1lL", "no token at 0"),
    (b"1uu", "no token at 0"),
    (b"0xe+1", "no token at 0"),
    (b"1..2", "FloatingConstant"),
    (b"1.x", "FloatingConstant"),
    (b".5", "FloatingConstant"),
    (b"1.", "FloatingConstant"),
    (b"1e3", "FloatingConstant"),
    (b"1E-3f", "FloatingConstant"),
    (b"0x1p3", "FloatingConstant"),
    (b"0x.8P-1", "FloatingConstant"),
    (b"1 .x", "1:Int Dot x"),
    (b"'a'", "97:Int"),
    (b"'\"'", "34:Int"),
    (b"'\\n'", "10:Int"),
    (b"'\\t'", "9:Int"),
    (b"'\\r'", "13:Int"),
    (b"'\\a'", "7:Int"),
    (b"'\\b'", "8:Int"),
    (b"'\\f'", "12:Int"),
    (b"'\\v'", "11:Int"),
    (b"'\\\\'", "92:Int"),
    (b"'\\''", "39:Int"),
    (b"'\\?'", "63:Int"),
    (b"'\\0'", "0:Int"),
    (b"'\\177'", "127:Int"),
    (b"'\\377'", "-1:Int"),
    (b"'\\x80'", "-128:Int"),
    (b"'\\x0041'", "65:Int"),
    (b"'\\400'", "no token at 0"),
    (b"'\\x100'", "no token at 0"),
    (b"'\\18'", "no token at 0"),
    (b"''", "no token at 0"),
    (b"'ab'", "no token at 0"),
    (b"'\t'", "no token at 0"),
    (b"'a", "no token at 0"),
];

#[test]
fn integer_constants(rt: HostRuntime) -> Result<(), Fail> {
    for (text, wide, narrow) in &INTEGERS {
        assert_eq!(rt;
            shown(rt.alloc(), text, DataModel::Lp64)?.as_str(),
            *wide,
            "{text:?}"
        );
        assert_eq!(rt;
            shown(rt.alloc(), text, DataModel::Ilp32)?.as_str(),
            *narrow,
            "{text:?}"
        );
    }
    Ok(())
}

#[test]
fn other_constants(rt: HostRuntime) -> Result<(), Fail> {
    for (text, wanted) in &OTHERS {
        assert_eq!(rt;
            shown(rt.alloc(), text, DataModel::Lp64)?.as_str(),
            *wanted,
            "{text:?}"
        );
    }
    Ok(())
}
