use crate::shown;
use c_tokens::DataModel;
use std::alloc::{AllocError, Global};
use std::test::Fail;

// The names of the headers (7.10, 7.18, 7.19, 7.20): what each is where `long` has 64 bits and where it has 32.
static NAMES: [(&str, &str, &str); 44] = [
    ("bool", "Bool", "Bool"),
    ("true", "1:Int", "1:Int"),
    ("false", "0:Int", "0:Int"),
    ("NULL", "0:Int", "0:Int"),
    ("size_t", ":ULong", ":UInt"),
    ("ptrdiff_t", ":Long", ":Int"),
    ("int8_t", ":SChar", ":SChar"),
    ("uint8_t", ":UChar", ":UChar"),
    ("int16_t", ":Short", ":Short"),
    ("uint16_t", ":UShort", ":UShort"),
    ("int32_t", ":Int", ":Int"),
    ("uint32_t", ":UInt", ":UInt"),
    ("int64_t", ":Long", ":LongLong"),
    ("uint64_t", ":ULong", ":ULongLong"),
    ("INT8_MIN", "-128:Int", "-128:Int"),
    ("INT8_MAX", "127:Int", "127:Int"),
    ("UINT8_MAX", "255:Int", "255:Int"),
    ("INT16_MIN", "-32768:Int", "-32768:Int"),
    ("INT16_MAX", "32767:Int", "32767:Int"),
    ("UINT16_MAX", "65535:Int", "65535:Int"),
    ("INT32_MIN", "-2147483648:Int", "-2147483648:Int"),
    ("INT32_MAX", "2147483647:Int", "2147483647:Int"),
    ("UINT32_MAX", "4294967295:UInt", "4294967295:UInt"),
    (
        "INT64_MIN",
        "-9223372036854775808:Long",
        "-9223372036854775808:LongLong",
    ),
    (
        "INT64_MAX",
        "9223372036854775807:Long",
        "9223372036854775807:LongLong",
    ),
    (
        "UINT64_MAX",
        "18446744073709551615:ULong",
        "18446744073709551615:ULongLong",
    ),
    ("CHAR_BIT", "8:Int", "8:Int"),
    ("SCHAR_MIN", "-128:Int", "-128:Int"),
    ("SCHAR_MAX", "127:Int", "127:Int"),
    ("UCHAR_MAX", "255:Int", "255:Int"),
    ("CHAR_MIN", "-128:Int", "-128:Int"),
    ("CHAR_MAX", "127:Int", "127:Int"),
    ("SHRT_MIN", "-32768:Int", "-32768:Int"),
    ("SHRT_MAX", "32767:Int", "32767:Int"),
    ("USHRT_MAX", "65535:Int", "65535:Int"),
    ("INT_MIN", "-2147483648:Int", "-2147483648:Int"),
    ("INT_MAX", "2147483647:Int", "2147483647:Int"),
    ("UINT_MAX", "4294967295:UInt", "4294967295:UInt"),
    (
        "LONG_MIN",
        "-9223372036854775808:Long",
        "-2147483648:Long32",
    ),
    ("LONG_MAX", "9223372036854775807:Long", "2147483647:Long32"),
    (
        "ULONG_MAX",
        "18446744073709551615:ULong",
        "4294967295:ULong32",
    ),
    (
        "LLONG_MIN",
        "-9223372036854775808:LongLong",
        "-9223372036854775808:LongLong",
    ),
    (
        "LLONG_MAX",
        "9223372036854775807:LongLong",
        "9223372036854775807:LongLong",
    ),
    (
        "ULLONG_MAX",
        "18446744073709551615:ULongLong",
        "18446744073709551615:ULongLong",
    ),
];

/// A name under all five headers.
fn included(alloc: Global, name: &str) -> Result<String, AllocError> {
    format!(in alloc;
        "#include <assert.h>\n#include <stdbool.h>\n#include <stddef.h>\n#include <stdint.h>\n#include <limits.h>\n{name}"
    )
}

#[test]
fn names_of_headers(rt: HostRuntime) -> Result<(), Fail> {
    for (name, wide, narrow) in &NAMES {
        let text = included(rt.alloc(), name)?;
        assert_eq!(rt;
            shown(rt.alloc(), text.as_bytes(), DataModel::Lp64)?.as_str(),
            *wide,
            "{name}"
        );
        assert_eq!(rt;
            shown(rt.alloc(), text.as_bytes(), DataModel::Ilp32)?.as_str(),
            *narrow,
            "{name}"
        );
    }
    Ok(())
}

#[test]
fn names_without_headers(rt: HostRuntime) -> Result<(), Fail> {
    for (name, _, _) in &NAMES {
        assert_eq!(rt;
            shown(rt.alloc(), name.as_bytes(), DataModel::Lp64)?.as_str(),
            *name
        );
    }
    Ok(())
}
