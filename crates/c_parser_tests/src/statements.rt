use crate::shown;
use std::test::Fail;

// Statements (C11 6.8): a text, and the items of its last function with what its branches run.
static STATEMENTS: [(&[u8], &str); 44] = [
    (b"int main(void){}", ""),
    (b"int main(void){;{}x;}", "empty; block; value"),
    (
        b"int main(void){int x;x=1;int y;}",
        "declaration; value; declaration",
    ),
    (b"int main(void){while (i <", "syntax"),
    (b"int main(void){", "syntax"),
    (b"int main(void){}}", "syntax"),
    // An `else` belongs to the nearest `if`.
    (b"int main(void){if(a)if(b)x;else y;}", "if(if else)"),
    (
        b"int main(void){if(a){if(b)x;}else y;}",
        "if else(block) value",
    ),
    (b"int main(void){if(a)while(b)if(c)x;else y;}", "if(while)"),
    (
        b"int main(void){if(a)if(b)x;else y;else z;}",
        "if else(if else) value",
    ),
    (b"int main(void){if(a)x;else if(b)y;}", "if(value)(value)"),
    (
        b"int main(void){if(a)x;else if(b)y;else z;}",
        "if else(value)(value) value",
    ),
    (
        b"int main(void){if(a)x;else while(b)if(c)y;else z;}",
        "if else(value) while",
    ),
    (b"int main(void){else x;}", "syntax"),
    (b"int main(void){if(a)x;y;else z;}", "syntax"),
    (b"int main(void){if(a)else x;}", "syntax"),
    (b"int main(void){if()x;}", "syntax"),
    (b"int main(void){if(a)int x;}", "syntax"),
    // Labels (6.8.1), which may stand before a `}` as if `;` followed, and before no declaration.
    (b"int main(void){switch(1){case 1:L:default:}}", "switch"),
    (b"int main(void){L:}", "label"),
    (b"int main(void){case 1:}", "case"),
    (b"int main(void){default:}", "default"),
    (b"int main(void){L:int x;}", "syntax"),
    (b"int main(void){case 1:int x;}", "syntax"),
    (b"int main(void){if(a)L:}", "if(label)"),
    (b"int main(void){case 1?2:3:;}", "case"),
    (b"int main(void){case 1,2:;}", "syntax"),
    (b"int main(void){case x=1:;}", "syntax"),
    (b"int main(void){default 1:;}", "syntax"),
    (b"int main(void){1:;}", "syntax"),
    // Loops (6.8.5).
    (b"int main(void){do x;while(a);}", "do"),
    (b"int main(void){do x;while(a)}", "syntax"),
    (b"int main(void){do x;y;while(a);}", "syntax"),
    (b"int main(void){do;while(a);;}", "do; empty"),
    (b"int main(void){for(;;);}", "for"),
    (b"int main(void){for(int i=0,j;i<1,j;i++,j++)x;}", "for"),
    (b"int main(void){for(int;;);}", "for"),
    (b"int main(void){for(;)x;}", "syntax"),
    (b"int main(void){for(x;y;z;)x;}", "syntax"),
    (b"int main(void){while()x;}", "syntax"),
    // Jumps (6.8.6).
    (
        b"int main(void){break;continue;return;return 1,2;}",
        "break; continue; return; return",
    ),
    (b"int main(void){break 1;}", "syntax"),
    (b"int main(void){return int;}", "syntax"),
    (b"int main(void){return", "syntax"),
];

#[test]
fn statements(rt: HostRuntime) -> Result<(), Fail> {
    for (text, wanted) in &STATEMENTS {
        assert_eq!(rt; shown(rt.alloc(), text)?.as_str(), *wanted, "{text:?}");
    }
    Ok(())
}
