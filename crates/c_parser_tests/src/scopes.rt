use crate::shown;
use std::test::Fail;

// What a name means by the declarations in scope (C11 6.2.1, 6.8): a text, and the items of its last function.
static NAMES: [(&[u8], &str); 25] = [
    (
        b"typedef int T; int main(void){T T=sizeof(T);T=T*T;}",
        "declaration; value",
    ),
    (
        b"typedef int T; int main(void){T:;T x=1;}",
        "label; declaration",
    ),
    (b"typedef int T; int main(void){T*x;}", "declaration"),
    (b"int T; int main(void){T*x;}", "value"),
    (
        b"typedef int T; int main(void){int T;T*x;}",
        "declaration; value",
    ),
    (b"typedef int T; int main(void){int T;T x;}", "syntax"),
    (
        b"typedef int T; int main(void){{int T;T*x;}T*x;}",
        "block; declaration",
    ),
    // Parameters share the scope of the body.
    (b"typedef int T; int f(int T){T*T;}", "value"),
    (b"typedef int T; int f(int (T)){return T;}", "return"),
    (
        b"typedef int T; int f(int T);int main(void){T x;}",
        "declaration",
    ),
    (b"typedef int T; int f(int T,T x){}", "syntax"),
    // Members, tags and labels hide nothing.
    (
        b"typedef int T; struct S{int T;};int main(void){T x;}",
        "declaration",
    ),
    (
        b"typedef int T; struct T{int a;};int main(void){T x;}",
        "declaration",
    ),
    (
        b"typedef int T; int main(void){T:T:;T x;}",
        "label; declaration",
    ),
    // An enum constant hides from the end of its line on.
    (
        b"typedef int T; int main(void){enum{T};T*x;}",
        "declaration; value",
    ),
    (
        b"typedef int T; int main(void){enum{T=sizeof(T)};T*x;}",
        "declaration; value",
    ),
    // Each branch and each loop is a block, and so is what it runs.
    (
        b"typedef int T; int main(void){if(sizeof(enum{T}))T;T x;}",
        "if(value); declaration",
    ),
    (
        b"typedef int T; int main(void){if(1)sizeof(enum{T});else{T x;}}",
        "if else(value) block",
    ),
    (
        b"typedef int T; int main(void){for(int T=0;T<1;T++)T*T;T x;}",
        "for; declaration",
    ),
    (
        b"typedef int T; int main(void){while(sizeof(enum{T}))T;T x;}",
        "while; declaration",
    ),
    (
        b"typedef int T; int main(void){do sizeof(enum{T});while(sizeof(T));T x;}",
        "do; declaration",
    ),
    (
        b"typedef int T; int main(void){switch(sizeof(enum{T}))T;T x;}",
        "switch; declaration",
    ),
    // A typedef name is no primary, and one more specifier only where no type stands before it.
    (b"typedef int T; int main(void){x=T;}", "syntax"),
    (b"typedef int T; int main(void){T T,U;const T x;}", "syntax"),
    (b"typedef int T; int main(void){unsigned T;T x;}", "syntax"),
];

#[test]
fn names(rt: HostRuntime) -> Result<(), Fail> {
    for (text, wanted) in &NAMES {
        assert_eq!(rt; shown(rt.alloc(), text)?.as_str(), *wanted, "{text:?}");
    }
    Ok(())
}
