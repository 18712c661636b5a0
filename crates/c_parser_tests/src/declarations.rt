use crate::answer;
use std::test::Fail;

// Declarations (C11 6.7) and external declarations (6.9).
static DECLARATIONS: [(&[u8], &str); 62] = [
    (b"", "accepted"),
    (b";;", "accepted"),
    (b"int;", "accepted"),
    (b"static;", "accepted"),
    (b"int x,*y,z[2],f(void);", "accepted"),
    (b"int x", "syntax"),
    (b"int x,;", "syntax"),
    (b"x;", "syntax"),
    (b"main(){}", "syntax"),
    (b"int x y;", "syntax"),
    (b"int f(void){}int", "syntax"),
    (b"int x,f(void){}", "syntax"),
    (b"int f(void){};", "accepted"),
    // Storage words have no order, and none is asked for (6.7.1).
    (b"int typedef T;T x;", "accepted"),
    (
        b"int main(void){static extern register int x;assert(sizeof(static int)==4);return 0;}",
        "accepted",
    ),
    (
        b"int x; static int x; int main(void){register int y=1;int *p=&y;x=*p;return 0;}",
        "accepted",
    ),
    // A typedef name (6.7.8).
    (b"typedef int T,U;T U;", "accepted"),
    (b"typedef int T;T;", "accepted"),
    (b"typedef int T;const T volatile x;", "accepted"),
    (b"typedef int T;long T x;", "syntax"),
    (b"typedef int T;T T x;", "syntax"),
    // Structs (6.7.2.1).
    (b"struct S{int a,*b;char c:1,:2;};", "accepted"),
    (b"struct{int a;}x;", "accepted"),
    (b"struct S{};", "accepted"),
    (b"struct S{int;};", "syntax"),
    (b"struct S{int a};", "syntax"),
    (b"struct S{int a=1;};", "syntax"),
    (b"struct;", "syntax"),
    (b"struct S struct T x;", "accepted"),
    // Enumerations (6.7.2.2).
    (b"enum E{A,B=A+1,};", "accepted"),
    (b"enum E{A=1,B}x=B;", "accepted"),
    (b"enum E{};", "syntax"),
    (b"enum E{A,,B};", "syntax"),
    (b"enum E{A=(1,2),B=x?1:2};", "accepted"),
    (b"enum E{A=1,2};", "syntax"),
    (b"enum;", "syntax"),
    // Declarators (6.7.6).
    (
        b"int *const*volatile p,(*q)[3],(*f(int))(void);",
        "accepted",
    ),
    (b"int const*p;", "accepted"),
    (b"int *;", "syntax"),
    (b"int ();", "syntax"),
    (b"int (x;", "syntax"),
    (b"int a[][2],b[sizeof(int)];", "accepted"),
    (b"int a[1,2];", "syntax"),
    (b"int a[x=1];", "syntax"),
    // Parameters (6.7.6.3), with a declarator or without one.
    (b"int f(int a,char*,...);", "accepted"),
    (b"int f(...);", "syntax"),
    (b"int f(int,);", "syntax"),
    (b"int f(int*volatile p);", "accepted"),
    (b"int f(int*volatile);", "syntax"),
    (b"int f(int[]);", "syntax"),
    (b"int f(a);", "syntax"),
    (
        b"typedef void V; int f(V){return 1;} int main(void){f();return 0;}",
        "accepted",
    ),
    (b"int f(const void); int main(void){return 0;}", "accepted"),
    // Initialisers (6.7.9).
    (b"int a[]={1,2,},b={{1},{2}},c=x=1;", "accepted"),
    (b"int a[]={};", "syntax"),
    (b"int a={1,,2};", "syntax"),
    (b"int a=1,2;", "syntax"),
    (b"int a={[0]=1};", "syntax"),
    (b"int a=;", "syntax"),
    (b"int f(void)={1};", "accepted"),
    (b"int a={.x=1};", "syntax"),
    (b"int a={1;", "syntax"),
];

// What has no meaning: `__extension__`, and `__attribute__` with balanced brackets.
static ATTRIBUTES: [(&[u8], &str); 14] = [
    (
        b"int f(void) __attribute__((a([{}])));int main(void){return 0;}",
        "accepted",
    ),
    (
        b"__attribute__((a))int __attribute__(())x __attribute__((b)),y;",
        "accepted",
    ),
    (b"__extension__ int __extension__ x;", "accepted"),
    (
        b"int main(void){return sizeof(__extension__ int);}",
        "accepted",
    ),
    (b"int f(void) __attribute__((a)){return 0;}", "accepted"),
    (b"int x __attribute__((a([)]));", "syntax"),
    (b"int x __attribute__((a);", "syntax"),
    (b"int x __attribute__(a);", "syntax"),
    (
        b"struct __attribute__((packed)) S{int a;}; int main(void){return 0;}",
        "syntax",
    ),
    (b"int *__attribute__((a)) x;", "syntax"),
    (b"struct S{int a:1 __attribute__((b));};", "syntax"),
    (b"int main(void){L:__attribute__((a));}", "syntax"),
    (
        b"int main(void){__attribute__((fallthrough));return 0;}",
        "syntax",
    ),
    (b"int main(void){__extension__ 1;}", "syntax"),
];

#[test]
fn declarations(rt: HostRuntime) -> Result<(), Fail> {
    for (text, wanted) in &DECLARATIONS {
        assert_eq!(rt; answer(rt.alloc(), text)?.as_str(), *wanted, "{text:?}");
    }
    Ok(())
}

#[test]
fn attributes(rt: HostRuntime) -> Result<(), Fail> {
    for (text, wanted) in &ATTRIBUTES {
        assert_eq!(rt; answer(rt.alloc(), text)?.as_str(), *wanted, "{text:?}");
    }
    Ok(())
}
