use crate::token_places;
use std::test::Fail;

// What else of a text's tokens a tree names: a `...`, the first token of an initialiser, and the line of each.
static PLACES: [(&[u8], &str); 7] = [
    (b"int f(int a,...);", "... 6 in line 1"),
    (
        b"int f(int a,\n__extension__ int,\n...\n);",
        "... 9 in line 3",
    ),
    (b"int x=1+2;", "value 3 in line 1"),
    (b"int x=\n(1)+2;", "value 3 in line 2"),
    (b"int x __attribute__((a))\n=\n((1));", "value 9 in line 3"),
    (
        b"int x[]={1,\n(2),\n\n(3)+4,};",
        "value 6 in line 1; value 8 in line 2; value 12 in line 4",
    ),
    (
        b"int f(int(*g)(int,...),\n...),x=(1);",
        "... 14 in line 2; value 19 in line 2",
    ),
];

#[test]
fn tokens_of_a_tree(rt: HostRuntime) -> Result<(), Fail> {
    for (text, wanted) in &PLACES {
        assert_eq!(rt;
            token_places(rt.alloc(), text)?.as_str(),
            *wanted,
            "{text:?}"
        );
    }
    Ok(())
}
