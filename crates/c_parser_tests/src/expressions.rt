use crate::shown;
use std::alloc::{AllocError, Global};
use std::test::Fail;

// What stands in `int main(void){..;}` (C11 6.5), and whether an expression does.
static EXPRESSIONS: [(&[u8], bool); 48] = [
    (b"x=y=1", true),
    (b"(x)=1", true),
    (b"*p++=1", true),
    (b"&x=1", true),
    (b"-x=1", true),
    (b"sizeof x=1", true),
    (b"x+y=1", false),
    (b"(int)x=1", false),
    (b"x?y=1:z", true),
    (b"x?y,z:w", true),
    (b"x?y:z=1", false),
    (b"x?y:z?u:v", true),
    (b"x?:z", false),
    (b"1=x", true),
    (b"x+=y-=z", true),
    (b"x==y==z", true),
    (b"x<y>z", true),
    (b"x||y&&z|u^v&w", true),
    (b"x<<1>>2+3*4%5/6-7", true),
    (b"x+", false),
    (b"+", false),
    (b"x y", false),
    (b"x,y,z", true),
    (b"x,", false),
    (b",x", false),
    (b"f()", true),
    (b"f(1,x=2)", true),
    (b"f(1,)", false),
    (b"f(1", false),
    (b"a[1][x,y]", true),
    (b"a[]", false),
    (b"x.y->z++--", true),
    (b"x.+1", false),
    (b"1++", true),
    (b"++x--", true),
    (b"++(int)x", false),
    (b"-(int)x", true),
    (b"sizeof(int)", true),
    (b"sizeof(int)x", false),
    (b"sizeof sizeof x", true),
    (b"(int)(char)x+y", true),
    (b"(int*const*[2])x", true),
    (b"(int)", false),
    (b"(int){1}", false),
    (b"(x", false),
    (b"\"a\"", true),
    (b"\"a\" \"b\"", false),
    (b"sizeof int", false),
];

fn shown_in_main(alloc: Global, expression: &[u8]) -> Result<String, AllocError> {
    let mut text = b"int main(void){".to_vec(alloc)?;
    text.extend_from_slice(expression)?;
    text.extend_from_slice(b";}")?;
    shown(alloc, &text)
}

#[test]
fn expressions(rt: HostRuntime) -> Result<(), Fail> {
    for (text, is_one) in &EXPRESSIONS {
        let wanted = if *is_one { "value" } else { "syntax" };
        assert_eq!(rt;
            shown_in_main(rt.alloc(), text)?.as_str(),
            wanted,
            "{text:?}"
        );
    }
    Ok(())
}
