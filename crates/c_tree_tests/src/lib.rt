//! Small trees, and their copies with ample memory.
#![tactic(auto)]

#[cfg(test)]
mod copies;

use c_tree::{
    BaseWord, BlockItem, Branch, Declaration, Declarator, Declared, DeclaredNames, EnumConstant,
    Expression, External, Externals, Initialiser, Member, MemberLine, Parameter, Qualifier,
    Specifier, Statement, TokenLines, Tree, TypeName,
};
use kv_base::{Bytes, NoMemory, Sequence};
use kv_num::IntType;
use sqlite_items::{Boxed, Items};
use std::alloc::Global;

/// `7`
pub fn seven() -> Expression {
    Expression::Constant {
        kind: IntType::Int,
        value: 7,
        at: 2,
    }
}

/// `x[7]`
pub fn element(alloc: Global) -> Result<Expression, NoMemory> {
    let name = Bytes::from_slice(alloc, b"x")?;
    let array = Boxed::new(alloc, Expression::Name { name, at: 0 })?;
    let index = Boxed::new(alloc, seven())?;
    Ok(Expression::Subscript {
        array,
        index,
        at: 1,
    })
}

/// `int`
pub fn specifiers(alloc: Global) -> Result<Items<Specifier>, NoMemory> {
    let mut made = Items::new(alloc);
    made.push(Specifier::Base {
        word: BaseWord::Int,
        at: 0,
    })?;
    Ok(made)
}

/// `*const x`
pub fn declarator(alloc: Global) -> Result<Declarator, NoMemory> {
    let name = Bytes::from_slice(alloc, b"x")?;
    let inner = Boxed::new(alloc, Declarator::Name { name, at: 3 })?;
    let qualifiers = Sequence::from_slice(alloc, &[Qualifier::Const])?;
    Ok(Declarator::Pointer {
        qualifiers,
        inner,
        at: 1,
    })
}

/// `int *const x`
pub fn parameter(alloc: Global) -> Result<Parameter, NoMemory> {
    let specifiers = specifiers(alloc)?;
    let declarator = declarator(alloc)?;
    Ok(Parameter {
        specifiers,
        declarator,
    })
}

/// `int`, as the name of a type
pub fn type_name(alloc: Global) -> Result<TypeName, NoMemory> {
    let specifiers = specifiers(alloc)?;
    Ok(TypeName {
        specifiers,
        declarator: Declarator::Unnamed { at: 1 },
    })
}

/// `*const x:7`
pub fn bit_field(alloc: Global) -> Result<Member, NoMemory> {
    Ok(Member::BitField {
        declarator: declarator(alloc)?,
        width: seven(),
        at: 4,
    })
}

/// `int *const x:7;`
pub fn member_line(alloc: Global) -> Result<MemberLine, NoMemory> {
    let specifiers = specifiers(alloc)?;
    let mut members = Items::new(alloc);
    members.push(bit_field(alloc)?)?;
    Ok(MemberLine {
        specifiers,
        members,
    })
}

/// `x = 7`, in an enumeration
pub fn enum_constant(alloc: Global) -> Result<EnumConstant, NoMemory> {
    Ok(EnumConstant::Valued {
        name: Bytes::from_slice(alloc, b"x")?,
        value: seven(),
        at: 0,
    })
}

/// `struct { int *const x:7; }`
pub fn structure(alloc: Global) -> Result<Specifier, NoMemory> {
    let mut lines = Items::new(alloc);
    lines.push(member_line(alloc)?)?;
    Ok(Specifier::Struct {
        tag: None,
        lines,
        at: 0,
    })
}

/// `{7}`
pub fn braces(alloc: Global) -> Result<Initialiser, NoMemory> {
    let mut parts = Items::new(alloc);
    parts.push(Initialiser::Value {
        value: seven(),
        at: 6,
    })?;
    Ok(Initialiser::Braces { parts, at: 5 })
}

/// `*const x = {7}`
pub fn declared(alloc: Global) -> Result<Declared, NoMemory> {
    let declarator = declarator(alloc)?;
    let initialiser = braces(alloc)?;
    Ok(Declared::Initialised {
        declarator,
        initialiser,
        at: 4,
    })
}

/// `int *const x = {7};`
pub fn declaration(alloc: Global) -> Result<Declaration, NoMemory> {
    let specifiers = specifiers(alloc)?;
    let mut names = DeclaredNames::new(alloc);
    names.push(declared(alloc)?)?;
    Ok(Declaration {
        specifiers,
        names,
        at: 8,
    })
}

/// `if (7) continue;`
pub fn branch() -> Branch {
    Branch {
        test: seven(),
        body: Statement::Continue { at: 4 },
        at: 0,
    }
}

/// `if (7) continue; else break;`
pub fn choice(alloc: Global) -> Result<Statement, NoMemory> {
    let mut branches = Items::new(alloc);
    branches.push(branch())?;
    let otherwise = Boxed::new(alloc, Statement::Break { at: 7 })?;
    Ok(Statement::IfElse {
        branches,
        otherwise,
    })
}

/// The choice, and then `return 7;`
pub fn block_items(alloc: Global) -> Result<Items<BlockItem>, NoMemory> {
    let mut items = Items::new(alloc);
    items.push(BlockItem::Run {
        statement: choice(alloc)?,
    })?;
    items.push(BlockItem::Run {
        statement: Statement::Return {
            value: Some(seven()),
            at: 9,
        },
    })?;
    Ok(items)
}

/// `int *const x { .. }`
pub fn definition(alloc: Global) -> Result<External, NoMemory> {
    let specifiers = specifiers(alloc)?;
    let declarator = declarator(alloc)?;
    let body = block_items(alloc)?;
    Ok(External::Defined {
        specifiers,
        declarator,
        body,
        at: 4,
    })
}

/// A definition, and then `;`
pub fn tree(alloc: Global) -> Result<Tree, NoMemory> {
    let mut externals = Externals::new(alloc);
    externals.push(definition(alloc)?)?;
    externals.push(External::Empty { at: 20 })?;
    let lines = TokenLines::from_slice(alloc, &[1, 1, 2])?;
    Ok(Tree { externals, lines })
}
