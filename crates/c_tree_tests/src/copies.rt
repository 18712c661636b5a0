use crate::{
    bit_field, block_items, braces, branch, choice, declaration, declarator, declared, definition,
    element, enum_constant, member_line, parameter, seven, specifiers, structure, tree, type_name,
};
use c_text_copies::{
    copy_block_item, copy_block_items, copy_branch, copy_declaration, copy_declared, copy_external,
    copy_for_start, copy_initialiser, copy_statement, copy_tree,
};
use c_tree::{BlockItem, ForStart};
use c_tree_copies::{
    copy_declarator, copy_enum_constant, copy_expression, copy_member, copy_member_line,
    copy_parameter, copy_specifier, copy_specifiers, copy_type_name,
};
use std::alloc::Global;
use std::fmt::Debug;
use std::process::Abort;
use std::test::Fail;

/// Both are shown alike.
fn are_alike<T: Debug>(rt: &impl Abort, alloc: Global, made: &T, copied: &T) -> Result<(), Fail> {
    let wanted = format!(in alloc; "{made:?}")?;
    let found = format!(in alloc; "{copied:?}")?;
    assert_eq!(rt; found.as_str(), wanted.as_str());
    Ok(())
}

#[test]
fn expressions(rt: HostRuntime) -> Result<(), Fail> {
    let alloc = rt.alloc();
    let made = element(alloc)?;
    let copied = copy_expression(alloc, &made)?;
    are_alike(&rt, alloc, &made, &copied)
}

#[test]
fn type_names(rt: HostRuntime) -> Result<(), Fail> {
    let alloc = rt.alloc();
    let made = type_name(alloc)?;
    let copied = copy_type_name(alloc, &made)?;
    are_alike(&rt, alloc, &made, &copied)
}

#[test]
fn specifiers_of_structs(rt: HostRuntime) -> Result<(), Fail> {
    let alloc = rt.alloc();
    let made = structure(alloc)?;
    let copied = copy_specifier(alloc, &made)?;
    are_alike(&rt, alloc, &made, &copied)
}

#[test]
fn lists_of_specifiers(rt: HostRuntime) -> Result<(), Fail> {
    let alloc = rt.alloc();
    let made = specifiers(alloc)?;
    let copied = copy_specifiers(alloc, &made)?;
    are_alike(&rt, alloc, &made, &copied)
}

#[test]
fn declarators(rt: HostRuntime) -> Result<(), Fail> {
    let alloc = rt.alloc();
    let made = declarator(alloc)?;
    let copied = copy_declarator(alloc, &made)?;
    are_alike(&rt, alloc, &made, &copied)
}

#[test]
fn parameters(rt: HostRuntime) -> Result<(), Fail> {
    let alloc = rt.alloc();
    let made = parameter(alloc)?;
    let copied = copy_parameter(alloc, &made)?;
    are_alike(&rt, alloc, &made, &copied)
}

#[test]
fn members(rt: HostRuntime) -> Result<(), Fail> {
    let alloc = rt.alloc();
    let made = bit_field(alloc)?;
    let copied = copy_member(alloc, &made)?;
    are_alike(&rt, alloc, &made, &copied)
}

#[test]
fn lines_of_members(rt: HostRuntime) -> Result<(), Fail> {
    let alloc = rt.alloc();
    let made = member_line(alloc)?;
    let copied = copy_member_line(alloc, &made)?;
    are_alike(&rt, alloc, &made, &copied)
}

#[test]
fn enumeration_constants(rt: HostRuntime) -> Result<(), Fail> {
    let alloc = rt.alloc();
    let made = enum_constant(alloc)?;
    let copied = copy_enum_constant(alloc, &made)?;
    are_alike(&rt, alloc, &made, &copied)
}

#[test]
fn initialisers(rt: HostRuntime) -> Result<(), Fail> {
    let alloc = rt.alloc();
    let made = braces(alloc)?;
    let copied = copy_initialiser(alloc, &made)?;
    are_alike(&rt, alloc, &made, &copied)
}

#[test]
fn declared_names(rt: HostRuntime) -> Result<(), Fail> {
    let alloc = rt.alloc();
    let made = declared(alloc)?;
    let copied = copy_declared(alloc, &made)?;
    are_alike(&rt, alloc, &made, &copied)
}

#[test]
fn declarations(rt: HostRuntime) -> Result<(), Fail> {
    let alloc = rt.alloc();
    let made = declaration(alloc)?;
    let copied = copy_declaration(alloc, &made)?;
    are_alike(&rt, alloc, &made, &copied)
}

#[test]
fn first_parts_of_for(rt: HostRuntime) -> Result<(), Fail> {
    let alloc = rt.alloc();
    let made = ForStart::Value { value: seven() };
    let copied = copy_for_start(alloc, &made)?;
    are_alike(&rt, alloc, &made, &copied)
}

#[test]
fn branches(rt: HostRuntime) -> Result<(), Fail> {
    let alloc = rt.alloc();
    let made = branch();
    let copied = copy_branch(alloc, &made)?;
    are_alike(&rt, alloc, &made, &copied)
}

#[test]
fn statements(rt: HostRuntime) -> Result<(), Fail> {
    let alloc = rt.alloc();
    let made = choice(alloc)?;
    let copied = copy_statement(alloc, &made)?;
    are_alike(&rt, alloc, &made, &copied)
}

#[test]
fn block_items_alone(rt: HostRuntime) -> Result<(), Fail> {
    let alloc = rt.alloc();
    let made = BlockItem::Declared {
        declaration: declaration(alloc)?,
    };
    let copied = copy_block_item(alloc, &made)?;
    are_alike(&rt, alloc, &made, &copied)
}

#[test]
fn lists_of_block_items(rt: HostRuntime) -> Result<(), Fail> {
    let alloc = rt.alloc();
    let made = block_items(alloc)?;
    let copied = copy_block_items(alloc, &made)?;
    are_alike(&rt, alloc, &made, &copied)
}

#[test]
fn external_declarations(rt: HostRuntime) -> Result<(), Fail> {
    let alloc = rt.alloc();
    let made = definition(alloc)?;
    let copied = copy_external(alloc, &made)?;
    are_alike(&rt, alloc, &made, &copied)
}

#[test]
fn trees(rt: HostRuntime) -> Result<(), Fail> {
    let alloc = rt.alloc();
    let made = tree(alloc)?;
    let copied = copy_tree(alloc, &made)?;
    are_alike(&rt, alloc, &made, &copied)
}
