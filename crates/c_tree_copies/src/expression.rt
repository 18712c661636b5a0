//! Copies of expressions, and of the types that stand in them. What reaches itself is copied by functions that reach
//! one another.

ghost use Rattle.std.specs.Prelude.{◌≡◌, IfOk};

use c_boxes::{all_three, both};
use c_tree::{
    Declarator, EnumConstant, Expression, Member, MemberLine, Parameter, Specifier, TypeName,
};
use kv_base::{Bytes, Copied, NoMemory, Sequence};
use sqlite_items::{Boxed, Items};
use std::alloc::Global;

/// An equal expression, or out of memory.
#[cycle(copies)]
pub fn copy_expression(alloc: Global, x: &Expression) -> Result<Expression, NoMemory>
    ensures { IfOk result (λ made. made ≡ x.now) }
{
    match x {
        Expression::Name { name, at } => Ok(Expression::Name {
            name: name.copy(alloc)?,
            at: *at,
        }),
        Expression::Constant { kind, value, at } => Ok(Expression::Constant {
            kind: *kind,
            value: *value,
            at: *at,
        }),
        Expression::Text { at } => Ok(Expression::Text { at: *at }),
        Expression::Subscript { array, index, at } => {
            let (array, index) = both(copy_boxed(alloc, array), copy_boxed(alloc, index))?;
            Ok(Expression::Subscript {
                array,
                index,
                at: *at,
            })
        }
        Expression::Call {
            function,
            arguments,
            at,
        } => {
            let (function, arguments) = both(
                copy_boxed(alloc, function),
                copy_expressions(alloc, arguments),
            )?;
            Ok(Expression::Call {
                function,
                arguments,
                at: *at,
            })
        }
        Expression::Member { object, name, at } => {
            let (object, name) = both(copy_boxed(alloc, object), name.copy(alloc))?;
            Ok(Expression::Member {
                object,
                name,
                at: *at,
            })
        }
        Expression::PointedMember { pointer, name, at } => {
            let (pointer, name) = both(copy_boxed(alloc, pointer), name.copy(alloc))?;
            Ok(Expression::PointedMember {
                pointer,
                name,
                at: *at,
            })
        }
        Expression::Postfix { step, operand, at } => Ok(Expression::Postfix {
            step: *step,
            operand: copy_boxed(alloc, operand)?,
            at: *at,
        }),
        Expression::Prefix { step, operand, at } => Ok(Expression::Prefix {
            step: *step,
            operand: copy_boxed(alloc, operand)?,
            at: *at,
        }),
        Expression::Unary {
            operator,
            operand,
            at,
        } => Ok(Expression::Unary {
            operator: *operator,
            operand: copy_boxed(alloc, operand)?,
            at: *at,
        }),
        Expression::SizeofExpression { operand, at } => Ok(Expression::SizeofExpression {
            operand: copy_boxed(alloc, operand)?,
            at: *at,
        }),
        Expression::SizeofType { type_name, at } => Ok(Expression::SizeofType {
            type_name: copy_boxed_type(alloc, type_name)?,
            at: *at,
        }),
        Expression::Cast {
            type_name,
            operand,
            at,
        } => {
            let (type_name, operand) = both(
                copy_boxed_type(alloc, type_name),
                copy_boxed(alloc, operand),
            )?;
            Ok(Expression::Cast {
                type_name,
                operand,
                at: *at,
            })
        }
        Expression::Binary {
            operator,
            left,
            right,
            at,
        } => {
            let (left, right) = both(copy_boxed(alloc, left), copy_boxed(alloc, right))?;
            Ok(Expression::Binary {
                operator: *operator,
                left,
                right,
                at: *at,
            })
        }
        Expression::Conditional {
            test,
            then,
            otherwise,
            at,
        } => {
            let (test, then, otherwise) = all_three(
                copy_boxed(alloc, test),
                copy_boxed(alloc, then),
                copy_boxed(alloc, otherwise),
            )?;
            Ok(Expression::Conditional {
                test,
                then,
                otherwise,
                at: *at,
            })
        }
        Expression::Assign {
            operator,
            target,
            value,
            at,
        } => {
            let (target, value) = both(copy_boxed(alloc, target), copy_boxed(alloc, value))?;
            Ok(Expression::Assign {
                operator: *operator,
                target,
                value,
                at: *at,
            })
        }
        Expression::Comma { parts, at } => Ok(Expression::Comma {
            parts: copy_expressions(alloc, parts)?,
            at: *at,
        }),
    }
}

/// An equal operand.
#[cycle(copies)]
fn copy_boxed(alloc: Global, x: &Boxed<Expression>) -> Result<Boxed<Expression>, NoMemory>
    ensures { IfOk result (λ made. made ≡ x.now) }
{
    Boxed::new(alloc, copy_expression(alloc, x.get())?)
}

/// Equal expressions.
#[cycle(copies)]
fn copy_expressions(alloc: Global, items: &Items<Expression>) -> Result<Items<Expression>, NoMemory>
    ensures { IfOk result (λ made. made ≡ items.now) }
{
    let mut made = Items::new(alloc);
    for item in items.as_slice() {
        made.push(copy_expression(alloc, item)?)?;
    }
    Ok(made)
}

/// An equal type name of a cast or `sizeof`.
#[cycle(copies)]
fn copy_boxed_type(alloc: Global, x: &Boxed<TypeName>) -> Result<Boxed<TypeName>, NoMemory>
    ensures { IfOk result (λ made. made ≡ x.now) }
{
    Boxed::new(alloc, copy_type_name(alloc, x.get())?)
}

/// An equal type name.
#[cycle(copies)]
pub fn copy_type_name(alloc: Global, x: &TypeName) -> Result<TypeName, NoMemory>
    ensures { IfOk result (λ made. made ≡ x.now) }
{
    let (specifiers, declarator) = both(
        copy_specifiers(alloc, &x.specifiers),
        copy_declarator(alloc, &x.declarator),
    )?;
    Ok(TypeName {
        specifiers,
        declarator,
    })
}

/// Equal specifiers.
#[cycle(copies)]
pub fn copy_specifiers(
    alloc: Global,
    items: &Items<Specifier>,
) -> Result<Items<Specifier>, NoMemory>
    ensures { IfOk result (λ made. made ≡ items.now) }
{
    let mut made = Items::new(alloc);
    for item in items.as_slice() {
        made.push(copy_specifier(alloc, item)?)?;
    }
    Ok(made)
}

/// An equal tag, if there is one.
fn copy_tag(alloc: Global, tag: &Option<Bytes>) -> Result<Option<Bytes>, NoMemory>
    ensures { IfOk result (λ made. made ≡ tag.now) }
{
    match tag {
        Some(name) => Ok(Some(name.copy(alloc)?)),
        None => Ok(None),
    }
}

/// An equal specifier.
#[cycle(copies)]
pub fn copy_specifier(alloc: Global, x: &Specifier) -> Result<Specifier, NoMemory>
    ensures { IfOk result (λ made. made ≡ x.now) }
{
    match x {
        Specifier::Storage { word, at } => Ok(Specifier::Storage {
            word: *word,
            at: *at,
        }),
        Specifier::Function { word, at } => Ok(Specifier::Function {
            word: *word,
            at: *at,
        }),
        Specifier::Qualified { qualifier, at } => Ok(Specifier::Qualified {
            qualifier: *qualifier,
            at: *at,
        }),
        Specifier::Base { word, at } => Ok(Specifier::Base {
            word: *word,
            at: *at,
        }),
        Specifier::TypeWord { kind, at } => Ok(Specifier::TypeWord {
            kind: *kind,
            at: *at,
        }),
        Specifier::Struct { tag, lines, at } => {
            let (tag, lines) = both(copy_tag(alloc, tag), copy_member_lines(alloc, lines))?;
            Ok(Specifier::Struct {
                tag,
                lines,
                at: *at,
            })
        }
        Specifier::StructTag { tag, at } => Ok(Specifier::StructTag {
            tag: tag.copy(alloc)?,
            at: *at,
        }),
        Specifier::Enum { tag, constants, at } => {
            let (tag, constants) = both(
                copy_tag(alloc, tag),
                copy_enum_constants(alloc, constants),
            )?;
            Ok(Specifier::Enum {
                tag,
                constants,
                at: *at,
            })
        }
        Specifier::EnumTag { tag, at } => Ok(Specifier::EnumTag {
            tag: tag.copy(alloc)?,
            at: *at,
        }),
        Specifier::TypedefName { name, at } => Ok(Specifier::TypedefName {
            name: name.copy(alloc)?,
            at: *at,
        }),
    }
}

/// Equal declarations of a struct.
#[cycle(copies)]
fn copy_member_lines(
    alloc: Global,
    items: &Items<MemberLine>,
) -> Result<Items<MemberLine>, NoMemory>
    ensures { IfOk result (λ made. made ≡ items.now) }
{
    let mut made = Items::new(alloc);
    for item in items.as_slice() {
        made.push(copy_member_line(alloc, item)?)?;
    }
    Ok(made)
}

/// An equal declaration of a struct.
#[cycle(copies)]
pub fn copy_member_line(alloc: Global, x: &MemberLine) -> Result<MemberLine, NoMemory>
    ensures { IfOk result (λ made. made ≡ x.now) }
{
    let (specifiers, members) = both(
        copy_specifiers(alloc, &x.specifiers),
        copy_members(alloc, &x.members),
    )?;
    Ok(MemberLine {
        specifiers,
        members,
    })
}

/// Equal members.
#[cycle(copies)]
fn copy_members(alloc: Global, items: &Items<Member>) -> Result<Items<Member>, NoMemory>
    ensures { IfOk result (λ made. made ≡ items.now) }
{
    let mut made = Items::new(alloc);
    for item in items.as_slice() {
        made.push(copy_member(alloc, item)?)?;
    }
    Ok(made)
}

/// An equal member.
#[cycle(copies)]
pub fn copy_member(alloc: Global, x: &Member) -> Result<Member, NoMemory>
    ensures { IfOk result (λ made. made ≡ x.now) }
{
    match x {
        Member::Plain { declarator: inner } => Ok(Member::Plain {
            declarator: copy_declarator(alloc, inner)?,
        }),
        Member::BitField {
            declarator: inner,
            width,
            at,
        } => {
            let (declarator, width) = both(
                copy_declarator(alloc, inner),
                copy_expression(alloc, width),
            )?;
            Ok(Member::BitField {
                declarator,
                width,
                at: *at,
            })
        }
        Member::UnnamedBitField { width, at } => Ok(Member::UnnamedBitField {
            width: copy_expression(alloc, width)?,
            at: *at,
        }),
    }
}

/// Equal enumeration constants.
#[cycle(copies)]
fn copy_enum_constants(
    alloc: Global,
    items: &Items<EnumConstant>,
) -> Result<Items<EnumConstant>, NoMemory>
    ensures { IfOk result (λ made. made ≡ items.now) }
{
    let mut made = Items::new(alloc);
    for item in items.as_slice() {
        made.push(copy_enum_constant(alloc, item)?)?;
    }
    Ok(made)
}

/// An equal enumeration constant.
#[cycle(copies)]
pub fn copy_enum_constant(alloc: Global, x: &EnumConstant) -> Result<EnumConstant, NoMemory>
    ensures { IfOk result (λ made. made ≡ x.now) }
{
    match x {
        EnumConstant::Next { name, at } => Ok(EnumConstant::Next {
            name: name.copy(alloc)?,
            at: *at,
        }),
        EnumConstant::Valued { name, value, at } => {
            let (name, value) = both(name.copy(alloc), copy_expression(alloc, value))?;
            Ok(EnumConstant::Valued {
                name,
                value,
                at: *at,
            })
        }
    }
}

/// An equal declarator.
#[cycle(copies)]
pub fn copy_declarator(alloc: Global, x: &Declarator) -> Result<Declarator, NoMemory>
    ensures { IfOk result (λ made. made ≡ x.now) }
{
    match x {
        Declarator::Name { name, at } => Ok(Declarator::Name {
            name: name.copy(alloc)?,
            at: *at,
        }),
        Declarator::Unnamed { at } => Ok(Declarator::Unnamed { at: *at }),
        Declarator::Pointer {
            qualifiers,
            inner,
            at,
        } => {
            let (qualifiers, inner) = both(
                Sequence::from_slice(alloc, qualifiers.as_slice()),
                copy_boxed_declarator(alloc, inner),
            )?;
            Ok(Declarator::Pointer {
                qualifiers,
                inner,
                at: *at,
            })
        }
        Declarator::Array { inner, size, at } => {
            let (inner, size) = both(copy_boxed_declarator(alloc, inner), copy_boxed(alloc, size))?;
            Ok(Declarator::Array {
                inner,
                size,
                at: *at,
            })
        }
        Declarator::OpenArray { inner, at } => Ok(Declarator::OpenArray {
            inner: copy_boxed_declarator(alloc, inner)?,
            at: *at,
        }),
        Declarator::Function {
            inner,
            parameters: list,
            variadic,
            at,
        } => {
            let (inner, parameters) = both(
                copy_boxed_declarator(alloc, inner),
                copy_parameters(alloc, list),
            )?;
            Ok(Declarator::Function {
                inner,
                parameters,
                variadic: *variadic,
                at: *at,
            })
        }
    }
}

/// An equal inner declarator.
#[cycle(copies)]
fn copy_boxed_declarator(
    alloc: Global,
    x: &Boxed<Declarator>,
) -> Result<Boxed<Declarator>, NoMemory>
    ensures { IfOk result (λ made. made ≡ x.now) }
{
    Boxed::new(alloc, copy_declarator(alloc, x.get())?)
}

/// Equal parameters.
#[cycle(copies)]
fn copy_parameters(alloc: Global, items: &Items<Parameter>) -> Result<Items<Parameter>, NoMemory>
    ensures { IfOk result (λ made. made ≡ items.now) }
{
    let mut made = Items::new(alloc);
    for item in items.as_slice() {
        made.push(copy_parameter(alloc, item)?)?;
    }
    Ok(made)
}

/// An equal parameter.
#[cycle(copies)]
pub fn copy_parameter(alloc: Global, x: &Parameter) -> Result<Parameter, NoMemory>
    ensures { IfOk result (λ made. made ≡ x.now) }
{
    let (specifiers, declarator) = both(
        copy_specifiers(alloc, &x.specifiers),
        copy_declarator(alloc, &x.declarator),
    )?;
    Ok(Parameter {
        specifiers,
        declarator,
    })
}
