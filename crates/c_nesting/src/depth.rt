//! How deep trees are: how many expressions, specifiers, declarators, initialisers and statements lie in one another.

ghost use Rattle.std.specs.Prelude.{◌≡◌};
ghost use Rattle.c_tree.specs.declared.expression.Expression.{out-Expression};
ghost use Rattle.c_tree.specs.declared.expression.EnumConstant.{out-EnumConstant};
ghost use Rattle.c_tree.specs.declared.expression.Member.{out-Member};
ghost use Rattle.c_tree.specs.declared.expression.Specifier.{out-Specifier};
ghost use Rattle.c_tree.specs.declared.expression.Declarator.{out-Declarator};
ghost use Rattle.c_tree.specs.declared.declaration.Initialiser.{out-Initialiser};
ghost use Rattle.c_tree.specs.declared.statement.BlockItem.{out-BlockItem};
ghost use Rattle.c_tree.specs.declared.statement.Statement.{out-Statement};
ghost use Rattle.c_nesting.specs.Depth as spec;

use c_tree::{
    BlockItem, Branch, Declaration, Declarator, Declared, EnumConstant, Expression, External,
    ForStart, Initialiser, Member, MemberLine, Parameter, Specifier, Statement, Tree, TypeName,
};

/// Whether an expression is no deeper than this.
#[cycle(types)]
fn expression(x: &Expression, limit: usize) -> bool
    ensures { result ≡ spec.expression_fits x.now limit }
{
    if limit == 0 {
        return false;
    }
    expression_parts(x, limit - 1)
}

/// Whether the parts of an expression are no deeper than this.
#[cycle(types)]
fn expression_parts(x: &Expression, limit: usize) -> bool
    ensures { result ≡ spec.expression_parts spec.trees (out-Expression x.now) limit }
{
    match x {
        Expression::Name { .. } | Expression::Constant { .. } | Expression::Text { .. } => true,
        Expression::Subscript { array, index, .. } => {
            expression(array.get(), limit) && expression(index.get(), limit)
        }
        Expression::Call {
            function,
            arguments,
            ..
        } => expression(function.get(), limit) && expressions(arguments.as_slice(), limit),
        Expression::Member { object, .. } => expression(object.get(), limit),
        Expression::PointedMember { pointer, .. } => expression(pointer.get(), limit),
        Expression::Postfix { operand, .. } => expression(operand.get(), limit),
        Expression::Prefix { operand, .. } => expression(operand.get(), limit),
        Expression::Unary { operand, .. } => expression(operand.get(), limit),
        Expression::SizeofExpression { operand, .. } => expression(operand.get(), limit),
        Expression::SizeofType {
            type_name: named,
            ..
        } => type_name(named.get(), limit),
        Expression::Cast {
            type_name: named,
            operand,
            ..
        } => type_name(named.get(), limit) && expression(operand.get(), limit),
        Expression::Binary { left, right, .. } => {
            expression(left.get(), limit) && expression(right.get(), limit)
        }
        Expression::Conditional {
            test,
            then,
            otherwise,
            ..
        } => {
            expression(test.get(), limit)
                && (expression(then.get(), limit) && expression(otherwise.get(), limit))
        }
        Expression::Assign { target, value, .. } => {
            expression(target.get(), limit) && expression(value.get(), limit)
        }
        Expression::Comma { parts, .. } => expressions(parts.as_slice(), limit),
    }
}

/// Whether expressions are no deeper than this.
#[cycle(types)]
fn expressions(list: &[Expression], limit: usize) -> bool
    ensures { result ≡ spec.each spec.expression_fits list.now limit }
{
    for x in list {
        if !expression(x, limit) {
            return false;
        }
    }
    true
}

/// Whether a specifier is no deeper than this.
#[cycle(types)]
fn specifier(x: &Specifier, limit: usize) -> bool
    ensures { result ≡ spec.specifier_fits x.now limit }
{
    if limit == 0 {
        return false;
    }
    specifier_parts(x, limit - 1)
}

/// Whether the parts of a specifier are no deeper than this.
#[cycle(types)]
fn specifier_parts(x: &Specifier, limit: usize) -> bool
    ensures { result ≡ spec.specifier_parts spec.trees (out-Specifier x.now) limit }
{
    match x {
        Specifier::Struct { lines: list, .. } => lines(list.as_slice(), limit),
        Specifier::Enum {
            constants: list,
            ..
        } => constants(list.as_slice(), limit),
        _ => true,
    }
}

/// Whether specifiers are no deeper than this.
#[cycle(types)]
fn specifiers(list: &[Specifier], limit: usize) -> bool
    ensures { result ≡ spec.each spec.specifier_fits list.now limit }
{
    for x in list {
        if !specifier(x, limit) {
            return false;
        }
    }
    true
}

/// Whether a declarator is no deeper than this.
#[cycle(types)]
fn declarator(x: &Declarator, limit: usize) -> bool
    ensures { result ≡ spec.declarator_fits x.now limit }
{
    if limit == 0 {
        return false;
    }
    declarator_parts(x, limit - 1)
}

/// Whether the parts of a declarator are no deeper than this.
#[cycle(types)]
fn declarator_parts(x: &Declarator, limit: usize) -> bool
    ensures { result ≡ spec.declarator_parts spec.trees (out-Declarator x.now) limit }
{
    match x {
        Declarator::Name { .. } | Declarator::Unnamed { .. } => true,
        Declarator::Pointer { inner, .. } => declarator(inner.get(), limit),
        Declarator::Array { inner, size, .. } => {
            declarator(inner.get(), limit) && expression(size.get(), limit)
        }
        Declarator::OpenArray { inner, .. } => declarator(inner.get(), limit),
        Declarator::Function {
            inner,
            parameters: list,
            ..
        } => declarator(inner.get(), limit) && parameters(list.as_slice(), limit),
    }
}

/// Whether a line of a struct is no deeper than this.
#[cycle(types)]
#[tactic(auto, using(crate::proofs::Steps::line_deeper))]
fn line(x: &MemberLine, limit: usize) -> bool
    ensures { result ≡ spec.line_fits x.now limit }
{
    specifiers(x.specifiers.as_slice(), limit) && members(x.members.as_slice(), limit)
}

/// Whether the lines of a struct are no deeper than this.
#[cycle(types)]
fn lines(list: &[MemberLine], limit: usize) -> bool
    ensures { result ≡ spec.each spec.line_fits list.now limit }
{
    for x in list {
        if !line(x, limit) {
            return false;
        }
    }
    true
}

/// Whether a member is no deeper than this.
#[cycle(types)]
#[tactic(auto, using(crate::proofs::Steps::member_deeper))]
fn member(x: &Member, limit: usize) -> bool
    ensures { result ≡ spec.member_fits x.now limit }
{
    member_parts(x, limit)
}

/// The same, by its kind.
#[cycle(types)]
fn member_parts(x: &Member, limit: usize) -> bool
    ensures { result ≡ spec.member_parts spec.trees (out-Member x.now) limit }
{
    match x {
        Member::Plain { declarator: inner } => declarator(inner, limit),
        Member::BitField {
            declarator: inner,
            width,
            ..
        } => declarator(inner, limit) && expression(width, limit),
        Member::UnnamedBitField { width, .. } => expression(width, limit),
    }
}

/// Whether members are no deeper than this.
#[cycle(types)]
fn members(list: &[Member], limit: usize) -> bool
    ensures { result ≡ spec.each spec.member_fits list.now limit }
{
    for x in list {
        if !member(x, limit) {
            return false;
        }
    }
    true
}

/// Whether an enumeration constant is no deeper than this.
#[cycle(types)]
#[tactic(auto, using(crate::proofs::Steps::constant_deeper))]
fn constant(x: &EnumConstant, limit: usize) -> bool
    ensures { result ≡ spec.constant_fits x.now limit }
{
    constant_parts(x, limit)
}

/// The same, by its kind.
#[cycle(types)]
fn constant_parts(x: &EnumConstant, limit: usize) -> bool
    ensures { result ≡ spec.constant_parts spec.trees (out-EnumConstant x.now) limit }
{
    match x {
        EnumConstant::Next { .. } => true,
        EnumConstant::Valued { value, .. } => expression(value, limit),
    }
}

/// Whether enumeration constants are no deeper than this.
#[cycle(types)]
fn constants(list: &[EnumConstant], limit: usize) -> bool
    ensures { result ≡ spec.each spec.constant_fits list.now limit }
{
    for x in list {
        if !constant(x, limit) {
            return false;
        }
    }
    true
}

/// Whether a parameter is no deeper than this.
#[cycle(types)]
#[tactic(auto, using(crate::proofs::Steps::parameter_deeper))]
fn parameter(x: &Parameter, limit: usize) -> bool
    ensures { result ≡ spec.parameter_fits x.now limit }
{
    specifiers(x.specifiers.as_slice(), limit) && declarator(&x.declarator, limit)
}

/// Whether parameters are no deeper than this.
#[cycle(types)]
fn parameters(list: &[Parameter], limit: usize) -> bool
    ensures { result ≡ spec.each spec.parameter_fits list.now limit }
{
    for x in list {
        if !parameter(x, limit) {
            return false;
        }
    }
    true
}

/// Whether a type name is no deeper than this.
#[cycle(types)]
#[tactic(auto, using(crate::proofs::Steps::type_name_deeper))]
fn type_name(x: &TypeName, limit: usize) -> bool
    ensures { result ≡ spec.type_name_fits x.now limit }
{
    specifiers(x.specifiers.as_slice(), limit) && declarator(&x.declarator, limit)
}

/// Whether an initialiser is no deeper than this.
#[cycle(initialisers)]
fn initialiser(x: &Initialiser, limit: usize) -> bool
    ensures { result ≡ spec.initialiser_fits x.now limit }
{
    if limit == 0 {
        return false;
    }
    initialiser_parts(x, limit - 1)
}

/// Whether the parts of an initialiser are no deeper than this.
#[cycle(initialisers)]
fn initialiser_parts(x: &Initialiser, limit: usize) -> bool
    ensures { result ≡ spec.initialiser_parts spec.initialiser_fits (out-Initialiser x.now) limit }
{
    match x {
        Initialiser::Value { value, .. } => expression(value, limit),
        Initialiser::Braces { parts, .. } => initialisers(parts.as_slice(), limit),
    }
}

/// Whether initialisers are no deeper than this.
#[cycle(initialisers)]
fn initialisers(list: &[Initialiser], limit: usize) -> bool
    ensures { result ≡ spec.each spec.initialiser_fits list.now limit }
{
    for x in list {
        if !initialiser(x, limit) {
            return false;
        }
    }
    true
}

/// Whether a declarator with its initialiser is no deeper than this.
fn declared(x: &Declared, limit: usize) -> bool
    ensures { result ≡ spec.declared_fits x.now limit }
{
    match x {
        Declared::Plain { declarator: inner } => declarator(inner, limit),
        Declared::Initialised {
            declarator: inner,
            initialiser: value,
            ..
        } => declarator(inner, limit) && initialiser(value, limit),
    }
}

/// Whether the declarators of a declaration are no deeper than this.
fn all_declared(list: &[Declared], limit: usize) -> bool
    ensures { result ≡ spec.each spec.declared_fits list.now limit }
{
    for x in list {
        if !declared(x, limit) {
            return false;
        }
    }
    true
}

/// Whether a declaration is no deeper than this.
fn declaration(x: &Declaration, limit: usize) -> bool
    ensures { result ≡ spec.declaration_fits x.now limit }
{
    specifiers(x.specifiers.as_slice(), limit) && all_declared(x.names.as_slice(), limit)
}

/// Whether the first part of a `for` is no deeper than this.
fn start(x: &ForStart, limit: usize) -> bool
    ensures { result ≡ spec.start_fits x.now limit }
{
    match x {
        ForStart::Nothing => true,
        ForStart::Value { value } => expression(value, limit),
        ForStart::Declared { declaration: inner } => declaration(inner, limit),
    }
}

/// Whether an expression, if there is one, is no deeper than this.
fn optional(x: &Option<Expression>, limit: usize) -> bool
    ensures { result ≡ spec.if_any spec.expression_fits x.now limit }
{
    match x {
        None => true,
        Some(value) => expression(value, limit),
    }
}

/// Whether a statement is no deeper than this.
#[cycle(statements)]
fn statement(x: &Statement, limit: usize) -> bool
    ensures { result ≡ spec.statement_fits x.now limit }
{
    if limit == 0 {
        return false;
    }
    statement_parts(x, limit - 1)
}

/// Whether the parts of a statement are no deeper than this.
#[cycle(statements)]
fn statement_parts(x: &Statement, limit: usize) -> bool
    ensures { result ≡ spec.statement_parts spec.bodies (out-Statement x.now) limit }
{
    match x {
        Statement::Block { items: list, .. } => items(list.as_slice(), limit),
        Statement::Value { value, .. } => expression(value, limit),
        Statement::Label { body, .. } => statement(body.get(), limit),
        Statement::Case { value, body, .. } => {
            expression(value, limit) && statement(body.get(), limit)
        }
        Statement::Default { body, .. } => statement(body.get(), limit),
        Statement::If { branches: list } => branches(list.as_slice(), limit),
        Statement::IfElse {
            branches: list,
            otherwise,
        } => branches(list.as_slice(), limit) && statement(otherwise.get(), limit),
        Statement::Switch { value, body, .. } => {
            expression(value, limit) && statement(body.get(), limit)
        }
        Statement::While { test, body, .. } => {
            expression(test, limit) && statement(body.get(), limit)
        }
        Statement::Do { body, test, .. } => {
            statement(body.get(), limit) && expression(test, limit)
        }
        Statement::For {
            start: first,
            test,
            step,
            body,
            ..
        } => {
            (start(first, limit) && optional(test, limit))
                && (optional(step, limit) && statement(body.get(), limit))
        }
        Statement::Return { value, .. } => optional(value, limit),
        Statement::Empty { .. } | Statement::Break { .. } | Statement::Continue { .. } => true,
    }
}

/// Whether an item of a block is no deeper than this.
#[cycle(statements)]
#[tactic(auto, using(crate::proofs::Steps::item_deeper))]
fn item(x: &BlockItem, limit: usize) -> bool
    ensures { result ≡ spec.item_fits x.now limit }
{
    item_parts(x, limit)
}

/// The same, by its kind.
#[cycle(statements)]
fn item_parts(x: &BlockItem, limit: usize) -> bool
    ensures { result ≡ spec.item_parts spec.bodies (out-BlockItem x.now) limit }
{
    match x {
        BlockItem::Declared { declaration: inner } => declaration(inner, limit),
        BlockItem::Run { statement: inner } => statement(inner, limit),
    }
}

/// Whether the items of a block are no deeper than this.
#[cycle(statements)]
fn items(list: &[BlockItem], limit: usize) -> bool
    ensures { result ≡ spec.each spec.item_fits list.now limit }
{
    for x in list {
        if !item(x, limit) {
            return false;
        }
    }
    true
}

/// Whether a branch is no deeper than this.
#[cycle(statements)]
#[tactic(auto, using(crate::proofs::Steps::branch_deeper))]
fn branch(x: &Branch, limit: usize) -> bool
    ensures { result ≡ spec.branch_fits x.now limit }
{
    expression(&x.test, limit) && statement(&x.body, limit)
}

/// Whether branches are no deeper than this.
#[cycle(statements)]
fn branches(list: &[Branch], limit: usize) -> bool
    ensures { result ≡ spec.each spec.branch_fits list.now limit }
{
    for x in list {
        if !branch(x, limit) {
            return false;
        }
    }
    true
}

/// Whether an external declaration is no deeper than this.
fn external(x: &External, limit: usize) -> bool
    ensures { result ≡ spec.external_fits x.now limit }
{
    match x {
        External::Empty { .. } => true,
        External::Declared { declaration: inner } => declaration(inner, limit),
        External::Defined {
            specifiers: list,
            declarator: inner,
            body,
            ..
        } => {
            specifiers(list.as_slice(), limit)
                && (declarator(inner, limit) && items(body.as_slice(), limit))
        }
    }
}

/// Whether external declarations are no deeper than this.
fn externals(list: &[External], limit: usize) -> bool
    ensures { result ≡ spec.each spec.external_fits list.now limit }
{
    for x in list {
        if !external(x, limit) {
            return false;
        }
    }
    true
}

/// Whether a tree is no deeper than this.
pub fn fits(tree: &Tree, limit: usize) -> bool
    ensures { result ≡ spec.tree_fits tree.now limit }
{
    externals(tree.externals.as_slice(), limit)
}
