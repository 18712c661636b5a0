//! What stands at a token.

ghost use Rattle.std.specs.Prelude.{◌≡◌, slice_get};
ghost use Rattle.std.specs.Option.{option_copied};
ghost use Rattle.c_kinds.specs.Layouts.{flat};
ghost use Rattle.c_model.specs.Programs as spec;
ghost use Rattle.c_lookups.specs.Types.{seen};

use crate::types::{TypeView, or_void};
use c_kinds::CType;
use c_model::Program;
use c_rules::Meaning;
use c_tree::Expression;

/// The number of an expression's own token.
pub fn token_of(x: &Expression) -> usize
    ensures { result ≡ spec.token_of x.now }
{
    match x {
        Expression::Name { at, .. }
        | Expression::Constant { at, .. }
        | Expression::Text { at }
        | Expression::Subscript { at, .. }
        | Expression::Call { at, .. }
        | Expression::Member { at, .. }
        | Expression::PointedMember { at, .. }
        | Expression::Postfix { at, .. }
        | Expression::Prefix { at, .. }
        | Expression::Unary { at, .. }
        | Expression::SizeofExpression { at, .. }
        | Expression::SizeofType { at, .. }
        | Expression::Cast { at, .. }
        | Expression::Binary { at, .. }
        | Expression::Conditional { at, .. }
        | Expression::Assign { at, .. }
        | Expression::Comma { at, .. } => *at,
    }
}

/// The type that stands at a token, if one does.
fn found_type(program: &Program, at: usize) -> Option<&CType>
    ensures { option_copied result ≡ flat (slice_get program.now.types.expressions at) }
{
    match program.types.expressions.get(at) {
        Some(Some(ctype)) => Some(ctype),
        Some(None) | None => None,
    }
}

/// The type of the expression whose token this is, before conversions; an array is an array there.
pub fn type_at(program: &Program, at: usize) -> TypeView<'_>
    ensures { seen result ≡ spec.type_at program.now at }
{
    or_void(found_type(program, at))
}

/// The type of an expression.
pub fn type_of<'p>(program: &'p Program, x: &Expression) -> TypeView<'p>
    ensures { seen result ≡ spec.type_of program.now x.now }
{
    type_at(program, token_of(x))
}

/// What a name stands for.
pub fn meaning_at(program: &Program, at: usize) -> Option<&Meaning>
    ensures { option_copied result ≡ spec.meaning_at program.now at }
{
    match program.names.meanings.get(at) {
        Some(Some(meaning)) => Some(meaning),
        Some(None) | None => None,
    }
}

/// The value of a `case` label, in the type of its `switch` (C11 6.8.4.2p5).
pub fn case_at(program: &Program, at: usize) -> Option<i128>
    ensures { result ≡ spec.case_at program.now at }
{
    match program.types.cases.get(at) {
        Some(Some(value)) => Some(*value),
        Some(None) | None => None,
    }
}

/// The line of a token, counted from 1.
pub fn line_at(program: &Program, at: usize) -> u32
    ensures { result ≡ spec.line_at program.now at }
{
    match program.tree.lines.get(at) {
        Some(line) => *line,
        None => 1,
    }
}

/// The type that a type name names, by the `(` of its cast or its `sizeof` (C11 6.7.7).
pub fn type_named(program: &Program, at: usize) -> TypeView<'_>
    ensures { seen result ≡ spec.type_named program.now at }
{
    match meaning_at(program, at) {
        Some(Meaning::Type { ctype, .. }) => or_void(ctype.as_ref()),
        _ => or_void(None),
    }
}
