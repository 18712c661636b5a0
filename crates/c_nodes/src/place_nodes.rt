//! What nodes answer whose parts may lead to places, from the answers of their parts (C11 6.5.2.1, 6.5.2.3, 6.5.3).

ghost use Rattle.std.specs.Prelude.{◌≡◌, ◌+◌, ◌<◌, ◌^◌, IfOk};
ghost use Rattle.c_kinds.specs.declared.answer.Answer.TheVariants.{Gives};
ghost use Rattle.c_kinds.specs.Elements as elements;
ghost use Rattle.c_kinds.specs.Operands as operands;
ghost use Rattle.c_kinds.specs.Types as types;
ghost use Rattle.c_kinds.specs.Values as values;
ghost use Rattle.c_rules.specs.Typing as spec;
ghost use Rattle.c_operators.specs.Leads.{ElementLeads, ElementOfLeads, UsedLeads};
ghost use Rattle.c_operators.specs.Told.{GivesItsCells, HasItsCells, IsCounted, LeadsBy, layout_at};

use c_kinds::{Answer, Typed};
use c_operators::{
    Given, address, arithmetic, indirection, member, negation, pointed_member, subscript, used,
};
use c_tree::UnaryOperator;
use kv_base::NoMemory;

/// `object.name`.
pub fn member_node(
    given: &Given,
    at: usize,
    name: &[u8],
    object: &Answer,
) -> Result<Answer, NoMemory>
    requires token { at + 1 < 2 ^ 64 }
    requires counted { IsCounted (layout_at given.now) }
    requires room { GivesItsCells (layout_at given.now) object.now }
    ensures { let l = layout_at given.now in IfOk result (λ answer. answer ≡ values.part object.now (λ x. elements.member_answer l at name.now x)) }
{
    match object {
        Answer::Gives { typed } => {
            let answer = member(given, at, name, typed)?;
            Ok(answer)
        }
        _ => Ok(Answer::Nothing),
    }
}

/// `pointer->name`. If the pointer leads into a static object, `leads` is whether there are the cells of what it points
/// to.
#[tactic(auto, using(crate::proofs::Parts::used_gives, crate::proofs::Parts::used_breaks, crate::proofs::Parts::used_nothing))]
pub fn pointed_member_node(
    given: &Given,
    at: usize,
    name: &[u8],
    pointer: &Answer,
    leads: bool,
) -> Result<Answer, NoMemory>
    requires token { at + 1 < 2 ^ 64 }
    requires counted { IsCounted (layout_at given.now) }
    requires leads { UsedLeads (layout_at given.now) (values.used (layout_at given.now) pointer.now (λ v. Gives v)) leads }
    ensures value { let l = layout_at given.now in IfOk result (λ answer. answer ≡ values.used l pointer.now (λ p. elements.pointed_member_answer l at name.now p)) }
    ensures room { IfOk result (λ answer. GivesItsCells (layout_at given.now) answer) }
{
    let part = used(given, pointer)?;
    match part {
        Answer::Gives { typed } => {
            let answer = pointed_member(given, at, name, &typed, leads)?;
            Ok(answer)
        }
        part => Ok(part),
    }
}

/// An operator but `&` on a value. If it leads into a static object, `leads` is whether there are the cells of what it
/// points to.
#[tactic(auto, using(c_operators::proofs::PlaceRooms::arithmetic_kept, c_operators::proofs::PlaceRooms::negation_kept))]
pub fn unary(
    given: &Given,
    operator: UnaryOperator,
    at: usize,
    x: &Typed,
    leads: bool,
) -> Result<Answer, NoMemory>
    requires counted { IsCounted (layout_at given.now) }
    requires leads { LeadsBy (layout_at given.now) (types.inner x.now.ctype) x.now.fixed leads }
    ensures room { IfOk result (λ answer. GivesItsCells (layout_at given.now) answer) }
    ensures value { IfOk result (λ answer. answer ≡ operands.unary_answer (layout_at given.now) operator at x.now) }
{
    match operator {
        UnaryOperator::Indirection => {
            let answer = indirection(given, at, x, leads)?;
            Ok(answer)
        }
        UnaryOperator::Not => Ok(negation(given.alloc, at, x)),
        UnaryOperator::Address
        | UnaryOperator::Plus
        | UnaryOperator::Minus
        | UnaryOperator::Complement => Ok(arithmetic(given.alloc, operator, at, x)),
    }
}

/// `&` of a place.
#[tactic(auto, using(c_operators::proofs::PlaceRooms::address_kept))]
fn address_node(given: &Given, at: usize, operand: &Answer) -> Result<Answer, NoMemory>
    ensures room { IfOk result (λ answer. GivesItsCells (layout_at given.now) answer) }
    ensures value { IfOk result (λ answer. answer ≡ values.part operand.now (λ v. operands.address_answer at v)) }
{
    match operand {
        Answer::Gives { typed } => {
            let answer = address(given.alloc, at, typed)?;
            Ok(answer)
        }
        _ => Ok(Answer::Nothing),
    }
}

/// An operator but `&` on an operand.
#[tactic(auto, using(crate::proofs::Parts::used_gives, crate::proofs::Parts::used_breaks, crate::proofs::Parts::used_nothing))]
fn value_node(
    given: &Given,
    operator: UnaryOperator,
    at: usize,
    operand: &Answer,
    leads: bool,
) -> Result<Answer, NoMemory>
    requires counted { IsCounted (layout_at given.now) }
    requires leads { UsedLeads (layout_at given.now) (values.used (layout_at given.now) operand.now (λ v. Gives v)) leads }
    ensures room { IfOk result (λ answer. GivesItsCells (layout_at given.now) answer) }
    ensures value { let l = layout_at given.now in IfOk result (λ answer. answer ≡ values.used l operand.now (λ v. operands.unary_answer l operator at v)) }
{
    let part = used(given, operand)?;
    match part {
        Answer::Gives { typed } => {
            let answer = unary(given, operator, at, &typed, leads)?;
            Ok(answer)
        }
        part => Ok(part),
    }
}

/// An operator before an operand. If the operand's value leads into a static object, `leads` is whether there are the
/// cells of what it points to.
pub fn unary_node(
    given: &Given,
    operator: UnaryOperator,
    at: usize,
    operand: &Answer,
    leads: bool,
) -> Result<Answer, NoMemory>
    requires counted { IsCounted (layout_at given.now) }
    requires leads { UsedLeads (layout_at given.now) (values.used (layout_at given.now) operand.now (λ v. Gives v)) leads }
    ensures room { IfOk result (λ answer. GivesItsCells (layout_at given.now) answer) }
    ensures value { IfOk result (λ answer. answer ≡ spec.unary_node (layout_at given.now) operator at operand.now) }
{
    match operator {
        UnaryOperator::Address => {
            let answer = address_node(given, at, operand)?;
            Ok(answer)
        }
        _ => {
            let answer = value_node(given, operator, at, operand, leads)?;
            Ok(answer)
        }
    }
}

/// A subscript of what has this type.
#[tactic(auto, using(crate::proofs::Parts::used_gives, crate::proofs::Parts::used_breaks, crate::proofs::Parts::used_nothing))]
fn element_node(
    given: &Given,
    at: usize,
    a: &Typed,
    index: &Answer,
    leads: bool,
) -> Result<Answer, NoMemory>
    requires counted { IsCounted (layout_at given.now) }
    requires room { HasItsCells (layout_at given.now) a.now }
    requires leads { ElementOfLeads (layout_at given.now) a.now (values.used (layout_at given.now) index.now (λ v. Gives v)) leads }
    ensures { let l = layout_at given.now in IfOk result (λ answer. answer ≡ values.used l index.now (λ i. elements.subscript_answer l at a.now i)) }
{
    let part = used(given, index)?;
    match part {
        Answer::Gives { typed } => {
            let answer = subscript(given, at, a, &typed, leads)?;
            Ok(answer)
        }
        part => Ok(part),
    }
}

/// A subscript, at the `[`. If a pointer leads into a static object, `leads` is whether there are the cells of an
/// element.
pub fn subscript_node(
    given: &Given,
    at: usize,
    array: &Answer,
    index: &Answer,
    leads: bool,
) -> Result<Answer, NoMemory>
    requires counted { IsCounted (layout_at given.now) }
    requires room { GivesItsCells (layout_at given.now) array.now }
    requires leads { ElementLeads (layout_at given.now) array.now (values.used (layout_at given.now) index.now (λ v. Gives v)) leads }
    ensures { let l = layout_at given.now in IfOk result (λ answer. answer ≡ values.part array.now (λ a. values.used l index.now (λ i. elements.subscript_answer l at a i))) }
{
    match array {
        Answer::Gives { typed } => {
            let answer = element_node(given, at, typed, index, leads)?;
            Ok(answer)
        }
        _ => Ok(Answer::Nothing),
    }
}
