ghost use Rattle.std.specs.Prelude.{◌≡◌, ◌<◌, ◌≤◌, ◌+◌, ℕ, ℤ, length, nat_eq, IfOk, OnOk, IfSome};
ghost use Rattle.std.specs.List.{All};
ghost use Rattle.indexmap.specs.IndexMap.{get};
ghost use Rattle.term_core.specs.Shape.{IsShape};
ghost use Rattle.term_core.specs.Table.{shape_at, kind_value, term_value, Agrees, IsTermAt, Grows};
ghost use Rattle.term_fold.specs.Folded.{Stands, simpler_value, Replaces, IsSame, AllSame, renamed_id, renamed_kind, NamesBelow};

use crate::NoMemory;
use crate::simpler::{Simpler, simplify};
use indexmap::IndexMap;
use kv_base::Stack;
use std::alloc::Global;
use term_core::{Shape, Term, TermId, TermKind, Terms};

/// Adds what takes the place of a term.
#[tactic(auto, using(crate::proofs::Renamed::added))]
fn placed(terms: &mut Terms, shape: Shape, simpler: Simpler) -> Result<TermId, NoMemory>
    requires shape { IsShape shape }
    requires stands { Stands terms.old shape simpler }
    ensures replaces { IfOk result (Replaces terms.new shape (λ E V. simpler_value E V terms.old shape simpler)) }
    ensures kept { Grows terms.old terms.new }
{
    terms.values_are_fixed();
    match simpler {
        Simpler::Same(id) => Ok(id),
        Simpler::Computed(number) => terms.add(Term {
            shape,
            kind: TermKind::Constant { number },
        }),
        Simpler::Other(kind) => terms.add(Term { shape, kind }),
    }
}

/// Adds a term, or what is simpler.
#[tactic(auto, using(crate::proofs::Renamed::replaced_by))]
fn simplified(terms: &mut Terms, term: Term) -> Result<TermId, NoMemory>
    requires { IsTermAt terms.old (length terms.old) term }
    ensures replaces { IfOk result (Replaces terms.new term.shape (λ E V. kind_value E V terms.old term.shape term.kind)) }
    ensures kept { Grows terms.old terms.new }
{
    let simpler = simplify(terms, term.shape, term.kind);
    placed(terms, term.shape, simpler)
}

/// Adds a term over folded ones, or what is simpler: a term of the same shape and with the same value in every
/// environment. Only the term and its operands are looked at. Earlier terms keep their numbers, also without memory for
/// the answer.
#[tactic(auto, using(crate::proofs::Renamed::replaced_by))]
pub fn add_folded(terms: &mut Terms, term: Term) -> Result<TermId, NoMemory>
    requires { IsTermAt terms.old (length terms.old) term }
    ensures within { IfOk result (λ id. id.0 < length terms.new) }
    ensures shape { IfOk result (λ id. shape_at terms.new id.0 ≡ term.shape) }
    ensures value { IfOk result (λ id. (E V : ℕ → ℤ) → Agrees E V terms.new → V id.0 ≡ term_value E V terms.old term) }
    ensures kept { Grows terms.old terms.new }
{
    let id = simplified(terms, term)?;
    Ok(id)
}

/// What stands for a term: what it was folded to, and else itself.
fn renamed(folded: &IndexMap<u64, TermId>, id: TermId) -> TermId
    ensures { result ≡ renamed_id (get nat_eq folded.now) id }
{
    folded.get(&id.0).copied().unwrap_or(id)
}

/// What a term is made of, with what stands for its operands in their place.
fn with_folded(folded: &IndexMap<u64, TermId>, kind: TermKind) -> TermKind
    ensures { result ≡ renamed_kind (get nat_eq folded.now) kind }
{
    match kind {
        TermKind::Constant { .. } | TermKind::Variable { .. } => kind,
        TermKind::Unary { op, of } => TermKind::Unary {
            op,
            of: renamed(folded, of),
        },
        TermKind::Binary { op, left, right } => TermKind::Binary {
            op,
            left: renamed(folded, left),
            right: renamed(folded, right),
        },
        TermKind::Fits { op, left, right } => TermKind::Fits {
            op,
            left: renamed(folded, left),
            right: renamed(folded, right),
        },
        TermKind::Select { test, yes, no } => TermKind::Select {
            test: renamed(folded, test),
            yes: renamed(folded, yes),
            no: renamed(folded, no),
        },
        TermKind::Convert { of } => TermKind::Convert {
            of: renamed(folded, of),
        },
    }
}

/// Folds a term whose operands are folded.
#[tactic(auto, using(crate::proofs::Renamed::folded_rules))]
fn fold_one(
    terms: &mut Terms,
    id: TermId,
    folded: &IndexMap<u64, TermId>,
) -> Result<TermId, NoMemory>
    requires within { id.0 < length terms.old }
    requires known { AllSame terms.old (get nat_eq folded.now) }
    ensures same { IfOk result (IsSame terms.new id.0) }
    ensures kept { Grows terms.old terms.new }
{
    terms.values_are_fixed();
    let term = terms.get(id);
    let kind = with_folded(folded, term.kind);
    simplified(
        terms,
        Term {
            shape: term.shape,
            kind,
        },
    )
}

/// An operand, if it isn't folded yet.
fn unfolded(folded: &IndexMap<u64, TermId>, id: TermId) -> Option<TermId>
    ensures { IfSome result (λ found. found ≡ id) }
{
    if folded.contains_key(&id.0) {
        None
    } else {
        Some(id)
    }
}

/// An operand of a term that isn't folded yet, if there is one.
#[tactic(auto, using(crate::proofs::Renamed::first_of))]
fn unfolded_operand(folded: &IndexMap<u64, TermId>, kind: TermKind) -> Option<TermId>
    ensures { (n : ℕ) → NamesBelow n kind → IfSome result (λ found. found.0 < n) }
{
    match kind {
        TermKind::Constant { .. } | TermKind::Variable { .. } => None,
        TermKind::Unary { of, .. } | TermKind::Convert { of } => unfolded(folded, of),
        TermKind::Binary { left, right, .. } | TermKind::Fits { left, right, .. } => {
            unfolded(folded, left).or(unfolded(folded, right))
        }
        TermKind::Select { test, yes, no } => unfolded(folded, test)
            .or(unfolded(folded, yes))
            .or(unfolded(folded, no)),
    }
}

/// Folds a term whose operands are folded, and else puts it back with an operand that isn't before it.
#[tactic(auto, using(crate::proofs::Renamed::steps))]
fn visit(
    terms: &mut Terms,
    folded: &mut IndexMap<u64, TermId>,
    waiting: &mut Stack<TermId>,
    id: TermId,
) -> Result<(), NoMemory>
    requires within { id.0 < length terms.old }
    requires known { AllSame terms.old (get nat_eq folded.old) }
    requires waiting { All (λ w. w.0 < length terms.old) waiting.old }
    ensures known { OnOk result (AllSame terms.new (get nat_eq folded.new)) }
    ensures waiting { OnOk result (All (λ w. w.0 < length terms.new) waiting.new) }
    ensures kept { Grows terms.old terms.new }
{
    let kind = terms.get(id).kind;
    if let Some(operand) = unfolded_operand(folded, kind) {
        waiting.push(id)?;
        waiting.push(operand)?;
        return Ok(());
    }
    let made = fold_one(terms, id, folded)?;
    folded.insert(id.0, made)?;
    Ok(())
}

/// A term of the same shape and with the same value in every environment, in which constants are
/// computed and neutral and absorbing operands left out. Only the term and those below it, of which it is made, are looked
/// at, each at most four times, so the cost goes with their number, whatever else is in the table. Earlier terms keep
/// their numbers, also without memory for the answer.
#[tactic(auto, using(crate::proofs::Renamed::loops))]
pub fn fold(alloc: Global, terms: &mut Terms, id: TermId) -> Result<TermId, NoMemory>
    requires { id.0 < length terms.old }
    ensures within { IfOk result (λ folded. folded.0 < length terms.new) }
    ensures shape { IfOk result (λ folded. shape_at terms.new folded.0 ≡ shape_at terms.old id.0) }
    ensures value { IfOk result (λ folded. (E V : ℕ → ℤ) → Agrees E V terms.new → V folded.0 ≡ V id.0) }
    ensures kept { Grows terms.old terms.new }
{
    let mut folded: IndexMap<u64, TermId> = IndexMap::new(alloc);
    let mut waiting = Stack::new(alloc);
    waiting.push(id)?;
    let visits = terms.len().saturating_mul(4);
    for _visit in 0..visits {
        let Some(next) = waiting.pop() else {
            break;
        };
        visit(terms, &mut folded, &mut waiting, next)?;
    }
    Ok(renamed(&folded, id))
}
