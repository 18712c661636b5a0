//! The names of a straight program: what may be declared, and what is in scope (C11 6.2.1).

ghost use Rattle.std.specs.Prelude.{◌≡◌, ◌↔◌, IsTrue, [], Contains, IfOk, OnOk};
ghost use Rattle.c_straight.specs.Names.{reserved, scope_after, IsOperand, AreOperands, IsScoped, AreScoped};
ghost use Rattle.c_straight.specs.Scope.{in_scope};

use c_straight_model::{BlockItem, Operand, Sum};
use kv_base::NoMemory;
use std::alloc::Global;

/// `main`, and the known functions: names that name no object.
static RESERVED: [&[u8]; 33] = [
    b"main",
    b"assert",
    b"__VERIFIER_assume",
    b"__ESBMC_assume",
    b"abort",
    b"exit",
    b"reach_error",
    b"__VERIFIER_error",
    b"__assert_fail",
    b"__VERIFIER_nondet_bool",
    b"__VERIFIER_nondet_char",
    b"__VERIFIER_nondet_uchar",
    b"__VERIFIER_nondet_short",
    b"__VERIFIER_nondet_ushort",
    b"__VERIFIER_nondet_int",
    b"__VERIFIER_nondet_uint",
    b"__VERIFIER_nondet_unsigned",
    b"__VERIFIER_nondet_long",
    b"__VERIFIER_nondet_ulong",
    b"__VERIFIER_nondet_longlong",
    b"__VERIFIER_nondet_ulonglong",
    b"nondet_bool",
    b"nondet_char",
    b"nondet_uchar",
    b"nondet_short",
    b"nondet_ushort",
    b"nondet_int",
    b"nondet_uint",
    b"nondet_unsigned",
    b"nondet_long",
    b"nondet_ulong",
    b"nondet_longlong",
    b"nondet_ulonglong",
];

/// Whether no object may have this name.
fn is_reserved(text: &[u8]) -> bool
    ensures { IsTrue result ↔ Contains reserved text.now }
{
    RESERVED.contains(&text)
}

/// Whether a name is declared so far.
fn is_declared(names: &[&[u8]], name: &[u8]) -> bool
    ensures { IsTrue result ↔ Contains (in_scope names.now) name.now }
{
    names.contains(&name)
}

/// Whether a name is in scope; a number always is.
fn is_operand(names: &[&[u8]], operand: &Operand) -> bool
    ensures { IsTrue result ↔ IsOperand (in_scope names.now) operand.now }
{
    match operand {
        Operand::Name { name } => is_declared(names, name.as_slice()),
        Operand::Number { .. } => true,
    }
}

/// Whether the names of a sum are declared so far.
fn are_operands(names: &[&[u8]], sum: &Sum) -> bool
    ensures { IsTrue result ↔ AreOperands (in_scope names.now) sum.now }
{
    if !is_operand(names, &sum.first) {
        return false;
    }
    sum.rest
        .as_slice()
        .iter()
        .all(|addend| is_operand(names, &addend.operand))
}

/// Whether an item declares a new name or none, and uses names in scope.
fn is_scoped(names: &[&[u8]], item: &BlockItem) -> bool
    ensures { IsTrue result ↔ IsScoped (in_scope names.now) item.now }
{
    match item {
        BlockItem::Declare { name, value, .. } => {
            let text = name.as_slice();
            !is_reserved(text) && !is_declared(names, text) && are_operands(names, value)
        }
        BlockItem::Assign { name, value, .. } => {
            is_declared(names, name.as_slice()) && are_operands(names, value)
        }
        BlockItem::Assert { left, right, .. } => {
            are_operands(names, left) && are_operands(names, right)
        }
    }
}

/// Brings the name that an item declares into scope.
fn declare<'a>(names: &mut Vec<&'a [u8]>, item: &'a BlockItem) -> Result<(), NoMemory>
    ensures { OnOk result (in_scope names.new.items ≡ scope_after (in_scope names.old.items) item.now) }
{
    let BlockItem::Declare { name, .. } = item else {
        return Ok(());
    };
    names.push(name.as_slice())?;
    Ok(())
}

/// Whether each name is declared once, and used only in items after its declaration.
pub fn are_scoped(alloc: Global, items: &[BlockItem]) -> Result<bool, NoMemory>
    ensures { IfOk result (λ scoped. IsTrue scoped ↔ AreScoped [] items.now) }
{
    let mut names = Vec::new(alloc);
    'items: for item in items {
        if !is_scoped(names.as_slice(), item) {
            return Ok(false);
        }
        declare(&mut names, item)?;
    }
    Ok(true)
}
