//! What objects hold and what sums give.

ghost use Rattle.std.specs.Prelude.{◌≡◌, find};
ghost use Rattle.std.specs.Option.{option_copied};
ghost use Rattle.kv_num.specs.declared.types.IntType.TheVariants.{Int};
ghost use Rattle.kv_num.specs.IntType.{InRange};
ghost use Rattle.c_straight_model.specs.Machine as spec;

use c_straight_model::{Operand, Relation, Sign};
use kv_base::Bytes;
use kv_num::{IntType, add, sub, wrap};
use std::marker::Model;

/// A living object of type int. Its name stands in the program.
#[derive(Drop)]
pub struct Object<'p> {
    pub name: &'p Bytes,
    pub value: i32,
}

impl<'p> Model for Object<'p> {
    ghost use Rattle.c_straight_model.specs.Machine as spec;

    ghost Value = { spec.Object };

    ghost view = { λ object. record { name = object.name.now; value = object.value } };
}

impl Object<'_> {
    /// Whether the object has this name.
    fn is_named(&self, name: &[u8]) -> bool
        ensures { result ≡ spec.is_named name.now self.now }
    {
        self.name.as_slice() == name
    }
}

// A number of an int's range as an int.
/// A number of type `int`.
fn int_of(number: i128) -> i32
    requires { InRange Int number }
    ensures { result ≡ number }
{
    number as i32
}

/// The innermost object of a name.
fn object_of<'a, 'p>(name: &[u8], store: &'a [Object<'p>]) -> Option<&'a Object<'p>>
    ensures { option_copied result ≡ find (spec.is_named name.now) store.now }
{
    store.iter().find(|object| object.is_named(name))
}

/// The value of the innermost object of a name; 0 where there is none.
fn value_of(name: &[u8], store: &[Object<'_>]) -> i32
    ensures { result ≡ spec.value_of name.now store.now }
{
    match object_of(name, store) {
        Some(object) => object.value,
        None => 0,
    }
}

/// The number of the object of a name.
pub fn place_of(name: &[u8], store: &[Object<'_>]) -> Option<usize>
    ensures { result ≡ spec.place_of name.now store.now }
{
    store.iter().position(|object| object.is_named(name))
}

/// What an operand gives.
pub fn operand_value(operand: &Operand, store: &[Object<'_>]) -> i32
    ensures { result ≡ spec.operand_value operand.now store.now }
{
    match operand {
        Operand::Name { name } => value_of(name.as_slice(), store),
        Operand::Number { value } => int_of(wrap(IntType::Int, i128::from(*value))),
    }
}

/// The result of an additive operator, wrapped to an int.
pub fn result_of(sign: Sign, v: i32, w: i32) -> i32
    ensures { result ≡ spec.result_of sign v w }
{
    let v = i128::from(v);
    let w = i128::from(w);
    let number = match sign {
        Sign::Plus => add(IntType::Int, v, w),
        Sign::Minus => sub(IntType::Int, v, w),
    };
    int_of(number.value)
}

/// Whether a comparison gives 1.
pub fn holds(relation: Relation, v: i32, w: i32) -> bool
    ensures { result ≡ spec.holds relation v w }
{
    match relation {
        Relation::Equal => v == w,
        Relation::Unequal => v != w,
    }
}
