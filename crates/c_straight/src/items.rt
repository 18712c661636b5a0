//! Items of a straight program (C11 6.8.2).

ghost use Rattle.std.specs.Prelude.{◌≡◌, Some, Option, List, ℕ, IfOk, codes};
ghost use Rattle.std.specs.Borrow.{Bor};
ghost use Rattle.std.specs.Option.{option_map};
ghost use Rattle.c_straight.specs.Straight as spec;

use crate::sums::sum;
use c_straight_model::{BlockItem, Relation, Sum};
use c_tree::{
    AssignOperator, BaseWord, BinaryOperator, BlockItem as Item, Declaration, Declarator, Declared,
    Expression, Initialiser, Specifier, Statement,
};
use kv_base::{Bytes, NoMemory};
use std::alloc::Global;

/// What items are read with.
#[derive(Clone, Copy)]
pub struct Straightener<'t> {
    pub alloc: Global,
    /// The line of each token.
    pub lines: &'t [u32],
    /// How many operands a sum may have.
    pub depth: usize,
}

/// The name that an expression is.
pub fn name_in(x: &Expression) -> Option<&[u8]>
    ensures { option_map (λ (name : Bor (List ℕ)). name.now) result ≡ spec.name_in x.entry.now }
{
    match x {
        Expression::Name { name, .. } => Some(name.as_slice()),
        _ => None,
    }
}

/// The number of the token of a name.
fn place_of(x: &Expression) -> usize
    ensures { result ≡ spec.place_of x.now }
{
    match x {
        Expression::Name { at, .. } => *at,
        _ => 0,
    }
}

/// The name that a declarator is.
pub fn name_of(x: &Declarator) -> Option<&[u8]>
    ensures { option_map (λ (name : Bor (List ℕ)). name.now) result ≡ spec.name_of x.entry.now }
{
    match x {
        Declarator::Name { name, .. } => Some(name.as_slice()),
        _ => None,
    }
}

/// The place of the one specifier `int`.
pub fn int_place(list: &[Specifier]) -> Option<usize>
    ensures { result ≡ spec.int_place list.now }
{
    match list {
        [
            Specifier::Base {
                word: BaseWord::Int,
                at,
            },
        ] => Some(*at),
        _ => None,
    }
}

/// The comparison that an operator is, if it is one.
fn relation(operator: BinaryOperator) -> Option<Relation>
    ensures { result ≡ spec.relation_of operator }
{
    match operator {
        BinaryOperator::Equal => Some(Relation::Equal),
        BinaryOperator::NotEqual => Some(Relation::Unequal),
        _ => None,
    }
}

impl Straightener<'_> {
    /// The line of the token of this number.
    fn line_at(&self, at: usize) -> u32
        ensures { result ≡ spec.line_at self.now.lines.now at }
    {
        match self.lines.get(at) {
            Some(line) => *line,
            None => 0,
        }
    }

    /// An expression as a sum, if it is one.
    fn sum(&self, x: &Expression) -> Result<Option<Sum>, NoMemory>
        ensures { IfOk result (λ made. made ≡ spec.sum_of self.now.depth x.now) }
    {
        sum(self.alloc, self.depth, x)
    }

    /// The sum that an initialiser is.
    fn value(&self, x: &Initialiser) -> Result<Option<Sum>, NoMemory>
        ensures { IfOk result (λ made. made ≡ spec.value_of self.now.depth x.now) }
    {
        match x {
            Initialiser::Value { value, .. } => self.sum(value),
            Initialiser::Braces { .. } => Ok(None),
        }
    }

    /// `name = sum` after `int`, which stands at a token.
    fn declared(&self, at: usize, names: &[Declared]) -> Result<Option<BlockItem>, NoMemory>
        ensures { IfOk result (λ made. made ≡ spec.declared_by self.now.lines.now self.now.depth at names.now) }
    {
        let [
            Declared::Initialised {
                declarator,
                initialiser,
                ..
            },
        ] = names
        else {
            return Ok(None);
        };
        let Some(name) = name_of(declarator) else {
            return Ok(None);
        };
        let Some(value) = self.value(initialiser)? else {
            return Ok(None);
        };
        Ok(Some(BlockItem::Declare {
            name: Bytes::from_slice(self.alloc, name)?,
            value,
            line: self.line_at(at),
        }))
    }

    /// `int name = sum;`
    fn declaration(&self, x: &Declaration) -> Result<Option<BlockItem>, NoMemory>
        ensures { IfOk result (λ made. made ≡ spec.declaration_of self.now.lines.now self.now.depth x.now) }
    {
        let Some(at) = int_place(x.specifiers.as_slice()) else {
            return Ok(None);
        };
        self.declared(at, x.names.as_slice())
    }

    /// `name = sum;`
    fn assignment(
        &self,
        operator: AssignOperator,
        target: &Expression,
        value: &Expression,
    ) -> Result<Option<BlockItem>, NoMemory>
        ensures { IfOk result (λ made. made ≡ spec.assignment_of self.now.lines.now self.now.depth operator target.now value.now) }
    {
        if operator != AssignOperator::Plain {
            return Ok(None);
        }
        let Some(name) = name_in(target) else {
            return Ok(None);
        };
        let Some(value) = self.sum(value)? else {
            return Ok(None);
        };
        Ok(Some(BlockItem::Assign {
            name: Bytes::from_slice(self.alloc, name)?,
            value,
            line: self.line_at(place_of(target)),
        }))
    }

    /// An assertion that compares two sums, if both are sums.
    fn comparison(
        &self,
        line: u32,
        operator: BinaryOperator,
        left: &Expression,
        right: &Expression,
    ) -> Result<Option<BlockItem>, NoMemory>
        ensures { IfOk result (λ made. made ≡ spec.comparison_of self.now.depth line operator left.now right.now) }
    {
        let Some(relation) = relation(operator) else {
            return Ok(None);
        };
        let Some(left) = self.sum(left)? else {
            return Ok(None);
        };
        let Some(right) = self.sum(right)? else {
            return Ok(None);
        };
        Ok(Some(BlockItem::Assert {
            relation,
            left,
            right,
            line,
        }))
    }

    /// What is asserted.
    fn asserted(&self, line: u32, x: &Expression) -> Result<Option<BlockItem>, NoMemory>
        ensures { IfOk result (λ made. made ≡ spec.asserted self.now.depth line x.now) }
    {
        match x {
            Expression::Binary {
                operator,
                left,
                right,
                ..
            } => self.comparison(line, *operator, left.get(), right.get()),
            _ => Ok(None),
        }
    }

    /// `assert(sum == sum)` or `assert(sum != sum)`.
    fn call(
        &self,
        function: &Expression,
        arguments: &[Expression],
    ) -> Result<Option<BlockItem>, NoMemory>
        ensures { IfOk result (λ made. made ≡ spec.call_of self.now.lines.now self.now.depth function.now arguments.now) }
    {
        let [argument] = arguments else {
            return Ok(None);
        };
        if !is_named(b"assert", name_in(function)) {
            return Ok(None);
        }
        self.asserted(self.line_at(place_of(function)), argument)
    }

    /// What an expression statement is.
    fn value_item(&self, x: &Expression) -> Result<Option<BlockItem>, NoMemory>
        ensures { IfOk result (λ made. made ≡ spec.value_item self.now.lines.now self.now.depth x.now) }
    {
        match x {
            Expression::Assign {
                operator,
                target,
                value,
                ..
            } => self.assignment(*operator, target.get(), value.get()),
            Expression::Call {
                function,
                arguments,
                ..
            } => self.call(function.get(), arguments.as_slice()),
            _ => Ok(None),
        }
    }

    /// A statement as an item, if it is one.
    fn statement(&self, x: &Statement) -> Result<Option<BlockItem>, NoMemory>
        ensures { IfOk result (λ made. made ≡ spec.statement_item self.now.lines.now self.now.depth x.now) }
    {
        match x {
            Statement::Value { value, .. } => self.value_item(value),
            _ => Ok(None),
        }
    }

    /// The item of a straight program that an item of a block is.
    pub fn item(&self, x: &Item) -> Result<Option<BlockItem>, NoMemory>
        ensures { IfOk result (λ made. made ≡ spec.item_of self.now.lines.now self.now.depth x.now) }
    {
        match x {
            Item::Declared { declaration } => self.declaration(declaration),
            Item::Run { statement } => self.statement(statement),
        }
    }
}

/// Whether there is a name, and it is this.
pub fn is_named(text: &[u8], name: Option<&[u8]>) -> bool
    ensures { result ≡ spec.is_named text.now (option_map (λ (it : Bor (List ℕ)). it.now) name.entry) }
{
    match name {
        Some(name) => name == text,
        None => false,
    }
}
