ghost use Rattle.std.specs.Prelude.{◌≡◌, ◌+◌, ◌<◌, length, IfOk};
ghost use Rattle.gate_core.specs.Table.{Grows};
ghost use Rattle.word_gates.specs.Words.{IsWordOf};

use gate_core::Gates;
use kv_base::{NoMemory, Sequence};
use sat_clause::Lit;
use std::alloc::Global;
use word_gates::{
    Word, WordNum, add, and, div_rem, equal, less, mul, negate, not, or, select, shift_left,
    shift_right, sub, xor,
};

/// An operation on words.
#[derive(Clone, Copy, Debug, PartialEq, Eq)]
pub enum Operation {
    Add,
    Sub,
    Mul,
    Div,
    Rem,
    ShiftLeft,
    ShiftRight,
    Less,
    Equal,
    Select,
    Bits(BitOperation),
}

/// An operation whose result is the same with and without a sign. `Not` and `Negate` take the first word alone.
#[derive(Clone, Copy, Debug, PartialEq, Eq)]
pub enum BitOperation {
    And,
    Or,
    Xor,
    Not,
    Negate,
}

/// A table of gates whose first inputs are two words, and a result. `Less` and `Equal` give a word of one bit, and
/// `Select` chooses by the first word's lowest bit.
#[derive(Drop)]
pub struct Circuit {
    pub gates: Gates,
    pub value: Word,
    /// Whether the exact result fits, where the operation says so.
    pub fits: Option<Lit>,
}

/// Two words of inputs.
#[derive(Drop)]
pub(crate) struct Pair {
    pub a: Word,
    pub b: Word,
}

/// A word of new inputs.
fn inputs(alloc: Global, gates: &mut Gates, width: usize) -> Result<Word, NoMemory>
    ensures len { IfOk result (λ w. length w ≡ width) }
    ensures word { IfOk result (λ w. IsWordOf gates.new w) }
    ensures grows { Grows gates.old gates.new }
{
    let mut word = Sequence::new(alloc);
    for _i in 0..width {
        let input = gates.input()?;
        word.push(input)?;
    }
    Ok(word)
}

/// Two words of new inputs, of these widths.
pub(crate) fn operands(
    alloc: Global,
    gates: &mut Gates,
    width: usize,
    other: usize,
) -> Result<Pair, NoMemory>
    ensures a_len { IfOk result (λ r. length r.a ≡ width) }
    ensures b_len { IfOk result (λ r. length r.b ≡ other) }
    ensures a { IfOk result (λ r. IsWordOf gates.new r.a) }
    ensures b { IfOk result (λ r. IsWordOf gates.new r.b) }
{
    let a = inputs(alloc, gates, width)?;
    let b = inputs(alloc, gates, other)?;
    Ok(Pair { a, b })
}

impl Circuit {
    /// The circuit of an operation on words of a width.
    pub fn new(
        alloc: Global,
        operation: Operation,
        width: usize,
        signed: bool,
    ) -> Result<Circuit, NoMemory>
        requires { 0 < width }
    {
        let mut gates = Gates::new(alloc);
        let words = operands(alloc, &mut gates, width, width)?;
        let (a, b) = (&words.a, &words.b);
        match operation {
            Operation::Add => {
                let num = add(alloc, &mut gates, a, b, signed)?;
                Ok(of_num(gates, num))
            }
            Operation::Sub => {
                let num = sub(alloc, &mut gates, a, b, signed)?;
                Ok(of_num(gates, num))
            }
            Operation::Mul => {
                let num = mul(alloc, &mut gates, a, b, signed)?;
                Ok(of_num(gates, num))
            }
            Operation::Div => {
                let (quotient, _) = div_rem(alloc, &mut gates, a, b, signed)?;
                Ok(of_num(gates, quotient))
            }
            Operation::Rem => {
                let (_, remainder) = div_rem(alloc, &mut gates, a, b, signed)?;
                Ok(of_num(gates, remainder))
            }
            Operation::ShiftLeft => {
                let num = shift_left(alloc, &mut gates, a, b, signed)?;
                Ok(of_num(gates, num))
            }
            Operation::ShiftRight => {
                let word = shift_right(alloc, &mut gates, a, b, signed)?;
                Ok(of_word(gates, word))
            }
            Operation::Less => {
                let bit = less(alloc, &mut gates, a, b, signed)?;
                of_bit(alloc, gates, bit)
            }
            Operation::Equal => {
                let bit = equal(&mut gates, a, b)?;
                of_bit(alloc, gates, bit)
            }
            Operation::Select => {
                let word = select(alloc, &mut gates, a.as_slice()[0], a, b)?;
                Ok(of_word(gates, word))
            }
            Operation::Bits(operation) => {
                let word = bits(alloc, &mut gates, operation, a, b)?;
                Ok(of_word(gates, word))
            }
        }
    }

    /// The circuit of a shift, to the left or else to the right, of a word of a width by one of another.
    pub fn shift(
        alloc: Global,
        is_left: bool,
        width: usize,
        other: usize,
        signed: bool,
    ) -> Result<Circuit, NoMemory>
        requires { 0 < width }
    {
        let mut gates = Gates::new(alloc);
        let words = operands(alloc, &mut gates, width, other)?;
        if is_left {
            let num = shift_left(alloc, &mut gates, &words.a, &words.b, signed)?;
            return Ok(of_num(gates, num));
        }
        let word = shift_right(alloc, &mut gates, &words.a, &words.b, signed)?;
        Ok(of_word(gates, word))
    }
}

fn bits(
    alloc: Global,
    gates: &mut Gates,
    operation: BitOperation,
    a: &Word,
    b: &Word,
) -> Result<Word, NoMemory>
    requires left { IsWordOf gates.old a.now }
    requires right { IsWordOf gates.old b.now }
    requires same { length b.now ≡ length a.now }
    requires some { 0 < length a.now }
{
    match operation {
        BitOperation::And => and(alloc, gates, a, b),
        BitOperation::Or => or(alloc, gates, a, b),
        BitOperation::Xor => xor(alloc, gates, a, b),
        BitOperation::Not => not(alloc, a),
        BitOperation::Negate => negate(alloc, gates, a),
    }
}

fn of_num(gates: Gates, num: WordNum) -> Circuit {
    Circuit {
        gates,
        value: num.value,
        fits: Some(num.fits),
    }
}

fn of_word(gates: Gates, value: Word) -> Circuit {
    Circuit {
        gates,
        value,
        fits: None,
    }
}

fn of_bit(alloc: Global, gates: Gates, bit: Lit) -> Result<Circuit, NoMemory> {
    let mut value = Sequence::new(alloc);
    value.push(bit)?;
    Ok(of_word(gates, value))
}
