ghost use Rattle.std.specs.Prelude.{◌≡◌, ◌+◌, ◌*◌, ◌||◌, ℕ, Bool, if◌then◌else◌, IfOk};
ghost use Rattle.kv_num.specs.Bits.{differ};
ghost use Rattle.sat_clause.specs.Literals.{is_true, complement_of};
ghost use Rattle.gate_core.specs.Table.{Agrees, IsLitOf, Grows};
ghost use Rattle.word_sums.specs.Words.{bit};

use gate_core::Gates;
use kv_base::NoMemory;
use sat_clause::Lit;

/// The sum of three bits: its digit, and whether what it carries differs from the third bit.
#[derive(Clone, Copy)]
pub struct Digit {
    pub digit: Lit,
    pub turn: Lit,
}

/// A literal that is true exactly where one of two is, or both.
#[tactic(auto, using(crate::proofs::Digits::truths))]
pub fn or(gates: &mut Gates, a: Lit, b: Lit) -> Result<Lit, NoMemory>
    requires left { IsLitOf gates.old a }
    requires right { IsLitOf gates.old b }
    ensures within { IfOk result (IsLitOf gates.new) }
    ensures value { IfOk result (λ l. (A : ℕ → Bool) → Agrees A gates.new → is_true A l ≡ (is_true A a || is_true A b)) }
    ensures grows { Grows gates.old gates.new }
{
    let neither = gates.and(a.complement(), b.complement())?;
    Ok(neither.complement())
}

/// Adds three bits. Where the third is known, the digit and what it carries make one gate each.
pub fn add_bits(gates: &mut Gates, a: Lit, b: Lit, c: Lit) -> Result<Digit, NoMemory>
    requires first { IsLitOf gates.old a }
    requires second { IsLitOf gates.old b }
    requires third { IsLitOf gates.old c }
    ensures digit { IfOk result (λ s. IsLitOf gates.new s.digit) }
    ensures turn { IfOk result (λ s. IsLitOf gates.new s.turn) }
    ensures value { IfOk result (λ s. (A : ℕ → Bool) → Agrees A gates.new → bit (is_true A s.digit) + 2 * bit (differ (is_true A s.turn) (is_true A c)) ≡ bit (is_true A a) + bit (is_true A b) + bit (is_true A c)) }
    ensures grows { Grows gates.old gates.new }
{
    let left = gates.xor(a, c)?;
    let right = gates.xor(b, c)?;
    let digit = gates.xor(left, b)?;
    let turn = gates.and(left, right)?;
    Ok(Digit { digit, turn })
}

/// Whether a bit is below another, or equals it and the bits under it are lower.
pub(crate) fn lower_bit(gates: &mut Gates, a: Lit, b: Lit, rest: Lit) -> Result<Lit, NoMemory>
    requires first { IsLitOf gates.old a }
    requires second { IsLitOf gates.old b }
    requires rest { IsLitOf gates.old rest }
    ensures within { IfOk result (IsLitOf gates.new) }
    ensures value { IfOk result (λ l. (A : ℕ → Bool) → Agrees A gates.new → is_true A l ≡ (if differ (is_true A a) (is_true A b) then is_true A b else is_true A rest)) }
    ensures grows { Grows gates.old gates.new }
{
    let left = gates.xor(a.complement(), rest)?;
    let right = gates.xor(b, rest)?;
    let turn = gates.and(left, right)?;
    let lower = gates.xor(turn, rest)?;
    Ok(lower)
}

/// One literal where the test is true, and else the other.
pub(crate) fn choose(gates: &mut Gates, test: Lit, yes: Lit, no: Lit) -> Result<Lit, NoMemory>
    requires test { IsLitOf gates.old test }
    requires yes { IsLitOf gates.old yes }
    requires no { IsLitOf gates.old no }
    ensures within { IfOk result (IsLitOf gates.new) }
    ensures value { IfOk result (λ l. (A : ℕ → Bool) → Agrees A gates.new → is_true A l ≡ (if is_true A test then is_true A yes else is_true A no)) }
    ensures grows { Grows gates.old gates.new }
{
    let odd = gates.xor(yes, no)?;
    let turn = gates.and(test, odd)?;
    let chosen = gates.xor(turn, no)?;
    Ok(chosen)
}

/// Whether what is carried at a sum's top shows that the sum does not fit: with a sign if what is carried out of it
/// differs from what is carried into it, and without one if anything is carried out.
pub(crate) fn overflows(
    gates: &mut Gates,
    into: Lit,
    turn: Lit,
    signed: bool,
) -> Result<Lit, NoMemory>
    requires left { IsLitOf gates.old into }
    requires right { IsLitOf gates.old turn }
    ensures within { IfOk result (IsLitOf gates.new) }
    ensures value { IfOk result (λ l. (A : ℕ → Bool) → Agrees A gates.new → is_true A l ≡ (if signed then is_true A turn else differ (is_true A turn) (is_true A into))) }
    ensures grows { Grows gates.old gates.new }
{
    if signed {
        return Ok(turn);
    }
    gates.xor(turn, into)
}

/// A literal, or its complement where `flip` is true.
pub(crate) fn flipped(l: Lit, flip: bool) -> Lit
    ensures { result ≡ (if flip then complement_of l else l) }
{
    if flip { l.complement() } else { l }
}
