ghost use Rattle.std.specs.Prelude.{◌≡◌, ◌<◌, ◌≤◌, ◌^◌, ◌&&◌, ◌||◌, nat_lt, not, ℕ, Bool, if◌then◌else◌, IfOk};
ghost use Rattle.sat_clause.specs.Literals.{is_true};
ghost use Rattle.gate_core.specs.Table.{Agrees, IsLitOf, Grows};
ghost use Rattle.word_sums.specs.Words.{number, IsWordOf};

use gate_core::Gates;
use kv_base::NoMemory;
use sat_clause::Lit;
use word_sums::or;

/// Whether the number of a word without a sign is below a bound. A bit of the word takes one gate at most.
pub(crate) fn is_below(gates: &mut Gates, word: &[Lit], bound: usize) -> Result<Lit, NoMemory>
    requires { IsWordOf gates.old word.now }
    ensures within { IfOk result (IsLitOf gates.new) }
    ensures value { IfOk result (λ l. (A : ℕ → Bool) → Agrees A gates.new → is_true A l ≡ nat_lt (number A word.now) bound) }
    ensures grows { Grows gates.old gates.new }
{
    let mut below = gates.constant(false)?;
    let mut rest = bound;
    for x in word {
        let next = below_with(gates, below, *x, rest % 2 == 1)?;
        below = next;
        rest /= 2;
    }
    if rest > 0 {
        let always = gates.constant(true)?;
        return Ok(always);
    }
    Ok(below)
}

/// Whether the digits up to the next one are below a bound's, from whether those before it are, and whether the bound's
/// next digit is set.
fn below_with(gates: &mut Gates, below: Lit, digit: Lit, is_set: bool) -> Result<Lit, NoMemory>
    requires below { IsLitOf gates.old below }
    requires digit { IsLitOf gates.old digit }
    ensures within { IfOk result (IsLitOf gates.new) }
    ensures value { IfOk result (λ l. (A : ℕ → Bool) → Agrees A gates.new → is_true A l ≡ (if is_set then not (is_true A digit) || is_true A below else not (is_true A digit) && is_true A below)) }
    ensures grows { Grows gates.old gates.new }
{
    let unset = digit.complement();
    if is_set {
        let either = or(gates, unset, below)?;
        return Ok(either);
    }
    let both = gates.and(unset, below)?;
    Ok(both)
}

/// How many of the lowest bits of a distance below a width may be set.
pub(crate) fn distance_bits(width: usize) -> usize
    requires { 0 < width }
    ensures enough { width ≤ 2 ^ result }
    ensures least { (i : ℕ) → i < result → 2 ^ i < width }
    ensures within { result ≤ width }
    ensures few { result ≤ 64 }
{
    match (width - 1).checked_ilog2() {
        Some(top) => top as usize + 1,
        None => 0,
    }
}
