//! Boxes and lists for the nodes of a tree, made in steps of any type: what is given up where memory runs out is let go here,
//! and no rule of the grammar has to say how a tree is.
#![tactic(auto)]

#[cfg(test)]
mod tests;

ghost use Rattle.std.specs.Prelude.{◌≡◌, ◌∷◌, IfOk, MatchResult, Ok, Err};

use kv_base::NoMemory;
use sqlite_items::{Boxed, Items};
use std::alloc::Global;

/// Boxes of two values.
pub fn pair<First: Drop, Second: Drop>(
    alloc: Global,
    first: First,
    second: Second,
) -> Result<(Boxed<First>, Boxed<Second>), NoMemory>
    ensures { IfOk result (λ made. (made.0 ≡ first) × (made.1 ≡ second)) }
{
    let first = Boxed::new(alloc, first)?;
    let second = Boxed::new(alloc, second)?;
    Ok((first, second))
}

/// Boxes of three values.
pub fn triple<First: Drop, Second: Drop, Third: Drop>(
    alloc: Global,
    first: First,
    second: Second,
    third: Third,
) -> Result<(Boxed<First>, Boxed<Second>, Boxed<Third>), NoMemory>
    ensures { IfOk result (λ made. (made.0 ≡ first) × (made.1 ≡ second) × (made.2 ≡ third)) }
{
    let first = Boxed::new(alloc, first)?;
    let (second, third) = pair(alloc, second, third)?;
    Ok((first, second, third))
}

/// A box of a value, and what is kept beside it.
pub fn beside<Value: Drop, Kept: Drop>(
    alloc: Global,
    value: Value,
    kept: Kept,
) -> Result<(Boxed<Value>, Kept), NoMemory>
    ensures { IfOk result (λ made. (made.0 ≡ value) × (made.1 ≡ kept)) }
{
    let value = Boxed::new(alloc, value)?;
    Ok((value, kept))
}

/// What is kept over a step that may fail, and what the step gives.
pub fn keeping<Kept: Drop, Given, Fault>(
    kept: Kept,
    step: Result<Given, Fault>,
) -> Result<(Kept, Given), Fault>
    ensures { MatchResult result (λ both. (both.0 ≡ kept) × (step ≡ Ok both.1)) (λ fault. step ≡ Err fault) }
{
    match step {
        Ok(given) => Ok((kept, given)),
        Err(fault) => Err(fault),
    }
}

/// What two steps give, or the fault of the first that fails.
pub fn both<First: Drop, Second: Drop, Fault: Drop>(
    first: Result<First, Fault>,
    second: Result<Second, Fault>,
) -> Result<(First, Second), Fault>
    ensures { IfOk result (λ made. (first ≡ Ok made.0) × (second ≡ Ok made.1)) }
{
    Ok((first?, second?))
}

/// What three steps give, or the fault of the first that fails.
pub fn all_three<First: Drop, Second: Drop, Third: Drop, Fault: Drop>(
    first: Result<First, Fault>,
    second: Result<Second, Fault>,
    third: Result<Third, Fault>,
) -> Result<(First, Second, Third), Fault>
    ensures { IfOk result (λ made. (first ≡ Ok made.0) × (second ≡ Ok made.1) × (third ≡ Ok made.2)) }
{
    Ok((first?, second?, third?))
}

/// A list that begins with this element.
pub fn with_first<Element: Drop>(
    alloc: Global,
    first: Element,
    further: Items<Element>,
) -> Result<Items<Element>, NoMemory>
    ensures { IfOk result (λ made. made ≡ first ∷ further) }
{
    let mut whole = Items::new(alloc);
    whole.push(first)?;
    whole.append(further)?;
    Ok(whole)
}
