//! Laws of the definitions. Each function computes nothing: its contract is the law.

ghost use Rattle.c_heads.specs.Laws.{ArrivalsAreHeads, StoreStaysLaidOut, ValuesKeepTheirTypes};

/// Conversions and operators give values of the types that the definitions of types give.
pub fn values_keep_their_types()
    ensures { ValuesKeepTheirTypes }
{}

/// What a step does to the objects keeps each of them laid out as its declaration's type says, and each value of its type.
pub fn store_stays_laid_out()
    ensures { StoreStaysLaidOut }
{}

/// Each arrival of the machine is a head configuration, in a program whose types are sound.
pub fn arrivals_are_heads()
    ensures { ArrivalsAreHeads }
{}
