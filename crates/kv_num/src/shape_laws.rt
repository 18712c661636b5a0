//! Laws of the definitions in `specs/`. Each call does nothing: its contract is the law.
ghost use Rattle.std.specs.Prelude.{◌≡◌, ℕ, ◌^◌, ◌↔◌, Bool, ℤ, pos, ◌+ℤ◌, ◌-ℤ◌, ◌*ℤ◌};
ghost use Rattle.kv_num.specs.declared.types.IntType.{IntType};
ghost use Rattle.kv_num.specs.IntType.{width_of, signed_of, InRange, wrap_of, and_of, or_of, xor_of, not_of};
ghost use Rattle.kv_num.specs.Shape.{InShape, wrap_at, and_at, or_at, xor_at, not_at};

/// An integer type is the shape of its width and signedness.
pub fn types_are_shapes()
    ensures range { (t : IntType) (n : ℤ) → InRange t n ↔ InShape (width_of t) (signed_of t) n }
    ensures wrapped { (t : IntType) (n : ℤ) → wrap_of t n ≡ wrap_at (width_of t) (signed_of t) n }
    ensures and { (t : IntType) (a b : ℤ) → and_of t a b ≡ and_at (width_of t) (signed_of t) a b }
    ensures or { (t : IntType) (a b : ℤ) → or_of t a b ≡ or_at (width_of t) (signed_of t) a b }
    ensures xor { (t : IntType) (a b : ℤ) → xor_of t a b ≡ xor_at (width_of t) (signed_of t) a b }
    ensures complement { (t : IntType) (a : ℤ) → not_of t a ≡ not_at (width_of t) (signed_of t) a }
{}

/// `wrap_at` gives a number that is congruent to the one given, and the only such number of the shape.
pub fn wrap_at_is_unique()
    ensures shaped { (width : ℕ) (signed : Bool) (n : ℤ) → InShape width signed (wrap_at width signed n) }
    ensures congruent { (width : ℕ) (signed : Bool) (n : ℤ) → (k : ℤ) × (n ≡ wrap_at width signed n +ℤ (k *ℤ pos (2 ^ width))) }
    ensures only { (width : ℕ) (signed : Bool) (n m k : ℤ) → InShape width signed m → n ≡ m +ℤ (k *ℤ pos (2 ^ width)) → m ≡ wrap_at width signed n }
{}

/// To wrap the operands first changes no wrapped result.
pub fn wrap_at_absorbs()
    ensures sum { (width : ℕ) (signed : Bool) (a b : ℤ) → wrap_at width signed (wrap_at width signed a +ℤ wrap_at width signed b) ≡ wrap_at width signed (a +ℤ b) }
    ensures difference { (width : ℕ) (signed : Bool) (a b : ℤ) → wrap_at width signed (wrap_at width signed a -ℤ wrap_at width signed b) ≡ wrap_at width signed (a -ℤ b) }
    ensures product { (width : ℕ) (signed : Bool) (a b : ℤ) → wrap_at width signed (wrap_at width signed a *ℤ wrap_at width signed b) ≡ wrap_at width signed (a *ℤ b) }
{}
