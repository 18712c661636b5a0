ghost use Rattle.std.specs.Prelude.{◌≡◌};
ghost use Rattle.std.specs.Bool.{Decides};

/// A type whose `==` holds between equal values alone, as contracts see them.
pub trait Exact: PartialEq {
    ghost decides: { (a b : Self) → Decides (Self.eq a b) (a ≡ b) };
}

impl Exact for u8 {
    ghost use Rattle.std.proofs.lemmas.Bool.Decides.{Decides-eqb};

    ghost decides = { Decides-eqb };
}

impl Exact for u32 {
    ghost use Rattle.std.proofs.lemmas.Bool.Decides.{Decides-eqb};

    ghost decides = { Decides-eqb };
}

impl Exact for u64 {
    ghost use Rattle.std.proofs.lemmas.Bool.Decides.{Decides-eqb};

    ghost decides = { Decides-eqb };
}

impl Exact for i128 {
    ghost use Rattle.std.proofs.lemmas.Bool.Decides.{Decides-int_eq};

    ghost decides = { Decides-int_eq };
}

impl Exact for bool {
    ghost use Rattle.std.specs.Cmp.{booleans_Decides};

    ghost decides = { booleans_Decides };
}
