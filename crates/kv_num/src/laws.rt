//! The laws of the definitions that the contracts cite, for the crates above. Each function here
//! computes nothing: its contract is the law.

ghost use Rattle.std.specs.Prelude.{◌≡◌, ◌≢◌, ◌<◌, ◌≤◌, ◌+◌, ◌-◌, ◌*◌, ◌/◌, ◌%◌, ◌^◌, ◌&&◌, ◌||◌, ◌==◌, not, nat_lt, if◌then◌else◌, IsTrue, ℕ};
ghost use Rattle.std.specs.Prelude.{ℤ, pos, neg_ℤ, ◌+ℤ◌, ◌-ℤ◌, ◌*ℤ◌, ◌≤ℤ◌, ◌<ℤ◌, int_lt, unsigned_abs};
ghost use Rattle.std.specs.Int.{bit_at};
ghost use Rattle.kv_num.specs.declared.types.IntType.{IntType};
ghost use Rattle.kv_num.specs.IntType.{width_of, signed_of, size_of, InRange, wrap_of, pattern_of, and_of, or_of, xor_of, not_of};
ghost use Rattle.kv_num.specs.Quotient.{quotient_of, remainder_of, IsLeastByMinusOne};
ghost use Rattle.kv_num.specs.Shift.{left_of, right_of};
ghost use Rattle.kv_num.specs.Bits.{bit_of, differ, low_bits};

/// `wrap` gives a number that is congruent to the one given, and it is the only such number of the
/// type's range.
pub fn wrap_is_unique()
    ensures congruent { (t : IntType) (n : ℤ) → (k : ℤ) × (n ≡ wrap_of t n +ℤ (k *ℤ pos (size_of t))) }
    ensures only { (t : IntType) (n m k : ℤ) → InRange t m → n ≡ m +ℤ (k *ℤ pos (size_of t)) → m ≡ wrap_of t n }
{}

/// To wrap the operands first changes no wrapped result.
pub fn wrap_absorbs_wrap()
    ensures in_range { (t : IntType) (n : ℤ) → InRange t n → wrap_of t n ≡ n }
    ensures sum { (t : IntType) (a b : ℤ) → wrap_of t (wrap_of t a +ℤ wrap_of t b) ≡ wrap_of t (a +ℤ b) }
    ensures difference { (t : IntType) (a b : ℤ) → wrap_of t (wrap_of t a -ℤ wrap_of t b) ≡ wrap_of t (a -ℤ b) }
    ensures product { (t : IntType) (a b : ℤ) → wrap_of t (wrap_of t a *ℤ wrap_of t b) ≡ wrap_of t (a *ℤ b) }
    ensures left { (t : IntType) (a : ℤ) (d : ℕ) → wrap_of t (left_of (wrap_of t a) d) ≡ wrap_of t (left_of a d) }
{}

/// Wrapped numbers, and remainders and shifts to the right of a type's numbers, are in its range.
pub fn results_are_in_range()
    ensures wrapped { (t : IntType) (n : ℤ) → InRange t (wrap_of t n) }
    ensures remainder { (t : IntType) (a b : ℤ) → InRange t a → InRange t (remainder_of a b) }
    ensures right { (t : IntType) (a : ℤ) (d : ℕ) → InRange t a → InRange t (right_of a d) }
{}

/// Quotients and remainders are those of the absolute values with a sign, and one quotient of a
/// signed type does not fit.
pub fn division_goes_by_sign()
    ensures quotient { (a b : ℤ) → quotient_of a b ≡ (if differ (int_lt a (pos 0)) (int_lt b (pos 0)) then neg_ℤ (pos (unsigned_abs a / unsigned_abs b)) else pos (unsigned_abs a / unsigned_abs b)) }
    ensures remainder { (a b : ℤ) → remainder_of a b ≡ (if int_lt a (pos 0) then neg_ℤ (pos (unsigned_abs a % unsigned_abs b)) else pos (unsigned_abs a % unsigned_abs b)) }
    ensures small { (a b : ℤ) → b ≢ pos 0 → unsigned_abs (remainder_of a b) < unsigned_abs b }
    ensures fits { (t : IntType) (a b : ℤ) → InRange t a → InRange t b → ¬ IsLeastByMinusOne t a b → InRange t (quotient_of a b) }
    ensures over { (t : IntType) (a b : ℤ) → IsLeastByMinusOne t a b → ¬ InRange t (quotient_of a b) }
{}

/// A shift to the right rounds down, and two shifts in a row are one.
pub fn shifts_are_products()
    ensures floor { (a : ℤ) (d : ℕ) → ((right_of a d *ℤ pos (2 ^ d)) ≤ℤ a) × (a <ℤ ((right_of a d +ℤ pos 1) *ℤ pos (2 ^ d))) }
    ensures right { (a : ℤ) (d e : ℕ) → right_of (right_of a d) e ≡ right_of a (d + e) }
    ensures left { (a : ℤ) (d e : ℕ) → left_of (left_of a d) e ≡ left_of a (d + e) }
    ensures back { (a : ℤ) (d : ℕ) → right_of (left_of a d) d ≡ a }
    ensures right_bits { (a : ℤ) (d k : ℕ) → bit_of (right_of a d) k ≡ bit_of a (d + k) }
    ensures left_bits { (a : ℤ) (d k : ℕ) → bit_of (left_of a d) (d + k) ≡ bit_of a k }
    ensures left_zeros { (a : ℤ) (d k : ℕ) → k < d → IsTrue (not (bit_of (left_of a d) k)) }
{}

/// A number of a type is known by its bits below the type's width; the others are its sign.
pub fn bits_make_numbers()
    ensures wrapped { (t : IntType) (n : ℤ) (k : ℕ) → k < width_of t → bit_of (wrap_of t n) k ≡ bit_of n k }
    ensures same { (t : IntType) (a b : ℤ) → InRange t a → InRange t b → ((k : ℕ) → k < width_of t → bit_of a k ≡ bit_of b k) → a ≡ b }
    ensures sign { (t : IntType) (a : ℤ) (k : ℕ) → InRange t a → IsTrue (signed_of t) → width_of t ≤ k + 1 → bit_of a k ≡ int_lt a (pos 0) }
    ensures unsigned { (t : IntType) (a : ℤ) (k : ℕ) → InRange t a → IsTrue (not (signed_of t)) → width_of t ≤ k → IsTrue (not (bit_of a k)) }
{}

/// Each bit of a bitwise result is that of the operands' bits.
pub fn bits_combine()
    ensures and { (t : IntType) (a b : ℤ) (k : ℕ) → InRange t a → InRange t b → bit_of (and_of t a b) k ≡ (bit_of a k && bit_of b k) }
    ensures or { (t : IntType) (a b : ℤ) (k : ℕ) → InRange t a → InRange t b → bit_of (or_of t a b) k ≡ (bit_of a k || bit_of b k) }
    ensures xor { (t : IntType) (a b : ℤ) (k : ℕ) → InRange t a → InRange t b → bit_of (xor_of t a b) k ≡ differ (bit_of a k) (bit_of b k) }
    ensures complement { (t : IntType) (a : ℤ) (k : ℕ) → k < width_of t → bit_of (not_of t a) k ≡ not (bit_of a k) }
{}

/// A bit pattern, read without a sign and with one, and bit by bit.
pub fn patterns_read_bits()
    ensures below { (t : IntType) (n : ℤ) → pattern_of t n < size_of t }
    ensures wrapped { (t : IntType) (n : ℤ) → pattern_of t (wrap_of t n) ≡ pattern_of t n }
    ensures number { (t : IntType) (n : ℤ) → wrap_of t (pos (pattern_of t n)) ≡ wrap_of t n }
    ensures natural { (t : IntType) (n : ℤ) → InRange t n → pos 0 ≤ℤ n → pos (pattern_of t n) ≡ n }
    ensures negative { (t : IntType) (n : ℤ) → InRange t n → n <ℤ pos 0 → pos (pattern_of t n) ≡ n +ℤ pos (size_of t) }
    ensures bits { (k : ℕ) (n : ℤ) (i : ℕ) → i < k → bit_of n i ≡ (bit_at (low_bits k n) i == 1) }
    ensures next { (k : ℕ) (n : ℤ) → low_bits (1 + k) n ≡ low_bits k n + (if bit_of n k then 2 ^ k else 0) }
{}

/// The patterns of results are computed from those of the operands, and are in the numbers' order,
/// but for the signs.
pub fn patterns_compute()
    ensures sum { (t : IntType) (a b : ℤ) → pattern_of t (a +ℤ b) ≡ (pattern_of t a + pattern_of t b) % size_of t }
    ensures difference { (t : IntType) (a b : ℤ) → pattern_of t (a -ℤ b) ≡ (pattern_of t a + (size_of t - pattern_of t b)) % size_of t }
    ensures product { (t : IntType) (a b : ℤ) → pattern_of t (a *ℤ b) ≡ (pattern_of t a * pattern_of t b) % size_of t }
    ensures complement { (t : IntType) (a : ℤ) → pattern_of t (not_of t a) ≡ size_of t - 1 - pattern_of t a }
    ensures order { (t : IntType) (a b : ℤ) → InRange t a → InRange t b → int_lt a b ≡ (if differ (int_lt a (pos 0)) (int_lt b (pos 0)) then int_lt a (pos 0) else nat_lt (pattern_of t a) (pattern_of t b)) }
{}
