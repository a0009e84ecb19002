// The items of rows and lists as numbers, whatever their width.
ghost use Rattle.std.specs.Prelude.{ℕ, List, ◌≡◌, ◌<◌, ◌&&◌, eqb, map, Some, refl};
ghost use Rattle.std.specs.Ordering.{nat_cmp};
ghost use Rattle.std.proofs.Common.{rules, map-id, sym, lit<};
ghost use prog.Memory.{size};
ghost use denote.Param.{layout};

// An unsigned number of some width. Its order is that of the numbers, so that what is said of lists of numbers holds at every
// width; `values` is a row as such a list, and comes to the row itself where an item is its number.
pub trait Number: Copy + Ord {
    ghost value: { Self → ℕ };

    ghost values: { List Self → List ℕ };

    ghost ZERO: { Self };

    const ZERO: Self;

    // Zero exactly where both are.
    fn or(self, other: Self) -> Self
        ensures { eqb (value result) 0 ≡ (eqb (value self) 0 && eqb (value other) 0) };

    ghost each: { (row : List Self) → values row ≡ map value row };

    ghost zero: { value ZERO ≡ 0 };

    ghost ordered: { (x y : Self) → Self.cmp x y ≡ nat_cmp (value x) (value y) };

    ghost equal: { (x y : Self) → Self.eq x y ≡ eqb (value x) (value y) };

    // A number can always be cloned, and its clone is the number: so that a row can be filled with it.
    ghost lasting: { (x : Self) → Self.is_infallible x };

    ghost cloned: { (x y : Self) → Self.is_clone x y → y ≡ x };

    // An item takes up memory, so that the lengths of two rows add up to less than 2 ^ 64.
    ghost sized: { 0 < size (layout Self.row) };
}

// The two are alike, word for word: an impl that a macro of the repository writes is not accepted.
impl Number for u32 {
    ghost value = { λ x. x };

    ghost values = { λ row. row };

    ghost ZERO = { 0 };

    const ZERO: u32 = 0;

    ghost each = { λ row. sym (map-id row) };

    ghost zero = { refl };

    ghost ordered = { λ x y. refl };

    ghost equal = { λ x y. refl };

    ghost lasting = { λ x. tt };

    ghost cloned = { λ x y e. e };

    ghost sized = { lit< tt };

    #[tactic(auto, using(crate::proofs::BitLaws::or_zero))]
    fn or(self, other: u32) -> u32 {
        self | other
    }
}

impl Number for u64 {
    ghost value = { λ x. x };

    ghost values = { λ row. row };

    ghost ZERO = { 0 };

    const ZERO: u64 = 0;

    ghost each = { λ row. sym (map-id row) };

    ghost zero = { refl };

    ghost ordered = { λ x y. refl };

    ghost equal = { λ x y. refl };

    ghost lasting = { λ x. tt };

    ghost cloned = { λ x y e. e };

    ghost sized = { lit< tt };

    #[tactic(auto, using(crate::proofs::BitLaws::or_zero))]
    fn or(self, other: u64) -> u64 {
        self | other
    }
}
