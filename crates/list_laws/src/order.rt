//! Theorems about lists in a total order: functions that do nothing, and are called for what they
//! ensure.

ghost use Rattle.std.specs.Prelude.{◌≡◌, ◌↔◌, List, AllPairs, Contains};
ghost use Rattle.std.specs.declared.cmp.Ordering.TheVariants.{Less};

/// Two strictly ascending lists with the same elements are equal.
pub fn one_rising_list<T: Ord>()
    ensures { (xs ys : List T) → AllPairs (λ a b. T.cmp a b ≡ Less) xs → AllPairs (λ a b. T.cmp a b ≡ Less) ys
        → ((x : T) → Contains xs x ↔ Contains ys x) → xs ≡ ys }
{}
