//! Theorems about counts in lists: functions that do nothing, and are called for what they ensure.

ghost use Rattle.std.specs.Prelude.{◌≡◌, ◌+◌, ◌++◌, ℕ, List};
ghost use Rattle.std.specs.List.Sorted.{IsPermutation};
ghost use Rattle.list_laws.specs.Counts.{times, flat};

/// A node is in two lists together as often as in the first plus as often as in the second. The order
/// of a list doesn't change how often it is there.
pub fn counts_add_up()
    ensures lists { (x : ℕ) (xs ys : List ℕ) → times x (xs ++ ys) ≡ times x xs + times x ys }
    ensures flat { (x : ℕ) (xss yss : List (List ℕ)) → times x (flat (xss ++ yss)) ≡ times x (flat xss) + times x (flat yss) }
    ensures order { (x : ℕ) (xs ys : List ℕ) → IsPermutation xs ys → times x xs ≡ times x ys }
{}
