//! Theorems about the tokens of a text: functions that do nothing, and are called for what they
//! ensure.

ghost use Rattle.std.specs.Prelude.{◌≡◌, ℕ, ◌<◌, ◌≤◌, List, Some, length};
ghost use Rattle.std.specs.List.{slice_get};
ghost use Rattle.prolog_tokens.specs.Cut.{IsNext, IsCut, HasFault, IsTokenOf, ended};

use crate::token::{Token, TokenFault};

/// A text has at most one list of tokens.
pub fn one_cut()
    ensures { (text : List ℕ) (ts us : List Token) → IsCut text ts → IsCut text us → ts ≡ us }
{}

/// A text has at most one error.
pub fn one_fault()
    ensures { (text : List ℕ) (fault second : TokenFault) → HasFault text fault → HasFault text second → fault ≡ second }
{}

/// A text with an error has no list of tokens.
pub fn fault_is_no_cut()
    ensures { (text : List ℕ) (fault : TokenFault) (ts : List Token) → HasFault text fault → IsCut text ts → ⊥ }
{}

/// Each token of a text is spelled correctly, isn't empty, ends within the text and is the next one
/// after those before it. Tokens don't overlap.
pub fn cut_tokens()
    ensures next { (text : List ℕ) (ts : List Token) → IsCut text ts → (k : ℕ) (t : Token) → slice_get ts k ≡ Some t → IsNext text (ended 0 ts k) t }
    ensures spelled { (text : List ℕ) (ts : List Token) → IsCut text ts → (k : ℕ) (t : Token) → slice_get ts k ≡ Some t → IsTokenOf text t }
    ensures some { (text : List ℕ) (t : Token) → IsTokenOf text t → t.start < t.end }
    ensures within { (text : List ℕ) (t : Token) → IsTokenOf text t → t.end ≤ length text }
    ensures order { (text : List ℕ) (ts : List Token) → IsCut text ts → (j k : ℕ) (t u : Token) → j < k
        → slice_get ts j ≡ Some t → slice_get ts k ≡ Some u → t.end ≤ u.start }
{}

/// A text has no more tokens than bytes.
pub fn cut_fewer()
    ensures { (text : List ℕ) (ts : List Token) → IsCut text ts → length ts ≤ length text }
{}
