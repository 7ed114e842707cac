//! A theorem about each text: a function that does nothing, and is called for what it ensures.

ghost use Rattle.std.specs.Prelude.{ℕ, ◌⊎◌, List, IsUtf8};
ghost use Rattle.prolog_tokens.specs.Cut.{IsCut, HasFault};
ghost use Rattle.prolog_tokens.specs.declared.token.Token.{Token};
ghost use Rattle.prolog_tokens.specs.declared.token.TokenFault.{TokenFault};

/// A text in UTF-8 is tokens with layout between them, or has an error.
pub fn cut_or_fault()
    ensures { (text : List ℕ) → IsUtf8 text → ((ts : List Token) × IsCut text ts) ⊎ ((fault : TokenFault) × HasFault text fault) }
{}
