ghost use Rattle.std.specs.Prelude.{◌≡◌, ◌≢◌, ℕ, ◌<◌, ◌≤◌, ◌⊎◌, ◌↔◌, List, length, IsTrue, IfOk, IfErr, IfSome, MatchOption, MatchResult};
ghost use Rattle.prolog_tokens.specs.declared.limits.TheConstants.{MOST_BYTES};
ghost use Rattle.prolog_tokens.specs.Chars.{class_at as class_of_place};
ghost use Rattle.prolog_tokens.specs.Layout.{IsLayout};
ghost use Rattle.prolog_tokens.specs.Cut.{IsNext, IsCut, IsWrongNext, HasFault};
ghost use Rattle.prolog_tokens.specs.Places.{IsOffset, fault_offset};
ghost use Rattle.prolog_tokens.specs.declared.chars.Class.TheVariants.{Inner};

use crate::layout::layout_end;
use crate::rows::{TOKEN_BYTES, TokenRow, go_on};
use crate::spelling::spell;
use crate::token::{Token, TokenFault};
use std::alloc::Global;

/// Whether layout or the beginning of the text is directly before `start`, if the token before it
/// ended at `at`.
fn stands_apart(at: usize, start: usize) -> bool
    ensures { IsTrue result ↔ ((at ≡ 0) ⊎ (at < start)) }
{
    at == 0 || at < start
}

/// The next token after `at`, past layout, or None at the end of the text.
pub fn next_token(text: &str, at: usize) -> Result<Option<Token>, TokenFault>
    requires small { length text.now ≤ MOST_BYTES }
    requires within { at ≤ length text.now }
    requires begins { class_of_place text.now at ≢ Inner }
    ensures { MatchResult result (λ next. MatchOption next (IsLayout text.now at (length text.now)) (IsNext text.now at)) (IsWrongNext text.now at) }
{
    let start = layout_end(text, at)?;
    if start == text.len() {
        return Ok(None);
    }
    let spelling = spell(text, start)?;
    Ok(Some(Token {
        kind: spelling.kind,
        start: start as u32,
        end: spelling.end as u32,
        after_layout: stands_apart(at, start),
    }))
}

/// The tokens of a text of at most 8,388,608 bytes in their order, or its first error (ISO/IEC
/// 13211-1, 6.4; `docs/syntax.md` lists the supported subset).
///
/// A text has either one list of tokens or one error. The steps are linear in the bytes.
pub fn tokens(alloc: Global, text: &str) -> Result<Vec<Token>, TokenFault>
    requires { length text.now ≤ MOST_BYTES }
    ensures ok { IfOk result (λ found. IsCut text.now found.items) }
    ensures only { IfOk result (λ found. (others : List Token) → IsCut text.now others → others ≡ found.items) }
    ensures no_fault { IfOk result (λ _. (fault : TokenFault) → HasFault text.now fault → ⊥) }
    ensures fault { IfErr result (λ fault. fault ≢ TokenFault.NoMemory → HasFault text.now fault) }
    ensures only_fault { IfErr result (λ fault. fault ≢ TokenFault.NoMemory → (other : TokenFault) → HasFault text.now other → other ≡ fault) }
    ensures no_cut { IfErr result (λ fault. fault ≢ TokenFault.NoMemory → (others : List Token) → IsCut text.now others → ⊥) }
    ensures place { IfErr result (λ fault. IfSome (fault_offset fault) (λ at. IsOffset text.now at)) }
{
    let mut row = TokenRow {
        tokens: Vec::with_capacity(alloc, text.len() / TOKEN_BYTES)?,
        end: 0,
    };
    go_on(text, &mut row, text.len())?;
    Ok(row.tokens)
}
