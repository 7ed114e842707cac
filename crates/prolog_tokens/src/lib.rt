//! Lexer of Prolog text (ISO/IEC 13211-1, 6.4), and the small types that every layer above it uses.
//!
//! `tokens` returns the one list of tokens of a text, or its one error with the byte offset: for
//! `p('a` the quote at 2. `name_text` and `integer_value` decode a token. `place_of` and
//! `places_of` turn byte offsets into lines and columns. `Text` is an owned text.
//!
//! It knows no operators and no terms. `- 1` and `-1` are two tokens each, and what they mean is
//! for the layers above.
#![tactic(auto)]

mod bare_names;
mod chars;
mod cut;
mod digits;
mod escapes;
mod laws;
mod layout;
mod limits;
mod numbers;
mod places;
mod quoted;
mod rows;
mod short;
mod spelling;
mod text;
mod token;
mod values;

pub use bare_names::is_bare_name;
pub use cut::tokens;
pub use laws::{cut_fewer, cut_tokens, fault_is_no_cut, one_cut, one_fault};
pub use limits::MOST_BYTES;
pub use places::{place_of, places_of};
pub use rows::{Span, TokenRow, after_end, clause_rows, spans, tokens_in};
pub use text::Text;
pub use token::{Kind, Place, Token, TokenFault};
pub use values::{integer_value, name_slice, name_text};
