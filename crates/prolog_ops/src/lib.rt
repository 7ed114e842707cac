//! Prolog's operators (ISO/IEC 13211-1, 6.3.4): which names are operators, with what fixity and
//! priority.
//!
//! An `OpTable` is a map from a fixity (prefix, infix or postfix) and a name to an operator. It
//! begins as the table of every text. `set` adds, replaces or removes one entry. It rejects exactly
//! what can't be set, and leaves the table unchanged then. In every table no name is both infix and
//! postfix.
//!
//! It doesn't know what text the names come from.
#![tactic(auto)]

mod op;
mod opening_table;
mod place_ops;
mod table;

pub use op::{Op, OpKind};
pub use table::{OpFault, OpTable};
