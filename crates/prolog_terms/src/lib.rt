//! Reader of Prolog terms (ISO/IEC 13211-1, 6.3): an operator-precedence parser, and views of the
//! terms that it reads.
//!
//! `read_clause` reads the tokens up to an End as the one clause that they are under a table of
//! operators. Otherwise it reports the first token with which no clause continues: for `a ** b **
//! c.` the second operator. No two terms have the same tokens. A clause is one list of nodes, each
//! after its parts, and a `Term` is a view of one of them. Each part has its position.
//!
//! It gives terms no meaning: directives, heads and goals are for the layers above.
#![tactic(auto)]

mod binary_term;
mod brackets;
mod feed;
mod laws;
mod measure;
mod node;
mod node_list;
mod nodes;
mod operand;
mod operator_sides;
mod operators;
mod pending;
mod read_fault;
mod reader;
mod stack;
mod state;
mod steps;
mod term;
mod views;
mod waiting;
mod word;

pub use binary_term::Binary;
pub use laws::{clause_depths, clause_weights, one_clause};
pub use node_list::NodeList;
pub use read_fault::ReadFault;
pub use reader::{DEEPEST, read_clause, read_onto};
pub use term::{ConstKind, Form, Parts, Span, Term, TermKind};
pub use views::{
    atom_name, atom_number, binary, inside, name_and_arity, number_and_args, number_and_arity,
    numbered_binary, sides, start_of,
};
pub use waiting::Reader;
