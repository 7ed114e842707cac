ghost use Rattle.std.specs.Prelude.{◌≡◌, option_map, IfSome};
ghost use Rattle.std.specs.Arc.{arc_value};
ghost use Rattle.prolog_terms.specs.Terms.{tree_of, IsOf};
ghost use Rattle.prolog_terms.specs.Views.{start_of as start_in};
ghost use Rattle.kept_clauses.specs.Plain.{clause_span};
ghost use Rattle.kept_clauses.specs.Views.{clause_tree as kept_clause_tree, IsKeptIn, IsSoundClause};
ghost use Rattle.clause_text.specs.Clauses.{clause_tree};
ghost use Rattle.clause_text.specs.Items.{directive_of as directive_in};

use crate::terms::directive_of;
use kept_clauses::{KeptClause, KeptList};
use prolog_names::Names;
use prolog_terms::{Span, Term, inside, start_of};
use std::sync::Arc;

/// A clause of a text, which may be a directive or a grammar rule: the one that begins at a word of
/// a list. Its names are numbers in the names of the text. Clauses that were read together share
/// their list. A rule or a fact is kept as its head and its goals, without the arguments that hold
/// no goals.
#[derive(Drop)]
pub struct Clause {
    pub list: Arc<KeptList>,
    pub at: usize,
}

impl Clause {
    /// The clause, with the names of its text.
    pub fn kept<'a>(&'a self, names: &'a Names) -> KeptClause<'a>
        ensures tree { kept_clause_tree result ≡ clause_tree names.now self.now }
        ensures sound { IsSoundClause result }
        ensures within { IsKeptIn names.now (arc_value self.now.list) result }
    {
        self.list.clause(names, self.at)
    }

    /// The directive after the `:-` or `?-` of a clause that has no head.
    pub fn directive<'a>(&'a self, names: &'a Names) -> Option<Term<'a>>
        ensures tree { option_map tree_of result ≡ directive_in (clause_tree names.now self.now) }
        ensures within { IfSome result (IsOf names.now (arc_value self.now.list).1) }
    {
        match self.kept(names) {
            KeptClause::Whole(term) => directive_of(&term),
            KeptClause::Plain(_) => None,
        }
    }

    /// The position of the clause inside its brackets. Linear in its goals.
    pub fn span(&self, names: &Names) -> Span
        ensures { result ≡ clause_span (clause_tree names.now self.now) }
    {
        match self.kept(names) {
            KeptClause::Whole(term) => inside(&term).span(),
            KeptClause::Plain(form) => Span {
                from: form.head.at,
                to: form.goals.end(),
            },
        }
    }

    /// The byte offset at which the clause starts inside its brackets.
    pub fn start(&self, names: &Names) -> u32
        ensures { result ≡ start_in (clause_tree names.now self.now) }
    {
        match self.kept(names) {
            KeptClause::Whole(term) => start_of(&term),
            KeptClause::Plain(form) => form.head.at,
        }
    }
}

/// The clauses of a text in their order, and the names in them.
#[derive(Drop)]
pub struct TextClauses {
    pub names: Names,
    pub clauses: Vec<Clause>,
}
