//! Clauses in the order in which they were taken over.

ghost use Rattle.std.specs.Prelude.{◌≡◌, ◌<◌, ◌++◌, ◌∷◌, [], ℕ, List, None, Some, true, if◌then◌else◌, drop, IfOk, IfSome, OnOk, length, slice_get};
ghost use Rattle.prolog_names.specs.Names.{name_at};
ghost use Rattle.prolog_terms.specs.Terms.{tree_of, IsOf};
ghost use Rattle.prolog_terms.specs.Tree.{Tree};
ghost use Rattle.kept_clauses.specs.BodyGoals.{IsFitHead, IsPlainHead};
ghost use Rattle.kept_clauses.specs.Plain.{body_goals, clause_span, plain, whole};
ghost use Rattle.kept_clauses.specs.Views.{clause_tree, see_form, IsKeptIn, IsSoundClause};
ghost use Rattle.kept_clauses.specs.Words.{AddsClause, AddsGoals, clause_with, goals_in, is_sound, kept_tree, number_in, term_in};

use crate::kept_clause::{KeptCall, KeptClause, KeptGoals, PlainForm, call_of};
use crate::plain_goals::{BodyGoals, PlainHead, goals_of, plain_head};
use crate::reserved::reserved_law;
use crate::words::{CALL, FACT, Kind, RULE, end_word, kind_of, named_word, term_word};
use prolog_names::Names;
use prolog_terms::{NodeList, Term, inside};
use std::alloc::{AllocError, Global};
use std::marker::Model;

/// Clauses, each as its plain form if it has one: a word of eight bytes for its head, one for each
/// goal, and one for its end. Goals and clauses without a plain form are words for their nodes. The
/// words and the nodes are its value.
#[derive(Drop)]
pub struct KeptList {
    words: Vec<u64>,
    whole: NodeList,
}

impl Model for KeptList {
    ghost use Rattle.std.specs.Prelude.{◌≡◌, ℕ, List, true};
    ghost use Rattle.std.specs.List.{list_all};
    ghost use Rattle.prolog_terms.specs.declared.node.Node.{Node};
    ghost use Rattle.kept_clauses.specs.Words.{is_sound};

    ghost Value = { List ℕ × List Node };

    ghost view = { λ list. (list.words.items, list.whole) };

    ghost invariant = { λ list. list_all is_sound list.words.items ≡ true };
}

impl KeptList {
    /// No clauses.
    pub fn new(alloc: Global) -> KeptList
        ensures { result ≡ ([], []) }
    {
        KeptList {
            words: Vec::new(alloc),
            whole: NodeList::new(alloc),
        }
    }

    /// The same clauses without spare capacity.
    pub fn exact_copy(&self, alloc: Global) -> Result<KeptList, AllocError>
        ensures { IfOk result (λ copy. copy ≡ self.now) }
    {
        let mut words = Vec::with_capacity(alloc, self.words.len())?;
        words.extend_from_slice(&self.words)?;
        let whole = self.whole.exact_copy(alloc)?;
        Ok(KeptList { words, whole })
    }

    /// The nodes of the terms that are kept whole.
    pub fn nodes(&self) -> &NodeList
        ensures { result.now ≡ self.now.1 }
    {
        &self.whole
    }

    /// The word at the index.
    pub(crate) fn word(&self, at: usize) -> Option<u64>
        ensures word { slice_get self.now.0 at ≡ result }
        ensures room { IfSome result (λ word. at < 18446744073709551615) }
        ensures sound { IfSome result (λ word. is_sound word ≡ true) }
    {
        let word = self.words.get(at)?;
        Some(*word)
    }

    /// The term that the word is, with these names.
    pub(crate) fn term<'a>(&'a self, names: &'a Names, word: u64) -> Term<'a>
        ensures tree { tree_of result ≡ term_in names.now self.now.1 word }
        ensures within { IsOf names.now self.now.1 result }
    {
        Term {
            names,
            nodes: &self.whole,
            end: (word / 2) as usize,
        }
    }

    /// The plain form with this head, of a fact or of a rule whose goals begin at the index.
    fn form<'a>(&'a self, names: &'a Names, word: u64, at: usize, is_rule: bool) -> PlainForm<'a>
        ensures form { see_form result ≡ clause_with names.now word (drop at self.now.0)
            (if is_rule then Some (goals_in names.now self.now.1 (drop at self.now.0)) else None) }
        ensures name { name_at result.goals.names.now result.head.number ≡ name_at names.now (number_in word) }
        ensures names { result.goals.names.now ≡ names.now }
    {
        PlainForm {
            head: call_of(word),
            is_rule,
            goals: KeptGoals {
                names,
                list: self,
                at,
            },
        }
    }

    /// The clause that begins at the index, with the names of its text. Past the last clause it is a
    /// variable at 0.
    pub fn clause<'a>(&'a self, names: &'a Names, at: usize) -> KeptClause<'a>
        ensures tree { clause_tree result ≡ kept_tree names.now self.now at }
        ensures sound { IsSoundClause result }
        ensures within { IsKeptIn names.now self.now result }
    {
        reserved_law(names);
        let Some(word) = self.word(at) else {
            return KeptClause::Whole(self.term(names, 0));
        };
        match kind_of(word) {
            Kind::Fact => KeptClause::Plain(self.form(names, word, at + 1, false)),
            Kind::Rule => KeptClause::Plain(self.form(names, word, at + 1, true)),
            Kind::Term => KeptClause::Whole(self.term(names, word)),
            Kind::Call => KeptClause::Whole(self.term(names, 0)),
            Kind::End => KeptClause::Whole(self.term(names, 0)),
        }
    }

    /// Adds a word.
    fn push_word(&mut self, word: u64) -> Result<(), AllocError>
        requires { is_sound word ≡ true }
        ensures { OnOk result (self.new ≡ (self.old.0 ++ word ∷ [], self.old.1)) }
    {
        self.words.push(word)?;
        Ok(())
    }

    /// Adds the word of a term, and its nodes.
    fn push_term(&mut self, term: &Term) -> Result<(), AllocError>
        ensures goals { OnOk result (AddsGoals term.now.names.now self.old self.new (whole (tree_of term.now) ∷ [])) }
        ensures clause { OnOk result (AddsClause term.now.names.now self.old self.new (length self.old.0) (tree_of term.now)) }
    {
        self.whole.append_last(term.nodes, term.end)?;
        let word = term_word(self.whole.len());
        self.push_word(word)
    }

    /// Adds the goals of a body. Linear in its nodes.
    fn push_goals(&mut self, body: &Term) -> Result<(), AllocError>
        ensures { OnOk result (AddsGoals body.now.names.now self.old self.new (body_goals (tree_of body.now))) }
    {
        match goals_of(body) {
            BodyGoals::Nothing => Ok(()),
            BodyGoals::Of(term) => self.push_goals(&term),
            BodyGoals::OfBoth(left, right) => {
                self.push_goals(&left)?;
                self.push_goals(&right)
            }
            BodyGoals::Call(call) => {
                self.push_word(named_word(CALL, call.number, call.at, call.arity))
            }
            BodyGoals::Whole => self.push_term(body),
        }
    }

    /// Adds a clause with a plain form that begins so, and ends at this byte offset.
    fn push_plain(&mut self, head: &PlainHead, to: u32) -> Result<(), AllocError>
        requires { IsFitHead head.now.call }
        ensures { OnOk result ((names : List (List ℕ)) (tree : Tree) → IsPlainHead names tree head.now → (clause_span tree).to ≡ to
            → AddsClause names self.old self.new (length self.old.0) (plain tree)) }
    {
        let call = head.call;
        let Some(body) = head.body else {
            self.push_word(named_word(FACT, call.number, call.at, call.arity))?;
            return self.push_word(end_word(to));
        };
        self.push_word(named_word(RULE, call.number, call.at, call.arity))?;
        self.push_goals(&body)?;
        self.push_word(end_word(to))
    }

    /// Adds a clause, and returns the index at which it begins. Linear in its nodes.
    pub fn push_clause(&mut self, clause: &Term) -> Result<usize, AllocError>
        ensures { IfOk result (λ at. AddsClause clause.now.names.now self.old self.new at (plain (tree_of clause.now))) }
    {
        let at = self.words.len();
        match plain_head(clause) {
            Some(head) => self.push_plain(&head, inside(clause).span().to)?,
            None => self.push_term(clause)?,
        }
        Ok(at)
    }
}
