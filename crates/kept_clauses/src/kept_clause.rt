ghost use Rattle.std.specs.Prelude.{◌≡◌, ℕ, List, [], ◌∷◌, drop, IfSome, MatchOption};
ghost use Rattle.kept_clauses.specs.Views.{see_call, see_goal, see_goals, HasNames, IsSoundGoal};
ghost use Rattle.kept_clauses.specs.Words.{call_in, end_in};

use crate::kept_list::KeptList;
use crate::reserved::reserved_law;
use crate::words::{Kind, arity_in, kind_of, number_in, offset_in};
use prolog_names::Names;
use prolog_terms::Term;

/// A call, or the head of a clause: the byte offset at which the goal or the clause starts, the
/// number of the name in the names of its text, and how many arguments there are.
#[derive(Clone, Copy)]
pub struct KeptCall {
    pub at: u32,
    pub number: u32,
    pub arity: u32,
}

/// A goal of a kept clause: one call in the module of the clause, or a term that may call more.
#[derive(Clone, Copy)]
pub enum KeptGoal<'a> {
    Call(KeptCall),
    Whole(Term<'a>),
}

/// Goals of a kept clause, from a word on up to the end of the clause.
#[derive(Clone, Copy)]
pub struct KeptGoals<'a> {
    pub names: &'a Names,
    pub list: &'a KeptList,
    pub at: usize,
}

/// The plain form of a clause: its head, and its goals if it is a rule.
#[derive(Clone, Copy)]
pub struct PlainForm<'a> {
    pub head: KeptCall,
    pub is_rule: bool,
    pub goals: KeptGoals<'a>,
}

/// A kept clause: its plain form, or the whole term if it has none.
#[derive(Clone, Copy)]
pub enum KeptClause<'a> {
    Plain(PlainForm<'a>),
    Whole(Term<'a>),
}

/// The head or the call that the word is.
pub(crate) fn call_of(word: u64) -> KeptCall
    ensures { (names : List (List ℕ)) → see_call names result ≡ call_in names word }
{
    KeptCall {
        at: offset_in(word),
        number: number_in(word),
        arity: arity_in(word),
    }
}

impl<'a> KeptGoals<'a> {
    /// The first goal, and the goals after it.
    pub fn split_first(&self) -> Option<(KeptGoal<'a>, KeptGoals<'a>)>
        ensures goals { MatchOption result (see_goals self.now ≡ []) (λ pair. see_goals self.now ≡ see_goal self.now.names.now pair.0 ∷ see_goals pair.1) }
        ensures sound { IfSome result (λ pair. IsSoundGoal (see_goal self.now.names.now pair.0)) }
        ensures within { IfSome result (λ pair. pair.1.names.now ≡ self.now.names.now) }
        ensures names { IfSome result (λ pair. HasNames self.now.names.now pair.0) }
    {
        reserved_law(self.names);
        let Some(word) = self.list.word(self.at) else {
            return None;
        };
        let rest = KeptGoals {
            names: self.names,
            list: self.list,
            at: self.at + 1,
        };
        match kind_of(word) {
            Kind::Call => Some((KeptGoal::Call(call_of(word)), rest)),
            Kind::Term => Some((KeptGoal::Whole(self.list.term(self.names, word)), rest)),
            Kind::Fact => None,
            Kind::Rule => None,
            Kind::End => None,
        }
    }

    /// The byte offset at which the clause ends. Linear in its goals.
    pub fn end(&self) -> u32
        ensures { result ≡ end_in (drop self.now.at self.now.list.now.0) }
    {
        let mut at = self.at;
        while let Some(word) = self.list.word(at) {
            match kind_of(word) {
                Kind::Call => at += 1,
                Kind::Term => at += 1,
                Kind::End => return (word / 8 % 4_294_967_296) as u32,
                Kind::Fact => return 0,
                Kind::Rule => return 0,
            }
        }
        0
    }
}
