//! The operators and brackets that are open.

ghost use Rattle.std.specs.Prelude.{◌≡◌, ◌∷◌, ◌+◌, ℕ, List, Bool, [], OnOk, MatchOption, true, false, length, take, reverse, ◌≤◌, ◌<◌, nat_lt};
ghost use Rattle.prolog_terms.specs.declared.stack.Entry.{Entry as EntryKept};
ghost use Rattle.prolog_terms.specs.declared.pending.Pending.TheVariants.{Operator as OperatorKept, Bracket as BracketKept};
ghost use Rattle.prolog_terms.specs.Tree.{Tree};
ghost use Rattle.prolog_terms.specs.Forest.{without};
ghost use Rattle.prolog_terms.specs.ReaderSeen.{bound_seen, separates_seen, floor_seen, want_floor_seen, pushed, reach_seen, right_of};
ghost use Rattle.prolog_terms.specs.ReaderSeen.{is_operator_top, is_bracket_top, is_operator_below, measure, reduced_measure};
ghost use Rattle.prolog_terms.specs.StackSeen.{Names, see_entries, see_pending, see_operator, holds, innermost};

use crate::measure::Measure;
use crate::pending::{
    Bracket, Opened, Operator, Pending, has_parts, inner_depth, pending_bound, priority_of,
    right_bound,
};
use prolog_tokens::Kind;
use std::alloc::{AllocError, Global};

/// An operator or bracket, with what it adds up to with those below: the least depth that it gives
/// the clause, and whether the innermost bracket has parts.
#[derive(Clone, Copy)]
pub struct Entry {
    pub pending: Pending,
    pub reach: usize,
    pub separates: bool,
}

/// The open operators and brackets, the innermost last.
#[derive(Drop)]
pub struct Stack {
    pub entries: Vec<Entry>,
}

/// The entry at the index, from the lowest on.
#[inline(always)]
fn entry_at(entries: &[Entry], at: usize) -> Entry
    requires { at < length entries.now }
    ensures { reverse (take (at + 1) entries.now) ≡ result ∷ reverse (take at entries.now) }
{
    entries[at]
}

/// The measure of the lowest `height` entries with an operand on them.
fn measure_at(entries: &[Entry], height: usize, priority: u32, depth: usize) -> Measure
    requires { height ≤ length entries.now }
    ensures { (names : Names) (trees : List Tree) → result ≡ measure (see_entries names (reverse (take height entries.now)) trees) priority depth }
{
    if height == 0 {
        return Measure {
            height,
            bound: 1200,
            reach: 0,
            priority,
            depth,
        };
    }
    let top = entry_at(entries, height - 1);
    Measure {
        height,
        bound: pending_bound(top.pending),
        reach: top.reach,
        priority,
        depth,
    }
}

impl Stack {
    /// Nothing is open.
    pub fn new(alloc: Global) -> Stack
        ensures { innermost result ≡ [] }
    {
        Stack {
            entries: Vec::new(alloc),
        }
    }

    #[inline(always)]
    fn top(&self) -> Option<&Entry>
        ensures { MatchOption result (innermost self.now ≡ []) (λ top. (below : List EntryKept) × (innermost self.now ≡ top.now ∷ below)) }
    {
        self.entries.last()
    }

    #[inline(always)]
    /// How many operators and brackets are open.
    pub fn height(&self) -> usize
        ensures { (names : Names) (trees : List Tree) → result ≡ length (see_entries names (innermost self.now) trees) }
    {
        self.entries.len()
    }

    /// The greatest priority of what may be on the stack.
    #[inline(always)]
    pub fn bound(&self) -> u32
        ensures { (names : Names) (trees : List Tree) → result ≡ bound_seen (see_entries names (innermost self.now) trees) }
    {
        match self.top() {
            Some(top) => pending_bound(top.pending),
            None => 1200,
        }
    }

    #[inline(always)]
    pub fn reach(&self) -> usize
        ensures { (names : Names) (trees : List Tree) → result ≡ reach_seen (see_entries names (innermost self.now) trees) }
    {
        match self.top() {
            Some(top) => top.reach,
            None => 0,
        }
    }

    /// Whether the innermost bracket has parts.
    #[inline(always)]
    pub fn separates(&self) -> bool
        ensures { (names : Names) (trees : List Tree) → result ≡ separates_seen (see_entries names (innermost self.now) trees) }
    {
        match self.top() {
            Some(top) => top.separates,
            None => false,
        }
    }

    /// The least depth of the clause if an operand of this depth is on the stack.
    #[inline(always)]
    pub fn floor(&self, depth: usize) -> usize
        ensures { (names : Names) (trees : List Tree) → result ≡ floor_seen (see_entries names (innermost self.now) trees) depth }
    {
        self.reach().max(depth.saturating_add(self.height()))
    }

    /// The least depth of the clause if an operand is wanted: one of depth 1, or the closing
    /// bracket of an empty pair.
    pub fn want_floor(&self) -> usize
        ensures { (names : Names) (trees : List Tree) → result ≡ want_floor_seen (see_entries names (innermost self.now) trees) }
    {
        match self.top() {
            Some(
                Entry {
                    pending: Pending::Bracket(Bracket::First(Opened::Square(_))),
                    reach,
                    ..
                },
            ) => *reach,
            Some(
                Entry {
                    pending: Pending::Bracket(Bracket::Wrap(word)),
                    reach,
                    ..
                },
            ) => {
                if word.kind == Kind::OpenCurly {
                    return *reach;
                }
                self.floor(1)
            }
            _ => self.floor(1),
        }
    }

    /// Opens an operator or bracket.
    #[inline(always)]
    pub fn push(&mut self, pending: Pending) -> Result<(), AllocError>
        ensures { OnOk result ((names : Names) (trees : List Tree) → see_entries names (innermost self.new) trees
            ≡ pushed (see_entries names (innermost self.old) (without (holds pending) trees)) (see_pending names pending trees)) }
    {
        let inner = inner_depth(pending)
            .saturating_add(self.height())
            .saturating_add(1);
        let reach = self.reach().max(inner);
        let separates = has_parts(pending, self.separates());
        self.entries.push(Entry {
            pending,
            reach,
            separates,
        })?;
        Ok(())
    }

    #[inline(always)]
    fn pop(&mut self) -> Option<Pending>
        ensures { MatchOption result ((innermost self.old ≡ []) × (innermost self.new ≡ [])) (λ pending. (reach : ℕ) × (separates : Bool)
            × (innermost self.old ≡ record { pending = pending; reach = reach; separates = separates } ∷ innermost self.new)) }
    {
        let top = self.entries.pop()?;
        Some(top.pending)
    }

    /// Removes the innermost operator or bracket.
    #[inline(always)]
    pub fn shorten(&mut self)
        ensures { (top : EntryKept) (below : List EntryKept) → innermost self.old ≡ top ∷ below → innermost self.new ≡ below }
    {
        let _ = self.entries.pop();
    }

    /// The innermost operator, if no bracket is open inside it.
    #[inline(always)]
    pub fn operator(&self) -> Option<&Operator>
        ensures { MatchOption result ((names : Names) (trees : List Tree) → is_operator_top (see_entries names (innermost self.now) trees) ≡ false)
            (λ found. (reach : ℕ) × (separates : Bool) × (below : List EntryKept) × (innermost self.now
            ≡ record { pending = OperatorKept found.now; reach = reach; separates = separates } ∷ below)) }
    {
        let top = self.top()?;
        match &top.pending {
            Pending::Operator(found) => Some(found),
            Pending::Bracket(_) => None,
        }
    }

    /// The innermost operator, if no bracket is open inside it and its right side takes only lower
    /// priorities than this one.
    #[inline(always)]
    pub fn operator_below(&self, priority: u32) -> Option<&Operator>
        ensures { MatchOption result ((names : Names) (trees : List Tree)
            → is_operator_below priority (see_entries names (innermost self.now) trees) ≡ false) (λ found. (reach : ℕ) × (separates : Bool)
            × (below : List EntryKept) × (innermost self.now ≡ record { pending = OperatorKept found.now; reach = reach; separates = separates } ∷ below)
            × ((names : Names) (trees : List Tree) → nat_lt (right_of (see_operator names found.now trees)) priority ≡ true)) }
    {
        let top = self.top()?;
        match &top.pending {
            Pending::Operator(found) => {
                if right_bound(*found) >= priority {
                    return None;
                }
                Some(found)
            }
            Pending::Bracket(_) => None,
        }
    }

    /// Removes and returns the innermost bracket, if no operator is open inside it.
    pub fn pop_bracket(&mut self) -> Option<Bracket>
        ensures { MatchOption result ((names : Names) (trees : List Tree) → is_bracket_top (see_entries names (innermost self.old) trees)
            ≡ false) (λ found. (reach : ℕ) × (separates : Bool) × (innermost self.old
            ≡ record { pending = BracketKept found; reach = reach; separates = separates } ∷ innermost self.new)) }
    {
        match self.pop() {
            Some(Pending::Bracket(found)) => Some(found),
            Some(Pending::Operator(_)) => None,
            None => None,
        }
    }

    /// What is left of the stack with an atom on it, after the operators are closed whose right
    /// side takes only lower priorities than this one.
    pub fn reduced_measure(&self, priority: u32) -> Measure
        ensures { (names : Names) (trees : List Tree) → result ≡ reduced_measure priority (see_entries names (innermost self.now) trees) 0 1 }
    {
        let mut height = self.entries.len();
        let mut above: u32 = 0;
        let mut depth: usize = 1;
        while height > 0 {
            let entry = entry_at(&self.entries, height - 1);
            let Pending::Operator(operator) = entry.pending else {
                return measure_at(&self.entries, height, above, depth);
            };
            if right_bound(operator) >= priority {
                return measure_at(&self.entries, height, above, depth);
            }
            depth = inner_depth(entry.pending).max(depth).saturating_add(1);
            above = priority_of(operator);
            height -= 1;
        }
        measure_at(&self.entries, height, above, depth)
    }
}
