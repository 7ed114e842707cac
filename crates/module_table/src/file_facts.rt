//! The facts of a file, from its clauses.

ghost use Rattle.std.specs.Prelude.{◌≡◌, ◌≤◌, ◌+◌, [], IfOk, IfErr, OnOk, Ok, All};
ghost use Rattle.prolog_tokens.specs.declared.limits.TheConstants.{MOST_BYTES};
ghost use Rattle.prolog_names.specs.Names.{name_at};
ghost use Rattle.prolog_terms.specs.Terms.{tree_of};
ghost use Rattle.prolog_terms.specs.Weight.{weight};
ghost use Rattle.clause_text.specs.Clauses.{clause_tree, clause_trees, text_trees};
ghost use Rattle.module_table.specs.Said.{IsWhy};
ghost use Rattle.module_table.specs.Kinds.{with_said};
ghost use Rattle.module_table.specs.Kept.{AreSaid, see_kinds};
ghost use Rattle.module_table.specs.Directives.{home};
ghost use Rattle.module_table.specs.Facts.{clause_head, headed, clause_said, module_of, trees_said, file_said, AreFacts, Facts, see_facts};

use crate::defined::{Defined, group};
use crate::directive::push_directive;
use crate::head::{OwnedHead, grammar_head, head};
use crate::indicator::Indicator;
use crate::kinds::{Kinds, close_directive, module_of_file, none_said};
use crate::load::Load;
use crate::mark::Mark;
use crate::meta::Meta;
use crate::runs::{end_in, push_last, push_run};
use crate::said::FactFault;
use clause_text::{Clause, TextClauses};
use kept_clauses::{KeptClause, KeptList};
use prolog_names::{Names, USER, names_law};
use prolog_terms::{Term, atom_number, binary, sides};
use prolog_tokens::Text;
use std::alloc::Global;
use std::sync::Arc;

/// The goals of a directive: a list whose nodes include those of its clause, and for each goal how
/// many nodes there are up to the goal's own.
#[derive(Drop)]
pub struct DirectiveGoals {
    pub list: Arc<KeptList>,
    pub ends: Vec<usize>,
}

/// What a file says. A file without a module directive belongs to `user`, and then `module_from` is
/// 0 and `exports` is empty. Otherwise `module_from` is the byte offset of the term `module(M, L)`.
#[derive(Drop)]
pub struct FileFacts {
    /// The names of the terms: what numbers of names mean.
    pub names: Names,
    pub file: Text,
    pub module: Text,
    pub is_module: bool,
    pub module_from: u32,
    pub exports: Vec<Indicator>,
    /// One for each file specification that makes a load, in the order of the text.
    pub loads: Vec<Load>,
    /// In order of module, name and arity, each once.
    pub defined: Vec<Defined>,
    /// Declarations of arguments that are goals, in the order of the text.
    pub metas: Vec<Meta>,
    /// Properties that directives declare of predicates, in the order of the text.
    pub marks: Vec<Mark>,
    /// The goals of the directives that have some, in the order of the text.
    pub goals: Vec<DirectiveGoals>,
}

/// The predicate that a clause defines in a file of the module `owner`.
fn clause_head(owner: u32, clause: &Term) -> Result<OwnedHead, FactFault>
    requires { weight (tree_of clause.now) ≤ MOST_BYTES }
    ensures ok { IfOk result (λ own. clause_head (name_at clause.now.names.now owner) (tree_of clause.now)
        ≡ Ok (record { module_ = name_at clause.now.names.now own.module; name = name_at clause.now.names.now own.name; arity = own.arity })) }
    ensures refused { IfErr result (λ fault. IsWhy (clause_head (name_at clause.now.names.now owner) (tree_of clause.now)) fault) }
{
    let Some(pair) = binary(clause) else {
        return head(owner, clause);
    };
    if pair.name == ":-" {
        return head(owner, &pair.left);
    }
    if pair.name != "-->" {
        return head(owner, clause);
    }
    match head(owner, &grammar_head(&pair.left)) {
        Ok(own) => Ok(OwnedHead {
            module: own.module,
            name: own.name,
            arity: own.arity + 2,
        }),
        Err(fault) => Err(fault),
    }
}

/// The predicate that a clause defines in a file of the module `owner`, as it is kept.
fn kept_head(owner: u32, names: &Names, clause: &Clause) -> Result<OwnedHead, FactFault>
    requires { weight (clause_tree names.now clause.now) ≤ MOST_BYTES }
    ensures ok { IfOk result (λ own. clause_head (name_at names.now owner) (clause_tree names.now clause.now)
        ≡ Ok (record { module_ = name_at names.now own.module; name = name_at names.now own.name; arity = own.arity })) }
    ensures refused { IfErr result (λ fault. IsWhy (clause_head (name_at names.now owner) (clause_tree names.now clause.now)) fault) }
{
    match clause.kept(names) {
        KeptClause::Whole(term) => clause_head(owner, &term),
        KeptClause::Plain(form) => Ok(OwnedHead {
            module: owner,
            name: form.head.number,
            arity: form.head.arity as usize,
        }),
    }
}

/// Adds a clause that is no directive. It joins the last run if that has clauses of the same
/// predicate, and otherwise it is a run of its own.
fn push_headed(
    alloc: Global,
    owner: u32,
    names: &Names,
    clause: Clause,
    kinds: &mut Kinds,
) -> Result<(), FactFault>
    requires { weight (clause_tree names.now clause) ≤ MOST_BYTES }
    ensures ok { OnOk result (with_said (see_kinds names.now [] kinds.old)
        (headed (clause_head (name_at names.now owner) (clause_tree names.now clause)) (clause_tree names.now clause))
        ≡ Ok (see_kinds names.now [] kinds.new)) }
    ensures ends { OnOk result (kinds.new.ends ≡ kinds.old.ends) }
    ensures refused { IfErr result (λ fault.
        IsWhy (headed (clause_head (name_at names.now owner) (clause_tree names.now clause)) (clause_tree names.now clause)) fault) }
{
    let own = match kept_head(owner, names, &clause) {
        Ok(own) => own,
        Err(fault) => return Err(fault),
    };
    let arity = own.arity;
    if end_in(&kinds.definitions, own.module, own.name, arity) {
        push_last(alloc, &mut kinds.definitions, clause)?;
        return Ok(());
    }
    push_run(
        &mut kinds.definitions,
        own.module,
        own.name,
        arity as u32,
        clause,
    )?;
    Ok(())
}

/// Adds what a clause says in a file of the module `owner`. `first` is whether it is the first of
/// the file.
fn push_clause(
    alloc: Global,
    file: &str,
    owner: u32,
    first: bool,
    names: &Names,
    clause: Clause,
    kinds: &mut Kinds,
) -> Result<(), FactFault>
    requires light { weight (clause_tree names.now clause) ≤ MOST_BYTES }
    requires closed { kinds.now.ends.items ≡ [] }
    ensures ok { OnOk result (with_said (see_kinds names.now [] kinds.old) (clause_said (home file.now (name_at names.now owner)) first
        (clause_tree names.now clause))
        ≡ Ok (see_kinds names.now [] kinds.new)) }
    ensures ends { OnOk result (kinds.new.ends.items ≡ []) }
    ensures refused { IfErr result (λ fault. IsWhy (clause_said (home file.now (name_at names.now owner)) first (clause_tree names.now clause)) fault) }
{
    let Some(directive) = clause.directive(names) else {
        return push_headed(alloc, owner, names, clause, kinds);
    };
    push_directive(alloc, file, owner, first, &directive, kinds)?;
    close_directive(alloc, kinds, clause.list)?;
    Ok(())
}

/// The number of the module of a file with these clauses.
fn module_of(names: &Names, clauses: &[Clause]) -> u32
    ensures { name_at names.now result ≡ module_of (clause_trees names.now clauses.now) }
{
    names_law(names);
    let Some(first) = clauses.first() else {
        return USER;
    };
    let Some(directive) = first.directive(names) else {
        return USER;
    };
    let Some((name, _exports)) = sides(&directive, "module") else {
        return USER;
    };
    match atom_number(&name) {
        Some(own) => own,
        None => USER,
    }
}

/// All that the clauses say in a file of the module `owner`, by kind.
fn said(
    alloc: Global,
    file: &str,
    owner: u32,
    names: &Names,
    clauses: Vec<Clause>,
) -> Result<Kinds, FactFault>
    requires { All (λ tree. weight tree ≤ MOST_BYTES) (clause_trees names.now clauses.items) }
    ensures ok { IfOk result (λ kinds. AreSaid names.now (trees_said (home file.now (name_at names.now owner)) (clause_trees names.now clauses.items)) kinds) }
    ensures refused { IfErr result (λ fault. IsWhy (trees_said (home file.now (name_at names.now owner)) (clause_trees names.now clauses.items)) fault) }
{
    let mut kinds = none_said(alloc, clauses.len())?;
    let mut first = true;
    for clause in clauses {
        push_clause(alloc, file, owner, first, names, clause, &mut kinds)?;
        first = false;
    }
    Ok(kinds)
}

/// The facts of a file with the clauses of this text (ISO/IEC 13211-1, 7.4), or the first error in
/// the order of the text.
pub fn facts(alloc: Global, file: &str, text: TextClauses) -> Result<FileFacts, FactFault>
    requires { All (λ tree. weight tree ≤ MOST_BYTES) (text_trees text) }
    ensures ok { IfOk result (λ found. AreFacts file.now (text_trees text) (see_facts found)) }
    ensures only { IfOk result (λ found. (other : Facts) → AreFacts file.now (text_trees text) other → other ≡ see_facts found) }
    ensures refused { IfErr result (λ fault. IsWhy (file_said file.now (text_trees text)) fault) }
{
    let names = text.names;
    let clauses = text.clauses;
    let owner = module_of(&names, &clauses);
    let kinds = said(alloc, file, owner, &names, clauses)?;
    let own = module_of_file(alloc, kinds.declared)?;
    let defined = group(alloc, &names, kinds.definitions)?;
    Ok(FileFacts {
        names,
        file: Text::new(alloc, file)?,
        module: own.name,
        is_module: own.is_declared,
        module_from: own.from,
        exports: own.exports,
        loads: kinds.loads,
        defined,
        metas: kinds.takes,
        marks: kinds.marks,
        goals: kinds.goals,
    })
}
