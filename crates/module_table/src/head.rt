//! Heads of clauses (ISO/IEC 13211-1, 7.4.3).

ghost use Rattle.std.specs.Prelude.{◌≡◌, ◌==◌, ◌&&◌, IfOk, IfErr, Ok, false, codes};
ghost use Rattle.std.specs.Bool.{OnTrue};
ghost use Rattle.std.specs.Str.{bytes_eq};
ghost use Rattle.prolog_names.specs.Names.{name_at};
ghost use Rattle.prolog_terms.specs.Terms.{tree_of, IsOf};
ghost use Rattle.module_table.specs.Said.{IsWhy};
ghost use Rattle.module_table.specs.Heads.{is_among, control_names, headless_names, named_head, plain_head, behind_modules, head, is_pushback, grammar_head};

use crate::said::{FactFault, refusal};
use crate::terms::is_one_of;
use clause_text::Cause;
use prolog_names::{Names, OPENING_COUNT, opening_law};
use prolog_terms::{ConstKind, Term, TermKind, atom_number, inside, number_and_arity, sides};

fn is_control(name: &str, arity: usize) -> bool
    ensures { result ≡ is_among (control_names arity) name.now }
{
    match arity {
        0 => is_one_of(&["!"], name),
        1 => is_one_of(&["\\+", ":-", "?-"], name),
        2 => is_one_of(&[",", ";", "|", "->", ":-", "-->"], name),
        _ => false,
    }
}

fn is_headless(name: &str, arity: usize) -> bool
    ensures { result ≡ is_among (headless_names arity) name.now }
{
    match arity {
        0 => is_one_of(&["[]", "{}"], name),
        2 => is_one_of(&[":"], name),
        _ => false,
    }
}

/// Whether it is the cut. Of all names that can't be defined, only this one isn't among the opening
/// names.
fn is_cut(names: &Names, name: u32, arity: usize) -> bool
    ensures { result ≡ ((arity == 0) && bytes_eq (name_at names.now name) (codes "!")) }
{
    if arity > 0 {
        return false;
    }
    names.is(name, "!")
}

/// Whether its number shows that a head of this name is allowed. Names that aren't allowed are
/// among the opening ones, except the cut.
fn is_surely_free(names: &Names, name: u32, arity: usize) -> bool
    ensures { OnTrue result ((is_among (control_names arity) (name_at names.now name) ≡ false)
        × (is_among (headless_names arity) (name_at names.now name) ≡ false)) }
{
    opening_law(names);
    if is_cut(names, name, arity) {
        return false;
    }
    name >= OPENING_COUNT
}

/// The number of the name and the arity of what a head of this name defines. Fails if it is a
/// control construct, or no head at all.
fn named_head(term: &Term, name: u32, arity: usize) -> Result<(u32, usize), FactFault>
    ensures ok { IfOk result (λ named. named_head (tree_of term.now) (name_at term.now.names.now name) arity
        ≡ Ok (record { name = name_at term.now.names.now named.0; arity = named.1 })) }
    ensures refused { IfErr result (λ fault. IsWhy (named_head (tree_of term.now) (name_at term.now.names.now name) arity) fault) }
{
    if is_surely_free(term.names, name, arity) {
        return Ok((name, arity));
    }
    let text = term.names.text(name);
    if is_control(text, arity) {
        return Err(refusal(Cause::ControlHead, term));
    }
    if is_headless(text, arity) {
        return Err(refusal(Cause::BadHead, term));
    }
    Ok((name, arity))
}

/// A term in a module, whose name is a number in the names of the term.
#[derive(Clone, Copy)]
pub struct Within<'a> {
    pub module: u32,
    pub term: Term<'a>,
}

/// The term after the names of modules, with the innermost of these, or with `owner` if there are
/// none.
fn behind_modules<'a>(owner: u32, term: &Term<'a>) -> Within<'a>
    ensures is { record { module_ = name_at term.now.names.now result.module; tree = tree_of result.term }
        ≡ behind_modules (name_at term.now.names.now owner) (tree_of term.now) }
    ensures within { IsOf term.now.names.now term.now.nodes.now result.term }
{
    let Some((left, right)) = sides(term, ":") else {
        return Within {
            module: owner,
            term: inside(term),
        };
    };
    match atom_number(&left) {
        Some(own) => behind_modules(own, &right),
        None => Within {
            module: owner,
            term: inside(term),
        },
    }
}

/// The number of the name and the arity of what a head without modules defines.
fn plain_head(term: &Term) -> Result<(u32, usize), FactFault>
    ensures ok { IfOk result (λ named. plain_head (tree_of term.now) ≡ Ok (record { name = name_at term.now.names.now named.0; arity = named.1 })) }
    ensures refused { IfErr result (λ fault. IsWhy (plain_head (tree_of term.now)) fault) }
{
    match number_and_arity(term) {
        Some((name, arity)) => named_head(term, name, arity),
        None => Err(refusal(Cause::BadHead, term)),
    }
}

/// The module, the name and the arity of what a head defines. The names are numbers in those of the
/// head.
#[derive(Clone, Copy)]
pub struct OwnedHead {
    pub module: u32,
    pub name: u32,
    pub arity: usize,
}

/// The predicate that a head defines in a file of the module `owner`.
pub fn head(owner: u32, term: &Term) -> Result<OwnedHead, FactFault>
    ensures ok { IfOk result (λ own. head (name_at term.now.names.now owner) (tree_of term.now)
        ≡ Ok (record { module_ = name_at term.now.names.now own.module; name = name_at term.now.names.now own.name; arity = own.arity })) }
    ensures refused { IfErr result (λ fault. IsWhy (head (name_at term.now.names.now owner) (tree_of term.now)) fault) }
{
    let within = behind_modules(owner, term);
    match plain_head(&within.term) {
        Ok((name, arity)) => Ok(OwnedHead {
            module: within.module,
            name,
            arity,
        }),
        Err(fault) => Err(fault),
    }
}

/// Whether the term can be the pushback of a grammar rule, after the comma in its head.
fn is_pushback(term: &Term) -> bool
    ensures { result ≡ is_pushback (tree_of term.now) }
{
    match inside(term).kind() {
        TermKind::List { .. } => true,
        TermKind::Tailed { .. } => true,
        TermKind::Const { kind, .. } => kind == ConstKind::Str,
        TermKind::Atom { name } => name == "[]",
        _ => false,
    }
}

/// The head of a grammar rule without its pushback.
pub fn grammar_head<'a>(term: &Term<'a>) -> Term<'a>
    ensures tree { tree_of result ≡ grammar_head (tree_of term.now) }
    ensures within { IsOf term.now.names.now term.now.nodes.now result }
{
    let Some((left, right)) = sides(term, ",") else {
        return *term;
    };
    if is_pushback(&right) {
        return left;
    }
    *term
}
