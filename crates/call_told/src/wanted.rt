//! The command-line arguments of `calls`.

ghost use Rattle.std.specs.Prelude.{◌≡◌, ◌≤◌, ◌||◌, ◌++◌, codes, count_by, filter, length, nat_eq, IfOk, IfErr, MatchOption, OnOk};
ghost use Rattle.std.specs.List.{list_all, starts_with};
ghost use Rattle.call_told.specs.Wanted.{Asked, AreAsked, FormWords, IsNothingAsked, count_forms, form_words, front_count, front_words};
ghost use Rattle.call_told.specs.Wanted.{is_condensed, is_dot, is_end, is_form, is_known, is_other, is_shared, is_undefined, other_words, see_wanted};
ghost use Rattle.call_told.specs.declared.wanted.Form.{Form as FormHere};

use group_words::{Options, WordFault, parse_words};
use prolog_tokens::Text;
use std::alloc::{AllocError, Global};

/// What is printed.
#[derive(Clone, Copy, Debug, PartialEq, Eq)]
pub enum Form {
    /// Predicates, clauses and calls, as JSON Lines.
    Lines,
    /// The calls whose names mean no predicate, as JSON Lines.
    Undefined,
    /// The graph of the predicates.
    Dot,
    /// The graph of the groups, and of predicates that are in none.
    Condensed,
}

/// What the arguments ask for: a form, and of the options of `groups` the roots, whether predicates
/// that no root reaches are listed too, and the files.
#[derive(Drop)]
pub struct Wanted {
    pub form: Form,
    pub options: Options,
}

/// Whether no argument after this one is an option.
fn is_end(word: &Text) -> bool
    ensures { result ≡ is_end word.now }
{
    word.as_str() == "--"
}

fn is_undefined(word: &Text) -> bool
    ensures { result ≡ is_undefined word.now }
{
    word.as_str() == "--undefined"
}

fn is_dot(word: &Text) -> bool
    ensures { result ≡ is_dot word.now }
{
    word.as_str() == "--dot"
}

fn is_condensed(word: &Text) -> bool
    ensures { result ≡ is_condensed word.now }
{
    word.as_str() == "--condensed"
}

/// Whether the argument is one that names a form.
fn is_form(word: &Text) -> bool
    ensures { result ≡ is_form word.now }
{
    if is_undefined(word) {
        return true;
    }
    if is_dot(word) {
        return true;
    }
    is_condensed(word)
}

/// Whether the argument begins with `--`.
fn begins_as_option(word: &str) -> bool
    ensures { result ≡ starts_with nat_eq word.now (codes "--") }
{
    word.starts_with("--")
}

/// Whether the argument is `--roots=LIST`.
fn gives_roots(word: &str) -> bool
    ensures { result ≡ starts_with nat_eq word.now (codes "--roots=") }
{
    word.starts_with("--roots=")
}

/// Whether the argument is no option, or an option of `groups` that this program takes too.
fn is_shared(word: &str) -> bool
    ensures { result ≡ is_shared word.now }
{
    if !begins_as_option(word) {
        return true;
    }
    if word == "--roots" {
        return true;
    }
    if gives_roots(word) {
        return true;
    }
    word == "--unreached"
}

/// Whether the argument is no option, or one that this program takes.
fn is_known(word: &Text) -> bool
    ensures { result ≡ is_known word.now }
{
    if is_form(word) {
        return true;
    }
    is_shared(word.as_str())
}

/// How many arguments are before the first `--`.
fn front_count(words: &[Text]) -> usize
    ensures is { result ≡ front_count words.now }
    ensures within { result ≤ length words.now }
{
    for (at, word) in words.iter().enumerate() {
        if is_end(word) {
            return at;
        }
    }
    words.len()
}

fn are_known(words: &[Text]) -> bool
    ensures { result ≡ list_all is_known words.now }
{
    words.iter().all(|word| is_known(word))
}

fn undefined_count(words: &[Text]) -> usize
    ensures { result ≡ count_by is_undefined words.now }
{
    words.iter().filter(|word| is_undefined(word)).count()
}

fn dot_count(words: &[Text]) -> usize
    ensures { result ≡ count_by is_dot words.now }
{
    words.iter().filter(|word| is_dot(word)).count()
}

fn condensed_count(words: &[Text]) -> usize
    ensures { result ≡ count_by is_condensed words.now }
{
    words.iter().filter(|word| is_condensed(word)).count()
}

/// The form that is named by each of the options so often, if one is.
fn form_of(undefined: usize, dot: usize, condensed: usize) -> Option<Form>
    ensures { let named : FormWords = record { undefined = undefined; dot = dot; condensed = condensed } in
        MatchOption result ((form : FormHere) → named ≡ form_words form → ⊥) (λ form. named ≡ form_words form) }
{
    match (undefined, dot, condensed) {
        (0, 0, 0) => Some(Form::Lines),
        (1, 0, 0) => Some(Form::Undefined),
        (0, 1, 0) => Some(Form::Dot),
        (0, 1, 1) => Some(Form::Condensed),
        _ => None,
    }
}

/// The form that the arguments name, if they name at most one.
fn named_form(words: &[Text]) -> Option<Form>
    ensures { MatchOption result ((form : FormHere) → count_forms words.now ≡ form_words form → ⊥) (λ form. count_forms words.now ≡ form_words form) }
{
    let undefined = undefined_count(words);
    let dot = dot_count(words);
    let condensed = condensed_count(words);
    form_of(undefined, dot, condensed)
}

/// Adds the arguments that name no form.
fn push_others(alloc: Global, words: &[Text], others: &mut Vec<Text>) -> Result<(), AllocError>
    ensures { OnOk result (others.new.items ≡ others.old.items ++ filter is_other words.now) }
{
    for word in words {
        if is_form(word) {
            continue;
        }
        others.push(Text::new(alloc, word.as_str())?)?;
    }
    Ok(())
}

/// Adds the arguments.
fn push_words(alloc: Global, words: &[Text], others: &mut Vec<Text>) -> Result<(), AllocError>
    ensures { OnOk result (others.new.items ≡ others.old.items ++ words.now) }
{
    for word in words {
        others.push(Text::new(alloc, word.as_str())?)?;
    }
    Ok(())
}

/// The arguments before the first `--`.
fn front_of(words: &[Text]) -> &[Text]
    ensures { result.now ≡ front_words words.now }
{
    &words[..front_count(words)]
}

/// All arguments except those before `--` that name a form.
fn other_words(alloc: Global, words: &[Text]) -> Result<Vec<Text>, AllocError>
    ensures { IfOk result (λ more. more.items ≡ other_words words.now) }
{
    let count = front_count(words);
    let mut others = Vec::new(alloc);
    push_others(alloc, &words[..count], &mut others)?;
    push_words(alloc, &words[count..], &mut others)?;
    Ok(others)
}

/// What the arguments ask for, or `Usage` if they aren't valid. Valid are at most one of
/// `--undefined` and `--dot`, once, `--condensed` once if `--dot` is there too, and `--roots LIST`,
/// `--unreached` and the files as in `groups`, and nothing else.
pub fn read_wanted(alloc: Global, words: &[Text]) -> Result<Wanted, WordFault>
    ensures ok { IfOk result (λ wanted. AreAsked words.now (see_wanted wanted)) }
    ensures only { IfOk result (λ wanted. (asked : Asked) → AreAsked words.now asked → asked ≡ see_wanted wanted) }
    ensures usage { IfErr result (λ fault. fault ≡ WordFault.Usage → IsNothingAsked (AreAsked words.now)) }
{
    let front = front_of(words);
    if !are_known(front) {
        return Err(WordFault::Usage);
    }
    let Some(form) = named_form(front) else {
        return Err(WordFault::Usage);
    };
    let others = other_words(alloc, words)?;
    match parse_words(alloc, &others) {
        Ok(options) => Ok(Wanted { form, options }),
        Err(fault) => Err(fault),
    }
}
