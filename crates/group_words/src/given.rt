ghost use Rattle.std.specs.Prelude.{◌≡◌, [], ℕ, List, Option, All, map, option_map, unwrap_or, codes, IfOk, MatchOption};
ghost use Rattle.std.specs.List.{list_all};
ghost use Rattle.std.specs.Str.{IsUtf8};
ghost use Rattle.clap.specs.Words.{all_of, first_of, found_of, rows_of};
ghost use Rattle.group_words.specs.Words.{Key, IsReading, is_plain, is_file};
ghost use Rattle.group_words.specs.ClapCommand.{IsGiven, given_of, file_words, is_set, is_plain_value, has_plain_values};

use crate::command::clap_matches;
use clap::ArgMatches;
use std::alloc::{AllocError, Global};

/// What the arguments give: the values of options, which options without a value there are, and the
/// arguments for files in order.
#[derive(Drop)]
pub struct Given<'a> {
    pub jobs: Option<&'a str>,
    pub searches: Option<&'a str>,
    pub seed: Option<&'a str>,
    pub roots: Option<&'a str>,
    pub path: Option<&'a str>,
    pub order: bool,
    pub unreached: bool,
    pub effects: bool,
    pub loops: bool,
    pub stream: bool,
    pub make: Option<&'a str>,
    pub files: Vec<&'a str>,
}

/// Whether an option without a value is set. One that isn't there has the value `false`.
fn is_set(matches: &ArgMatches<'_>, name: &str) -> bool
    ensures { result ≡ is_set (first_of name.now (rows_of (found_of matches.now))) }
{
    match matches.get_str(name) {
        Some(value) => value == "true",
        None => false,
    }
}

fn files_of<'a>(alloc: Global, matches: &ArgMatches<'a>) -> Result<Vec<&'a str>, AllocError>
    ensures { IfOk result (λ files. map (λ word. word.now) files.items ≡ unwrap_or (all_of (codes "file") (rows_of (found_of matches.now))) []) }
{
    match matches.get_strs("file") {
        Some(words) => Vec::from_slice(alloc, words),
        None => Ok(Vec::new(alloc)),
    }
}

fn given_by<'a>(alloc: Global, matches: &ArgMatches<'a>) -> Result<Given<'a>, AllocError>
    ensures { IfOk result (λ given. IsGiven (rows_of (found_of matches.now)) given) }
{
    let files = files_of(alloc, matches)?;
    Ok(Given {
        jobs: matches.get_str("jobs"),
        searches: matches.get_str("searches"),
        seed: matches.get_str("seed"),
        roots: matches.get_str("roots"),
        path: matches.get_str("path"),
        order: is_set(matches, "order"),
        unreached: is_set(matches, "unreached"),
        effects: is_set(matches, "effects"),
        loops: is_set(matches, "loops"),
        stream: is_set(matches, "stream"),
        make: matches.get_str("make"),
        files,
    })
}

/// Whether the argument isn't empty and doesn't begin with `-`.
fn is_plain(word: &str) -> bool
    ensures { result ≡ is_plain word.now }
{
    match word.as_bytes().first() {
        Some(byte) => *byte != b'-',
        None => false,
    }
}

fn is_plain_value(value: Option<&str>) -> bool
    ensures { result ≡ is_plain_value (option_map (λ text. text.now) value.entry) }
{
    match value {
        Some(text) => is_plain(text),
        None => true,
    }
}

fn has_plain_values(given: &Given<'_>) -> bool
    ensures { result ≡ has_plain_values given.now }
{
    is_plain_value(given.jobs)
        && is_plain_value(given.searches)
        && is_plain_value(given.seed)
        && is_plain_value(given.roots)
        && is_plain_value(given.path)
        && is_plain_value(given.make)
}

/// Whether the argument may be a file: it isn't empty, and it isn't `-`.
fn is_file(word: &str) -> bool
    ensures { result ≡ is_file word.now }
{
    word != "" && word != "-"
}

fn are_files(words: &[&str]) -> bool
    ensures { result ≡ list_all (λ word. is_file word.now) words.now }
{
    words.iter().all(|word| is_file(word))
}

/// What the arguments give, or `None` if they aren't valid options and files.
pub fn read_words<'a>(alloc: Global, words: &'a [&'a str]) -> Result<Option<Given<'a>>, AllocError>
    requires { All IsUtf8 (map (λ word. word.now) words.now) }
    ensures { IfOk result (λ found. MatchOption found
        ((given : Key → Option (List ℕ)) (files : List (List ℕ)) → IsReading (map (λ word. word.now) words.entry.now) given files → ⊥)
        (λ given. IsReading (map (λ word. word.now) words.entry.now) (given_of given) (file_words given))) }
{
    let Some(matches) = clap_matches(alloc, words)? else {
        return Ok(None);
    };
    let given = given_by(alloc, &matches)?;
    if !has_plain_values(&given) {
        return Ok(None);
    }
    if !are_files(&given.files) {
        return Ok(None);
    }
    Ok(Some(given))
}
