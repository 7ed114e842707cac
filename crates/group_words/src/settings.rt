ghost use Rattle.std.specs.Prelude.{◌≡◌, ◌∷◌, ◌++◌, [], ◌↔◌, ◌≤◌, ◌<◌, ℕ, List, Option, option_map, map, IsTrue, IfOk, IfErr, OnOk, MatchOption};
ghost use Rattle.import_rules.specs.declared.names.PredName.{PredName};
ghost use Rattle.group_words.specs.declared.limits.TheConstants.{MOST_WORKERS};
ghost use Rattle.argument_numbers.specs.Numbers.{IsNumberIn};
ghost use Rattle.group_words.specs.ClapCommand.{given_of, file_words};
ghost use Rattle.group_words.specs.Settings.{Settings, JobsAre, SearchesAre, RootsAre, PathIs, MakeIs, FilesAre, GoTogether};
ghost use Rattle.group_words.specs.Settings.{AreSettings, IsKept, see_options, text_of};

use crate::given::Given;
use crate::limits::{MOST_MADE, MOST_WORKERS};
use crate::options::{Options, WordFault};
use crate::root_list::read_roots;
use argument_numbers::read_number;
use import_rules::PredName;
use module_table::resolve_name;
use prolog_tokens::Text;
use std::alloc::{AllocError, Global};
use std::collections::BTreeSet;

/// A number from 1 to `most`.
fn read_count(text: &str, most: u32) -> Result<u32, WordFault>
    ensures ok { IfOk result (λ count. IsNumberIn 1 most text.now count) }
    ensures usage { IfErr result (λ _. (count : ℕ) → IsNumberIn 1 most text.now count → ⊥) }
{
    match read_number(text, 1, most as u64) {
        Some(count) => Ok(count as u32),
        None => Err(WordFault::Usage),
    }
}

fn jobs_of(text: Option<&str>) -> Result<u32, WordFault>
    ensures ok { IfOk result (λ jobs. JobsAre (text_of text.entry) jobs) }
    ensures usage { IfErr result (λ _. (jobs : ℕ) → JobsAre (text_of text.entry) jobs → ⊥) }
{
    match text {
        Some(number) => read_count(number, MOST_WORKERS),
        None => Ok(1),
    }
}

/// How many searches there are, and the seed of their schedule.
fn both_of(searches: &str, seed: &str) -> Result<(u32, u64), WordFault>
    ensures ok { IfOk result (λ both. IsNumberIn 1 MOST_WORKERS searches.now both.0 × IsNumberIn 0 18446744073709551615 seed.now both.1) }
    ensures usage { IfErr result (λ _. (count start : ℕ) → IsNumberIn 1 MOST_WORKERS searches.now count
        → IsNumberIn 0 18446744073709551615 seed.now start → ⊥) }
{
    let count = read_count(searches, MOST_WORKERS)?;
    match read_number(seed, 0, u64::MAX) {
        Some(start) => Ok((count, start)),
        None => Err(WordFault::Usage),
    }
}

fn searches_of(searches: Option<&str>, seed: Option<&str>) -> Result<Option<(u32, u64)>, WordFault>
    ensures ok { IfOk result (λ both. SearchesAre (text_of searches.entry) (text_of seed.entry) both) }
    ensures usage { IfErr result (λ _. (both : Option (ℕ × ℕ)) → SearchesAre (text_of searches.entry) (text_of seed.entry) both → ⊥) }
{
    match searches {
        Some(count) => match seed {
            Some(start) => Ok(Some(both_of(count, start)?)),
            None => Err(WordFault::Usage),
        },
        None => match seed {
            Some(_) => Err(WordFault::Usage),
            None => Ok(None),
        },
    }
}

fn make_of(text: Option<&str>) -> Result<Option<u32>, WordFault>
    ensures ok { IfOk result (λ make. MakeIs (text_of text.entry) make) }
    ensures usage { IfErr result (λ _. (make : Option ℕ) → MakeIs (text_of text.entry) make → ⊥) }
{
    match text {
        Some(number) => Ok(Some(read_count(number, MOST_MADE)?)),
        None => Ok(None),
    }
}

fn roots_of(alloc: Global, text: Option<&str>) -> Result<Option<Vec<PredName>>, WordFault>
    ensures ok { IfOk result (λ roots. RootsAre (text_of text.entry) (option_map (λ found. found.items) roots)) }
    ensures usage { IfErr result (λ fault. fault ≡ WordFault.Usage → (roots : Option (List PredName)) → RootsAre (text_of text.entry) roots → ⊥) }
{
    let Some(list) = text else {
        return Ok(None);
    };
    match read_roots(alloc, list)? {
        Some(roots) => Ok(Some(roots)),
        None => Err(WordFault::Usage),
    }
}

/// The two items of a list of exactly two.
fn just_two(named: Vec<PredName>) -> Option<(PredName, PredName)>
    ensures { MatchOption result
        ((both : PredName × PredName) → named.items ≡ both.0 ∷ both.1 ∷ [] → ⊥)
        (λ both. named.items ≡ both.0 ∷ both.1 ∷ []) }
{
    let mut left = named;
    let to = left.pop()?;
    let from = left.pop()?;
    if !left.is_empty() {
        return None;
    }
    Some((from, to))
}

/// The start and the end of the path that is asked for, if one is.
fn path_of(alloc: Global, text: Option<&str>) -> Result<Option<(PredName, PredName)>, WordFault>
    ensures ok { IfOk result (λ path. PathIs (text_of text.entry) path) }
    ensures usage { IfErr result (λ fault. fault ≡ WordFault.Usage
        → (path : Option (PredName × PredName)) → PathIs (text_of text.entry) path → ⊥) }
{
    let Some(list) = text else {
        return Ok(None);
    };
    let Some(named) = read_roots(alloc, list)? else {
        return Err(WordFault::Usage);
    };
    match just_two(named) {
        Some(both) => Ok(Some(both)),
        None => Err(WordFault::Usage),
    }
}

/// Appends the name, unless it is there already.
fn keep_name(
    alloc: Global,
    name: Text,
    seen: &mut BTreeSet<Text>,
    kept: &mut Vec<Text>,
) -> Result<(), AllocError>
    ensures { OnOk result ((names : List (List ℕ)) → IsKept names seen.old kept.old.items → IsKept (names ++ name ∷ []) seen.new kept.new.items) }
{
    if seen.insert(Text::new(alloc, name.as_str())?)? {
        kept.push(name)?;
    }
    Ok(())
}

/// The names to which the arguments for files resolve, each once, in their order.
fn names_of(alloc: Global, files: &[&str]) -> Result<Vec<Text>, WordFault>
    ensures ok { IfOk result (λ names. FilesAre (map (λ word. word.now) files.now) names.items) }
    ensures usage { IfErr result (λ fault. fault ≡ WordFault.Usage → (named : List (List ℕ)) → FilesAre (map (λ word. word.now) files.now) named → ⊥) }
{
    let mut seen = BTreeSet::new(alloc);
    let mut kept = Vec::new(alloc);
    for file in files {
        let Some(name) = resolve_name(alloc, "", file)? else {
            return Err(WordFault::Usage);
        };
        keep_name(alloc, name, &mut seen, &mut kept)?;
    }
    Ok(kept)
}

/// Whether the options that the arguments give go together.
fn go_together(given: &Given<'_>) -> bool
    ensures { IsTrue result ↔ GoTogether (given_of given.now) (file_words given.now) }
{
    if given.searches.is_some() && given.jobs.is_some() {
        return false;
    }
    if given.stream && !given.order {
        return false;
    }
    if given.stream && given.searches.is_some() {
        return false;
    }
    if given.make.is_none() {
        return !given.files.is_empty();
    }
    given.roots.is_none()
        && given.path.is_none()
        && !given.order
        && !given.unreached
        && !given.effects
        && !given.loops
        && given.files.is_empty()
}

/// The options that the arguments set, or `Usage` if a value or a combination isn't valid.
pub fn options_of(alloc: Global, given: &Given<'_>) -> Result<Options, WordFault>
    ensures ok { IfOk result (λ options. AreSettings (given_of given.now) (file_words given.now) (see_options options)) }
    ensures usage { IfErr result (λ fault. fault ≡ WordFault.Usage
        → (settings : Settings) → AreSettings (given_of given.now) (file_words given.now) settings → ⊥) }
{
    if !go_together(given) {
        return Err(WordFault::Usage);
    }
    let jobs = jobs_of(given.jobs)?;
    let searches = searches_of(given.searches, given.seed)?;
    let make = make_of(given.make)?;
    let roots = roots_of(alloc, given.roots)?;
    let path = path_of(alloc, given.path)?;
    let files = names_of(alloc, &given.files)?;
    Ok(Options {
        jobs,
        searches,
        roots,
        order: given.order,
        unreached: given.unreached,
        effects: given.effects,
        loops: given.loops,
        stream: given.stream,
        path,
        make,
        files,
    })
}
