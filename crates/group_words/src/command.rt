ghost use Rattle.std.specs.Prelude.{◌≡◌, [], false, map, IfOk, MatchOption};
ghost use Rattle.clap.specs.Words.{app_of, fault_of, found_of, matches_of, rows_of, rule_of};
ghost use Rattle.group_words.specs.ClapCommand.{asked_valued, asked_flag, asked_files, bare_app, words_app};

use clap::error::ErrorKind;
use clap::{Arg, ArgAction, ArgMatches, Command};
use std::alloc::{AllocError, Global};

/// An option with a value.
fn valued_arg<'a>(alloc: Global, name: &'a str) -> Arg<'a>
    ensures rule { rule_of result ≡ asked_valued name.entry.now }
    ensures own { result.global ≡ false }
{
    Arg::new(alloc, name).long(name)
}

/// An option without a value.
fn flag<'a>(alloc: Global, name: &'a str) -> Arg<'a>
    ensures rule { rule_of result ≡ asked_flag name.entry.now }
    ensures own { result.global ≡ false }
{
    Arg::new(alloc, name).long(name).action(ArgAction::SetTrue)
}

/// The arguments that are no options.
fn files<'a>(alloc: Global) -> Arg<'a>
    ensures rule { rule_of result ≡ asked_files }
    ensures own { result.global ≡ false }
{
    Arg::new(alloc, "file").action(ArgAction::Append)
}

fn bare_command<'a>(alloc: Global) -> Command<'a>
    ensures { app_of result ≡ bare_app }
{
    Command::new(alloc, "groups")
        .no_binary_name(true)
        .disable_help_flag(true)
}

/// The command line: no option has a rule about another one, and values are any text.
fn command<'a>(alloc: Global) -> Result<Command<'a>, AllocError>
    ensures { IfOk result (λ made. app_of made ≡ words_app) }
{
    bare_command(alloc)
        .arg(valued_arg(alloc, "jobs"))?
        .arg(valued_arg(alloc, "searches"))?
        .arg(valued_arg(alloc, "seed"))?
        .arg(valued_arg(alloc, "roots"))?
        .arg(valued_arg(alloc, "path"))?
        .arg(flag(alloc, "order"))?
        .arg(flag(alloc, "unreached"))?
        .arg(flag(alloc, "effects"))?
        .arg(flag(alloc, "loops"))?
        .arg(flag(alloc, "stream"))?
        .arg(valued_arg(alloc, "make"))?
        .arg(files(alloc))
}

/// What clap makes of the arguments, or `None` if it rejects them.
pub fn clap_matches<'a>(
    alloc: Global,
    words: &'a [&'a str],
) -> Result<Option<ArgMatches<'a>>, AllocError>
    ensures { IfOk result (λ found. MatchOption found
        (fault_of words_app (map (λ word. word.now) words.entry.now) ≡ [] → ⊥)
        (λ matches. (fault_of words_app (map (λ word. word.now) words.entry.now) ≡ [])
        × (rows_of (found_of matches) ≡ matches_of words_app (map (λ word. word.now) words.entry.now)))) }
{
    match command(alloc)?.try_get_matches_from(words) {
        Ok(matches) => Ok(Some(matches)),
        Err(error) => match error.kind() {
            ErrorKind::OutOfMemory => Err(AllocError),
            _ => Ok(None),
        },
    }
}
