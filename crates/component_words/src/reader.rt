//! Arguments, one after another.

ghost use Rattle.std.specs.Prelude.{◌≡◌, ◌<◌, ◌≤◌, ℕ, [], false, IfOk, OnOk, MatchOption};
ghost use Rattle.component_words.specs.Continue.{Continues, IsNewReader, Takes, TakesFlag, TakesOperand, TakesValue, as_list, given_of};
ghost use Rattle.component_words.specs.Settings.{AreFile, AreJobs, AreSettings, IsOnce, Settings as SettingsOf, see_settings};
ghost use Rattle.component_words.specs.Words.{is_operand, is_plain};
ghost use Rattle.component_words.specs.declared.reader.Next.TheVariants.{Any, Value, Operand};

use crate::flag::{Flag, flag_named, is_given};
use crate::settings::{MOST_JOBS, STANDARD_INPUT, Settings};
use crate::valued::{Valued, joined_value, valued_named};
use crate::words::{is_filled, is_operand, is_plain};
use argument_numbers::read_number;
use prolog_tokens::Text;
use std::alloc::{AllocError, Global};

/// What the next argument may be.
#[derive(Clone, Copy, Drop)]
pub(crate) enum Next {
    /// An option or an operand.
    Any,
    /// The value of the option.
    Value(Valued),
    /// An operand, after `--`.
    Operand,
}

/// What the arguments so far give.
#[derive(Drop)]
pub(crate) struct Reader {
    alloc: Global,
    next: Next,
    flags: Vec<Flag>,
    roots: Vec<Text>,
    jobs: Option<Text>,
    file: Option<Text>,
}

impl Reader {
    /// Before any argument.
    pub(crate) fn new(alloc: Global) -> Reader
        ensures new { IsNewReader result }
        ensures once { IsOnce result.flags.items }
    {
        Reader {
            alloc,
            next: Next::Any,
            flags: Vec::new(alloc),
            roots: Vec::new(alloc),
            jobs: None,
            file: None,
        }
    }

    /// Takes the one operand. False if there is one already, or if it is empty.
    fn take_operand(&mut self, word: &str) -> Result<bool, AllocError>
        ensures takes { IfOk result (TakesOperand self.old word.now self.new) }
        ensures flags { self.new.flags ≡ self.old.flags }
    {
        if !is_filled(word) {
            return Ok(false);
        }
        if self.file.is_some() {
            return Ok(false);
        }
        self.file = Some(Text::new(self.alloc, word)?);
        Ok(true)
    }

    /// Takes the value of an option. False if it is the second one of `--jobs`.
    fn push_value(&mut self, valued: Valued, value: &str) -> Result<bool, AllocError>
        ensures takes { IfOk result (TakesValue self.old valued value.now self.new) }
        ensures flags { self.new.flags ≡ self.old.flags }
    {
        match valued {
            Valued::Roots => self.roots.push(Text::new(self.alloc, value)?)?,
            Valued::Jobs => {
                if self.jobs.is_some() {
                    return Ok(false);
                }
                self.jobs = Some(Text::new(self.alloc, value)?);
            }
        }
        self.next = Next::Any;
        Ok(true)
    }

    /// Takes a flag. False if it is given already.
    fn take_flag(&mut self, flag: Flag) -> Result<bool, AllocError>
        requires { IsOnce self.old.flags.items }
        ensures takes { IfOk result (TakesFlag self.old flag self.new) }
        ensures once { OnOk result (IsOnce self.new.flags.items) }
    {
        if is_given(&self.flags, flag) {
            return Ok(false);
        }
        self.flags.push(flag)?;
        Ok(true)
    }

    /// Takes an option.
    fn take_option(&mut self, word: &str) -> Result<bool, AllocError>
        requires any { self.old.next ≡ Any }
        requires option { is_operand word.now ≡ false }
        requires once { IsOnce self.old.flags.items }
        ensures takes { IfOk result (Takes self.old word.now self.new) }
        ensures once { OnOk result (IsOnce self.new.flags.items) }
    {
        if word == "--" {
            self.next = Next::Operand;
            return Ok(true);
        }
        if let Some(valued) = valued_named(word) {
            self.next = Next::Value(valued);
            return Ok(true);
        }
        if let Some((valued, value)) = joined_value(word) {
            if !is_filled(value) {
                return Ok(false);
            }
            return self.push_value(valued, value);
        }
        match flag_named(word) {
            Some(flag) => self.take_flag(flag),
            None => Ok(false),
        }
    }

    /// Takes an option or an operand.
    fn take_any(&mut self, word: &str) -> Result<bool, AllocError>
        requires any { self.old.next ≡ Any }
        requires once { IsOnce self.old.flags.items }
        ensures takes { IfOk result (Takes self.old word.now self.new) }
        ensures once { OnOk result (IsOnce self.new.flags.items) }
    {
        if is_operand(word) {
            return self.take_operand(word);
        }
        self.take_option(word)
    }

    /// Takes the value of an option that is an argument of its own.
    fn take_value(&mut self, valued: Valued, word: &str) -> Result<bool, AllocError>
        requires value { self.old.next ≡ Value valued }
        requires once { IsOnce self.old.flags.items }
        ensures takes { IfOk result (Takes self.old word.now self.new) }
        ensures once { OnOk result (IsOnce self.new.flags.items) }
    {
        if !is_plain(word) {
            return Ok(false);
        }
        self.push_value(valued, word)
    }

    /// Takes the argument. False if no arguments that go on so are valid.
    pub(crate) fn take(&mut self, word: &str) -> Result<bool, AllocError>
        requires once { IsOnce self.old.flags.items }
        ensures takes { IfOk result (Takes self.old word.now self.new) }
        ensures once { OnOk result (IsOnce self.new.flags.items) }
    {
        match self.next {
            Next::Any => self.take_any(word),
            Next::Value(valued) => self.take_value(valued, word),
            Next::Operand => self.take_operand(word),
        }
    }

    /// What the arguments set if there are no more of them and none is missing, or None if `--jobs`
    /// has no valid number.
    fn into_settings(self) -> Result<Option<Settings>, AllocError>
        requires { IsOnce self.flags.items }
        ensures { IfOk result (λ found. MatchOption found
            ((settings : SettingsOf) → AreSettings (given_of self) settings → ⊥)
            (λ settings. AreSettings (given_of self) (see_settings settings))) }
    {
        let Some(jobs) = jobs_of(&self.jobs) else {
            return Ok(None);
        };
        let order = is_given(&self.flags, Flag::Order);
        let json = is_given(&self.flags, Flag::Json);
        let loops = is_given(&self.flags, Flag::Loops);
        let from_json = is_given(&self.flags, Flag::FromJson);
        let Reader {
            alloc,
            roots,
            file,
            ..
        } = self;
        let file = file_of(alloc, file)?;
        Ok(Some(Settings {
            order,
            json,
            loops,
            from_json,
            jobs,
            roots,
            file,
        }))
    }

    /// What the arguments set if there are no more of them, or None if they aren't valid.
    pub(crate) fn settings(self) -> Result<Option<Settings>, AllocError>
        requires { IsOnce self.flags.items }
        ensures { IfOk result (λ found. MatchOption found
            ((settings : SettingsOf) → Continues self [] settings → ⊥)
            (λ settings. Continues self [] (see_settings settings))) }
    {
        match self.next {
            Next::Value(_) => Ok(None),
            Next::Any => self.into_settings(),
            Next::Operand => self.into_settings(),
        }
    }
}

/// How many threads search, if that is a valid number.
fn jobs_of(jobs: &Option<Text>) -> Option<u32>
    ensures { MatchOption result ((n : ℕ) → AreJobs (as_list jobs.now) n → ⊥) (λ n. AreJobs (as_list jobs.now) n × (0 < n) × (n ≤ 64)) }
{
    let Some(word) = jobs else {
        return Some(1);
    };
    match read_number(word.as_str(), 1, u64::from(MOST_JOBS)) {
        Some(number) => Some(number as u32),
        None => None,
    }
}

/// The file that is read.
fn file_of(alloc: Global, file: Option<Text>) -> Result<Text, AllocError>
    ensures { IfOk result (λ found. AreFile (as_list file) found) }
{
    match file {
        Some(file) => Ok(file),
        None => Text::new(alloc, STANDARD_INPUT),
    }
}
