ghost use Rattle.std.specs.Prelude.{◌≡◌, ◌<◌, ◌≤◌, ◌^◌, ◌+◌, ◌-◌, ◌*◌, ◌++◌, ℕ, List, length, All, IfOk, OnOk, IfSome};
ghost use Rattle.prolog_tokens.specs.declared.limits.TheConstants.{MOST_BYTES};
ghost use Rattle.prolog_tokens.specs.Cut.{IsCut, IsTokenOf, StandBetween};
ghost use Rattle.prolog_tokens.specs.Rows.{tokens_of};
ghost use Rattle.prolog_tokens.specs.Quoted.{IsQuoted};
ghost use Rattle.prolog_tokens.specs.Values.{IsQuotedText};
ghost use Rattle.prolog_names.specs.Names.{IsOpened, known_names};
ghost use Rattle.prolog_names.specs.Numbers.{IsNumberOf, AreNumbered, IsNumberedRow, token_rows};
ghost use Rattle.prolog_names.specs.Table.{bytes_of};

use crate::names::{KNOWN_COUNT, Names};
use crate::table::{Guess, NO_GUESS, NameTable};
use prolog_tokens::{Kind, Token, cut_fewer, cut_tokens, name_slice, name_text};
use std::alloc::{AllocError, Global};

/// How many tokens of a text share one bucket on average.
const BUCKET_TOKENS: usize = 4;

/// For how many tokens the table is read at a time.
const AHEAD: usize = 16;

/// The names that each table begins with, whose indices are constants. First come those that the
/// reader asks for, and then the names of the opening operators, in the order of their sides. The
/// name of a module is next, and those of the predicates that take goals are last.
const KNOWN: [&str; KNOWN_COUNT as usize] = [
    "",
    ",",
    "|",
    "[]",
    "{}",
    "-",
    "?-",
    "dynamic",
    "discontiguous",
    "multifile",
    "meta_predicate",
    "mode",
    "public",
    "initialization",
    "table",
    "\\+",
    "\\",
    ":-",
    "+",
    "-->",
    ";",
    "->",
    "=",
    "\\=",
    "==",
    "\\==",
    "@<",
    "@=<",
    "@>",
    "@>=",
    "=..",
    "is",
    "=:=",
    "=\\=",
    "<",
    "=<",
    ">",
    ">=",
    "/\\",
    "\\/",
    "*",
    "/",
    "//",
    "rem",
    "mod",
    "div",
    "<<",
    ">>",
    "**",
    "^",
    ":",
    "user",
    "call",
    "maplist",
    "once",
    "ignore",
    "not",
    "forall",
    "phrase",
    "findall",
    "bagof",
    "setof",
    "catch",
    "!",
];

/// The names of a text, and for each of its tokens the number of its name.
#[derive(Drop)]
pub struct Numbered {
    pub names: Names,
    pub numbers: Vec<u32>,
}

/// Successive tokens of a text, and for each the number of its name.
#[derive(Drop)]
pub struct NumberedRow {
    pub tokens: Vec<Token>,
    pub numbers: Vec<u32>,
}

/// The names of a text, and its tokens in rows with the numbers of their names.
#[derive(Drop)]
pub struct NumberedRows {
    pub names: Names,
    pub rows: Vec<NumberedRow>,
}

/// The table of the known names, with more than `buckets` buckets.
fn known_table(alloc: Global, buckets: usize) -> Result<NameTable, AllocError>
    requires { buckets < 2 ^ 32 }
    ensures { IfOk result (λ table. table ≡ known_names) }
{
    let mut table = NameTable::new(alloc, buckets)?;
    table.place_each(&KNOWN)?;
    Ok(table)
}

/// The text between the quotes of a Quoted token, if it is the name as it is: no quote is doubled
/// in it, and there is no escape.
fn plain_name(text: &str, token: Token) -> Option<&str>
    requires { IsQuoted text.now 39 token.start token.end }
    ensures { IfSome result (λ name. IsQuotedText text.now 39 token.start token.end name.now) }
{
    let from = token.start as usize + 1;
    let to = token.end as usize - 1;
    let inner = &text[from..to];
    for byte in inner.as_bytes() {
        if *byte == b'\'' {
            return None;
        }
        if *byte == b'\\' {
            return None;
        }
    }
    Some(inner)
}

/// The number of the token's name. A name that isn't in the table yet is added.
#[inline(always)]
fn number_of(
    alloc: Global,
    table: &mut NameTable,
    text: &str,
    token: Token,
) -> Result<u32, AllocError>
    requires spelled { IsTokenOf text.now token }
    requires some { 0 < length table.old }
    requires room { length table.old < 4294967295 }
    requires few { bytes_of table.old + 4 * (token.end - token.start) < 2 ^ 32 }
    ensures number { IfOk result (λ number. IsNumberOf text.now table.new token number) }
    ensures kept { OnOk result ((more : List (List ℕ)) × (table.new ≡ table.old ++ more) × (length more ≤ 1)) }
    ensures few { OnOk result (bytes_of table.new ≤ bytes_of table.old + 4 * (token.end - token.start)) }
{
    match token.kind {
        Kind::Name => table.place_of(name_slice(text, token)),
        Kind::Quoted => {
            if let Some(name) = plain_name(text, token) {
                return table.place_of(name);
            }
            let name = name_text(alloc, text, token)?;
            table.place_of(name.as_str())
        }
        _ => Ok(0),
    }
}

/// Where the names of tokens that are names as they are written may be in the table. Any guess is
/// right, so there is no contract for them.
fn guess_each(table: &NameTable, text: &str, tokens: &[Token], guesses: &mut [Guess])
    requires { All (IsTokenOf text.now) tokens.now }
{
    for (at, token) in tokens.iter().enumerate() {
        if token.kind != Kind::Name {
            continue;
        }
        if let Some(guess) = guesses.get_mut(at) {
            *guess = table.guess(name_slice(text, *token));
        }
    }
}

/// The guesses, each looked up in the table.
fn look_up_each(table: &NameTable, guesses: &mut [Guess]) {
    for guess in guesses.iter_mut() {
        *guess = table.looked_up(*guess);
    }
}

/// Guesses where the names of the first tokens are in the table. Each look-up reads memory that is
/// seldom at hand, so the processor is given many of them that don't wait for each other.
fn look_ahead(table: &NameTable, text: &str, tokens: &[Token], guesses: &mut [Guess])
    requires { All (IsTokenOf text.now) tokens.now }
{
    guess_each(table, text, tokens, guesses);
    look_up_each(table, guesses);
}

/// What `number_of` returns, if the guess was made for the token. The table may have grown since.
#[inline(always)]
fn number_near(
    alloc: Global,
    table: &mut NameTable,
    text: &str,
    token: Token,
    guess: Guess,
) -> Result<u32, AllocError>
    requires spelled { IsTokenOf text.now token }
    requires some { 0 < length table.old }
    requires room { length table.old < 4294967295 }
    requires few { bytes_of table.old + 4 * (token.end - token.start) < 2 ^ 32 }
    ensures number { IfOk result (λ number. IsNumberOf text.now table.new token number) }
    ensures kept { OnOk result ((more : List (List ℕ)) × (table.new ≡ table.old ++ more) × (length more ≤ 1)) }
    ensures few { OnOk result (bytes_of table.new ≤ bytes_of table.old + 4 * (token.end - token.start)) }
{
    if token.kind == Kind::Name {
        return table.place_near(name_slice(text, token), guess);
    }
    number_of(alloc, table, text, token)
}

/// The guess for the token at this index.
fn guess_at(guesses: &[Guess], at: usize) -> Guess {
    match guesses.get(at % AHEAD) {
        Some(guess) => *guess,
        None => NO_GUESS,
    }
}

/// The numbers of the names of adjacent tokens of a text. A name that isn't in the table yet is
/// added.
fn number_each(
    alloc: Global,
    table: &mut NameTable,
    text: &str,
    tokens: &[Token],
) -> Result<Vec<u32>, AllocError>
    requires small { length text.now ≤ MOST_BYTES }
    requires stand { (from to : ℕ) × StandBetween text.now from tokens.now to × (to ≤ length text.now)
        × (bytes_of table.old ≤ 4 * from + bytes_of known_names) }
    requires opened { IsOpened table.old }
    requires room { length table.old + length tokens.now < 4294967295 }
    ensures numbered { IfOk result (λ numbers. AreNumbered text.now table.new tokens.now numbers.items) }
    ensures kept { OnOk result ((more : List (List ℕ)) × (table.new ≡ table.old ++ more) × (length more ≤ length tokens.now)) }
    ensures few { OnOk result ((from to : ℕ) → StandBetween text.now from tokens.now to → bytes_of table.old ≤ 4 * from + bytes_of known_names
        → bytes_of table.new ≤ 4 * to + bytes_of known_names) }
{
    cut_tokens();
    let mut numbers = Vec::with_capacity(alloc, tokens.len())?;
    let mut guesses = [NO_GUESS; AHEAD];
    for (at, token) in tokens.iter().enumerate() {
        if at % AHEAD == 0 {
            let end = tokens.len().min(at + AHEAD);
            look_ahead(table, text, &tokens[at..end], &mut guesses);
        }
        let guess = guess_at(&guesses, at);
        let number = number_near(alloc, table, text, *token, guess)?;
        numbers.push(number)?;
    }
    Ok(numbers)
}

/// For each token of a text of at most 8,388,608 bytes the number of its name, in the order of the
/// tokens, and 0 for a token without a name.
///
/// Fails only if memory runs out. A look-up passes at most 32 names of a chain, or else takes steps
/// in the logarithm of the number of names.
pub fn number_names(alloc: Global, text: &str, tokens: &[Token]) -> Result<Numbered, AllocError>
    requires small { length text.now ≤ MOST_BYTES }
    requires cut { IsCut text.now tokens.now }
    ensures { IfOk result (λ numbered. AreNumbered text.now numbered.names tokens.now numbered.numbers.items) }
{
    cut_fewer();
    let buckets = tokens.len() / BUCKET_TOKENS + KNOWN.len();
    let mut table = known_table(alloc, buckets)?;
    let numbers = number_each(alloc, &mut table, text, tokens)?;
    let names = Names { table };
    Ok(Numbered { names, numbers })
}

/// How many tokens the rows have.
fn count_tokens(rows: &[Vec<Token>]) -> usize
    requires { length (tokens_of rows.now) ≤ MOST_BYTES }
    ensures { result ≡ length (tokens_of rows.now) }
{
    let mut count = 0;
    for row in rows {
        count += row.len();
    }
    count
}

/// What `number_names` returns, for the tokens of a text in rows: each row with its numbers, which
/// are those of one table of names.
pub fn number_rows(
    alloc: Global,
    text: &str,
    rows: Vec<Vec<Token>>,
) -> Result<NumberedRows, AllocError>
    requires small { length text.now ≤ MOST_BYTES }
    requires cut { IsCut text.now (tokens_of rows.items) }
    ensures tokens { IfOk result (λ numbered. token_rows numbered.rows.items ≡ rows.items) }
    ensures numbers { IfOk result (λ numbered. All (IsNumberedRow text.now numbered.names) numbered.rows.items) }
{
    cut_fewer();
    let buckets = count_tokens(&rows) / BUCKET_TOKENS + KNOWN.len();
    let mut table = known_table(alloc, buckets)?;
    let mut done = Vec::with_capacity(alloc, rows.len())?;
    for tokens in rows {
        let numbers = number_each(alloc, &mut table, text, &tokens)?;
        done.push(NumberedRow { tokens, numbers })?;
    }
    let names = Names { table };
    Ok(NumberedRows { names, rows: done })
}
