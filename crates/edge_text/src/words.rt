//! Words of a line.

ghost use Rattle.std.specs.Prelude.{◌≡◌, ◌<◌, ◌≤◌, ℕ, true, false, length, slice_index, slice_range, MatchOption, drop, []};
ghost use Rattle.edge_text.specs.Lines.{is_separator, words_of};
ghost use Rattle.edge_text.specs.Words.{AreSeparators, AreUnbroken, IsNextWord, IsNoWord};

/// Where a word of a line starts and ends.
#[derive(Clone, Copy)]
pub(crate) struct Word {
    pub(crate) start: usize,
    pub(crate) end: usize,
}

/// Whether the byte separates words.
#[inline(always)]
fn is_separator(byte: u8) -> bool
    ensures { result ≡ is_separator byte }
{
    byte == b' ' || byte == b'\t' || byte == 11 || byte == 12 || byte == b'\r'
}

/// The first offset from there on that is no separator's, or the length.
#[inline(always)]
fn word_start(line: &[u8], from: usize) -> usize
    requires { from ≤ length line.now }
    ensures from { from ≤ result }
    ensures within { result ≤ length line.now }
    ensures skipped { AreSeparators line.now from result }
    ensures start { result < length line.now → is_separator (slice_index line.now result) ≡ false }
{
    for at in from..line.len() {
        if !is_separator(line[at]) {
            return at;
        }
    }
    line.len()
}

/// The first offset from there on that is a separator's, or the length.
#[inline(always)]
fn word_end(line: &[u8], from: usize) -> usize
    requires { from ≤ length line.now }
    ensures from { from ≤ result }
    ensures within { result ≤ length line.now }
    ensures inside { AreUnbroken line.now from result }
    ensures end { result < length line.now → is_separator (slice_index line.now result) ≡ true }
{
    for at in from..line.len() {
        if is_separator(line[at]) {
            return at;
        }
    }
    line.len()
}

/// The first word of a line from the offset on.
#[inline(always)]
pub(crate) fn next_word(line: &[u8], from: usize) -> Option<Word>
    requires { from ≤ length line.now }
    ensures { MatchOption result (IsNoWord line.now from) (IsNextWord line.now from) }
{
    let start = word_start(line, from);
    if start >= line.len() {
        return None;
    }
    let end = word_end(line, start);
    Some(Word { start, end })
}

/// The bytes of the word.
#[inline(always)]
pub(crate) fn word_in(line: &[u8], word: Word) -> &[u8]
    requires ordered { word.start ≤ word.end }
    requires within { word.end ≤ length line.now }
    ensures { result.now ≡ slice_range line.now word.start word.end }
{
    &line[word.start..word.end]
}
