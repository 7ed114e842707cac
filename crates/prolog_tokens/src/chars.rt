ghost use Rattle.std.specs.Prelude.{◌≡◌, ◌≢◌, ◌<◌, ◌≤◌, ◌↔◌, length, slice_index, IsTrue};
ghost use Rattle.prolog_tokens.specs.Chars.{ascii_class, letter_class, past_ascii, class_at as class_of_place, continues, is_graphic};
ghost use Rattle.prolog_tokens.specs.Numbers.{IsChar};

use unicode::properties::{GeneralCategory, is_xid_continue, is_xid_start};

/// The class of a character for the lexer (ISO/IEC 13211-1, 6.5). Those that continue a name come
/// first and the graphic ones next, so that one comparison decides each.
#[derive(Clone, Copy, Debug, PartialEq, Eq)]
pub enum Class {
    Small,
    Capital,
    Digit,
    /// It continues a name, but doesn't begin one.
    Further,
    /// A byte within a character.
    Inner,
    Dot,
    Slash,
    Graphic,
    White,
    SingleQuote,
    DoubleQuote,
    BackQuote,
    RoundOpen,
    RoundClose,
    SquareOpen,
    SquareClose,
    CurlyOpen,
    CurlyClose,
    CommaSign,
    BarSign,
    Percent,
    Solo,
    /// U+FEFF.
    OrderMark,
    Other,
}

impl Class {
    /// Whether the character continues a name.
    #[inline(always)]
    pub fn continues(self) -> bool
        ensures { result ≡ continues self }
    {
        match self {
            Class::Small | Class::Capital | Class::Digit | Class::Further | Class::Inner => true,
            _ => false,
        }
    }

    /// Whether the character occurs in graphic tokens.
    #[inline(always)]
    pub fn is_graphic(self) -> bool
        ensures { result ≡ is_graphic self }
    {
        match self {
            Class::Dot | Class::Slash | Class::Graphic => true,
            _ => false,
        }
    }
}

/// The classes of the ASCII characters, by their codes.
static ASCII_CLASSES: [Class; 128] = [
    Class::Other,
    Class::Other,
    Class::Other,
    Class::Other,
    Class::Other,
    Class::Other,
    Class::Other,
    Class::Other,
    Class::Other,
    Class::White,
    Class::White,
    Class::White,
    Class::White,
    Class::White,
    Class::Other,
    Class::Other,
    Class::Other,
    Class::Other,
    Class::Other,
    Class::Other,
    Class::Other,
    Class::Other,
    Class::Other,
    Class::Other,
    Class::Other,
    Class::Other,
    Class::Other,
    Class::Other,
    Class::Other,
    Class::Other,
    Class::Other,
    Class::Other,
    Class::White,
    Class::Solo,
    Class::DoubleQuote,
    Class::Graphic,
    Class::Graphic,
    Class::Percent,
    Class::Graphic,
    Class::SingleQuote,
    Class::RoundOpen,
    Class::RoundClose,
    Class::Graphic,
    Class::Graphic,
    Class::CommaSign,
    Class::Graphic,
    Class::Dot,
    Class::Slash,
    Class::Digit,
    Class::Digit,
    Class::Digit,
    Class::Digit,
    Class::Digit,
    Class::Digit,
    Class::Digit,
    Class::Digit,
    Class::Digit,
    Class::Digit,
    Class::Graphic,
    Class::Solo,
    Class::Graphic,
    Class::Graphic,
    Class::Graphic,
    Class::Graphic,
    Class::Graphic,
    Class::Capital,
    Class::Capital,
    Class::Capital,
    Class::Capital,
    Class::Capital,
    Class::Capital,
    Class::Capital,
    Class::Capital,
    Class::Capital,
    Class::Capital,
    Class::Capital,
    Class::Capital,
    Class::Capital,
    Class::Capital,
    Class::Capital,
    Class::Capital,
    Class::Capital,
    Class::Capital,
    Class::Capital,
    Class::Capital,
    Class::Capital,
    Class::Capital,
    Class::Capital,
    Class::Capital,
    Class::Capital,
    Class::Capital,
    Class::SquareOpen,
    Class::Graphic,
    Class::SquareClose,
    Class::Graphic,
    Class::Capital,
    Class::BackQuote,
    Class::Small,
    Class::Small,
    Class::Small,
    Class::Small,
    Class::Small,
    Class::Small,
    Class::Small,
    Class::Small,
    Class::Small,
    Class::Small,
    Class::Small,
    Class::Small,
    Class::Small,
    Class::Small,
    Class::Small,
    Class::Small,
    Class::Small,
    Class::Small,
    Class::Small,
    Class::Small,
    Class::Small,
    Class::Small,
    Class::Small,
    Class::Small,
    Class::Small,
    Class::Small,
    Class::CurlyOpen,
    Class::BarSign,
    Class::CurlyClose,
    Class::Graphic,
    Class::Other,
];

/// The class of an ASCII character.
#[inline(always)]
fn ascii_class(byte: u8) -> Class
    requires { byte < 128 }
    ensures { result ≡ ascii_class byte }
{
    ASCII_CLASSES[byte as usize]
}

/// The class of a letter beyond ASCII, by its Unicode category.
fn letter_class(category: GeneralCategory) -> Class
    ensures { result ≡ letter_class category }
{
    match category {
        GeneralCategory::UppercaseLetter | GeneralCategory::TitlecaseLetter => Class::Capital,
        _ => Class::Small,
    }
}

/// The class of a character beyond ASCII.
fn past_ascii(c: char) -> Class
    ensures { result ≡ past_ascii c }
{
    if c.is_whitespace() {
        return Class::White;
    }
    if c == '\u{feff}' {
        return Class::OrderMark;
    }
    if is_xid_start(c) {
        return letter_class(GeneralCategory::for_char(c));
    }
    if is_xid_continue(c) {
        return Class::Further;
    }
    Class::Other
}

/// The class of the character beyond ASCII that begins at the byte offset, and `Inner` within one.
#[cold]
fn far_class_at(text: &str, at: usize) -> Class
    requires within { at < length text.now }
    requires far { 128 ≤ slice_index text.now at }
    ensures { result ≡ class_of_place text.now at }
{
    if text.as_bytes()[at] < 192 {
        return Class::Inner;
    }
    match text[at..].chars().next() {
        Some(c) => past_ascii(c),
        None => Class::Other,
    }
}

/// The class of the character that begins at the byte offset. It is `Inner` within a character, and
/// `Other` past the end.
#[inline(always)]
pub fn class_at(text: &str, at: usize) -> Class
    ensures { result ≡ class_of_place text.now at }
{
    let bytes = text.as_bytes();
    if at >= bytes.len() {
        return Class::Other;
    }
    let byte = bytes[at];
    if byte < 128 {
        return ascii_class(byte);
    }
    far_class_at(text, at)
}

/// Whether the byte at the offset is within a character, and doesn't begin one.
pub fn is_inner(bytes: &[u8], at: usize) -> bool
    requires { at < length bytes.now }
    ensures { IsTrue result ↔ (class_of_place bytes.now at ≡ Class.Inner) }
{
    let byte = bytes[at];
    if byte < 128 {
        return false;
    }
    byte < 192
}

/// The end of the character that begins at the byte offset.
pub fn char_end(bytes: &[u8], at: usize) -> usize
    requires within { at < length bytes.now }
    requires begins { class_of_place bytes.now at ≢ Class.Inner }
    ensures { IsChar bytes.now at result }
{
    let mut end = at + 1;
    while end < bytes.len() {
        if !is_inner(bytes, end) {
            return end;
        }
        end += 1;
    }
    end
}
