//! Texts of up to 24 bytes, without memory of their own.

ghost use Rattle.std.specs.Prelude.{◌≡◌, ◌≤◌, length};
ghost use Rattle.std.specs.Str.{bytes_eq};
ghost use Rattle.std.specs.Ordering.{nat_cmp};
ghost use Rattle.std.specs.Cmp.Lexicographic.{slice_cmp};

use std::cmp::Ordering;
use std::marker::Model;
use std::str;

/// How many bytes a short text has at most: three machine words. With its length it takes no more
/// space than a `String` and its variant.
pub const MOST: usize = 24;

/// Texts of fewer bytes are compared byte by byte: gathering so few bytes into numbers takes
/// longer.
const FEW: usize = 4;

/// A text of up to 24 bytes, kept in the value itself: no allocation, since most names of a program
/// are so short. Zeros follow the bytes, so that two texts are compared as a whole.
#[derive(Drop)]
pub struct Short {
    bytes: [u8; MOST],
    len: u8,
}

impl Model for Short {
    ghost use Rattle.std.specs.Prelude.{List, ℕ, ◌≡◌, ◌≤◌, take, IsUtf8};
    ghost use Rattle.prolog_tokens.specs.Padded.{padded};

    ghost Value = { List ℕ };

    ghost view = { λ s. take s.len s.bytes };

    ghost invariant = { λ s. (s.len ≤ 24) × ((s.bytes ≡ padded 24 (take s.len s.bytes)) × ∥ IsUtf8 (take s.len s.bytes) ∥₁) };
}

impl Short {
    /// The text with the bytes of `text`.
    pub fn new(text: &str) -> Short
        requires { length text.now ≤ 24 }
        ensures { result ≡ text.now }
    {
        let found = text.as_bytes();
        let mut bytes = [0; MOST];
        bytes[..found.len()].copy_from_slice(found);
        Short {
            bytes,
            len: found.len() as u8,
        }
    }

    /// The bytes as text.
    pub fn as_str(&self) -> &str
        ensures { result.now ≡ self.now }
    {
        unsafe { str::from_utf8_unchecked(&self.bytes[..self.len as usize]) }
    }

    /// Whether the texts have the same bytes. Both have the same length, and few bytes.
    #[inline(always)]
    fn begins_with(&self, text: &str) -> bool
        requires { length text.now ≡ length self.now }
        ensures { result ≡ bytes_eq self.now text.now }
    {
        let bytes = text.as_bytes();
        for at in 0..bytes.len() {
            if self.bytes[at] != bytes[at] {
                return false;
            }
        }
        true
    }

    /// Whether the text is this one.
    #[inline(always)]
    pub fn is(&self, text: &str) -> bool
        ensures { result ≡ bytes_eq self.now text.now }
    {
        if text.len() != self.len as usize {
            return false;
        }
        if text.len() < FEW {
            return self.begins_with(text);
        }
        self.as_str() == text
    }

    /// Whether the two texts are equal.
    #[inline(always)]
    pub fn is_same(&self, other: &Short) -> bool
        ensures { result ≡ bytes_eq self.now other.now }
    {
        if self.len != other.len {
            return false;
        }
        self.bytes == other.bytes
    }

    /// The order of the texts by their bytes.
    pub fn compare(&self, other: &Short) -> Ordering
        ensures { result ≡ slice_cmp nat_cmp self.now other.now }
    {
        match self.bytes.cmp(&other.bytes) {
            Ordering::Equal => self.len.cmp(&other.len),
            apart => apart,
        }
    }
}
