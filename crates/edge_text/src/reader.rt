//! The names and the calls of lines.

ghost use Rattle.std.specs.Prelude.{◌≡◌, ◌<◌, ◌≤◌, ◌+◌, ◌-◌, ◌^◌, ◌++◌, [], ◌∷◌, length, map, drop, slice_range, IfOk, OnOk};
ghost use Rattle.edge_text.specs.declared.limits.TheConstants.{MOST_BYTES, MOST_EDGES};
ghost use Rattle.byte_names.specs.Names.{name_at};
ghost use Rattle.list_laws.specs.Counts.{IsLonger};
ghost use Rattle.edge_text.specs.EdgeGraph.{call_of, calls_of, calls_said};
ghost use Rattle.edge_text.specs.Lines.{said_by, words_of};
ghost use Rattle.edge_text.specs.Read.{AreAdded, IsLineRead, IsNamed, IsTextRead};

use crate::limits::MOST_EDGES;
use crate::line::{is_comment, line_end};
use crate::words::{Word, next_word, word_in};
use byte_names::NameTable;
use flat_graph::Edge;
use std::alloc::{AllocError, Global};
use std::marker::Model;

/// The names and the calls that were read so far. Contracts see the bytes of both.
#[derive(Drop)]
pub struct Reader<'a> {
    pub(crate) names: NameTable<'a>,
    pub(crate) edges: Vec<Edge>,
}

impl<'a> Model for Reader<'a> {
    ghost use Rattle.std.specs.Prelude.{length, All};
    ghost use Rattle.flat_graph.specs.Edges.{IsBelow};
    ghost use Rattle.edge_text.specs.Read.{Read, read_of};

    ghost Value = { Read };

    ghost view = { λ reader. read_of reader.names reader.edges.items };

    ghost invariant = { λ reader. All (IsBelow (length reader.names)) reader.edges.items };
}

impl<'a> Reader<'a> {
    /// Nothing read.
    pub fn new(alloc: Global) -> Result<Reader<'a>, AllocError>
        ensures names { IfOk result (λ reader. reader.names ≡ []) }
        ensures calls { IfOk result (λ reader. reader.calls ≡ []) }
    {
        Ok(Reader {
            names: NameTable::new(alloc)?,
            edges: Vec::new(alloc),
        })
    }

    /// How many calls were read.
    pub fn call_count(&self) -> usize
        ensures { result ≡ length self.now.calls }
    {
        self.edges.len()
    }

    /// The index of a name.
    #[inline(always)]
    pub fn node(&mut self, name: &'a [u8]) -> Result<u32, AllocError>
        requires { length self.old.names < 2 ^ 32 - 1 }
        ensures place { IfOk result (IsNamed name.now self.new.names) }
        ensures names { OnOk result (AreAdded (name.now ∷ []) self.old.names self.new.names) }
        ensures few { OnOk result (length self.new.names ≤ length self.old.names + 1) }
        ensures calls { OnOk result (self.new.calls ≡ self.old.calls) }
    {
        let place = self.names.place_of(name)?;
        Ok(place)
    }

    /// Adds the call between the names of these indices.
    #[inline(always)]
    pub fn call(&mut self, from: u32, to: u32) -> Result<(), AllocError>
        requires from { from < length self.old.names }
        requires to { to < length self.old.names }
        ensures names { OnOk result (self.new.names ≡ self.old.names) }
        ensures calls { OnOk result (self.new.calls ≡ self.old.calls ++ call_of (name_at self.old.names from) (name_at self.old.names to) ∷ []) }
    {
        self.edges.push(Edge { from, to })?;
        Ok(())
    }

    /// Reads the rest of a line from the offset on: each word is a callee of the name of that index.
    /// It stops after too many calls.
    fn read_callees(&mut self, line: &'a [u8], start: usize, from: u32) -> Result<(), AllocError>
        requires start { start ≤ length line.now }
        requires from { from < length self.old.names }
        requires room { length self.old.names + length line.now < 2 ^ 32 - 1 + start }
        ensures names { OnOk result (length self.new.calls ≤ MOST_EDGES → AreAdded (words_of (drop start line.now)) self.old.names self.new.names) }
        ensures few { OnOk result (length self.new.names + start ≤ length self.old.names + length line.now) }
        ensures calls { OnOk result (length self.new.calls ≤ MOST_EDGES
            → self.new.calls ≡ self.old.calls ++ map (call_of (name_at self.old.names from)) (words_of (drop start line.now))) }
        ensures cut { OnOk result (IsLonger self.new.calls
            (self.old.calls ++ map (call_of (name_at self.old.names from)) (words_of (drop start line.now)))) }
    {
        let mut at = start;
        while let Some(word) = next_word(line, at) {
            let to = self.node(word_in(line, word))?;
            self.call(from, to)?;
            if self.call_count() > MOST_EDGES {
                return Ok(());
            }
            at = word.end;
        }
        Ok(())
    }

    /// Reads a line: its first word is the caller, and the others are its callees. It stops after too
    /// many calls.
    fn read_line(&mut self, line: &'a [u8]) -> Result<(), AllocError>
        requires { length self.old.names + length line.now < 2 ^ 32 - 1 }
        ensures read { OnOk result (length self.new.calls ≤ MOST_EDGES → IsLineRead line.now self.old self.new) }
        ensures cut { OnOk result (IsLonger self.new.calls (self.old.calls ++ calls_of (said_by line.now))) }
        ensures few { OnOk result (length self.new.names ≤ length self.old.names + length line.now) }
    {
        if is_comment(line) {
            return Ok(());
        }
        let Some(first) = next_word(line, 0) else {
            return Ok(());
        };
        let from = self.node(word_in(line, first))?;
        self.read_callees(line, first.end, from)?;
        Ok(())
    }

    /// Reads all lines of a text. False if it has too many edges: then not all lines are read.
    pub(crate) fn read_lines(&mut self, text: &'a [u8]) -> Result<bool, AllocError>
        requires small { length text.now ≤ MOST_BYTES }
        requires names { self.old.names ≡ [] }
        requires calls { self.old.calls ≡ [] }
        ensures { IfOk result (IsTextRead text.now self.new) }
    {
        let mut at = 0;
        while at <= text.len() {
            let end = line_end(text, at);
            self.read_line(word_in(text, Word { start: at, end }))?;
            if self.call_count() > MOST_EDGES {
                return Ok(false);
            }
            at = end + 1;
        }
        Ok(true)
    }
}
