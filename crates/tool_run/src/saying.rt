//! Writing bytes to a sink.

ghost use Rattle.std.specs.Prelude.{◌≡◌, ◌≤◌};
ghost use Rattle.std.specs.Bool.{OnTrue, OnFalse};
ghost use Rattle.tool_run.specs.Run.{SaidWith};
ghost use Rattle.tool_run.specs.Say.{SaidIs, TookPart, concatenated};
ghost use Rattle.tool_run.specs.Sink.{more_taken};

use crate::sink::{Flushed, MOST_PUT, Put, Sink};

/// Puts all of the bytes, and continues after each partial put. Returns whether all were taken.
pub fn put_all<S: Sink>(sink: &mut S, bytes: &[u8]) -> bool
    ensures all { OnTrue result ((S.seen sink.new).taken ≡ more_taken (S.seen sink.old).taken bytes.now) }
    ensures part { OnFalse result (TookPart bytes.now (S.seen sink.old) (S.seen sink.new)) }
    ensures faults_kept { (S.seen sink.old).faults ≤ (S.seen sink.new).faults }
{
    let mut at = 0;
    while at < bytes.len() {
        let end = at + (bytes.len() - at).min(MOST_PUT);
        match sink.put(&bytes[at..end]) {
            Put::Took(count) => at += count as usize,
            Put::Failed => return false,
        }
    }
    true
}

/// Puts all of the bytes and flushes the sink. Returns whether both succeeded.
#[tactic(auto, using(crate::proofs::Said::taken_unflushed))]
pub fn say<S: Sink>(sink: &mut S, bytes: &[u8]) -> bool
    ensures said { SaidIs bytes.now (S.seen sink.old) (S.seen sink.new) result }
    ensures faults_kept { (S.seen sink.old).faults ≤ (S.seen sink.new).faults }
{
    if !put_all(sink, bytes) {
        return false;
    }
    match sink.flush() {
        Flushed::Done => true,
        Flushed::Failed => false,
    }
}

/// Puts and flushes the bytes, and returns the status, or 5 if the sink failed.
pub fn say_with<S: Sink>(sink: &mut S, bytes: &[u8], status: u8) -> u8
    ensures { SaidWith bytes.now status result (S.seen sink.old, S.seen sink.new) }
{
    if say(sink, bytes) {
        return status;
    }
    5
}

/// Puts all of the texts, one after another. Returns whether all were taken.
fn put_texts<S: Sink>(sink: &mut S, texts: &[Vec<u8>]) -> bool
    ensures all { OnTrue result ((S.seen sink.new).taken ≡ more_taken (S.seen sink.old).taken (concatenated texts.now)) }
    ensures part { OnFalse result (TookPart (concatenated texts.now) (S.seen sink.old) (S.seen sink.new)) }
    ensures faults_kept { (S.seen sink.old).faults ≤ (S.seen sink.new).faults }
{
    for text in texts {
        if !put_all(sink, text) {
            return false;
        }
    }
    true
}

/// Puts all of the texts, one after another, and flushes the sink. Returns 0, or 5 if the sink
/// failed.
#[tactic(auto, using(crate::proofs::Said::taken_unflushed))]
pub fn say_texts<S: Sink>(sink: &mut S, texts: &[Vec<u8>]) -> u8
    ensures { SaidWith (concatenated texts.now) 0 result (S.seen sink.old, S.seen sink.new) }
{
    if !put_texts(sink, texts) {
        return 5;
    }
    match sink.flush() {
        Flushed::Done => 0,
        Flushed::Failed => 5,
    }
}
