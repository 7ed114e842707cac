//! The report on a text, or why there is none.

ghost use Rattle.std.specs.Prelude.{◌≡◌, ◌≤◌, ◌⊎◌, ℕ, List, IfOk, length};
ghost use Rattle.byte_names.specs.Names.{names_of};
ghost use Rattle.component_answer.specs.Searches.{FindsGroups};
ghost use Rattle.component_words.specs.Settings.{see_settings};
ghost use Rattle.edge_text.specs.declared.limits.TheConstants.{MOST_BYTES};
ghost use Rattle.component_tool.specs.End.{end_of, end_of_stop, no_memory, no_node};
ghost use Rattle.component_tool.specs.Run.{IsAnswered, IsReadEnd, wanted_of};

use crate::source::{Source, SourceRead};
use crate::stop::Stop;
use component_answer::{Answer, Form, Reach, Wanted, answer_text};
use component_words::Settings;
use edge_text::MOST_BYTES;
use prolog_tokens::Text;
use std::alloc::{AllocError, Global};

/// The bytes of these names.
fn lent_names<'a>(alloc: Global, names: &'a [Text]) -> Result<Vec<&'a [u8]>, AllocError>
    ensures { IfOk result (λ lent. names_of lent.items ≡ names.entry.now) }
{
    let mut lent = Vec::with_capacity(alloc, names.len())?;
    for name in names {
        lent.push(name.as_str().as_bytes())?;
    }
    Ok(lent)
}

/// What the settings want of the report.
fn wanted_of(settings: &Settings) -> Wanted
    ensures { result ≡ wanted_of (see_settings settings.now) }
{
    let order = settings.order;
    let loops = settings.loops;
    let from_json = settings.from_json;
    if settings.json {
        return Wanted {
            order,
            form: Form::Json,
            loops,
            from_json,
        };
    }
    Wanted {
        order,
        form: Form::Lines,
        loops,
        from_json,
    }
}

/// The report that the settings ask for on a text within the limit of bytes, or why there is none.
fn tell_text<F: FnOnce(Reach<'_>) -> Result<Vec<Vec<u32>>, AllocError>>(
    alloc: Global,
    text: &[u8],
    settings: &Settings,
    search: F,
) -> Result<Vec<u8>, Stop>
    requires callable { F.IsAlwaysCallable search }
    requires finds { FindsGroups (F.post search) }
    requires small { length text.now ≤ MOST_BYTES }
    ensures { (end_of settings.now.file result ≡ no_memory)
        ⊎ IsAnswered (see_settings settings.now) text.now (end_of settings.now.file result) }
{
    let roots = lent_names(alloc, &settings.roots)?;
    match answer_text(alloc, text, &roots, wanted_of(settings), search)? {
        Answer::Report(bytes) => Ok(bytes),
        Answer::Fault(fault) => Err(Stop::Fault(fault)),
        Answer::TooManyEdges => Err(Stop::TooManyEdges),
        Answer::TooManyNodes => Err(Stop::TooManyNodes),
        Answer::NoNode(place) => Err(no_node(alloc, &settings.roots[place])),
    }
}

/// That the root is no node, or that there is no memory for its name.
fn no_node(alloc: Global, root: &Text) -> Stop
    ensures { (file : List ℕ) → (end_of_stop file result ≡ no_memory) ⊎ (end_of_stop file result ≡ no_node root.now) }
{
    match Text::new(alloc, root.as_str()) {
        Ok(name) => Stop::NoNode(name),
        Err(_) => Stop::NoMemory,
    }
}

/// The report on the text of the source that the settings name, or why there is none. `search` finds
/// the groups.
pub fn tell<S: Source, F: FnOnce(Reach<'_>) -> Result<Vec<Vec<u32>>, AllocError>>(
    alloc: Global,
    settings: &Settings,
    source: &mut S,
    search: F,
) -> Result<Vec<u8>, Stop>
    requires callable { F.IsAlwaysCallable search }
    requires finds { FindsGroups (F.post search) }
    ensures { (end_of settings.now.file result ≡ no_memory)
        ⊎ IsReadEnd (see_settings settings.now) (S.seen source.old, S.seen source.new) (end_of settings.now.file result) }
{
    let mut text = Vec::new(alloc);
    match source.read(settings.file.as_str(), &mut text) {
        SourceRead::NoMemory => return Err(Stop::NoMemory),
        SourceRead::Failed => return Err(Stop::Unread),
        SourceRead::Found => {}
    }
    if text.len() > MOST_BYTES {
        return Err(Stop::TooLarge);
    }
    tell_text(alloc, &text, settings, search)
}
