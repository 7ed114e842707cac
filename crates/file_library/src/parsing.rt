ghost use Rattle.std.specs.Prelude.{◌≡◌, ◌≢◌, ◌≤◌, List, Some, All, IfOk, IfErr, length};
ghost use Rattle.std.specs.List.{AllZip, flat_map};
ghost use Rattle.prolog_tokens.specs.declared.limits.TheConstants.{MOST_BYTES};
ghost use Rattle.module_table.specs.Facts.{see_facts};
ghost use Rattle.module_table.specs.FileText.{HasFacts};
ghost use Rattle.file_library.specs.declared.answer.Answer.{Answer as AnswerOf};
ghost use Rattle.file_library.specs.AskedFile.{see_content, see_file, text_of, IsTold, IsFaultOf, IsSmall, IsParsed, AreParsed, items_in};

use crate::answer::Answer;
use crate::asked_file::{AskedFile, Content};
use clause_text::{TextFault, read_text};
use module_table::{FactFault, FileFacts, facts};
use std::alloc::{AllocError, Global};
use std::thread::{self, Threads};

/// Into how many lists the files of a wave are cut at most, which are parsed in parallel.
const MOST_LISTS: usize = 64;

/// The files with these bytes, in the same order. They are parsed in parallel.
pub(crate) fn parse_wave<R: Threads + Sync>(
    rt: &R,
    alloc: Global,
    answers: Vec<Answer>,
) -> Result<Vec<AskedFile>, AllocError>
    requires { All IsSmall answers.items }
    ensures { IfOk result (λ files. AllZip IsParsed answers.items files.items) }
{
    let lists = cut(alloc, answers)?;
    let parse = |list: Vec<Answer>| -> Result<Vec<AskedFile>, AllocError>
        requires { All IsSmall list.items }
        ensures { AreParsed list.items result }
    { parse_list(rt, alloc, list) };
    let parsed = thread::map_vec(rt, lists, &parse)?;
    joined_files(alloc, parsed)
}

/// The answers in at most 64 lists, in order.
fn cut(alloc: Global, answers: Vec<Answer>) -> Result<Vec<Vec<Answer>>, AllocError>
    ensures all { IfOk result (λ lists. items_in lists.items ≡ answers.items) }
    ensures few { IfOk result (λ lists. length lists.items ≤ 64) }
{
    let size = answers.len() / MOST_LISTS + 1;
    let mut lists = Vec::new(alloc);
    let mut rest = answers;
    while rest.len() > size {
        let more = rest.split_off(size)?;
        lists.push(rest)?;
        rest = more;
    }
    lists.push(rest)?;
    Ok(lists)
}

/// The files of one list, one after another.
fn parse_list<R: Threads + Sync>(
    rt: &R,
    alloc: Global,
    list: Vec<Answer>,
) -> Result<Vec<AskedFile>, AllocError>
    requires { All IsSmall list.items }
    ensures { AreParsed list.items result }
{
    let mut files = Vec::new(alloc);
    for answer in list {
        files.push(parse_one(rt, alloc, answer)?)?;
    }
    Ok(files)
}

/// The files of all lists, in order.
fn joined_files(
    alloc: Global,
    lists: Vec<Result<Vec<AskedFile>, AllocError>>,
) -> Result<Vec<AskedFile>, AllocError>
    ensures { IfOk result (λ all. (answers : List (List AnswerOf)) → AllZip AreParsed answers lists.items
        → AllZip IsParsed (flat_map (λ list. list) answers) all.items) }
{
    let mut all = Vec::new(alloc);
    for list in lists {
        let mut list = list?;
        all.append(&mut list)?;
    }
    Ok(all)
}

/// What the file of the answer is.
fn parse_one<R: Threads + Sync>(
    rt: &R,
    alloc: Global,
    answer: Answer,
) -> Result<AskedFile, AllocError>
    requires { IsSmall answer }
    ensures { IfOk result (IsParsed answer) }
{
    let Answer { name, bytes } = answer;
    let content = match bytes {
        None => Content::Absent,
        Some(bytes) => content_of(rt, alloc, name.as_str(), bytes)?,
    };
    Ok(AskedFile { name, content })
}

/// The bytes with the facts of the file of that name, or with its error.
fn content_of<R: Threads + Sync>(
    rt: &R,
    alloc: Global,
    name: &str,
    bytes: Vec<u8>,
) -> Result<Content, AllocError>
    requires { length bytes.items ≤ MOST_BYTES }
    ensures text { IfOk result (λ content. text_of (see_content content) ≡ Some bytes.items) }
    ensures told { IfOk result (λ content. IsTold name.now (see_content content)) }
{
    match file_facts(rt, alloc, name, &bytes) {
        Ok(facts) => Ok(Content::Sound(bytes, facts)),
        Err(FactFault::At(cause, offset)) => Ok(Content::Faulty(bytes, cause, offset)),
        Err(FactFault::NoMemory) => Err(AllocError),
    }
}

/// The facts of the file of that name with these bytes. An error of the text comes first, and then
/// an error of what its clauses say.
fn file_facts<R: Threads + Sync>(
    rt: &R,
    alloc: Global,
    name: &str,
    bytes: &[u8],
) -> Result<FileFacts, FactFault>
    requires { length bytes.now ≤ MOST_BYTES }
    ensures facts { IfOk result (λ found. HasFacts name.now bytes.now (see_facts found)) }
    ensures fault { IfErr result (IsFaultOf name.now bytes.now) }
{
    match read_text(rt, alloc, bytes) {
        Ok(clauses) => facts(alloc, name, clauses),
        Err(TextFault::At(cause, offset)) => Err(FactFault::At(cause, offset)),
        Err(TextFault::NoMemory) => Err(FactFault::NoMemory),
    }
}
