use crate::pieces::push_made;
use group_words::{Options, WordFault, make_text, parse_words};
use import_rules::PredName;
use prolog_tokens::Text;
use std::alloc::{AllocError, Global};

/// The most predicates of a generated program.
const MOST_PREDICATES: u32 = 100_000;

fn push_name(alloc: Global, out: &mut String, root: &PredName) -> Result<(), AllocError> {
    let (owner, name, arity) = (root.module.as_str(), root.name.as_str(), root.arity);
    push_made(out, format!(in alloc; " {owner}:{name}/{arity}"))
}

fn push_roots(alloc: Global, out: &mut String, roots: &[PredName]) -> Result<(), AllocError> {
    out.push_str(" roots")?;
    for root in roots {
        push_name(alloc, out, root)?;
    }
    Ok(())
}

fn push_files(alloc: Global, out: &mut String, files: &[Text]) -> Result<(), AllocError> {
    if files.is_empty() {
        return Ok(());
    }
    out.push_str(" files")?;
    for file in files {
        let name = file.as_str();
        push_made(out, format!(in alloc; " {name}"))?;
    }
    Ok(())
}

/// Adds how many threads search, and how many searches run in one thread.
fn push_search(alloc: Global, out: &mut String, options: &Options) -> Result<(), AllocError> {
    let jobs = options.jobs;
    push_made(out, format!(in alloc; "jobs {jobs}"))?;
    match options.searches {
        Some((count, seed)) => {
            push_made(out, format!(in alloc; " searches {count} seed {seed}"))
        }
        None => Ok(()),
    }
}

/// Adds the words of the options that are set and have no value.
fn push_flags(out: &mut String, options: &Options) -> Result<(), AllocError> {
    let flags = [
        (options.order, " order"),
        (options.unreached, " unreached"),
        (options.effects, " effects"),
        (options.loops, " loops"),
        (options.stream, " stream"),
    ];
    for (is_set, word) in flags {
        out.push_str(if is_set { word } else { "" })?;
    }
    Ok(())
}

/// Adds the two ends of a path.
fn push_path(
    alloc: Global,
    out: &mut String,
    path: &(PredName, PredName),
) -> Result<(), AllocError> {
    out.push_str(" path")?;
    push_name(alloc, out, &path.0)?;
    push_name(alloc, out, &path.1)
}

fn push_options(alloc: Global, out: &mut String, options: &Options) -> Result<(), AllocError> {
    push_search(alloc, out, options)?;
    if let Some(roots) = &options.roots {
        push_roots(alloc, out, roots)?;
    }
    push_flags(out, options)?;
    if let Some(path) = &options.path {
        push_path(alloc, out, path)?;
    }
    if let Some(count) = options.make {
        push_made(out, format!(in alloc; " make {count}"))?;
    }
    push_files(alloc, out, &options.files)
}

/// The options as one line.
fn shown(alloc: Global, options: &Options) -> Result<String, AllocError> {
    let mut out = String::new(alloc);
    push_options(alloc, &mut out, options)?;
    Ok(out)
}

/// The output for arguments.
fn outcome(alloc: Global, words: &[Text]) -> Result<String, AllocError> {
    match parse_words(alloc, words) {
        Ok(options) => shown(alloc, &options),
        Err(WordFault::Usage) => String::from_str(alloc, "usage"),
        Err(WordFault::NoMemory) => Err(AllocError),
    }
}

/// The arguments of a line, each with a bar after it.
fn words_of(alloc: Global, line: &str) -> Result<Vec<Text>, AllocError> {
    let mut words = Vec::new(alloc);
    for word in line.split("|") {
        words.push(Text::new(alloc, word)?)?;
    }
    words.pop();
    Ok(words)
}

/// The options that arguments set. After each argument is a bar.
pub fn options_told(alloc: Global, line: &str) -> Result<String, AllocError> {
    let words = words_of(alloc, line)?;
    outcome(alloc, &words)
}

/// The text of a generated program of this many predicates.
pub fn made_told(alloc: Global, count: &str) -> Result<String, AllocError> {
    let count = count.parse::<u32>().unwrap_or(0);
    make_text(alloc, count.min(MOST_PREDICATES))
}
