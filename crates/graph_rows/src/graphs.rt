use graph_law::Graph;
use std::alloc::{AllocError, Global};

/// A graph, and the number of searches and the seed of a schedule if the line has them.
#[derive(Drop)]
pub struct Row {
    pub graph: Graph,
    pub schedule: Vec<u32>,
}

impl Row {
    /// The graph of a line, or None if it has none.
    pub fn read(alloc: Global, line: &str) -> Result<Option<Row>, AllocError> {
        let Some((lists, rest)) = line.split_once('|') else {
            return Ok(None);
        };
        let (roots, schedule) = rest.split_once('|').unwrap_or((rest, ""));
        let Some(graph) = Graph::new(succs_of(alloc, lists)?, numbers(alloc, roots)?) else {
            return Ok(None);
        };
        let schedule = numbers(alloc, schedule)?;
        Ok(Some(Row { graph, schedule }))
    }
}

/// The callees of each node. A graph without nodes has `-` instead.
fn succs_of(alloc: Global, lists: &str) -> Result<Vec<Vec<u32>>, AllocError> {
    let mut succs = Vec::new(alloc);
    if lists.starts_with('-') {
        return Ok(succs);
    }
    for list in lists.split(';') {
        succs.push(numbers(alloc, list)?)?;
    }
    Ok(succs)
}

/// The numbers among the words of a text.
fn numbers(alloc: Global, text: &str) -> Result<Vec<u32>, AllocError> {
    let mut found = Vec::new(alloc);
    for word in text.split_whitespace() {
        if let Ok(number) = word.parse::<u32>() {
            found.push(number)?;
        }
    }
    Ok(found)
}
