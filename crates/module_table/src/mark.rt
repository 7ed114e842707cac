//! What directives declare of predicates.

/// A property of a predicate that a directive declares (ISO/IEC 13211-1, 7.4.2.1 and 7.4.2.2).
#[derive(Clone, Copy, Debug, PartialEq, Eq)]
pub enum Property {
    Dynamic,
    Multifile,
}

/// A predicate, and a property that a directive declares of it. The names are numbers in the names
/// of the file.
#[derive(Clone, Copy, Debug, PartialEq, Eq)]
pub struct Mark {
    pub property: Property,
    pub module: u32,
    pub name: u32,
    pub arity: u32,
}
