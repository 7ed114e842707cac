//! What is marked at predicates: which of them modules export, why reachability begins there, and
//! what directives declare of them.

ghost use Rattle.std.specs.Prelude.{◌≡◌, ◌<◌, All, Contains, IfOk, length};
ghost use Rattle.call_edges.specs.Properties.{IsDeclared};
ghost use Rattle.call_edges.specs.RootReasons.{IsExported, IsRootByDirective, IsRootByExport, IsRootByFile};
ghost use Rattle.call_table.specs.Marks.{AreEach, AreMarked, AreMarks, marks_at, see_marks};
ghost use Rattle.call_table.specs.declared.marks.Marks.{Marks as MarksHere};

use call_edges::{declared_of, exported_of, roots_by_directive, roots_by_export, roots_by_file};
use graph_law::stamp;
use import_rules::Program;
use module_table::Property;
use std::alloc::{AllocError, Global};

/// What is marked at each predicate of a program, by its number.
#[derive(Drop)]
pub struct Marks {
    /// Whether a list names where reachability begins, so that the reasons don't count.
    pub listed: bool,
    /// Where reachability begins.
    pub roots: Vec<bool>,
    /// What a module file exports.
    pub exported: Vec<bool>,
    /// What a root file exports that is a module file.
    pub by_export: Vec<bool>,
    /// What goal directives call.
    pub by_directive: Vec<bool>,
    /// What a root file defines that is no module file.
    pub by_file: Vec<bool>,
    /// What directives declare `dynamic`.
    pub dynamic: Vec<bool>,
    /// What directives declare `multifile`.
    pub multifile: Vec<bool>,
}

/// What is marked at one predicate.
#[derive(Clone, Copy, Debug, PartialEq, Eq)]
pub struct NodeMarks {
    pub listed: bool,
    pub root: bool,
    pub exported: bool,
    pub by_export: bool,
    pub by_directive: bool,
    pub by_file: bool,
    pub dynamic: bool,
    pub multifile: bool,
}

impl Marks {
    /// What is marked at the predicate with that number.
    pub fn at(&self, node: u32) -> NodeMarks
        requires each { AreEach (length self.now.roots.items) (see_marks self.now) }
        requires below { node < length self.now.roots.items }
        ensures { result ≡ marks_at (see_marks self.now) node }
    {
        let at = node as usize;
        NodeMarks {
            listed: self.listed,
            root: self.roots[at],
            exported: self.exported[at],
            by_export: self.by_export[at],
            by_directive: self.by_directive[at],
            by_file: self.by_file[at],
            dynamic: self.dynamic[at],
            multifile: self.multifile[at],
        }
    }
}

/// For each of `count` nodes whether it is one of these.
fn marks_of(alloc: Global, count: u32, nodes: &[u32]) -> Result<Vec<bool>, AllocError>
    requires { All (λ node. node < count) nodes.now }
    ensures { IfOk result (λ marks. AreMarks count (Contains nodes.now) marks.items) }
{
    let mut marks = vec![in alloc; false; count as usize]?;
    stamp(&mut marks, nodes, true);
    Ok(marks)
}

/// For each predicate whether a module file exports it.
fn exported_marks(alloc: Global, program: &Program) -> Result<Vec<bool>, AllocError>
    ensures { IfOk result (λ marks. AreMarks (length program.now.predicates) (IsExported program.now) marks.items) }
{
    let nodes = exported_of(alloc, program)?;
    let marks = marks_of(alloc, program.count(), &nodes)?;
    Ok(marks)
}

/// For each predicate whether a root file exports it that is a module file.
fn export_marks(alloc: Global, program: &Program) -> Result<Vec<bool>, AllocError>
    ensures { IfOk result (λ marks. AreMarks (length program.now.predicates) (IsRootByExport program.now) marks.items) }
{
    let nodes = roots_by_export(alloc, program)?;
    let marks = marks_of(alloc, program.count(), &nodes)?;
    Ok(marks)
}

/// For each predicate whether a goal directive calls it.
fn directive_marks(alloc: Global, program: &Program) -> Result<Vec<bool>, AllocError>
    ensures { IfOk result (λ marks. AreMarks (length program.now.predicates) (IsRootByDirective program.now) marks.items) }
{
    let nodes = roots_by_directive(alloc, program)?;
    let marks = marks_of(alloc, program.count(), &nodes)?;
    Ok(marks)
}

/// For each predicate whether a root file defines it that is no module file.
fn file_marks(alloc: Global, program: &Program) -> Result<Vec<bool>, AllocError>
    ensures { IfOk result (λ marks. AreMarks (length program.now.predicates) (IsRootByFile program.now) marks.items) }
{
    let nodes = roots_by_file(alloc, program)?;
    let marks = marks_of(alloc, program.count(), &nodes)?;
    Ok(marks)
}

/// For each predicate whether a directive declares the property of it.
fn declared_marks(
    alloc: Global,
    program: &Program,
    property: Property,
) -> Result<Vec<bool>, AllocError>
    ensures { IfOk result (λ marks. AreMarks (length program.now.predicates) (IsDeclared program.now property) marks.items) }
{
    let nodes = declared_of(alloc, program, property)?;
    let marks = marks_of(alloc, program.count(), &nodes)?;
    Ok(marks)
}

/// What is marked at each predicate of a program, if reachability begins at these roots. `listed`
/// says whether a list names them. Takes seven bytes for each predicate.
pub fn make_marks(
    alloc: Global,
    program: &Program,
    listed: bool,
    roots: &[u32],
) -> Result<Marks, AllocError>
    requires { All (λ q. q < length program.now.predicates) roots.now }
    ensures { IfOk result (λ (marks : MarksHere). AreMarked listed program.now roots.now (see_marks marks)) }
{
    let named = marks_of(alloc, program.count(), roots)?;
    let exported = exported_marks(alloc, program)?;
    let by_export = export_marks(alloc, program)?;
    let by_directive = directive_marks(alloc, program)?;
    let by_file = file_marks(alloc, program)?;
    let dynamic = declared_marks(alloc, program, Property::Dynamic)?;
    let multifile = declared_marks(alloc, program, Property::Multifile)?;
    Ok(Marks {
        listed,
        roots: named,
        exported,
        by_export,
        by_directive,
        by_file,
        dynamic,
        multifile,
    })
}
