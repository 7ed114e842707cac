//! The nodes that tokens, operators and brackets make, each after its parts.

ghost use Rattle.std.specs.Prelude.{◌≡◌, List, IfOk, max};
ghost use Rattle.prolog_names.specs.Names.{name_at};
ghost use Rattle.prolog_terms.specs.declared.term.Span.{Span as SpanOf};
ghost use Rattle.prolog_terms.specs.Tree.{Tree, none};
ghost use Rattle.prolog_terms.specs.Clause.{joined_span, leaf_tree, negative_tree, pair_text, infix_text, wrapped_tree};
ghost use Rattle.prolog_terms.specs.Forest.{last_of, before_last, parts_of, without, forest, taken, node_tree};
ghost use Rattle.prolog_terms.specs.ReaderSeen.{parts, leaf_operand, negative_operand, atom_operand, pair_operand, group_operand, tailed_operand};
ghost use Rattle.prolog_terms.specs.ReaderSeen.{wrapped_operand, prefixed_operand, infixed_operand, postfixed_operand, built};
ghost use Rattle.prolog_terms.specs.StackSeen.{Names as NamesSeen, see_word, see_opened, see_operand, see_operator, operator_holds, see_made, made};

use crate::node::Shape;
use crate::node_list::NodeList;
use crate::operand::Operand;
use crate::operator_sides::Sides;
use crate::pending::{Opened, Operator};
use crate::term::{ConstKind, Form, Span};
use crate::word::Word;
use prolog_names::{BAR, COMMA, CURLY, Names, SQUARE, names_law};
use prolog_tokens::Kind;
use std::alloc::AllocError;

/// From the beginning of one span to the end of another.
#[inline(always)]
fn join_spans(first: Span, last: Span) -> Span
    ensures { result ≡ joined_span first last }
{
    Span {
        from: first.from,
        to: last.to,
    }
}

/// Adds a node of this shape.
#[inline(always)]
fn lay(
    nodes: &mut NodeList,
    shape: Shape,
    priority: u32,
    depth: usize,
    span: Span,
) -> Result<Operand, AllocError>
    ensures { IfOk result (λ operand. (names : NamesSeen) → see_made (forest names nodes.new) operand ≡ made
        (without (taken shape) (forest names nodes.old)) (see_operand (node_tree names shape span (forest names nodes.old))
        (record { priority = priority; depth = depth; span = span }))) }
{
    nodes.lay(shape, span)?;
    Ok(Operand {
        priority,
        depth,
        span,
    })
}

/// The shape of a token that is a term by itself and isn't a name.
fn leaf_shape(word: Word) -> Shape
    ensures tree { (names : NamesSeen) (span : SpanOf) (trees : List Tree) → node_tree names result span trees ≡ leaf_tree word.kind word.value span }
    ensures alone { taken result ≡ 0 }
{
    match word.kind {
        Kind::Integer => Shape::Const {
            kind: ConstKind::Integer,
            minus: false,
            value: word.value,
        },
        Kind::Float => Shape::Const {
            kind: ConstKind::Float,
            minus: false,
            value: None,
        },
        Kind::Str => Shape::Const {
            kind: ConstKind::Str,
            minus: false,
            value: None,
        },
        Kind::BackStr => Shape::Const {
            kind: ConstKind::BackStr,
            minus: false,
            value: None,
        },
        _ => Shape::Var,
    }
}

/// A variable (ISO/IEC 13211-1, 6.3.2), a number without minus (6.3.1.1) or a text in quotes (6.3.7).
pub fn leaf(nodes: &mut NodeList, word: Word) -> Result<Operand, AllocError>
    ensures { IfOk result (λ operand. (names : NamesSeen) → see_made (forest names nodes.new) operand
        ≡ made (forest names nodes.old) (leaf_operand (see_word names word))) }
{
    lay(nodes, leaf_shape(word), 0, 1, word.span)
}

/// The shape of a number after its minus.
fn negative_shape(number: Word) -> Shape
    ensures tree { (names : NamesSeen) (span : SpanOf) (trees : List Tree) → node_tree names result span trees ≡ negative_tree number.kind number.value span }
    ensures alone { taken result ≡ 0 }
{
    match number.kind {
        Kind::Integer => Shape::Const {
            kind: ConstKind::Integer,
            minus: true,
            value: number.value,
        },
        _ => Shape::Const {
            kind: ConstKind::Float,
            minus: true,
            value: None,
        },
    }
}

/// A minus and the number directly after it (ISO/IEC 13211-1, 6.3.1.2).
pub fn negative(nodes: &mut NodeList, minus: Word, number: Word) -> Result<Operand, AllocError>
    ensures { IfOk result (λ operand. (names : NamesSeen) → see_made (forest names nodes.new) operand
        ≡ made (forest names nodes.old) (negative_operand (see_word names minus) (see_word names number))) }
{
    let span = join_spans(minus.span, number.span);
    lay(nodes, negative_shape(number), 0, 1, span)
}

/// A name as a term: an atom (ISO/IEC 13211-1, 6.3.1.3).
#[inline(always)]
pub fn atom(nodes: &mut NodeList, word: Word) -> Result<Operand, AllocError>
    ensures { IfOk result (λ operand. (names : NamesSeen) → see_made (forest names nodes.new) operand
        ≡ made (forest names nodes.old) (atom_operand (see_word names word))) }
{
    lay(nodes, Shape::Atom { name: word.name }, 0, 1, word.span)
}

/// The name of an empty pair of brackets.
fn pair_name(names: &Names, kind: Kind) -> u32
    ensures { name_at names.now result ≡ pair_text kind }
{
    names_law(names);
    match kind {
        Kind::OpenCurly => CURLY,
        _ => SQUARE,
    }
}

/// `[]` or `{}`, an atom of two tokens (ISO/IEC 13211-1, 6.3.1.3).
pub fn pair(
    nodes: &mut NodeList,
    names: &Names,
    first: Word,
    last: Word,
) -> Result<Operand, AllocError>
    ensures { IfOk result (λ operand. see_made (forest names.now nodes.new) operand
        ≡ made (forest names.now nodes.old) (pair_operand (see_word names.now first) (see_word names.now last))) }
{
    let name = pair_name(names, first.kind);
    let span = join_spans(first.span, last.span);
    lay(nodes, Shape::Atom { name }, 0, 1, span)
}

/// A name with arguments in brackets (ISO/IEC 13211-1, 6.3.3), or a list without a tail (6.3.5).
pub fn group(
    nodes: &mut NodeList,
    opened: Opened,
    count: u32,
    depth: usize,
    last: Word,
) -> Result<Operand, AllocError>
    ensures { IfOk result (λ operand. (names : NamesSeen) → see_made (forest names nodes.new) operand ≡ made
        (without count (forest names nodes.old)) (group_operand (see_opened names opened)
        (parts (parts_of count (forest names nodes.old) none) depth) (see_word names last))) }
{
    let depth = depth.saturating_add(1);
    match opened {
        Opened::Call(functor) => {
            let shape = Shape::Compound {
                name: functor.name,
                count,
                form: Form::Functional,
            };
            let span = join_spans(functor.span, last.span);
            lay(nodes, shape, 0, depth, span)
        }
        Opened::Square(square) => {
            let span = join_spans(square.span, last.span);
            lay(nodes, Shape::List { count }, 0, depth, span)
        }
    }
}

/// A list with a tail after its bar (ISO/IEC 13211-1, 6.3.5).
pub fn lay_tailed(
    nodes: &mut NodeList,
    square: Word,
    count: u32,
    depth: usize,
    tail: Operand,
    last: Word,
) -> Result<Operand, AllocError>
    ensures { IfOk result (λ operand. (names : NamesSeen) → see_made (forest names nodes.new) operand ≡ made
        (without count (before_last (forest names nodes.old))) (tailed_operand (see_word names square)
        (parts (parts_of count (before_last (forest names nodes.old)) none) depth) (see_operand (last_of (forest names nodes.old)) tail)
        (see_word names last))) }
{
    let depth = depth.max(tail.depth).saturating_add(1);
    let span = join_spans(square.span, last.span);
    lay(nodes, Shape::Tailed { count }, 0, depth, span)
}

/// A term in its brackets.
fn wrapped_shape(kind: Kind) -> Shape
    ensures tree { (names : NamesSeen) (span : SpanOf) (trees : List Tree) → node_tree names result span trees ≡ wrapped_tree kind (last_of trees) span }
    ensures one { taken result ≡ 1 }
{
    match kind {
        Kind::OpenCurly => Shape::Curly,
        _ => Shape::Paren,
    }
}

/// A term in round brackets (ISO/IEC 13211-1, 6.3.4.1) or in curly ones (6.3.6).
pub fn lay_wrapped(
    nodes: &mut NodeList,
    first: Word,
    inner: Operand,
    last: Word,
) -> Result<Operand, AllocError>
    ensures { IfOk result (λ operand. (names : NamesSeen) → see_made (forest names nodes.new) operand ≡ made
        (before_last (forest names nodes.old)) (wrapped_operand (see_word names first) (see_operand (last_of (forest names nodes.old)) inner)
        (see_word names last))) }
{
    let depth = inner.depth.saturating_add(1);
    let span = join_spans(first.span, last.span);
    lay(nodes, wrapped_shape(first.kind), 0, depth, span)
}

/// An operator before its operand (ISO/IEC 13211-1, 6.3.4.2).
#[inline(always)]
fn lay_prefix(
    nodes: &mut NodeList,
    word: Word,
    sides: Sides,
    right: Operand,
) -> Result<Operand, AllocError>
    ensures { IfOk result (λ operand. (names : NamesSeen) → see_made (forest names nodes.new) operand ≡ made
        (before_last (forest names nodes.old)) (prefixed_operand (see_word names word) sides
        (see_operand (last_of (forest names nodes.old)) right))) }
{
    let depth = right.depth.saturating_add(1);
    let span = join_spans(word.span, right.span);
    let shape = Shape::Compound {
        name: word.name,
        count: 1,
        form: Form::Prefix,
    };
    lay(nodes, shape, sides.priority, depth, span)
}

/// The name of an infix operator, which may be a Comma or a Bar (ISO/IEC 13211-1, 6.3.4.3).
fn infix_name(names: &Names, word: Word) -> u32
    ensures { name_at names.now result ≡ infix_text word.kind (name_at names.now word.name) }
{
    names_law(names);
    match word.kind {
        Kind::Comma => COMMA,
        Kind::Bar => BAR,
        _ => word.name,
    }
}

/// An operator between its operands (ISO/IEC 13211-1, 6.3.4.2).
#[inline(always)]
fn lay_infix(
    nodes: &mut NodeList,
    names: &Names,
    left: Operand,
    word: Word,
    sides: Sides,
    right: Operand,
) -> Result<Operand, AllocError>
    ensures { IfOk result (λ operand. see_made (forest names.now nodes.new) operand ≡ made
        (before_last (before_last (forest names.now nodes.old))) (infixed_operand (see_operand
        (last_of (before_last (forest names.now nodes.old))) left) (see_word names.now word) sides
        (see_operand (last_of (forest names.now nodes.old)) right))) }
{
    let depth = left.depth.max(right.depth).saturating_add(1);
    let span = join_spans(left.span, right.span);
    let name = infix_name(names, word);
    let shape = Shape::Compound {
        name,
        count: 2,
        form: Form::Infix,
    };
    lay(nodes, shape, sides.priority, depth, span)
}

/// An operator after its operand (ISO/IEC 13211-1, 6.3.4.2).
pub fn lay_postfix(
    nodes: &mut NodeList,
    left: Operand,
    word: Word,
    sides: Sides,
) -> Result<Operand, AllocError>
    ensures { IfOk result (λ operand. (names : NamesSeen) → see_made (forest names nodes.new) operand ≡ made
        (before_last (forest names nodes.old)) (postfixed_operand (see_operand (last_of (forest names nodes.old)) left)
        (see_word names word) sides)) }
{
    let depth = left.depth.saturating_add(1);
    let span = join_spans(left.span, word.span);
    let shape = Shape::Compound {
        name: word.name,
        count: 1,
        form: Form::Postfix,
    };
    lay(nodes, shape, sides.priority, depth, span)
}

/// The prefix or infix operator with its right side (ISO/IEC 13211-1, 6.3.4.2).
#[inline(always)]
pub fn build(
    nodes: &mut NodeList,
    names: &Names,
    operator: &Operator,
    right: Operand,
) -> Result<Operand, AllocError>
    ensures { IfOk result (λ operand. see_made (forest names.now nodes.new) operand ≡ made
        (without (operator_holds operator.now) (before_last (forest names.now nodes.old)))
        (built (see_operator names.now operator.now (before_last (forest names.now nodes.old)))
        (see_operand (last_of (forest names.now nodes.old)) right))) }
{
    match *operator {
        Operator::Prefix { word, sides } => lay_prefix(nodes, word, sides, right),
        Operator::Infix { left, word, sides } => lay_infix(nodes, names, left, word, sides, right),
    }
}
