//! Which tokens are operators, and the priorities of their operands.

ghost use Rattle.std.specs.Prelude.{◌≡◌, ℕ, List, Option, None, MatchOption, option_map};
ghost use Rattle.prolog_ops.specs.Table.{Prefix, Infix, Postfix, ops_of, opening, IsOps};
ghost use Rattle.prolog_ops.specs.declared.op.Op.{Op as OpSpec};
ghost use Rattle.prolog_names.specs.Names.{name_at};
ghost use Rattle.prolog_terms.specs.StackSeen.{see_word};
ghost use Rattle.prolog_terms.specs.Words.{left_side, right_side, sides, named_operator, table_of};

use crate::word::Word;
use prolog_names::{BAR, COMMA, Names, OPENING_COUNT, names_law, opening_law};
use prolog_ops::{Op, OpKind, OpTable};
use prolog_tokens::Kind;

/// The priority of an operator, and the greatest priorities of its left and right operands. A side
/// without operand has 0.
#[derive(Clone, Copy, Debug, PartialEq, Eq)]
pub struct Sides {
    pub priority: u32,
    pub left: u32,
    pub right: u32,
}

/// The value of no operator.
pub const NO_SIDES: Sides = Sides {
    priority: 0,
    left: 0,
    right: 0,
};

/// The sides of a Comma, an operator that can't be changed (ISO/IEC 13211-1, 6.3.4.3).
pub const COMMA_SIDES: Sides = Sides {
    priority: 1000,
    left: 999,
    right: 1000,
};

/// The sides of a Bar, an operator that can't be changed (ISO/IEC 13211-1, 6.3.4.3).
pub const BAR_SIDES: Sides = Sides {
    priority: 1100,
    left: 1099,
    right: 1100,
};

fn greatest_left(op: Op) -> u32
    ensures { result ≡ left_side op.kind op.priority }
{
    match op.kind {
        OpKind::Xfx => op.priority.saturating_sub(1),
        OpKind::Xfy => op.priority.saturating_sub(1),
        OpKind::Yfx => op.priority,
        OpKind::Fy => 0,
        OpKind::Fx => 0,
        OpKind::Xf => op.priority.saturating_sub(1),
        OpKind::Yf => op.priority,
    }
}

fn greatest_right(op: Op) -> u32
    ensures { result ≡ right_side op.kind op.priority }
{
    match op.kind {
        OpKind::Xfx => op.priority.saturating_sub(1),
        OpKind::Xfy => op.priority,
        OpKind::Yfx => op.priority.saturating_sub(1),
        OpKind::Fy => op.priority,
        OpKind::Fx => op.priority.saturating_sub(1),
        OpKind::Xf => 0,
        OpKind::Yf => 0,
    }
}

fn sides_of(op: Op) -> Sides
    ensures { result ≡ sides op }
{
    Sides {
        priority: op.priority,
        left: greatest_left(op),
        right: greatest_right(op),
    }
}

/// `:-` and `?-` before an operand.
const DIRECTIVE: Option<Sides> = Some(Sides {
    priority: 1200,
    left: 0,
    right: 1199,
});

/// `dynamic` and the other declarations.
const DECLARING: Option<Sides> = Some(Sides {
    priority: 1150,
    left: 0,
    right: 1149,
});

/// `\+`.
const NEGATION: Option<Sides> = Some(Sides {
    priority: 900,
    left: 0,
    right: 900,
});

/// `-`, `+` and `\` before an operand.
const SIGN: Option<Sides> = Some(Sides {
    priority: 200,
    left: 0,
    right: 200,
});

/// `:-` and `-->` between operands.
const RULE: Option<Sides> = Some(Sides {
    priority: 1200,
    left: 1199,
    right: 1199,
});

/// `;`.
const CHOICE: Option<Sides> = Some(Sides {
    priority: 1100,
    left: 1099,
    right: 1100,
});

/// `->`.
const CONDITION: Option<Sides> = Some(Sides {
    priority: 1050,
    left: 1049,
    right: 1050,
});

/// `=` and the other comparisons.
const COMPARISON: Option<Sides> = Some(Sides {
    priority: 700,
    left: 699,
    right: 699,
});

/// `+`, `-`, `/\` and `\/` between operands.
const SUM: Option<Sides> = Some(Sides {
    priority: 500,
    left: 500,
    right: 499,
});

/// `*` and the others of its priority.
const PRODUCT: Option<Sides> = Some(Sides {
    priority: 400,
    left: 400,
    right: 399,
});

/// `**`.
const POWER: Option<Sides> = Some(Sides {
    priority: 200,
    left: 199,
    right: 199,
});

/// `^` and `:`.
const QUALIFIER: Option<Sides> = Some(Sides {
    priority: 200,
    left: 199,
    right: 200,
});

/// The prefix operator of each opening name in the opening table.
static OPENING_PREFIXES: [Option<Sides>; OPENING_COUNT as usize] = [
    None, None, None, None, None, SIGN, DIRECTIVE, DECLARING, DECLARING, DECLARING, DECLARING,
    DECLARING, DECLARING, DECLARING, DECLARING, NEGATION, SIGN, DIRECTIVE, SIGN, None, None, None,
    None, None, None, None, None, None, None, None, None, None, None, None, None, None, None, None,
    None, None, None, None, None, None, None, None, None, None, None, None, None, None,
];

/// The infix operator of each opening name in the opening table.
static OPENING_INFIXES: [Option<Sides>; OPENING_COUNT as usize] = [
    None, None, None, None, None, SUM, None, None, None, None, None, None, None, None, None, None,
    None, RULE, SUM, RULE, CHOICE, CONDITION, COMPARISON, COMPARISON, COMPARISON, COMPARISON,
    COMPARISON, COMPARISON, COMPARISON, COMPARISON, COMPARISON, COMPARISON, COMPARISON, COMPARISON,
    COMPARISON, COMPARISON, COMPARISON, COMPARISON, SUM, SUM, PRODUCT, PRODUCT, PRODUCT, PRODUCT,
    PRODUCT, PRODUCT, PRODUCT, PRODUCT, POWER, QUALIFIER, QUALIFIER, None,
];

/// The name as it is looked up in a table of operators. A name `,` or `|` in quotes isn't the Comma
/// or Bar, and so it is no operator.
fn operator_name(names: &Names, name: u32) -> Option<&str>
    ensures { MatchOption result ((ops : List ℕ → Option OpSpec) → named_operator ops (name_at names.now name) ≡ None)
        (λ text. (ops : List ℕ → Option OpSpec) → named_operator ops (name_at names.now name) ≡ option_map sides (ops text.now)) }
{
    names_law(names);
    if name == COMMA {
        return None;
    }
    if name == BAR {
        return None;
    }
    Some(names.text(name))
}

/// The prefix operator of the name in the opening table. No text is read.
#[inline(always)]
fn opening_prefix(names: &Names, name: u32) -> Option<Sides>
    ensures { result ≡ named_operator (opening Prefix) (name_at names.now name) }
{
    opening_law(names);
    if name >= OPENING_COUNT {
        return None;
    }
    OPENING_PREFIXES[name as usize]
}

/// The infix operator of the name in the opening table. No text is read.
#[inline(always)]
fn opening_infix(names: &Names, name: u32) -> Option<Sides>
    ensures { result ≡ named_operator (opening Infix) (name_at names.now name) }
{
    opening_law(names);
    if name >= OPENING_COUNT {
        return None;
    }
    OPENING_INFIXES[name as usize]
}

/// The prefix operator of the name, if operators were set in the table.
fn changed_prefix(table: &OpTable, names: &Names, name: u32) -> Option<Sides>
    ensures { result ≡ named_operator (ops_of table.now Prefix) (name_at names.now name) }
{
    let text = operator_name(names, name)?;
    let op = table.prefix(text)?;
    Some(sides_of(op))
}

/// The infix operator of the name, if operators were set in the table.
fn changed_infix(table: &OpTable, names: &Names, name: u32) -> Option<Sides>
    ensures { result ≡ named_operator (ops_of table.now Infix) (name_at names.now name) }
{
    let text = operator_name(names, name)?;
    let op = table.infix(text)?;
    Some(sides_of(op))
}

#[inline(always)]
fn named_prefix(table: &OpTable, names: &Names, name: u32) -> Option<Sides>
    ensures { result ≡ named_operator (ops_of table.now Prefix) (name_at names.now name) }
{
    if table.is_opening() {
        return opening_prefix(names, name);
    }
    changed_prefix(table, names, name)
}

#[inline(always)]
fn named_infix(table: &OpTable, names: &Names, name: u32) -> Option<Sides>
    ensures { result ≡ named_operator (ops_of table.now Infix) (name_at names.now name) }
{
    if table.is_opening() {
        return opening_infix(names, name);
    }
    changed_infix(table, names, name)
}

fn named_postfix(table: &OpTable, names: &Names, name: u32) -> Option<Sides>
    ensures { result ≡ named_operator (ops_of table.now Postfix) (name_at names.now name) }
{
    if table.is_opening() {
        return None;
    }
    let text = operator_name(names, name)?;
    let op = table.postfix(text)?;
    Some(sides_of(op))
}

/// The token as a prefix operator. In no table is the Comma or Bar one.
#[inline(always)]
pub fn prefix_of(table: &OpTable, names: &Names, word: Word) -> Option<Sides>
    ensures { result ≡ (table_of (ops_of table.now)).prefix (see_word names.now word) }
{
    table_law(table);
    match word.kind {
        Kind::Name => named_prefix(table, names, word.name),
        Kind::Quoted => named_prefix(table, names, word.name),
        Kind::Comma => None,
        Kind::Bar => None,
        _ => None,
    }
}

/// The token as an infix operator. The Comma and the Bar are the same in each table.
#[inline(always)]
pub fn infix_of(table: &OpTable, names: &Names, word: Word) -> Option<Sides>
    ensures { result ≡ (table_of (ops_of table.now)).infix_ (see_word names.now word) }
{
    table_law(table);
    match word.kind {
        Kind::Name => named_infix(table, names, word.name),
        Kind::Quoted => named_infix(table, names, word.name),
        Kind::Comma => Some(COMMA_SIDES),
        Kind::Bar => Some(BAR_SIDES),
        _ => None,
    }
}

/// The token as a postfix operator. In no table is the Comma or Bar one.
pub fn postfix_of(table: &OpTable, names: &Names, word: Word) -> Option<Sides>
    ensures { result ≡ (table_of (ops_of table.now)).postfix (see_word names.now word) }
{
    table_law(table);
    match word.kind {
        Kind::Name => named_postfix(table, names, word.name),
        Kind::Quoted => named_postfix(table, names, word.name),
        Kind::Comma => None,
        Kind::Bar => None,
        _ => None,
    }
}

/// What holds of each table of operators.
pub fn table_law(table: &OpTable)
    ensures { IsOps (ops_of table.now) }
{
    let _ = table.is_opening();
}
