use crate::term::Term;

/// A compound of two arguments, in any notation.
#[derive(Clone, Copy)]
pub struct Binary<'a> {
    pub name: &'a str,
    pub left: Term<'a>,
    pub right: Term<'a>,
}
