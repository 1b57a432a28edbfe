//! The bindings of a name to squares, one by one.

use crate::filter_column::FilterColumn;
use crate::scope::Scope;

/// A name that is bound to the squares of a column, one by one.
#[derive(Clone, Copy)]
pub struct Binding<'a> {
    pub scope: &'a Scope<'a>,
    /// True if the condition must hold for every square, and false if for some.
    pub every: bool,
    pub name: &'a [u8],
    pub squares: &'a FilterColumn,
}
