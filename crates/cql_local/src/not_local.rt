//! The error of a filter that has no value at one node alone.

/// A filter that can't be evaluated at one node. Its value is in a column.
#[derive(Clone, Copy)]
pub(crate) struct NotLocal;
