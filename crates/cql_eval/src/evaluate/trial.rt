//! The constants of a trial of squares under a name.

use cql_columns::scope::Scope;
use cql_values::names::Names;

/// A trial of squares under a name.
#[derive(Clone, Copy)]
pub(crate) struct Trial<'a> {
    pub(crate) scope: &'a Scope<'a>,
    /// The name itself, and the names that are bound further inside, to any square.
    pub(crate) opened: &'a Names,
    pub(crate) name: &'a [u8],
    /// The nodes at which the filter is evaluated.
    pub(crate) live: &'a [bool],
}
