//! Contexts of mappings: the image of a leaf of a query inside of the families around it, and the test of a filter against a
//! context.
//!
//! `cql_syntax/specs/Contexts` defines the images, and `cql_syntax/specs/Meaning` the filters that fit.
#![tactic(auto)]

pub mod contexts;
pub mod fits;
