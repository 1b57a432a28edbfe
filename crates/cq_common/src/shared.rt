//! Values that threads share or hand over.

use crate::bytes::Bytes;
use crate::faults::{Failed, NoMemory, OpenFault, Refusal};

/// A type whose values threads can share or hand over.
pub trait Shared: Send + Sync {}

impl Shared for Bytes {}

impl Shared for NoMemory {}

impl Shared for Failed {}

impl Shared for OpenFault {}

impl<F: Shared> Shared for Refusal<F> {}
