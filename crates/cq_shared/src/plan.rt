//! A plan of several queries.
ghost use Rattle.std.specs.Prelude.{◌≡◌, ◌≤◌, ◌<◌, map, length, true};
ghost use Rattle.cq_shared.specs.PartOwners.{owner_query, AreOwners};
ghost use Rattle.cq_shared.specs.Interning.{all_shown};
ghost use Rattle.cq_shared.specs.Parts.{parts_in_all, different, equal_parts};

pub mod making;

use crate::part::{Part, PartOwner};
use cq_common::Shared;

/// The queries of a plan and their different parts, each once.
#[derive(Drop)]
pub struct SharedPlan {
    pub(crate) owners: Vec<PartOwner>,
    pub(crate) parts: Vec<Part>,
    ghost owners_are: { AreOwners parts.items owners.items },
    ghost parts_are: { equal_parts (all_shown parts.items) (different (parts_in_all (map (λ a. owner_query a) owners.items))) ≡ true },
    ghost few: { length owners.items ≤ 16 },
    ghost counted: { length parts.items < 4294967296 },
}

impl Shared for SharedPlan {}
