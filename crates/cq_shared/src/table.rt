//! A table of the numbers of parts, by the texts of the parts. Parts that are the same have one text, so they are at one place.
ghost use Rattle.std.specs.Prelude.{◌≡◌, ℕ, ◌<◌, ◌++◌, ◌∷◌, [], length, get_or, IfOk, OnOk};
ghost use Rattle.cq_shared.specs.PartTables.{mixed, hash_bytes, numbers_at};

use cq_common::NoMemory;
use std::alloc::Global;

/// The numbers at a place.
#[derive(Drop)]
pub(crate) struct PartBucket {
    pub(crate) numbers: Vec<usize>,
}

/// `many` places without numbers.
pub(crate) fn empty_buckets(alloc: Global, many: usize) -> Result<Vec<PartBucket>, NoMemory>
    ensures { IfOk result (λ places. length places.items ≡ many) }
{
    let mut places = Vec::new(alloc);
    for _place in 0..many {
        places.push(PartBucket {
            numbers: Vec::new(alloc),
        })?;
    }
    Ok(places)
}

/// A hash of the bytes of a text.
#[tactic(auto, unfolding(crate::specs::PartTables::hash_bytes, crate::specs::PartTables::mixed))]
pub(crate) fn hash_of(text: &[u8]) -> u64
    ensures { result ≡ hash_bytes text.now }
{
    let mut mixed = 0u64;
    for byte in text {
        mixed = (mixed * 257 + u64::from(*byte)) % 4_294_967_291;
    }
    mixed
}

/// Adds a number at a place.
pub(crate) fn put(places: &mut Vec<PartBucket>, at: usize, number: usize) -> Result<(), NoMemory>
    requires { at < length places.old.items }
    ensures len { OnOk result (length places.new.items ≡ length places.old.items) }
    ensures here { OnOk result (numbers_at places.new.items at ≡ numbers_at places.old.items at ++ number ∷ []) }
    ensures others { OnOk result ((i : ℕ) → (i ≡ at → ⊥) → numbers_at places.new.items i ≡ numbers_at places.old.items i) }
{
    let place = &mut places[at];
    place.numbers.push(number)?;
    Ok(())
}
