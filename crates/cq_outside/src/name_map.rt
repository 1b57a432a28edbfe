//! A map from names to values, as a list of names in no order. Contracts see it as a finite map.
ghost use Rattle.std.specs.Prelude.{◌≡◌, ◌≢◌, ◌<◌, ◌++◌, ◌∷◌, [], List, ℕ, length, take, slice_index_or, All, IfNone, IfSome, OnOk, OnErr};
ghost use Rattle.std.specs.Ordering.{nat_cmp};
ghost use Rattle.std.specs.Cmp.Lexicographic.{slice_cmp};
ghost use Rattle.std.specs.FinMap as map;

use cq_common::{Bytes, NoMemory};
use std::alloc::Global;

// The index of the first entry with this name.
pub(crate) fn place_of<X>(entries: &[(Bytes, X)], name: &[u8]) -> Option<usize>
    ensures none { IfNone result (All (λ e. e.0 ≢ name.now) entries.now) }
    ensures bound { IfSome result (λ place. place < length entries.now) }
    ensures named { IfSome result (λ place. (d : List ℕ × X) → (slice_index_or entries.now place d).0 ≡ name.now) }
    ensures first { IfSome result (λ place. All (λ e. e.0 ≢ name.now) (take place entries.now)) }
{
    for (place, entry) in entries.iter().enumerate() {
        if entry.0.as_slice() == name {
            return Some(place);
        }
    }
    None
}

// Gives a name this value, in place of its former one.
pub(crate) fn put<X: Drop>(
    alloc: Global,
    entries: &mut Vec<(Bytes, X)>,
    name: &[u8],
    value: X,
) -> Result<(), NoMemory>
    ensures ok { OnOk result (map.from_entries {R = slice_cmp nat_cmp} entries.new.items
        ≡ map.insert (map.from_entries entries.old.items) name.now value) }
    ensures err { OnErr result (entries.new.items ≡ entries.old.items) }
{
    let entry = (Bytes::from_slice(alloc, name)?, value);
    match place_of(entries.as_slice(), name) {
        Some(place) => entries[place] = entry,
        None => entries.push(entry)?,
    }
    Ok(())
}

// Adds a copy of a name at the end.
pub(crate) fn push_name(alloc: Global, names: &mut Vec<Bytes>, name: &[u8]) -> Result<(), NoMemory>
    ensures ok { OnOk result (names.new.items ≡ names.old.items ++ name.now ∷ []) }
    ensures err { OnErr result (names.new.items ≡ names.old.items) }
{
    names.push(Bytes::from_slice(alloc, name)?)?;
    Ok(())
}
