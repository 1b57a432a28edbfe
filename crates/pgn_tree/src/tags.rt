//! The tags of a game.
ghost use Rattle.std.specs.Prelude.{◌≡◌, ◌<◌, true, [], length, IfOk, OnOk, OnErr};
ghost use Rattle.std.specs.Option.{option_copied};
ghost use Rattle.cq_position.specs.Games.{tag_at, tag_value, with_tag, HaveDistinctNames};

use cq_common::{Bytes, NoMemory, Shared};
use indexmap::IndexMap;
use std::alloc::Global;
use std::marker::Model;

/// The tags of a game (PGN standard, section 8.1), which contracts see as the list of their names and values.
///
/// They are in the order in which each name first came, and names are distinct.
#[derive(Drop)]
pub struct Tags {
    alloc: Global,
    pairs: IndexMap<Vec<u8>, Bytes>,
}

impl Shared for Tags {}

impl Model for Tags {
    ghost use Rattle.std.specs.Prelude.{ℕ, List};

    ghost Value = { List (List ℕ × List ℕ) };

    ghost use Rattle.pgn_tree.specs.Inside.{tags_inside};
    ghost use Rattle.cq_position.specs.Games.{HaveDistinctNames};

    ghost view = { tags_inside };

    ghost invariant = { λ t. HaveDistinctNames (tags_inside t) };
}

impl Tags {
    /// Returns no tags. Takes no memory.
    #[tactic(auto, using(crate::proofs::TagPairs::no_names))]
    pub fn new(alloc: Global) -> Tags
        ensures { result ≡ [] }
    {
        Tags {
            alloc,
            pairs: IndexMap::new(alloc),
        }
    }

    /// Returns the number of tags.
    pub fn len(&self) -> usize
        ensures len { result ≡ length self.now }
        ensures kept { HaveDistinctNames self.now }
    {
        self.pairs.len()
    }

    /// Returns true. The clause is a property of all tags: names are distinct.
    pub fn have_distinct_names(&self) -> bool
        ensures value { result ≡ true }
        ensures names { HaveDistinctNames self.now }
    {
        // read for the proof alone
        let _len = self.len();
        true
    }

    /// Returns the value of the tag with a name; None if no tag has it.
    pub fn get(&self, name: &[u8]) -> Option<&[u8]>
        ensures { option_copied result ≡ tag_value name.now self.now }
    {
        match self.pairs.get(name) {
            Some(value) => Some(value.as_slice()),
            None => None,
        }
    }

    /// Returns the name of tag number `i`, counted from 0.
    pub fn name(&self, i: usize) -> &[u8]
        requires { i < length self.now }
        ensures { result.now ≡ (tag_at self.now i).0 }
    {
        match self.pairs.get_index(i) {
            Some((name, _)) => name.as_slice(),
            None => b"",
        }
    }

    /// Returns the value of tag number `i`, counted from 0.
    pub fn value(&self, i: usize) -> &[u8]
        requires { i < length self.now }
        ensures { result.now ≡ (tag_at self.now i).1 }
    {
        match self.pairs.get_index(i) {
            Some((_, value)) => value.as_slice(),
            None => b"",
        }
    }

    /// Adds a tag; a name that is present keeps its value.
    ///
    /// # Errors
    ///
    /// Fails only if out of memory, and then changes nothing.
    pub fn add(&mut self, name: &[u8], value: &[u8]) -> Result<(), NoMemory>
        ensures ok { OnOk result (self.new ≡ with_tag self.old name.now value.now) }
        ensures err { OnErr result (self.new ≡ self.old) }
    {
        if self.pairs.contains_key(name) {
            return Ok(());
        }
        let name = Vec::from_slice(self.alloc, name)?;
        let value = Bytes::from_slice(self.alloc, value)?;
        self.pairs.insert(name, value)?;
        Ok(())
    }

    /// Adds a tag of bytes that are moved and not copied; a name that is present keeps its value.
    ///
    /// # Errors
    ///
    /// Fails only if out of memory, and then changes nothing.
    pub fn add_owned(&mut self, name: Vec<u8>, value: Vec<u8>) -> Result<(), NoMemory>
        ensures ok { OnOk result (self.new ≡ with_tag self.old name.items value.items) }
        ensures err { OnErr result (self.new ≡ self.old) }
    {
        if self.pairs.contains_key(name.as_slice()) {
            return Ok(());
        }
        self.pairs.insert(name, Bytes::from_vec(value))?;
        Ok(())
    }

    /// Returns a copy.
    ///
    /// # Errors
    ///
    /// Fails only if out of memory.
    pub fn copy(&self, alloc: Global) -> Result<Tags, NoMemory>
        ensures { IfOk result (λ t. t ≡ self.now) }
    {
        let mut copied = Tags::new(alloc);
        for i in 0..self.len() {
            copied.add(self.name(i), self.value(i))?;
        }
        Ok(copied)
    }
}
