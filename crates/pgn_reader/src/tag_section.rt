//! The tags of a game that is being read.
ghost use Rattle.std.specs.Prelude.{◌≡◌, []};
ghost use Rattle.cq_position.specs.Board.{start_board};
ghost use Rattle.cq_position.specs.Games.{with_tag};
ghost use Rattle.pgn_reader.specs.Internal.TagSection.{IsAdded};
ghost use Rattle.pgn_reader.specs.Tags.{start_of};

use cq_common::{NoMemory, Refusal};
use cq_position::{FenFault, Position, read_fen};
use pgn_tree::Tags;
use std::alloc::Global;
use std::marker::Model;

/// The tags so far, and the position in which the game begins by them. The tag FEN is read once, when it is added.
#[derive(Drop)]
pub struct TagSection {
    tags: Tags,
    start: Position,
}

impl Model for TagSection {
    ghost use Rattle.pgn_reader.specs.Internal.TagSection.{TagSection};

    ghost Value = { TagSection };

    ghost use Rattle.std.specs.Prelude.{◌≡◌, Ok};
    ghost use Rattle.pgn_reader.specs.Internal.TagSectionInside.{tag_section_inside};
    ghost use Rattle.pgn_reader.specs.Tags.{start_of};

    ghost view = { tag_section_inside };

    ghost invariant = { λ p. start_of p.tags ≡ Ok p.start };
}

impl TagSection {
    /// Returns no tags: the game begins in the position of the initial array. Takes no memory.
    #[tactic(auto, using(crate::proofs::Whole::start_none))]
    pub fn new(alloc: Global) -> TagSection
        ensures { result ≡ record { tags = []; start = start_board } }
    {
        TagSection {
            tags: Tags::new(alloc),
            start: Position::start(),
        }
    }

    /// Returns the tags.
    pub fn tags(&self) -> &Tags
        ensures { result.now ≡ self.now.tags }
    {
        &self.tags
    }

    /// Returns the position in which the game begins.
    pub fn start(&self) -> &Position
        ensures { result.now ≡ self.now.start }
    {
        &self.start
    }

    /// Returns the tags alone.
    pub fn into_tags(self) -> Tags
        ensures { result ≡ self.tags }
    {
        self.tags
    }

    // The position in which the game begins with one more tag: it is that of the first tag FEN.
    #[tactic(auto, using(crate::proofs::FirstFen::same_without_fen, crate::proofs::FirstFen::same_after_fen, crate::proofs::FirstFen::first_fen))]
    fn start_with(&self, name: &[u8], value: &[u8]) -> Result<Position, FenFault>
        ensures { result ≡ start_of (with_tag self.now.tags name.now value.now) }
    {
        if name == b"FEN".as_slice() {
            return match self.tags.get(b"FEN") {
                Some(_) => Ok(self.start),
                None => read_fen(value),
            };
        }
        Ok(self.start)
    }

    /// Adds a tag; a name that is present keeps its value.
    ///
    /// # Errors
    ///
    /// - `FenFault`: the value of the first tag FEN is no position.
    /// - `NoMemory`: out of memory.
    pub fn add(&mut self, name: Vec<u8>, value: Vec<u8>) -> Result<(), Refusal<FenFault>>
        ensures { IsAdded (with_tag self.old.tags name.items value.items) self.new result }
    {
        let start = match self.start_with(name.as_slice(), value.as_slice()) {
            Ok(start) => start,
            Err(fault) => return Err(Refusal::Fault(fault)),
        };
        self.tags.add_owned(name, value)?;
        self.start = start;
        Ok(())
    }
}
