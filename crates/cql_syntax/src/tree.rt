//! The tree of a query.
ghost use Rattle.std.specs.Prelude.{◌≡◌, ◌↔◌, ◌++◌, ◌∷◌, [], length, IsTrue, OnOk, OnErr};
ghost use Rattle.std.specs.Vec.{vec_allocator};
ghost use Rattle.cql_syntax.specs.declared.tree.Filters.{out-Filters};
ghost use Rattle.cql_syntax.specs.Trees.{no_filters, no_terms, no_parts, with_filter, with_term, with_part};
ghost use Rattle.cql_syntax.specs.TreeOf.{filter_tree, body_tree, filters_in, terms_in, parts_in, filters_tree, terms_tree, parts_tree, filter_trees, term_trees, part_trees};

use crate::extents::Extent;
use crate::leaves::{Chain, Designator, Field, Kind, Mark, Of, Outcome, Pair, Plain, Unary, Way};
use cq_common::{Bytes, NoMemory, Shared};
use cq_symmetry::Family;
use std::alloc::Global;

/// A filter, and the byte of the query text at which it begins, its own parentheses included.
#[cycle(filter)]
#[derive(Drop)]
pub struct Filter {
    pub at: u32,
    pub form: Form,
}

/// The form of a filter: its operator and its parts.
#[cycle(filter)]
#[derive(Drop)]
pub enum Form {
    Squares(Designator),
    Number(u32),
    /// A name bound by `square`.
    Name(Bytes),
    Plain(Plain),
    /// The value of the tag contains the text.
    Tagged(Field, Bytes),
    Outcome(Outcome),
    Elo(Of),
    Unary(Unary, Box<Filter>),
    /// The squares reached in a direction by `k` steps, for some `k` from the first number to the second.
    Steps(Way, u32, u32, Box<Filter>),
    Chain(Chain, Filters),
    /// Parts that are added or subtracted, from left to right.
    Sum(Terms),
    Pair(Pair, Box<Filter>, Box<Filter>),
    /// The condition, the filter evaluated if it holds, and the filter evaluated if it doesn't.
    If(Box<Filter>, Box<Filter>, Box<Filter>),
    /// True if the condition must hold of all squares; then the name bound, the squares, and the
    /// condition.
    Square(bool, Bytes, Box<Filter>, Box<Filter>),
    Line(Line),
    /// The move that led to a position.
    Played(Played),
    Transform(Family, Box<Filter>),
    /// True if the least value is the key; then the name of the item, and the number.
    Sort(bool, Bytes, Box<Filter>),
    Comment(Bytes),
    /// Any of filters of one kind: some part holds, the union, or the greatest number. No query text has it.
    Any(Kind, Filters),
}

/// A part of a sum.
#[cycle(filter)]
#[derive(Drop)]
pub struct Term {
    /// True if the part is subtracted.
    pub minus: bool,
    pub filter: Filter,
}

/// A pattern of the nodes along a path.
#[cycle(filter)]
#[derive(Drop)]
pub struct Line {
    /// True if the path goes up, by `<--`.
    pub back: bool,
    /// True if each step joins a node and its first child.
    pub primary: bool,
    /// The lengths of the paths that the line allows.
    pub extent: Extent,
    pub parts: Constituents,
}

/// The conditions on the move that led to a position, each present if it is written.
#[cycle(filter)]
#[derive(Drop)]
pub struct Played {
    /// The squares from which the move may start.
    pub origin: Option<Box<Filter>>,
    /// The squares on which the move may end.
    pub goal: Option<Box<Filter>>,
    /// The squares on which the move may capture a man.
    pub taken: Option<Box<Filter>>,
    /// The squares on which the move may promote a pawn.
    pub promoted: Option<Box<Filter>>,
}

/// A part of a line.
#[cycle(filter)]
#[derive(Drop)]
pub struct Constituent {
    pub body: Body,
    pub mark: Mark,
}

/// The body of a part of a line: the paths that it spells once.
#[cycle(filter)]
#[derive(Drop)]
pub enum Body {
    /// One node at which the filter holds.
    Atom(Box<Filter>),
    /// Parts in a row.
    Group(Constituents),
}

/// A list of filters that grows.
#[cycle(filter)]
#[derive(Drop)]
pub struct Filters {
    items: Vec<Filter>,
}

/// A list of the terms of a sum that grows.
#[cycle(filter)]
#[derive(Drop)]
pub struct Terms {
    items: Vec<Term>,
}

/// A list of the parts of a line that grows.
#[cycle(filter)]
#[derive(Drop)]
pub struct Constituents {
    items: Vec<Constituent>,
}

/// A query: its header's parameters and its top items.
#[derive(Drop)]
pub struct Query {
    /// True if all nodes of a game are searched, and not the main line alone.
    pub variations: bool,
    /// The place in the query's bytes of the word `matchstring` whose text is used, or 0.
    pub match_at: u32,
    /// The comment added at each hit.
    pub match_text: Bytes,
    pub items: Filters,
}

impl Shared for Query {}

#[tactic(auto, using(crate::proofs::Lists::filters_tree_in, crate::proofs::Lists::filters_tree_rolled, crate::proofs::Lists::filter_trees_snoc))]
impl Filters {
    /// Returns an empty list. It allocates nothing.
    pub fn new(alloc: Global) -> Filters
        ensures items { filters_in result ≡ [] }
        ensures tree { filters_tree result ≡ no_filters }
    {
        Filters {
            items: Vec::new(alloc),
        }
    }

    /// Adds a filter at the end. On an error the filter is dropped.
    ///
    /// # Errors
    ///
    /// Returns `NoMemory` if memory runs out.
    pub fn push(&mut self, item: Filter) -> Result<(), NoMemory>
        ensures items { OnOk result (filters_in self.new ≡ filters_in self.old ++ item ∷ []) }
        ensures tree { OnOk result (filters_tree self.new ≡ with_filter (filters_tree self.old) (filter_tree item)) }
        ensures items_kept { OnErr result (filters_in self.new ≡ filters_in self.old) }
        ensures tree_kept { OnErr result (filters_tree self.new ≡ filters_tree self.old) }
    {
        self.items.push(item)?;
        Ok(())
    }

    /// Returns the number of filters.
    pub fn len(&self) -> usize
        ensures { result ≡ length (filters_in self.now) }
    {
        self.items.len()
    }

    /// Returns true if there are no filters.
    pub fn is_empty(&self) -> bool
        ensures { IsTrue result ↔ (length (filters_in self.now) ≡ 0) }
    {
        self.items.is_empty()
    }

    /// Returns all filters, in order.
    pub fn as_slice(&self) -> &[Filter]
        ensures items { result.now ≡ filters_in self.now }
        ensures tree { filter_trees result.now ≡ filters_tree self.now }
    {
        self.items.as_slice()
    }

    /// Returns the allocator of the list.
    pub fn allocator(&self) -> Global
        ensures { result ≡ vec_allocator (out-Filters self.now).items }
    {
        *self.items.allocator()
    }
}

#[tactic(auto, using(crate::proofs::Lists::terms_tree_in, crate::proofs::Lists::terms_tree_rolled, crate::proofs::Lists::term_trees_snoc))]
impl Terms {
    /// Returns an empty list. It allocates nothing.
    pub fn new(alloc: Global) -> Terms
        ensures items { terms_in result ≡ [] }
        ensures tree { terms_tree result ≡ no_terms }
    {
        Terms {
            items: Vec::new(alloc),
        }
    }

    /// Adds a term at the end. On an error the term is dropped.
    ///
    /// # Errors
    ///
    /// Returns `NoMemory` if memory runs out.
    pub fn push(&mut self, item: Term) -> Result<(), NoMemory>
        ensures items { OnOk result (terms_in self.new ≡ terms_in self.old ++ item ∷ []) }
        ensures tree { OnOk result (terms_tree self.new ≡ with_term (terms_tree self.old) item.minus (filter_tree item.filter)) }
        ensures items_kept { OnErr result (terms_in self.new ≡ terms_in self.old) }
        ensures tree_kept { OnErr result (terms_tree self.new ≡ terms_tree self.old) }
    {
        self.items.push(item)?;
        Ok(())
    }

    /// Returns the number of terms.
    pub fn len(&self) -> usize
        ensures { result ≡ length (terms_in self.now) }
    {
        self.items.len()
    }

    /// Returns true if there are no terms.
    pub fn is_empty(&self) -> bool
        ensures { IsTrue result ↔ (length (terms_in self.now) ≡ 0) }
    {
        self.items.is_empty()
    }

    /// Returns all terms, in order.
    pub fn as_slice(&self) -> &[Term]
        ensures items { result.now ≡ terms_in self.now }
        ensures tree { term_trees result.now ≡ terms_tree self.now }
    {
        self.items.as_slice()
    }
}

#[tactic(auto, using(crate::proofs::Lists::parts_tree_in, crate::proofs::Lists::parts_tree_rolled, crate::proofs::Lists::part_trees_snoc))]
impl Constituents {
    /// Returns an empty list. It allocates nothing.
    pub fn new(alloc: Global) -> Constituents
        ensures items { parts_in result ≡ [] }
        ensures tree { parts_tree result ≡ no_parts }
    {
        Constituents {
            items: Vec::new(alloc),
        }
    }

    /// Adds a part at the end. On an error the part is dropped.
    ///
    /// # Errors
    ///
    /// Returns `NoMemory` if memory runs out.
    pub fn push(&mut self, item: Constituent) -> Result<(), NoMemory>
        ensures items { OnOk result (parts_in self.new ≡ parts_in self.old ++ item ∷ []) }
        ensures tree { OnOk result (parts_tree self.new ≡ with_part (parts_tree self.old) (body_tree item.body) item.mark) }
        ensures items_kept { OnErr result (parts_in self.new ≡ parts_in self.old) }
        ensures tree_kept { OnErr result (parts_tree self.new ≡ parts_tree self.old) }
    {
        self.items.push(item)?;
        Ok(())
    }

    /// Returns the number of parts.
    pub fn len(&self) -> usize
        ensures { result ≡ length (parts_in self.now) }
    {
        self.items.len()
    }

    /// Returns true if there are no parts.
    pub fn is_empty(&self) -> bool
        ensures { IsTrue result ↔ (length (parts_in self.now) ≡ 0) }
    {
        self.items.is_empty()
    }

    /// Returns all parts, in order.
    pub fn as_slice(&self) -> &[Constituent]
        ensures items { result.now ≡ parts_in self.now }
        ensures tree { part_trees result.now ≡ parts_tree self.now }
    {
        self.items.as_slice()
    }
}
