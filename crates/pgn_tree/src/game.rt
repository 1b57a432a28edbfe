//! A game.
ghost use Rattle.std.specs.Option.{is_some};
ghost use Rattle.std.specs.Int.{bit_at};
ghost use Rattle.std.specs.Prelude.{◌≡◌, ◌≢◌, ◌&&◌, ◌||◌, ◌==◌, ◌^◌, ℕ, true, false, not, ◌<◌, ◌≤◌, ◌+◌, ◌-◌, ◌↔◌, [], ◌∷◌, ◌++◌, length, slice_index_or, Some, None, OnOk, OnErr, IfOk, IfSome, IsNone, IsOk, Contains, All};
ghost use Rattle.cq_position.specs.Legal.{Leads};
ghost use Rattle.cq_position.specs.Comments.{closing_brace};
ghost use Rattle.cq_position.specs.Games.{most_positions, node_at, bare_node, with_nag, with_comment, with_node, way_up, children, first_child, next_sibling, is_main, main_line, IsLastSibling, IsTree, HaveNotes, HaveDistinctNames, is_below, is_searched};
ghost use Rattle.cq_position.specs.Men.{man_number};
ghost use Rattle.cq_position.specs.Search.{IsDownPath, has_man, has_man_in};
ghost use Rattle.pgn_tree.specs.Links.{linked_at, with_link, linked};
ghost use Rattle.pgn_tree.specs.Notes.{annotated_node};

use crate::node::Node;
use crate::notes::Notes;
use crate::tags::Tags;
use cq_common::{NoMemory, Shared};
use cq_position::{GameResult, Man, Move, Position};
use std::alloc::Global;
use std::marker::Model;

/// The set of all men, the empty square included.
const ALL_MEN: u16 = (1 << 13) - 1;

/// A game: its tags, its result, and the tree of its positions, which contracts see as a list of nodes.
///
/// Nodes are numbered from 0 in preorder. Node 0 is the root; it has the starting position. Each other node has the position to which a
/// legal move or an allowed null move led from the position of its parent. A game has at most 65,536 nodes.
#[derive(Drop)]
pub struct Game {
    alloc: Global,
    tags: Tags,
    result: GameResult,
    nodes: Vec<Node>,
}

impl Shared for Game {}

impl Model for Game {
    ghost use Rattle.cq_position.specs.Games.{Game};

    ghost Value = { Game };

    ghost use Rattle.pgn_tree.specs.GameInside.{game_inside};
    ghost use Rattle.pgn_tree.specs.Links.{HasKeptAnnotations};

    ghost view = { game_inside };

    ghost invariant = { λ g. HasKeptAnnotations g.nodes.items };
}

impl Game {
    /// Returns a game of the starting position alone.
    ///
    /// # Errors
    ///
    /// Fails only if out of memory.
    pub fn new(
        alloc: Global,
        tags: Tags,
        ending: GameResult,
        start: Position,
    ) -> Result<Game, NoMemory>
        ensures { IfOk result (λ g. g ≡ record { tags = tags; result = ending; nodes = bare_node None None start ∷ [] }) }
    {
        Game::of_root(alloc, tags, ending, start, Notes::new(alloc))
    }

    /// Returns a game of the starting position alone, with its notes.
    ///
    /// # Errors
    ///
    /// Fails only if out of memory.
    pub fn of_root(
        alloc: Global,
        tags: Tags,
        ending: GameResult,
        start: Position,
        notes: Notes,
    ) -> Result<Game, NoMemory>
        ensures { IfOk result (λ g. g ≡ record { tags = tags; result = ending; nodes = annotated_node None None start notes ∷ [] }) }
    {
        prove!(notes.are_kept());
        let mut nodes = Vec::new(alloc);
        nodes.push(Node::new(None, None, start, notes, true))?;
        Ok(Game {
            alloc,
            tags,
            result: ending,
            nodes,
        })
    }

    /// Returns a copy, which shares nothing with this game.
    ///
    /// # Errors
    ///
    /// Fails only if out of memory.
    pub fn copy(&self, alloc: Global) -> Result<Game, NoMemory>
        ensures { IfOk result (λ g. g ≡ self.now) }
    {
        Ok(Game {
            alloc,
            tags: self.tags.copy(alloc)?,
            result: self.result,
            nodes: copy_nodes(alloc, self.nodes.as_slice())?,
        })
    }

    /// Returns the number of nodes.
    pub fn len(&self) -> u32
        ensures len { result ≡ length self.now.nodes }
        ensures kept { IsTree self.now.nodes }
        ensures notes { HaveNotes self.now.nodes }
    {
        self.nodes.len() as u32
    }

    /// Returns true, as the nodes always have a root. The clauses are the properties of every game.
    pub fn is_tree(&self) -> bool
        ensures value { result ≡ true }
        ensures tree { IsTree self.now.nodes }
        ensures notes { HaveNotes self.now.nodes }
        ensures names { HaveDistinctNames self.now.tags }
    {
        prove!(self.tags.have_distinct_names());
        self.len() > 0
    }

    /// Returns the result.
    pub fn result(&self) -> GameResult
        ensures { result ≡ self.now.result }
    {
        self.result
    }

    /// Returns the tags.
    pub fn tags(&self) -> &Tags
        ensures { result.now ≡ self.now.tags }
    {
        &self.tags
    }

    /// Returns the number of a node's parent; None at the root, and nowhere else.
    pub fn parent(&self, k: u32) -> Option<u32>
        requires { k < length self.now.nodes }
        ensures value { result ≡ (node_at self.now.nodes k).parent }
        ensures root { IsNone result ↔ (k ≡ 0) }
        ensures before { IfSome result (λ p. p < k) }
    {
        self.nodes[k as usize].parent()
    }

    /// Returns the number of a node's first child; None if it has no child.
    pub fn first_child(&self, k: u32) -> Option<u32>
        requires { k < length self.now.nodes }
        ensures value { result ≡ first_child self.now.nodes k }
        ensures none { IsNone result ↔ (children self.now.nodes k ≡ []) }
        ensures after { IfSome result (λ c. (k < c) × (c < length self.now.nodes)) }
    {
        self.nodes[k as usize].first_child()
    }

    /// Returns the number of a node's next sibling; None if no sibling comes later.
    pub fn next_sibling(&self, k: u32) -> Option<u32>
        requires { k < length self.now.nodes }
        ensures value { result ≡ next_sibling self.now.nodes k }
        ensures none { IsNone result ↔ IsLastSibling self.now.nodes k }
        ensures after { IfSome result (λ s. (k < s) × (s < length self.now.nodes)) }
    {
        self.nodes[k as usize].next_sibling()
    }

    /// Returns true if a node is of the main line: the root, or a first child of a node of the main line.
    pub fn is_main(&self, k: u32) -> bool
        requires { k < length self.now.nodes }
        ensures { result ≡ is_main self.now.nodes k }
    {
        self.nodes[k as usize].is_main()
    }

    /// Returns the position of a node.
    pub fn position(&self, k: u32) -> &Position
        requires { k < length self.now.nodes }
        ensures { result.now ≡ (node_at self.now.nodes k).position }
    {
        self.nodes[k as usize].position()
    }

    /// Returns the move that led to a node; None at the root, and nowhere else.
    pub fn move_to(&self, k: u32) -> Option<Move>
        requires { k < length self.now.nodes }
        ensures value { result ≡ (node_at self.now.nodes k).led_by }
        ensures root { IsNone result ↔ (k ≡ 0) }
    {
        self.nodes[k as usize].led_by()
    }

    /// Returns the numeric annotation glyphs of a node, in order.
    pub fn nags(&self, k: u32) -> &[u8]
        requires { k < length self.now.nodes }
        ensures { result.now ≡ (node_at self.now.nodes k).nags }
    {
        self.nodes[k as usize].nags()
    }

    /// Returns the number of comments of a node.
    pub fn comments(&self, k: u32) -> usize
        requires { k < length self.now.nodes }
        ensures { result ≡ length (node_at self.now.nodes k).comments }
    {
        self.nodes[k as usize].comments()
    }

    /// Returns comment number `i` of a node, counted from 0: words with single spaces between them.
    pub fn comment(&self, k: u32, i: usize) -> &[u8]
        requires node { k < length self.now.nodes }
        requires comment { i < length (node_at self.now.nodes k).comments }
        ensures { result.now ≡ slice_index_or (node_at self.now.nodes k).comments i [] }
    {
        self.nodes[k as usize].comment(i)
    }

    /// Adds a node after all others, and returns its number.
    ///
    /// Its parent is the last node or an ancestor of that. The move is legal, or an allowed null move, in the parent's
    /// position, and leads to the position.
    ///
    /// # Errors
    ///
    /// Fails only if out of memory, and then changes nothing.
    pub fn add_node(&mut self, parent: u32, m: Move, p: Position) -> Result<u32, NoMemory>
        requires node { parent < length self.old.nodes }
        requires preorder { Contains (way_up self.old.nodes (length self.old.nodes - 1)) parent }
        requires leads { Leads (node_at self.old.nodes parent).position m p }
        requires few { length self.old.nodes < most_positions }
        ensures ok { OnOk result (self.new ≡ record self.old { nodes = self.old.nodes ++ bare_node (Some parent) (Some m) p ∷ [] }) }
        ensures number { IfOk result (λ k. k ≡ length self.old.nodes) }
        ensures err { OnErr result (self.new ≡ self.old) }
    {
        self.add_noted_node(parent, m, p, Notes::new(self.alloc))
    }

    /// Adds a node with its notes after all others, and returns its number.
    ///
    /// # Errors
    ///
    /// Fails only if out of memory, and then changes nothing.
    pub fn add_noted_node(
        &mut self,
        parent: u32,
        m: Move,
        p: Position,
        notes: Notes,
    ) -> Result<u32, NoMemory>
        requires node { parent < length self.old.nodes }
        requires preorder { Contains (way_up self.old.nodes (length self.old.nodes - 1)) parent }
        requires leads { Leads (node_at self.old.nodes parent).position m p }
        requires few { length self.old.nodes < most_positions }
        ensures ok { OnOk result (self.new ≡ record self.old { nodes = self.old.nodes ++ annotated_node (Some parent) (Some m) p notes ∷ [] }) }
        ensures number { IfOk result (λ k. k ≡ length self.old.nodes) }
        ensures err { OnErr result (self.new ≡ self.old) }
    {
        prove!(notes.are_kept());
        let number = self.nodes.len() as u32;
        let main = begins_main_line(&self.nodes[parent as usize]);
        self.nodes
            .push(Node::new(Some(parent), Some(m), p, notes, main))?;
        link(&mut self.nodes, parent, number);
        Ok(number)
    }

    /// Reserves memory for `nodes` more nodes, so that no node is copied when they are added.
    ///
    /// # Errors
    ///
    /// Fails only if out of memory.
    pub fn reserve(&mut self, nodes: usize) -> Result<(), NoMemory>
        ensures { self.new ≡ self.old }
    {
        self.nodes.reserve(nodes)?;
        Ok(())
    }

    /// Adds a numeric annotation glyph to a node. The first four of a node take no memory.
    ///
    /// # Errors
    ///
    /// Fails only if out of memory, and then changes nothing.
    pub fn add_nag(&mut self, k: u32, nag: u8) -> Result<(), NoMemory>
        requires { k < length self.old.nodes }
        ensures ok { OnOk result (self.new ≡ record self.old { nodes = with_node self.old.nodes k (with_nag nag) }) }
        ensures err { OnErr result (self.new ≡ self.old) }
        ensures room { length (node_at self.old.nodes k).nags < 4 → IsOk result }
    {
        self.nodes[k as usize].add_nag(nag)
    }

    /// Adds a comment to a node: the words of the text with single spaces between them. A text without words adds
    /// nothing.
    ///
    /// # Errors
    ///
    /// Fails only if out of memory, and then changes nothing.
    pub fn add_comment(&mut self, k: u32, text: &[u8]) -> Result<(), NoMemory>
        requires node { k < length self.old.nodes }
        requires brace { All (λ b. b ≢ closing_brace) text.now }
        ensures ok { OnOk result (self.new ≡ record self.old { nodes = with_node self.old.nodes k (with_comment text.now) }) }
        ensures err { OnErr result (self.new ≡ self.old) }
    {
        self.nodes[k as usize].add_comment(text)
    }

    /// Returns the numbers of the nodes of the main line: the root, and the first children that follow it.
    ///
    /// # Errors
    ///
    /// Fails only if out of memory.
    pub fn main_line(&self) -> Result<Vec<u32>, NoMemory>
        ensures { IfOk result (λ line. line.items ≡ main_line self.now.nodes) }
    {
        let mut line = Vec::new(self.alloc);
        for k in 0..self.len() {
            if self.is_main(k) {
                line.push(k)?;
            }
        }
        Ok(line)
    }

    /// Returns the path down from a node to another, both included, over all nodes. None exactly if `to` is neither
    /// `from` nor a descendant of it.
    ///
    /// # Errors
    ///
    /// Fails only if out of memory.
    pub fn down_path(&self, from: u32, to: u32) -> Result<Option<Vec<u32>>, NoMemory>
        requires from { from < length self.now.nodes }
        requires to { to < length self.now.nodes }
        ensures none { IfOk result (λ path. IsNone path ↔ (is_below self.now.nodes from to ≡ false)) }
        ensures path { IfOk result (λ path. IfSome path (λ p. IsDownPath self.now from to p.items)) }
    {
        let mut path = Vec::new(self.alloc);
        let mut at = to;
        while from < at {
            path.push(at)?;
            let Some(parent) = self.parent(at) else {
                return Ok(None);
            };
            at = parent;
        }
        if at < from {
            return Ok(None);
        }
        path.push(from)?;
        path.reverse();
        Ok(Some(path))
    }

    /// Returns the set of the men in the positions of the main line, or with `variations` in all positions of the game.
    /// Bit k is set exactly if man number k of [`Man`] is in some of them, the empty square included. Takes no memory.
    pub fn men(&self, variations: bool) -> u16
        ensures { (k : ℕ) → (bit_at result k == 1) ≡ has_man_in (record { game = self.now; variations = variations }) k }
    {
        let mut men = 0;
        for k in 0..self.len() {
            men = self.with_men_at(men, variations, k);
        }
        men
    }

    // The men, with those of a node if it is searched. No position adds a man to all of them.
    #[tactic(auto, using(crate::proofs::Men::nothing_new))]
    fn with_men_at(&self, men: u16, variations: bool, k: u32) -> u16
        requires { k < length self.now.nodes }
        ensures { (b : ℕ) → (bit_at result b == 1)
            ≡ ((bit_at men b == 1) || (is_searched variations self.now.nodes k && has_man (node_at self.now.nodes k).position b)) }
    {
        if men != ALL_MEN && (variations || self.is_main(k)) {
            return with_men_of(men, self.position(k));
        }
        men
    }
}

// A copy of the nodes.
fn copy_nodes(alloc: Global, nodes: &[Node]) -> Result<Vec<Node>, NoMemory>
    ensures { IfOk result (λ copied. copied.items ≡ nodes.now) }
{
    let mut copied = Vec::with_capacity(alloc, nodes.len())?;
    for node in nodes {
        copied.push(node.copy(alloc)?)?;
    }
    Ok(copied)
}

// The men, with those of a position.
fn with_men_of(men: u16, position: &Position) -> u16
    ensures { (b : ℕ) → (bit_at result b == 1) ≡ ((bit_at men b == 1) || has_man position.now b) }
{
    let on_board = position.men().listed();
    let mut men = men;
    for square in 0..64 {
        men |= bit_of(on_board[square]);
    }
    men
}

fn bit_of(man: Man) -> u16
    ensures { result ≡ 2 ^ man_number man }
{
    1 << (man as u8)
}

// True if the next child of a node is of the main line.
fn begins_main_line(parent: &Node) -> bool
    ensures { result ≡ (parent.now.main && not (is_some parent.now.first_child)) }
{
    parent.is_main() && parent.first_child().is_none()
}

// Links the last node, number `k`, to the last child of its parent, or as first child to the parent itself.
fn link(nodes: &mut Vec<Node>, parent: u32, k: u32)
    requires parent { parent < length nodes.old.items }
    requires last { IfSome (linked_at nodes.old.items parent).last_child (λ l. l < length nodes.old.items) }
    ensures { nodes.new.items ≡ linked nodes.old.items parent k }
{
    let last = nodes[parent as usize].last_child();
    link_before(nodes, last, parent, k);
    nodes[parent as usize].set_last_child(k);
}

fn link_before(nodes: &mut Vec<Node>, last: Option<u32>, parent: u32, k: u32)
    requires parent { parent < length nodes.old.items }
    requires last { IfSome last (λ l. l < length nodes.old.items) }
    ensures { nodes.new.items ≡ with_link nodes.old.items last parent k }
{
    match last {
        Some(last) => nodes[last as usize].set_next_sibling(k),
        None => nodes[parent as usize].set_first_child(k),
    }
}
