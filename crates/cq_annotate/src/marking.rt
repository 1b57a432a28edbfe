//! Marks of a query's hits.
ghost use Rattle.std.specs.Prelude.{◌≡◌, ◌≢◌, ◌<◌, length, All, AllPairs, IfOk, OnOk};
ghost use Rattle.cq_position.specs.Comments.{closing_brace};
ghost use Rattle.cq_position.specs.Games.{with_node};
ghost use Rattle.cql_syntax.specs.Hits.{marks, item_texts, comment_texts, with_marks};
ghost use Rattle.cql_syntax.specs.TreeOf.{filter_tree, filters_tree, query_tree};
ghost use Rattle.cq_annotate.specs.Marking.{game_marked};

use cq_common::NoMemory;
use cql_syntax::{Filter, Filters, Form, Query};
use pgn_tree::Game;
use std::alloc::Global;

/// The same game, with comments added to each of the nodes given: the query's match string and then its top comments. They follow the
/// node's own comments, each split into its words. A text without a word adds nothing.
///
/// The numbers of the nodes increase. No text of the query has `}`, which ends a comment (PGN standard, section 5).
///
/// # Errors
///
/// `NoMemory` if out of memory.
pub fn mark(alloc: Global, game: &Game, nodes: &[u32], query: &Query) -> Result<Game, NoMemory>
    requires increasing { AllPairs (λ m n. m < n) nodes.now }
    requires inside { All (λ n. n < length game.now.nodes) nodes.now }
    requires brace { All (λ text. All (λ b. b ≢ closing_brace) text) (marks (query_tree query.now)) }
    ensures { IfOk result (λ g. g ≡ game_marked (marks (query_tree query.now)) nodes.now game.now) }
{
    let mut marked = game.copy(alloc)?;
    for node in nodes {
        add_marks(&mut marked, *node, query)?;
    }
    Ok(marked)
}

// Adds the texts of a query to a node.
fn add_marks(game: &mut Game, node: u32, query: &Query) -> Result<(), NoMemory>
    requires node { node < length game.old.nodes }
    requires brace { All (λ text. All (λ b. b ≢ closing_brace) text) (marks (query_tree query.now)) }
    ensures { OnOk result (game.new ≡ record game.old {
      nodes = with_node game.old.nodes node (with_marks (marks (query_tree query.now)));
    }) }
{
    game.add_comment(node, query.match_text.as_slice())?;
    add_comments(game, node, &query.items)?;
    Ok(())
}

fn add_comments(game: &mut Game, node: u32, items: &Filters) -> Result<(), NoMemory>
    requires node { node < length game.old.nodes }
    requires brace { All (λ text. All (λ b. b ≢ closing_brace) text) (comment_texts (filters_tree items.now)) }
    ensures { OnOk result (game.new ≡ record game.old {
      nodes = with_node game.old.nodes node (with_marks (comment_texts (filters_tree items.now)));
    }) }
{
    for item in items.as_slice() {
        add_comment_of(game, node, item)?;
    }
    Ok(())
}

// Adds the text of an item that is a comment.
fn add_comment_of(game: &mut Game, node: u32, item: &Filter) -> Result<(), NoMemory>
    requires node { node < length game.old.nodes }
    requires brace { All (λ text. All (λ b. b ≢ closing_brace) text) (item_texts (filter_tree item.now)) }
    ensures { OnOk result (game.new ≡ record game.old {
      nodes = with_node game.old.nodes node (with_marks (item_texts (filter_tree item.now)));
    }) }
{
    match &item.form {
        Form::Comment(text) => game.add_comment(node, text.as_slice()),
        _ => Ok(()),
    }
}
