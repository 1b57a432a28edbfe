//! A whole archive, cut into its games.
ghost use Rattle.std.specs.Prelude.{◌≡◌, ◌<◌, ◌≤◌, ◌^◌, length, All, IfOk};
ghost use Rattle.pgn_cut.specs.GameTokens.{HasItsTokens};
ghost use Rattle.pgn_cut.specs.OneGame.{IsGameIn};
ghost use Rattle.pgn_cut.specs.Spans.{EndsBy, AreSpansInOrder};
ghost use Rattle.pgn_cut.specs.Cut.{cut};

use crate::cutter::Cutter;
use crate::laws::{closed_games_stay, games_end_once, games_have_their_tokens, games_stand_apart};
use crate::span::Span;
use cq_common::NoMemory;
use std::alloc::Global;

/// Returns the games of an archive of fewer than 2^62 bytes, in order.
///
/// # Errors
///
/// Fails only if out of memory.
pub fn cut_whole(alloc: Global, archive: &[u8]) -> Result<Vec<Span>, NoMemory>
    requires { length archive.now < 2 ^ 62 }
    ensures games { IfOk result (λ v. v.items ≡ cut archive.now) }
    ensures order { IfOk result (λ v. AreSpansInOrder 0 (length archive.now) v.items) }
    ensures within { IfOk result (λ v. All (EndsBy (length archive.now)) v.items) }
    ensures tokens { IfOk result (λ v. All (HasItsTokens archive.now) v.items) }
    ensures each { IfOk result (λ v. All (IsGameIn archive.now) v.items) }
{
    closed_games_stay();
    games_stand_apart();
    games_have_their_tokens();
    games_end_once();
    let mut spans = Vec::new(alloc);
    let mut cutter = Cutter::new();
    cutter.feed(archive, &mut spans)?;
    cutter.finish(&mut spans)?;
    Ok(spans)
}
