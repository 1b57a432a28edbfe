//! The laws on which the search batch by batch relies.
ghost use Rattle.cq_search.specs.Internal.ByBatches.{Laws};

use pgn_reader::{first_bytes_decide, games_have_one_outcome, games_have_outcomes};

// The games that come of an archive in batches, piece by piece, are its games as they are cut. Each is read from the bytes that are kept of
// it.
pub(crate) fn archives_come_in_batches()
    ensures { Laws }
{
    pgn_batches::laws::archives_come_in_batches();
    games_have_outcomes();
    games_have_one_outcome();
    first_bytes_decide();
}
