//! One look, for a number that the caller picks.
ghost use Rattle.std.specs.Prelude.{◌≡◌};
ghost use Rattle.cq_first.specs.Seats.{IsSeatOf};
ghost use Rattle.cq_first.specs.Views.{looking, IsSeen};

use crate::seat::{FirstBoard, FirstSeat};
use crate::view::{Look, LookTarget};

/// The word, as one load reads it.
pub(crate) fn look_at<K: LookTarget>(board: &FirstBoard, seat: &mut FirstSeat, k: u64) -> u64
    requires seat { IsSeatOf board.now seat.old }
    requires number { k ≡ K.number }
    ensures table { seat.new.seat.table_id ≡ seat.old.seat.table_id }
    ensures view { seat.new.seat.me.0 ≡ looking k seat.old.seat.me.0 result }
    ensures seen { IsSeen seat.old.seat.me.0 result }
{
    board.table.shared.load::<Look<K>>(&mut seat.seat, 0)
}
