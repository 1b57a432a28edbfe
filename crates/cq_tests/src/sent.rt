//! Types that threads may share, and types that one may hand to another.
use arrayvec::ArrayVec;
use cq_board::{Board, ClaimSeat};
use cq_first::{FirstBoard, FirstSeat};
use cq_geometry::{Compass, Square};
use cq_position::{FenFault, Move, Position};
use pgn_lexer::{Reading, Token};

fn is_shared<T: Send + Sync>() {}

fn is_sent<T: Send>() {}

#[test]
fn threads_may_share_and_hand_on() {
    is_shared::<Square>();
    is_shared::<Compass>();
    is_shared::<ArrayVec<Square, 8>>();
    is_shared::<Position>();
    is_shared::<Move>();
    is_shared::<FenFault>();
    is_shared::<Token>();
    is_shared::<Reading>();
    is_shared::<Board>();
    is_shared::<FirstBoard>();
    is_sent::<ClaimSeat>();
    is_sent::<FirstSeat>();
}
