//! Archives that an independent model made.
use cq_common::NoMemory;
use cq_maker::laws::games_are_read_back;
use cq_maker::make_archive;
use std::alloc::Global;
use std::test::Fail;

/// A seed, a number of games, and their archive.
type MakerCase<'a> = (u32, u32, &'a str);

static ROWS: [MakerCase<'static>; 3] = [
    (4_294_967_295, 0, ""),
    (
        67,
        1,
        "[Event \"Selfrun\"]
[Site \"?\"]
[Date \"????.??.??\"]
[Round \"1\"]
[White \"?\"]
[Black \"?\"]
[Result \"1-0\"]

1. d4 e5 2. Kd2 Nc6 3. f4 h5 4. g4 (4. h3) 4... b6 5. Kc3 Nb4 6. Kc4 Qg5 7. h4
Bd6 8. Rh2 Qxh4 9. Rf2 exf4 10. Bxf4 Qh2 11. Kb3 Rh7 12. Bg5 c6 13. Bd8 g6 14.
Be7 Qh4 15. c4 Na6 16. Qc1 f6 17. Qh6 Qh2 18. Qf8# 1-0

",
    ),
    (
        1,
        2,
        "[Event \"Selfrun\"]
[Site \"?\"]
[Date \"????.??.??\"]
[Round \"1\"]
[White \"?\"]
[Black \"?\"]
[Result \"*\"]

1. e4 f5 2. Nh3 e5 3. Ba6 Nh6 4. Nf4 Ng8 5. Qf3 Nxa6 6. b3 exf4 7. Qg3 f3 8.
Na3 Kf7 9. Qd6 fxg2 10. Qe7+ Nxe7 11. h3 Nc6 12. Nc4 gxh1=B 13. d4 g5 14. h4
Ke7 15. d5 Ncb8 16. a4 g4 17. Na5 Bg2 *

[Event \"Selfrun\"]
[Site \"?\"]
[Date \"????.??.??\"]
[Round \"2\"]
[White \"?\"]
[Black \"?\"]
[Result \"*\"]

1. Nf3 e6 2. Ng1 f5 3. f4 e5 4. fxe5 Nh6 5. Na3 a5 6. Nf3 c6 7. g3 Qe7 8. Bh3
(8. d3) 8... c5 9. Nb1 Nf7 10. O-O Qd6 11. e3 Qb6 12. Kg2 Nxe5 13. Ng1 Nc4 14.
g4 Qb5 15. Rf4 g5 16. Kg3 Qb6 17. e4 Qg6 18. exf5 Ra7 19. Kf3 Ke7 20. d3 *

",
    ),
];

// Returns true if the archive is that of the row; no row has more than 100,000 games.
fn is_right(alloc: Global, row: &MakerCase<'_>) -> Result<bool, NoMemory> {
    if row.1 > 100_000 {
        return Ok(false);
    }
    let archive = make_archive(alloc, row.0, row.1)?;
    Ok(archive.as_slice() == row.2.as_bytes())
}

#[test]
fn archives_are_made(rt: HostRuntime) -> Result<(), Fail> {
    games_are_read_back();
    for row in ROWS.iter() {
        assert!(rt; is_right(rt.alloc(), row)?);
    }
    Ok(())
}
