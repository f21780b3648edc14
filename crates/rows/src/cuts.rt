//! Sessions that are stopped at successive transactions, and one restore after each session that sealed its vault.
use crate::held::assert_that;
use crate::row::{Row, Start};
use crate::runs::Runs;

// Each row has a session, its first allowance, and the number of runs up to the allowance with which it succeeds.
const ROWS: [(Row, u64, u64); 6] = [
    (Row::ABitFalls, 0, 29),
    (Row::NineSectorsAreErased, 0, 39),
    (Row::TheChipIsErased, 0, 43),
    (Row::AByteBelowTheGuardIsProgrammed, 2049, 9),
    (Row::ABitOf64BytesRises, 0, 16),
    (Row::AGuardedByteOfASectorIsProgrammed, 14, 3),
];

#[test]
fn each_stop_with_one_restore(rt: HostRuntime) {
    for (row, first, runs) in ROWS {
        let stopped = Runs::new(&rt, rt.alloc(), row, Start::IDLE);
        assert_that!(&rt; stopped.stop_at_each(&rt, first) == runs);
    }
}
