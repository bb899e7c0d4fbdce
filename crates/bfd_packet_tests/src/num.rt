//! Rounding, the greatest moment and tick, and draws.

use bfd_num::{Moment, Tick, ceil_tick, floor_tick, next_j};

#[test]
fn rounding(rt: HostRuntime) {
    for (m, floor, ceil) in [
        (0, 0, 0),
        (999, 0, 1),
        (1000, 1, 1),
        (1001, 1, 2),
        (
            1_152_921_504_606_846_975,
            1_152_921_504_606_846,
            1_152_921_504_606_847,
        ),
        (
            18_446_744_073_709_551_615,
            18_446_744_073_709_551,
            18_446_744_073_709_552,
        ),
    ] {
        assert!(rt; floor_tick(m) == floor && ceil_tick(m) == ceil);
    }
}

/// Whether there is a moment of so many microseconds, and a tick of that number.
fn fits(us: u64, t: u64) -> (bool, bool) {
    (
        matches!(Moment::new(us), Some(moment) if moment.get() == us),
        matches!(Tick::new(t), Some(tick) if tick.get() == t),
    )
}

#[test]
fn too_large(rt: HostRuntime) {
    assert!(rt; fits(0, 0) == (true, true));
    assert!(rt; fits(1_152_921_504_606_846_975, 1_152_921_504_606_846) == (true, true));
    assert!(rt; fits(1_152_921_504_606_846_976, 1_152_921_504_606_847) == (false, false));
}

#[test]
fn draws(rt: HostRuntime) {
    for (j, next) in [
        (0, 1_013_904_223),
        (1, 1_015_568_748),
        (1_013_904_223, 1_196_435_762),
        (4_294_967_295, 1_012_239_698),
    ] {
        assert!(rt; next_j(j) == next);
    }
}
