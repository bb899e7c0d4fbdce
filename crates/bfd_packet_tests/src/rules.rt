//! Due ticks of periodic packets.

use bfd_num::next_j;
use bfd_rules::pick;

#[test]
fn picks_the_due_ticks_of_worked_examples(rt: HostRuntime) {
    // base, interval, Detect Mult, draw, due tick
    let table = [
        (0, 10_000, 1, 0, 8),
        (0, 10_000, 1, 1, 9),
        (600, 10_000, 1, 7, 9),
        (0, 10_000, 3, 5, 10),
        (750_000, 1_000_000, 3, 1_013_904_223, 1514),
    ];
    for (base, interval, mult, j, due) in table {
        assert!(rt; pick(base, interval, mult, j) == due);
    }
}

#[test]
fn picks_one_after_the_other(rt: HostRuntime) {
    // The due ticks of a handshake, a poll and an expiry, each from the packet before it, with the draws from seed 0 on.
    let table = [
        (0, 1_000_000, 750),
        (750_000, 1_000_000, 1514),
        (800_000, 300_000, 1087),
        (1_087_000, 300_000, 1321),
        (2_000_000, 1_000_000, 2831),
    ];
    let mut j = 0;
    for (base, interval, due) in table {
        assert!(rt; pick(base, interval, 3, j) == due);
        j = next_j(j);
    }
}
