//! Lines of small schedules, compared with what a model of the definition in another language wrote.
ghost use Rattle.std.specs.Prelude.{◌≤◌};

use bfd_pair::schedule::pair_line;
use std::alloc::Global;

/// Whether this is the line of so many events.
fn is_line(alloc: Global, events: u64, seed: u32, want: &str) -> bool
    requires { events ≤ 100000 }
{
    match pair_line(alloc, events, seed) {
        Ok(line) => line.as_str() == want,
        Err(_) => false,
    }
}

#[test]
fn small_schedules(rt: HostRuntime) {
    for (events, seed, want) in [
        (0, 5, "pair 0 0 0 Down Down 0\n"),
        (1, 0, "pair 1 0 0 Down Down 0\n"),
        (1000, 1, "pair 1000 69 123 Down Down 27\n"),
        (1000, 5, "pair 1000 67 120 Up Init 25\n"),
        (2000, 4_294_967_295, "pair 2000 303 568 Up Up 119\n"),
        (3000, 7, "pair 3000 565 1149 Down Up 216\n"),
    ] {
        assert!(rt; is_line(rt.alloc(), events, seed, want));
    }
}
