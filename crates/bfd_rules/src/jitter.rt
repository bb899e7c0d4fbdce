//! The tick at which the next periodic packet is due (RFC 5880 section 6.8.7).
ghost use Rattle.std.specs.Prelude.{◌≡◌, ◌≢◌, ◌<◌, ◌≤◌, ℕ};
ghost use Rattle.bfd_num.specs.Numbers.{moment_bound, floor_tick as tick_of};
ghost use Rattle.bfd_rules.specs.Jitter.{earliest, latest};
ghost use Rattle.bfd_rules.specs.Jitter as jitter;

use bfd_num::{ceil_tick, floor_tick};

/// The tick, after the packet sent at `base`, at which the next periodic packet is due: one between three quarters
/// of the interval and the interval, or with Detect Mult 1 nine tenths of it, as the draw `j` picks. `base` and
/// `interval` are in microseconds.
#[tactic(auto, unfolding(crate::specs::Jitter::pick, bfd_num::specs::Numbers::floor_tick, bfd_num::specs::Numbers::ceil_tick))]
pub fn pick(base: u64, interval: u32, mult: u8, j: u32) -> u64
    requires base { base < moment_bound }
    requires interval { 10000 ≤ interval }
    requires mult { mult ≢ 0 }
    ensures value { result ≡ jitter.pick base interval mult j }
    ensures order { earliest base interval ≤ latest base interval mult }
    ensures from { earliest base interval ≤ result }
    ensures to { result ≤ latest base interval mult }
    ensures later { (m : ℕ) → m ≤ base → tick_of m < result }
    ensures below { result < moment_bound }
{
    let interval = u64::from(interval);
    let most = if mult == 1 {
        9 * interval / 10
    } else {
        interval
    };
    let earliest = ceil_tick(base + (3 * interval + 3) / 4);
    let latest = floor_tick(base + most);
    earliest + u64::from(j) % (latest - earliest + 1)
}
