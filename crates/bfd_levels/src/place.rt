//! On which list a node stands.
//!
//! | Due tick, above `now` | List |
//! |---|---|
//! | the same but for the last 8 bits | level 0, slot of bits 0 to 7 |
//! | the same but for the last 16 bits | level 1, slot of bits 8 to 15 |
//! | the same but for the last 24 bits | level 2, slot of bits 16 to 23 |
//! | the same but for the last 32 bits | level 3, slot of bits 24 to 31 |
//! | any other | the overflow list |
//!
//! A due tick at or below `now` is on the overdue list.
ghost use Rattle.std.specs.Prelude.{◌≡◌, ◌≤◌, ◌<◌, ◌+◌, ◌%◌};
ghost use Rattle.bfd_wheel.specs.Taken.{bit};
ghost use Rattle.bfd_levels.specs.Height as spec;
ghost use Rattle.bfd_levels.specs.Lists.{slot, place, reach};

/// The heads of a wheel: 256 slots at each of four levels, the overflow list and the overdue list.
pub(crate) const HEADS: u32 = 1026;

/// The level of the overdue list, one above that of the overflow list.
pub(crate) const OVERDUE: u32 = 5;

/// How far the due tick `due` lies ahead of the tick `now`: 0 where it doesn't, and else the place, from 0, of the
/// highest digit in base 256 in which they differ, at most 4.
pub fn height(due: u64, now: u64) -> u32
    ensures { result ≡ spec.height due now }
{
    if due <= now || due / 256 == now / 256 {
        0
    } else if due / 65_536 == now / 65_536 {
        1
    } else if due / 16_777_216 == now / 16_777_216 {
        2
    } else if due / 4_294_967_296 == now / 4_294_967_296 {
        3
    } else {
        4
    }
}

/// The head of a tick's list at a level, where the heads stand behind `count` ids: its slot at levels 0 to 3, the
/// overflow list at 4, and the overdue list at 5.
#[tactic(auto, unfolding(crate::specs::Lists::slot))]
pub(crate) fn head_at(count: u32, tick: u64, level: u32) -> u32
    requires count { count ≤ 65536 }
    requires level { level ≤ 5 }
    ensures slot { result ≡ slot count tick level }
    ensures head { count ≤ result }
    ensures end { result < count + 1026 }
{
    if level < 4 {
        count + 256 * level + ((tick >> (8 * level)) % 256) as u32
    } else {
        count + 1020 + level
    }
}

/// The head of the list on which a due tick stands at `now`.
#[tactic(auto, unfolding(crate::specs::Lists::place))]
pub(crate) fn head_of(count: u32, now: u64, due: u64) -> u32
    requires { count ≤ 65536 }
    ensures place { result ≡ place count now due }
    ensures head { count ≤ result }
    ensures end { result < count + 1026 }
{
    let level = if due <= now {
        OVERDUE
    } else {
        height(due, now)
    };
    head_at(count, due, level)
}

/// How many lists the clock reaches with a tick: that of level 0, and one more for each digit that carries.
pub(crate) fn reached(tick: u64) -> u32
    ensures value { result ≡ reach tick }
    ensures few { result ≤ 5 }
{
    1 + carries(tick, 256)
        + carries(tick, 65_536)
        + carries(tick, 16_777_216)
        + carries(tick, 4_294_967_296)
}

/// 1 where the digits below `base` are all 0, and else 0.
fn carries(tick: u64, base: u64) -> u32
    requires { 0 < base }
    ensures value { result ≡ bit (tick % base) 0 }
    ensures few { result ≤ 1 }
{
    if tick % base == 0 { 1 } else { 0 }
}
