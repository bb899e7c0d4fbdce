//! On which list a node stands.
ghost use Rattle.std.specs.Prelude.{◌≡◌, ◌≤◌, ◌<◌, ◌+◌};
ghost use Rattle.bfd_wheel.specs.Wheel.{place};

/// The slots of a wheel.
pub(crate) const SLOTS: u32 = 4096;

/// The heads of a wheel: one for each slot, and one for the overdue list.
pub(crate) const HEADS: u32 = SLOTS + 1;

/// The head of the list for a due tick, where the heads stand behind `count` ids: the overdue list up to `now`, and
/// above it the slot of the due tick modulo 4,096.
pub(crate) fn head_of(count: u32, now: u64, due: u64) -> u32
    requires { count ≤ 65536 }
    ensures place { result ≡ place count now due }
    ensures head { count ≤ result }
    ensures end { result < count + 4097 }
{
    if due <= now {
        count + SLOTS
    } else {
        count + (due % SLOTS as u64) as u32
    }
}
