//! What a session shows, as all kinds do.
ghost use Rattle.std.specs.Prelude.{◌≡◌, ◌<◌, IfSome};
ghost use Rattle.bfd_num.specs.Numbers.{moment_bound};
ghost use Rattle.bfd_session.specs.Due as due;
ghost use Rattle.bfd_session.specs.Showing as showing;

use crate::Shown;
use bfd_num::ceil_tick;
use bfd_rules::{Poll, Vars};

/// The number that shows a Poll Sequence.
fn poll_number(poll: Poll) -> u8
    ensures { result ≡ showing.poll_number poll }
{
    match poll {
        Poll::Idle => 0,
        Poll::Wanted => 1,
        Poll::Running(_) => 2,
    }
}

/// What a session shows, with the interval that it advertises and its Detection Time, in microseconds.
pub fn shows(discr: u32, adv_tx: u32, detect: u64, v: &Vars) -> Shown
    ensures { result ≡ showing.shows discr adv_tx detect v.now }
{
    Shown {
        discr,
        state: v.state,
        diag: v.diag,
        remote_state: v.remote_state,
        poll: poll_number(v.poll),
        remote_discr: v.remote_discr,
        adv_tx,
        used_tx: v.used_tx,
        used_rx: v.used_rx,
        detect,
    }
}

/// The tick at which a moment has come.
#[tactic(auto, unfolding(bfd_num::specs::Numbers::ceil_tick))]
pub fn tick_of(moment: Option<u64>) -> Option<u64>
    ensures value { result ≡ due.tick_of moment }
    ensures below { IfSome result (λ t. t < moment_bound) }
{
    match moment {
        Some(moment) => Some(ceil_tick(moment)),
        None => None,
    }
}
