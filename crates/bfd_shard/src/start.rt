//! Sessions and timers at the start.
ghost use Rattle.std.specs.Prelude.{ℕ, ◌≡◌, ◌<◌, ◌≤◌, IfOk, length, map};
ghost use Rattle.std.specs.List.{AllByRecursion};
ghost use Rattle.bfd_session.specs.Due.{due as due_tick};
ghost use Rattle.bfd_session.specs.Rows.{AreFit};
ghost use Rattle.bfd_session.specs.Step.{IsSound, started};
ghost use Rattle.bfd_shard.specs.Dealing.{share};
ghost use Rattle.bfd_num.specs.Counting.{IsBlankOf};

use crate::own::keep_due;
use crate::seat::Seat;
use bfd_num::Steps;
use bfd_session::SessionConfig;
use bfd_wheel::Timers;
use std::alloc::{AllocError, Global};
use std::marker::Brand;
use std::sync::ledger::{Blank, Ledger};

/// The sessions at the start.
pub(crate) fn sessions_of(
    alloc: Global,
    configs: Vec<SessionConfig>,
) -> Result<Vec<Seat>, AllocError>
    requires { AreFit configs.items }
    ensures sessions { IfOk result (λ sessions. sessions.items ≡ map started configs.items) }
    ensures sound { IfOk result (λ sessions. AllByRecursion IsSound sessions.items) }
{
    let mut sessions = Vec::with_capacity(alloc, configs.len())?;
    for config in configs {
        let seat = Seat::make(alloc, config)?;
        sessions.push(seat)?;
    }
    Ok(sessions)
}

/// The sessions of the shard of this number of so many, at the start, out of the configurations of all.
pub(crate) fn share_of(
    alloc: Global,
    configs: &[SessionConfig],
    shards: usize,
    shard: usize,
) -> Result<Vec<Seat>, AllocError>
    requires within { (shard < shards) × (shards ≤ 64) }
    requires few { length configs.now ≤ 65536 }
    requires fit { AreFit configs.now }
    ensures sessions { IfOk result (λ sessions. sessions.items ≡ map started (share shards shard configs.now)) }
    ensures sound { IfOk result (λ sessions. AllByRecursion IsSound sessions.items) }
{
    let mut sessions = Vec::with_capacity(alloc, configs.len().div_ceil(shards))?;
    let mut at = shard;
    while at < configs.len() {
        let seat = Seat::make(alloc, configs[at].copy())?;
        sessions.push(seat)?;
        at += shards;
    }
    Ok(sessions)
}

/// Keeps the due tick of each session, with a counter of its own.
fn keep_all<W: Timers, L: Ledger>(sessions: &[Seat], timers: &mut W, blank: Blank)
    requires few { length sessions.now ≤ 65536 }
    requires long { length (W.dues timers.old) ≡ length sessions.now }
    requires blank { IsBlankOf L.name L.parts blank.name blank.parts }
    ensures dues { W.dues timers.new ≡ map due_tick sessions.now }
{
    let mut steps = Steps::<L>::new(blank);
    for place in 0..sessions.len() {
        let due = sessions[place].session().due();
        keep_due(timers, place as u32, due, &mut steps);
    }
}

/// Timers with the due tick of each session.
pub(crate) fn timers_of<W: Timers>(alloc: Global, sessions: &[Seat]) -> Result<W, AllocError>
    requires few { length sessions.now ≤ 65536 }
    ensures { IfOk result (λ timers. W.dues timers ≡ map due_tick sessions.now) }
{
    let mut timers = W::make(alloc, sessions.len() as u32)?;
    keep_all::<W, Brand>(sessions, &mut timers, Blank::new(1));
    Ok(timers)
}
