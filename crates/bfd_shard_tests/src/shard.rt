//! A shard whose journal accepts one entry.
ghost use Rattle.std.specs.Prelude.{◌≡◌, ◌<◌};
ghost use Rattle.bfd_num.specs.Counting.{IsBlankOf};

use crate::pair::{FIRST, SECOND, config};
use bfd_num::{Moment, Steps, Tick};
use bfd_rules::Outs;
use bfd_session::{Answer, Event, SessionConfig};
use bfd_shard::{Full, ShardEvent, ShardState};
use bfd_wheel::PlainTimers;
use std::alloc::{AllocError, Global};
use std::marker::Brand;
use std::process::Abort;
use std::sync::ledger::{Blank, Ledger};

/// A shard of one session, whose journal accepts one entry.
fn small_shard(alloc: Global) -> Result<ShardState<PlainTimers>, AllocError> {
    let mut configs = Vec::new(alloc);
    configs.push(SessionConfig::PointToPoint(config(1, FIRST, SECOND, 1_000_000, 0)))?;
    ShardState::make(alloc, configs, 1)
}

/// A question to the session.
fn question(moment: Moment) -> ShardEvent {
    ShardEvent::Own {
        place: 0,
        moment,
        event: Event::Show,
    }
}

/// The result of an event, once the shard is prepared for it and there is room for its outputs.
fn play<R: Abort, L: Ledger>(
    rt: &R,
    shard: &mut ShardState<PlainTimers>,
    event: ShardEvent,
    outs: &mut Outs,
    steps: &mut Steps<L>,
) -> Result<Answer, Full> {
    outs.clear();
    assert!(*rt; shard.takes(&event) && outs.spare() >= 5 * shard.sessions().len() + 5);
    shard.prepare().expect(rt, "memory");
    shard.apply(7, event, outs, steps)
}

/// The journal accepts a question, and then neither another nor a tick.
fn fills<R: Abort, L: Ledger>(
    rt: &R,
    shard: &mut ShardState<PlainTimers>,
    moment: Moment,
    tick: Tick,
    outs: &mut Outs,
    blank: Blank,
)
    requires blank { IsBlankOf L.name L.parts blank.name blank.parts }
{
    let mut steps = Steps::<L>::new(blank);
    let first = play(rt, shard, question(moment), outs, &mut steps);
    let second = play(rt, shard, question(moment), outs, &mut steps);
    let third = play(rt, shard, ShardEvent::Tick(tick), outs, &mut steps);
    assert!(*rt; first.is_ok());
    assert!(*rt; second == Err(Full(1)));
    assert!(*rt; third == Err(Full(1)));
    assert!(*rt; shard.journal().len() == 1);
}

#[test]
fn a_full_journal(rt: HostRuntime) {
    let mut shard = small_shard(rt.alloc()).expect(&rt, "memory");
    let mut outs = Outs::make(rt.alloc(), 10).expect(&rt, "memory");
    let moment = Moment::new(2500).expect(&rt, "moment");
    let tick = Tick::new(9).expect(&rt, "tick");
    fills::<HostRuntime, Brand>(&rt, &mut shard, moment, tick, &mut outs, Blank::new(1));
}
