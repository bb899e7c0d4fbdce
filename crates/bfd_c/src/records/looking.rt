//! What is seen of a session at a look.
ghost use Rattle.std.specs.Prelude.{◌≡◌};
ghost use Rattle.bfd_session.specs.Due as due;
ghost use Rattle.bfd_session.specs.Kinds.{discr_of};
ghost use Rattle.bfd_session.specs.Showing as showing;
ghost use Rattle.bfd_c.specs.Records.{session_kind};
ghost use Rattle.bfd_c.specs.Looks.{look_at};

use crate::records::kept::{Kind, Record};
use bfd_mp as tail;
use bfd_rules::{Poll, Vars, adv_tx, deadline, detection_time};
use bfd_sbfd as initiator;
use bfd_session::{Session, Shown};

/// A look at a session.
#[derive(Clone, Copy)]
pub struct Look {
    /// What it shows of itself, with nothing settled.
    pub shown: Shown,
    /// When its Detection Time ends, where it runs.
    pub ends: Option<u64>,
    /// Its variables.
    pub vars: Vars,
    /// What happened to it.
    pub kept: Record,
}

/// The Desired Min TX Interval that a session of this kind advertises.
fn advertised(session: &Session, kind: Kind) -> u32
    requires { kind ≡ session_kind session.now.config }
    ensures { result ≡ showing.advertised session.now.config session.now.vars }
{
    let vars = session.vars();
    match kind {
        Kind::PointToPoint | Kind::Initiator => adv_tx(vars),
        Kind::Head => vars.tx,
        Kind::Tail => 0,
    }
}

/// Its Detection Time.
fn waits(session: &Session, kind: Kind) -> u64
    requires { kind ≡ session_kind session.now.config }
    ensures { result ≡ showing.waits session.now.config session.now.vars }
{
    let vars = session.vars();
    match kind {
        Kind::PointToPoint => detection_time(vars),
        Kind::Initiator => initiator::wait(vars),
        Kind::Head => 0,
        Kind::Tail => tail::wait(vars),
    }
}

/// When it ends.
#[tactic(auto, using(crate::proofs::Bounds::point_moments, crate::proofs::Bounds::initiator_heard, crate::proofs::Bounds::tail_heard))]
fn ends(session: &Session, kind: Kind) -> Option<u64>
    requires { kind ≡ session_kind session.now.config }
    ensures { result ≡ due.detects session.now }
{
    let vars = session.vars();
    match kind {
        Kind::PointToPoint => deadline(vars),
        Kind::Initiator => initiator::deadline(vars),
        Kind::Head => None,
        Kind::Tail => tail::deadline(vars),
    }
}

/// The number that shows a Poll Sequence.
fn poll_number(poll: Poll) -> u8
    ensures { result ≡ showing.poll_number poll }
{
    match poll {
        Poll::Idle => 0,
        Poll::Wanted => 1,
        Poll::Running(_) => 2,
    }
}

/// What a session of this kind shows.
fn shown(session: &Session, kind: Kind) -> Shown
    requires { kind ≡ session_kind session.now.config }
    ensures { result ≡ showing.shown session.now.config session.now.vars }
{
    let vars = session.vars();
    Shown {
        discr: session.discr(),
        state: vars.state,
        diag: vars.diag,
        remote_state: vars.remote_state,
        poll: poll_number(vars.poll),
        remote_discr: vars.remote_discr,
        adv_tx: advertised(session, kind),
        used_tx: vars.used_tx,
        used_rx: vars.used_rx,
        detect: waits(session, kind),
    }
}

/// A look at a session with its record.
pub(crate) fn seen(session: &Session, kept: &Record) -> Look
    requires { kept.now.kind ≡ session_kind session.now.config }
    ensures { result ≡ look_at session.now kept.now }
{
    Look {
        shown: shown(session, kept.kind),
        ends: ends(session, kept.kind),
        vars: *session.vars(),
        kept: *kept,
    }
}
