//! The reception of a control packet after settling (RFC 5880 section 6.8.6).
ghost use Rattle.std.specs.Prelude.{◌≡◌, ◌≢◌, ◌<◌, ◌≤◌, ◌+◌, ◌^◌, false, true, None, Some, IsSome, List, length, find};
ghost use Rattle.bfd_num.specs.Numbers.{moment_bound};
ghost use Rattle.bfd_packet.specs.declared.arrival.Port.{Port as PortOf};
ghost use Rattle.bfd_packet.specs.declared.control.Control.{Control as ControlOf};
ghost use Rattle.bfd_packet.specs.Layout.{fields_of};
ghost use Rattle.bfd_packet.specs.HeaderTests.{first_failing};
ghost use Rattle.bfd_rules.specs.declared.config.Config.{Config as ConfigOf};
ghost use Rattle.bfd_rules.specs.declared.variables.Mark.{Mark as MarkOf};
ghost use Rattle.bfd_rules.specs.declared.variables.Vars.{Vars as VarsOf};
ghost use Rattle.bfd_rules.specs.declared.outputs.Out.{Out};
ghost use Rattle.bfd_rules.specs.EventFrame.{course};
ghost use Rattle.bfd_rules.specs.Sound.{IsPlain, IsRenewed, HasPeerMult, IsSteady};
ghost use Rattle.bfd_p2p.specs.Frame.{moves as moves_of, renews as renews_of};
ghost use Rattle.bfd_p2p.specs.Receive as receive;
ghost use Rattle.bfd_p2p.specs.Receive.{IsSized};
ghost use Rattle.bfd_p2p.specs.Port.{port_of};

use crate::frame::{moves, renews};
use crate::transmitting::transmits;
use bfd_auth::verify;
use bfd_packet::{Control, Keys, Port, SeqState, State, Test, fields};
use bfd_rules::{Config, Mark, Outs, Poll, Role, Vars, Verdict, enters, is_admin_down};

/// The first of the session's tests on TTL and the A bit that the packet fails.
pub(crate) fn session_test(config: &Config, ttl: u8, packet: &Control) -> Option<Test>
    ensures { result ≡ find (receive.session_fails config.now ttl packet.now) receive.session_tests }
{
    let plain = config.keys.is_none();
    if matches!(config.role, Role::Single) && plain && ttl != 255 {
        Some(Test::Ttl)
    } else if packet.auth && plain {
        Some(Test::AuthUnexpected)
    } else if !packet.auth && !plain {
        Some(Test::AuthMissing)
    } else {
        None
    }
}

/// The verdict of authentication over the packet's Length bytes.
fn authenticated(
    keys: &Option<Keys>,
    seq: &SeqState,
    packet: &Control,
    raw: &[u8],
) -> Result<SeqState, Test>
    requires { packet.now.length ≤ length raw.now }
    ensures { result ≡ receive.authenticated keys.now seq.now packet.now raw.now }
{
    match keys {
        Some(keys) => verify(keys, seq, &raw[..usize::from(packet.length)]),
        None => Ok(*seq),
    }
}

/// The new sequence state, or the first of the tests Ttl to AuthDigest that the packet fails.
pub fn judged(
    config: &Config,
    v: &Vars,
    ttl: u8,
    packet: &Control,
    raw: &[u8],
) -> Result<SeqState, Test>
    requires length { packet.now.length ≤ length raw.now }
    requires fields { packet.now ≡ fields_of raw.now }
    ensures { result ≡ receive.judged config.now v.now ttl raw.now }
{
    if let Some(test) = session_test(config, ttl, packet) {
        return Err(test);
    }
    authenticated(&config.keys, &v.seq, packet, raw)
}

/// The session's packets carry a sequence number.
fn has_sequence(keys: &Option<Keys>) -> bool
    ensures { result ≡ receive.has_sequence keys.now }
{
    match keys {
        Some(keys) => !keys.kind.carries_password(),
        None => false,
    }
}

/// The sequence state is kept (section 6.7). It leaves nothing to renew.
#[tactic(auto, using(crate::proofs::Idle::renews_sequence), unfolding(crate::specs::Receive::keeps_sequence))]
fn keeps_sequence(config: &Config, eff: u64, seq: SeqState, vars: &mut Vars)
    requires steady { IsSteady config.now vars.old }
    requires eff { eff < moment_bound }
    ensures plain { IsPlain config.now vars.new }
    ensures renewed { IsRenewed vars.new }
    ensures state { vars.new.state ≡ vars.old.state }
    ensures course { (m : MarkOf) (os : List Out)
        → course vars.new m os ≡ receive.keeps_sequence config.now eff seq (course vars.old m os) }
{
    vars.seq = seq;
    if has_sequence(&config.keys) {
        vars.seq_heard = Some(eff);
    }
}

/// The variables with the peer's fields, and when they were heard.
fn hears(eff: u64, packet: &Control, v: &mut Vars)
    ensures { v.new ≡ record v.old {
      remote_discr = packet.now.my;
      remote_state = packet.now.state;
      remote_demand = packet.now.demand;
      remote_min_rx = packet.now.min_rx;
      remote_min_echo = packet.now.min_echo;
      remote_mult = packet.now.mult;
      remote_tx = packet.now.min_tx;
      heard = Some eff;
    } }
{
    v.remote_discr = packet.my;
    v.remote_state = packet.state;
    v.remote_demand = packet.demand;
    v.remote_min_rx = packet.min_rx;
    v.remote_min_echo = packet.min_echo;
    v.remote_mult = packet.mult;
    v.remote_tx = packet.min_tx;
    v.heard = Some(eff);
}

/// The peer's fields are kept (section 6.8.6). Without Demand mode they leave nothing to renew.
#[tactic(auto, using(crate::proofs::Idle::renews_fields), unfolding(crate::specs::Receive::keeps_fields))]
fn keeps_fields(config: &Config, eff: u64, packet: &Control, vars: &mut Vars)
    requires plain { IsPlain config.now vars.old }
    requires renewed { IsRenewed vars.old }
    requires eff { eff < moment_bound }
    requires mult { packet.now.mult ≢ 0 }
    requires sized { IsSized packet.now }
    ensures steady { IsSteady config.now vars.new }
    ensures state { vars.new.state ≡ vars.old.state }
    ensures heard { IsSome vars.new.heard }
    ensures course { (m : MarkOf) (os : List Out)
        → course vars.new m os ≡ receive.keeps_fields eff packet.now (course vars.old m os) }
{
    if !vars.demand {
        return hears(eff, packet, vars);
    }
    let mut after = *vars;
    hears(eff, packet, &mut after);
    renews(config, eff, after, vars);
}

/// A running Poll Sequence has ended.
fn poll_ended(poll: Poll) -> Poll
    ensures { result ≡ receive.poll_ended poll }
{
    match poll {
        Poll::Running(_) => Poll::Idle,
        Poll::Idle | Poll::Wanted => poll,
    }
}

/// A running Poll Sequence ends, and the intervals in use follow. (Apart from `ends_poll`, so that a packet without F has no copy of the
/// variables.)
#[cold]
#[inline(never)]
fn ends_running(config: &Config, eff: u64, vars: &mut Vars)
    requires steady { IsSteady config.now vars.old }
    requires eff { eff < moment_bound }
    ensures steady { IsSteady config.now vars.new }
    ensures state { vars.new.state ≡ vars.old.state }
    ensures heard { IsSome vars.old.heard → IsSome vars.new.heard }
    ensures course { (m : MarkOf) (os : List Out) → course vars.new m os
        ≡ renews_of eff (record vars.old { poll = receive.poll_ended vars.old.poll }) (course vars.old m os) }
{
    let after = Vars {
        poll: poll_ended(vars.poll),
        ..*vars
    };
    renews(config, eff, after, vars);
}

/// F ends a running Poll Sequence (section 6.5).
#[tactic(auto, unfolding(crate::specs::Receive::ends_poll))]
fn ends_poll(config: &Config, eff: u64, packet: &Control, vars: &mut Vars)
    requires steady { IsSteady config.now vars.old }
    requires eff { eff < moment_bound }
    ensures steady { IsSteady config.now vars.new }
    ensures state { vars.new.state ≡ vars.old.state }
    ensures heard { IsSome vars.old.heard → IsSome vars.new.heard }
    ensures course { (m : MarkOf) (os : List Out)
        → course vars.new m os ≡ receive.ends_poll eff packet.now (course vars.old m os) }
{
    if packet.fin {
        ends_running(config, eff, vars);
    }
}

/// What a packet that passes the tests leaves, up to the test on AdminDown.
#[tactic(auto, unfolding(crate::specs::Receive::kept))]
fn keeps(config: &Config, eff: u64, packet: &Control, seq: SeqState, vars: &mut Vars)
    requires steady { IsSteady config.now vars.old }
    requires eff { eff < moment_bound }
    requires mult { packet.now.mult ≢ 0 }
    requires sized { IsSized packet.now }
    ensures steady { IsSteady config.now vars.new }
    ensures state { vars.new.state ≡ vars.old.state }
    ensures heard { IsSome vars.new.heard }
    ensures course { (m : MarkOf) (os : List Out)
        → course vars.new m os ≡ receive.kept config.now eff packet.now seq (course vars.old m os) }
{
    keeps_sequence(config, eff, seq, vars);
    keeps_fields(config, eff, packet, vars);
    ends_poll(config, eff, packet, vars);
}

/// The state machine (sections 6.2 and 6.8.6).
fn machine(received: State, v: &Vars) -> Vars
    requires { IsSome v.now.heard }
    ensures value { result ≡ receive.machine v.now.state received v.now }
    ensures plain { (c : ConfigOf) → IsPlain c v.now → IsPlain c result }
    ensures peer { HasPeerMult v.now → HasPeerMult result }
{
    match (v.state, received) {
        (State::Down, State::Down) => enters(State::Init, v.diag, *v),
        (State::Down, State::Init) => enters(State::Up, v.diag, *v),
        (State::Init, State::Init | State::Up) => enters(State::Up, v.diag, *v),
        (State::Init, State::AdminDown) => enters(State::Down, 3, *v),
        (State::Up, State::AdminDown | State::Down) => enters(State::Down, 3, *v),
        _ => *v,
    }
}

/// Whether the state machine leaves this state where it receives that one.
fn stands(state: State, received: State) -> bool
    ensures { result ≡ true → (v : VarsOf) → receive.machine state received v ≡ v }
{
    match state {
        State::Down => !matches!(received, State::Down | State::Init),
        State::Init => matches!(received, State::Down),
        State::Up => !matches!(received, State::AdminDown | State::Down),
        State::AdminDown => true,
    }
}

/// The state machine moves the state, or leaves it. (Apart from `moves_state`, so that a packet which leaves it has no copy of the
/// variables.)
#[cold]
#[inline(never)]
fn moves_by(config: &Config, eff: u64, received: State, vars: &mut Vars, outs: &mut Outs)
    requires steady { IsSteady config.now vars.old }
    requires eff { eff < moment_bound }
    requires heard { IsSome vars.old.heard }
    requires room { 0 < outs.old.spare }
    ensures steady { IsSteady config.now vars.new }
    ensures course { (m : MarkOf) → course vars.new m outs.new.items
        ≡ moves_of config.now.discr eff (receive.machine vars.old.state received vars.old) (course vars.old m outs.old.items) }
    ensures spare { outs.old.spare ≤ outs.new.spare + 1 }
    ensures room { outs.new.room ≡ outs.old.room }
{
    let after = machine(received, vars);
    moves(config, eff, after, vars, outs);
}

/// The state machine handles the received state. Where it leaves the state there is nothing to renew, and nothing to emit.
#[tactic(auto, using(crate::proofs::Idle::moves_none), unfolding(crate::specs::Receive::moves_state))]
fn moves_state(config: &Config, eff: u64, packet: &Control, vars: &mut Vars, outs: &mut Outs)
    requires steady { IsSteady config.now vars.old }
    requires eff { eff < moment_bound }
    requires heard { IsSome vars.old.heard }
    requires room { 0 < outs.old.spare }
    ensures steady { IsSteady config.now vars.new }
    ensures course { (m : MarkOf) → course vars.new m outs.new.items
        ≡ receive.moves_state config.now eff packet.now (course vars.old m outs.old.items) }
    ensures spare { outs.old.spare ≤ outs.new.spare + 1 }
    ensures room { outs.new.room ≡ outs.old.room }
{
    if !stands(vars.state, packet.state) {
        moves_by(config, eff, packet.state, vars, outs);
    }
}

/// P is answered immediately by a packet with F, whatever else may be sent (section 6.5).
#[tactic(auto, unfolding(crate::specs::Receive::answers))]
fn answers(config: &Config, packet: &Control, vars: &mut Vars, mark: &mut Mark, outs: &mut Outs)
    requires steady { IsSteady config.now vars.old }
    requires room { 0 < outs.old.spare }
    ensures steady { IsSteady config.now vars.new }
    ensures course { course vars.new mark.new outs.new.items
        ≡ receive.answers config.now packet.now (course vars.old mark.old outs.old.items) }
    ensures unanswered { mark.new.answered ≡ false → outs.new.spare ≡ outs.old.spare }
    ensures spare { outs.old.spare ≤ outs.new.spare + 1 }
    ensures room { outs.new.room ≡ outs.old.room }
{
    if packet.poll {
        vars.seq = transmits(config, false, true, vars, outs);
        mark.answered = true;
    }
}

/// What a packet that passes the tests does; the test on AdminDown comes after its fields were kept.
#[tactic(auto, unfolding(crate::specs::Receive::accepted))]
pub fn accepts(
    config: &Config,
    eff: u64,
    packet: &Control,
    seq: SeqState,
    vars: &mut Vars,
    mark: &mut Mark,
    outs: &mut Outs,
) -> Verdict
    requires steady { IsSteady config.now vars.old }
    requires eff { eff < moment_bound }
    requires mult { packet.now.mult ≢ 0 }
    requires sized { IsSized packet.now }
    requires room { 1 < outs.old.spare }
    ensures steady { IsSteady config.now vars.new }
    ensures course { course vars.new mark.new outs.new.items
        ≡ receive.accepted config.now eff packet.now seq (course vars.old mark.old outs.old.items) }
    ensures verdict { result ≡ receive.verdict_by vars.old.state (Ok seq) }
    ensures unanswered { mark.new.answered ≡ false → outs.old.spare ≤ outs.new.spare + 1 }
    ensures spare { outs.old.spare ≤ outs.new.spare + 2 }
    ensures room { outs.new.room ≡ outs.old.room }
{
    keeps(config, eff, packet, seq, vars);
    if is_admin_down(vars.state) {
        return Verdict::Dropped(Test::AdminDown);
    }
    moves_state(config, eff, packet, vars, outs);
    answers(config, packet, vars, mark, outs);
    Verdict::Accepted
}

/// The port on which control packets of a session over so many hops arrive (RFC 5881 section 4, RFC 5883 section 5).
pub fn control_port(role: Role) -> Port
    ensures { result ≡ port_of role }
{
    match role {
        Role::Single => Port::Single,
        Role::Multi => Port::Multi,
    }
}

/// The fields of a packet that passed its port's header tests, which aren't made again.
pub fn fields_of_passed(raw: &[u8]) -> Control
    requires { (port : PortOf) × (first_failing port raw.now ≡ None) }
    ensures fields { result ≡ fields_of raw.now }
    ensures mult { result.mult ≢ 0 }
    ensures sized { IsSized result }
    ensures length { result.length ≤ length raw.now }
{
    fields(raw)
}
