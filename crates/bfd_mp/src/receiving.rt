//! The reception of a head's packet after settling (RFC 8562 sections 5.5 and 5.13, RFC 5880 section 6.8.6).
ghost use Rattle.std.specs.Prelude.{◌≡◌, ◌<◌, ◌≤◌, ◌+◌, None, IsSome, List};
ghost use Rattle.bfd_num.specs.Numbers.{moment_bound};
ghost use Rattle.bfd_packet.specs.declared.arrival.Port.TheVariants.{Single};
ghost use Rattle.bfd_packet.specs.Layout.{fields_of};
ghost use Rattle.bfd_packet.specs.HeaderTests.{first_failing};
ghost use Rattle.bfd_rules.specs.declared.variables.Mark.{Mark};
ghost use Rattle.bfd_rules.specs.declared.outputs.Out.{Out};
ghost use Rattle.bfd_rules.specs.EventFrame.{course};
ghost use Rattle.bfd_mp.specs.declared.config.TailConfig.{TailConfig as ConfigOf};
ghost use Rattle.bfd_mp.specs.Sound.{IsTailSound};
ghost use Rattle.bfd_mp.specs.TailReceive as receive;
ghost use Rattle.bfd_mp.specs.TailReceive.{IsSized};

use crate::TailConfig;
use bfd_packet::{Control, Port, State, Test, read};
use bfd_rules::{Outs, Vars, Verdict, changes, enters, is_admin_down};

/// The head's state, Detect Mult and interval are kept, and the moment of its packet.
#[tactic(auto, unfolding(crate::specs::TailReceive::keeps_fields))]
fn keeps_fields(config: &TailConfig, eff: u64, packet: &Control, vars: &mut Vars)
    requires sound { IsTailSound config.now vars.old }
    requires eff { eff < moment_bound }
    requires sized { IsSized packet.now }
    ensures sound { IsTailSound config.now vars.new }
    ensures state { vars.new.state ≡ vars.old.state }
    ensures heard { IsSome vars.new.heard }
    ensures course { (m : Mark) (os : List Out)
        → course vars.new m os ≡ receive.keeps_fields eff packet.now (course vars.old m os) }
{
    // proof: the read brings the invariant
    let _ = config.discr;
    *vars = Vars {
        remote_state: packet.state,
        remote_mult: packet.mult,
        remote_tx: packet.min_tx,
        heard: Some(eff),
        ..*vars
    };
}

/// The state machine (RFC 8562 section 5.5).
fn machine(received: State, v: &Vars) -> Vars
    requires { IsSome v.now.heard }
    ensures value { result ≡ receive.machine v.now.state received v.now }
    ensures sound { (c : ConfigOf) → IsTailSound c v.now → IsTailSound c result }
{
    match (v.state, received) {
        (State::Down, State::Up) => enters(State::Up, v.diag, *v),
        (State::Up, State::Down | State::AdminDown) => enters(State::Down, 3, *v),
        _ => *v,
    }
}

/// The state machine handles the received state.
#[tactic(auto, unfolding(crate::specs::TailReceive::moves_state))]
fn moves_state(config: &TailConfig, packet: &Control, vars: &mut Vars, outs: &mut Outs)
    requires sound { IsTailSound config.now vars.old }
    requires heard { IsSome vars.old.heard }
    requires room { 0 < outs.old.spare }
    ensures sound { IsTailSound config.now vars.new }
    ensures course { (m : Mark) → course vars.new m outs.new.items
        ≡ receive.moves_state config.now packet.now (course vars.old m outs.old.items) }
    ensures spare { outs.old.spare ≤ outs.new.spare + 1 }
    ensures room { outs.new.room ≡ outs.old.room }
{
    let after = machine(packet.state, vars);
    changes(config.discr, after, vars, outs);
}

/// What a packet that the test on A lets pass does; the test on AdminDown comes after its fields were kept.
#[tactic(auto, unfolding(crate::specs::TailReceive::accepted))]
fn accepts(
    config: &TailConfig,
    eff: u64,
    packet: &Control,
    vars: &mut Vars,
    outs: &mut Outs,
) -> Verdict
    requires sound { IsTailSound config.now vars.old }
    requires eff { eff < moment_bound }
    requires sized { IsSized packet.now }
    requires room { 0 < outs.old.spare }
    ensures sound { IsTailSound config.now vars.new }
    ensures course { (m : Mark) → course vars.new m outs.new.items
        ≡ receive.accepted config.now eff packet.now (course vars.old m outs.old.items) }
    ensures verdict { result ≡ receive.verdict_by vars.old.state }
    ensures spare { outs.old.spare ≤ outs.new.spare + 1 }
    ensures room { outs.new.room ≡ outs.old.room }
{
    keeps_fields(config, eff, packet, vars);
    if is_admin_down(vars.state) {
        return Verdict::Dropped(Test::AdminDown);
    }
    moves_state(config, packet, vars, outs);
    Verdict::Accepted
}

/// The fields of a packet that passes the header tests of the port on which multipoint packets come.
fn fields(raw: &[u8]) -> Control
    requires { first_failing Single raw.now ≡ None }
    ensures fields { result ≡ fields_of raw.now }
    ensures sized { IsSized result }
{
    match read(Port::Single, raw) {
        Ok(packet) => packet,
        Err(_) => unreachable!(),
    }
}

/// Receives a packet at the effective moment `eff`, in microseconds. `raw` passes the header tests of port Single.
#[tactic(auto, unfolding(crate::specs::TailReceive::received))]
pub fn receives(
    config: &TailConfig,
    eff: u64,
    raw: &[u8],
    vars: &mut Vars,
    outs: &mut Outs,
) -> Verdict
    requires sound { IsTailSound config.now vars.old }
    requires eff { eff < moment_bound }
    requires header { first_failing Single raw.now ≡ None }
    requires room { 0 < outs.old.spare }
    ensures sound { IsTailSound config.now vars.new }
    ensures course { (m : Mark) → course vars.new m outs.new.items
        ≡ receive.received config.now eff raw.now (course vars.old m outs.old.items) }
    ensures verdict { result ≡ receive.verdict_on raw.now vars.old }
    ensures sized { IsSized (fields_of raw.now) }
    ensures spare { outs.old.spare ≤ outs.new.spare + 1 }
    ensures room { outs.new.room ≡ outs.old.room }
{
    let packet = fields(raw);
    if packet.auth {
        return Verdict::Dropped(Test::AuthUnexpected);
    }
    accepts(config, eff, &packet, vars, outs)
}
