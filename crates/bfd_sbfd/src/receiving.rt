//! The reception of a reflector's answer after settling (RFC 7880 sections 7.3.1 and 7.3.3).
ghost use Rattle.std.specs.Prelude.{◌≡◌, ◌<◌, ◌≤◌, ◌+◌, ◌^◌, None, IsSome, List};
ghost use Rattle.bfd_num.specs.Numbers.{moment_bound};
ghost use Rattle.bfd_packet.specs.declared.arrival.Port.TheVariants.{Answer};
ghost use Rattle.bfd_packet.specs.Layout.{fields_of};
ghost use Rattle.bfd_packet.specs.HeaderTests.{first_failing};
ghost use Rattle.bfd_rules.specs.declared.variables.Mark.{Mark};
ghost use Rattle.bfd_rules.specs.declared.outputs.Out.{Out};
ghost use Rattle.bfd_rules.specs.EventFrame.{course};
ghost use Rattle.bfd_sbfd.specs.declared.config.InitiatorConfig.{InitiatorConfig as ConfigOf};
ghost use Rattle.bfd_sbfd.specs.Sound.{IsInitiatorPlain, IsInitiatorSteady};
ghost use Rattle.bfd_sbfd.specs.Receive as receive;

use crate::InitiatorConfig;
use crate::frame::moves;
use bfd_packet::{Control, Port, State, Test, read};
use bfd_rules::{Outs, Vars, Verdict, enters, is_admin_down};

/// The reflector's Required Min RX Interval, which has 32 bits.
fn min_rx_of(packet: &Control) -> u32
    ensures value { result ≡ packet.now.min_rx }
    ensures below { result < 2 ^ 32 }
{
    packet.min_rx
}

/// The reflector's state and the interval that it asks for are kept, and the moment of its answer.
#[tactic(auto, unfolding(crate::specs::Receive::keeps_fields))]
fn keeps_fields(config: &InitiatorConfig, eff: u64, packet: &Control, vars: &mut Vars)
    requires steady { IsInitiatorSteady config.now vars.old }
    requires eff { eff < moment_bound }
    ensures steady { IsInitiatorSteady config.now vars.new }
    ensures state { vars.new.state ≡ vars.old.state }
    ensures heard { IsSome vars.new.heard }
    ensures course { (m : Mark) (os : List Out)
        → course vars.new m os ≡ receive.keeps_fields eff packet.now (course vars.old m os) }
{
    // proof: the read brings the invariant
    let _ = config.discr;
    let min_rx = min_rx_of(packet);
    *vars = Vars {
        remote_state: packet.state,
        remote_min_rx: min_rx,
        heard: Some(eff),
        ..*vars
    };
}

/// The state machine (RFC 7880 section 7.3.1).
fn machine(received: State, v: &Vars) -> Vars
    requires { IsSome v.now.heard }
    ensures value { result ≡ receive.machine v.now.state received v.now }
    ensures plain { (c : ConfigOf) → IsInitiatorPlain c v.now → IsInitiatorPlain c result }
{
    match (v.state, received) {
        (State::Down, State::Up) => enters(State::Up, v.diag, *v),
        (State::Up, State::AdminDown) => enters(State::Down, 3, *v),
        _ => *v,
    }
}

/// The state machine handles the received state.
#[tactic(auto, unfolding(crate::specs::Receive::moves_state))]
fn moves_state(config: &InitiatorConfig, packet: &Control, vars: &mut Vars, outs: &mut Outs)
    requires steady { IsInitiatorSteady config.now vars.old }
    requires heard { IsSome vars.old.heard }
    requires room { 0 < outs.old.spare }
    ensures steady { IsInitiatorSteady config.now vars.new }
    ensures course { (m : Mark) → course vars.new m outs.new.items
        ≡ receive.moves_state config.now packet.now (course vars.old m outs.old.items) }
    ensures spare { outs.old.spare ≤ outs.new.spare + 1 }
    ensures room { outs.new.room ≡ outs.old.room }
{
    let after = machine(packet.state, vars);
    moves(config, after, vars, outs);
}

/// What an answer that the test on A lets pass does; the test on AdminDown comes after its fields were kept.
#[tactic(auto, unfolding(crate::specs::Receive::accepted))]
fn accepts(
    config: &InitiatorConfig,
    eff: u64,
    packet: &Control,
    vars: &mut Vars,
    outs: &mut Outs,
) -> Verdict
    requires steady { IsInitiatorSteady config.now vars.old }
    requires eff { eff < moment_bound }
    requires room { 0 < outs.old.spare }
    ensures steady { IsInitiatorSteady config.now vars.new }
    ensures course { (m : Mark) → course vars.new m outs.new.items
        ≡ receive.accepted config.now eff packet.now (course vars.old m outs.old.items) }
    ensures verdict { result ≡ receive.verdict_by vars.old.state }
    ensures spare { outs.old.spare ≤ outs.new.spare + 1 }
    ensures room { outs.new.room ≡ outs.old.room }
{
    keeps_fields(config, eff, packet, vars);
    if is_admin_down(vars.state) {
        return Verdict::Dropped(Test::AdminDown);
    }
    moves_state(config, packet, vars, outs);
    Verdict::Accepted
}

/// The fields of a packet that passes the header tests of the initiators' port.
fn fields(raw: &[u8]) -> Control
    requires { first_failing Answer raw.now ≡ None }
    ensures fields { result ≡ fields_of raw.now }
    ensures sized { result.min_rx < 2 ^ 32 }
{
    match read(Port::Answer, raw) {
        Ok(packet) => packet,
        Err(_) => unreachable!(),
    }
}

/// Receives an answer at the effective moment `eff`, in microseconds. `raw` passes the header tests of the initiators'
/// port.
#[tactic(auto, unfolding(crate::specs::Receive::received))]
pub fn receives(
    config: &InitiatorConfig,
    eff: u64,
    raw: &[u8],
    vars: &mut Vars,
    outs: &mut Outs,
) -> Verdict
    requires steady { IsInitiatorSteady config.now vars.old }
    requires eff { eff < moment_bound }
    requires header { first_failing Answer raw.now ≡ None }
    requires room { 0 < outs.old.spare }
    ensures steady { IsInitiatorSteady config.now vars.new }
    ensures course { (m : Mark) → course vars.new m outs.new.items
        ≡ receive.received config.now eff raw.now (course vars.old m outs.old.items) }
    ensures verdict { result ≡ receive.verdict_on raw.now vars.old }
    ensures sized { (fields_of raw.now).min_rx < 2 ^ 32 }
    ensures spare { outs.old.spare ≤ outs.new.spare + 1 }
    ensures room { outs.new.room ≡ outs.old.room }
{
    let packet = fields(raw);
    if packet.auth {
        return Verdict::Dropped(Test::AuthUnexpected);
    }
    accepts(config, eff, &packet, vars, outs)
}
