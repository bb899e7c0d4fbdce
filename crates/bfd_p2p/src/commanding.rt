//! Commands (RFC 5880 sections 6.8.10 to 6.8.17).
ghost use Rattle.std.specs.Prelude.{◌≡◌, ◌<◌, ◌≤◌, ◌+◌, None, IfSome, length};
ghost use Rattle.std.specs.Result.{result_err};
ghost use Rattle.bfd_num.specs.Numbers.{moment_bound};
ghost use Rattle.bfd_rules.specs.declared.config.Config.{Config as ConfigOf};
ghost use Rattle.bfd_rules.specs.declared.variables.Mark.{Mark as MarkOf};
ghost use Rattle.bfd_rules.specs.EventFrame.{course};
ghost use Rattle.bfd_rules.specs.Sound.{IsPlain, HasPeerMult, IsSteady, IsPlace};
ghost use Rattle.bfd_p2p.specs.Command as commands;

use crate::frame::moves;
use bfd_packet::{Keys, State};
use bfd_rules::{
    Cmd, Config, Outs, Poll, Refusal, Role, Vars, demand_there, enters, is_admin_down, is_interval,
};

/// The place of the key with this id, among the keys of a session that has some.
fn key_place(keys: &Option<Keys>, id: u64) -> Option<u8>
    ensures value { result ≡ commands.key_place keys.now id }
    ensures place { IfSome result (IsPlace keys.now) }
{
    match keys {
        Some(keys) => keys.place_of(id),
        None => None,
    }
}

/// Sessions of this kind don't know the command.
fn is_wrong_kind(config: &Config, cmd: &Cmd) -> bool
    ensures { result ≡ commands.is_wrong_kind config.now cmd.now }
{
    match cmd {
        Cmd::EchoEvery(_) => !matches!(config.role, Role::Single),
        Cmd::Key(_) => config.keys.is_none(),
        _ => false,
    }
}

/// The number is outside its range.
fn is_out_of_range(config: &Config, cmd: &Cmd) -> bool
    ensures { result ≡ commands.is_out_of_range config.now cmd.now }
{
    match *cmd {
        Cmd::Path(n) => !(n == 0 || n == 6 || n == 8),
        Cmd::Tx(n) | Cmd::Rx(n) => !is_interval(n),
        Cmd::Mult(n) => !(1 <= n && n <= 255),
        Cmd::Demand(n) => !(n == 0 || n == 1),
        Cmd::EchoEvery(n) => !(n == 0 || is_interval(n)),
        Cmd::Key(n) => key_place(&config.keys, n).is_none(),
        Cmd::Disable | Cmd::Enable | Cmd::Reset => false,
    }
}

/// The session is in AdminDown, or for `Enable` isn't.
fn is_wrong_state(v: &Vars, cmd: &Cmd) -> bool
    ensures { result ≡ commands.is_wrong_state v.now cmd.now }
{
    match cmd {
        Cmd::Disable | Cmd::Reset => is_admin_down(v.state),
        Cmd::Enable => !is_admin_down(v.state),
        _ => false,
    }
}

/// In Up a Poll Sequence is on, and the command would need one of its own.
fn is_poll_busy(v: &Vars, cmd: &Cmd) -> bool
    ensures { result ≡ commands.is_poll_busy v.now cmd.now }
{
    match cmd {
        Cmd::Tx(_) | Cmd::Rx(_) | Cmd::Demand(_) => {
            matches!(v.state, State::Up) && !matches!(v.poll, Poll::Idle)
        }
        _ => false,
    }
}

/// The first refusal of a command, in their order.
fn refusal(config: &Config, v: &Vars, cmd: &Cmd) -> Option<Refusal>
    ensures { result ≡ commands.refusal config.now v.now cmd.now }
{
    if is_wrong_kind(config, cmd) {
        Some(Refusal::WrongKind)
    } else if is_out_of_range(config, cmd) {
        Some(Refusal::OutOfRange)
    } else if is_wrong_state(v, cmd) {
        Some(Refusal::WrongState)
    } else if is_poll_busy(v, cmd) {
        Some(Refusal::PollBusy)
    } else {
        None
    }
}

/// `Path` (section 6.8.17): the diagnostic, and a poll where the peer has Demand mode active.
fn path_done(n: u8, v: &Vars) -> Vars
    requires { n < 32 }
    ensures value { result ≡ commands.path_done n v.now }
    ensures plain { (c : ConfigOf) → IsPlain c v.now → IsPlain c result }
    ensures peer { HasPeerMult v.now → HasPeerMult result }
{
    let poll = if demand_there(v) {
        Poll::Wanted
    } else {
        v.poll
    };
    Vars {
        diag: n,
        poll,
        ..*v
    }
}

/// `Demand` (sections 6.6 and 6.8.14): a change in Up needs a poll.
fn demand_done(on: bool, v: &Vars) -> Vars
    ensures value { result ≡ commands.demand_done on v.now }
    ensures plain { (c : ConfigOf) → IsPlain c v.now → IsPlain c result }
    ensures peer { HasPeerMult v.now → HasPeerMult result }
{
    let changed = if v.demand { !on } else { on };
    let poll = if matches!(v.state, State::Up) && changed {
        Poll::Wanted
    } else {
        v.poll
    };
    Vars {
        demand: on,
        poll,
        ..*v
    }
}

/// What a command that isn't refused makes of the variables.
fn done(config: &Config, cmd: &Cmd, v: &Vars) -> Vars
    requires { commands.refusal config.now v.now cmd.now ≡ None }
    ensures value { result ≡ commands.done config.now cmd.now v.now }
    ensures plain { IsPlain config.now v.now → IsPlain config.now result }
    ensures peer { HasPeerMult v.now → HasPeerMult result }
{
    match *cmd {
        Cmd::Disable => enters(State::AdminDown, 7, *v),
        Cmd::Enable => enters(State::Down, v.diag, *v),
        Cmd::Reset => enters(State::Down, 4, *v),
        Cmd::Path(n) => path_done(n as u8, v),
        Cmd::Tx(n) => Vars { tx: n as u32, ..*v },
        Cmd::Rx(n) => Vars { rx: n as u32, ..*v },
        Cmd::Mult(n) => Vars {
            mult: n as u8,
            ..*v
        },
        Cmd::Demand(n) => demand_done(n == 1, v),
        Cmd::EchoEvery(n) => Vars {
            echo_every: n as u32,
            ..*v
        },
        Cmd::Key(n) => Vars {
            sending: key_place(&config.keys, n).unwrap_or(v.sending),
            ..*v
        },
    }
}

/// Does a command at the effective moment `eff`, in microseconds, or refuses it and changes nothing.
#[tactic(auto, unfolding(crate::specs::Command::commanded))]
pub fn commands(
    config: &Config,
    eff: u64,
    cmd: &Cmd,
    vars: &mut Vars,
    outs: &mut Outs,
) -> Result<(), Refusal>
    requires steady { IsSteady config.now vars.old }
    requires eff { eff < moment_bound }
    requires room { 0 < outs.old.spare }
    ensures steady { IsSteady config.now vars.new }
    ensures course { (m : MarkOf) → course vars.new m outs.new.items
        ≡ commands.commanded config.now eff cmd.now (course vars.old m outs.old.items) }
    ensures refusal { result_err result ≡ commands.refusal config.now vars.old cmd.now }
    ensures spare { outs.old.spare ≤ outs.new.spare + 1 }
    ensures room { outs.new.room ≡ outs.old.room }
{
    if let Some(refusal) = refusal(config, vars, cmd) {
        return Err(refusal);
    }
    let after = done(config, cmd, vars);
    moves(config, eff, after, vars, outs);
    Ok(())
}
