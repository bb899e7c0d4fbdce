//! Commands to an initiator (RFC 5880 sections 6.8.11, 6.8.12 and 6.8.16).
ghost use Rattle.std.specs.Prelude.{◌≡◌, ◌<◌, ◌≤◌, ◌+◌, None};
ghost use Rattle.std.specs.Result.{result_err};
ghost use Rattle.bfd_rules.specs.declared.variables.Mark.{Mark};
ghost use Rattle.bfd_rules.specs.EventFrame.{course};
ghost use Rattle.bfd_sbfd.specs.declared.config.InitiatorConfig.{InitiatorConfig as ConfigOf};
ghost use Rattle.bfd_sbfd.specs.Sound.{IsInitiatorPlain, IsInitiatorSteady};
ghost use Rattle.bfd_sbfd.specs.Command as commands;

use crate::InitiatorConfig;
use crate::frame::moves;
use bfd_packet::State;
use bfd_rules::{Cmd, Outs, Refusal, Vars, enters, is_admin_down, is_interval};

/// Initiators don't know the command: all but four.
fn is_wrong_kind(cmd: &Cmd) -> bool
    ensures { result ≡ commands.is_wrong_kind cmd.now }
{
    !matches!(cmd, Cmd::Disable | Cmd::Enable | Cmd::Tx(_) | Cmd::Mult(_))
}

/// The number is outside its range.
fn is_out_of_range(cmd: &Cmd) -> bool
    ensures { result ≡ commands.is_out_of_range cmd.now }
{
    match *cmd {
        Cmd::Tx(n) => !is_interval(n),
        Cmd::Mult(n) => !(1 <= n && n <= 255),
        _ => false,
    }
}

/// The session is in AdminDown, or for `Enable` isn't.
fn is_wrong_state(v: &Vars, cmd: &Cmd) -> bool
    ensures { result ≡ commands.is_wrong_state v.now cmd.now }
{
    match cmd {
        Cmd::Disable => is_admin_down(v.state),
        Cmd::Enable => !is_admin_down(v.state),
        _ => false,
    }
}

/// The first refusal of a command, in their order.
fn refusal(v: &Vars, cmd: &Cmd) -> Option<Refusal>
    ensures { result ≡ commands.refusal v.now cmd.now }
{
    if is_wrong_kind(cmd) {
        Some(Refusal::WrongKind)
    } else if is_out_of_range(cmd) {
        Some(Refusal::OutOfRange)
    } else if is_wrong_state(v, cmd) {
        Some(Refusal::WrongState)
    } else {
        None
    }
}

/// What a command that isn't refused makes of the variables.
fn done(cmd: &Cmd, v: &Vars) -> Vars
    requires { commands.refusal v.now cmd.now ≡ None }
    ensures value { result ≡ commands.done cmd.now v.now }
    ensures plain { (c : ConfigOf) → IsInitiatorPlain c v.now → IsInitiatorPlain c result }
{
    match *cmd {
        Cmd::Disable => enters(State::AdminDown, 7, *v),
        Cmd::Enable => enters(State::Down, v.diag, *v),
        Cmd::Tx(n) => Vars { tx: n as u32, ..*v },
        Cmd::Mult(n) => Vars {
            mult: n as u8,
            ..*v
        },
        _ => *v,
    }
}

/// Does a command, or refuses it and changes nothing.
#[tactic(auto, unfolding(crate::specs::Command::commanded))]
pub fn commands(
    config: &InitiatorConfig,
    cmd: &Cmd,
    vars: &mut Vars,
    outs: &mut Outs,
) -> Result<(), Refusal>
    requires steady { IsInitiatorSteady config.now vars.old }
    requires room { 0 < outs.old.spare }
    ensures steady { IsInitiatorSteady config.now vars.new }
    ensures course { (m : Mark) → course vars.new m outs.new.items
        ≡ commands.commanded config.now cmd.now (course vars.old m outs.old.items) }
    ensures refusal { result_err result ≡ commands.refusal vars.old cmd.now }
    ensures spare { outs.old.spare ≤ outs.new.spare + 1 }
    ensures room { outs.new.room ≡ outs.old.room }
{
    if let Some(refusal) = refusal(vars, cmd) {
        return Err(refusal);
    }
    let after = done(cmd, vars);
    moves(config, after, vars, outs);
    Ok(())
}
