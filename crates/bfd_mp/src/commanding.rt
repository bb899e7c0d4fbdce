//! Commands to heads and tails (RFC 8562 sections 5.9 and 5.10, RFC 5880 sections 6.8.11, 6.8.12 and 6.8.16).
ghost use Rattle.std.specs.Prelude.{◌≡◌, ◌<◌, ◌≤◌, ◌+◌, None};
ghost use Rattle.std.specs.Result.{result_err};
ghost use Rattle.bfd_rules.specs.declared.variables.Mark.{Mark};
ghost use Rattle.bfd_rules.specs.EventFrame.{course};
ghost use Rattle.bfd_mp.specs.declared.config.TailConfig.{TailConfig as ConfigOf};
ghost use Rattle.bfd_mp.specs.Sound.{IsHeadSteady, IsTailSound};
ghost use Rattle.bfd_mp.specs.Command as commands;

use crate::counting::counted;
use crate::{HeadConfig, TailConfig};
use bfd_packet::State;
use bfd_rules::{Cmd, Outs, Refusal, Vars, changes, enters, is_admin_down, is_interval};

/// A head doesn't know the command.
fn is_wrong_for_head(cmd: &Cmd) -> bool
    ensures { result ≡ commands.is_wrong_for_head cmd.now }
{
    !matches!(cmd, Cmd::Disable | Cmd::Enable | Cmd::Tx(_) | Cmd::Mult(_))
}

/// A tail doesn't know the command.
fn is_wrong_for_tail(cmd: &Cmd) -> bool
    ensures { result ≡ commands.is_wrong_for_tail cmd.now }
{
    !matches!(cmd, Cmd::Disable | Cmd::Enable)
}

/// The number is outside its range.
fn is_out_of_range(cmd: &Cmd) -> bool
    ensures { result ≡ commands.is_out_of_range cmd.now }
{
    match *cmd {
        Cmd::Tx(n) => !is_interval(n),
        Cmd::Mult(n) => !(1 <= n && n <= 255),
        _ => false,
    }
}

/// The session is in AdminDown, or for `Enable` isn't.
fn is_wrong_state(v: &Vars, cmd: &Cmd) -> bool
    ensures { result ≡ commands.is_wrong_state v.now cmd.now }
{
    match cmd {
        Cmd::Disable => is_admin_down(v.state),
        Cmd::Enable => !is_admin_down(v.state),
        _ => false,
    }
}

/// Packets with P are still to be sent, and the command would set the interval again.
fn is_poll_busy(v: &Vars, cmd: &Cmd) -> bool
    ensures { result ≡ commands.is_poll_busy v.now cmd.now }
{
    matches!(cmd, Cmd::Tx(_)) && v.left != 0
}

/// The first refusal of a command to a head, in their order.
fn head_refusal(v: &Vars, cmd: &Cmd) -> Option<Refusal>
    ensures { result ≡ commands.head_refusal v.now cmd.now }
{
    if is_wrong_for_head(cmd) {
        Some(Refusal::WrongKind)
    } else if is_out_of_range(cmd) {
        Some(Refusal::OutOfRange)
    } else if is_wrong_state(v, cmd) {
        Some(Refusal::WrongState)
    } else if is_poll_busy(v, cmd) {
        Some(Refusal::PollBusy)
    } else {
        None
    }
}

/// The first refusal of a command to a tail, in their order.
fn tail_refusal(v: &Vars, cmd: &Cmd) -> Option<Refusal>
    ensures { result ≡ commands.tail_refusal v.now cmd.now }
{
    if is_wrong_for_tail(cmd) {
        Some(Refusal::WrongKind)
    } else if is_wrong_state(v, cmd) {
        Some(Refusal::WrongState)
    } else {
        None
    }
}

/// A changed interval, in microseconds: the next packets carry P, and a longer one waits for them (RFC 8562 section 5.10).
fn interval_done(n: u32, v: &Vars) -> Vars
    requires least { 10000 ≤ n }
    requires most { n ≤ 60000000 }
    ensures value { result ≡ commands.interval_done n v.now }
    ensures steady { IsHeadSteady v.now → IsHeadSteady result }
{
    if n == v.tx {
        *v
    } else if matches!(v.state, State::Up) {
        let counting = counted(v.mult, *v);
        Vars {
            tx: n,
            used_tx: v.used_tx.min(n),
            ..counting
        }
    } else {
        Vars {
            tx: n,
            used_tx: n,
            ..*v
        }
    }
}

/// What a command that isn't refused makes of a head's variables.
fn head_done(cmd: &Cmd, v: &Vars) -> Vars
    requires { commands.head_refusal v.now cmd.now ≡ None }
    ensures value { result ≡ commands.head_done cmd.now v.now }
    ensures steady { IsHeadSteady v.now → IsHeadSteady result }
{
    match *cmd {
        Cmd::Disable => counted(0, enters(State::AdminDown, 7, *v)),
        Cmd::Enable => enters(State::Up, v.diag, *v),
        Cmd::Tx(n) => interval_done(n as u32, v),
        Cmd::Mult(n) => Vars {
            mult: n as u8,
            ..*v
        },
        _ => *v,
    }
}

/// What a command that isn't refused makes of a tail's variables.
fn tail_done(cmd: &Cmd, v: &Vars) -> Vars
    ensures value { result ≡ commands.tail_done cmd.now v.now }
    ensures sound { (c : ConfigOf) → IsTailSound c v.now → IsTailSound c result }
{
    match cmd {
        Cmd::Disable => enters(State::AdminDown, 7, *v),
        Cmd::Enable => enters(State::Down, v.diag, *v),
        _ => *v,
    }
}

/// Does a command to a head, or refuses it and changes nothing.
#[tactic(auto, unfolding(crate::specs::Command::head_commanded))]
pub fn commands_head(
    config: &HeadConfig,
    cmd: &Cmd,
    vars: &mut Vars,
    outs: &mut Outs,
) -> Result<(), Refusal>
    requires steady { IsHeadSteady vars.old }
    requires room { 0 < outs.old.spare }
    ensures steady { IsHeadSteady vars.new }
    ensures course { (m : Mark) → course vars.new m outs.new.items
        ≡ commands.head_commanded config.now cmd.now (course vars.old m outs.old.items) }
    ensures refusal { result_err result ≡ commands.head_refusal vars.old cmd.now }
    ensures spare { outs.old.spare ≤ outs.new.spare + 1 }
    ensures room { outs.new.room ≡ outs.old.room }
{
    if let Some(refusal) = head_refusal(vars, cmd) {
        return Err(refusal);
    }
    let after = head_done(cmd, vars);
    changes(config.discr, after, vars, outs);
    Ok(())
}

/// Does a command to a tail, or refuses it and changes nothing.
#[tactic(auto, unfolding(crate::specs::Command::tail_commanded))]
pub fn commands_tail(
    config: &TailConfig,
    cmd: &Cmd,
    vars: &mut Vars,
    outs: &mut Outs,
) -> Result<(), Refusal>
    requires sound { IsTailSound config.now vars.old }
    requires room { 0 < outs.old.spare }
    ensures sound { IsTailSound config.now vars.new }
    ensures course { (m : Mark) → course vars.new m outs.new.items
        ≡ commands.tail_commanded config.now cmd.now (course vars.old m outs.old.items) }
    ensures refusal { result_err result ≡ commands.tail_refusal vars.old cmd.now }
    ensures spare { outs.old.spare ≤ outs.new.spare + 1 }
    ensures room { outs.new.room ≡ outs.old.room }
{
    if let Some(refusal) = tail_refusal(vars, cmd) {
        return Err(refusal);
    }
    let after = tail_done(cmd, vars);
    changes(config.discr, after, vars, outs);
    Ok(())
}
