//! The control packet that a session transmits (RFC 5880 section 6.8.7, RFC 5881 section 4, RFC 5883 section 5).
ghost use Rattle.std.specs.Prelude.{◌≡◌, ◌<◌, ◌≤◌, ◌+◌, None, Some, length};
ghost use Rattle.bfd_rules.specs.declared.variables.Mark.{Mark};
ghost use Rattle.bfd_rules.specs.EventFrame.{course};
ghost use Rattle.bfd_rules.specs.Sound.{IsPlace};
ghost use Rattle.bfd_p2p.specs.Transmit as transmit;

use bfd_auth::seal;
use bfd_packet::{Control, Datagram, Keys, SOURCE_PORT, SeqState, Wire, write_plain};
use bfd_rules::{Config, Outs, Role, Vars, adv_tx, demand_here, sends};

/// The fields of a transmitted packet, with P and F as the rule that sends it says.
fn packet_of(config: &Config, v: &Vars, poll: bool, fin: bool) -> Control
    ensures { result ≡ transmit.packet_of config.now v.now poll fin }
{
    Control {
        diag: v.diag,
        state: v.state,
        poll,
        fin,
        cpi: false,
        auth: config.keys.is_some(),
        demand: demand_here(v),
        multi: false,
        mult: v.mult,
        length: 0,
        my: config.discr,
        your: v.remote_discr,
        min_tx: adv_tx(v),
        min_rx: v.rx,
        min_echo: 0,
    }
}

/// The destination port of control packets.
fn port_number(role: Role) -> u16
    ensures { result ≡ transmit.port_number role }
{
    match role {
        Role::Single => 3784,
        Role::Multi => 4784,
    }
}

/// The bytes on their way to the peer.
fn datagram_of(config: &Config, bytes: Wire) -> Datagram
    ensures { result ≡ transmit.datagram_of config.now bytes }
{
    Datagram {
        iface: config.iface,
        src: config.local,
        sport: SOURCE_PORT,
        dst: config.remote,
        dport: port_number(config.role),
        ttl: 255,
        bytes,
    }
}

/// Transmits a packet without authentication.
#[tactic(auto, using(crate::proofs::Sending::sends_plain))]
pub fn transmits_plain(config: &Config, poll: bool, fin: bool, vars: &Vars, outs: &mut Outs)
    requires diag { vars.now.diag < 32 }
    requires plain { config.now.keys ≡ None }
    requires room { 0 < outs.old.spare }
    ensures course { (m : Mark) → course vars.now m outs.new.items
        ≡ transmit.transmits config.now poll fin (course vars.now m outs.old.items) }
    ensures spare { outs.old.spare ≤ outs.new.spare + 1 }
    ensures room { outs.new.room ≡ outs.old.room }
{
    let bytes = write_plain(&packet_of(config, vars, poll, fin));
    sends(config.discr, datagram_of(config, bytes), outs);
}

/// Transmits a packet that is sealed with the key that is sent with, and says what the sequence state is after it. (Apart from
/// `transmits`, so that a session without keys makes no room for a section.)
#[cold]
#[inline(never)]
fn transmits_sealed(
    config: &Config,
    keys: &Keys,
    poll: bool,
    fin: bool,
    vars: &Vars,
    outs: &mut Outs,
) -> SeqState
    requires diag { vars.now.diag < 32 }
    requires keys { config.now.keys ≡ Some keys.now }
    requires place { vars.now.sending < length keys.now.list }
    requires room { 0 < outs.old.spare }
    ensures course { (m : Mark) → course (record vars.now { seq = result }) m outs.new.items
        ≡ transmit.transmits config.now poll fin (course vars.now m outs.old.items) }
    ensures spare { outs.old.spare ≤ outs.new.spare + 1 }
    ensures room { outs.new.room ≡ outs.old.room }
{
    let packet = packet_of(config, vars, poll, fin);
    let (bytes, seq) = seal(keys, vars.sending, &vars.seq, &packet);
    sends(config.discr, datagram_of(config, bytes), outs);
    seq
}

/// Transmits a packet, and says what the sequence state is after it.
pub fn transmits(config: &Config, poll: bool, fin: bool, vars: &Vars, outs: &mut Outs) -> SeqState
    requires diag { vars.now.diag < 32 }
    requires place { IsPlace config.now.keys vars.now.sending }
    requires room { 0 < outs.old.spare }
    ensures course { (m : Mark) → course (record vars.now { seq = result }) m outs.new.items
        ≡ transmit.transmits config.now poll fin (course vars.now m outs.old.items) }
    ensures spare { outs.old.spare ≤ outs.new.spare + 1 }
    ensures room { outs.new.room ≡ outs.old.room }
{
    match &config.keys {
        Some(keys) => transmits_sealed(config, keys, poll, fin, vars, outs),
        None => {
            transmits_plain(config, poll, fin, vars, outs);
            vars.seq
        }
    }
}
