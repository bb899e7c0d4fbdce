//! The control packet that an initiator transmits (RFC 7880 section 7.3.2, RFC 7881 section 5.1).
ghost use Rattle.std.specs.Prelude.{◌≡◌, ◌<◌, ◌≤◌, ◌+◌};
ghost use Rattle.bfd_rules.specs.declared.variables.Mark.{Mark};
ghost use Rattle.bfd_rules.specs.EventFrame.{course};
ghost use Rattle.bfd_sbfd.specs.Transmit as transmit;

use crate::InitiatorConfig;
use bfd_packet::{Control, Datagram, SOURCE_PORT, write_plain};
use bfd_rules::{Outs, Vars, adv_tx, sends};

/// The reflectors' port (RFC 7881 section 2).
pub const SBFD_PORT: u16 = 7784;

/// The fields of a transmitted packet: D is set, P and F are clear.
fn packet_of(config: &InitiatorConfig, v: &Vars) -> Control
    ensures { result ≡ transmit.packet_of config.now v.now }
{
    Control {
        diag: v.diag,
        state: v.state,
        poll: false,
        fin: false,
        cpi: false,
        auth: false,
        demand: true,
        multi: false,
        mult: v.mult,
        length: 0,
        my: config.discr,
        your: config.target,
        min_tx: adv_tx(v),
        min_rx: 0,
        min_echo: 0,
    }
}

/// Transmits a packet.
#[tactic(auto, unfolding(crate::specs::Transmit::transmits))]
pub fn transmits(config: &InitiatorConfig, vars: &Vars, outs: &mut Outs)
    requires diag { vars.now.diag < 32 }
    requires room { 0 < outs.old.spare }
    ensures course { (m : Mark) → course vars.now m outs.new.items
        ≡ transmit.transmits config.now (course vars.now m outs.old.items) }
    ensures spare { outs.old.spare ≤ outs.new.spare + 1 }
    ensures room { outs.new.room ≡ outs.old.room }
{
    let packet = packet_of(config, vars);
    let datagram = Datagram {
        iface: config.iface,
        src: config.local,
        sport: SOURCE_PORT,
        dst: config.remote,
        dport: SBFD_PORT,
        ttl: 255,
        bytes: write_plain(&packet),
    };
    sends(config.discr, datagram, outs);
}
