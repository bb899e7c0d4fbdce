//! The control packet that a head transmits (RFC 8562 sections 5.1 and 5.13, RFC 5881 section 4).
ghost use Rattle.std.specs.Prelude.{◌≡◌, ◌<◌, ◌≤◌, ◌+◌};
ghost use Rattle.bfd_rules.specs.declared.variables.Mark.{Mark};
ghost use Rattle.bfd_rules.specs.EventFrame.{course};
ghost use Rattle.bfd_mp.specs.Transmit as transmit;

use crate::HeadConfig;
use bfd_packet::{Control, Datagram, SOURCE_PORT, write_plain};
use bfd_rules::{Outs, Vars, sends};

/// The port of control packets over a single hop (RFC 5881 section 4).
const CONTROL_PORT: u16 = 3784;

/// The fields of a transmitted packet, with P as the rule that sends it says: M and D are set.
fn packet_of(config: &HeadConfig, v: &Vars, poll: bool) -> Control
    ensures { result ≡ transmit.packet_of config.now v.now poll }
{
    Control {
        diag: v.diag,
        state: v.state,
        poll,
        fin: false,
        cpi: false,
        auth: false,
        demand: true,
        multi: true,
        mult: v.mult,
        length: 0,
        my: config.discr,
        your: 0,
        min_tx: v.tx,
        min_rx: 0,
        min_echo: 0,
    }
}

/// Transmits a packet.
#[tactic(auto, unfolding(crate::specs::Transmit::transmits))]
pub fn transmits(config: &HeadConfig, poll: bool, vars: &Vars, outs: &mut Outs)
    requires diag { vars.now.diag < 32 }
    requires room { 0 < outs.old.spare }
    ensures course { (m : Mark) → course vars.now m outs.new.items
        ≡ transmit.transmits config.now poll (course vars.now m outs.old.items) }
    ensures spare { outs.old.spare ≤ outs.new.spare + 1 }
    ensures room { outs.new.room ≡ outs.old.room }
{
    let packet = packet_of(config, vars, poll);
    let datagram = Datagram {
        iface: config.iface,
        src: config.local,
        sport: SOURCE_PORT,
        dst: config.group,
        dport: CONTROL_PORT,
        ttl: 255,
        bytes: write_plain(&packet),
    };
    sends(config.discr, datagram, outs);
}
