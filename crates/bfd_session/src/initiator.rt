//! The events of an initiator (RFC 7880).
ghost use Rattle.bfd_sbfd.specs.Over.{IsSettled};
ghost use Rattle.bfd_session.specs.Inside.{initiator_of};

use crate::answering::{to_command, to_packet, to_return};
use crate::plain::PlainMachine;
use crate::showing::{shows, tick_of};
use crate::{Answer, Event};
use bfd_num::sooner;
use bfd_rules::{Mark, Outs, adv_tx};
use bfd_sbfd::{Initiator, deadline, wait};

impl PlainMachine for Initiator {
    ghost running_of = { initiator_of };

    ghost is_settled = { λ limit eff mark i. IsSettled limit eff mark i.vars };

    fn settles(&mut self, own: Option<u64>, limit: u64, eff: u64, outs: &mut Outs) -> Mark {
        let mut mark = self.begin(own);
        self.settle(limit, eff, &mut mark, outs);
        mark
    }

    fn acts(&mut self, eff: u64, event: &Event, mark: &mut Mark, outs: &mut Outs) -> Answer {
        match event {
            Event::Packet(arrival) => {
                to_packet(self.accept(eff, arrival.ttl, arrival.payload.as_slice(), mark, outs))
            }
            Event::Returned(_) => to_return(false),
            Event::Command(cmd) => to_command(self.command(eff, cmd, mark, outs)),
            Event::Show => {
                let v = self.vars();
                Answer::Shown(shows(self.config().discr, adv_tx(v), wait(v), v))
            }
        }
    }

    #[tactic(auto, using(crate::proofs::DueTick::initiator_over))]
    fn ends(&mut self, eff: u64, mark: Mark, outs: &mut Outs) {
        self.finish(eff, mark, outs);
    }

    fn due_tick(&self) -> Option<u64> {
        let v = self.vars();
        sooner(tick_of(deadline(v)), v.tx_due)
    }
}
