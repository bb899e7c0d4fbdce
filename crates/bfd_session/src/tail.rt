//! The events of a tail (RFC 8562). It sends nothing.
ghost use Rattle.bfd_mp.specs.Over.{IsTailOver};
ghost use Rattle.bfd_session.specs.Inside.{tail_of};

use crate::answering::{to_command, to_packet, to_return};
use crate::plain::PlainMachine;
use crate::showing::{shows, tick_of};
use crate::{Answer, Event};
use bfd_mp::{Tail, deadline, wait};
use bfd_rules::{Mark, Outs};

impl PlainMachine for Tail {
    ghost running_of = { tail_of };

    ghost is_settled = { λ limit eff mark t. IsTailOver limit t.vars };

    fn settles(&mut self, own: Option<u64>, limit: u64, eff: u64, outs: &mut Outs) -> Mark {
        let mut mark = self.begin(own);
        self.settle(limit, eff, &mut mark, outs);
        mark
    }

    fn acts(&mut self, eff: u64, event: &Event, mark: &mut Mark, outs: &mut Outs) -> Answer {
        match event {
            Event::Packet(arrival) => {
                to_packet(self.accept(eff, arrival.ttl, arrival.payload.as_slice(), mark, outs))
            }
            Event::Returned(_) => to_return(false),
            Event::Command(cmd) => to_command(self.command(eff, cmd, mark, outs)),
            Event::Show => {
                let v = self.vars();
                Answer::Shown(shows(self.config().discr, 0, wait(v), v))
            }
        }
    }

    #[tactic(auto, using(crate::proofs::DueTick::tail_over))]
    fn ends(&mut self, eff: u64, mark: Mark, outs: &mut Outs) {
        self.finish(eff, mark, outs);
    }

    fn due_tick(&self) -> Option<u64> {
        tick_of(deadline(self.vars()))
    }
}
