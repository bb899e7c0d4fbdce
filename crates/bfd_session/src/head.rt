//! The events of a head (RFC 8562). No packet is one.
ghost use Rattle.bfd_mp.specs.Over.{IsSettled};
ghost use Rattle.bfd_session.specs.Inside.{head_of};

use crate::answering::{to_command, to_return};
use crate::plain::PlainMachine;
use crate::showing::shows;
use crate::{Answer, Event};
use bfd_mp::Head;
use bfd_rules::{Mark, Outs};

impl PlainMachine for Head {
    ghost running_of = { head_of };

    ghost is_settled = { λ limit eff mark h. IsSettled limit eff mark h.vars };

    fn settles(&mut self, own: Option<u64>, limit: u64, eff: u64, outs: &mut Outs) -> Mark {
        let mut mark = self.begin(own);
        self.settle(limit, eff, &mut mark, outs);
        mark
    }

    fn acts(&mut self, eff: u64, event: &Event, mark: &mut Mark, outs: &mut Outs) -> Answer {
        match event {
            Event::Packet(_) => unreachable!(),
            Event::Returned(_) => to_return(false),
            Event::Command(cmd) => to_command(self.command(eff, cmd, mark, outs)),
            Event::Show => {
                let v = self.vars();
                Answer::Shown(shows(self.config().discr, v.tx, 0, v))
            }
        }
    }

    #[tactic(auto, using(crate::proofs::DueTick::head_over))]
    fn ends(&mut self, eff: u64, mark: Mark, outs: &mut Outs) {
        self.finish(eff, mark, outs);
    }

    fn due_tick(&self) -> Option<u64> {
        self.vars().tx_due
    }
}
