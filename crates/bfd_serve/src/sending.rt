//! What follows a call of the engine: its packets are sent.
ghost use Rattle.std.specs.Prelude.{◌≡◌, ◌<◌, [], ◌∷◌, length, List, OnOk, OnErr};
ghost use Rattle.bfd_packet.specs.declared.arrival.Datagram.{Datagram as Packet};
ghost use Rattle.bfd_serve.specs.Calls.{datagrams};
ghost use Rattle.bfd_serve.specs.Works.{HasSent, IsSentAfter, end_of};

use crate::ending::End;
use bfd_edge::{Fault, Link};
use bfd_engine::EngineFault;
use bfd_rules::Out;
use bfd_session::Answer;
use std::alloc::AllocError;

/// Sends the packet of an output, if it is one. One that fails is counted as lost; out of memory leaves all as it was.
#[tactic(auto, using(crate::proofs::Packets::sent_none, crate::proofs::Packets::sent_ok, crate::proofs::Packets::sent_failed, crate::proofs::Packets::unsent))]
fn send_one<L: Link>(link: &mut L, out: &Out, lost: &mut u64) -> Result<(), AllocError>
    ensures sent { OnOk result (HasSent (datagrams (out.now ∷ [])) [] (L.observed link.old) (L.observed link.new)
        lost.old lost.new) }
    ensures refused { OnErr result ((L.observed link.new ≡ L.observed link.old) × (lost.new ≡ lost.old)) }
    ensures some { OnErr result (0 < length (datagrams (out.now ∷ []))) }
{
    match out {
        Out::Changed { .. } => Ok(()),
        Out::Sent { datagram, .. } => match link.send(datagram) {
            Ok(()) => Ok(()),
            Err(Fault::Failed) => {
                *lost = lost.saturating_add(1);
                Ok(())
            }
            Err(Fault::Memory) => Err(AllocError),
        },
    }
}

/// Sends the packets of some outputs, in order. One that fails is counted as lost; out of memory ends it.
fn send_all<L: Link>(link: &mut L, outs: &[Out], lost: &mut u64) -> Result<(), AllocError>
    ensures sent { OnOk result (HasSent (datagrams outs.now) [] (L.observed link.old) (L.observed link.new) lost.old lost.new) }
    ensures refused { OnErr result ((untried : List Packet)
        × HasSent (datagrams outs.now) untried (L.observed link.old) (L.observed link.new) lost.old lost.new
        × (0 < length untried)) }
{
    for out in outs {
        if let Err(want) = send_one(link, out, lost) {
            return Err(want);
        }
    }
    Ok(())
}

/// The end that a fault of the engine causes.
fn ended(fault: EngineFault) -> End
    ensures { result ≡ end_of fault }
{
    match fault {
        EngineFault::Memory => End::Memory,
        EngineFault::Full(shard, length) => End::Full(shard, length),
        EngineFault::Spent(shard, word) => End::Spent(shard, word),
    }
}

/// Sends what a call of the engine emitted. The answer is for the caller of the engine alone: nobody hears it.
pub(crate) fn settle<L: Link>(
    outcome: Result<Answer, EngineFault>,
    link: &mut L,
    outs: &[Out],
    lost: &mut u64,
) -> Result<(), End>
    ensures { IsSentAfter outcome outs.now (L.observed link.old) (L.observed link.new) lost.old lost.new result }
{
    if let Err(fault) = outcome {
        return Err(ended(fault));
    }
    if send_all(link, outs, lost).is_err() {
        return Err(End::Memory);
    }
    Ok(())
}
