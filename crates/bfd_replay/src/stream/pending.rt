//! What was reported so far.
ghost use Rattle.std.specs.Prelude.{◌≡◌, ◌<◌, ◌+◌, ◌++◌, [], IfOk, List, OnOk, sum_by};
ghost use Rattle.std.specs.Io.KnownBytes.{Appends};
ghost use Rattle.bfd_edge.specs.Faults.{HasCause};
ghost use Rattle.bfd_script.specs.Report.{done_line, dropped_by, event_lines, packets_sent_by};
ghost use Rattle.bfd_replay.specs.Spread.{Dealt, IsSpread, dealt_text};
ghost use Rattle.bfd_replay.specs.Written.{TookFront, TookUpTo};

use crate::report::{Counts, Part, added, dropped, give_all, give_on, sent, write_last};
use bfd_edge::{Fault, Sink};
use bfd_engine::EngineFault;
use bfd_rules::Outs;
use bfd_script::lines;
use bfd_session::Answer;
use std::alloc::{AllocError, Global};
use std::marker::Model;

/// Why a replay broke off.
#[derive(Drop)]
pub(crate) enum Stop {
    /// A shard refused the event.
    Refused(EngineFault),
    /// The sink failed, or memory ran out here or there.
    Unwritten(Fault),
}

/// The lines that are not written yet, and how many events were reported, with how many packets that were sent and were dropped in
/// them.
#[derive(Drop)]
pub(crate) struct Pending {
    text: Vec<u8>,
    events: u64,
    txs: u64,
    drops: u64,
}

impl Model for Pending {
    ghost use Rattle.bfd_replay.specs.PendingLines.{PendingLines};

    ghost Value = { PendingLines };

    ghost view = { λ t. record { text = t.text.items; events = t.events; txs = t.txs; drops = t.drops } };
}

/// Appends the lines of an event, and writes the text if it is long; then a new one begins.
fn write_event<K: Sink>(
    number: u64,
    outs: &Outs,
    answer: &Answer,
    text: &mut Vec<u8>,
    sink: &mut K,
) -> Result<(), Fault>
    ensures text { OnOk result (TookUpTo (K.taken sink.old) (K.taken sink.new) (text.old.items
        ++ event_lines number (record { items = outs.now.items; answer = answer.now })) text.new.items) }
    ensures front { TookFront (K.taken sink.old) (K.taken sink.new) (text.old.items
        ++ event_lines number (record { items = outs.now.items; answer = answer.now })) }
    ensures cause { HasCause (K.faults sink.old) (K.faults sink.new) result }
    ensures calm { OnOk result (K.faults sink.new ≡ K.faults sink.old) }
{
    match lines(number, outs.items(), answer, text) {
        Ok(()) => give_on(text, sink),
        Err(_) => Err(Fault::Memory),
    }
}

impl Pending {
    /// Nothing was reported.
    pub(crate) fn new(alloc: Global) -> Pending
        ensures { result ≡ record { text = []; events = 0; txs = 0; drops = 0 } }
    {
        Pending {
            text: Vec::new(alloc),
            events: 0,
            txs: 0,
            drops: 0,
        }
    }

    /// The number of the next event, from 1.
    pub(crate) fn number(&self) -> u64
        requires few { self.now.events < 200000 }
        ensures { result ≡ self.now.events + 1 }
    {
        self.events + 1
    }

    /// Reports what the next event gave, and writes the text if it is long; for a sink that nobody reads no text is made. Refused as Failed
    /// if the sink failed, and as Memory when out of memory, here or in the sink, or at 2^64 packets sent or dropped.
    pub(crate) fn append_outcome<K: Sink>(
        &mut self,
        outs: &Outs,
        answer: &Answer,
        sink: &mut K,
    ) -> Result<(), Fault>
        requires few { self.old.events < 200000 }
        ensures text { OnOk result (TookUpTo (K.taken sink.old) (K.taken sink.new) (self.old.text
            ++ event_lines (self.old.events + 1) (record { items = outs.now.items; answer = answer.now })) self.new.text) }
        ensures events { OnOk result (self.new.events ≡ self.old.events + 1) }
        ensures txs { OnOk result (self.new.txs ≡ self.old.txs + sum_by packets_sent_by outs.now.items) }
        ensures drops { OnOk result (self.new.drops ≡ self.old.drops + dropped_by answer.now) }
        ensures front { TookFront (K.taken sink.old) (K.taken sink.new) (self.old.text
            ++ event_lines (self.old.events + 1) (record { items = outs.now.items; answer = answer.now })) }
        ensures cause { HasCause (K.faults sink.old) (K.faults sink.new) result }
        ensures calm { OnOk result (K.faults sink.new ≡ K.faults sink.old) }
    {
        let number = self.number();
        let Ok(()) = self.count((sent(outs.items()), dropped(answer))) else {
            return Err(Fault::Memory);
        };
        if sink.is_read() {
            write_event(number, outs, answer, &mut self.text, sink)
        } else {
            self.text.clear();
            Ok(())
        }
    }

    /// One more event, with so many packets that were sent and were dropped. Fails only at 2^64 of them, which it reports as out of memory.
    fn count(&mut self, more: (u64, u64)) -> Result<(), AllocError>
        requires few { self.old.events < 200000 }
        ensures text { self.new.text ≡ self.old.text }
        ensures events { OnOk result (self.new.events ≡ self.old.events + 1) }
        ensures txs { OnOk result (self.new.txs ≡ self.old.txs + more.0) }
        ensures drops { OnOk result (self.new.drops ≡ self.old.drops + more.1) }
    {
        let (txs, drops) = added((self.txs, self.drops), more)?;
        self.events += 1;
        self.txs = txs;
        self.drops = drops;
        Ok(())
    }

    /// Reports what the next event gave, of which each shard has reported its part, and writes the text where it is long. It is refused as
    /// Failed where the sink failed, and as Memory when out of memory, here or in the sink, or at 2^64 packets sent or dropped.
    pub(crate) fn gather<K: Sink>(
        &mut self,
        alloc: Global,
        parts: Vec<Part>,
        sink: &mut K,
    ) -> Result<(), Fault>
        requires few { self.old.events < 200000 }
        ensures text { (dealt : List Dealt) → IsSpread dealt parts.items → OnOk result
            (TookUpTo (K.taken sink.old) (K.taken sink.new) (self.old.text ++ dealt_text dealt) self.new.text) }
        ensures events { OnOk result (self.new.events ≡ self.old.events + 1) }
        ensures txs { (dealt : List Dealt) → IsSpread dealt parts.items
            → OnOk result (self.new.txs ≡ self.old.txs + sum_by (λ d. d.piece.txs) dealt) }
        ensures drops { (dealt : List Dealt) → IsSpread dealt parts.items
            → OnOk result (self.new.drops ≡ self.old.drops + sum_by (λ d. d.piece.drops) dealt) }
        ensures front { (dealt : List Dealt) → IsSpread dealt parts.items
            → TookFront (K.taken sink.old) (K.taken sink.new) (self.old.text ++ dealt_text dealt) }
        ensures cause { HasCause (K.faults sink.old) (K.faults sink.new) result }
        ensures calm { OnOk result (K.faults sink.new ≡ K.faults sink.old) }
    {
        let mut parts = parts;
        let counts = give_all(alloc, &mut parts, &mut self.text, sink)?;
        match self.count(counts) {
            Ok(()) => Ok(()),
            Err(_) => Err(Fault::Memory),
        }
    }

    /// Writes what is left of the text, and the last line of the report behind it: the counts.
    pub(crate) fn close<K: Sink>(self, alloc: Global, sink: &mut K) -> Result<Counts, Fault>
        ensures counts { IfOk result (λ counts. counts ≡ record { events = self.events; txs = self.txs; drops = self.drops }) }
        ensures whole { OnOk result (Appends (K.taken sink.old) (K.taken sink.new)
            (self.text ++ done_line self.events self.txs self.drops)) }
        ensures front { TookFront (K.taken sink.old) (K.taken sink.new)
            (self.text ++ done_line self.events self.txs self.drops) }
        ensures cause { HasCause (K.faults sink.old) (K.faults sink.new) result }
        ensures calm { OnOk result (K.faults sink.new ≡ K.faults sink.old) }
    {
        let Pending {
            text,
            events,
            txs,
            drops,
        } = self;
        write_last(alloc, text, events, txs, drops, sink)?;
        Ok(Counts { events, txs, drops })
    }
}
