//! A record in a block of its own.
ghost use Rattle.std.specs.Prelude.{◌≡◌, IfOk, Some};
ghost use Rattle.bfd_c.specs.Records as keeping;

use crate::records::kept::{Came, Record, note_answer, note_change, note_sent};
use bfd_packet::State;
use bfd_session::Answer;
use std::alloc::{AllocError, Global};
use std::marker::Model;

/// A record in a block of memory of its own: where a list of records moves, pointers do.
#[derive(Drop)]
pub struct BoxedRecord {
    record: Box<Record>,
}

impl Model for BoxedRecord {
    ghost use Rattle.bfd_c.specs.declared.records.kept.Record.{Record};

    ghost Value = { Record };

    ghost view = { λ b. b.record.value };
}

impl BoxedRecord {
    /// Puts a record into a block. Fails only when out of memory.
    pub(crate) fn make(alloc: Global, kept: Record) -> Result<BoxedRecord, AllocError>
        ensures { IfOk result (λ boxed. boxed ≡ kept) }
    {
        let record = Box::new(alloc, kept)?;
        Ok(BoxedRecord { record })
    }

    /// The record.
    pub(crate) fn record(&self) -> &Record
        ensures { result.now ≡ self.now }
    {
        self.record.as_ref()
    }

    /// Counts a packet that the session sent.
    pub(crate) fn note_sent(&mut self)
        ensures { self.new ≡ record self.old { sent = keeping.one_counted self.old.sent } }
    {
        note_sent(&mut self.record);
    }

    /// Counts that the session entered a state, and keeps the moment, in microseconds.
    pub(crate) fn note_change(&mut self, state: State, moment: u64)
        ensures { self.new ≡ record (keeping.entered state self.old) { changed = Some moment } }
    {
        note_change(&mut self.record, state, moment);
    }

    /// Counts what came to the session by its answer, and keeps the moment, in microseconds, where a control packet was stored.
    pub(crate) fn note_answer(&mut self, came: Came, answer: &Answer, moment: u64)
        ensures { self.new ≡ keeping.answered_with came answer.now moment self.old }
    {
        note_answer(&mut self.record, came, answer, moment);
    }
}
