//! What is left of a part, by reference.
ghost use Rattle.std.specs.Prelude.{◌≡◌, ◌<◌, ◌≤◌, ◌+◌, ◌++◌, IfOk, OnErr, OnOk, drop, length};
ghost use Rattle.bfd_replay.specs.Cutting.{IsHalved};
ghost use Rattle.bfd_replay.specs.Inside.{first_drops, first_key, first_text, first_txs, head_key};
ghost use Rattle.bfd_replay.specs.Pieces.{texts};

use crate::report::key::Mark;
use std::alloc::AllocError;
use std::marker::Model;

/// Pieces of a part, by reference, of which the first are taken off. Its value is the pieces that are left.
#[derive(Drop)]
pub(crate) struct Rest<'a> {
    pub(crate) marks: &'a [Mark],
    pub(crate) text: &'a [u8],
}

impl<'a> Model for Rest<'a> {
    ghost use Rattle.std.specs.Prelude.{List};
    ghost use Rattle.bfd_replay.specs.Pieces.{Piece};
    ghost use Rattle.bfd_replay.specs.Inside.{IsPart, pieces_at};

    ghost Value = { List Piece };

    ghost view = { λ r. pieces_at r.marks.now r.text.now };

    ghost invariant = { λ r. IsPart r.marks.now r.text.now };
}

impl<'a> Rest<'a> {
    /// How many bytes of text the pieces have that are left.
    pub(crate) fn left(&self) -> usize
        ensures { result ≡ length (texts self.now) }
    {
        self.text.len()
    }

    /// The rank of the key of the first piece that is left.
    pub(crate) fn first(&self) -> Option<u64>
        ensures { head_key result ≡ first_key self.now }
    {
        match self.marks.first() {
            Some(mark) => Some(mark.rank()),
            None => None,
        }
    }

    /// Takes the first piece off, appends its text, and gives how many packets it reports as sent and as dropped. Fails only when out of
    /// memory, and then all is as before.
    pub(crate) fn take(&mut self, text: &mut Vec<u8>) -> Result<(u64, u64), AllocError>
        requires { 0 < length self.old }
        ensures rest { OnOk result (self.new ≡ drop 1 self.old) }
        ensures text { OnOk result (text.new.items ≡ text.old.items ++ first_text self.old) }
        ensures txs { IfOk result (λ counts. counts.0 ≡ first_txs self.old) }
        ensures drops { IfOk result (λ counts. counts.1 ≡ first_drops self.old) }
        ensures few { IfOk result (λ counts. counts.0 + counts.1 + length text.old.items ≤ length text.new.items) }
        ensures same { OnErr result (self.new ≡ self.old) }
        ensures same_text { OnErr result (text.new.items ≡ text.old.items) }
    {
        let mark = self.marks[0];
        let (own, left) = self.text.split_at(mark.long());
        text.extend_from_slice(own)?;
        self.marks = &self.marks[1..];
        self.text = left;
        Ok(mark.counts())
    }

    /// The rank of the key of a piece that is left, before which half of the text stands or a little more; or 0 where there is none.
    pub(crate) fn middle(&self) -> u64 {
        let half = self.text.len() / 2;
        let mut long = 0usize;
        for at in 0..self.marks.len() {
            if half <= long {
                return self.marks[at].rank();
            }
            long = long.saturating_add(self.marks[at].long());
        }
        0
    }

    /// The pieces up to the first one whose rank is this or above, and those from there on.
    pub(crate) fn cut(&self, rank: u64) -> (Rest<'a>, Rest<'a>)
        ensures { IsHalved rank self.now result.0 result.1 }
    {
        let mut count = 0;
        let mut long = 0;
        'below: while count < self.marks.len() && self.marks[count].rank() < rank {
            long += self.marks[count].long();
            count += 1;
        }
        let (marks, other_marks) = self.marks.split_at(count);
        let (text, other_text) = self.text.split_at(long);
        let front = Rest { marks, text };
        let back = Rest {
            marks: other_marks,
            text: other_text,
        };
        (front, back)
    }
}
