//! What a run has to write.
ghost use Rattle.std.specs.Prelude.{◌≡◌, ◌≢◌, [], true, false};
ghost use Rattle.bfd_instance.specs.World.{replayed};
ghost use Rattle.bfd_script.specs.Sound.{IsScript};
ghost use Rattle.bfdd.specs.Held.{held_text};
ghost use Rattle.bfdd.specs.Ranges.{AreHands};
ghost use Rattle.bfdd.specs.Text.{bare, done_with, ends};

use crate::job::status::Status;
use crate::words::Hands;
use bfd_script::Script;
use std::alloc::Global;
use std::marker::Model;

/// A text that a run has to write.
#[derive(Drop)]
pub enum Text {
    /// These bytes.
    Whole(Vec<u8>),

    /// The report of a replay that is made while it is written: of this script, on these hands.
    Report(Script, Hands),
}

impl Text {
    /// Whether there is nothing to write. A report has a last line in any case.
    #[tactic(auto, using(bfd_replay::proofs::LastLine::replayed_some))]
    pub fn is_empty(&self) -> bool
        ensures empty { result ≡ true → held_text self.now ≡ [] }
        ensures some { result ≡ false → held_text self.now ≢ [] }
    {
        match self {
            Text::Whole(bytes) => bytes.is_empty(),
            Text::Report(..) => false,
        }
    }
}

/// How the run is to end, and the text that it is to write. Contracts see the bytes of that text, also where they are still to be
/// made.
#[derive(Drop)]
pub struct Answer {
    pub status: Status,
    pub text: Text,
}

impl Model for Answer {
    ghost use Rattle.bfdd.specs.Text.{Wanted, ends};

    ghost Value = { Wanted };

    ghost use Rattle.bfdd.specs.Held.{CanBeMade, held_text};

    ghost view = { λ a. ends a.status (held_text a.text) };

    ghost invariant = { λ a. CanBeMade a.text };
}

impl Answer {
    /// These bytes, under this status.
    pub(crate) fn whole(status: Status, text: Vec<u8>) -> Answer
        ensures { result ≡ ends status text.items }
    {
        Answer {
            status,
            text: Text::Whole(text),
        }
    }

    /// A text, and no fault.
    pub(crate) fn done_with(text: Vec<u8>) -> Answer
        ensures { result ≡ done_with text.items }
    {
        Answer::whole(Status::Done, text)
    }

    /// Nothing is written.
    pub(crate) fn bare(alloc: Global, status: Status) -> Answer
        ensures { result ≡ bare status }
    {
        Answer::whole(status, Vec::new(alloc))
    }

    /// The report of this script, by a replay on these hands. It isn't made yet.
    pub(crate) fn report(script: Script, hands: Hands) -> Answer
        requires script { IsScript script }
        requires hands { AreHands hands }
        ensures { result ≡ done_with (replayed script) }
    {
        Answer {
            status: Status::Done,
            text: Text::Report(script, hands),
        }
    }
}
