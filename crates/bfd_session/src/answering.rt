//! What all kinds answer alike, and which packets are handed to them.
ghost use Rattle.std.specs.Prelude.{◌≡◌, IsTrue, ◌↔◌};
ghost use Rattle.std.specs.Result.{result_err};
ghost use Rattle.bfd_session.specs.Step as session;
ghost use Rattle.bfd_session.specs.Step.{IsFor};

use crate::Answer;
use bfd_packet::{Arrival, Port, Test, read};
use bfd_rules::{Refusal, Verdict};

/// The packet came on this port, passes the port's header tests, and has M set or clear as `multi` says.
pub fn is_for(port: Port, multi: bool, arrival: &Arrival) -> bool
    ensures { IsTrue result ↔ IsFor port multi arrival.now }
{
    arrival.port == port
        && match read(arrival.port, arrival.payload.as_slice()) {
            Ok(packet) => packet.multi == multi,
            Err(_) => false,
        }
}

/// The answer to a packet, by the verdict on it.
pub fn to_packet(verdict: Verdict) -> Answer
    ensures { result ≡ session.answer_to_packet verdict }
{
    match verdict {
        Verdict::Accepted => Answer::Handled,
        Verdict::Dropped(test) => Answer::Dropped(test),
    }
}

/// The answer to a command, by the refusal of it.
pub fn to_command(done: Result<(), Refusal>) -> Answer
    ensures { result ≡ session.answer_to_command (result_err done) }
{
    match done {
        Ok(()) => Answer::Handled,
        Err(refusal) => Answer::Refused(refusal),
    }
}

/// The answer to an echo packet that came back, by whether its number was awaited.
pub fn to_return(awaited: bool) -> Answer
    ensures { result ≡ session.answer_to_return awaited }
{
    if awaited {
        Answer::Handled
    } else {
        Answer::Dropped(Test::EchoStale)
    }
}
