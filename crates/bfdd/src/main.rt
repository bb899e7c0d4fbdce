//! bfdd: the program.
//!
//! `main` makes the adapters over standard input and output, over UDP and over the machine's clock, hands the words after the
//! program's name to [`run`], and ends with the status's code. It prints nothing itself. All that the program promises stands on
//! `run`, over any source, any sink, any ports and any ticker.
//!
//! Layers, lowest first: `words` (the grammar of the command line), `job` (what each word has to write), `output` (an answer's text to a
//! sink, and the result of that), `running` ([`run`] itself).
//!
//! It stands on `bfd_replay`, `bfd_serve`, `bfd_watch`, `bfd_pair` and `bfd_load` for what each word does, and on `bfd_edge` and `bfd_net`
//! for the outside.
#![tactic(auto)]

ghost use Rattle.std.specs.Prelude.{◌≡◌, ◌⊎◌, IfErr};
ghost use Rattle.bfdd.specs.Status.{status_without_words};

mod job;
mod output;
mod running;
mod watched_text;
mod words;

pub use crate::job::Status;
use bfd_edge::{OpenGate, StdSink, StdSource};
use bfd_net::{ClockTicker, UdpPorts};
pub use running::run;
use std::env;
use std::io::ErrorKind;
use std::process::ExitCode;

/// The status where the words aren't available: Memory where there is no memory for them, and else Usage, as where one isn't UTF-8.
fn status_without_words(kind: ErrorKind) -> Status
    ensures value { result ≡ status_without_words kind }
    ensures either { (result ≡ Status.Memory) ⊎ (result ≡ Status.Usage) }
{
    match kind {
        ErrorKind::OutOfMemory => Status::Memory,
        _ => Status::Usage,
    }
}

/// The words after the program's name, or the status with which it ends without them.
fn words_after_name(rt: &HostRuntime) -> Result<Vec<String>, Status>
    ensures { IfErr result (λ status. (status ≡ Status.Memory) ⊎ (status ≡ Status.Usage)) }
{
    match env::args(rt) {
        Ok(words) => {
            let mut words = words;
            let _name = words.next();
            words.collect(rt.alloc()).map_err(|_| Status::Memory)
        }
        Err(error) => Err(status_without_words(error.kind())),
    }
}

fn main(rt: HostRuntime) -> ExitCode {
    let words = match words_after_name(&rt) {
        Ok(words) => words,
        Err(status) => return ExitCode::from(status.code()),
    };
    let mut source = StdSource::make(rt.stdin());
    let mut sink = StdSink::make(rt.stdout());
    let mut ports = UdpPorts::make(&rt, rt.alloc());
    let mut ticker = ClockTicker::make(&rt);
    let status = run(
        &rt,
        rt.alloc(),
        &words,
        &mut source,
        &mut sink,
        &mut ports,
        &mut ticker,
        &OpenGate,
    );
    ExitCode::from(status.code())
}

#[cfg(test)]
mod meeting_tests;
#[cfg(test)]
mod row_tests;
#[cfg(test)]
mod serve_tests;
#[cfg(test)]
mod tests;
#[cfg(test)]
mod words_tests;
