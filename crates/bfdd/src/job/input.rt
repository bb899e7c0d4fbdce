//! The script that a source has.
ghost use Rattle.std.specs.Prelude.{◌≡◌, ◌+◌, ◌<◌, ◌≤◌, ℕ, IfErr, IfOk, IfSome, IsErrOf, length, string_bytes};
ghost use Rattle.std.specs.Io.KnownBytes.{IsAtEnd};
ghost use Rattle.bfd_edge.specs.Faults.{Rose};
ghost use Rattle.bfd_script.specs.Sound.{IsScript};
ghost use Rattle.bfdd.specs.Outside.{ConsumesAtMost};
ghost use Rattle.bfdd.specs.Sources.{HasNone, IsReadOn, IsRead};
ghost use Rattle.bfdd.specs.Text.{complaint_line, ends, most_bytes};

use crate::job::answer::Answer;
use crate::job::status::Status;
use bfd_edge::{Fault, Source};
use bfd_script::fields::{BadLine, ScriptFault};
use bfd_script::{Reader, Script};
use std::alloc::{AllocError, Global};

/// The most bytes that a text may have.
const MOST_BYTES: usize = 67_108_864;

/// How many bytes are asked for in one call.
const PIECE: usize = 65_536;

/// Why a text wasn't read to its end.
#[derive(Clone, Copy)]
enum InputFault {
    /// The source failed.
    Failed,

    /// The source gave more than `MOST_BYTES`.
    TooLarge,

    /// Out of memory.
    Memory,
}

/// Why there is no script.
#[derive(Drop)]
pub(crate) enum NoScript {
    /// The text is no script, or is too large: what is to be reported of that.
    Reported(Answer),

    /// The source failed.
    Failed,

    /// Out of memory.
    Memory,
}

/// Reads the source to its end, and never more than one byte past `MOST_BYTES`. Its bytes aren't kept.
fn read_to_end<S: Source>(alloc: Global, live: bool, source: &mut S) -> Result<Reader, InputFault>
    ensures taken { IfOk result (λ reader. (count : ℕ) × (count ≤ most_bytes)
        × IsReadOn live (S.left source.old) (S.left source.new) count reader) }
    ensures end { IfOk result (λ _. IsAtEnd (S.left source.new)) }
    ensures failed { IsErrOf result InputFault.Failed → Rose (S.faults source.old) (S.faults source.new) }
    ensures too_large { IsErrOf result InputFault.TooLarge
        → IfSome (S.left source.old) (λ bytes. most_bytes < length bytes) }
    ensures at_most { ConsumesAtMost (most_bytes + 1) (S.left source.old) (S.left source.new) }
    ensures calm { IfOk result (λ _. S.faults source.new ≡ S.faults source.old) }
    ensures calm_too_large { IsErrOf result InputFault.TooLarge → S.faults source.new ≡ S.faults source.old }
    ensures calm_memory { IsErrOf result InputFault.Memory → S.faults source.new ≡ S.faults source.old }
{
    let mut reader = Reader::new(alloc, live);
    let mut count = 0;
    let mut buf = [0u8; PIECE];
    'pieces: loop {
        let room = (MOST_BYTES + 1 - count).min(PIECE);
        match source.read(&mut buf[..room]) {
            Ok(0) => return Ok(reader),
            Ok(more) => {
                match reader.take(alloc, &buf[..more]) {
                    Ok(()) => count += more,
                    Err(_) => return Err(InputFault::Memory),
                }
                if count > MOST_BYTES {
                    return Err(InputFault::TooLarge);
                }
            }
            Err(Fault::Failed) => return Err(InputFault::Failed),
            Err(Fault::Memory) => return Err(InputFault::Memory),
        }
    }
}

/// `bad LINE FAULT`, and LF.
fn complaint(alloc: Global, bad: BadLine) -> Result<String, AllocError>
    ensures { IfOk result (λ text. string_bytes text ≡ complaint_line bad) }
{
    format!(in alloc; "{bad}\n")
}

/// A text that is no script: its first faulty line is reported.
fn complain(alloc: Global, bad: BadLine) -> Result<Answer, AllocError>
    ensures { IfOk result (λ answer. answer ≡ ends (Status.BadLine bad.line bad.fault) (complaint_line bad)) }
{
    let text = complaint(alloc, bad)?.into_bytes();
    let BadLine { line, fault } = bad;
    Ok(Answer::whole(Status::BadLine { line, fault }, text))
}

/// Reads the source to its end, and never more than one byte past 67,108,864: the script that its bytes spell.
pub(crate) fn script_in<S: Source>(
    alloc: Global,
    live: bool,
    source: &mut S,
) -> Result<Script, NoScript>
    ensures read { IfOk result (IsRead live (S.left source.old) (S.left source.new)) }
    ensures sound { IfOk result IsScript }
    ensures none { IfErr result (HasNone live (S.left source.old) (S.left source.new) (S.faults source.old)
        (S.faults source.new)) }
    ensures at_most { ConsumesAtMost (most_bytes + 1) (S.left source.old) (S.left source.new) }
    ensures calm { IfOk result (λ _. S.faults source.new ≡ S.faults source.old) }
{
    match read_to_end(alloc, live, source) {
        Ok(reader) => match reader.finish(alloc) {
            Ok(script) => Ok(script),
            Err(ScriptFault::Memory) => Err(NoScript::Memory),
            Err(ScriptFault::Bad(bad)) => match complain(alloc, bad) {
                Ok(answer) => Err(NoScript::Reported(answer)),
                Err(_) => Err(NoScript::Memory),
            },
        },
        Err(InputFault::TooLarge) => {
            let answer = Answer::bare(alloc, Status::TooLarge);
            Err(NoScript::Reported(answer))
        }
        Err(InputFault::Failed) => Err(NoScript::Failed),
        Err(InputFault::Memory) => Err(NoScript::Memory),
    }
}
