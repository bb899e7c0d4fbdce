//! A text that is read piece by piece.
ghost use Rattle.std.specs.Prelude.{◌≡◌, ◌+◌, ◌<◌, ◌≤◌, ◌++◌, ◌∷◌, ℕ, [], IfOk, List, None, length};
ghost use Rattle.bfd_script.specs.Continued.{told_with, told_from};
ghost use Rattle.bfd_script.specs.Fields.{IsUnended};
ghost use Rattle.bfd_script.specs.Gives.{GivesScript};
ghost use Rattle.bfd_script.specs.Reading.{script_of, start};
ghost use Rattle.bfd_script.specs.Sound.{IsScript};

use crate::ahead::take_usual;
use crate::fields::{BadLine, ReadFault, ScriptFault, whole_line};
use crate::reading::read_step;
use crate::script::Script;
use crate::state::Reading;
use std::alloc::{AllocError, Global};
use std::marker::Model;
use std::mem;

/// A packet file that comes in pieces of any length. Its text isn't kept, but for a line that has begun and hasn't ended. Contracts see it
/// as the record `Progress`, and `told_with` says what the text spells, whatever comes next.
///
/// In a `live` script the lines `rx` and `tick` may not stand, since packets and ticks come from outside.
#[derive(Drop)]
pub struct Reader {
    live: bool,
    reading: Reading,
    number: u64,
    begun: Vec<u8>,
    found: Option<BadLine>,
}

impl Model for Reader {
    ghost use Rattle.bfd_script.specs.Continued.{Progress};
    ghost use Rattle.bfd_script.specs.Fields.{IsUnended};

    ghost Value = { Progress };

    ghost view = { λ r. record { live = r.live; state = r.reading; number = r.number; begun = r.begun.items; found = r.found } };

    ghost invariant = { λ r. IsUnended r.begun.items };
}

impl Reader {
    /// Before the first piece.
    pub fn new(alloc: Global, live: bool) -> Reader
        ensures { result ≡ record { live = live; state = start; number = 1; begun = []; found = None } }
    {
        Reader {
            live,
            reading: Reading::new(alloc),
            number: 1,
            begun: Vec::new(alloc),
            found: None,
        }
    }

    /// Reads one more line, unless a faulty one was found. `fields` is room for its fields.
    fn read_line<'a>(
        &mut self,
        alloc: Global,
        line: &'a [u8],
        fields: &mut Vec<&'a [u8]>,
    ) -> Result<(), AllocError>
        requires number { self.old.number < 18446744073709551615 }
        ensures told { IfOk result (λ _. (lines : List (List ℕ)) → told_from self.new lines ≡ told_from self.old (line.now ∷ lines)) }
        ensures begun { self.new.begun ≡ self.old.begun }
        ensures number { self.new.number ≤ self.old.number + 1 }
    {
        if self.found.is_some() {
            return Ok(());
        }
        match read_step(alloc, self.live, &mut self.reading, line, fields) {
            Ok(()) => self.number += 1,
            Err(ReadFault::Fault(fault)) => {
                self.found = Some(BadLine {
                    line: self.number,
                    fault,
                });
            }
            Err(ReadFault::Memory) => return Err(AllocError),
        }
        Ok(())
    }

    /// Reads the usual lines that come next, unless a faulty one was found, and answers what is left of this text.
    fn read_usual<'a>(&mut self, alloc: Global, text: &'a [u8]) -> Result<&'a [u8], AllocError>
        requires begun { self.old.begun ≡ [] }
        requires few { self.old.number + length text.now < 18446744073709551615 }
        ensures told { IfOk result (λ rest. (more : List ℕ) → told_with self.new (rest.now ++ more) ≡ told_with self.old (text.now ++ more)) }
        ensures begun { self.new.begun ≡ [] }
        ensures few { IfOk result (λ rest. self.new.number + length rest.now ≤ self.old.number + length text.now) }
        ensures less { IfOk result (λ rest. length rest.now ≤ length text.now) }
    {
        if self.found.is_some() {
            return Ok(text);
        }
        match take_usual(alloc, self.live, &mut self.reading, text, self.number) {
            Ok((rest, number)) => {
                self.number = number;
                Ok(rest)
            }
            Err(ScriptFault::Bad(bad)) => {
                self.found = Some(bad);
                Ok(text)
            }
            Err(ScriptFault::Memory) => Err(AllocError),
        }
    }

    /// Reads the whole lines of this text, and answers the line that it leaves open.
    fn read_lines<'a>(&mut self, alloc: Global, text: &'a [u8]) -> Result<&'a [u8], AllocError>
        requires begun { self.old.begun ≡ [] }
        requires few { self.old.number + length text.now < 18446744073709551615 }
        ensures told { IfOk result (λ rest. (more : List ℕ) → told_with self.new (rest.now ++ more) ≡ told_with self.old (text.now ++ more)) }
        ensures begun { self.new.begun ≡ [] }
        ensures inside { IfOk result (λ rest. IsUnended rest.now) }
        ensures few { IfOk result (λ rest. self.new.number + length rest.now ≤ self.old.number + length text.now) }
    {
        let mut fields = Vec::new(alloc);
        let mut rest = self.read_usual(alloc, text)?;
        while let Some((line, after)) = whole_line(rest) {
            self.read_line(alloc, line, &mut fields)?;
            rest = self.read_usual(alloc, after)?;
        }
        Ok(rest)
    }

    /// The line that has begun goes on with these bytes.
    fn begin(&mut self, bytes: &[u8]) -> Result<(), AllocError>
        requires { IsUnended bytes.now }
        ensures told { IfOk result (λ _. (more : List ℕ) → told_with self.new more ≡ told_with self.old (bytes.now ++ more)) }
        ensures number { self.new.number ≡ self.old.number }
        ensures begun { length self.new.begun ≤ length self.old.begun + length bytes.now }
    {
        if self.found.is_none() {
            self.begun.extend_from_slice(bytes)?;
        }
        Ok(())
    }

    /// The line that has begun ends with these bytes.
    #[tactic(auto, using(crate::proofs::Continuing::line_ended))]
    fn end(&mut self, alloc: Global, bytes: &[u8]) -> Result<(), AllocError>
        requires inside { IsUnended bytes.now }
        requires number { self.old.number < 18446744073709551615 }
        ensures told { IfOk result (λ _. (more : List ℕ) → told_with self.new more ≡ told_with self.old (bytes.now ++ 10 ∷ more)) }
        ensures number { self.new.number ≤ self.old.number + 1 }
        ensures begun { self.new.begun ≡ [] }
    {
        let mut line = mem::replace(&mut self.begun, Vec::new(alloc));
        line.extend_from_slice(bytes)?;
        self.read_line(alloc, line.as_slice(), &mut Vec::new(alloc))
    }

    /// Reads the next piece: its whole lines, with the line that has begun. It fails only when out of memory.
    pub fn take(&mut self, alloc: Global, piece: &[u8]) -> Result<(), AllocError>
        requires few { self.old.number + length self.old.begun + length piece.now < 18446744073709551615 }
        ensures told { IfOk result (λ _. (more : List ℕ) → told_with self.new more ≡ told_with self.old (piece.now ++ more)) }
        ensures few { IfOk result (λ _. self.new.number + length self.new.begun
            ≤ self.old.number + length self.old.begun + length piece.now) }
    {
        let mut rest = piece;
        if !self.begun.is_empty() {
            let Some((end, after)) = whole_line(piece) else {
                return self.begin(piece);
            };
            self.end(alloc, end)?;
            rest = after;
        }
        let begun = self.read_lines(alloc, rest)?;
        self.begin(begun)
    }

    /// The text has ended: the line that has begun, if it isn't empty, is its last.
    fn close(&mut self, alloc: Global) -> Result<(), AllocError>
        requires number { self.old.number < 18446744073709551615 }
        ensures { IfOk result (λ _. told_from self.new [] ≡ told_with self.old []) }
    {
        if self.begun.is_empty() {
            Ok(())
        } else {
            self.end(alloc, &[])
        }
    }

    /// The text has ended: the script that it spells, or its first faulty line with that line's first fault.
    pub fn finish(self, alloc: Global) -> Result<Script, ScriptFault>
        requires number { self.number < 18446744073709551615 }
        ensures script { GivesScript result (told_with self []) }
        ensures sound { IfOk result IsScript }
    {
        let mut reader = self;
        if reader.close(alloc).is_err() {
            return Err(ScriptFault::Memory);
        }
        let Reader {
            reading,
            number,
            found,
            ..
        } = reader;
        match found {
            Some(bad) => Err(ScriptFault::Bad(bad)),
            None => reading.finish(alloc, number),
        }
    }
}

/// Reads a packet file: the script that it spells, or its first faulty line with that line's first fault.
///
/// In a `live` script the lines `rx` and `tick` may not stand, since packets and ticks come from outside.
pub fn read(alloc: Global, bytes: &[u8], live: bool) -> Result<Script, ScriptFault>
    ensures script { GivesScript result (script_of live bytes.now) }
    ensures sound { IfOk result IsScript }
{
    let mut reader = Reader::new(alloc, live);
    match reader.take(alloc, bytes) {
        Ok(()) => reader.finish(alloc),
        Err(_) => Err(ScriptFault::Memory),
    }
}
