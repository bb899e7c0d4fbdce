//! What is kept from line to line.
ghost use Rattle.std.specs.Prelude.{◌≡◌, Err, IfOk, IsTrue, MatchResult, false};
ghost use Rattle.bfd_session.specs.Kinds.{discr_of};
ghost use Rattle.bfd_session.specs.Step.{IsFit};
ghost use Rattle.bfd_script.specs.Gives.{Gives, GivesScript};
ghost use Rattle.bfd_script.specs.Reading as reading;
ghost use Rattle.bfd_script.specs.Reading.{admitted, text_ended, is_full, is_taken, start, with_config, with_event, with_key, with_keys};
ghost use Rattle.bfd_script.specs.Reading.{with_reflector};
ghost use Rattle.bfd_script.specs.Rows.{has_place};
ghost use Rattle.bfd_script.specs.Ranges.{IsChain, IsEntry, IsEvent, IsKey, IsReflector, IsRow};
ghost use Rattle.bfd_script.specs.Sound.{IsScript};

use crate::fields::{BadLine, LineFault, ReadFault, ScriptFault};
use crate::line::{Entry, Line, Place, Version};
use crate::pool::Pool;
use crate::script::Script;
use crate::table::Table;
use bfd_packet::{Key, Keys};
use bfd_sbfd::Reflector;
use bfd_session::SessionConfig;
use std::alloc::{AllocError, Global};
use std::marker::Model;
use std::mem;

/// The most table rows of a script.
const MOST_ROWS: usize = 65_536;

/// The most event lines of a script.
const MOST_EVENTS: usize = 200_000;

/// What is kept from line to line. Contracts see it as the record `State`.
#[derive(Drop)]
pub(crate) struct Reading {
    version: Version,
    place: Place,
    table: Table,
    pool: Pool,
    events: Vec<Line>,
}

impl Model for Reading {
    ghost use Rattle.bfd_script.specs.Reading.{State};
    ghost use Rattle.bfd_script.specs.Tables.{IsReading};

    ghost Value = { State };

    ghost view = { λ r. record {
      version = r.version;
      place = r.place;
      configs = r.table;
      pool = r.pool;
      events = r.events.items;
    } };

    ghost invariant = { λ r. IsReading r.table r.pool r.events.items };
}

/// Whether the session that the event names is in the table.
fn is_named(line: &Line, table: &Table) -> bool
    ensures { result ≡ reading.is_named line.now table.now }
{
    match line {
        Line::Rx { .. } | Line::Tick(_) => true,
        Line::Cmd {
            moment: _,
            discr,
            cmd: _,
        } => table.has_discr(*discr),
        Line::Show { moment: _, discr } => table.has_discr(*discr),
    }
}

impl Reading {
    /// Before the first line.
    pub(crate) fn new(alloc: Global) -> Self
        ensures { result ≡ start }
    {
        Reading {
            version: Version::One,
            place: Place::Version,
            table: Table::new(alloc),
            pool: Pool::new(alloc),
            events: Vec::new(alloc),
        }
    }

    /// The version of the text; before its first line version 1.
    pub(crate) fn version(&self) -> Version
        ensures { result ≡ self.now.version }
    {
        self.version
    }

    /// What may come next.
    pub(crate) fn place(&self) -> Place
        ensures { result ≡ self.now.place }
    {
        self.place
    }

    /// Whether a session or a reflector has this discriminator.
    fn is_taken(&self, discr: u32) -> bool
        ensures { result ≡ is_taken discr self.now }
    {
        self.table.has_discr(discr) || self.pool.has_discr(discr)
    }

    /// Whether the table has as many rows as it may have.
    fn is_full(&self) -> bool
        ensures { result ≡ is_full self.now }
    {
        self.table.len() + self.pool.len() >= MOST_ROWS
    }

    /// Whether a session comes behind all others, so that it is new, and there is room.
    fn is_next(&self, config: &SessionConfig) -> bool
        ensures discr { IsTrue result → is_taken (discr_of config.now) self.now ≡ false }
        ensures place { IsTrue result → has_place config.now self.now.configs ≡ false }
        ensures room { IsTrue result → is_full self.now ≡ false }
    {
        self.pool.len() == 0 && self.table.len() < MOST_ROWS && self.table.is_next(config)
    }

    /// Refuses a session whose discriminator or selecting addresses are present, and any where there are 65,536 rows.
    #[inline(never)]
    fn test_all(&self, config: &SessionConfig) -> Result<(), LineFault>
        ensures { MatchResult result
            (λ _. (is_taken (discr_of config.now) self.now ≡ false) × ((has_place config.now self.now.configs ≡ false)
            × (is_full self.now ≡ false)))
            (λ fault. with_config config.now self.now ≡ Err fault) }
    {
        if self.is_taken(config.discr()) {
            return Err(LineFault::SameDiscr);
        }
        if self.table.has_place(config) {
            return Err(LineFault::SameAddresses);
        }
        if self.is_full() {
            return Err(LineFault::TooMany);
        }
        Ok(())
    }

    /// The same. Most sessions come behind all others, and need no other test.
    fn test_row(&self, config: &SessionConfig) -> Result<(), LineFault>
        ensures { MatchResult result
            (λ _. (is_taken (discr_of config.now) self.now ≡ false) × ((has_place config.now self.now.configs ≡ false)
            × (is_full self.now ≡ false)))
            (λ fault. with_config config.now self.now ≡ Err fault) }
    {
        if self.is_next(config) {
            return Ok(());
        }
        self.test_all(config)
    }

    /// One more session: refused where its discriminator or its selecting addresses are present, and where there are 65,536
    /// rows. Nothing else is moved.
    pub(crate) fn add_row(&mut self, alloc: Global, config: SessionConfig) -> Result<(), ReadFault>
        requires fit { IsFit config }
        requires row { IsRow config }
        ensures { Gives (λ _. self.new) result (with_config config self.old) }
    {
        self.test_row(&config)?;
        match self.table.add(alloc, config) {
            Ok(()) => Ok(()),
            Err(_) => {
                self.events = Vec::new(alloc);
                Err(ReadFault::Memory)
            }
        }
    }

    /// One more reflector: refused where its discriminator is present, and where there are 65,536 rows.
    fn with_reflector(self, reflector: Reflector) -> Result<Reading, ReadFault>
        requires { IsReflector reflector }
        ensures { Gives (λ s. s) result (with_reflector reflector self) }
    {
        if self.is_taken(reflector.discr) {
            return Err(ReadFault::Fault(LineFault::SameDiscr));
        }
        if self.is_full() {
            return Err(ReadFault::Fault(LineFault::TooMany));
        }
        let pool = self.pool.with(reflector)?;
        Ok(Reading { pool, ..self })
    }

    /// Keys for a session: refused where it has some, and where it isn't a point-to-point one of the table.
    fn with_keys(self, discr: u32, keys: Keys) -> Result<Reading, ReadFault>
        requires { IsChain keys }
        ensures { Gives (λ s. s) result (with_keys discr keys self) }
    {
        if self.table.has_keys(discr) {
            return Err(ReadFault::Fault(LineFault::SameDiscr));
        }
        if !self.table.has_point(discr) {
            return Err(ReadFault::Fault(LineFault::NoSuchSession));
        }
        let table = self.table.with_keys(discr, keys);
        Ok(Reading { table, ..self })
    }

    /// One more key for a session: refused where the session's type has no room for its secret, where the session has no
    /// keys, where it has one of this number, and where it has four.
    fn with_key(self, discr: u32, key: Key) -> Result<Reading, ReadFault>
        requires { IsKey key }
        ensures { Gives (λ s. s) result (with_key discr key self) }
    {
        if let Some(fault) = self.table.key_fault(discr, &key) {
            return Err(ReadFault::Fault(fault));
        }
        let table = self.table.with_key(discr, key);
        Ok(Reading { table, ..self })
    }

    /// One more event line: refused where the session that it names isn't present, and where there are 200,000.
    pub(crate) fn push(&mut self, line: Line) -> Result<(), ReadFault>
        requires { IsEvent line }
        ensures { Gives (λ _. self.new) result (with_event line self.old) }
    {
        if !is_named(&line, &self.table) {
            return Err(ReadFault::Fault(LineFault::NoSuchSession));
        }
        if self.events.len() >= MOST_EVENTS {
            return Err(ReadFault::Fault(LineFault::TooMany));
        }
        self.events.reserve(1)?;
        self.events.push_reserved(line);
        Ok(())
    }

    /// The state after a line that says this, or the fault that it has because of the lines before it.
    fn with(self, alloc: Global, entry: Entry) -> Result<Reading, ReadFault>
        requires { IsEntry entry }
        ensures { Gives (λ s. s) result (admitted entry self) }
    {
        match entry {
            Entry::Version(version) => Ok(self.begun(version)),
            Entry::Row(config) => {
                let mut next = self;
                next.add_row(alloc, config)?;
                Ok(next)
            }
            Entry::Reflect(reflector) => self.with_reflector(reflector),
            Entry::Auth { discr, keys } => self.with_keys(discr, keys),
            Entry::Key { discr, key } => self.with_key(discr, key),
            Entry::Run => Ok(self.at(Place::Events)),
            Entry::Event(line) => {
                let mut next = self;
                next.push(line)?;
                Ok(next)
            }
            Entry::End => Ok(self.at(Place::Over)),
        }
    }

    /// Accepts a line that says this, or answers the fault that it has because of the lines before it. An event and a session, which
    /// most lines are, go to their places without the state being moved.
    pub(crate) fn accept(&mut self, alloc: Global, entry: Entry) -> Result<(), ReadFault>
        requires { IsEntry entry }
        ensures { Gives (λ _. self.new) result (admitted entry self.old) }
    {
        match entry {
            Entry::Event(line) => self.push(line),
            Entry::Row(config) => self.add_row(alloc, config),
            other => self.renew(alloc, other),
        }
    }

    /// The same of any line, with the state moved out and in again.
    fn renew(&mut self, alloc: Global, entry: Entry) -> Result<(), ReadFault>
        requires { IsEntry entry }
        ensures { Gives (λ _. self.new) result (admitted entry self.old) }
    {
        let before = mem::replace(self, Reading::new(alloc));
        *self = before.with(alloc, entry)?;
        Ok(())
    }

    /// The table may come, in this version.
    fn begun(self, version: Version) -> Reading
        ensures { result ≡ record self { version = version; place = Place.Table } }
    {
        Reading {
            version,
            place: Place::Table,
            ..self
        }
    }

    /// The same lines, and another place.
    fn at(self, place: Place) -> Reading
        ensures { result ≡ record self { place = place } }
    {
        Reading { place, ..self }
    }

    /// The script of all lines.
    fn into_script(self, alloc: Global) -> Result<Script, AllocError>
        ensures script { IfOk result (λ script. script
            ≡ record { configs = self.configs; pool = self.pool; events = self.events }) }
        ensures sound { IfOk result IsScript }
    {
        let configs = self.table.into_rows(alloc)?;
        let pool = self.pool.into_rows(alloc)?;
        Ok(Script {
            configs,
            pool,
            events: self.events,
        })
    }

    /// The script, where the text ended after `end`; `number` is that of the line that would come next.
    pub(crate) fn finish(self, alloc: Global, number: u64) -> Result<Script, ScriptFault>
        ensures script { GivesScript result (text_ended number self) }
        ensures sound { IfOk result IsScript }
    {
        match self.place {
            Place::Over => self.into_script(alloc).map_err(|_| ScriptFault::Memory),
            _ => Err(ScriptFault::Bad(BadLine {
                line: number,
                fault: LineFault::MissingEnd,
            })),
        }
    }
}
