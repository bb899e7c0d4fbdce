//! The sessions and reflectors of an engine: whom an arrival is for, and where a session stands.
ghost use Rattle.std.specs.Prelude.{◌≡◌, ◌<◌, ◌≤◌, ◌+◌, ◌==◌, ◌⊎◌, ℕ, None, Some, IfOk, OnOk, IfSome, MatchOption, MatchResult};
ghost use Rattle.std.specs.Prelude.{if◌then◌else◌, is_ok, length, map, position};
ghost use Rattle.std.specs.List.{insert, list_any, remove};
ghost use Rattle.bfd_demux.specs.Rows.{add_fault, build_fault};
ghost use Rattle.bfd_packet.specs.Layout.{fields_of};
ghost use Rattle.bfd_sbfd.specs.Reflect as reflecting;
ghost use Rattle.bfd_session.specs.Arrivals as arrivals;
ghost use Rattle.bfd_session.specs.Changes.{place_for, pool_place_for, with_session, without_session, with_pooled, without_pooled};
ghost use Rattle.bfd_session.specs.Kinds.{discr_of};
ghost use Rattle.bfd_session.specs.Reaching.{IsNamed, IsTaken, Reaches, sent_as};
ghost use Rattle.bfd_session.specs.Rows as rows;
ghost use Rattle.bfd_session.specs.Rows.{Ascends};
ghost use Rattle.bfd_session.specs.Step.{CanTake};
ghost use Rattle.bfd_session.specs.Tables.{IsSorted, members};
ghost use Rattle.bfd_session.specs.declared.event.Event.{Event as EventIn};
ghost use Rattle.bfd_session.specs.declared.event.SessionConfig.{SessionConfig as ConfigIn};
ghost use Rattle.bfd_demux.specs.Selection.{first_header_failing, first_table_failing, target_of};
ghost use Rattle.std.specs.Result.{result_err};
ghost use Rattle.bfd_num.specs.Counting.{IsBlankOf};

use crate::{SessionConfig, row_of, row_of_reflector, table_of};
use bfd_demux::{AddFault, BuildFault, Demux, Target};
use bfd_ghost::GhostList;
use bfd_num::Steps;
use bfd_packet::{Arrival, Test};
use bfd_rules::Out;
use bfd_sbfd::{Reflector, reflect};
use std::alloc::{AllocError, Global};
use std::marker::{Brand, Model};
use std::sync::ledger::{Blank, Ledger};

/// The discriminators of sessions, by place. Contracts see the sessions' configurations, which themselves may stand elsewhere.
#[derive(Drop)]
pub struct Roster {
    discrs: Vec<u32>,
    // For clauses alone.
    configs: GhostList<SessionConfig>,
}

impl Model for Roster {
    ghost use Rattle.std.specs.Prelude.{◌≡◌, List, map};
    ghost use Rattle.bfd_session.specs.Kinds.{discr_of};
    ghost use Rattle.bfd_session.specs.declared.event.SessionConfig.{SessionConfig};

    ghost Value = { List SessionConfig };

    ghost view = { λ p. p.configs.items };

    ghost invariant = { λ p. p.discrs.items ≡ map discr_of p.configs.items };
}

impl Roster {
    /// The roster of these sessions. Fails only when out of memory.
    pub fn of(alloc: Global, configs: &Vec<SessionConfig>) -> Result<Roster, AllocError>
        ensures { IfOk result (λ roster. roster ≡ configs.now.items) }
    {
        let discrs = configs.iter().map(|config| config.discr()).collect(alloc)?;
        Ok(Roster {
            discrs,
            configs: GhostList::of(configs),
        })
    }

    /// The place of the session with this discriminator, by a binary search.
    fn place_of(&self, discr: u32) -> Option<u32>
        requires ascends { Ascends self.now }
        requires few { length self.now ≤ 65536 }
        ensures { result ≡ rows.place_of discr self.now }
    {
        match self.discrs.binary_search(&discr) {
            Ok(place) => Some(place as u32),
            Err(_) => None,
        }
    }

    // How many sessions there are.
    fn len(&self) -> usize
        ensures { result ≡ length self.now }
    {
        self.discrs.len()
    }

    // Where a session with this discriminator stands, or would stand.
    fn place_for(&self, discr: u32) -> usize
        requires { Ascends self.now }
        ensures value { result ≡ place_for discr self.now }
        ensures within { result ≤ length self.now }
    {
        self.discrs.partition_point(|other| *other < discr)
    }

    // Adds a session at this place. Fails only when out of memory, and changes nothing then.
    fn insert(&mut self, place: usize, config: &SessionConfig) -> Result<(), AllocError>
        requires { place ≤ length self.old }
        ensures { self.new ≡ (if is_ok result then insert self.old place config.now else self.old) }
    {
        match self.discrs.insert(place, config.discr()) {
            Ok(()) => {
                self.configs = self.configs.inserted(&place, config);
                Ok(())
            }
            Err(_) => Err(AllocError),
        }
    }

    // Removes the session at this place.
    fn remove(&mut self, place: usize)
        requires { place < length self.old }
        ensures { self.new ≡ remove self.old place }
    {
        self.discrs.remove(place);
        self.configs = self.configs.removed(&place);
    }
}

// Where the reflector with this discriminator stands in the pool.
fn pool_position(pool: &[Reflector], discr: u32) -> Option<usize>
    ensures { result ≡ position (λ reflector. reflector.discr == discr) pool.now }
{
    pool.iter().position(|reflector| reflector.discr == discr)
}

// Where a reflector with this discriminator stands in the pool, or would stand.
fn pool_place_for(pool: &[Reflector], discr: u32) -> usize
    requires { reflecting.Ascends pool.now }
    ensures value { result ≡ pool_place_for discr pool.now }
    ensures within { result ≤ length pool.now }
{
    pool.partition_point(|other| other.discr < discr)
}

/// Sessions and reflectors, each by ascending discriminator: by which an arrival is selected, and a session found by its
/// discriminator. Contracts see the sessions' configurations and the reflectors.
#[derive(Drop)]
pub struct Table {
    demux: Demux,
    roster: Roster,
    pool: Vec<Reflector>,
}

impl Model for Table {
    ghost use Rattle.bfd_session.specs.Tables.{Members, IsTableOf, members};

    ghost Value = { Members };

    ghost view = { λ t. members t.roster t.pool.items };

    ghost invariant = { λ t. IsTableOf t.roster t.pool.items t.demux };
}

impl Table {
    /// The table of these sessions and reflectors, each in ascending order of discriminator; or what is wrong with their rows, the
    /// sessions' before the reflectors', as `Demux::build` says it. Memory comes only when out of memory.
    pub fn build(
        alloc: Global,
        configs: &Vec<SessionConfig>,
        pool: Vec<Reflector>,
    ) -> Result<Table, BuildFault>
        requires { IsSorted configs.now.items pool.items }
        ensures { MatchResult result (λ table. (table ≡ members configs.now.items pool.items)
            × (build_fault (rows.table_of configs.now.items pool.items) ≡ None))
            (λ fault. (fault ≡ BuildFault.Memory) ⊎ (build_fault (rows.table_of configs.now.items pool.items) ≡ Some fault)) }
    {
        let Ok(list) = table_of(alloc, configs, &pool) else {
            return Err(BuildFault::Memory);
        };
        let demux = Demux::build(alloc, &list)?;
        match Roster::of(alloc, configs) {
            Ok(roster) => Ok(Table::of(demux, roster, pool)),
            Err(_) => Err(BuildFault::Memory),
        }
    }

    /// The same table, of its rows' table and its sessions' roster, which may have been made in parallel.
    pub fn of(demux: Demux, roster: Roster, pool: Vec<Reflector>) -> Table
        requires rows { demux ≡ rows.table_of roster pool.items }
        requires ascends { Ascends roster }
        requires climbs { reflecting.Ascends pool.items }
        requires few { length roster ≤ 65536 }
        ensures { result ≡ members roster pool.items }
    {
        Table {
            demux,
            roster,
            pool,
        }
    }

    /// The reflectors, by ascending discriminator. There are at most 65,536 sessions.
    pub fn pool(&self) -> &[Reflector]
        ensures value { result.now ≡ self.now.pool }
        ensures climbs { reflecting.Ascends self.now.pool }
        ensures few { length self.now.configs ≤ 65536 }
    {
        // proof: the read brings the invariant
        let _ = &self.roster;
        self.pool.as_slice()
    }

    /// What the arrival is for, or the first of its port's tests up to selection that it fails, as `Demux::screen` says: an own event of
    /// the session at a place, which accepts it, or a packet for the reflector at a place, which `reflected` answers. It allocates no
    /// memory. It takes at most 34 steps, each the look at one entry of a sorted table.
    pub fn screen<L: Ledger>(&self, arrival: &Arrival, steps: &mut Steps<L>) -> Result<Target, Test>
        ensures tests { result_err result ≡ first_table_failing (rows.table_of self.now.configs self.now.pool) arrival.now }
        ensures target { IfOk result (λ target. Some target
            ≡ target_of (rows.table_of self.now.configs self.now.pool) arrival.now) }
        ensures header { OnOk result (first_header_failing arrival.now ≡ None) }
        ensures coming { MatchResult result
            (λ target. arrivals.comes_to (rows.table_of self.now.configs self.now.pool) arrival.now
            ≡ arrivals.coming_to (Some target) arrival.now)
            (λ test. arrivals.comes_to (rows.table_of self.now.configs self.now.pool) arrival.now ≡ arrivals.Discarded test) }
        ensures reaches { IfOk result (λ target. Reaches self.now.configs self.now.pool arrival.now target) }
        ensures cost { steps.new ≤ steps.old + 34 }
    {
        self.demux.screen(arrival, steps)
    }

    /// The same, with a counter of steps of its own.
    pub fn screen_uncounted(&self, arrival: &Arrival) -> Result<Target, Test>
        ensures coming { MatchResult result
            (λ target. arrivals.comes_to (rows.table_of self.now.configs self.now.pool) arrival.now
            ≡ arrivals.coming_to (Some target) arrival.now)
            (λ test. arrivals.comes_to (rows.table_of self.now.configs self.now.pool) arrival.now ≡ arrivals.Discarded test) }
        ensures reaches { IfOk result (λ target. Reaches self.now.configs self.now.pool arrival.now target) }
    {
        screened::<Brand>(self, arrival, Blank::new(1))
    }

    /// What the reflector at this place, which the packet names, makes of it: an answer in its name, or the first of its port's tests
    /// that the packet fails, as `reflect` says (RFC 7880 section 7.2). It allocates no memory.
    #[inline(never)]
    pub fn reflected(&self, place: u32, arrival: &Arrival) -> Result<Out, Test>
        requires named { IsNamed self.now.pool place arrival.now }
        ensures { result ≡ sent_as (fields_of arrival.now.payload).your (reflecting.reflect self.now.pool arrival.now) }
    {
        let discr = self.pool[place as usize].discr;
        match reflect(&self.pool, arrival) {
            Ok(datagram) => Ok(Out::Sent { discr, datagram }),
            Err(test) => Err(test),
        }
    }

    /// The place of the session with this discriminator; a reflector's names no session. An event that every session accepts may be
    /// given to it.
    pub fn place_of(&self, discr: u32) -> Option<u32>
        ensures value { result ≡ rows.place_of discr self.now.configs }
        ensures taken { IfSome result (λ place. (event : EventIn) → ((c : ConfigIn) → CanTake c event)
            → IsTaken self.now.configs place event) }
    {
        self.roster.place_of(discr)
    }
}

impl Table {
    /// Adds a session, and says the place at which it then stands: each from there on stands one place later, and all else stays. It
    /// is refused, and nothing changes, by the first of these: 65,536 sessions and reflectors (TooMany), its discriminator 0
    /// (ZeroDiscr), a session or reflector that has it (SameDiscr; RFC 5880 section 6.8.1), a session with its selecting addresses
    /// (SameAddresses; RFC 5881 section 3, RFC 5883 section 4, RFC 8562 section 5.7). Memory comes only when out of memory. The time
    /// is linear in the sessions and reflectors.
    pub fn add(&mut self, config: &SessionConfig) -> Result<u32, AddFault>
        ensures table { self.new ≡ (if is_ok result then with_session config.now self.old else self.old) }
        ensures place { IfOk result (λ place. (place ≤ length self.old.configs)
            × (self.new.configs ≡ insert self.old.configs place config.now)) }
        ensures fault { MatchResult result
            (λ _. add_fault (rows.row_of config.now) (rows.table_of self.old.configs self.old.pool) ≡ None)
            (λ fault. ((fault ≡ AddFault.Memory)
            × (add_fault (rows.row_of config.now) (rows.table_of self.old.configs self.old.pool) ≡ None))
            ⊎ (add_fault (rows.row_of config.now) (rows.table_of self.old.configs self.old.pool) ≡ Some fault)) }
    {
        let place = self.roster.place_for(config.discr());
        self.demux.add(place, &row_of(config))?;
        match self.roster.insert(place, config) {
            Ok(()) => Ok(place as u32),
            Err(_) => {
                self.demux.remove(place, config.discr());
                Err(AddFault::Memory)
            }
        }
    }

    /// Removes the session with this discriminator, and says the place at which it stood: each after it stands one place earlier, and
    /// all else stays. None where no session has it. It allocates no memory. The time is linear in the sessions and reflectors.
    pub fn remove(&mut self, discr: u32) -> Option<u32>
        ensures value { result ≡ rows.place_of discr self.old.configs }
        ensures table { self.new ≡ without_session discr self.old }
        ensures place { MatchOption result (self.new ≡ self.old) (λ place. (place < length self.old.configs)
            × (self.new.configs ≡ remove self.old.configs place)) }
    {
        let place = self.roster.place_of(discr)?;
        self.demux.remove(place as usize, discr);
        self.roster.remove(place as usize);
        Some(place)
    }

    /// Adds a reflector, and leaves all else. It is refused as a session is, but for the addresses, which it has none of.
    pub fn add_reflector(&mut self, reflector: Reflector) -> Result<(), AddFault>
        ensures table { self.new ≡ (if is_ok result then with_pooled reflector self.old else self.old) }
        ensures fault { MatchResult result
            (λ _. add_fault (rows.row_of_reflector reflector) (rows.table_of self.old.configs self.old.pool) ≡ None)
            (λ fault. ((fault ≡ AddFault.Memory)
            × (add_fault (rows.row_of_reflector reflector) (rows.table_of self.old.configs self.old.pool) ≡ None))
            ⊎ (add_fault (rows.row_of_reflector reflector) (rows.table_of self.old.configs self.old.pool) ≡ Some fault)) }
    {
        let at = pool_place_for(&self.pool, reflector.discr);
        let place = self.roster.len() + at;
        self.demux.add(place, &row_of_reflector(&reflector))?;
        match self.pool.insert(at, reflector) {
            Ok(()) => Ok(()),
            Err(_) => {
                self.demux.remove(place, reflector.discr);
                Err(AddFault::Memory)
            }
        }
    }

    /// Removes the reflector with this discriminator, and leaves all else: whether there was one. It allocates no memory.
    pub fn remove_reflector(&mut self, discr: u32) -> bool
        ensures value { result ≡ list_any (λ reflector. reflector.discr == discr) self.old.pool }
        ensures table { self.new ≡ without_pooled discr self.old }
    {
        let Some(at) = pool_position(&self.pool, discr) else {
            return false;
        };
        self.demux.remove(self.roster.len() + at, discr);
        self.pool.remove(at);
        true
    }
}

// What an arrival is for, with this counter.
fn screened<L: Ledger>(table: &Table, arrival: &Arrival, blank: Blank) -> Result<Target, Test>
    requires blank { IsBlankOf L.name L.parts blank.name blank.parts }
    ensures coming { MatchResult result
        (λ target. arrivals.comes_to (rows.table_of table.now.configs table.now.pool) arrival.now
        ≡ arrivals.coming_to (Some target) arrival.now)
        (λ test. arrivals.comes_to (rows.table_of table.now.configs table.now.pool) arrival.now ≡ arrivals.Discarded test) }
    ensures reaches { IfOk result (λ target. Reaches table.now.configs table.now.pool arrival.now target) }
{
    table.screen(arrival, &mut Steps::<L>::new(blank))
}
