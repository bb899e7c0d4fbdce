//! The table of sessions: unique by discriminator and by selecting addresses.
ghost use Rattle.std.specs.Prelude.{◌≡◌, ◌||◌, ◌<◌, [], false, length, IfOk, IsTrue, None, OnErr, OnOk, Some, is_some};
ghost use Rattle.bfd_demux.specs.Rows.{same_selector};
ghost use Rattle.bfd_demux.specs.declared.row.RowKind.{RowKind as Kind};
ghost use Rattle.bfd_session.specs.Kinds.{discr_of};
ghost use Rattle.bfd_session.specs.Rows.{row_of};
ghost use Rattle.bfd_session.specs.Step.{IsFit};
ghost use Rattle.std.specs.BTreeMap.{insert_entry};
ghost use Rattle.std.specs.Map.{values_of};
ghost use Rattle.std.specs.Ordering.{nat_cmp};
ghost use Rattle.std.specs.Option.{option_copied};
ghost use Rattle.bfd_script.specs.Rows.{given, given_more, has_discr, has_keys, has_point, has_place, inserted, is_point, keys_in, keys_of};
ghost use Rattle.bfd_script.specs.Secrets.{key_fault};
ghost use Rattle.bfd_script.specs.Ranges.{IsChain, IsKey, IsRow};
ghost use Rattle.bfd_script.specs.Sound.{AreConfigs};
ghost use Rattle.bfd_script.specs.Tables.{among};

use crate::fields::LineFault;
use crate::line::key_fault;
use crate::places::Places;
use crate::rows::Rows;
use bfd_demux::RowKind;
use bfd_packet::{Key, Keys};
use bfd_session::{SessionConfig, row_of};
use std::alloc::{AllocError, Global};
use std::marker::Model;

/// Sessions. Contracts see the list of them, ascending by discriminator.
#[derive(Drop)]
pub(crate) struct Table {
    rows: Rows,
    places: Places,
}

impl Model for Table {
    ghost use Rattle.std.specs.Prelude.{List};
    ghost use Rattle.std.specs.Map.{values_of};
    ghost use Rattle.bfd_session.specs.declared.event.SessionConfig.{SessionConfig};
    ghost use Rattle.bfd_script.specs.Tables.{IsIndexed, among};

    ghost Value = { List SessionConfig };

    ghost view = { λ t. values_of t.rows };

    ghost invariant = { λ t. IsIndexed t.rows (among t.places) };
}

/// The keys of a session.
pub fn keys_in(config: &SessionConfig) -> Option<&Keys>
    ensures { option_copied result ≡ keys_in (Some config.now) }
{
    match config {
        SessionConfig::PointToPoint(pair) => pair.keys.as_ref(),
        _ => None,
    }
}

/// Whether the session may have keys: a point-to-point one alone may.
fn may_have_keys(config: &SessionConfig) -> bool
    ensures { result ≡ is_point (Some config.now) }
{
    matches!(config, SessionConfig::PointToPoint(_))
}

/// The addresses of one more session, where it has some: a session without addresses is like no other.
#[tactic(auto, using(crate::proofs::Inserting::unnoted))]
fn note(places: &mut Places, alloc: Global, kind: RowKind) -> Result<(), AllocError>
    ensures { OnOk result ((q : Kind) → among places.new q ≡ (same_selector q kind || among places.old q)) }
{
    if !kind.has_addresses() {
        return Ok(());
    }
    places.add(alloc, kind)
}

/// One more session, whose discriminator is new, in both indices.
fn put(
    rows: &mut Rows,
    places: &mut Places,
    alloc: Global,
    config: SessionConfig,
) -> Result<(), AllocError>
    requires discr { has_discr (discr_of config) (values_of rows.old) ≡ false }
    requires room { length rows.old < 65536 }
    ensures rows { OnOk result (rows.new ≡ insert_entry nat_cmp rows.old (discr_of config) config) }
    ensures places { OnOk result ((q : Kind) → among places.new q
        ≡ (same_selector q (row_of config).kind || among places.old q)) }
{
    note(places, alloc, row_of(&config).kind)?;
    rows.add(alloc, config)
}

impl Table {
    /// A table without sessions.
    pub(crate) fn new(alloc: Global) -> Table
        ensures { result ≡ [] }
    {
        Table {
            rows: Rows::new(alloc),
            places: Places::new(alloc),
        }
    }

    /// How many sessions there are.
    pub(crate) fn len(&self) -> usize
        ensures { result ≡ length self.now }
    {
        self.rows.len()
    }

    /// Whether a session has this discriminator.
    #[tactic(auto, using(crate::proofs::Inserting::known_at))]
    pub(crate) fn has_discr(&self, discr: u32) -> bool
        ensures { result ≡ has_discr discr self.now }
    {
        self.rows.has(discr)
    }

    /// Whether the session of this discriminator is present and may have keys.
    #[tactic(auto, using(crate::proofs::Giving::found_at))]
    pub(crate) fn has_point(&self, discr: u32) -> bool
        ensures { result ≡ has_point discr self.now }
    {
        match self.rows.get(discr) {
            Some(config) => may_have_keys(config),
            None => false,
        }
    }

    /// Whether the session of this discriminator has keys.
    #[tactic(auto, using(crate::proofs::Giving::found_at))]
    pub(crate) fn has_keys(&self, discr: u32) -> bool
        ensures { result ≡ has_keys discr self.now }
    {
        match self.rows.get(discr) {
            Some(config) => keys_in(config).is_some(),
            None => false,
        }
    }

    /// What is wrong with one more key for the session of this discriminator.
    #[tactic(auto, using(crate::proofs::Giving::found_at))]
    pub(crate) fn key_fault(&self, discr: u32, key: &Key) -> Option<LineFault>
        ensures { result ≡ key_fault (keys_of discr self.now) key.now }
    {
        match self.rows.get(discr) {
            Some(config) => key_fault(keys_in(config), key),
            None => key_fault(None, key),
        }
    }

    /// Whether a session has the selecting addresses of this one.
    pub(crate) fn has_place(&self, config: &SessionConfig) -> bool
        ensures { result ≡ has_place config.now self.now }
    {
        self.places.has(row_of(config).kind)
    }

    /// Whether a session comes behind all others, by its discriminator and by its selecting addresses, so that both are new.
    pub(crate) fn is_next(&self, config: &SessionConfig) -> bool
        ensures discr { IsTrue result → has_discr (discr_of config.now) self.now ≡ false }
        ensures place { IsTrue result → has_place config.now self.now ≡ false }
    {
        self.rows.is_next(config.discr()) && self.places.is_next(&row_of(config).kind)
    }

    /// One more session, whose discriminator and selecting addresses are new. Fails only when out of memory, and is empty then.
    pub(crate) fn add(&mut self, alloc: Global, config: SessionConfig) -> Result<(), AllocError>
        requires discr { has_discr (discr_of config) self.old ≡ false }
        requires place { has_place config self.old ≡ false }
        requires room { length self.old < 65536 }
        requires fit { IsFit config }
        requires row { IsRow config }
        ensures added { OnOk result (self.new ≡ inserted config self.old) }
        ensures empty { OnErr result (self.new ≡ []) }
    {
        match put(&mut self.rows, &mut self.places, alloc, config) {
            Ok(()) => Ok(()),
            Err(error) => {
                self.rows = Rows::new(alloc);
                self.places = Places::new(alloc);
                Err(error)
            }
        }
    }

    /// The session of this discriminator gets these keys; its selecting addresses stay.
    pub(crate) fn with_keys(self, discr: u32, keys: Keys) -> Table
        requires { IsChain keys }
        ensures { result ≡ given discr keys self }
    {
        let Table { mut rows, places } = self;
        rows.give(discr, keys);
        Table { rows, places }
    }

    /// The session of this discriminator gets one more key, which it has room for.
    pub(crate) fn with_key(self, discr: u32, key: Key) -> Table
        requires key { IsKey key }
        requires room { key_fault (keys_of discr self) key ≡ None }
        ensures { result ≡ given_more discr key self }
    {
        let Table { mut rows, places } = self;
        rows.give_more(discr, key);
        Table { rows, places }
    }

    /// The sessions, ascending by discriminator.
    pub(crate) fn into_rows(self, alloc: Global) -> Result<Vec<SessionConfig>, AllocError>
        ensures rows { IfOk result (λ rows. rows.items ≡ self) }
        ensures sound { AreConfigs self }
    {
        self.rows.into_rows(alloc)
    }
}
