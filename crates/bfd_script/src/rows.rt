//! Sessions by discriminator.
ghost use Rattle.std.specs.Prelude.{◌≡◌, ◌++◌, ◌<◌, [], None, Option, Some, IfOk, IfSome, IsTrue, OnOk, false, is_some, length};
ghost use Rattle.std.specs.BTreeMap.{insert_entry, is_at};
ghost use Rattle.std.specs.List.{AllByRecursion};
ghost use Rattle.std.specs.Map.{lookup, values_of};
ghost use Rattle.std.specs.Option.{option_copied};
ghost use Rattle.std.specs.Ordering.{nat_cmp};
ghost use Rattle.bfd_session.specs.Kinds.{discr_of};
ghost use Rattle.bfd_session.specs.Rows.{Ascends, place_of as place_in};
ghost use Rattle.bfd_script.specs.Rows.{by_discr, given, given_more, has_discr, keyed_more, keyed_with, keys_in, keys_of, one_more};
ghost use Rattle.bfd_script.specs.Secrets.{key_fault};
ghost use Rattle.bfd_script.specs.Tables.{AreRows};

use bfd_packet::{Key, Keys};
use bfd_session::SessionConfig;
use std::alloc::{AllocError, Global};
use std::collections::BTreeMap;
use std::marker::Model;
use std::mem;

/// Sessions by discriminator. They mostly come in the order of their discriminators: those that did stand as they came, each of
/// them below each of the others. One that comes out of order puts all into a map. Contracts see the entries, ascending.
#[derive(Drop)]
pub(crate) struct Rows {
    rising: Vec<SessionConfig>,
    others: BTreeMap<u32, SessionConfig>,
}

impl Model for Rows {
    ghost use Rattle.std.specs.Prelude.{List, ℕ, ◌++◌};
    ghost use Rattle.bfd_session.specs.declared.event.SessionConfig.{SessionConfig};
    ghost use Rattle.bfd_script.specs.Rows.{by_discr};
    ghost use Rattle.bfd_script.specs.Tables.{AreRows};

    ghost Value = { List (ℕ × SessionConfig) };

    ghost view = { λ r. by_discr r.rising.items ++ r.others.entries };

    ghost invariant = { λ r. AreRows r.rising.items r.others.entries };
}

/// Whether all of these sessions, which ascend, are below this discriminator.
fn are_below(rows: &[SessionConfig], discr: u32) -> bool
    requires { Ascends rows.now }
    ensures { IsTrue result → AllByRecursion (λ row. discr_of row < discr) rows.now }
{
    match rows.last() {
        Some(last) => last.discr() < discr,
        None => true,
    }
}

/// The place of the session with this discriminator, by a binary search. For one above all others one comparison does.
fn place_of(rows: &[SessionConfig], discr: u32) -> Option<usize>
    requires ascends { Ascends rows.now }
    ensures value { result ≡ place_in discr rows.now }
    ensures within { IfSome result (λ place. place < length rows.now) }
{
    if are_below(rows, discr) {
        return None;
    }
    rows.binary_search_by_key(&discr, |config| config.discr())
        .ok()
}

/// A session gets these keys, where it may have some.
fn set_keys(config: &mut SessionConfig, keys: Keys)
    ensures { config.new ≡ keyed_with keys config.old }
{
    if let SessionConfig::PointToPoint(pair) = config {
        pair.keys = Some(keys);
    }
}

/// One more key behind these, where there are some with room for it.
fn add_to(keys: &mut Option<Keys>, key: Key)
    requires { key_fault keys.old key ≡ None }
    ensures { keys.new ≡ one_more key keys.old }
{
    if let Some(keys) = keys {
        keys.add(key);
    }
}

/// A session gets one more key, where it has some with room for it.
fn add_key(config: &mut SessionConfig, key: Key)
    requires { key_fault (keys_in (Some config.old)) key ≡ None }
    ensures { config.new ≡ keyed_more key config.old }
{
    if let SessionConfig::PointToPoint(pair) = config {
        add_to(&mut pair.keys, key);
    }
}

/// The session of this discriminator gets these keys.
fn give(rows: &mut BTreeMap<u32, SessionConfig>, discr: u32, keys: Keys)
    requires { rows.old.entries ≡ by_discr (values_of rows.old.entries) }
    ensures { rows.new.entries ≡ by_discr (given discr keys (values_of rows.old.entries)) }
{
    let Some(config) = rows.get_mut(&discr) else {
        return;
    };
    set_keys(config, keys);
}

/// The session of this discriminator gets one more key, where it has some with room for it.
fn give_more(rows: &mut BTreeMap<u32, SessionConfig>, discr: u32, key: Key)
    requires entries { rows.old.entries ≡ by_discr (values_of rows.old.entries) }
    requires room { key_fault (keys_of discr (values_of rows.old.entries)) key ≡ None }
    ensures { rows.new.entries ≡ by_discr (given_more discr key (values_of rows.old.entries)) }
{
    let Some(config) = rows.get_mut(&discr) else {
        return;
    };
    add_key(config, key);
}

/// The map with these sessions besides, which ascend and are below all of it. None of them is left.
fn with_all(
    rising: &mut Vec<SessionConfig>,
    others: BTreeMap<u32, SessionConfig>,
) -> Result<BTreeMap<u32, SessionConfig>, AllocError>
    requires { AreRows rising.old.items others.entries }
    ensures entries { IfOk result (λ all. all.entries ≡ by_discr rising.old.items ++ others.entries) }
    ensures none { IfOk result (λ all. rising.new.items ≡ []) }
{
    let mut others = others;
    while let Some(config) = rising.pop() {
        others.insert(config.discr(), config)?;
    }
    Ok(others)
}

/// The sessions of the map.
fn values_in(
    others: BTreeMap<u32, SessionConfig>,
    alloc: Global,
) -> Result<Vec<SessionConfig>, AllocError>
    ensures { IfOk result (λ rows. rows.items ≡ values_of others.entries) }
{
    others.into_values().collect(alloc)
}

impl Rows {
    /// No sessions.
    pub(crate) fn new(alloc: Global) -> Rows
        ensures { result ≡ [] }
    {
        Rows {
            rising: Vec::new(alloc),
            others: BTreeMap::new(alloc),
        }
    }

    /// How many there are.
    pub(crate) fn len(&self) -> usize
        ensures { result ≡ length self.now }
    {
        self.rising.len() + self.others.len()
    }

    /// The session of this discriminator.
    pub(crate) fn get(&self, discr: u32) -> Option<&SessionConfig>
        ensures { option_copied result ≡ lookup (is_at (nat_cmp discr)) self.now }
    {
        match place_of(&self.rising, discr) {
            Some(place) => Some(&self.rising[place]),
            None => self.others.get(&discr),
        }
    }

    /// Whether there is one of this discriminator.
    pub(crate) fn has(&self, discr: u32) -> bool
        ensures { result ≡ is_some (lookup (is_at (nat_cmp discr)) self.now) }
    {
        self.get(discr).is_some()
    }

    /// Whether a session of this discriminator comes behind all others, so that it is new, as one comparison shows.
    pub(crate) fn is_next(&self, discr: u32) -> bool
        ensures { IsTrue result → has_discr discr (values_of self.now) ≡ false }
    {
        self.others.is_empty() && are_below(&self.rising, discr)
    }

    /// The sessions with one more among them, whose discriminator is new, all in the map.
    fn with(self, config: SessionConfig) -> Result<Rows, AllocError>
        requires discr { has_discr (discr_of config) (values_of self) ≡ false }
        requires room { length self < 65536 }
        ensures { IfOk result (λ rows. rows ≡ insert_entry nat_cmp self (discr_of config) config) }
    {
        let Rows { mut rising, others } = self;
        let mut others = with_all(&mut rising, others)?;
        others.insert(config.discr(), config)?;
        Ok(Rows { rising, others })
    }

    /// One more session, whose discriminator is new. One above all others goes to its place, and nothing else is moved. Fails only
    /// when out of memory.
    pub(crate) fn add(&mut self, alloc: Global, config: SessionConfig) -> Result<(), AllocError>
        requires discr { has_discr (discr_of config) (values_of self.old) ≡ false }
        requires room { length self.old < 65536 }
        ensures { OnOk result (self.new ≡ insert_entry nat_cmp self.old (discr_of config) config) }
    {
        if self.others.is_empty() && are_below(&self.rising, config.discr()) {
            self.rising.push(config)?;
            return Ok(());
        }
        let before = mem::replace(self, Rows::new(alloc));
        *self = before.with(config)?;
        Ok(())
    }

    /// The session of this discriminator gets these keys.
    pub(crate) fn give(&mut self, discr: u32, keys: Keys)
        ensures { self.new ≡ by_discr (given discr keys (values_of self.old)) }
    {
        match place_of(&self.rising, discr) {
            Some(place) => set_keys(&mut self.rising[place], keys),
            None => give(&mut self.others, discr, keys),
        }
    }

    /// The session of this discriminator gets one more key, where it has some with room for it.
    pub(crate) fn give_more(&mut self, discr: u32, key: Key)
        requires { key_fault (keys_of discr (values_of self.old)) key ≡ None }
        ensures { self.new ≡ by_discr (given_more discr key (values_of self.old)) }
    {
        match place_of(&self.rising, discr) {
            Some(place) => add_key(&mut self.rising[place], key),
            None => give_more(&mut self.others, discr, key),
        }
    }

    /// The sessions, ascending by discriminator.
    pub(crate) fn into_rows(self, alloc: Global) -> Result<Vec<SessionConfig>, AllocError>
        ensures { IfOk result (λ rows. rows.items ≡ values_of self) }
    {
        let Rows { mut rising, others } = self;
        let mut behind = values_in(others, alloc)?;
        if rising.is_empty() {
            return Ok(behind);
        }
        rising.append(&mut behind)?;
        Ok(rising)
    }
}
