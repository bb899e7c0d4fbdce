//! The selecting addresses of the sessions so far.
ghost use Rattle.std.specs.Prelude.{◌≡◌, ◌||◌, [], IfOk, IsTrue, OnOk, false, length, true};
ghost use Rattle.std.specs.BTreeSet.{contains};
ghost use Rattle.bfd_demux.specs.Rows.{has_addresses, same_selector};
ghost use Rattle.bfd_demux.specs.declared.row.RowKind.{RowKind as Kind};
ghost use Rattle.bfd_script.specs.Tables.{among};

use bfd_demux::RowKind;
use bfd_packet::Addr;
use std::alloc::{AllocError, Global};
use std::collections::BTreeSet;
use std::marker::Model;
use std::mem;

/// The least of all kinds.
const LEAST: RowKind = RowKind::Single {
    iface: 0,
    local: Addr::V4(0),
    remote: Addr::V4(0),
};

/// The selecting addresses of sessions. Sessions mostly come in the order of their addresses: those that did are kept as they came,
/// none above `greatest`, so that one comparison shows that the next is new. One that comes out of order puts them into a set.
#[derive(Drop)]
pub(crate) struct Places {
    rising: Vec<RowKind>,
    greatest: RowKind,
    others: BTreeSet<RowKind>,
}

impl Model for Places {
    ghost use Rattle.std.specs.Prelude.{List, ◌++◌};
    ghost use Rattle.bfd_demux.specs.declared.row.RowKind.{RowKind as Kind};
    ghost use Rattle.bfd_script.specs.Tables.{AreUpTo};

    ghost Value = { List Kind };

    ghost view = { λ p. p.rising.items ++ p.others.keys };

    ghost invariant = { λ p. AreUpTo p.greatest p.rising.items };
}

/// Whether one of these kinds compares equal to this one.
fn is_among(kinds: &[RowKind], kind: RowKind) -> bool
    ensures { result ≡ among kinds.now kind }
{
    let mut rest = kinds;
    while let [known, after @ ..] = rest {
        if kind.cmp(known).is_eq() {
            return true;
        }
        rest = after;
    }
    false
}

/// Whether the set has this kind. One above all of the set's is new, as one comparison shows.
fn is_in(places: &BTreeSet<RowKind>, kind: RowKind) -> bool
    ensures { result ≡ contains (⟦<RowKind as Ord>⟧.cmp) places.now kind }
{
    match places.last() {
        Some(last) if last.cmp(&kind).is_lt() => false,
        _ => places.contains(&kind),
    }
}

/// The set with these kinds besides.
fn with_all(places: BTreeSet<RowKind>, kinds: &[RowKind]) -> Result<BTreeSet<RowKind>, AllocError>
    ensures { IfOk result (λ after. (q : Kind)
        → contains (⟦<RowKind as Ord>⟧.cmp) after q
        ≡ (among kinds.now q || contains (⟦<RowKind as Ord>⟧.cmp) places q)) }
{
    let mut places = places;
    let mut rest = kinds;
    while let [kind, after @ ..] = rest {
        places.insert(*kind)?;
        rest = after;
    }
    Ok(places)
}

impl Places {
    /// No addresses.
    pub(crate) fn new(alloc: Global) -> Places
        ensures { result ≡ [] }
    {
        Places {
            rising: Vec::new(alloc),
            greatest: LEAST,
            others: BTreeSet::new(alloc),
        }
    }

    /// Whether these addresses are present.
    pub(crate) fn has(&self, kind: RowKind) -> bool
        ensures { result ≡ among self.now kind }
    {
        if self.greatest.cmp(&kind).is_lt() {
            return is_in(&self.others, kind);
        }
        is_among(&self.rising, kind) || is_in(&self.others, kind)
    }

    /// Whether these addresses come behind all others, so that they are new, as one comparison shows.
    pub(crate) fn is_next(&self, kind: &RowKind) -> bool
        ensures { IsTrue result → among self.now kind.now ≡ false }
    {
        self.others.is_empty() && self.greatest.cmp(kind).is_lt()
    }

    /// These addresses and one more, all in the set.
    fn with(self, kind: RowKind) -> Result<Places, AllocError>
        requires { has_addresses kind ≡ true }
        ensures { IfOk result (λ after. (q : Kind) → among after q ≡ (same_selector q kind || among self q)) }
    {
        let Places {
            mut rising,
            greatest,
            others,
        } = self;
        let mut others = with_all(others, &rising)?;
        others.insert(kind)?;
        rising.clear();
        Ok(Places {
            rising,
            greatest,
            others,
        })
    }

    /// One more. One above all others goes to its place, and nothing else is moved.
    pub(crate) fn add(&mut self, alloc: Global, kind: RowKind) -> Result<(), AllocError>
        requires { has_addresses kind ≡ true }
        ensures { OnOk result ((q : Kind) → among self.new q ≡ (same_selector q kind || among self.old q)) }
    {
        if self.greatest.cmp(&kind).is_lt() {
            self.rising.push(kind)?;
            self.greatest = kind;
            return Ok(());
        }
        let before = mem::replace(self, Places::new(alloc));
        *self = before.with(kind)?;
        Ok(())
    }
}
