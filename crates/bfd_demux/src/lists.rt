//! The two lists of a table, each in order. They ask nothing of one another, so they may be made in parallel.

ghost use Rattle.std.specs.Prelude.{◌≡◌, ◌<◌, ◌≤◌, ◌==◌, ◌++◌, ◌∷◌, [], IfOk, None, false, true, not, position, vec_capacity, vec_len};
ghost use Rattle.std.specs.List.{filter, list_any};
ghost use Rattle.std.specs.Ordering.{is_eq};
ghost use Rattle.bfd_demux.specs.Rows.{build_fault, has_addresses};
ghost use Rattle.bfd_demux.specs.Index.{AreNames, AreAddresses, addresses_of, name_discr, names_of};
ghost use Rattle.bfd_demux.specs.contracts.row.RowKindOrd.TheImpl as kind_order;
ghost use Rattle.bfd_demux.specs.Table.{HasSame, IsAscending, how_many};

use crate::name::{Name, heard_on, row_name};
use crate::repeats::addresses_of;
use crate::row::{Row, RowKind};
use crate::table::{insert_by_key, sort_by_key};
use bfd_packet::Port;
use std::alloc::{AllocError, Global};
use std::marker::Model;

/// The names of a table's rows: sessions, then reflectors, each in ascending order of discriminator.
#[derive(Drop)]
pub struct Names {
    pub(crate) list: Vec<(Name, Option<Port>)>,
}

impl Model for Names {
    ghost use Rattle.std.specs.Prelude.{List, Option};
    ghost use Rattle.bfd_packet.specs.declared.arrival.Port.{Port};
    ghost use Rattle.bfd_demux.specs.declared.name.Name.{Name};

    ghost Value = { List (Name × Option Port) };

    ghost view = { λ names. names.list.items };
}

impl Names {
    /// The names of rows that have no fault. Fails only when out of memory.
    pub fn of(alloc: Global, rows: &[Row]) -> Result<Names, AllocError>
        requires { build_fault rows.now ≡ None }
        ensures { IfOk result (AreNames rows.now) }
    {
        let mut list = names_of(alloc, rows)?;
        sort_by_key(&mut list);
        Ok(Names { list })
    }
}

/// The kinds and addresses of a table's rows that have addresses, in order, each with the row's discriminator.
#[derive(Drop)]
pub struct Addresses {
    pub(crate) list: Vec<(RowKind, u32)>,
}

impl Model for Addresses {
    ghost use Rattle.std.specs.Prelude.{ℕ, List};
    ghost use Rattle.bfd_demux.specs.declared.row.RowKind.{RowKind};

    ghost Value = { List (RowKind × ℕ) };

    ghost view = { λ addresses. addresses.list.items };
}

impl Addresses {
    /// The addresses of rows that have no fault. Fails only when out of memory.
    pub fn of(alloc: Global, rows: &[Row]) -> Result<Addresses, AllocError>
        requires { build_fault rows.now ≡ None }
        ensures { IfOk result (AreAddresses rows.now) }
    {
        let mut list = addresses_of(alloc, rows)?;
        sort_by_key(&mut list);
        Ok(Addresses { list })
    }
}

// The name of each row and its port.
fn names_of(alloc: Global, rows: &[Row]) -> Result<Vec<(Name, Option<Port>)>, AllocError>
    ensures { IfOk result (λ names. names.items ≡ names_of rows.now) }
{
    rows.iter()
        .map(|row| (row_name(row), heard_on(row)))
        .collect(alloc)
}

/// Adds the row's addresses, where it has some that no other has, to a list with room for one more.
pub fn insert_addresses(addresses: &mut Vec<(RowKind, u32)>, row: &Row)
    requires ascending { IsAscending kind_order.ghosts.cmp addresses.old.items }
    requires new { has_addresses row.now.kind ≡ true
        → list_any (λ entry. is_eq (kind_order.ghosts.cmp entry.0 row.now.kind)) addresses.old.items ≡ false }
    requires room { vec_len addresses.old < vec_capacity addresses.old }
    ensures ascending { IsAscending kind_order.ghosts.cmp addresses.new.items }
    ensures same { HasSame (addresses_of (row.now ∷ []) ++ addresses.old.items) addresses.new.items }
{
    if row.kind.has_addresses() {
        let Ok(()) = insert_by_key(addresses, (row.kind, row.discr)) else {
            unreachable!();
        };
    }
}

// Where the name with this discriminator stands.
fn name_slot(names: &[(Name, Option<Port>)], discr: u32) -> Option<usize>
    ensures { result ≡ position (λ entry. name_discr entry.0 == discr) names.now }
{
    names.iter().position(|entry| entry.0.discr() == discr)
}

// Where the addresses of this discriminator stand.
fn addresses_slot(addresses: &[(RowKind, u32)], discr: u32) -> Option<usize>
    ensures { result ≡ position (λ entry. entry.1 == discr) addresses.now }
{
    addresses.iter().position(|entry| entry.1 == discr)
}

/// Removes the name with this discriminator, if there is one. No two have it.
pub fn remove_name(names: &mut Vec<(Name, Option<Port>)>, discr: u32)
    requires { how_many (λ entry. name_discr entry.0 == discr) names.old.items ≤ 1 }
    ensures { names.new.items ≡ filter (λ entry. not (name_discr entry.0 == discr)) names.old.items }
{
    if let Some(slot) = name_slot(names, discr) {
        names.remove(slot);
    }
}

/// Removes the addresses of this discriminator, if there are some. No two have it.
pub fn remove_addresses(addresses: &mut Vec<(RowKind, u32)>, discr: u32)
    requires { how_many (λ entry. entry.1 == discr) addresses.old.items ≤ 1 }
    ensures { addresses.new.items ≡ filter (λ entry. not (entry.1 == discr)) addresses.old.items }
{
    if let Some(slot) = addresses_slot(addresses, discr) {
        addresses.remove(slot);
    }
}
