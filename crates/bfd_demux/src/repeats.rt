//! The first two rows that are alike. Rows are put in order first, and looked at in order: only where two are alike are
//! they searched for.

ghost use Rattle.std.specs.Prelude.{◌≡◌, IfOk};
ghost use Rattle.bfd_demux.specs.Rows.{first_repeat, same_discr, same_addresses};
ghost use Rattle.bfd_demux.specs.Index.{discrs_of, addresses_of};

use crate::row::{Row, RowKind};
use crate::table::sort_by_key;
use std::alloc::{AllocError, Global};
use std::collections::BTreeMap;

/// The least row whose discriminator an earlier row has, and that earlier row: their places.
#[tactic(auto, using(crate::proofs::Apart::discrs_apart))]
pub fn repeated_discr(alloc: Global, rows: &[Row]) -> Result<Option<(usize, usize)>, AllocError>
    ensures { IfOk result (λ pair. pair ≡ first_repeat same_discr rows.now) }
{
    if sort_by_key(&mut discrs_of(alloc, rows)?) {
        return Ok(None);
    }
    search_discrs(alloc, rows)
}

// The discriminators of rows, as keys without values.
fn discrs_of(alloc: Global, rows: &[Row]) -> Result<Vec<(u32, ())>, AllocError>
    ensures { IfOk result (λ discrs. discrs.items ≡ discrs_of rows.now) }
{
    rows.iter().map(|row| (row.discr, ())).collect(alloc)
}

// What `repeated_discr` gives, by a look at all rows before each.
fn search_discrs(alloc: Global, rows: &[Row]) -> Result<Option<(usize, usize)>, AllocError>
    ensures { IfOk result (λ pair. pair ≡ first_repeat same_discr rows.now) }
{
    let mut first = BTreeMap::new(alloc);
    for (place, row) in rows.iter().enumerate() {
        if let Some(earlier) = first.get(&row.discr) {
            return Ok(Some((*earlier, place)));
        }
        first.insert(row.discr, place)?;
    }
    Ok(None)
}

/// The least row of the kind and addresses of an earlier row, and that earlier row: their places.
#[tactic(auto, using(crate::proofs::Apart::addresses_apart))]
pub fn repeated_addresses(alloc: Global, rows: &[Row]) -> Result<Option<(usize, usize)>, AllocError>
    ensures { IfOk result (λ pair. pair ≡ first_repeat same_addresses rows.now) }
{
    if sort_by_key(&mut addresses_of(alloc, rows)?) {
        return Ok(None);
    }
    search_addresses(alloc, rows)
}

/// The kind, addresses and discriminator of each row that has addresses.
pub fn addresses_of(alloc: Global, rows: &[Row]) -> Result<Vec<(RowKind, u32)>, AllocError>
    ensures { IfOk result (λ addresses. addresses.items ≡ addresses_of rows.now) }
{
    rows.iter()
        .filter(|row| row.kind.has_addresses())
        .map(|row| (row.kind, row.discr))
        .collect(alloc)
}

// What `repeated_addresses` gives, by a look at all rows before each.
fn search_addresses(alloc: Global, rows: &[Row]) -> Result<Option<(usize, usize)>, AllocError>
    ensures { IfOk result (λ pair. pair ≡ first_repeat same_addresses rows.now) }
{
    let mut first = BTreeMap::new(alloc);
    for (place, row) in rows.iter().enumerate() {
        if row.kind.has_addresses() {
            if let Some(earlier) = first.get(&row.kind) {
                return Ok(Some((*earlier, place)));
            }
            first.insert(row.kind, place)?;
        }
    }
    Ok(None)
}
