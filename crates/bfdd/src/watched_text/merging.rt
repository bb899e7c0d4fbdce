//! Changes of several shards as one list.
ghost use Rattle.std.specs.Prelude.{◌≡◌, ◌++◌, IfOk, OnOk, map};
ghost use Rattle.bfdd.specs.Following.{lower, merged, not_lower, of_event};

use bfd_watch::Change;
use std::alloc::{AllocError, Global};

/// The changes, reported of the event of this number.
pub(crate) fn renumbered(
    alloc: Global,
    number: u64,
    changes: &[Change],
) -> Result<Vec<Change>, AllocError>
    ensures { IfOk result (λ list. list.items ≡ map (of_event number) changes.now) }
{
    let mut list = Vec::with_capacity(alloc, changes.len())?;
    for change in changes {
        list.push(Change { number, ..*change })?;
    }
    Ok(list)
}

/// Appends the first changes that are of a session with a lower discriminator. Gives what comes after those.
fn append_lower<'a>(
    all: &mut Vec<Change>,
    discr: u32,
    more: &'a [Change],
) -> Result<&'a [Change], AllocError>
    ensures appended { OnOk result (all.new.items ≡ all.old.items ++ lower discr more.now) }
    ensures left { IfOk result (λ left. left.now ≡ not_lower discr more.now) }
{
    let mut left = more;
    'lower: while let Some((first, rest)) = left.split_first() {
        if discr <= first.discr {
            return Ok(left);
        }
        all.push(*first)?;
        left = rest;
    }
    Ok(left)
}

/// Two lists of changes as one, by discriminator where each is so.
pub(crate) fn merge(
    alloc: Global,
    changes: &[Change],
    more: &[Change],
) -> Result<Vec<Change>, AllocError>
    ensures { IfOk result (λ all. all.items ≡ merged changes.now more.now) }
{
    let mut all = Vec::new(alloc);
    let mut left = more;
    for change in changes {
        left = append_lower(&mut all, change.discr, left)?;
        all.push(*change)?;
    }
    all.extend_from_slice(left)?;
    Ok(all)
}
