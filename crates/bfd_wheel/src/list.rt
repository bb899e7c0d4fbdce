//! The due ticks as one list of numbers.
ghost use Rattle.std.specs.Prelude.{◌≡◌, ◌≢◌, ◌+◌, ◌^◌, ◌<◌, ◌≤◌, map, length, replicate, IfOk, IfSome, OnErr, OnOk, None, slice_index_or};
ghost use Rattle.std.specs.Prelude.{slice_set};
ghost use Rattle.std.specs.List.{insert, remove};
ghost use Rattle.bfd_lanes.specs.Places.{never, due_of, without};

use bfd_lanes::NEVER;
use std::alloc::{AllocError, Global};

/// `NEVER` for each id. Fails only when out of memory.
pub fn no_dues(alloc: Global, count: u32) -> Result<Vec<u64>, AllocError>
    ensures { IfOk result (λ dues. dues.items ≡ replicate count never) }
{
    vec![in alloc; NEVER; count as usize]
}

/// The number that stands for a due tick, below 2^60, or for none.
fn number_of(due: Option<u64>) -> u64
    requires { IfSome due (λ t. t < 2 ^ 60) }
    ensures { due_of result ≡ due }
{
    match due {
        Some(due) => due,
        None => NEVER,
    }
}

/// Puts a due tick in at `id`, below 2^60, or none. Fails only when out of memory, and then nothing has changed.
#[tactic(auto, using(crate::proofs::Views::inserted_view))]
pub fn insert_due(dues: &mut Vec<u64>, id: u32, due: Option<u64>) -> Result<(), AllocError>
    requires id { id ≤ length dues.old.items }
    requires due { IfSome due (λ t. t < 2 ^ 60) }
    ensures view { OnOk result (map due_of dues.new.items ≡ insert (map due_of dues.old.items) id due) }
    ensures long { OnOk result (length dues.new.items ≡ length dues.old.items + 1) }
    ensures same { OnErr result (dues.new.items ≡ dues.old.items) }
{
    match dues.insert(id as usize, number_of(due)) {
        Ok(()) => Ok(()),
        Err(_) => Err(AllocError),
    }
}

/// Takes the due tick at `id` out.
#[tactic(auto, using(crate::proofs::Views::removed_view))]
pub fn remove_due(dues: &mut Vec<u64>, id: u32)
    requires { id < length dues.old.items }
    ensures view { map due_of dues.new.items ≡ remove (map due_of dues.old.items) id }
    ensures long { length dues.new.items + 1 ≡ length dues.old.items }
{
    dues.remove(id as usize);
}

/// The due tick at `id`.
pub fn due_at(dues: &[u64], id: u32) -> Option<u64>
    requires { id < length dues.now }
    ensures { result ≡ slice_index_or (map due_of dues.now) id None }
{
    bfd_lanes::due_of(dues[id as usize])
}

/// Writes one number.
pub(crate) fn write(dues: &mut [u64], id: u32, number: u64)
    requires { id < length dues.old }
    ensures { map due_of dues.new ≡ slice_set (map due_of dues.old) id (due_of number) }
{
    dues[id as usize] = number;
}

/// Takes the due ticks at most `t` away.
pub(crate) fn forget(dues: &mut [u64], t: u64)
    requires { t < never }
    ensures { map due_of dues.new ≡ map (without t) (map due_of dues.old) }
{
    for due in dues.iter_mut() {
        *due = later(*due, t);
    }
}

/// The number, if it is above `t`, and else `NEVER`.
fn later(number: u64, t: u64) -> u64
    requires { t < never }
    ensures { due_of result ≡ without t (due_of number) }
{
    if number <= t { NEVER } else { number }
}
