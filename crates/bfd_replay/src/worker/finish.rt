//! What the workers reported, put together again.
ghost use Rattle.std.specs.Prelude.{ℕ, ◌≡◌, ◌≢◌, ◌≤◌, ◌<◌, ◌+◌, ◌%◌, ◌++◌, ◌∷◌, [], List, Ok, Result, Some, IfOk, length, map, slice_get};
ghost use Rattle.std.specs.Prelude.{slice_index_or};
ghost use Rattle.bfd_engine.specs.declared.fault.EngineFault.{EngineFault as FaultIn};
ghost use Rattle.bfd_replay.specs.Pieces.{Piece};
ghost use Rattle.bfd_replay.specs.Ends.{IsFine};
ghost use Rattle.bfd_replay.specs.Jobs.{seen_as};

use crate::report::Part;
use crate::worker::passes::WorkerParts;
use bfd_engine::EngineFault;
use std::alloc::{AllocError, Global};
use std::mem;

/// A worker's parts, which ended with them or when out of memory.
fn parts_of(reported: WorkerParts) -> Result<Vec<Part>, AllocError>
    requires { IsFine (seen_as (λ parts. parts.items) reported) }
    ensures { IfOk result (λ parts. seen_as (λ parts. parts.items) reported ≡ Ok parts.items) }
{
    match reported {
        Ok(parts) => Ok(parts),
        Err(EngineFault::Memory) => Err(AllocError),
        Err(_) => unreachable!(),
    }
}

/// The parts of all workers, of which none stopped but when out of memory.
pub(crate) fn all_parts(
    alloc: Global,
    worker_parts: Vec<WorkerParts>,
) -> Result<Vec<Vec<Part>>, AllocError>
    requires { (i : ℕ) (end : Result (List (List Piece)) FaultIn)
        → slice_get (map (seen_as (λ parts. parts.items)) worker_parts.items) i ≡ Some end → IsFine end }
    ensures { IfOk result (λ all. map (seen_as (λ parts. parts.items)) worker_parts.items
        ≡ map Ok (map (λ parts. parts.items) all.items)) }
{
    let mut all = Vec::new(alloc);
    for reported in worker_parts {
        let parts = parts_of(reported)?;
        all.push(parts)?;
    }
    Ok(all)
}

/// Takes out the part of a shard that the worker at this place reported.
fn take_part(alloc: Global, all: &mut Vec<Vec<Part>>, at: usize, shard: usize) -> Part
    requires at { at < length all.old.items }
    requires shard { shard < length (slice_index_or (map (λ parts. parts.items) all.old.items) at []) }
    ensures part { result ≡ slice_index_or (slice_index_or (map (λ parts. parts.items) all.old.items) at []) shard [] }
    ensures long { length all.new.items ≡ length all.old.items }
    ensures wide { (i : ℕ) → length (slice_index_or (map (λ parts. parts.items) all.new.items) i [])
        ≡ length (slice_index_or (map (λ parts. parts.items) all.old.items) i []) }
    ensures others { (i r : ℕ) → r ≢ shard
        → slice_index_or (slice_index_or (map (λ parts. parts.items) all.new.items) i []) r []
        ≡ slice_index_or (slice_index_or (map (λ parts. parts.items) all.old.items) i []) r [] }
{
    let parts = &mut all[at];
    mem::replace(&mut parts[shard], Part::new(alloc))
}

/// The parts by shard, each as the shard's worker reported it, and last what was reported of the events that match no session.
pub(crate) fn in_order(
    alloc: Global,
    all: Vec<Vec<Part>>,
    shards: u32,
    apart: Part,
) -> Result<Vec<Part>, AllocError>
    requires some { 0 < length all.items }
    requires wide { (i : ℕ) → i < length all.items
        → length (slice_index_or (map (λ parts. parts.items) all.items) i []) ≡ shards }
    ensures long { IfOk result (λ parts. length parts.items ≡ shards + 1) }
    ensures each { IfOk result (λ parts. (s : ℕ) → s < shards → slice_index_or parts.items s []
        ≡ slice_index_or (slice_index_or (map (λ parts. parts.items) all.items) (s % length all.items) []) s []) }
    ensures last { IfOk result (λ parts. slice_index_or parts.items shards [] ≡ apart) }
{
    let mut all = all;
    let mut parts = Vec::new(alloc);
    let workers = all.len();
    for shard in 0..shards as usize {
        parts.push(take_part(alloc, &mut all, shard % workers, shard))?;
    }
    parts.push(apart)?;
    Ok(parts)
}
