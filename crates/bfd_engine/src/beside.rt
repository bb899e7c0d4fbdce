//! Work that is done in parallel.
ghost use Rattle.std.specs.Prelude.{◌≡◌, IfOk, Ok, length, map};
ghost use Rattle.std.specs.Fork.{AcceptsJobs, GivesJobs};
ghost use Rattle.std.specs.Fork.Halves.{GivesFor};
ghost use Rattle.std.specs.Thread.{IsSend, IsSync};

use std::alloc::{AllocError, Global};
use std::thread;
use std::thread::Threads;

/// Calls `f` with each job, one after another, in this thread.
fn in_turn<J: Drop, X: Drop, F: Fn(J) -> X>(
    alloc: Global,
    jobs: Vec<J>,
    f: &F,
) -> Result<Vec<X>, AllocError>
    requires { AcceptsJobs F.Fn f.now jobs.items }
    ensures long { IfOk result (λ given. length given.items ≡ length jobs.items) }
    ensures each { IfOk result (λ given. GivesJobs F.Fn f.now jobs.items given.items) }
{
    let mut given = Vec::with_capacity(alloc, jobs.len())?;
    for job in jobs {
        given.push(f(job))?;
    }
    Ok(given)
}

/// Calls `f` with each job, with all but the last in a thread of its own if one is available. They are started one after another by this
/// thread: where threads are started by threads that were just started, two are at times set on one processor while another is idle.
#[cycle(jobs)]
fn beside<R: Threads + Sync, J: Send + Drop, X: Send + Drop, F: Fn(J) -> X + Sync>(
    rt: &R,
    alloc: Global,
    f: &F,
    mut first: Vec<J>,
) -> Result<Vec<X>, AllocError>
    requires { AcceptsJobs F.Fn f.now first.items }
    ensures { IfOk result (λ given. GivesFor F.Fn f.now first.items given.items) }
{
    if first.len() < 2 {
        return in_turn(alloc, first, f);
    }
    let rest = first.split_off(1)?;
    let own = move || -> Result<Vec<X>, AllocError>
        requires { AcceptsJobs F.Fn f.now first.items }
        ensures { IfOk result (λ given. GivesFor F.Fn f.entry.now first.items given.items) }
    { in_turn(alloc, first, f) };
    let others = move || -> Result<Vec<X>, AllocError>
        requires bounds { IsSync R.row × IsSync F.row × IsSend J.row × IsSend X.row }
        requires accepts { AcceptsJobs F.Fn f.now rest.items }
        ensures { IfOk result (λ given. GivesFor F.Fn f.entry.now rest.items given.items) }
    { beside(rt, alloc, f, rest) };
    let (front, back) = thread::join(rt, own, others);
    let mut given = front?;
    let mut more = back?;
    given.append(&mut more)?;
    Ok(given)
}

/// Calls `f` with each job, with all but the last in a thread of its own if one is available, and returns the results in the order of the
/// jobs. Fails only when out of memory.
pub fn each<R: Threads + Sync, J: Send + Drop, X: Send + Drop, F: Fn(J) -> X + Sync>(
    rt: &R,
    alloc: Global,
    jobs: Vec<J>,
    f: &F,
) -> Result<Vec<X>, AllocError>
    requires { AcceptsJobs F.Fn f.now jobs.items }
    ensures long { IfOk result (λ given. length given.items ≡ length jobs.items) }
    ensures each { IfOk result (λ given. GivesJobs F.Fn f.now jobs.items given.items) }
{
    beside(rt, alloc, f, jobs)
}

/// All values, where none is a refusal. Fails only when out of memory.
pub fn all_there<T: Drop>(
    alloc: Global,
    made: Vec<Result<T, AllocError>>,
) -> Result<Vec<T>, AllocError>
    ensures { IfOk result (λ all. made.items ≡ map Ok all.items) }
{
    let mut all = Vec::with_capacity(alloc, made.len())?;
    for one in made {
        all.push(one?)?;
    }
    Ok(all)
}
