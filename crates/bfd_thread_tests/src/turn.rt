//! A lock over a value that keeps pairs of a caller and a number: two threads that add to it, and one that is at the last word.
ghost use Rattle.std.specs.Prelude.{◌≡◌, ◌++◌, ◌∷◌, [], OnErr, OnOk, IfSome};
ghost use Rattle.bfd_turn.specs.Refusals.{IsRefused};
ghost use Rattle.bfd_thread_tests.specs.Turns.{IsAfterTurns};

use bfd_turn::{Pass, Recorded, TryFault, TurnLock};
use std::alloc::{AllocError, Global};
use std::sync::Wait;
use std::test::Fail;
use std::thread::{Threads, join};

#[derive(Drop)]
struct Pairs {
    pairs: Vec<(u32, u32)>,
}

impl Recorded for Pairs {
    ghost use Rattle.std.specs.Prelude.{◌≡◌};

    type Note = (u32, u32);

    type Base = u32;

    ghost noted = { λ s. s.pairs.items };

    ghost caller = { λ n. n.0 };

    ghost base = { λ _. 0 };

    fn notes(&self) -> &[(u32, u32)] {
        self.pairs.as_slice()
    }

    fn caller_of(note: &(u32, u32)) -> u32 {
        note.0
    }
}

impl Pairs {
    fn empty(alloc: Global) -> Pairs
        ensures { result.pairs.items ≡ [] }
    {
        Pairs {
            pairs: Vec::new(alloc),
        }
    }

    fn add(&mut self, caller: u32, number: u32) -> Result<(), AllocError>
        ensures ok { OnOk result (self.new.pairs.items ≡ self.old.pairs.items ++ (caller, number) ∷ []) }
        ensures err { OnErr result (self.new.pairs.items ≡ self.old.pairs.items) }
    {
        self.pairs.push((caller, number))?;
        Ok(())
    }
}

type Own = Pass<(u32, u32), u32>;

// Adds one pair in a turn, and waits for that turn. Nothing comes back if memory or turns ran out.
fn add_one<R: Wait>(rt: &R, lock: &TurnLock<Pairs>, pass: Own, number: u32) -> Option<Own>
    requires { pass.0 ≡ lock.now }
    ensures { IfSome result (IsAfterTurns pass) }
{
    let caller = pass.caller();
    let mut turn = lock.turn(rt, pass).ok()?;
    let added = turn.value().add(caller, number);
    let pass = lock.done(turn);
    added.ok()?;
    Some(pass)
}

// Adds the pairs of the numbers below `count`, each in a turn of its own.
fn add_all<R: Wait>(rt: &R, lock: &TurnLock<Pairs>, mut pass: Own, count: u32) -> Option<Own>
    requires { pass.0 ≡ lock.now }
    ensures { IfSome result (IsAfterTurns pass) }
{
    for number in 0..count {
        pass = add_one(rt, lock, pass, number)?;
    }
    Some(pass)
}

// Two threads add `count` pairs each.
fn add_by_two<R: Threads + Wait + Sync>(
    rt: &R,
    lock: &TurnLock<Pairs>,
    first: Own,
    second: Own,
    count: u32,
) -> Option<(Own, Own)>
    requires { (first.0 ≡ lock.now) × (second.0 ≡ lock.now) }
    ensures { IfSome result (λ both. IsAfterTurns first both.0 × IsAfterTurns second both.1) }
{
    let (first, second) = join(
        rt,
        move || -> Option<Own>
            requires { first.0 ≡ lock.now }
            ensures { IfSome result (IsAfterTurns first) }
        { add_all(rt, lock, first, count) },
        move || -> Option<Own>
            requires { second.0 ≡ lock.now }
            ensures { IfSome result (IsAfterTurns second) }
        { add_all(rt, lock, second, count) },
    );
    Some((first?, second?))
}

// The value, once caller 0 has joined the one pass that it made.
fn close_both(lock: TurnLock<Pairs>, mut first: Own, second: Own) -> Pairs
    requires first { (first.0 ≡ lock) × (first.1.number ≡ 0) × (first.1.made ≡ 1 ∷ []) × (first.1.joined ≡ []) }
    requires second { (second.0 ≡ lock) × (second.1.number ≡ 1) }
{
    lock.join(&mut first, second);
    lock.close(first)
}

// Whether the numbers of one caller are those below `count`, in their order.
fn are_in_order(pairs: &[(u32, u32)], caller: u32, count: u32) -> bool {
    let mut next = 0u32;
    for pair in pairs {
        if pair.0 == caller {
            if pair.1 != next {
                return false;
            }
            next = next.wrapping_add(1);
        }
    }
    next == count
}

#[test]
fn two_threads_add_to_one_history(rt: HostRuntime) -> Result<(), Fail> {
    let alloc = rt.alloc();
    let (lock, mut first) = TurnLock::new(alloc, Pairs::empty(alloc), 0)?;
    let second = lock.split(&mut first, 1);
    let (first, second) = add_by_two(&rt, &lock, first, second, 1000).ok_or("memory ran out")?;
    let value = close_both(lock, first, second);
    assert_eq!(rt; value.notes().len(), 2000);
    assert!(rt; are_in_order(value.notes(), 0, 1000));
    assert!(rt; are_in_order(value.notes(), 1, 1000));
    Ok(())
}

// Why one try is refused. A turn that was taken is given back.
fn refusal_of(lock: &TurnLock<Pairs>, pass: Own) -> Option<TryFault<(u32, u32), u32>>
    requires { pass.0 ≡ lock.now }
    ensures { IfSome result (IsRefused lock.now pass.1) }
{
    match lock.try_turn(pass) {
        Ok(turn) => {
            lock.done(turn);
            None
        }
        Err(fault) => Some(fault),
    }
}

#[test]
fn no_turn_is_left_at_the_last_word(rt: HostRuntime) -> Result<(), Fail> {
    let alloc = rt.alloc();
    let (lock, first) = TurnLock::new(alloc, Pairs::empty(alloc), 9223372036854775807)?;
    let Some(TryFault::Spent { pass, word }) = refusal_of(&lock, first) else {
        return Err(Fail::from("a turn was left"));
    };
    assert_eq!(rt; word, 18446744073709551614);
    let value = lock.close(pass);
    assert_eq!(rt; value.notes().len(), 0);
    Ok(())
}

#[test]
fn a_turn_that_may_wait_ends_at_the_last_word(rt: HostRuntime) -> Result<(), Fail> {
    let alloc = rt.alloc();
    let (lock, first) = TurnLock::new(alloc, Pairs::empty(alloc), 9223372036854775807)?;
    match lock.turn(&rt, first) {
        Ok(turn) => {
            lock.done(turn);
            Err(Fail::from("a turn was left"))
        }
        Err(spent) => {
            assert_eq!(rt; spent.word, 18446744073709551614);
            assert_eq!(rt; spent.pass.caller(), 0);
            Ok(())
        }
    }
}
