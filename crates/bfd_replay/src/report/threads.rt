//! The report of the parts of a replay, gathered by several threads in parallel.
ghost use Rattle.std.specs.Prelude.{ℕ, ◌≡◌, ◌+◌, ◌++◌, List, IfOk, OnOk, length};
ghost use Rattle.std.specs.List.{flat_map};
ghost use Rattle.bfd_session.specs.Kinds.{Running};
ghost use Rattle.bfd_script.specs.Report as script;
ghost use Rattle.bfd_replay.specs.Counts.{counts_of};
ghost use Rattle.bfd_replay.specs.Happenings.{Happening, AreParts, happening_outcomes};
ghost use Rattle.bfd_replay.specs.Spread.{Gathers};

use crate::report::counts::{Counts, added};
use crate::report::cutting::{cut_all, middle_of};
use crate::report::gathering::{Gathered, gather_text, rests_of};
use crate::report::part::Part;
use crate::report::reporting::done_text;
use crate::report::rest::Rest;
use std::alloc::{AllocError, Global};
use std::thread;
use std::thread::Threads;

/// All pieces, gathered in two halves, one behind the other: in parallel if a further thread is available. Fails only when out of memory.
fn in_two<R: Threads>(
    rt: &R,
    alloc: Global,
    rests: Vec<Rest>,
) -> Result<(Gathered, Gathered), AllocError>
    ensures { IfOk result (λ g. Gathers rests.entry.items (g.0.text.items ++ g.1.text.items)
        (g.0.txs + g.1.txs) (g.0.drops + g.1.drops)) }
{
    let (fronts, backs) = cut_all(alloc, &rests, middle_of(&rests))?;
    let (front, back) = thread::join(
        rt,
        move || -> Result<Gathered, AllocError>
            ensures { IfOk result (λ g. Gathers fronts.entry.items g.text.items g.txs g.drops) }
        { gather_text(alloc, fronts) },
        move || -> Result<Gathered, AllocError>
            ensures { IfOk result (λ g. Gathers backs.entry.items g.text.items g.txs g.drops) }
        { gather_text(alloc, backs) },
    );
    Ok((front?, back?))
}

/// Texts that stand one behind another, and how many packets they report as sent and as dropped.
#[derive(Drop)]
struct Texts {
    texts: Vec<Vec<u8>>,
    txs: u64,
    drops: u64,
}

/// Puts a text behind the others, and adds to these counts the packets that it reports. Fails only when out of memory, or when 2^64 packets
/// were counted, which it reports as out of memory.
fn put_behind(
    texts: &mut Vec<Vec<u8>>,
    counts: (u64, u64),
    more: Gathered,
) -> Result<(u64, u64), AllocError>
    ensures texts { OnOk result (flat_map (λ text. text.items) texts.new.items
        ≡ flat_map (λ text. text.items) texts.old.items ++ more.text.items) }
    ensures txs { IfOk result (λ sums. sums.0 ≡ counts.0 + more.txs) }
    ensures drops { IfOk result (λ sums. sums.1 ≡ counts.1 + more.drops) }
{
    let Gathered { text, txs, drops } = more;
    let sums = added(counts, (txs, drops))?;
    texts.push(text)?;
    Ok(sums)
}

/// The pieces of one list, gathered whole, and those of another, gathered in two halves: in parallel if threads are available.
fn one_and_two<R: Threads>(
    rt: &R,
    alloc: Global,
    one: Vec<Rest>,
    two: Vec<Rest>,
) -> (
    Result<Gathered, AllocError>,
    Result<(Gathered, Gathered), AllocError>,
)
    ensures one { IfOk result.0 (λ g. Gathers one.entry.items g.text.items g.txs g.drops) }
    ensures two { IfOk result.1 (λ g. Gathers two.entry.items (g.0.text.items ++ g.1.text.items)
        (g.0.txs + g.1.txs) (g.0.drops + g.1.drops)) }
{
    thread::join(
        rt,
        move || -> Result<Gathered, AllocError>
            ensures { IfOk result (λ g. Gathers one.entry.items g.text.items g.txs g.drops) }
        { gather_text(alloc, one) },
        move || -> Result<(Gathered, Gathered), AllocError>
            ensures { IfOk result (λ g. Gathers two.entry.items (g.0.text.items ++ g.1.text.items)
                (g.0.txs + g.1.txs) (g.0.drops + g.1.drops)) }
        { in_two(rt, alloc, two) },
    )
}

/// All pieces, gathered in four quarters, one behind another: in parallel if threads are available, which are started one after another by
/// this thread. Fails only when out of memory, or when 2^64 packets were counted, which it reports as out of memory.
fn in_four<R: Threads>(rt: &R, alloc: Global, rests: Vec<Rest>) -> Result<Texts, AllocError>
    ensures { IfOk result (λ t. Gathers rests.entry.items (flat_map (λ text. text.items) t.texts.items) t.txs t.drops) }
{
    let (fronts, backs) = cut_all(alloc, &rests, middle_of(&rests))?;
    let (first, second) = cut_all(alloc, &fronts, middle_of(&fronts))?;
    let (first, (second, back)) = thread::join(
        rt,
        move || -> Result<Gathered, AllocError>
            ensures { IfOk result (λ g. Gathers first.entry.items g.text.items g.txs g.drops) }
        { gather_text(alloc, first) },
        move || -> (
            Result<Gathered, AllocError>,
            Result<(Gathered, Gathered), AllocError>,
        )
            ensures one { IfOk result.0 (λ g. Gathers second.entry.items g.text.items g.txs g.drops) }
            ensures two { IfOk result.1 (λ g. Gathers backs.entry.items (g.0.text.items ++ g.1.text.items)
                (g.0.txs + g.1.txs) (g.0.drops + g.1.drops)) }
        { one_and_two(rt, alloc, second, backs) },
    );
    let first = first?;
    let second = second?;
    let (third, fourth) = back?;
    let mut texts = Vec::new(alloc);
    let counts = put_behind(&mut texts, (0, 0), first)?;
    let counts = put_behind(&mut texts, counts, second)?;
    let counts = put_behind(&mut texts, counts, third)?;
    let (txs, drops) = put_behind(&mut texts, counts, fourth)?;
    Ok(Texts { texts, txs, drops })
}

/// The report of a replay of so many events, as `report` gives it, in texts that stand one behind another. Up to four threads gather it,
/// each a part of its lines, if they are available. Its counts come too. Fails only when out of memory, or when 2^64 packets were sent or
/// dropped, which it reports as out of memory.
pub fn report_by_threads<R: Threads>(
    rt: &R,
    alloc: Global,
    parts: Vec<Part>,
    events: u64,
) -> Result<(Vec<Vec<u8>>, Counts), AllocError>
    ensures texts { (shards last : ℕ) (happenings : List Happening) (sessions : List Running)
        → length happenings ≡ events
        → AreParts shards 1 last happenings sessions parts.items
        → IfOk result (λ r. flat_map (λ text. text.items) r.0.items
        ≡ script.report (happening_outcomes last happenings sessions)) }
    ensures counts { (shards last : ℕ) (happenings : List Happening) (sessions : List Running)
        → length happenings ≡ events
        → AreParts shards 1 last happenings sessions parts.items
        → IfOk result (λ r. r.1 ≡ counts_of (happening_outcomes last happenings sessions)) }
{
    let rests = rests_of(alloc, &parts)?;
    let Texts {
        mut texts,
        txs,
        drops,
    } = in_four(rt, alloc, rests)?;
    let mut last = Vec::new(alloc);
    last.extend_from_slice(done_text(alloc, events, txs, drops)?.as_bytes())?;
    texts.push(last)?;
    Ok((texts, Counts { events, txs, drops }))
}
