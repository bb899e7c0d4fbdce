//! The watched text of a script.
ghost use Rattle.std.specs.Prelude.{ℕ, ◌≡◌, ◌≤◌, ◌<◌, ◌+◌, ◌*◌, [], IfOk, IfErr, Ok, length, map};
ghost use Rattle.bfd_session.specs.Rows.{Ascends};
ghost use Rattle.bfd_session.specs.Step.{started};
ghost use Rattle.bfd_script.specs.Sound.{IsScript};
ghost use Rattle.bfd_engine.specs.Engines.{IsOf, AllThere, configs_at};
ghost use Rattle.bfd_engine.specs.Calls.{seen_at};
ghost use Rattle.bfd_engine.specs.Opening.{IsNewPass};
ghost use Rattle.bfd_replay.specs.Happenings.{happening_outcomes};
ghost use Rattle.bfd_replay.specs.Planned.{happenings};
ghost use Rattle.bfd_watch.specs.Watched as watch;
ghost use Rattle.bfd_replay.specs.Turning.{AllSole, HasKept, IsCutShort};
ghost use Rattle.bfdd.specs.Following.{AreWatched};
ghost use Rattle.bfdd.specs.Members.{watched_of};
ghost use Rattle.bfd_num.specs.Counting.{IsBlankOf};

use crate::watched_text::following::{poll_all, watches};
use crate::watched_text::members::group;
use bfd_edge::OpenGate;
use bfd_engine::{Engine, EngineFault, EnginePass};
use bfd_num::Steps;
use bfd_replay::stream::{happen, opened};
use bfd_rules::Outs;
use bfd_script::Script;
use bfd_script::line::Line;
use bfd_watch::{LinkGroup, Watch};
use bfd_wheel::{HashedWheel, Timers};
use std::alloc::{AllocError, Global};
use std::marker::Brand;
use std::sync::Wait;
use std::sync::ledger::{Blank, Ledger};

/// The watched text of the events, where no one else has a pass of the engine, of which nothing happened yet.
fn write_changes<W: Timers, R: Wait, L: Ledger>(
    rt: &R,
    alloc: Global,
    engine: &Engine<W>,
    pass: &mut EnginePass,
    watches: Vec<Watch<W>>,
    group: LinkGroup,
    events: Vec<Line>,
    outs: Outs,
    blank: Blank,
) -> Result<Vec<u8>, EngineFault>
    requires new { IsNewPass engine.now pass.old }
    requires some { 0 < length engine.now.locks }
    requires few { length events.items ≤ 200000 }
    requires limit { engine.now.limit ≡ length events.items }
    requires ascends { Ascends engine.now.configs }
    requires watched { AreWatched engine.now engine.now.limit pass.old watches.items }
    requires room { (shard : ℕ) → 5 * length (configs_at engine.now shard) + 5 ≤ outs.room }
    requires blank { IsBlankOf L.name L.parts blank.name blank.parts }
    ensures of { IsOf engine.now pass.new.1 }
    ensures there { AllThere pass.new.1 }
    ensures kept { HasKept (2 * length events.items + 2) pass.old pass.new }
    ensures reported { IfOk result (λ text. AllSole (length engine.now.locks) pass.new → text.items ≡ watch.watched
        (happening_outcomes 0 (happenings engine.now.configs engine.now.pool events.items) (map started engine.now.configs)) group) }
    ensures stopped { IfErr result (λ fault. IsCutShort fault engine.now pass.new) }
{
    let mut steps = Steps::<L>::new(blank);
    let mut outs = outs;
    let mut watches = watches;
    let mut group = group;
    let mut text = Vec::new(alloc);
    let mut number = 1u64;
    let mut reported = 0u64;
    for line in events {
        match happen(
            rt, engine, pass, number, line, &mut outs, &mut steps, &OpenGate,
        ) {
            Ok(_) => {}
            Err(fault) => return Err(fault),
        }
        let changes = match poll_all(rt, alloc, engine, pass, &mut watches, number) {
            Ok(changes) => changes,
            Err(fault) => return Err(fault),
        };
        let list = changes.as_slice();
        let Ok(()) = group.report(number, list, &mut text) else {
            return Err(EngineFault::Memory);
        };
        reported += list.len() as u64;
        number += 1;
    }
    let Ok(()) = group.close(reported, &mut text) else {
        return Err(EngineFault::Memory);
    };
    Ok(text)
}

/// The text, or that memory ran out.
fn text_of(reported: Result<Vec<u8>, EngineFault>) -> Result<Vec<u8>, AllocError>
    requires { IfErr reported (λ fault. fault ≡ EngineFault.Memory) }
    ensures { IfOk result (λ text. reported ≡ Ok text) }
{
    match reported {
        Ok(text) => Ok(text),
        Err(EngineFault::Memory) => Err(AllocError),
        Err(_) => unreachable!(),
    }
}

/// The watched text of a replay of the script on 1 to 64 shards, with a group of these members, of which `need` must be Up: the changes
/// of each event, of members and of other sessions, and each move of the group. Each line is turns of an engine's shards, and after each
/// event a watch of each shard accepts its history's new entries. Fails only when out of memory.
pub fn watched<R: Wait>(
    rt: &R,
    alloc: Global,
    script: Script,
    need: usize,
    members: &[u32],
    shards: u32,
) -> Result<Vec<u8>, AllocError>
    requires script { IsScript script }
    requires shards { (0 < shards) × (shards ≤ 64) }
    ensures { IfOk result (λ text. text.items ≡ watched_of need members.now script) }
{
    let Script {
        configs,
        pool,
        events,
    } = script;
    let group = group(alloc, need, members, &configs)?;
    let watches = watches::<HashedWheel>(alloc, &configs, shards, events.len())?;
    let outs = Outs::make(alloc, 5 * configs.len() + 5)?;
    let states = Vec::with_capacity(alloc, shards as usize)?;
    let (engine, mut pass) = opened(alloc, configs, pool, &events, shards)?;
    let reported = write_changes::<HashedWheel, R, Brand>(
        rt,
        alloc,
        &engine,
        &mut pass,
        watches,
        group,
        events,
        outs,
        Blank::new(1),
    );
    let _states = engine.close(pass, states);
    text_of(reported)
}
