//! The calls that open and close a handle.
ghost use Rattle.std.specs.Prelude.{◌≡◌, ◌≢◌, true, [], None, IfOk, MatchResult};
ghost use Rattle.bfd_instance.specs.Stage.{IsTable};
ghost use Rattle.bfd_script.specs.Reading.{script_of};
ghost use Rattle.bfd_c.specs.Engines.{new_instance};
ghost use Rattle.bfd_c.specs.Fields.{config_of};
ghost use Rattle.bfd_c.specs.Opening.{complained, IsOpenedWith, IsWhy, one, opened_reporting, opened_with_fields};
ghost use Rattle.bfd_c.specs.Sizes.{complaint_size, session_size};
ghost use Rattle.bfd_c.specs.Singles.{IsInRanges};
ghost use Rattle.bfd_c.specs.Structs as structs;

use crate::engine::{DONE, EVENTS, Engine, MEMORY, RANGE, SIZE, TEXT};
use crate::fields::{Fields, config};
use crate::handle::Handle;
use crate::sizes;
use bfd_sbfd::Reflector;
use bfd_script::fields::{BadLine, LineFault, ScriptFault};
use bfd_script::read;
use bfd_session::SessionConfig;
use std::alloc::{AllocError, Global};

/// What is wrong with a text: its first faulty line, counted from 1, and the number of the line's first fault.
#[repr(C)]
#[derive(Drop)]
pub struct Complaint {
    pub size: u32,
    pub fault: u32,
    pub line: u64,
}

/// The number of a fault.
fn fault_number(fault: LineFault) -> u32
    ensures { result ≡ structs.fault_number fault }
{
    fault as u32
}

/// The complaint for C.
fn complaint_from(bad: BadLine) -> Complaint
    ensures { result ≡ structs.complaint_of bad }
{
    Complaint {
        size: sizes::COMPLAINT,
        fault: fault_number(bad.fault),
        line: bad.line,
    }
}

/// An engine in a box, before the first event.
fn boxed(
    alloc: Global,
    configs: Vec<SessionConfig>,
    pool: Vec<Reflector>,
) -> Result<Box<Engine>, AllocError>
    requires { IsTable configs.items pool.items }
    ensures { IfOk result (λ engine. engine.value ≡ new_instance configs.items pool.items) }
{
    let engine = Engine::start(alloc, configs, pool)?;
    match Box::new(alloc, engine) {
        Ok(engine) => Ok(engine),
        Err(_) => Err(AllocError),
    }
}

/// Why a text opened nothing.
enum Unopened {
    Memory,
    Bad(BadLine),
    Events,
}

/// The engine of a text, a table alone.
fn start_by(alloc: Global, text: &[u8]) -> Result<Box<Engine>, Unopened>
    ensures { MatchResult result (λ engine. IsOpenedWith (script_of true text.now) engine.value)
        (IsWhy (script_of true text.now)) }
{
    match read(alloc, text, true) {
        Ok(script) => {
            if !script.events.is_empty() {
                return Err(Unopened::Events);
            }
            match boxed(alloc, script.configs, script.pool) {
                Ok(engine) => Ok(engine),
                Err(AllocError) => Err(Unopened::Memory),
            }
        }
        Err(ScriptFault::Memory) => Err(Unopened::Memory),
        Err(ScriptFault::Bad(bad)) => Err(Unopened::Bad(bad)),
    }
}

/// Opens a handle with the sessions and reflectors of a table: the text of a packet file without event lines. What the handle held
/// before is freed, once the new engine is complete.
///
/// 11 comes if and only if the size of `complaint` isn't known. 5 comes iff it is and the text is no packet file in which packets
/// and ticks come from outside, or in place of it 2, and then `complaint` gets its first faulty line; 6 where it's one and has event lines,
/// or 2; and 2 only when out of memory. Then nothing else has changed.
#[unsafe(no_mangle)]
pub extern "C" fn bfdd_open(
    alloc: Global,
    handle: &mut Handle,
    text: &[u8],
    complaint: &mut Complaint,
) -> u32
    ensures done { result ≢ 2 → (handle.new.kept.held, result)
        ≡ opened_reporting complaint.old (script_of true text.now) handle.old.kept.held }
    ensures kept { result ≡ 2 → handle.new.kept.held ≡ handle.old.kept.held }
    ensures memory { result ≡ 2 → complaint.old.size ≡ complaint_size }
    ensures complaint { complaint.new ≡ complained result (script_of true text.now) complaint.old }
{
    if complaint.size != sizes::COMPLAINT {
        return SIZE;
    }
    match start_by(alloc, text) {
        Ok(engine) => {
            *handle = Handle::hold(engine);
            DONE
        }
        Err(Unopened::Memory) => MEMORY,
        Err(Unopened::Bad(bad)) => {
            *complaint = complaint_from(bad);
            TEXT
        }
        Err(Unopened::Events) => EVENTS,
    }
}

/// The engine of one session.
fn start_one(alloc: Global, config: SessionConfig) -> Result<Box<Engine>, AllocError>
    requires { IsInRanges config }
    ensures { IfOk result (λ engine. engine.value ≡ new_instance (one config) []) }
{
    let configs = vec![in alloc; config]?;
    boxed(alloc, configs, Vec::new(alloc))
}

/// Opens a handle with one session. What the handle held before is freed, once the new engine is complete.
///
/// 11 comes if and only if the struct's size isn't known, 3 iff it is and a value that the kind uses is outside its range, 2 only
/// when out of memory, and only where neither comes. Then nothing has changed.
#[unsafe(no_mangle)]
pub extern "C" fn bfdd_open_session(alloc: Global, handle: &mut Handle, fields: &Fields) -> u32
    ensures done { result ≢ 2 → (handle.new.kept.held, result)
        ≡ opened_with_fields fields.now handle.old.kept.held }
    ensures kept { result ≡ 2 → handle.new.kept.held ≡ handle.old.kept.held }
    ensures memory { result ≡ 2 → (fields.now.size ≡ session_size) × (config_of fields.now ≢ None) }
{
    if fields.size != sizes::SESSION {
        return SIZE;
    }
    match config(fields) {
        Some(config) => match start_one(alloc, config) {
            Ok(engine) => {
                *handle = Handle::hold(engine);
                DONE
            }
            Err(AllocError) => MEMORY,
        },
        None => RANGE,
    }
}

/// Closes a handle, and frees all that it held. A closed one stays as it is.
#[unsafe(no_mangle)]
pub extern "C" fn bfdd_close(alloc: Global, handle: &mut Handle)
    ensures { handle.new.kept.held ≡ None }
{
    *handle = Handle::closed(alloc);
}
