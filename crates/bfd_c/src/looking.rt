//! The call that looks at a session.
ghost use Rattle.std.specs.Prelude.{◌≡◌};
ghost use Rattle.bfd_c.specs.Looking as looking;
ghost use Rattle.bfd_c.specs.Looking.{state_in, state_read};

use crate::engine::{CLOSED, DONE, Engine, NOT_FOUND, SIZE};
use crate::handle::Handle;
use crate::naming::state_number;
use crate::records::Look;
use crate::sizes;
use std::alloc::Global;

/// A look at a session. Intervals and moments are in microseconds; what there is none of is 0.
#[repr(C)]
#[derive(Drop)]
pub struct SessionState {
    pub size: u32,
    /// What a session shows, as an answer has it, and `detect`.
    pub discr: u32,
    pub state: u8,
    pub diag: u8,
    pub remote_state: u8,
    pub poll: u8,
    pub remote_discr: u32,
    pub adv_tx: u32,
    pub used_tx: u32,
    pub used_rx: u32,
    /// The peer's Desired Min TX, Required Min RX and Required Min Echo RX Interval and Detect Mult.
    pub peer_tx: u32,
    pub peer_rx: u32,
    pub peer_echo: u32,
    pub peer_mult: u8,
    /// Its diagnostic, and 1 where its demand mode is on.
    pub peer_diag: u8,
    pub peer_demand: u8,
    pub detect: u64,
    /// When the Detection Time ends; the moments of the last control packet that was stored, and of the last change of state.
    pub detect_end: u64,
    pub heard: u64,
    pub changed: u64,
    /// Packets received and sent; changes to Up and to Down.
    pub received: u64,
    pub sent: u64,
    pub ups: u64,
    pub downs: u64,
    /// Packets dropped, by the number of the test.
    pub dropped: [u64; 25],
}

/// A moment for C.
fn moment(moment: Option<u64>) -> u64
    ensures { result ≡ looking.moment_for_c moment }
{
    match moment {
        Some(moment) => moment,
        None => 0,
    }
}

/// A flag for C.
fn flag(is_set: bool) -> u8
    ensures { result ≡ looking.flag_for_c is_set }
{
    if is_set { 1 } else { 0 }
}

/// Counts for C.
fn widened(counts: &[u32; 25]) -> [u64; 25]
    ensures { result ≡ counts.now }
{
    let mut wide = [0; 25];
    for at in 0..25 {
        wide[at] = u64::from(counts[at]);
    }
    wide
}

/// A look for C.
fn state_of(look: &Look) -> SessionState
    ensures { result ≡ looking.state_for_c look.now }
{
    SessionState {
        size: sizes::SESSION_STATE,
        discr: look.shown.discr,
        state: state_number(look.shown.state),
        diag: look.shown.diag,
        remote_state: state_number(look.shown.remote_state),
        poll: look.shown.poll,
        remote_discr: look.shown.remote_discr,
        adv_tx: look.shown.adv_tx,
        used_tx: look.shown.used_tx,
        used_rx: look.shown.used_rx,
        peer_tx: look.vars.remote_tx,
        peer_rx: look.vars.remote_min_rx,
        peer_echo: look.vars.remote_min_echo,
        peer_mult: look.vars.remote_mult,
        peer_diag: look.kept.peer_diag,
        peer_demand: flag(look.vars.remote_demand),
        detect: look.shown.detect,
        detect_end: moment(look.ends),
        heard: moment(look.kept.heard),
        changed: moment(look.kept.changed),
        received: u64::from(look.kept.received),
        sent: u64::from(look.kept.sent),
        ups: u64::from(look.kept.ups),
        downs: u64::from(look.kept.downs),
        dropped: widened(&look.kept.dropped),
    }
}

/// A look at a session of an engine.
fn read_state(engine: &Engine, discr: u32, state: &mut SessionState) -> u32
    ensures { (state.new, result) ≡ state_in discr engine.now state.old }
{
    if state.size != sizes::SESSION_STATE {
        return SIZE;
    }
    match engine.look(discr) {
        Some(look) => {
            *state = state_of(&look);
            DONE
        }
        None => NOT_FOUND,
    }
}

/// A look at the session of this discriminator, as it stands after the last event: nothing is settled, and the outputs that weren't read
/// and the answer stay.
///
/// 1 comes if and only if the handle is closed, 11 iff it's open and the struct's size isn't known, and 10 iff neither
/// comes and no session has the discriminator. Then nothing has changed, `state` neither.
#[unsafe(no_mangle)]
pub extern "C" fn bfdd_state(
    alloc: Global,
    handle: &mut Handle,
    discr: u32,
    state: &mut SessionState,
) -> u32
    ensures held { handle.new.kept.held ≡ handle.old.kept.held }
    ensures reported { (state.new, result) ≡ state_read discr handle.old.kept.held state.old }
{
    match handle.take(alloc) {
        Some(engine) => {
            let code = read_state(&engine, discr, state);
            handle.put(engine);
            code
        }
        None => CLOSED,
    }
}
