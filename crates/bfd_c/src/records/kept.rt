//! What is kept of a session alongside its variables.
ghost use Rattle.std.specs.Prelude.{◌≡◌, ◌<◌, Some};
ghost use Rattle.bfd_packet.specs.Layout.{fields_of};
ghost use Rattle.bfd_c.specs.Records as keeping;

use crate::naming::test_number;
use bfd_packet::{Arrival, Port, State, Test};
use bfd_script::line::Line;
use bfd_session::{Answer, SessionConfig};

/// The kind of a session.
#[derive(Clone, Copy, Debug, PartialEq, Eq)]
pub enum Kind {
    PointToPoint,
    Initiator,
    Head,
    Tail,
}

/// What came with an event.
#[derive(Clone, Copy)]
pub enum Came {
    /// No packet.
    Nothing,
    /// An echo packet.
    Echoed,
    /// A control packet with this diagnostic.
    Control(u8),
}

/// What happened to a session since it was made. A count stays at 4,294,967,295 once it reaches that. Moments are in microseconds.
#[derive(Clone, Copy)]
pub struct Record {
    pub kind: Kind,
    /// The diagnostic in the last control packet that it stored.
    pub peer_diag: u8,
    /// Packets that came to the session, those that it dropped too.
    pub received: u32,
    /// Packets that it sent.
    pub sent: u32,
    /// Packets that it dropped, by the number of the test.
    pub dropped: [u32; 25],
    /// Changes of its state to Up, and to Down.
    pub ups: u32,
    pub downs: u32,
    /// The moment of the last control packet that it stored.
    pub heard: Option<u64>,
    /// The moment of the last change of its state.
    pub changed: Option<u64>,
}

/// One more of what is counted.
fn one_counted(count: u32) -> u32
    ensures { result ≡ keeping.one_counted count }
{
    count.saturating_add(1)
}

/// The kind of a session.
fn session_kind(config: &SessionConfig) -> Kind
    ensures { result ≡ keeping.session_kind config.now }
{
    match config {
        SessionConfig::PointToPoint(_) => Kind::PointToPoint,
        SessionConfig::Initiator(_) => Kind::Initiator,
        SessionConfig::Head(_) => Kind::Head,
        SessionConfig::Tail(_) => Kind::Tail,
    }
}

/// The record of a new session.
pub(crate) fn fresh(config: &SessionConfig) -> Record
    ensures { result ≡ keeping.fresh config.now }
{
    Record {
        kind: session_kind(config),
        received: 0,
        sent: 0,
        dropped: [0; 25],
        ups: 0,
        downs: 0,
        peer_diag: 0,
        heard: None,
        changed: None,
    }
}

/// The session entered a state.
fn note_state(kept: &mut Record, state: State)
    ensures { kept.new ≡ keeping.entered state kept.old }
{
    match state {
        State::Up => kept.ups = one_counted(kept.ups),
        State::Down => kept.downs = one_counted(kept.downs),
        State::Init | State::AdminDown => {}
    }
}

/// The session sent a packet.
pub(crate) fn note_sent(kept: &mut Record)
    ensures { kept.new ≡ record kept.old { sent = keeping.one_counted kept.old.sent } }
{
    kept.sent = one_counted(kept.sent);
}

/// The session entered a state at this moment.
pub(crate) fn note_change(kept: &mut Record, state: State, moment: u64)
    ensures { kept.new ≡ record (keeping.entered state kept.old) { changed = Some moment } }
{
    note_state(kept, state);
    kept.changed = Some(moment);
}

/// The diagnostic of a control packet.
fn diag_of(payload: &[u8]) -> u8
    ensures { result ≡ (fields_of payload.now).diag }
{
    match payload.first() {
        Some(byte) => byte % 32,
        None => 0,
    }
}

/// What comes with an arrival.
pub(crate) fn came_on(arrival: &Arrival) -> Came
    ensures { result ≡ keeping.came_on arrival.now.port arrival.now }
{
    match arrival.port {
        Port::Echo => Came::Echoed,
        _ => Came::Control(diag_of(arrival.payload.as_slice())),
    }
}

/// What comes with an event.
pub(crate) fn came_with(line: &Line) -> Came
    ensures { result ≡ keeping.came_with line.now }
{
    match line {
        Line::Rx { arrival, .. } => came_on(arrival),
        _ => Came::Nothing,
    }
}

/// The session dropped a packet.
fn note_dropped(kept: &mut Record, test: Test)
    ensures { kept.new ≡ keeping.discarded_by test kept.old }
{
    let place = test_number(test) as usize;
    kept.received = one_counted(kept.received);
    kept.dropped[place] = one_counted(kept.dropped[place]);
}

/// The session stored the fields of a control packet with this diagnostic.
fn note_stored(kept: &mut Record, diag: u8, moment: u64)
    ensures { kept.new ≡ keeping.stored diag moment kept.old }
{
    kept.heard = Some(moment);
    kept.peer_diag = diag;
}

/// Whether the fields of a control packet are stored before this test, which is the last one (RFC 5880 section 6.8.6).
fn is_stored_before(test: Test) -> bool
    ensures { result ≡ keeping.is_stored_before test }
{
    match test {
        Test::AdminDown => true,
        _ => false,
    }
}

/// The session dropped a control packet with this diagnostic.
fn note_control_dropped(kept: &mut Record, test: Test, diag: u8, moment: u64)
    ensures { kept.new ≡ keeping.control_dropped test diag moment kept.old }
{
    note_dropped(kept, test);
    if is_stored_before(test) {
        note_stored(kept, diag, moment);
    }
}

/// What came to the session had this answer.
pub(crate) fn note_answer(kept: &mut Record, came: Came, answer: &Answer, moment: u64)
    ensures { kept.new ≡ keeping.answered_with came answer.now moment kept.old }
{
    match (came, answer) {
        (Came::Nothing, _) => {}
        (Came::Echoed, Answer::Dropped(test)) => note_dropped(kept, *test),
        (Came::Echoed, _) => kept.received = one_counted(kept.received),
        (Came::Control(diag), Answer::Dropped(test)) => {
            note_control_dropped(kept, *test, diag, moment)
        }
        (Came::Control(diag), _) => {
            kept.received = one_counted(kept.received);
            note_stored(kept, diag, moment);
        }
    }
}
