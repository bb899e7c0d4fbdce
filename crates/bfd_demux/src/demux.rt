//! The table: rows behind two sorted indices.

ghost use Rattle.std.specs.Prelude.{[], false, length, OnOk, ◌≡◌, ◌≢◌, ◌+◌, ◌<◌, ◌==◌, ◌≤◌, ◌&&◌, ◌||◌, if◌then◌else◌, is_ok, position};
ghost use Rattle.std.specs.Prelude.{slice_index_or, true, not, None, Some, is_some, IfSome, IfOk, OnErr, MatchResult, ◌⊎◌};
ghost use Rattle.std.specs.List.{insert, list_any, remove};
ghost use Rattle.std.specs.Option.{option_map};
ghost use Rattle.std.specs.Result.{result_err};
ghost use Rattle.bfd_packet.specs.Layout.{fields_of, word_at};
ghost use Rattle.bfd_packet.specs.HeaderTests.{takes_multipoint_of};
ghost use Rattle.bfd_packet.specs.States.{is_init_or_up};
ghost use Rattle.bfd_demux.specs.Rows.{add_fault, build_fault, early_fault, fault_kind, has_addresses, same_selector};
ghost use Rattle.bfd_demux.specs.declared.row.Row.{Row};
ghost use Rattle.bfd_demux.specs.Selection.{first_header_failing, first_table_failing, row_has_discr, row_has_selector};
ghost use Rattle.bfd_demux.specs.Selection.{is_by_addresses, is_echo_form, knows, reflector_index, selector_on, session_index, target_of};
ghost use Rattle.bfd_demux.specs.Selection.{the_one};
ghost use Rattle.bfd_demux.specs.Parts.{echo_target, first_echo_failing, first_past_header, first_session_failing, index_on, names_session};
ghost use Rattle.bfd_demux.specs.Parts.{target_named};
ghost use Rattle.bfd_demux.specs.Index.{AreNames, AreAddresses, names_a_session};
ghost use Rattle.bfd_demux.specs.Table.{how_many};

use crate::fault::{AddFault, BuildFault};
use crate::guess::{Ends, guess_by_discr, guess_by_peer};
use crate::lists::{Addresses, Names, insert_addresses, remove_addresses, remove_name};
use crate::name::{Name, heard_on, is_heard, name_on, names_before, row_name};
use crate::repeats::{repeated_addresses, repeated_discr};
use crate::row::{Row, RowKind};
use crate::table::{has_key, insert_by_key, place_near};
use crate::target::Target;
use bfd_ghost::GhostList;
use bfd_num::Steps;
use bfd_packet::{Arrival, Control, Port, Test, read};
use byteorder::{BigEndian, ByteOrder};
use std::alloc::{AllocError, Global};
use std::marker::Model;
use std::sync::ledger::Ledger;

// What an echo packet begins with: "BFDe".
const ECHO_SIGN: u32 = 0x4246_4465;

// The most rows that a table has.
const MOST_ROWS: usize = 65_536;

/// A table of rows: what `select` looks an arrival up in. Contracts see the list of its rows, in the order
/// in which they were given.
#[derive(Drop)]
pub struct Demux {
    // The rows, for clauses alone.
    rows: GhostList<Row>,
    // By name: sessions, then reflectors, each in ascending order of discriminator.
    names: Vec<(Name, Option<Port>)>,
    // By kind and addresses: the discriminators of the rows that have addresses.
    addresses: Vec<(RowKind, u32)>,
    // How many rows are sessions.
    sessions: usize,
    // What the first name and the last have, and the first and the last of the rows with addresses.
    name_ends: Ends,
    peer_ends: Ends,
}

impl Model for Demux {
    ghost use Rattle.std.specs.Prelude.{List};
    ghost use Rattle.bfd_demux.specs.declared.row.Row.{Row};
    ghost use Rattle.bfd_demux.specs.Index.{IsIndex};

    ghost Value = { List Row };

    ghost view = { λ demux. demux.rows.items };

    ghost invariant = { λ demux. IsIndex demux.rows.items demux.names.items demux.addresses.items
        demux.sessions };
}

impl Demux {
    /// The table of these rows, or what is wrong with them, in this order: more than 65,536 rows (TooMany),
    /// the first row with the discriminator 0 (ZeroDiscr), the least row with the discriminator of an
    /// earlier one (SameDiscr; RFC 5880 section 6.8.1), the least row of the kind and addresses of an
    /// earlier one (SameAddresses). These two name the least earlier row first. Memory comes only
    /// where no memory is left, and never in place of TooMany or ZeroDiscr. No rows are no fault, and need no
    /// memory.
    #[tactic(auto, using(crate::proofs::Once::no_early_fault))]
    pub fn build(alloc: Global, rows: &[Row]) -> Result<Demux, BuildFault>
        ensures table { MatchResult result (λ demux. (demux ≡ rows.now) × (build_fault rows.now ≡ None))
            (λ fault. ((fault ≡ BuildFault.Memory) × (early_fault rows.now ≡ None))
            ⊎ (build_fault rows.now ≡ Some fault)) }
        ensures empty { OnErr result (rows.now ≢ []) }
    {
        if rows.is_empty() {
            return Ok(Demux::empty(alloc));
        }
        match fault_of(alloc, rows) {
            Ok(None) => Demux::index(alloc, rows).map_err(|_| BuildFault::Memory),
            Ok(Some(fault)) => Err(fault),
            Err(_) => Err(BuildFault::Memory),
        }
    }

    // The table of no rows.
    fn empty(alloc: Global) -> Demux
        ensures { result ≡ [] }
    {
        Demux {
            rows: GhostList::of(&Vec::new(alloc)),
            names: Vec::new(alloc),
            addresses: Vec::new(alloc),
            sessions: 0,
            name_ends: Ends::of_names(&[]),
            peer_ends: Ends::of_addresses(&[]),
        }
    }

    // The table of rows that have no fault.
    fn index(alloc: Global, rows: &[Row]) -> Result<Demux, AllocError>
        requires { build_fault rows.now ≡ None }
        ensures { IfOk result (λ demux. demux ≡ rows.now) }
    {
        let rows = Vec::from_slice(alloc, rows)?;
        Demux::of_sound(alloc, rows)
    }

    /// The same table, of rows that are known to have no fault: they aren't looked through for one. Fails only when out of memory.
    pub fn of_sound(alloc: Global, rows: Vec<Row>) -> Result<Demux, AllocError>
        requires { build_fault rows.items ≡ None }
        ensures { IfOk result (λ demux. demux ≡ rows.items) }
    {
        let names = Names::of(alloc, &rows)?;
        let addresses = Addresses::of(alloc, &rows)?;
        Ok(Demux::of_lists(rows, names, addresses))
    }

    /// The same table, of the two lists of its rows, which may have been made in parallel.
    pub fn of_lists(rows: Vec<Row>, names: Names, addresses: Addresses) -> Demux
        requires sound { build_fault rows.items ≡ None }
        requires names { AreNames rows.items names }
        requires addresses { AreAddresses rows.items addresses }
        ensures { result ≡ rows.items }
    {
        Demux {
            rows: GhostList::of(&rows),
            name_ends: Ends::of_names(&names.list),
            peer_ends: Ends::of_addresses(&addresses.list),
            sessions: count_sessions(&names.list),
            names: names.list,
            addresses: addresses.list,
        }
    }
}

impl Demux {
    // Whether a row has this discriminator.
    fn has_discr(&self, discr: u32) -> bool
        ensures { result ≡ list_any (λ row. discr == row.discr) self.now }
    {
        let names = self.names.as_slice();
        has_key(names, &Name::Session(discr)) || has_key(names, &Name::Reflector(discr))
    }

    // Whether a row is of this kind with the same addresses.
    fn has_addresses(&self, kind: &RowKind) -> bool
        ensures { result ≡ list_any (λ row. same_selector kind.now row.kind) self.now }
    {
        kind.has_addresses() && has_key(self.addresses.as_slice(), kind)
    }

    /// What keeps the row from being added, but for memory, in the order of `build`: 65,536 rows (TooMany), its discriminator 0
    /// (ZeroDiscr), a row with the same (SameDiscr; RFC 5880 section 6.8.1), a row of its kind and addresses (SameAddresses).
    pub fn fault_with(&self, row: &Row) -> Option<AddFault>
        ensures { result ≡ add_fault row.now self.now }
    {
        if self.names.len() >= MOST_ROWS {
            return Some(AddFault::TooMany);
        }
        if row.discr == 0 {
            return Some(AddFault::ZeroDiscr);
        }
        if self.has_discr(row.discr) {
            return Some(AddFault::SameDiscr);
        }
        if self.has_addresses(&row.kind) {
            return Some(AddFault::SameAddresses);
        }
        None
    }

    /// Adds a row at this place among the rows, and leaves all others. What `fault_with` says is refused as that; else it fails only
    /// when out of memory. A refusal changes nothing. The time is linear in the rows.
    pub fn add(&mut self, place: usize, row: &Row) -> Result<(), AddFault>
        requires { place ≤ length self.old }
        ensures table { self.new ≡ (if is_ok result then insert self.old place row.now else self.old) }
        ensures fault { MatchResult result (λ _. add_fault row.now self.old ≡ None)
            (λ fault. ((fault ≡ AddFault.Memory) × (add_fault row.now self.old ≡ None))
            ⊎ (add_fault row.now self.old ≡ Some fault)) }
        ensures as_built { option_map fault_kind (build_fault (insert self.old place row.now)) ≡ add_fault row.now self.old }
    {
        // proof: the read brings the invariant
        let _ = &self.rows;
        if let Some(fault) = self.fault_with(row) {
            return Err(fault);
        }
        match self.insert(place, row) {
            Ok(()) => Ok(()),
            Err(_) => Err(AddFault::Memory),
        }
    }

    // Adds a row that has no fault.
    fn insert(&mut self, place: usize, row: &Row) -> Result<(), AllocError>
        requires place { place ≤ length self.old }
        requires sound { add_fault row.now self.old ≡ None }
        ensures { self.new ≡ (if is_ok result then insert self.old place row.now else self.old) }
    {
        self.addresses.reserve(1)?;
        insert_by_key(&mut self.names, (row_name(row), heard_on(row)))?;
        insert_addresses(&mut self.addresses, row);
        self.rows = self.rows.inserted(&place, row);
        self.sessions = count_sessions(&self.names);
        self.name_ends = Ends::of_names(&self.names);
        self.peer_ends = Ends::of_addresses(&self.addresses);
        Ok(())
    }

    /// Removes the row at this place, which has this discriminator, and leaves all others. It allocates no memory. The time is linear in
    /// the rows.
    pub fn remove(&mut self, place: usize, discr: u32)
        requires within { place < length self.old }
        requires its { (d : Row) → (slice_index_or self.old place d).discr ≡ discr }
        ensures { self.new ≡ remove self.old place }
    {
        remove_name(&mut self.names, discr);
        remove_addresses(&mut self.addresses, discr);
        self.rows = self.rows.removed(&place);
        self.sessions = count_sessions(&self.names);
        self.name_ends = Ends::of_names(&self.names);
        self.peer_ends = Ends::of_addresses(&self.addresses);
    }
}

impl Demux {
    // The index of the row of the port's kind that has this discriminator.
    fn by_discr<L: Ledger>(&self, port: Port, discr: u32, steps: &mut Steps<L>) -> Option<u32>
        ensures known { is_some result ≡ knows self.now port discr }
        ensures found { result ≡ option_map (λ row. index_on port self.now row.discr)
            (the_one (row_has_discr port discr) self.now) }
        ensures cost { steps.new ≤ steps.old + 17 }
    {
        let names = self.names.as_slice();
        let place = place_near(
            names,
            guess_by_discr(names, &self.name_ends, discr),
            &name_on(port, discr),
            steps,
        )?;
        if !is_heard(port, self.names[place].1) {
            return None;
        }
        Some((place - names_before(port, self.sessions)) as u32)
    }

    // The index of the session of this kind with these addresses.
    fn by_addresses<L: Ledger>(&self, kind: RowKind, steps: &mut Steps<L>) -> Option<u32>
        requires { has_addresses kind ≡ true }
        ensures known { is_some result ≡ list_any (λ row. same_selector kind row.kind) self.now }
        ensures found { result ≡ option_map (λ row. session_index self.now row.discr)
            (the_one (λ row. same_selector kind row.kind) self.now) }
        ensures cost { steps.new ≤ steps.old + 34 }
    {
        let addresses = self.addresses.as_slice();
        let place = place_near(
            addresses,
            guess_by_peer(addresses, &self.peer_ends, &kind),
            &kind,
            steps,
        )?;
        let discr = self.addresses[place].1;
        let names = self.names.as_slice();
        let index = place_near(
            names,
            guess_by_discr(names, &self.name_ends, discr),
            &Name::Session(discr),
            steps,
        )?;
        Some(index as u32)
    }
}

impl Demux {
    /// What the arrival is for, or the first of its port's tests up to selection that it fails (RFC 5880
    /// section 6.8.6). First come the tests on the header, as `header_test` makes them; an echo packet has
    /// none. Then, on the table: on echo EchoForm and YourUnknown; on sbfd YourUnknown; on single with M set
    /// MultipointYour and NoTail (RFC 8562); and else YourUnknown, YourZeroState and NoSession. It allocates
    /// no memory. A step is the look at one entry of a sorted table: a lookup takes at most 17, and only a
    /// selection by addresses needs two lookups.
    #[tactic(none)]
    pub fn screen<L: Ledger>(&self, arrival: &Arrival, steps: &mut Steps<L>) -> Result<Target, Test>
        ensures tests { result_err result ≡ first_table_failing self.now arrival.now }
        ensures target { IfOk result (λ target. Some target ≡ target_of self.now arrival.now) }
        ensures header { OnOk result (first_header_failing arrival.now ≡ None) }
        ensures cost { steps.new ≤ steps.old + 34 }
        ensures one_lookup { is_by_addresses arrival.now.port arrival.now ≡ false → steps.new ≤ steps.old + 17 }
    {
        match arrival.port {
            Port::Echo => self.select_echo(arrival.payload.as_slice(), steps),
            port => {
                let packet = read(port, arrival.payload.as_slice())?;
                self.select_packet(arrival, &packet, steps)
            }
        }
    }

    /// The same for an arrival that is known to pass the tests on its header: a test that fails is one on the
    /// table.
    pub fn select<L: Ledger>(&self, arrival: &Arrival, steps: &mut Steps<L>) -> Result<Target, Test>
        requires { first_header_failing arrival.now ≡ None }
        ensures tests { result_err result ≡ first_table_failing self.now arrival.now }
        ensures target { IfOk result (λ target. Some target ≡ target_of self.now arrival.now) }
        ensures cost { steps.new ≤ steps.old + 34 }
        ensures one_lookup { is_by_addresses arrival.now.port arrival.now ≡ false → steps.new ≤ steps.old + 17 }
    {
        self.screen(arrival, steps)
    }

    // What an echo packet is for.
    #[tactic(none)]
    fn select_echo<L: Ledger>(&self, payload: &[u8], steps: &mut Steps<L>) -> Result<Target, Test>
        ensures tests { result_err result ≡ first_echo_failing self.now payload.now }
        ensures target { IfOk result (λ target. Some target
            ≡ option_map (echo_target self.now payload.now)
            (the_one (row_has_discr Port.Echo (word_at 4 payload.now)) self.now)) }
        ensures cost { steps.new ≤ steps.old + 17 }
    {
        let Some((discr, sequence)) = echo_words(payload) else {
            return Err(Test::EchoForm);
        };
        match self.by_discr(Port::Echo, discr, steps) {
            Some(index) => Ok(Target::Echo(index, sequence)),
            None => Err(Test::YourUnknown),
        }
    }

    // What a packet is for whose header passes the tests.
    #[tactic(none)]
    fn select_packet<L: Ledger>(
        &self,
        arrival: &Arrival,
        packet: &Control,
        steps: &mut Steps<L>,
    ) -> Result<Target, Test>
        requires port { arrival.now.port ≢ Port.Echo }
        requires packet { packet.now ≡ fields_of arrival.now.payload }
        ensures tests { result_err result ≡ first_past_header arrival.now.port self.now arrival.now }
        ensures target { IfOk result (λ target. Some target ≡ target_named arrival.now.port self.now arrival.now) }
        ensures cost { steps.new ≤ steps.old + 34 }
        ensures one_lookup { is_by_addresses arrival.now.port arrival.now ≡ false → steps.new ≤ steps.old + 17 }
    {
        match arrival.port {
            Port::Sbfd => self.select_reflector(packet.your, steps),
            port => {
                if is_multipoint(port, packet) {
                    return self.select_tail(packet.your, tail_of(arrival, packet), steps);
                }
                self.select_session(port, packet, selector_of(arrival), steps)
            }
        }
    }

    // What a packet on port sbfd is for.
    #[tactic(none)]
    fn select_reflector<L: Ledger>(&self, your: u32, steps: &mut Steps<L>) -> Result<Target, Test>
        ensures tests { result_err result
            ≡ (if (your == 0) || not (knows self.now Port.Sbfd your) then Some Test.YourUnknown else None) }
        ensures target { IfOk result (λ target. (your ≢ 0)
            × (Some target ≡ option_map (λ row. Target.Reflector (reflector_index self.now row.discr))
            (the_one (row_has_discr Port.Sbfd your) self.now))) }
        ensures cost { steps.new ≤ steps.old + 17 }
    {
        if your == 0 {
            return Err(Test::YourUnknown);
        }
        match self.by_discr(Port::Sbfd, your, steps) {
            Some(index) => Ok(Target::Reflector(index)),
            None => Err(Test::YourUnknown),
        }
    }

    // What a multipoint packet with this Your Discriminator is for, which names a tail by `kind`.
    #[tactic(none)]
    fn select_tail<L: Ledger>(
        &self,
        your: u32,
        kind: RowKind,
        steps: &mut Steps<L>,
    ) -> Result<Target, Test>
        requires { has_addresses kind ≡ true }
        ensures tests { result_err result
            ≡ (if your == 0 then if list_any (row_has_selector (Some kind)) self.now then None else Some Test.NoTail
            else Some Test.MultipointYour) }
        ensures target { IfOk result (λ target. Some target
            ≡ option_map (λ row. Target.Session (session_index self.now row.discr))
            (the_one (row_has_selector (Some kind)) self.now)) }
        ensures cost { steps.new ≤ steps.old + 34 }
    {
        if your != 0 {
            return Err(Test::MultipointYour);
        }
        match self.by_addresses(kind, steps) {
            Some(index) => Ok(Target::Session(index)),
            None => Err(Test::NoTail),
        }
    }

    // What any other packet is for, where a packet without Your Discriminator names a session by `selector`.
    #[tactic(none)]
    fn select_session<L: Ledger>(
        &self,
        port: Port,
        packet: &Control,
        selector: Option<RowKind>,
        steps: &mut Steps<L>,
    ) -> Result<Target, Test>
        requires port { port ≢ Port.Sbfd }
        requires selector { IfSome selector (λ kind. has_addresses kind ≡ true) }
        ensures tests { result_err result ≡ first_session_failing port packet.now selector self.now }
        ensures target { IfOk result (λ target. Some target
            ≡ option_map (λ row. Target.Session (session_index self.now row.discr))
            (the_one (names_session port packet.now selector) self.now)) }
        ensures cost { steps.new ≤ steps.old + 34 }
        ensures one_lookup { packet.now.your ≢ 0 → steps.new ≤ steps.old + 17 }
    {
        if packet.your != 0 {
            return match self.by_discr(port, packet.your, steps) {
                Some(index) => Ok(Target::Session(index)),
                None => Err(Test::YourUnknown),
            };
        }
        if packet.state.is_init_or_up() {
            return Err(Test::YourZeroState);
        }
        let Some(kind) = selector else {
            return Err(Test::NoSession);
        };
        match self.by_addresses(kind, steps) {
            Some(index) => Ok(Target::Session(index)),
            None => Err(Test::NoSession),
        }
    }
}

// The second and third word of a payload in the form of this engine's echo packets.
fn echo_words(payload: &[u8]) -> Option<(u32, u32)>
    ensures { result ≡ (if is_echo_form payload.now then Some (word_at 4 payload.now, word_at 8 payload.now)
        else None) }
{
    if payload.len() == 16
        && BigEndian::read_u32(payload) == ECHO_SIGN
        && BigEndian::read_u32(&payload[12..]) == 0
    {
        let discr = BigEndian::read_u32(&payload[4..]);
        let sequence = BigEndian::read_u32(&payload[8..]);
        return Some((discr, sequence));
    }
    None
}

// Whether M is set on the port that accepts multipoint packets.
fn is_multipoint(port: Port, packet: &Control) -> bool
    ensures { result ≡ (takes_multipoint_of port && packet.now.multi) }
{
    matches!(port, Port::Single) && packet.multi
}

// The kind and addresses by which a multipoint packet names a tail.
fn tail_of(arrival: &Arrival, packet: &Control) -> RowKind
    ensures { result ≡ RowKind.Tail packet.now.my arrival.now.iface arrival.now.dst arrival.now.src }
{
    RowKind::Tail {
        head: packet.my,
        iface: arrival.iface,
        group: arrival.dst,
        source: arrival.src,
    }
}

// The kind and addresses by which a packet without Your Discriminator names a row on its port.
fn selector_of(arrival: &Arrival) -> Option<RowKind>
    ensures { result ≡ selector_on arrival.now.port arrival.now }
{
    let (iface, local, remote) = (arrival.iface, arrival.dst, arrival.src);
    match arrival.port {
        Port::Single => Some(RowKind::Single {
            iface,
            local,
            remote,
        }),
        Port::Multi => Some(RowKind::Multi { local, remote }),
        _ => None,
    }
}

// How many names are those of sessions.
fn count_sessions(names: &[(Name, Option<Port>)]) -> usize
    ensures { result ≡ how_many (λ entry. names_a_session entry.0) names.now }
{
    names.iter().filter(|entry| entry.0.is_session()).count()
}

// The first row whose discriminator is 0.
fn zero_discr(rows: &[Row]) -> Option<usize>
    ensures { result ≡ position (λ row. row.discr == 0) rows.now }
{
    rows.iter().position(|row| row.discr == 0)
}

// The first fault of rows.
fn fault_of(alloc: Global, rows: &[Row]) -> Result<Option<BuildFault>, AllocError>
    ensures fault { IfOk result (λ fault. fault ≡ build_fault rows.now) }
    ensures memory { OnErr result (early_fault rows.now ≡ None) }
{
    if rows.len() > MOST_ROWS {
        return Ok(Some(BuildFault::TooMany(rows.len())));
    }
    if let Some(place) = zero_discr(rows) {
        return Ok(Some(BuildFault::ZeroDiscr(place)));
    }
    if let Some((earlier, place)) = repeated_discr(alloc, rows)? {
        return Ok(Some(BuildFault::SameDiscr(earlier, place)));
    }
    let pair = repeated_addresses(alloc, rows)?;
    Ok(pair.map(|(earlier, place)| BuildFault::SameAddresses(earlier, place)))
}
