//! A control packet with its authentication section.

ghost use Rattle.std.specs.Prelude.{◌≡◌, ◌+◌, ◌%◌, ◌++◌, ◌^◌, if◌then◌else◌, ◌<◌, ◌≤◌, length, IsTrue, Ok, Some};
ghost use Rattle.bfd_packet.specs.declared.keys.SeqState.{SeqState};
ghost use Rattle.bfd_packet.specs.KeyChain.{digest_size, fits_kind, is_password, key_at, key_named};
ghost use Rattle.bfd_packet.specs.Layout.{text_of};
ghost use Rattle.bfd_auth.specs.Digests.{padded};
ghost use Rattle.bfd_auth.specs.Sealed.{digest_section, password_section, sealed, sealed_seq, section_of, section_start};
ghost use Rattle.bfd_auth.specs.Verdict.{accepted_seq, may_hear, verdict};

use crate::digests::{digest, length_of_section, zeros};
use arrayvec::ArrayVec;
use bfd_packet::{AuthBytes, AuthType, Control, Key, Keys, SeqState, Wire, write};
use byteorder::{BigEndian, ByteOrder};

/// The packet of these fields with its section, made with the key at the place `sending` of the list, and
/// the sequence state after it (RFC 5880 sections 6.7.2 to 6.7.4). It is never refused. The types with a
/// sequence number send `xmit`, which then rises by one modulo 2^32. `diag` is below 32.
#[tactic(auto, unfolding(crate::specs::Sealed::sealed, crate::specs::Sealed::sealed_seq))]
pub fn seal(keys: &Keys, sending: u8, seq: &SeqState, c: &Control) -> (Wire, SeqState)
    requires diag { c.now.diag < 32 }
    requires place { sending < length keys.now.list }
    ensures text { result.0 ≡ sealed keys.now sending seq.now c.now }
    ensures seq { result.1 ≡ sealed_seq keys.now seq.now }

    // A receiver with the same keys hears the packet where the type has no number, where it knows none, or
    // where this one lies in its window.
    ensures heard { (receiver : SeqState) → IsTrue (may_hear keys.now.kind receiver c.now.mult seq.now.xmit)
        → verdict keys.now receiver result.0 ≡ Ok (accepted_seq keys.now.kind receiver seq.now.xmit) }
{
    (packet(keys, sending, seq.xmit, c), next(keys.kind, seq))
}

// The packet alone, and what is known of its key.
fn packet(keys: &Keys, sending: u8, sequence: u32, c: &Control) -> Wire
    requires diag { c.now.diag < 32 }
    requires place { sending < length keys.now.list }
    ensures text { result ≡ text_of c.now (section_of keys.now.kind (key_at sending keys.now.list) sequence c.now) }
    ensures fits { IsTrue (fits_kind keys.now.kind (key_at sending keys.now.list).secret) }
    ensures named { key_named (key_at sending keys.now.list).id keys.now.list ≡ Some (key_at sending keys.now.list) }
    ensures range { sequence < 2 ^ 32 }
{
    let key = keys.key_at(sending);
    write(c, &section(keys.kind, key, sequence, c))
}

// The sequence state after a packet.
fn next(kind: AuthType, seq: &SeqState) -> SeqState
    ensures { result ≡ (if is_password kind then seq.now else record seq.now { xmit = (seq.now.xmit + 1) % 2 ^ 32 }) }
{
    if kind.carries_password() {
        *seq
    } else {
        SeqState {
            xmit: seq.xmit.wrapping_add(1),
            rcv: seq.rcv,
            known: seq.known,
        }
    }
}

// The packet's authentication section. The digest is computed over the packet with zeros in its place, where
// `digest` puts the key.
#[tactic(auto, unfolding(bfd_packet::specs::Layout::text_of))]
fn section(kind: AuthType, key: &Key, sequence: u32, c: &Control) -> AuthBytes
    requires fits { IsTrue (fits_kind kind key.now.secret) }
    requires diag { c.now.diag < 32 }
    ensures { result ≡ section_of kind key.now sequence c.now }
{
    if kind.carries_password() {
        let start = [kind.number(), length_of_section(kind, key) as u8, key.id];
        joined(&start, key.secret.as_slice())
    } else {
        let blank = with_digest(kind, key, sequence, zeros(kind.digest_size()));
        let digest = digest(kind, key, write(c, &blank).as_slice());
        with_digest(kind, key, sequence, digest.as_slice())
    }
}

// The section with these bytes in the digest's place.
fn with_digest(kind: AuthType, key: &Key, sequence: u32, bytes: &[u8]) -> AuthBytes
    requires fits { IsTrue (fits_kind kind key.now.secret) }
    requires few { length bytes.now ≤ 20 }
    ensures { result ≡ digest_section kind key.now sequence bytes.now }
{
    let length = length_of_section(kind, key) as u8;
    let mut start = [kind.number(), length, key.id, 0, 0, 0, 0, 0];
    BigEndian::write_u32(&mut start[4..], sequence);
    joined(&start, bytes)
}

// The two pieces, one after the other.
fn joined(start: &[u8], rest: &[u8]) -> AuthBytes
    requires { length start.now + length rest.now ≤ 28 }
    ensures { result ≡ start.now ++ rest.now }
{
    let mut bytes = ArrayVec::<u8, 28>::new();
    bytes.try_extend_from_slice(start).unwrap();
    bytes.try_extend_from_slice(rest).unwrap();
    AuthBytes::of(bytes.as_slice())
}
