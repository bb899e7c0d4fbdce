//! The tests on a packet's authentication section.

ghost use Rattle.std.specs.Prelude.{◌≡◌, ◌+◌, ◌-◌, ◌*◌, ◌^◌, ◌<◌, ◌≤◌, length, slice_index, slice_range, IsTrue, IfNone, IfSome, Some};
ghost use Rattle.std.specs.Prelude.{find, false};
ghost use Rattle.std.specs.Option.{option_copied};
ghost use Rattle.bfd_packet.specs.KeyChain.{fits_kind, is_password};
ghost use Rattle.bfd_auth.specs.Digests.{digest_of, is_meticulous, section_length, uses_sha1};
ghost use Rattle.bfd_auth.specs.Verdict.{has_section_length, accepted_seq, in_window, is_genuine, may_hear, packet_key, right_digest};
ghost use Rattle.bfd_auth.specs.Verdict.{section_fails, section_tests, sequence_of, verdict, window};

use crate::digests::{digest, has_to_rise, length_of_section};
use bfd_packet::{AuthType, Key, Keys, SeqState, Test};
use byteorder::{BigEndian, ByteOrder};

/// Tests the section of a control packet that has A set (RFC 5880 sections 6.7.2 to 6.7.4). `raw` is the
/// packet: the first Length bytes of its payload. The answer is the first test that the packet fails, of
/// AuthType, AuthKey, AuthLen, AuthSeq and AuthDigest in this order, and else the state after it.
///
/// The key is the one that the packet's Key ID names, whichever of the keys is sent. The types with a
/// sequence number then know this one; Simple Password leaves the state. The reserved byte isn't looked at.
#[tactic(auto, unfolding(crate::specs::Verdict::verdict))]
pub fn verify(keys: &Keys, seq: &SeqState, raw: &[u8]) -> Result<SeqState, Test>
    ensures { result ≡ verdict keys.now seq.now raw.now }
{
    match first_failing(keys, seq, raw) {
        Some(test) => Err(test),
        None => Ok(accepted_seq(keys.kind, seq, raw)),
    }
}

// The first test that the packet fails. If it fails none, its section is present.
fn first_failing(keys: &Keys, seq: &SeqState, raw: &[u8]) -> Option<Test>
    ensures value { result ≡ find (λ test. section_fails keys.now seq.now raw.now test) section_tests }
    ensures whole { IfNone result (is_password keys.now.kind ≡ false → 32 ≤ length raw.now) }
{
    let kind = keys.kind;
    if byte_at(raw, 24) != kind.number() {
        return Some(Test::AuthType);
    }
    let Some(key) = packet_key(keys, raw) else {
        return Some(Test::AuthKey);
    };
    if !has_section_length(kind, key, raw) {
        return Some(Test::AuthLen);
    }
    if !may_hear(kind, seq, raw) {
        return Some(Test::AuthSeq);
    }
    if !is_genuine(kind, key, raw) {
        return Some(Test::AuthDigest);
    }
    None
}

// The byte at this place, or 0 past the end.
fn byte_at(raw: &[u8], place: usize) -> u8
    ensures { result ≡ slice_index raw.now place }
{
    raw.get(place).copied().unwrap_or(0)
}

// The key that the packet's Key ID names.
fn packet_key<'a>(keys: &'a Keys, raw: &[u8]) -> Option<&'a Key>
    ensures value { option_copied result ≡ packet_key keys.now.list raw.now }
    ensures fits { IfSome result (λ key. IsTrue (fits_kind keys.now.kind key.now.secret)) }
{
    if raw.len() <= 26 {
        None
    } else {
        keys.key_named(raw[26])
    }
}

// Whether Auth Len is what the type and the key ask for, and doesn't run past the packet.
fn has_section_length(kind: AuthType, key: &Key, raw: &[u8]) -> bool
    requires { IsTrue (fits_kind kind key.now.secret) }
    ensures value { result ≡ has_section_length kind key.now raw.now }
    ensures whole { IsTrue result → is_password kind ≡ false → 32 ≤ length raw.now }
{
    let length = usize::from(byte_at(raw, 25));
    length == length_of_section(kind, key) && length <= raw.len().saturating_sub(24)
}

// Whether the packet's sequence number may be heard.
fn may_hear(kind: AuthType, seq: &SeqState, raw: &[u8]) -> bool
    requires { is_password kind ≡ false → 32 ≤ length raw.now }
    ensures { result ≡ may_hear kind seq.now (slice_index raw.now 2) (sequence_of raw.now) }
{
    kind.carries_password() || !seq.known || in_window(kind, seq.rcv, raw[2], sequence(raw))
}

// The packet's sequence number.
fn sequence(raw: &[u8]) -> u32
    requires { 32 ≤ length raw.now }
    ensures { result ≡ sequence_of raw.now }
{
    BigEndian::read_u32(&raw[28..])
}

// Whether the sequence number may follow the last one heard.
fn in_window(kind: AuthType, last: u32, mult: u8, s: u32) -> bool
    ensures { result ≡ in_window kind last mult s }
{
    let width = 3 * u32::from(mult);
    if has_to_rise(kind) {
        window(last.wrapping_add(1), width.saturating_sub(1), s)
    } else {
        window(last, width, s)
    }
}

// Whether the sequence number is one of the width + 1 numbers from `lo` on, modulo 2^32.
fn window(lo: u32, width: u32, s: u32) -> bool
    ensures { result ≡ window lo width s }
{
    s.wrapping_sub(lo) <= width
}

// Whether the password is the secret, or the digest the right one.
fn is_genuine(kind: AuthType, key: &Key, raw: &[u8]) -> bool
    requires fits { IsTrue (fits_kind kind key.now.secret) }
    requires whole { IsTrue (has_section_length kind key.now raw.now) }
    ensures { result ≡ is_genuine kind key.now raw.now }
{
    if kind.carries_password() {
        let end = 24 + usize::from(raw[25]);
        &raw[27..end] == key.secret.as_slice()
    } else {
        let end = 32 + kind.digest_size();
        &raw[32..end] == digest(kind, key, raw).as_slice()
    }
}

// The state after a packet that was accepted.
fn accepted_seq(kind: AuthType, seq: &SeqState, raw: &[u8]) -> SeqState
    requires { is_password kind ≡ false → 32 ≤ length raw.now }
    ensures { result ≡ accepted_seq kind seq.now (sequence_of raw.now) }
{
    if kind.carries_password() {
        *seq
    } else {
        SeqState {
            xmit: seq.xmit,
            rcv: sequence(raw),
            known: true,
        }
    }
}
