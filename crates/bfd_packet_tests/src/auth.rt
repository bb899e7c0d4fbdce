//! Packets whose digests were computed outside, by Python's hashlib, and the sequence windows.

ghost use Rattle.std.specs.Prelude.{◌≡◌, ◌<◌, [], ◌∷◌, length};

use bfd_auth::{AuthType, Key, Keys, Secret, SeqState, seal, verify};
use bfd_packet::{Control, State, Test};
use std::process::Abort;

const DOWN: Control = Control {
    diag: 0,
    state: State::Down,
    poll: false,
    fin: false,
    cpi: false,
    auth: false,
    demand: false,
    multi: false,
    mult: 3,
    length: 24,
    my: 7,
    your: 0,
    min_tx: 1_000_000,
    min_rx: 0,
    min_echo: 0,
};

// A packet of these fields with Simple Password, key 5, "secret".
const PASSWORD: [u8; 33] = [
    0x20, 0x44, 3, 33, 0, 0, 0, 7, 0, 0, 0, 0, 0, 0x0f, 0x42, 0x40, 0, 0, 0, 0, 0, 0, 0, 0, 1, 9,
    5, 0x73, 0x65, 0x63, 0x72, 0x65, 0x74,
];

// Keyed MD5, key 1, "k", sequence 5, and two bytes behind the section that are digested.
const TRAILING: [u8; 50] = [
    0x20, 0x44, 3, 50, 0, 0, 0, 7, 0, 0, 0, 0, 0, 0x0f, 0x42, 0x40, 0, 0, 0, 0, 0, 0, 0, 0, 2, 24,
    1, 0, 0, 0, 0, 5, 0x87, 0x77, 0xe3, 0xfb, 0xa0, 0x3a, 0x99, 0x05, 0xc2, 0x9a, 0x45, 0xb5, 0x33,
    0x91, 0xfe, 0x7f, 0xaa, 0xbb,
];

// One key.
fn one_key(rt: &impl Abort, kind: AuthType, id: u8, secret: &[u8]) -> Keys
    ensures { result.list ≡ record { id = id; secret = secret.now } ∷ [] }
{
    assert!(rt; secret.len() <= 20);
    let secret = Secret::of(secret);
    assert!(rt; secret.fits(kind));
    Keys::one(kind, Key { id, secret })
}

// What a receiver knows.
fn heard(rcv: u32, known: bool) -> SeqState {
    SeqState {
        xmit: 0,
        rcv,
        known,
    }
}

/// Whether such a key seals a packet by this section, and uses up this number.
fn check_section(rt: &impl Abort, kind: AuthType, secret: &[u8], xmit: u32, want: &[u8]) {
    let keys = one_key(rt, kind, 1, secret);
    let seq = SeqState {
        xmit,
        rcv: 4,
        known: true,
    };
    let (wire, after) = seal(&keys, 0, &seq, &DOWN);
    let raw = wire.as_slice();
    assert!(rt; raw.len() >= 24 && &raw[24..] == want);
    let next = if kind == AuthType::Password {
        xmit
    } else {
        xmit.wrapping_add(1)
    };
    assert!(rt; after == SeqState { xmit: next, ..seq });
}

#[test]
fn sections(rt: HostRuntime) {
    for (kind, secret, xmit, want) in [
        (
            AuthType::Password,
            b"secret".as_slice(),
            9,
            b"\x01\x09\x01secret".as_slice(),
        ),
        (
            AuthType::KeyedMd5,
            b"k".as_slice(),
            5,
            b"\x02\x18\x01\x00\x00\x00\x00\x05\xee\xae\xca\xbe\x9a\x2f\x8e\x99\x06\x5c\x99\xc7\x8d\xf5\x07\x8f".as_slice(),
        ),
        (
            AuthType::MeticulousMd5,
            b"0123456789abcdef".as_slice(),
            258,
            b"\x03\x18\x01\x00\x00\x00\x01\x02\x60\xcf\xd4\x32\xcd\x0a\x38\x0a\x22\x7d\x56\xb3\xd6\xff\xf6\x40".as_slice(),
        ),
        (
            AuthType::KeyedSha1,
            b"k".as_slice(),
            u32::MAX,
            b"\x04\x1c\x01\x00\xff\xff\xff\xff\x94\xe7\x32\xc7\xc2\x83\xba\xeb\x9e\xc5\x66\xfa\x4c\x56\x29\xfc\x60\x6e\x71\xef".as_slice(),
        ),
        (
            AuthType::MeticulousSha1,
            b"0123456789abcdefghij".as_slice(),
            0,
            b"\x05\x1c\x01\x00\x00\x00\x00\x00\x36\x14\x16\xd9\xe6\xa5\xb8\xcf\x21\xf8\x97\x6f\xb2\xda\xc5\x7e\x2f\x5b\x08\xc4".as_slice(),
        ),
    ] {
        check_section(&rt, kind, secret, xmit, want);
    }
}

/// What the password packet fails with this byte at this place.
fn fails(keys: &Keys, place: usize, byte: u8) -> Option<Test> {
    let mut raw = PASSWORD;
    if place < 33 {
        raw[place] = byte;
    }
    verify(keys, &heard(0, false), &raw).err()
}

/// What its first bytes fail, so many.
fn fails_short(keys: &Keys, count: usize) -> Option<Test> {
    if count > 33 {
        return None;
    }
    verify(keys, &heard(0, false), &PASSWORD[..count]).err()
}

#[test]
fn first_failing_test(rt: HostRuntime) {
    let keys = one_key(&rt, AuthType::Password, 5, b"secret");
    for (place, byte, want) in [
        (24, 1, None),
        (24, 2, Some(Test::AuthType)),
        (26, 6, Some(Test::AuthKey)),
        (25, 8, Some(Test::AuthLen)),
        (25, 10, Some(Test::AuthLen)),
        (32, 0x54, Some(Test::AuthDigest)),
    ] {
        assert!(rt; fails(&keys, place, byte) == want);
    }
    assert!(rt; fails_short(&keys, 26) == Some(Test::AuthKey));
    assert!(rt; fails_short(&keys, 32) == Some(Test::AuthLen));
}

/// What a receiver says of the trailing packet with this last byte.
fn trailing(keys: &Keys, seq: SeqState, last: u8) -> Result<SeqState, Test> {
    let mut raw = TRAILING;
    raw[49] = last;
    verify(keys, &seq, &raw)
}

#[test]
fn bytes_behind_the_section(rt: HostRuntime) {
    let keys = one_key(&rt, AuthType::KeyedMd5, 1, b"k");
    assert!(rt; trailing(&keys, heard(0, false), 0xbb) == Ok(heard(5, true)));
    assert!(rt; trailing(&keys, heard(0, false), 0xbc) == Err(Test::AuthDigest));
    // The sequence is tested before the digest.
    assert!(rt; trailing(&keys, heard(6, true), 0xbc) == Err(Test::AuthSeq));
}

/// What a receiver in this state says of a packet with this number.
fn heard_with(keys: &Keys, seq: SeqState, xmit: u32) -> Result<SeqState, Test>
    requires { 0 < length keys.now.list }
{
    let sender = SeqState {
        xmit,
        rcv: 0,
        known: false,
    };
    let (wire, _) = seal(keys, 0, &sender, &DOWN);
    verify(keys, &seq, wire.as_slice())
}

#[test]
fn windows(rt: HostRuntime) {
    for (kind, rcv, known, xmit, accepted) in [
        (AuthType::MeticulousSha1, u32::MAX, true, 0, true),
        (AuthType::MeticulousSha1, 0, true, 0, false),
        (AuthType::MeticulousSha1, 0, true, 9, true),
        (AuthType::MeticulousSha1, 9, true, 19, false),
        (AuthType::KeyedMd5, 100, true, 109, true),
        (AuthType::KeyedMd5, 109, true, 109, true),
        (AuthType::KeyedMd5, 109, true, 119, false),
        (AuthType::KeyedMd5, 109, false, 5, true),
        (AuthType::MeticulousMd5, 5, true, 5, false),
        (AuthType::MeticulousMd5, 5, false, 5, true),
    ] {
        let keys = one_key(&rt, kind, 1, b"k");
        let want = if accepted {
            Ok(heard(xmit, true))
        } else {
            Err(Test::AuthSeq)
        };
        assert!(rt; heard_with(&keys, heard(rcv, known), xmit) == want);
    }
}

/// Two keys.
fn two_keys(rt: &impl Abort) -> Keys
    ensures { length result.list ≡ 2 }
{
    let mut keys = one_key(rt, AuthType::KeyedSha1, 1, b"k");
    let second = Key {
        id: 2,
        secret: Secret::of(b"another"),
    };
    assert!(rt; !keys.has_id(2) && second.secret.fits(keys.kind));
    keys.add(second);
    keys
}

#[test]
fn any_key_is_heard(rt: HostRuntime) {
    let keys = two_keys(&rt);
    let (wire, _) = seal(&keys, 1, &heard(0, false), &DOWN);
    let seq = heard(7, false);
    assert!(rt; verify(&keys, &seq, wire.as_slice()) == Ok(heard(0, true)));
    let other = one_key(&rt, AuthType::KeyedSha1, 1, b"k");
    assert!(rt; verify(&other, &seq, wire.as_slice()) == Err(Test::AuthKey));
}
