//! Packets written down by hand from the layout of RFC 5880 section 4.1, as routing daemons send them.

use bfd_packet::{AuthBytes, Control, Port, State, Test, header_test, read, write};
use byteorder::{BigEndian, ByteOrder};
use std::alloc::{AllocError, Global};
use std::test::Fail;

const PORTS: [Port; 5] = [
    Port::Single,
    Port::Multi,
    Port::Echo,
    Port::Sbfd,
    Port::Answer,
];

// A session that comes up: Down, one second, 300 ms, echo offered at 50 ms.
const DOWN: Control = Control {
    diag: 0,
    state: State::Down,
    poll: false,
    fin: false,
    cpi: false,
    auth: false,
    demand: false,
    multi: false,
    mult: 3,
    length: 24,
    my: 0xaa01,
    your: 0,
    min_tx: 1_000_000,
    min_rx: 300_000,
    min_echo: 50_000,
};

// The bytes of six words.
fn packet(words: [u32; 6]) -> [u8; 24] {
    let mut bytes = [0; 24];
    BigEndian::write_u32_into(&words, &mut bytes);
    bytes
}

// The bytes of six words and of a section.
fn with_section(alloc: Global, words: [u32; 6], section: &[u8]) -> Result<Vec<u8>, AllocError> {
    let mut bytes = Vec::from_slice(alloc, &packet(words))?;
    bytes.extend_from_slice(section)?;
    Ok(bytes)
}

#[test]
fn truncated(rt: HostRuntime) {
    let whole = packet([0x2040_0318, 7, 0, 1_000_000, 0, 0]);
    for (count, want) in [
        (0, Some(Test::Short)),
        (3, Some(Test::Short)),
        (4, Some(Test::LengthOver)),
        (23, Some(Test::LengthOver)),
        (24, None),
    ] {
        assert!(rt; count <= whole.len() && header_test(Port::Multi, &whole[..count]) == want);
    }
    let short = [0x20, 0x40, 3, 16];
    assert!(rt; header_test(Port::Multi, &short) == Some(Test::LengthMin));
}

#[test]
fn tests_come_in_order(rt: HostRuntime) {
    for port in PORTS {
        let single = port == Port::Single;
        for (first, my, want) in [
            (0x2040_0318, 7, None),
            (0x2044_0318, 7, Some(Test::LengthMin)),
            (0x4040_0018, 7, Some(Test::Version)),
            (0x2040_0018, 7, Some(Test::DetectMult)),
            (0x2041_0018, 7, Some(Test::DetectMult)),
            (0x2040_0318, 0, Some(Test::MyDiscr)),
            (
                0x2041_0318,
                7,
                if single { None } else { Some(Test::Multipoint) },
            ),
            (
                0x2041_0318,
                0,
                Some(if single {
                    Test::MyDiscr
                } else {
                    Test::Multipoint
                }),
            ),
        ] {
            assert!(rt; header_test(port, &packet([first, my, 0, 1_000_000, 0, 0])) == want);
        }
    }
}

/// What a packet with this first word and this section fails.
fn fails(alloc: Global, first: u32, section: &[u8]) -> Result<Option<Test>, AllocError> {
    let bytes = with_section(alloc, [first, 7, 0, 1_000_000, 0, 0], section)?;
    Ok(header_test(Port::Single, bytes.as_slice()))
}

#[test]
fn a_section_has_two_bytes(rt: HostRuntime) {
    let one = fails(rt.alloc(), 0x2044_0319, &[1]);
    assert!(rt; matches!(one, Ok(Some(Test::LengthMin))));
    let two = fails(rt.alloc(), 0x2044_031a, &[1, 2]);
    assert!(rt; matches!(two, Ok(None)));
}

/// Whether these bytes are read as this packet, which is written as these.
fn is_spelled(bytes: &[u8], packet: &Control) -> bool {
    if packet.diag >= 32 {
        return false;
    }
    let written = write(packet, &AuthBytes::of(&[]));
    written.as_slice() == bytes && read(Port::Single, bytes) == Ok(*packet)
}

#[test]
fn daemons_packets(rt: HostRuntime) {
    for (words, want) in [
        ([0x2040_0318, 0xaa01, 0, 1_000_000, 300_000, 50_000], DOWN),
        (
            [0x2080_0318, 0xaa01, 11, 1_000_000, 300_000, 50_000],
            Control {
                state: State::Init,
                your: 11,
                ..DOWN
            },
        ),
        (
            [0x20e8_0518, 0xaa01, 11, 300_000, 300_000, 0],
            Control {
                state: State::Up,
                poll: true,
                cpi: true,
                mult: 5,
                your: 11,
                min_tx: 300_000,
                min_echo: 0,
                ..DOWN
            },
        ),
        (
            [0x2700_0318, 0xaa01, 0xfeed_beef, 1_000_000, 300_000, 50_000],
            Control {
                diag: 7,
                state: State::AdminDown,
                your: 0xfeed_beef,
                ..DOWN
            },
        ),
        (
            [0x3fd2_ff18, 0xffff_ffff, 11, 0xffff_ffff, 0, 0],
            Control {
                diag: 31,
                state: State::Up,
                fin: true,
                demand: true,
                mult: 255,
                my: 0xffff_ffff,
                your: 11,
                min_tx: 0xffff_ffff,
                min_rx: 0,
                min_echo: 0,
                ..DOWN
            },
        ),
    ] {
        assert!(rt; is_spelled(&packet(words), &want));
    }
}

/// Whether these bytes are read as a packet with a section that ends so, and written by its section.
fn is_sealed(bytes: &[u8], length: u8, section: &[u8]) -> bool {
    let want = Control {
        auth: true,
        length,
        ..DOWN
    };
    if section.len() > 28 {
        return false;
    }
    let written = write(&DOWN, &AuthBytes::of(section));
    written.as_slice() == bytes && read(Port::Multi, bytes) == Ok(want)
}

#[test]
fn packets_with_a_section(rt: HostRuntime) -> Result<(), Fail> {
    // Simple Password, key 5, "secret".
    let password = [1, 9, 5, 0x73, 0x65, 0x63, 0x72, 0x65, 0x74];
    // Meticulous Keyed SHA1, key 1, sequence 258, a digest of twenty bytes.
    let sha1 = [
        5, 28, 1, 0, 0, 0, 1, 2, 9, 9, 9, 9, 9, 9, 9, 9, 9, 9, 9, 9, 9, 9, 9, 9, 9, 9, 9, 9,
    ];
    for (first, section, length) in [
        (0x2044_0321, password.as_slice(), 33),
        (0x2044_0334, sha1.as_slice(), 52),
    ] {
        let words = [first, 0xaa01, 0, 1_000_000, 300_000, 50_000];
        let bytes = with_section(rt.alloc(), words, section)?;
        assert!(rt; is_sealed(bytes.as_slice(), length, section));
    }
    Ok(())
}
