//! Bounded buffers of bytes, which contracts see as lists.

ghost use Rattle.std.specs.Prelude.{◌≡◌, ◌≤◌, ◌+◌, ◌++◌, IfOk, IsOk, length, take};

use arrayvec::ArrayVec;
use std::alloc::{AllocError, Global};
use std::marker::Model;

// How many bytes of a payload are kept.
const KEPT: usize = 256;

// How many bytes stand in place: as many as a control packet has.
const IN_PLACE: usize = 52;

/// The bytes of a control packet as it is sent: at most 52, since the greatest section has 28.
#[derive(Default, Drop)]
pub struct Wire {
    bytes: [u8; 52],
    size: u8,
}

impl Model for Wire {
    ghost use Rattle.std.specs.Prelude.{List, ℕ, ◌≤◌, take};

    ghost Value = { List ℕ };

    ghost view = { λ wire. take wire.size wire.bytes };

    ghost invariant = { λ wire. wire.size ≤ 52 };
}

impl Wire {
    /// These bytes, of which there are at most 52.
    pub fn of(bytes: &[u8]) -> Self
        requires { length bytes.now ≤ 52 }
        ensures { result ≡ bytes.now }
    {
        let mut room = [0; IN_PLACE];
        room[..bytes.len()].copy_from_slice(bytes);
        Wire::front(room, bytes.len() as u8)
    }

    /// The first bytes of an array, so many.
    pub fn front(bytes: [u8; 52], size: u8) -> Self
        requires { size ≤ 52 }
        ensures { result ≡ take size bytes }
    {
        Wire { bytes, size }
    }

    /// Puts these bytes behind the others.
    pub(crate) fn append(&mut self, bytes: &[u8])
        requires { length self.old + length bytes.now ≤ 52 }
        ensures { self.new ≡ self.old ++ bytes.now }
    {
        let from = usize::from(self.size);
        let to = from + bytes.len();
        self.bytes[from..to].copy_from_slice(bytes);
        self.size = to as u8;
    }

    /// The bytes, at most 52.
    pub fn as_slice(&self) -> &[u8]
        ensures value { result.now ≡ self.now }
        ensures few { length self.now ≤ 52 }
    {
        &self.bytes[..usize::from(self.size)]
    }
}

/// The bytes of an authentication section: none, or at most 28 (RFC 5880 sections 4.2 to 4.4).
#[derive(Default, Drop)]
pub struct AuthBytes {
    bytes: ArrayVec<u8, 28>,
}

impl Model for AuthBytes {
    ghost use Rattle.std.specs.Prelude.{List, ℕ};

    ghost Value = { List ℕ };

    ghost view = { λ section. section.bytes.items };
}

impl AuthBytes {
    /// These bytes, of which there are at most 28.
    pub fn of(bytes: &[u8]) -> Self
        requires { length bytes.now ≤ 28 }
        ensures { result ≡ bytes.now }
    {
        let mut kept = ArrayVec::new();
        kept.try_extend_from_slice(bytes).unwrap();
        AuthBytes { bytes: kept }
    }

    /// The bytes, at most 28.
    pub fn as_slice(&self) -> &[u8]
        ensures value { result.now ≡ self.now }
        ensures few { length self.now ≤ 28 }
    {
        self.bytes.as_slice()
    }
}

/// Bytes in place, or on the heap.
#[derive(Drop)]
enum Kept {
    Short(Wire),
    Long(Vec<u8>),
}

/// The first 256 bytes of a UDP payload: no test looks at more. As many as a control packet has stand in place.
#[derive(Drop)]
pub struct Payload {
    bytes: Kept,
}

impl Model for Payload {
    ghost use Rattle.std.specs.Prelude.{List, ℕ, length, ◌≤◌};
    ghost use Rattle.bfd_packet.specs.Buffers.{payload_bytes};

    ghost Value = { List ℕ };

    ghost view = { λ payload. payload_bytes payload.bytes };

    ghost invariant = { λ payload. length (payload_bytes payload.bytes) ≤ 256 };
}

impl Payload {
    /// Keeps the first 256 bytes of a UDP payload. It fails only when out of memory, and never for up to 52 bytes.
    pub fn keep(alloc: Global, bytes: &[u8]) -> Result<Self, AllocError>
        ensures kept { IfOk result (λ kept. kept ≡ take 256 bytes.now) }
        ensures short { length bytes.now ≤ 52 → IsOk result }
    {
        Payload::of(alloc, front(bytes, KEPT))
    }

    /// The first bytes of an array, so many, with no copy of them.
    pub fn front(bytes: [u8; 52], size: u8) -> Self
        requires { size ≤ 52 }
        ensures { result ≡ take size bytes }
    {
        Payload {
            bytes: Kept::Short(Wire::front(bytes, size)),
        }
    }

    /// An equal payload. It fails only when out of memory, and never for up to 52 bytes.
    pub fn copy(&self, alloc: Global) -> Result<Self, AllocError>
        ensures copied { IfOk result (λ copied. copied ≡ self.now) }
        ensures short { length self.now ≤ 52 → IsOk result }
    {
        Payload::of(alloc, self.as_slice())
    }

    // These bytes.
    fn of(alloc: Global, bytes: &[u8]) -> Result<Self, AllocError>
        requires { length bytes.now ≤ 256 }
        ensures kept { IfOk result (λ kept. kept ≡ bytes.now) }
        ensures short { length bytes.now ≤ 52 → IsOk result }
    {
        if bytes.len() <= IN_PLACE {
            return Ok(Payload {
                bytes: Kept::Short(Wire::of(bytes)),
            });
        }
        let bytes = Vec::from_slice(alloc, bytes)?;
        Ok(Payload {
            bytes: Kept::Long(bytes),
        })
    }

    /// The bytes, at most 256.
    pub fn as_slice(&self) -> &[u8]
        ensures value { result.now ≡ self.now }
        ensures few { length self.now ≤ 256 }
    {
        match &self.bytes {
            Kept::Short(wire) => wire.as_slice(),
            Kept::Long(bytes) => bytes.as_slice(),
        }
    }
}

// The first bytes, at most so many.
fn front(bytes: &[u8], most: usize) -> &[u8]
    ensures value { result.now ≡ take most bytes.now }
    ensures few { length result.now ≤ most }
    ensures no_more { length result.now ≤ length bytes.now }
{
    if bytes.len() <= most {
        bytes
    } else {
        &bytes[..most]
    }
}
