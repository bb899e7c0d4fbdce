//! What a session authenticates with (RFC 5880 section 6.7).

ghost use Rattle.std.specs.Prelude.{◌≡◌, ◌≤◌, ◌<◌, ◌++◌, [], ◌∷◌, length, nat_le, IsTrue, IfSome, Some, false};
ghost use Rattle.std.specs.Option.{option_copied};

use arrayvec::ArrayVec;
use std::marker::Model;

/// The Auth Type of a section and of a session's keys (RFC 5880 section 4.1).
#[derive(Clone, Copy, Debug, PartialEq, Eq)]
pub enum AuthType {
    Password = 1,
    KeyedMd5 = 2,
    MeticulousMd5 = 3,
    KeyedSha1 = 4,
    MeticulousSha1 = 5,
}

impl AuthType {
    ghost use Rattle.bfd_packet.specs.KeyChain.{digest_size, is_password, type_number};

    /// The type's number in a section, 1 to 5.
    pub fn number(self) -> u8
        ensures { result ≡ type_number self }
    {
        self as u8
    }

    /// Whether the type carries a password, and no sequence number (RFC 5880 section 4.2).
    pub fn carries_password(self) -> bool
        ensures { result ≡ is_password self }
    {
        matches!(self, AuthType::Password)
    }

    /// The length of the type's digest in bytes: 20 of SHA1, else 16. It's also the most bytes of a secret.
    pub fn digest_size(self) -> usize
        ensures { result ≡ digest_size self }
    {
        match self {
            AuthType::KeyedSha1 | AuthType::MeticulousSha1 => 20,
            AuthType::Password | AuthType::KeyedMd5 | AuthType::MeticulousMd5 => 16,
        }
    }
}

/// A password or a key: at most 20 bytes, which stand first. A session has room for four, so one is kept in 21 bytes.
#[derive(Default, Drop)]
pub struct Secret {
    bytes: [u8; 20],
    size: u8,
}

impl Model for Secret {
    ghost use Rattle.std.specs.Prelude.{List, ℕ, ◌≤◌, take};

    ghost Value = { List ℕ };

    ghost view = { λ secret. take secret.size secret.bytes };

    ghost invariant = { λ secret. secret.size ≤ 20 };
}

impl Secret {
    ghost use Rattle.bfd_packet.specs.KeyChain.{fits_kind};

    /// These bytes, of which there are at most 20.
    pub fn of(bytes: &[u8]) -> Self
        requires { length bytes.now ≤ 20 }
        ensures { result ≡ bytes.now }
    {
        let mut kept = [0; 20];
        kept[..bytes.len()].copy_from_slice(bytes);
        Secret {
            bytes: kept,
            size: bytes.len() as u8,
        }
    }

    /// The bytes, at most 20.
    pub fn as_slice(&self) -> &[u8]
        ensures value { result.now ≡ self.now }
        ensures few { length self.now ≤ 20 }
    {
        &self.bytes[..usize::from(self.size)]
    }

    /// Whether it has a length that the type allows: 1 to 16 bytes, or 1 to 20 with SHA1.
    pub fn fits(&self, kind: AuthType) -> bool
        ensures { result ≡ fits_kind kind self.now }
    {
        let size = usize::from(self.size);
        1 <= size && size <= kind.digest_size()
    }
}

/// A key and the Key ID by which packets name it.
#[derive(Default, Drop)]
pub struct Key {
    pub id: u8,
    pub secret: Secret,
}

impl Key {
    /// An equal key.
    fn copy(&self) -> Key
        ensures { result ≡ self.now }
    {
        Key {
            id: self.id,
            secret: Secret::of(self.secret.as_slice()),
        }
    }
}

/// At most 4 keys, in the order in which they were given.
#[derive(Drop)]
pub struct KeyList {
    keys: ArrayVec<Key, 4>,
}

impl Model for KeyList {
    ghost use Rattle.std.specs.Prelude.{List};
    ghost use Rattle.bfd_packet.specs.declared.keys.Key.{Key};

    ghost Value = { List Key };

    ghost view = { λ list. list.keys.items };
}

impl KeyList {
    /// No keys.
    pub fn new() -> Self
        ensures { result ≡ [] }
    {
        KeyList {
            keys: ArrayVec::new(),
        }
    }

    /// An equal list.
    fn copy(&self) -> Self
        ensures { result ≡ self.now }
    {
        let own = self.as_slice();
        let mut list = KeyList::new();
        for at in 0..own.len() {
            list.push(own[at].copy());
        }
        list
    }

    /// Adds a key at the end of a list that has fewer than 4.
    pub fn push(&mut self, key: Key)
        requires { length self.old < 4 }
        ensures { self.new ≡ self.old ++ key ∷ [] }
    {
        self.keys.push(key);
    }

    /// The keys, at most 4.
    pub fn as_slice(&self) -> &[Key]
        ensures value { result.now ≡ self.now }
        ensures few { length self.now ≤ 4 }
    {
        self.keys.as_slice()
    }
}

/// The Auth Type of a session and its keys: one to four, with distinct ids, each secret of 1 to 16 bytes,
/// or 1 to 20 with SHA1.
#[derive(Drop)]
pub struct Keys {
    pub kind: AuthType,
    pub list: KeyList,
}

impl Model for Keys {
    ghost use Rattle.bfd_packet.specs.KeyChain.{KeyChain, IsKeyChain};

    ghost Value = { KeyChain };

    ghost view = { λ keys. record { kind = keys.kind; list = keys.list } };

    ghost invariant = { λ keys. IsKeyChain (record { kind = keys.kind; list = keys.list }) };
}

impl Keys {
    ghost use Rattle.bfd_packet.specs.KeyChain.{distinct_ids, fits_kind, has_id, place_of, key_at, key_named};

    /// A first key, whose secret has a length that the type allows.
    pub fn one(kind: AuthType, key: Key) -> Self
        requires { IsTrue (fits_kind kind key.secret) }
        ensures { result ≡ record { kind = kind; list = key ∷ [] } }
    {
        let mut list = KeyList::new();
        list.push(key);
        Keys { kind, list }
    }

    /// Adds a key at the end, to fewer than four keys, none of which has its id.
    pub fn add(&mut self, key: Key)
        requires room { length self.old.list < 4 }
        requires fresh { has_id key.id self.old.list ≡ false }
        requires fits { IsTrue (fits_kind self.old.kind key.secret) }
        ensures { self.new ≡ record self.old { list = self.old.list ++ key ∷ [] } }
    {
        self.list.push(key);
    }

    /// Equal keys.
    pub fn copy(&self) -> Self
        ensures { result ≡ self.now }
    {
        Keys {
            kind: self.kind,
            list: self.list.copy(),
        }
    }

    /// How many keys there are: 1 to 4.
    pub fn len(&self) -> usize
        ensures value { result ≡ length self.now.list }
        ensures some { 0 < result }
        ensures few { result ≤ 4 }
    {
        self.list.as_slice().len()
    }

    /// Whether there are four keys, so that no other can be added.
    pub fn is_full(&self) -> bool
        ensures { result ≡ nat_le 4 (length self.now.list) }
    {
        self.list.as_slice().len() >= 4
    }

    /// Whether a key has this id.
    pub fn has_id(&self, id: u8) -> bool
        ensures { result ≡ has_id id self.now.list }
    {
        self.list.as_slice().iter().any(|key| id == key.id)
    }

    /// The place of the key with this id, 0 to 3, or None if and only if no key has it, as where it is above 255.
    pub fn place_of(&self, id: u64) -> Option<u8>
        ensures value { result ≡ place_of id self.now.list }
        ensures within { IfSome result (λ place. place < length self.now.list) }
    {
        match self.position_of(id) {
            Some(place) => Some(place as u8),
            None => None,
        }
    }

    // The same place, as an index.
    fn position_of(&self, id: u64) -> Option<usize>
        ensures value { result ≡ place_of id self.now.list }
        ensures within { IfSome result (λ place. place < length self.now.list) }
        ensures few { length self.now.list ≤ 4 }
    {
        self.list
            .as_slice()
            .iter()
            .position(|key| id == u64::from(key.id))
    }

    /// The key at this place of the list. Its secret has a length that the type allows, and its id names
    /// it.
    pub fn key_at(&self, place: u8) -> &Key
        requires { place < length self.now.list }
        ensures value { result.now ≡ key_at place self.now.list }
        ensures fits { IsTrue (fits_kind self.now.kind result.now.secret) }
        ensures named { key_named result.now.id self.now.list ≡ Some result.now }
    {
        self.nth(place)
    }

    // The same key, and that the ids are distinct.
    fn nth(&self, place: u8) -> &Key
        requires { place < length self.now.list }
        ensures value { result.now ≡ key_at place self.now.list }
        ensures fits { IsTrue (fits_kind self.now.kind result.now.secret) }
        ensures ids { IsTrue (distinct_ids self.now.list) }
    {
        &self.list.as_slice()[usize::from(place)]
    }

    /// The key with this id, or None if and only if no key has it. Its secret has a length that the type
    /// allows.
    pub fn key_named(&self, id: u8) -> Option<&Key>
        ensures value { option_copied result ≡ key_named id self.now.list }
        ensures fits { IfSome result (λ key. IsTrue (fits_kind self.now.kind key.now.secret)) }
    {
        self.list.as_slice().iter().find(|key| id == key.id)
    }
}

/// The sequence state of a session: bfd.XmitAuthSeq, bfd.RcvAuthSeq and bfd.AuthSeqKnown (RFC 5880
/// section 6.8.1).
#[derive(Clone, Copy, Debug, PartialEq, Eq)]
pub struct SeqState {
    pub xmit: u32,
    pub rcv: u32,
    pub known: bool,
}
