//! The digest of a packet, computed in pieces.

ghost use Rattle.std.specs.Prelude.{◌≡◌, ◌+◌, ◌-◌, ◌++◌, ◌≤◌, length, replicate, IsTrue, false};
ghost use Rattle.md5.specs.Md5.{md5};
ghost use Rattle.sha1.specs.Sha1.{sha1};
ghost use Rattle.bfd_packet.specs.KeyChain.{digest_size, fits_kind};
ghost use Rattle.bfd_auth.specs.Digests.{digest_of, in_digest_place, is_meticulous, padded, section_length, uses_sha1};
ghost use Rattle.bfd_auth.specs.Verdict.{right_digest};

use bfd_packet::{AuthBytes, AuthType, Key};
use md5::{Digest, Md5};
use sha1::Sha1;

// Zeros to pad a key with.
const ZEROS: [u8; 20] = [0; 20];

/// The digest of the packet with the padded key in the digest's place. Nothing is copied: the pieces are
/// hashed one after the other.
pub fn digest(kind: AuthType, key: &Key, packet: &[u8]) -> AuthBytes
    requires fits { IsTrue (fits_kind kind key.now.secret) }
    requires room { digest_size kind + 32 ≤ length packet.now }
    ensures value { result ≡ right_digest kind key.now packet.now }
    ensures size { length result ≡ digest_size kind }
{
    let size = kind.digest_size();
    let secret = key.secret.as_slice();
    let zeros = zeros(size - secret.len());
    let (front, rest) = packet.split_at(32);
    let rest = &rest[size..];
    if is_sha1(kind) {
        AuthBytes::of(&sha1_of(front, secret, zeros, rest))
    } else {
        AuthBytes::of(&md5_of(front, secret, zeros, rest))
    }
}

/// So many zeros, at most 20.
pub fn zeros(count: usize) -> &'static [u8]
    requires { count ≤ 20 }
    ensures { result.now ≡ replicate count 0 }
{
    &ZEROS[..count]
}

// SHA1 of four pieces.
fn sha1_of(front: &[u8], secret: &[u8], zeros: &[u8], rest: &[u8]) -> [u8; 20]
    ensures { result ≡ sha1 (front.now ++ ((secret.now ++ zeros.now) ++ rest.now)) }
{
    let mut hasher = Sha1::new();
    hasher.update(front);
    hasher.update(secret);
    hasher.update(zeros);
    hasher.update(rest);
    hasher.finalize()
}

// MD5 of four pieces.
fn md5_of(front: &[u8], secret: &[u8], zeros: &[u8], rest: &[u8]) -> [u8; 16]
    ensures { result ≡ md5 (front.now ++ ((secret.now ++ zeros.now) ++ rest.now)) }
{
    let mut hasher = Md5::new();
    hasher.update(front);
    hasher.update(secret);
    hasher.update(zeros);
    hasher.update(rest);
    hasher.finalize()
}

/// Whether the sequence number has to rise with each packet.
pub fn has_to_rise(kind: AuthType) -> bool
    ensures { result ≡ is_meticulous kind }
{
    matches!(kind, AuthType::MeticulousMd5 | AuthType::MeticulousSha1)
}

// Whether the digest is SHA1's.
fn is_sha1(kind: AuthType) -> bool
    ensures { result ≡ uses_sha1 kind }
{
    matches!(kind, AuthType::KeyedSha1 | AuthType::MeticulousSha1)
}

/// The Auth Len that the type and the key ask for.
pub fn length_of_section(kind: AuthType, key: &Key) -> usize
    requires { IsTrue (fits_kind kind key.now.secret) }
    ensures value { result ≡ section_length kind key.now }
    ensures few { result ≤ 28 }
{
    if kind.carries_password() {
        key.secret.as_slice().len() + 3
    } else {
        kind.digest_size() + 8
    }
}
