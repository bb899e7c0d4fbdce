//! The keys of a session.
ghost use Rattle.std.specs.Prelude.{◌≡◌, ◌<◌, IfOk, IsTrue};
ghost use Rattle.std.specs.Option.{option_copied};
ghost use Rattle.hex.specs.Hex.{IsBytes};
ghost use Rattle.bfd_packet.specs.KeyChain.{fits_kind};
ghost use Rattle.bfd_script.specs.Gives.{Gives};
ghost use Rattle.bfd_script.specs.Secrets.{chain_of, fitting, key_fault, key_of, kind_by, auth_type_of, one_key, secret_of};
ghost use Rattle.bfd_script.specs.Ranges.{IsChain, IsKey};

use crate::fields::{LineFault, ReadFault, bytes_read, number};
use bfd_packet::{AuthType, Key, Keys, Secret};
use std::alloc::Global;

/// The Auth Type of a number 1 to 5.
fn kind_by(n: u64) -> AuthType
    ensures { result ≡ kind_by n }
{
    match n {
        1 => AuthType::Password,
        2 => AuthType::KeyedMd5,
        3 => AuthType::MeticulousMd5,
        4 => AuthType::KeyedSha1,
        _ => AuthType::MeticulousSha1,
    }
}

/// A field that is an Auth Type.
fn kind_read(field: &[u8]) -> Result<AuthType, LineFault>
    ensures { result ≡ auth_type_of field.now }
{
    let n = number(field, 1, 5)?;
    Ok(kind_by(n))
}

/// Bytes that are a secret: OutOfRange where there are none, and where there are more than its type has room for.
fn fit(kind: AuthType, bytes: &[u8]) -> Result<Secret, LineFault>
    ensures value { result ≡ fitting kind bytes.now }
    ensures bytes { IfOk result (λ secret. IsBytes secret) }
    ensures fits { IfOk result (λ secret. IsTrue (fits_kind kind secret)) }
{
    if bytes.is_empty() || bytes.len() > kind.digest_size() {
        return Err(LineFault::OutOfRange);
    }
    Ok(Secret::of(bytes))
}

/// A field that is a secret: bytes of a number that the type has room for.
fn secret_read(alloc: Global, kind: AuthType, field: &[u8]) -> Result<Secret, ReadFault>
    ensures value { Gives (λ s. s) result (secret_of kind field.now) }
    ensures bytes { IfOk result (λ secret. IsBytes secret) }
    ensures fits { IfOk result (λ secret. IsTrue (fits_kind kind secret)) }
{
    let bytes = bytes_read(alloc, field)?;
    Ok(fit(kind, &bytes)?)
}

/// One key of this type.
fn one(kind: AuthType, id: u8, secret: Secret) -> Keys
    requires bytes { IsBytes secret }
    requires fits { IsTrue (fits_kind kind secret) }
    ensures value { result ≡ one_key kind id secret }
    ensures sound { IsChain result }
{
    Keys::one(kind, Key { id, secret })
}

/// The last three values of an `auth` line.
#[tactic(auto, unfolding(crate::specs::Secrets::chain_of))]
pub(crate) fn read_chain(
    alloc: Global,
    kind: &[u8],
    id: &[u8],
    secret: &[u8],
) -> Result<Keys, ReadFault>
    ensures value { Gives (λ k. k) result (chain_of kind.now id.now secret.now) }
    ensures sound { IfOk result IsChain }
{
    let kind = kind_read(kind)?;
    let id = number(id, 0, 255)? as u8;
    let secret = secret_read(alloc, kind, secret)?;
    Ok(one(kind, id, secret))
}

/// The last two values of a `key` line. The type with the most room is asked of the secret here: which type the session
/// has stands in the table.
#[tactic(auto, unfolding(crate::specs::Secrets::key_of))]
pub(crate) fn read_key(alloc: Global, id: &[u8], secret: &[u8]) -> Result<Key, ReadFault>
    ensures value { Gives (λ k. k) result (key_of id.now secret.now) }
    ensures sound { IfOk result IsKey }
{
    let id = number(id, 0, 255)? as u8;
    let secret = secret_read(alloc, AuthType::KeyedSha1, secret)?;
    Ok(Key { id, secret })
}

/// What is wrong with one more key for a session with these keys.
pub fn key_fault(keys: Option<&Keys>, key: &Key) -> Option<LineFault>
    ensures { result ≡ key_fault (option_copied keys.entry) key.now }
{
    let Some(keys) = keys else {
        return Some(if key.secret.fits(AuthType::Password) {
            LineFault::NoSuchSession
        } else {
            LineFault::OutOfRange
        });
    };
    if !key.secret.fits(keys.kind) {
        return Some(LineFault::OutOfRange);
    }
    if keys.has_id(key.id) {
        return Some(LineFault::SameKey);
    }
    if keys.is_full() {
        return Some(LineFault::TooMany);
    }
    None
}
