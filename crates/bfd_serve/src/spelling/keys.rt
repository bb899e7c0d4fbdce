//! The lines of a session's keys.
ghost use Rattle.std.specs.Prelude.{◌≡◌, IfOk, string_bytes};
ghost use Rattle.std.specs.Option.{option_copied};
ghost use Rattle.bfd_script.specs.Spelling.{line};
ghost use Rattle.bfd_serve.specs.Written.{auth_fields, key_fields, keys_text, list_text, more_text};

use bfd_packet::{AuthType, Key, Keys};
use bfd_script::fields::hex_text;
use std::alloc::{AllocError, Global};

/// The `auth` line of a key.
fn auth_text(alloc: Global, discr: u32, kind: AuthType, key: &Key) -> Result<String, AllocError>
    ensures { IfOk result (λ text. string_bytes text ≡ line (auth_fields discr kind key.now)) }
{
    let kind = kind.number();
    let id = key.id;
    let secret = hex_text(alloc, key.secret.as_slice())?;
    format!(in alloc; "auth {discr} {kind} {id} {secret}\n")
}

/// The `key` line of a key.
fn key_text(alloc: Global, discr: u32, key: &Key) -> Result<String, AllocError>
    ensures { IfOk result (λ text. string_bytes text ≡ line (key_fields discr key.now)) }
{
    let id = key.id;
    let secret = hex_text(alloc, key.secret.as_slice())?;
    format!(in alloc; "key {discr} {id} {secret}\n")
}

/// The `key` lines of these keys.
fn more_text(alloc: Global, discr: u32, keys: &[Key]) -> Result<String, AllocError>
    ensures { IfOk result (λ text. string_bytes text ≡ more_text discr keys.now) }
{
    let mut text = String::new(alloc);
    for key in keys {
        let line = key_text(alloc, discr, key)?;
        text.push_str(line.as_str())?;
    }
    Ok(text)
}

/// The lines of these keys.
fn list_text(alloc: Global, discr: u32, kind: AuthType, keys: &[Key]) -> Result<String, AllocError>
    ensures { IfOk result (λ text. string_bytes text ≡ list_text discr kind keys.now) }
{
    match keys {
        [] => Ok(String::new(alloc)),
        [key, keys @ ..] => {
            let first = auth_text(alloc, discr, kind, key)?;
            let others = more_text(alloc, discr, keys)?;
            format!(in alloc; "{first}{others}")
        }
    }
}

/// The lines of a session's keys, where it has some.
pub(crate) fn keys_text(
    alloc: Global,
    discr: u32,
    keys: Option<&Keys>,
) -> Result<String, AllocError>
    ensures { IfOk result (λ text. string_bytes text ≡ keys_text discr (option_copied keys.entry)) }
{
    match keys {
        None => Ok(String::new(alloc)),
        Some(keys) => list_text(alloc, discr, keys.kind, keys.list.as_slice()),
    }
}
