//! The lines of the table.
ghost use Rattle.std.specs.Prelude.{◌≡◌, IfOk, string_bytes};
ghost use Rattle.bfd_serve.specs.Written.{config_text, pool_text, rows_text};

use crate::spelling::keys::keys_text;
use crate::spelling::rows::{reflector_text, row_text};
use bfd_sbfd::Reflector;
use bfd_script::keys_in;
use bfd_session::SessionConfig;
use std::alloc::{AllocError, Global};

/// The lines of a session.
fn config_text(alloc: Global, config: &SessionConfig) -> Result<String, AllocError>
    ensures { IfOk result (λ text. string_bytes text ≡ config_text config.now) }
{
    let row = row_text(alloc, config)?;
    let keys = keys_text(alloc, config.discr(), keys_in(config))?;
    format!(in alloc; "{row}{keys}")
}

/// The lines of sessions.
pub(crate) fn rows_text(alloc: Global, configs: &[SessionConfig]) -> Result<String, AllocError>
    ensures { IfOk result (λ text. string_bytes text ≡ rows_text configs.now) }
{
    let mut text = String::new(alloc);
    for config in configs {
        let lines = config_text(alloc, config)?;
        text.push_str(lines.as_str())?;
    }
    Ok(text)
}

/// The lines of reflectors.
pub(crate) fn pool_text(alloc: Global, pool: &[Reflector]) -> Result<String, AllocError>
    ensures { IfOk result (λ text. string_bytes text ≡ pool_text pool.now) }
{
    let mut text = String::new(alloc);
    for reflector in pool {
        let line = reflector_text(alloc, reflector)?;
        text.push_str(line.as_str())?;
    }
    Ok(text)
}
