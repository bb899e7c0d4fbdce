//! The one spelling of a script.
ghost use Rattle.std.specs.Prelude.{◌≡◌, IfOk, Ok, false, string_bytes};
ghost use Rattle.bfd_script.specs.Reading.{script_of};
ghost use Rattle.bfd_script.specs.Sound.{IsScript};
ghost use Rattle.bfd_serve.specs.Written.{spelling};

use crate::spelling::events::events_text;
use crate::spelling::table::{pool_text, rows_text};
use crate::spelling::versions::version_text;
use bfd_script::Script;
use std::alloc::{AllocError, Global};

/// The text of a script.
fn script_text(alloc: Global, script: &Script) -> Result<String, AllocError>
    ensures { IfOk result (λ text. string_bytes text ≡ spelling script.now) }
{
    let version = version_text(script);
    let rows = rows_text(alloc, &script.configs)?;
    let pool = pool_text(alloc, &script.pool)?;
    let events = events_text(alloc, &script.events)?;
    format!(in alloc; "bfd {version}\n{rows}{pool}run\n{events}end\n")
}

/// The one spelling of a script, as bytes: the sessions as they stand, each with its keys after it, then the reflectors, with decimal
/// numbers without leading zeros and hexadecimal digits in lower case. It is of version 1 where no session has a second key and no event is
/// a command `key`, and else of version 2. `read` of it gives a script that `read` gave. Fails only when out of memory.
#[tactic(auto, using(crate::proofs::ScriptAgain::text_again))]
pub fn write(alloc: Global, script: &Script) -> Result<Vec<u8>, AllocError>
    ensures text { IfOk result (λ bytes. bytes.items ≡ spelling script.now) }
    ensures again { IsScript script.now → IfOk result (λ bytes. script_of false bytes.items ≡ Ok script.now) }
{
    let text = script_text(alloc, script)?;
    Ok(text.into_bytes())
}
