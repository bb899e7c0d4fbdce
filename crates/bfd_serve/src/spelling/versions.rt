//! The version that a script is written in.
ghost use Rattle.std.specs.Prelude.{◌≡◌};
ghost use Rattle.std.specs.List.{list_any};
ghost use Rattle.std.specs.Option.{option_copied};
ghost use Rattle.bfd_serve.specs.Written.{has_second, is_new_line, is_new_row, version_field, version_of};

use bfd_packet::Keys;
use bfd_rules::Cmd;
use bfd_script::line::Line;
use bfd_script::{Script, keys_in};
use bfd_session::SessionConfig;

/// Whether a session has a second key.
fn has_second(keys: Option<&Keys>) -> bool
    ensures { result ≡ has_second (option_copied keys.entry) }
{
    match keys {
        None => false,
        Some(keys) => keys.len() > 1,
    }
}

/// Whether version 1 has no lines for the session.
fn is_new_row(config: &SessionConfig) -> bool
    ensures { result ≡ is_new_row config.now }
{
    has_second(keys_in(config))
}

/// Whether version 1 has no line for the event.
fn is_new_line(event: &Line) -> bool
    ensures { result ≡ is_new_line event.now }
{
    match event {
        Line::Cmd {
            moment: _,
            discr: _,
            cmd,
        } => matches!(cmd, Cmd::Key(_)),
        _ => false,
    }
}

/// Whether version 1 has no lines for one of these sessions.
fn any_new_row(configs: &[SessionConfig]) -> bool
    ensures { result ≡ list_any is_new_row configs.now }
{
    configs.iter().any(|config| is_new_row(config))
}

/// Whether version 1 has no line for one of these events.
fn any_new_line(events: &[Line]) -> bool
    ensures { result ≡ list_any is_new_line events.now }
{
    events.iter().any(|event| is_new_line(event))
}

/// The number of the first version that has lines for all of a script.
pub(crate) fn version_text(script: &Script) -> &'static str
    ensures { result.now ≡ version_field (version_of script.now) }
{
    if any_new_row(&script.configs) || any_new_line(&script.events) {
        return "2";
    }
    "1"
}
