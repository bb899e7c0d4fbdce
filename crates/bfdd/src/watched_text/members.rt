//! The members of a link group, by the sessions of a script.
ghost use Rattle.std.specs.Prelude.{◌≡◌, IfOk, map};
ghost use Rattle.bfd_rules.specs.Quantities.{is_up as is_up_state};
ghost use Rattle.bfd_session.specs.Rows.{AreFit};
ghost use Rattle.bfd_session.specs.Step.{started};
ghost use Rattle.bfd_script.specs.Rows.{has_discr};
ghost use Rattle.bfdd.specs.Members.{first_unknown, group_in, is_up_in};

use bfd_packet::State;
use bfd_session::{Session, SessionConfig};
use bfd_watch::{LinkGroup, Member};
use std::alloc::{AllocError, Global};

/// Whether a session has this discriminator.
fn has_discr(configs: &[SessionConfig], discr: u32) -> bool
    ensures { result ≡ has_discr discr configs.now }
{
    configs.iter().any(|config| discr == config.discr())
}

/// The first of these members that names no session, or None where each names one.
pub fn first_unknown(configs: &[SessionConfig], members: &[u32]) -> Option<u32>
    ensures { result ≡ first_unknown members.now configs.now }
{
    for discr in members {
        if !has_discr(configs, *discr) {
            return Some(*discr);
        }
    }
    None
}

/// Whether the state is Up.
fn is_up(state: State) -> bool
    ensures { result ≡ is_up_state state }
{
    match state {
        State::Up => true,
        State::AdminDown | State::Down | State::Init => false,
    }
}

/// Whether the session with this discriminator is Up at the start.
fn is_up_in(configs: &[SessionConfig], discr: u32) -> bool
    requires { AreFit configs.now }
    ensures { result ≡ is_up_in discr (map started configs.now) }
{
    for config in configs {
        let session = Session::make(config.copy());
        if discr == session.discr() && is_up(session.vars().state) {
            return true;
        }
    }
    false
}

/// The group of these members, of which `need` must be Up, as the sessions stand at the start.
pub(crate) fn group(
    alloc: Global,
    need: usize,
    members: &[u32],
    configs: &[SessionConfig],
) -> Result<LinkGroup, AllocError>
    requires { AreFit configs.now }
    ensures { IfOk result (λ group. group ≡ group_in need members.now (map started configs.now)) }
{
    let mut list = Vec::with_capacity(alloc, members.len())?;
    for discr in members {
        list.push(Member {
            discr: *discr,
            up: is_up_in(configs, *discr),
        })?;
    }
    Ok(LinkGroup::make(need, list))
}
