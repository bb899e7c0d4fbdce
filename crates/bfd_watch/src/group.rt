//! Link groups.
ghost use Rattle.std.specs.Prelude.{◌≡◌, ◌++◌, IfOk, map, count_by};
ghost use Rattle.bfd_rules.specs.Quantities.{is_up as is_up_state};
ghost use Rattle.bfd_watch.specs.Groups.{count_up, group, group_after, heard, is_group_up, member_after};

use crate::change::Change;
use bfd_packet::State;
use std::alloc::{AllocError, Global};
use std::marker::Model;

/// A member of a link group.
#[derive(Clone, Copy, Debug, PartialEq, Eq)]
pub struct Member {
    /// The local discriminator of its session.
    pub discr: u32,
    /// Whether its session is Up.
    pub up: bool,
}

/// A link group: sessions of which a number must be Up. It is up where at least so many are (the use that RFC 7130 makes of
/// the member links of a group, without its own encapsulation).
#[derive(Drop)]
pub struct LinkGroup {
    need: usize,
    members: Vec<Member>,
}

impl Model for LinkGroup {
    ghost use Rattle.bfd_watch.specs.Groups.{Group, group};

    ghost Value = { Group };

    ghost view = { λ g. group g.need g.members.items };
}

/// Whether the state is Up.
fn is_up(state: State) -> bool
    ensures { result ≡ is_up_state state }
{
    match state {
        State::Up => true,
        State::AdminDown | State::Down | State::Init => false,
    }
}

impl Member {
    /// The member after this change.
    fn heard(self, change: &Change) -> Member
        ensures { result ≡ heard self change.now }
    {
        if change.discr == self.discr {
            Member {
                discr: self.discr,
                up: is_up(change.new),
            }
        } else {
            self
        }
    }

    /// The member after these changes.
    fn after(self, changes: &[Change]) -> Member
        ensures { result ≡ member_after changes.now self }
    {
        let mut member = self;
        for change in changes {
            member = member.heard(change);
        }
        member
    }
}

impl LinkGroup {
    /// A group of these members, of which `need` must be Up.
    pub fn make(need: usize, members: Vec<Member>) -> LinkGroup
        ensures { result ≡ group need members.items }
    {
        LinkGroup { need, members }
    }

    /// How many of its members are Up.
    pub fn count(&self) -> usize
        ensures { result ≡ count_up self.now }
    {
        self.members.iter().filter(|member| member.up).count()
    }

    /// Whether at least as many of its members are Up as it needs.
    pub fn is_up(&self) -> bool
        ensures { result ≡ is_group_up self.now }
    {
        self.need <= self.count()
    }

    /// The group after these changes. Fails only when out of memory.
    pub fn after(&self, alloc: Global, changes: &[Change]) -> Result<LinkGroup, AllocError>
        ensures { IfOk result (λ after. after ≡ group_after changes.now self.now) }
    {
        let mut members = Vec::with_capacity(alloc, self.members.len())?;
        for member in &self.members {
            members.push(member.after(changes))?;
        }
        Ok(LinkGroup {
            need: self.need,
            members,
        })
    }
}
