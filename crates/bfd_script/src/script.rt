//! A script.
use crate::line::Line;
use bfd_sbfd::Reflector;
use bfd_session::SessionConfig;
use std::marker::Model;

/// A script: what a packet file says. Contracts see it as the record `Lists`.
#[derive(Drop)]
pub struct Script {
    /// The sessions, ascending by discriminator. With the reflectors there are at most 65,536.
    pub configs: Vec<SessionConfig>,
    /// The reflectors, ascending by discriminator. None has the discriminator of a session.
    pub pool: Vec<Reflector>,
    /// The event lines, in the order of the file. There are at most 200,000.
    pub events: Vec<Line>,
}

impl Model for Script {
    ghost use Rattle.bfd_script.specs.Reading.{Lists};

    ghost Value = { Lists };

    ghost view = { λ s. record { configs = s.configs.items; pool = s.pool.items; events = s.events.items } };
}
