//! What each step on the table shows.
ghost use Rattle.std.specs.Prelude.{ℕ};
ghost use Rattle.bfd_turn.specs.Views.{parent, offspring, glued, joined_view};
ghost use Rattle.bfd_turn.specs.Plays.{looked, checked, took, released};

use crate::recorded::Recorded;
use crate::view::View;
use atomic_table::{Join, Play, Split};
use std::marker::{Brand, PhantomData};

/// The number of a new pass. Each call of `split` picks it.
pub(crate) trait Numbered {
    ghost number: { ℕ };
}

impl Numbered for Brand {
    ghost number = { 1 };
}

/// A load that the pass keeps.
pub(crate) struct Look<V> {
    of: PhantomData<V>,
}

impl<V: Recorded> Play<Option<V>, View<V::Note, V::Base>> for Look<V> {
    ghost then = { looked V.caller };
}

/// A load that leaves the pass as it is.
pub(crate) struct Check<V> {
    of: PhantomData<V>,
}

impl<V: Recorded> Play<Option<V>, View<V::Note, V::Base>> for Check<V> {
    ghost then = { checked V.caller };
}

/// The exchange that takes the turn.
pub(crate) struct Take<V> {
    of: PhantomData<V>,
}

impl<V: Recorded> Play<Option<V>, View<V::Note, V::Base>> for Take<V> {
    ghost then = { took V.noted V.caller V.base };
}

/// The add that gives the turn back.
pub(crate) struct Release<V> {
    of: PhantomData<V>,
}

impl<V: Recorded> Play<Option<V>, View<V::Note, V::Base>> for Release<V> {
    ghost then = { released V.noted };
}

/// Caller 0 makes a pass.
pub(crate) struct Cut<J> {
    of: PhantomData<J>,
}

impl<N, B, J: Numbered> Split<View<N, B>> for Cut<J> {
    ghost left = { parent J.number };

    ghost right = { offspring J.number };
}

/// Caller 0 joins a pass into its own.
pub(crate) struct Glue<V> {
    of: PhantomData<V>,
}

impl<V: Recorded> Join<View<V::Note, V::Base>> for Glue<V> {
    ghost both = { glued V.caller };

    ghost spent = { joined_view };
}
