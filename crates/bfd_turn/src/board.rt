//! The table of a lock: one word, which is twice the turns given back and one more while a turn is held, and one slot, where the value lies
//! between turns.
use crate::recorded::Recorded;
use crate::view::View;
use atomic_table::{Seat, Table, TableRule};
use std::alloc::Global;
use std::marker::PhantomData;
use std::snapshot::Snapshot;

/// What the table receives when it is made. It has no bytes but the number of turns.
#[derive(Drop)]
pub(crate) struct Opening<V> {
    pub(crate) value: Snapshot<V>,
    pub(crate) turns: u64,
}

/// The rule of the lock.
pub(crate) struct Ruled<V> {
    of: PhantomData<V>,
}

impl<V: Recorded> TableRule<Option<V>, View<V::Note, V::Base>, Opening<V>> for Ruled<V> {
    ghost use Rattle.bfd_turn.specs.Views.{newcomer};
    ghost use Rattle.bfd_turn.specs.Rule.{Keeps};

    ghost holds = { λ _. Keeps V.noted V.caller V.base };

    ghost first = { λ key. newcomer (V.base key.value.value) key.turns };
}

pub(crate) type Board<V> = Table<
    Option<V>,
    View<<V as Recorded>::Note, <V as Recorded>::Base>,
    Opening<V>,
    Ruled<V>,
    Global,
>;

pub(crate) type Place<V> = Seat<Option<V>, View<<V as Recorded>::Note, <V as Recorded>::Base>>;
