//! A turn, and the value that it lends.
ghost use Rattle.std.specs.Prelude.{◌≡◌};

use crate::board::Place;
use crate::recorded::Recorded;
use std::marker::Model;

/// The right to a lock's value, until `TurnLock::done`, which has to spend it.
///
/// Clauses see it as the lock that it is of, what the pass knows of it that holds it, and the value.
pub struct Turn<V: Recorded> {
    pub(crate) seat: Place<V>,
    pub(crate) number: u32,
    pub(crate) value: V,
}

impl<V: Recorded> Model for Turn<V> {
    ghost use Rattle.std.specs.Prelude.{◌≡◌, [], ◌∷◌, None};
    ghost use Rattle.atomic_table.specs.Seated.{TableId};
    ghost use Rattle.bfd_turn.specs.declared.view.Known.{Known};
    ghost use Rattle.bfd_turn.specs.declared.view.Role.TheVariants.{Holding};
    ghost use Rattle.bfd_turn.specs.Views.{known};

    ghost Value = { TableId × Known V.Note V.Base × V };

    ghost view = { λ t. (t.seat.table_id, known t.seat.me.0, t.value) };

    ghost invariant = { λ t. (t.seat.me.1 ≡ (0, None) ∷ []) × (t.seat.me.0.role ≡ Holding)
        × (t.number ≡ t.seat.me.0.number) };
}

impl<V: Recorded> Turn<V> {
    ghost use Rattle.std.specs.Prelude.{◌≡◌};
    ghost use Rattle.std.specs.Borrow.{Lends, sem};
    ghost use Rattle.bfd_turn.specs.contracts.turn.Turn.{the_row};

    /// The value. What is left there is what `done` puts back.
    pub fn value(&mut self) -> &mut V
        ensures* writes_back { sem 𝓛 (Lends (the_row V.row V.Note.row V.Base.row V.Recorded)
            V.row self.entry result (λ w. (self.old.0, self.old.1, w))) }
        ensures value { result.now ≡ self.old.2 }
    {
        &mut self.value
    }
}
