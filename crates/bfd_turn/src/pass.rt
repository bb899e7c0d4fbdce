//! A caller's right to ask a lock for turns.
ghost use Rattle.std.specs.Prelude.{◌≡◌, [], ◌∷◌};

use crate::view::View;
use atomic_table::{Badge, Seat};
use std::marker::Model;

/// A caller of one lock. It has seen a beginning of the lock's history.
///
/// Clauses see it as the lock that it is of, and what it knows of it (`Known`).
#[derive(Drop)]
pub struct Pass<N, B> {
    pub(crate) badge: Badge<View<N, B>>,
    number: u32,
}

impl<N, B> Model for Pass<N, B> {
    ghost use Rattle.std.specs.Prelude.{◌≡◌, [], ◌∷◌};
    ghost use Rattle.atomic_table.specs.Seated.{TableId};
    ghost use Rattle.bfd_turn.specs.declared.view.View.{View};
    ghost use Rattle.bfd_turn.specs.declared.view.Known.{Known};
    ghost use Rattle.bfd_turn.specs.declared.view.Role.TheVariants.{Idle};
    ghost use Rattle.bfd_turn.specs.Views.{known_of};

    ghost Value = { TableId × Known N B };

    ghost view = { λ p. (p.badge.table_id, known_of p.badge.views) };

    ghost invariant = { λ p. (v : View N B) × (p.badge.views ≡ v ∷ []) × (v.role ≡ Idle)
        × (p.number ≡ v.number) };
}

impl<N, B> Pass<N, B> {
    ghost use Rattle.std.specs.Prelude.{◌≡◌, []};
    ghost use Rattle.bfd_turn.specs.declared.view.Role.TheVariants.{Idle};
    ghost use Rattle.bfd_turn.specs.Views.{known};

    // The pass of a seat that holds no slot and no turn.
    pub(crate) fn of<S>(seat: Seat<S, View<N, B>>, number: u32) -> Pass<N, B>
        requires { (seat.me.1 ≡ []) × (seat.me.0.role ≡ Idle) × (number ≡ seat.me.0.number) }
        ensures { result ≡ (seat.table_id, known seat.me.0) }
    {
        Pass {
            badge: seat.into_badge(),
            number,
        }
    }

    pub(crate) fn into_seat<S>(self) -> (Seat<S, View<N, B>>, u32)
        ensures seat { (self ≡ (result.0.table_id, known result.0.me.0)) × (result.0.me.1 ≡ []) }
        ensures idle { (result.0.me.0.role ≡ Idle) × (result.1 ≡ result.0.me.0.number) }
    {
        let Pass { badge, number } = self;
        (badge.into_seat(), number)
    }

    /// The caller's number: 0 for the pass that the lock began with.
    pub fn caller(&self) -> u32
        ensures { result ≡ self.now.1.number }
    {
        self.number
    }
}
