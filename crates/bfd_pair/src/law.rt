//! What two peers promise whatever packets are lost, repeated or late.
ghost use Rattle.std.specs.Prelude.{◌≡◌, ◌++◌, ◌∷◌, [], List, true, false};
ghost use Rattle.bfd_rules.specs.declared.config.Config.{Config};
ghost use Rattle.bfd_session.specs.declared.event.SessionConfig.TheVariants.{PointToPoint};
ghost use Rattle.bfd_pair.specs.declared.event.Side.{Side};
ghost use Rattle.bfd_pair.specs.declared.event.PairEvent.{PairEvent};
ghost use Rattle.bfd_pair.specs.Run.{items_of, pair_run, turn};
ghost use Rattle.bfd_pair.specs.Handshake.{IsHandshake, reports_up, is_up_after};

/// A law, and no work: whatever two point-to-point sessions and whatever has happened to them, where a side emits a change to Up, the
/// event gives it a packet of the other side in Init or Up with its own discriminator as Your Discriminator; before, the other side handled
/// a packet of this side; and the packet given isn't one that it had sent before that (RFC 5880 sections 6.2 and 6.8.6). Keys, commands,
/// ticks, loss, repeats and order have no part in it.
#[tactic(auto, using(crate::proofs::Handshakes::pair_handshakes))]
pub fn handshake_law()
    ensures { (left right : Config) (past : List PairEvent) (event : PairEvent) (side : Side)
        → reports_up (items_of side (turn event (pair_run (PointToPoint left) (PointToPoint right) past))) ≡ true
        → IsHandshake (PointToPoint left) (PointToPoint right) side event past }
{}

/// A law, and no work: the same of a side that is Up after an event and wasn't before it.
#[tactic(auto, using(crate::proofs::Handshakes::pair_comes_up))]
pub fn up_law()
    ensures { (left right : Config) (past : List PairEvent) (event : PairEvent) (side : Side)
        → is_up_after (PointToPoint left) (PointToPoint right) side past ≡ false
        → is_up_after (PointToPoint left) (PointToPoint right) side (past ++ event ∷ []) ≡ true
        → IsHandshake (PointToPoint left) (PointToPoint right) side event past }
{}
