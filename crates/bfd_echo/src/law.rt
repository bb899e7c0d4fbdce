//! What the definitions promise by themselves: of due ticks, of sequence numbers, and of the packet.
ghost use Rattle.std.specs.Prelude.{◌≡◌, ◌≢◌, ◌<◌, ◌≤◌, ◌+◌, ◌*◌, ◌%◌, ◌^◌, ℕ, true, false, nat_lt, length, Some};
ghost use Rattle.bfd_num.specs.Numbers.{moment_bound};
ghost use Rattle.bfd_packet.specs.Layout.{word_at};
ghost use Rattle.bfd_echo.specs.declared.echo.Echo.{Echo};
ghost use Rattle.bfd_echo.specs.Packet.{sign, echo_text};
ghost use Rattle.bfd_echo.specs.Rules.{HasMoments, echo_begun, outcome, returned, sent, settled};
ghost use Rattle.bfd_echo.specs.Sequence.{is_outstanding, steps_to};
ghost use Rattle.bfd_echo.specs.Timing.{due, is_sending};

use crate::EchoResult;

/// Laws, and no work, for all echoes: `due` is the least tick at which settling does something. With the limit of a tick
/// before it nothing is done; with any limit from its moment on something is. And a packet is due only when the
/// interval has passed since the last (RFC 5880 section 6.8.9).
#[tactic(auto, using(crate::proofs::DueTick::outcome_rests, crate::proofs::DueTick::settled_rests, crate::proofs::DueTick::outcome_acts, crate::proofs::DueTick::spaced))]
pub fn due_laws()
    ensures rests { (e : Echo) (t interval mult discr : ℕ) → t < due e interval mult
        → outcome (1000 * t) interval mult discr e ≡ EchoResult.Nothing }
    ensures stays { (e : Echo) (t eff interval mult : ℕ) → t < due e interval mult
        → settled (1000 * t) eff interval mult e ≡ e }
    ensures acts { (e : Echo) (limit interval mult discr : ℕ) → 1000 * due e interval mult ≤ limit
        → outcome limit interval mult discr e ≢ EchoResult.Nothing }
    ensures spaced { (e : Echo) (limit interval before : ℕ) → e.sent ≡ Some before → is_sending limit interval e ≡ true
        → before + interval ≤ limit }
{}

/// Laws, and no work: whatever happens to an echo, the moments that it keeps stay below 2^60.
#[tactic(auto, using(crate::proofs::Moments::begun_moments, crate::proofs::Moments::returned_moments, crate::proofs::Moments::settled_moments))]
pub fn moment_laws()
    ensures begun { (eff next : ℕ) → eff < moment_bound → HasMoments (echo_begun eff next) }
    ensures returned { (eff s : ℕ) (e : Echo) → eff < moment_bound → HasMoments e → HasMoments (returned eff s e) }
    ensures settled { (limit eff interval mult : ℕ) (e : Echo) → eff < moment_bound → HasMoments e
        → HasMoments (settled limit eff interval mult e) }
{}

/// Laws, and no work, for all echoes with sequence numbers below 2^32: exactly the numbers from the first that is awaited
/// up to the last that was sent are outstanding, round the wrap; a number that isn't sent yet is not; the one that was
/// just sent is, unless all 2^32 are out; and one that came back is not.
#[tactic(auto, using(crate::proofs::Numbers::kth, crate::proofs::Numbers::unsent, crate::proofs::Numbers::just_sent, crate::proofs::Numbers::once))]
pub fn sequence_laws()
    ensures kth { (e : Echo) (k : ℕ) → e.back < 2 ^ 32 → k < 2 ^ 32
        → is_outstanding e ((e.back + k) % 2 ^ 32) ≡ nat_lt k (steps_to e.back e.next) }
    ensures unsent { (e : Echo) → is_outstanding e e.next ≡ false }
    ensures just_sent { (e : Echo) (eff : ℕ) → e.back < 2 ^ 32 → e.next < 2 ^ 32 → steps_to e.back e.next + 1 < 2 ^ 32
        → is_outstanding (sent eff e) e.next ≡ true }
    ensures once { (e : Echo) (eff s : ℕ) → s < 2 ^ 32 → is_outstanding (returned eff s e) s ≡ false }
{}

/// Laws, and no work: an echo packet has 16 bytes, and its words are the sign, the discriminator, the sequence number
/// and 0, so what is sent is recognized when it comes back.
#[tactic(auto, using(crate::proofs::Words::text_size, crate::proofs::Words::word_0, crate::proofs::Words::word_4, crate::proofs::Words::word_8, crate::proofs::Words::word_12))]
pub fn packet_laws()
    ensures size { (discr sequence : ℕ) → length (echo_text discr sequence) ≡ 16 }
    ensures signed { (discr sequence : ℕ) → word_at 0 (echo_text discr sequence) ≡ sign }
    ensures discr { (discr sequence : ℕ) → discr < 2 ^ 32 → word_at 4 (echo_text discr sequence) ≡ discr }
    ensures sequence { (discr sequence : ℕ) → sequence < 2 ^ 32 → word_at 8 (echo_text discr sequence) ≡ sequence }
    ensures ends { (discr sequence : ℕ) → word_at 12 (echo_text discr sequence) ≡ 0 }
{}
