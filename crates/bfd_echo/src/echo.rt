//! A running Echo function.
ghost use Rattle.std.specs.Prelude.{◌≡◌, ◌≢◌, ◌<◌, ◌≤◌, ◌*◌, ℕ, false};
ghost use Rattle.bfd_num.specs.Numbers.{moment_bound, floor_tick as tick_of};
ghost use Rattle.bfd_echo.specs.Packet.{echo_text};
ghost use Rattle.bfd_echo.specs.Rules as rules;
ghost use Rattle.bfd_echo.specs.Rules.{HasMoments};
ghost use Rattle.bfd_echo.specs.Sequence as sequence;
ghost use Rattle.bfd_echo.specs.Timing as timing;

use crate::packet::text;
use bfd_num::{ceil_tick, floor_tick};
use bfd_packet::Wire;

/// A running Echo function: what a session keeps of it. `last` and `sent` are moments, below 2^60; every call but
/// `begin` asks for that.
#[derive(Clone, Copy, Debug, PartialEq, Eq)]
pub struct Echo {
    /// The tick at which the first packet is due.
    pub first: u64,
    /// When the last packet was sent, in microseconds, and None before the first.
    pub sent: Option<u64>,
    /// When a packet last came back, in microseconds, or else when the Echo function began.
    pub last: u64,
    /// The first sequence number that is awaited: the one after the last that came back.
    pub back: u32,
    /// The sequence number of the next packet.
    pub next: u32,
}

/// What settling an Echo function gives.
#[derive(Drop)]
pub enum EchoResult {
    /// Nothing was due.
    Nothing,
    /// A packet of these bytes is sent.
    Sent(Wire),
    /// The Echo function has failed: the session goes Down with diagnostic 2 (RFC 5880 section 6.8.5).
    Failed,
}

impl Echo {
    /// The Echo function starts at the effective moment `eff`, in microseconds, with `next` as the first sequence
    /// number. Its first packet is due at the tick after.
    #[tactic(auto, unfolding(crate::specs::Rules::echo_begun, bfd_num::specs::Numbers::floor_tick, bfd_num::specs::Numbers::ceil_tick))]
    pub fn begin(eff: u64, next: u32) -> Echo
        requires { eff < moment_bound }
        ensures value { result ≡ rules.echo_begun eff next }
        ensures later { (limit interval mult : ℕ) → limit ≤ eff → 0 < interval → 0 < mult
            → tick_of limit < timing.due result interval mult }
        ensures moments { HasMoments result }
    {
        Echo {
            first: floor_tick(eff) + 1,
            sent: None,
            last: eff,
            back: next,
            next,
        }
    }

    /// A packet with this sequence number came back at the effective moment `eff`, in microseconds (RFC 5880 section
    /// 6.8.8). True if and only if the number is outstanding: it was sent, and neither it nor a later one came back.
    /// False changes nothing.
    #[tactic(auto, unfolding(crate::specs::Rules::returned))]
    pub fn returned(&mut self, eff: u64, seq: u32) -> bool
        requires eff { eff < moment_bound }
        requires moments { HasMoments self.old }
        ensures outstanding { result ≡ sequence.is_outstanding self.old seq }
        ensures value { self.new ≡ rules.returned eff seq self.old }
        ensures kept { result ≡ false → self.new ≡ self.old }
        ensures moments { HasMoments self.new }
    {
        let outstanding = seq.wrapping_sub(self.back) < self.next.wrapping_sub(self.back);
        if outstanding {
            self.back = seq.wrapping_add(1);
            self.last = eff;
        }
        outstanding
    }

    /// The moment at which the Echo function fails.
    fn deadline(&self, interval: u32, mult: u8) -> u64
        requires { HasMoments self.now }
        ensures { result ≡ timing.deadline self.now interval mult }
    {
        self.last + u64::from(mult) * u64::from(interval)
    }

    /// The tick at which the next packet is due.
    fn sending_tick(&self, interval: u32) -> u64
        requires { HasMoments self.now }
        ensures { result ≡ timing.sending_tick self.now interval }
    {
        match self.sent {
            Some(sent) => ceil_tick(sent + u64::from(interval)),
            None => self.first,
        }
    }

    /// Sends a packet.
    #[tactic(auto, unfolding(crate::specs::Rules::sent))]
    fn send(&mut self, eff: u64, discr: u32) -> Wire
        requires eff { eff < moment_bound }
        requires moments { HasMoments self.old }
        ensures bytes { result ≡ echo_text discr self.old.next }
        ensures value { self.new ≡ rules.sent eff self.old }
        ensures moments { HasMoments self.new }
    {
        let bytes = text(discr, self.next);
        self.sent = Some(eff);
        self.next = self.next.wrapping_add(1);
        bytes
    }

    /// Does what has come due by `limit`, at the effective moment `eff`, both in microseconds: failure where `mult`
    /// intervals have passed since a packet last came back (RFC 5880 section 6.8.5), and else sending, where the
    /// interval has passed since the last packet (section 6.8.9). `interval` is in microseconds, `mult` the own Detect
    /// Mult, `discr` the local discriminator. After a failure the echo is as before. With the limit of a tick before
    /// `due` nothing is done. Allocates no memory.
    #[tactic(auto, unfolding(crate::specs::Rules::settled, crate::specs::Rules::outcome, crate::specs::Rules::sent, bfd_num::specs::Numbers::floor_tick, bfd_num::specs::Numbers::ceil_tick))]
    pub fn settle(
        &mut self,
        limit: u64,
        eff: u64,
        interval: u32,
        mult: u8,
        discr: u32,
    ) -> EchoResult
        requires eff { eff < moment_bound }
        requires moments { HasMoments self.old }
        ensures outcome { result ≡ rules.outcome limit interval mult discr self.old }
        ensures value { self.new ≡ rules.settled limit eff interval mult self.old }
        ensures over { limit ≤ eff → 0 < interval → result ≢ EchoResult.Failed
            → tick_of limit < timing.due self.new interval mult }
        ensures moments { HasMoments self.new }
    {
        if self.deadline(interval, mult) <= limit {
            return EchoResult::Failed;
        }
        if self.sending_tick(interval) <= floor_tick(limit) {
            return EchoResult::Sent(self.send(eff, discr));
        }
        EchoResult::Nothing
    }

    /// The tick that the Echo function needs next: the least at which `settle` does something. `interval` is in
    /// microseconds, `mult` the own Detect Mult. It may lie at or below the last tick; the next tick then does it.
    #[tactic(auto, unfolding(bfd_num::specs::Numbers::ceil_tick))]
    pub fn due(&self, interval: u32, mult: u8) -> u64
        requires { HasMoments self.now }
        ensures value { result ≡ timing.due self.now interval mult }
        ensures below { result < moment_bound }
    {
        ceil_tick(self.deadline(interval, mult)).min(self.sending_tick(interval))
    }
}
