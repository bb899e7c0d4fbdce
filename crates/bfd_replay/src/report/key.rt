//! The order of a report.
ghost use Rattle.std.specs.Prelude.{◌≡◌, ◌≤◌, ◌⊎◌, ◌^◌, IfNone, IfSome};
ghost use Rattle.bfd_replay.specs.Inside as inside;

/// Where a piece stands in a report: by the number of its event, then by discriminator.
#[derive(Clone, Copy)]
pub(crate) struct Key {
    pub(crate) event: u64,
    pub(crate) discr: u32,
}

/// A piece of a part: its key, how many bytes of text it has, and how many packets it reports as sent and as dropped. A
/// replay has one for each packet that comes and each that is sent, so it is kept in 16 bytes.
#[derive(Clone, Copy)]
pub(crate) struct Mark {
    event: u32,
    discr: u32,
    long: u32,
    txs: u16,
    drops: u16,
}

impl Mark {
    /// The mark of a piece, or none only where its event's number is 2^32 or more, its text has 4 GiB or more, or the packets
    /// that it reports as sent, or those that it reports as dropped, are 2^16 or more.
    pub(crate) fn of(key: Key, long: usize, txs: u64, drops: u64) -> Option<Mark>
        ensures mark { IfSome result (λ mark. mark ≡ inside.mark key long txs drops) }
        ensures none { IfNone result ((2 ^ 32 ≤ key.event) ⊎ ((2 ^ 32 ≤ long) ⊎ ((2 ^ 16 ≤ txs) ⊎ (2 ^ 16 ≤ drops)))) }
    {
        Some(Mark {
            event: u32::try_from(key.event).ok()?,
            discr: key.discr,
            long: u32::try_from(long).ok()?,
            txs: u16::try_from(txs).ok()?,
            drops: u16::try_from(drops).ok()?,
        })
    }

    /// The rank of the piece's key: its event's number, and behind it the discriminator in 32 bits. Ranks stand in the order of
    /// keys.
    pub(crate) fn rank(self) -> u64
        ensures { inside.rank_key result ≡ inside.mark_key self }
    {
        u64::from(self.event) * (1 << 32) + u64::from(self.discr)
    }

    /// How many bytes of text it has.
    pub(crate) fn long(self) -> usize
        ensures { result ≡ self.long }
    {
        self.long as usize
    }

    /// How many packets it reports as sent, and as dropped.
    pub(crate) fn counts(self) -> (u64, u64)
        ensures txs { result.0 ≡ self.txs }
        ensures drops { result.1 ≡ self.drops }
    {
        (u64::from(self.txs), u64::from(self.drops))
    }
}
