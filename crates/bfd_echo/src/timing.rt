//! Whether both sides want echo packets, and how often they are sent.
ghost use Rattle.std.specs.Prelude.{◌≡◌};
ghost use Rattle.bfd_echo.specs.Timing as timing;

/// Whether both sides want echo packets: neither the own interval nor the peer's Required Min Echo RX Interval is 0 (RFC
/// 5880 section 6.8.9). In a session over one hop that is Up the Echo function then runs.
pub fn is_echo_wanted(own: u32, peer: u32) -> bool
    ensures { result ≡ timing.is_echo_wanted own peer }
{
    own != 0 && peer != 0
}

/// The interval of echo packets, in microseconds: the own one, but no shorter than the peer's Required Min Echo RX
/// Interval (RFC 5880 section 6.8.9).
pub fn echo_interval(own: u32, peer: u32) -> u32
    ensures { result ≡ timing.echo_interval own peer }
{
    own.max(peer)
}
