//! The tests that discard a packet, by number and name.

/// Why a packet is discarded. Each port has its list of these tests, and the answer is the first in the
/// list whose sentence is true (RFC 5880 section 6.8.6, RFC 5881 section 5, RFC 7880 section 7, RFC 8562
/// section 5.13).
#[derive(Clone, Copy, Debug, PartialEq, Eq)]
pub enum Test {
    /// The payload has fewer than 4 bytes.
    Short = 1,
    /// Version isn't 1.
    Version = 2,
    /// Length is below 24, or below 26 with A set.
    LengthMin = 3,
    /// Length is greater than the payload.
    LengthOver = 4,
    /// Detect Mult is 0.
    DetectMult = 5,
    /// M is set, on a port other than single.
    Multipoint = 6,
    /// My Discriminator is 0.
    MyDiscr = 7,
    /// Your Discriminator isn't 0 and names no session of the port's kind.
    YourUnknown = 8,
    /// Your Discriminator is 0 and State is Init or Up.
    YourZeroState = 9,
    /// Your Discriminator is 0 and no session of the port's kind has the addresses.
    NoSession = 10,
    /// The session is single hop without authentication and the TTL isn't 255.
    Ttl = 11,
    /// A is set and the session uses no authentication.
    AuthUnexpected = 12,
    /// A is clear and the session uses authentication.
    AuthMissing = 13,
    /// The section's Auth Type isn't the session's.
    AuthType = 14,
    /// The section has no Key ID, or the session no such key.
    AuthKey = 15,
    /// Auth Len isn't what the type and the key ask for, or runs past the packet.
    AuthLen = 16,
    /// The sequence number lies outside the receiver's window.
    AuthSeq = 17,
    /// The digest or the password differs.
    AuthDigest = 18,
    /// The session is AdminDown.
    AdminDown = 19,
    /// D is clear at the reflector.
    NotDemand = 20,
    /// M is set and Your Discriminator isn't 0.
    MultipointYour = 21,
    /// M is set and no tail has the packet's My Discriminator and addresses.
    NoTail = 22,
    /// An echo packet isn't of this engine's form.
    EchoForm = 23,
    /// The session's echo isn't running, or the sequence isn't outstanding.
    EchoStale = 24,
}
