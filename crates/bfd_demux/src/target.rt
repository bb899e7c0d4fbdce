//! What an arrival is for.

/// What an arrival is for. A session's index is its place among the session rows in ascending order of
/// discriminator; a reflector's is its place among the reflector rows in that order.
#[derive(Clone, Copy, Debug, PartialEq, Eq)]
pub enum Target {
    /// A control packet for the session of this index.
    Session(u32),
    /// A packet for the reflector of this index (RFC 7880 section 7.2).
    Reflector(u32),
    /// A returned echo packet of the session of this index, with this sequence number.
    Echo(u32, u32),
}
