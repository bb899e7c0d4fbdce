//! The versions, the words that begin a line, and where they may stand.
ghost use Rattle.std.specs.Prelude.{◌≡◌};
ghost use Rattle.std.specs.Str.{bytes_eq};
ghost use Rattle.bfd_script.specs.Words.{word_of, stands};

/// The version of a packet file. Before its first line the words of version 1 are known.
#[derive(Clone, Copy)]
pub enum Version {
    /// A session has one key at most.
    One,

    /// A session may have up to four keys, and a command chooses the one that it sends with.
    Two,
}

/// The word that begins a line.
#[derive(Clone, Copy)]
pub enum Word {
    /// The version.
    Bfd,

    /// A point-to-point session.
    P2p,

    /// The first key of a point-to-point session.
    Auth,

    /// One more key of it.
    Key,

    /// An initiator of seamless BFD.
    Sbfd,

    /// A reflector.
    Reflector,

    /// A head of a multipoint tree.
    Head,

    /// A tail of one.
    Tail,

    /// The table is whole.
    Run,

    /// A packet that arrives.
    Rx,

    /// The time.
    Tick,

    /// A command to a session.
    Cmd,

    /// A question to a session.
    Show,

    /// The text is whole.
    End,
}

/// How far the text is read: what may come next.
#[derive(Clone, Copy)]
pub enum Place {
    /// The line with the version.
    Version,

    /// Table lines, and `run`.
    Table,

    /// Event lines, and `end`.
    Events,

    /// Nothing.
    Over,
}

/// Whether a field spells this word. Where most lines pass, fields are matched against byte strings instead: a comparison of two
/// slices costs some 170 instructions, which is a tenth of the reading of a line.
pub(crate) fn spells(field: &[u8], word: &[u8]) -> bool
    ensures { result ≡ bytes_eq field.now word.now }
{
    field == word
}

/// The word that a field spells; `key` is one of version 2 alone.
pub fn word_named(version: Version, field: &[u8]) -> Option<Word>
    ensures { result ≡ word_of version field.now }
{
    match field {
        b"bfd" => Some(Word::Bfd),
        b"p2p" => Some(Word::P2p),
        b"auth" => Some(Word::Auth),
        b"sbfd" => Some(Word::Sbfd),
        b"reflector" => Some(Word::Reflector),
        b"head" => Some(Word::Head),
        b"tail" => Some(Word::Tail),
        b"run" => Some(Word::Run),
        b"rx" => Some(Word::Rx),
        b"tick" => Some(Word::Tick),
        b"cmd" => Some(Word::Cmd),
        b"show" => Some(Word::Show),
        b"end" => Some(Word::End),
        b"key" if matches!(version, Version::Two) => Some(Word::Key),
        _ => None,
    }
}

impl Place {
    /// Whether a line of this word may come next. In a live script packets and ticks may not stand at all: they come from
    /// outside.
    pub fn takes(self, live: bool, word: Word) -> bool
        ensures { result ≡ stands self live word }
    {
        match word {
            Word::Bfd => matches!(self, Place::Version),
            Word::P2p
            | Word::Auth
            | Word::Key
            | Word::Sbfd
            | Word::Reflector
            | Word::Head
            | Word::Tail
            | Word::Run => { matches!(self, Place::Table) }
            Word::Rx | Word::Tick => matches!(self, Place::Events) && !live,
            Word::Cmd | Word::Show | Word::End => matches!(self, Place::Events),
        }
    }
}
