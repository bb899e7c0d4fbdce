//! What the lock asks of a value.
ghost use Rattle.std.specs.Prelude.{◌≡◌, ℕ, List};

/// A value that keeps notes, each of which names the caller that added it.
pub trait Recorded {
    /// One note.
    type Note;

    /// What no turn changes, as plain data for clauses alone.
    type Base;

    /// The notes, in the order in which they were added.
    ghost noted: { Self → List Self.Note };

    /// The caller whom a note names.
    ghost caller: { Self.Note → ℕ };

    /// What no turn changes.
    ghost base: { Self → Self.Base };

    /// The notes, in the order in which they were added.
    fn notes(&self) -> &[Self::Note]
        ensures { result.now ≡ noted self.now };

    /// The caller whom a note names.
    fn caller_of(note: &Self::Note) -> u32
        ensures { result ≡ caller note.now };
}
