//! The watched text.
ghost use Rattle.std.specs.Prelude.{◌≡◌, ◌++◌, IfOk, OnErr, OnOk, string_bytes};
ghost use Rattle.std.specs.List.{flat_map};
ghost use Rattle.bfd_watch.specs.Groups.{group_after, is_group_up};
ghost use Rattle.bfd_watch.specs.Watched.{change_line, watched_lines, group_line, if_moved, up_word, watched_line};

use crate::change::Change;
use crate::group::LinkGroup;
use std::alloc::{AllocError, Global};

/// Whether a group is up, in a word.
fn up_word(up: bool) -> &'static str
    ensures { result.now ≡ up_word up }
{
    if up { "up" } else { "down" }
}

/// The line of one change.
fn change_text(alloc: Global, number: u64, change: &Change) -> Result<String, AllocError>
    ensures { IfOk result (λ text. string_bytes text ≡ change_line number change.now) }
{
    let Change {
        discr,
        old,
        new,
        diag,
        ..
    } = *change;
    let old = old.name();
    let new = new.name();
    format!(in alloc; "{number} change {discr} {old} {new} {diag}\n")
}

/// The lines of the changes.
fn changes_text(alloc: Global, number: u64, changes: &[Change]) -> Result<String, AllocError>
    ensures { IfOk result (λ text. string_bytes text ≡ flat_map (change_line number) changes.now) }
{
    let mut text = String::new(alloc);
    for change in changes {
        let line = change_text(alloc, number, change)?;
        text.push_str(line.as_str())?;
    }
    Ok(text)
}

/// The line of a group that has moved.
fn group_text(alloc: Global, number: u64, group: &LinkGroup) -> Result<String, AllocError>
    ensures { IfOk result (λ text. string_bytes text ≡ group_line number group.now) }
{
    let count = group.count();
    let word = up_word(group.is_up());
    format!(in alloc; "{number} group {count} {word}\n")
}

/// The line of a group that an event found so and left so, where that has moved it.
fn moved_text(
    alloc: Global,
    number: u64,
    before: &LinkGroup,
    after: &LinkGroup,
) -> Result<String, AllocError>
    ensures { IfOk result (λ text. string_bytes text
        ≡ if_moved (is_group_up before.now) (is_group_up after.now) (group_line number after.now)) }
{
    if before.is_up() == after.is_up() {
        return Ok(String::new(alloc));
    }
    group_text(alloc, number, after)
}

/// The lines of an event that finds a group so and leaves it so.
fn event_text(
    alloc: Global,
    number: u64,
    changes: &[Change],
    before: &LinkGroup,
    after: &LinkGroup,
) -> Result<String, AllocError>
    ensures { IfOk result (λ text. string_bytes text ≡ flat_map (change_line number) changes.now
        ++ if_moved (is_group_up before.now) (is_group_up after.now) (group_line number after.now)) }
{
    let mut text = changes_text(alloc, number, changes)?;
    let moved = moved_text(alloc, number, before, after)?;
    text.push_str(moved.as_str())?;
    Ok(text)
}

/// The last line.
fn watched_text(alloc: Global, changes: u64, group: &LinkGroup) -> Result<String, AllocError>
    ensures { IfOk result (λ text. string_bytes text ≡ watched_line changes group.now) }
{
    let count = group.count();
    let word = up_word(group.is_up());
    format!(in alloc; "watched {changes} {count} {word}\n")
}

impl LinkGroup {
    /// Appends the lines of the event of this number, which has these changes: a line for each change, in order, of members and of other
    /// sessions, and then the group's line where the event as a whole has moved it between up and down. The group is then as after these
    /// changes. Fails only when out of memory; then the group and the text are as before.
    pub fn report(
        &mut self,
        number: u64,
        changes: &[Change],
        text: &mut Vec<u8>,
    ) -> Result<(), AllocError>
        ensures reported { OnOk result (text.new.items ≡ text.old.items ++ watched_lines number changes.now self.old) }
        ensures after { OnOk result (self.new ≡ group_after changes.now self.old) }
        ensures unreported { OnErr result (text.new.items ≡ text.old.items) }
        ensures same { OnErr result (self.new ≡ self.old) }
    {
        let alloc = *text.allocator();
        let after = self.after(alloc, changes)?;
        let piece = event_text(alloc, number, changes, self, &after)?;
        text.extend_from_slice(piece.as_bytes())?;
        *self = after;
        Ok(())
    }

    /// Appends the last line, with the number of all changes. Fails only when out of memory; then the text is as before.
    pub fn close(&self, changes: u64, text: &mut Vec<u8>) -> Result<(), AllocError>
        ensures reported { OnOk result (text.new.items ≡ text.old.items ++ watched_line changes self.now) }
        ensures unreported { OnErr result (text.new.items ≡ text.old.items) }
    {
        let line = watched_text(*text.allocator(), changes, self)?;
        text.extend_from_slice(line.as_bytes())
    }
}
