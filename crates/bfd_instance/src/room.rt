//! Room for the outputs of one more session.
ghost use Rattle.std.specs.Prelude.{◌≡◌, ◌≤◌, ◌++◌, OnOk, length};

use bfd_rules::{Out, Outs};
use std::alloc::{AllocError, Global};

/// Moves outputs behind those that are present.
fn move_all(list: Vec<Out>, outs: &mut Outs)
    requires { length list.items ≤ outs.old.spare }
    ensures items { outs.new.items ≡ outs.old.items ++ list.items }
    ensures room { outs.new.room ≡ outs.old.room }
{
    for out in list {
        outs.push(out);
    }
}

/// Makes room for so many outputs at least, and keeps those that are present. It makes half as much again, so that sessions that are
/// added one by one move the outputs seldom. Fails only when out of memory, and then nothing has changed.
pub(crate) fn make_room(alloc: Global, outs: &mut Outs, room: usize) -> Result<(), AllocError>
    requires { room ≤ 1000000 }
    ensures items { outs.new.items ≡ outs.old.items }
    ensures room { OnOk result (room ≤ outs.new.room) }
    ensures kept { outs.old.room ≤ outs.new.room }
{
    let count = outs.items().len();
    if room <= count || room - count <= outs.spare() {
        return Ok(());
    }
    let mut wider = Outs::make(alloc, room + room / 2)?;
    move_all(outs.take()?, &mut wider);
    *outs = wider;
    Ok(())
}
