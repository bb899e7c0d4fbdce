//! Heights, and the worked row.
ghost use Rattle.std.specs.Prelude.{◌≡◌, ◌+◌, ◌^◌, ◌<◌, ◌≤◌, length, [], ◌∷◌, None, Some};
ghost use Rattle.bfd_lanes.specs.Held.{room_of};
ghost use Rattle.bfd_levels.specs.Height.{potential_of};
ghost use Rattle.bfd_num.specs.Counting.{IsBlankOf};

use bfd_lanes::Ids;
use bfd_levels::{Levels, height};
use bfd_num::Steps;
use bfd_wheel::Timers;
use std::marker::Brand;
use std::process::Abort;
use std::sync::ledger::{Blank, Ledger};

#[test]
fn heights(rt: HostRuntime) {
    for (due, now, at) in [
        (0, 0, 0),
        (7, 9, 0),
        (255, 0, 0),
        (256, 0, 1),
        (256, 255, 1),
        (257, 256, 0),
        (65_535, 256, 1),
        (65_536, 65_535, 2),
        (16_777_216, 65_536, 3),
        (4_294_967_295, 16_777_215, 3),
        (4_294_967_296, 4_294_967_295, 4),
        (1_152_921_504_606_846_975, 0, 4),
    ] {
        assert!(rt; height(due, now) == at);
    }
}

/// The five due ticks are set, which gives the potential 25.
fn set_five<L: Ledger>(levels: &mut Levels, steps: &mut Steps<L>)
    requires { levels.old ≡ record { clock = 0; dues = None ∷ None ∷ None ∷ None ∷ None ∷ [] } }
    ensures levels { levels.new
        ≡ record { clock = 0; dues = Some 1 ∷ Some 256 ∷ Some 65536 ∷ Some 16777216 ∷ Some 4294967296 ∷ [] } }
    ensures potential { potential_of levels.new ≡ 25 }
{
    levels.set(0, 1, steps);
    levels.set(1, 256, steps);
    levels.set(2, 65_536, steps);
    levels.set(3, 16_777_216, steps);
    levels.set(4, 4_294_967_296, steps);
}

/// The advance to 256 takes 0 and 1, leaves the potential 21, and takes at most 521 steps.
fn advance_to_256<L: Ledger>(levels: &mut Levels, out: &mut Ids, steps: &mut Steps<L>)
    requires levels { levels.old
        ≡ record { clock = 0; dues = Some 1 ∷ Some 256 ∷ Some 65536 ∷ Some 16777216 ∷ Some 4294967296 ∷ [] } }
    requires out { out.old ≡ record { items = []; spare = 5 } }
    ensures items { out.new.items ≡ 0 ∷ 1 ∷ [] }
    ensures room { room_of out.new ≡ 5 }
    ensures levels { levels.new
        ≡ record { clock = 256; dues = None ∷ None ∷ Some 65536 ∷ Some 16777216 ∷ Some 4294967296 ∷ [] } }
    ensures potential { potential_of levels.new ≡ 21 }
    ensures cost { steps.new ≤ steps.old + 521 }
{
    levels.advance_counted(256, out, steps);
}

/// The worked row.
fn five<L: Ledger, R: Abort>(rt: &R, mut levels: Levels, mut out: Ids, blank: Blank)
    requires levels { levels ≡ record { clock = 0; dues = None ∷ None ∷ None ∷ None ∷ None ∷ [] } }
    requires out { out ≡ record { items = []; spare = 5 } }
    requires blank { IsBlankOf L.name L.parts blank.name blank.parts }
{
    let mut steps = Steps::<L>::new(blank);
    set_five(&mut levels, &mut steps);
    advance_to_256(&mut levels, &mut out, &mut steps);
    assert!(*rt; out.items() == [0, 1].as_slice());
    assert!(*rt; levels.now() == 256 && levels.least() == Some(65_536));
    assert!(*rt; levels.due(1) == None && levels.due(2) == Some(65_536));
    out.clear();
    levels.advance(4_294_967_296, &mut out);
    assert!(*rt; out.items() == [2, 3, 4].as_slice());
    assert!(*rt; levels.least() == None);
}

#[test]
fn worked_row(rt: HostRuntime) {
    let levels = Levels::make(rt.alloc(), 5).expect(&rt, "memory");
    let out = Ids::make(rt.alloc(), 5).expect(&rt, "memory");
    five::<Brand, HostRuntime>(&rt, levels, out, Blank::new(1));
}
