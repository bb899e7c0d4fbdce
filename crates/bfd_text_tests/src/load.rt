//! Scripts as text, compared with what a model of the definition in another language wrote.
ghost use Rattle.std.specs.Prelude.{◌≤◌};

use bfd_load::generate;
use bfd_serve::spelling::write;
use std::alloc::{AllocError, Global};
use std::test::Fail;

/// The text of such a load.
fn text(alloc: Global, sessions: u32, ticks: u32, seed: u32) -> Result<Vec<u8>, AllocError>
    requires sessions { sessions ≤ 5000 }
    requires ticks { ticks ≤ 6000 }
{
    write(alloc, &generate(alloc, sessions, ticks, seed)?)
}

#[test]
fn small_scripts(rt: HostRuntime) -> Result<(), Fail> {
    let alloc = rt.alloc();
    for (sessions, ticks, seed, want) in [
        (
            1,
            1,
            0,
            "bfd 1\n\
            p2p 1 single 1 10.0.0.1 10.1.0.1 active 300000 300000 3 0 1\n\
            run\n\
            rx 1000 single 1 10.1.0.1 10.0.0.1 255 20800318000f424100000001000f4240000493e000000000\n\
            tick 1\n\
            end\n",
        ),
        (
            3,
            2,
            5,
            "bfd 1\n\
            p2p 1 single 1 10.0.0.1 10.1.0.1 active 300000 300000 3 0 6\n\
            p2p 2 single 1 10.0.0.1 10.1.0.2 active 300000 300000 3 0 7\n\
            p2p 3 single 1 10.0.0.1 10.1.0.3 active 300000 300000 3 0 8\n\
            run\n\
            rx 1000 single 1 10.1.0.1 10.0.0.1 255 20800318000f424100000001000f4240000493e000000000\n\
            tick 1\n\
            rx 2000 single 1 10.1.0.2 10.0.0.1 255 20800318000f424200000002000f4240000493e000000000\n\
            tick 2\n\
            end\n",
        ),
        (
            1,
            1,
            4_294_967_295,
            "bfd 1\n\
            p2p 1 single 1 10.0.0.1 10.1.0.1 active 300000 300000 3 0 0\n\
            run\n\
            rx 1000 single 1 10.1.0.1 10.0.0.1 255 20800318000f424100000001000f4240000493e000000000\n\
            tick 1\n\
            end\n",
        ),
    ] {
        let text = text(alloc, sessions, ticks, seed)?;
        assert!(rt; text.as_slice() == want.as_bytes());
    }
    Ok(())
}

// Session 10 hears its third packet at tick 610 and none at 910 and 1210; session 9 hears its fifth at 1209. The count and
// the length are the model's.
#[test]
fn the_tenth_falls_silent(rt: HostRuntime) -> Result<(), Fail> {
    let alloc = rt.alloc();
    let script = generate(alloc, 10, 1210, 7)?;
    assert!(rt; script.events.len() == 1258);
    let text = write(alloc, &script)?;
    assert!(rt; text.len() == 15_930);
    let last = "tick 1208\n\
        rx 1209000 single 1 10.1.0.9 10.0.0.1 255 20d00318000f424900000009000493e0000493e000000000\n\
        tick 1209\n\
        tick 1210\n\
        end\n";
    assert!(rt; text.as_slice().ends_with(last.as_bytes()));
    Ok(())
}
