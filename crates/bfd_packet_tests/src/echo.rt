//! Worked rows: sequence numbers round the wrap, failure to the microsecond, and a short life of an Echo function.
ghost use Rattle.std.specs.Prelude.{◌<◌};
ghost use Rattle.bfd_num.specs.Numbers.{moment_bound};
ghost use Rattle.bfd_echo.specs.Rules.{HasMoments};

use bfd_echo::{Echo, EchoResult, echo_interval, is_echo_wanted};

// The interval of echo packets in these rows, in microseconds.
const INTERVAL: u32 = 100_000;

/// A packet of these bytes is sent.
fn sends(given: &EchoResult, bytes: &[u8]) -> bool {
    match given {
        EchoResult::Sent(wire) => wire.as_slice() == bytes,
        EchoResult::Nothing | EchoResult::Failed => false,
    }
}

/// Whether a packet with this number is one that is out. If so, it moves what came back, else nothing; and it isn't out a second time.
fn returns(before: Echo, seq: u32) -> Option<bool>
    requires { HasMoments before }
{
    let mut echo = before;
    let answer = echo.returned(5000, seq);
    let after = Echo {
        last: 5000,
        back: seq.wrapping_add(1),
        ..before
    };
    let is_so = echo == if answer { after } else { before };
    if is_so && !echo.returned(6000, seq) {
        Some(answer)
    } else {
        None
    }
}

#[test]
fn outstanding(rt: HostRuntime) {
    for (back, next, seq, answer) in [
        (0, 0, 0, false),
        (0, 1, 0, true),
        (0, 1, 1, false),
        (0, 3, 2, true),
        (3, 3, 2, false),
        (2, 3, 1, false),
        (4_294_967_294, 1, 4_294_967_293, false),
        (4_294_967_294, 1, 4_294_967_294, true),
        (4_294_967_294, 1, 4_294_967_295, true),
        (4_294_967_294, 1, 0, true),
        (4_294_967_294, 1, 1, false),
    ] {
        let before = Echo {
            first: 1,
            sent: None,
            last: 0,
            back,
            next,
        };
        assert!(rt; returns(before, seq) == Some(answer));
    }
}

/// Whether the echo function fails up to this limit, sends, and which number is next.
fn settles(echo: Echo, limit: u64, mult: u8) -> (bool, bool, u32)
    requires limit { limit < moment_bound }
    requires moments { HasMoments echo }
{
    let mut now = echo;
    let given = now.settle(limit, limit, INTERVAL, mult, 9);
    (
        matches!(given, EchoResult::Failed),
        matches!(given, EchoResult::Sent(_)),
        now.next,
    )
}

#[test]
fn due_and_failed(rt: HostRuntime) {
    let echo = Echo {
        first: 11,
        sent: Some(190_000),
        last: 20_500,
        back: 0,
        next: 2,
    };
    assert!(rt; echo.due(INTERVAL, 3) == 290 && echo.due(INTERVAL, 2) == 221);
    for (limit, mult, want) in [
        (289_999, 3, (false, false, 2)),
        (290_000, 3, (false, true, 3)),
        (320_499, 3, (false, true, 3)),
        (320_500, 3, (true, false, 2)),
        (220_499, 2, (false, false, 2)),
        (220_500, 2, (true, false, 2)),
    ] {
        assert!(rt; settles(echo, limit, mult) == want);
    }
}

/// Settled at this moment, the echo function sends the packet with this number.
fn sends_at(echo: &mut Echo, us: u64, number: u8) -> bool
    requires us { us < moment_bound }
    requires moments { HasMoments echo.old }
    ensures { HasMoments echo.new }
{
    let bytes = [
        0x42, 0x46, 0x44, 0x65, 0, 0, 0, 1, 0, 0, 0, number, 0, 0, 0, 0,
    ];
    sends(&echo.settle(us, us, INTERVAL, 3, 1), &bytes)
}

#[test]
fn life(rt: HostRuntime) {
    assert!(rt; is_echo_wanted(100_000, 50_000) && !is_echo_wanted(0, 1) && !is_echo_wanted(1, 0));
    assert!(rt; echo_interval(100_000, 50_000) == INTERVAL);
    assert!(rt; echo_interval(50_000, 100_000) == INTERVAL);
    let mut echo = Echo::begin(100_000, 0);
    assert!(rt; echo.due(INTERVAL, 3) == 101);
    assert!(rt; sends_at(&mut echo, 101_000, 0));
    assert!(rt; echo.returned(102_000, 0) && !echo.returned(103_000, 0));
    assert!(rt; sends_at(&mut echo, 401_000, 1));
    assert!(rt; settles(echo, 402_000, 3) == (true, false, 2));
}
