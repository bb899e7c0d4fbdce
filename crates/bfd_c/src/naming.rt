//! Names and numbers of what an event may be answered.
ghost use Rattle.std.specs.Prelude.{◌≡◌, ◌<◌, ◌≤◌, length};
ghost use Rattle.bfd_packet.specs.TestNames.{name_of};
ghost use Rattle.bfd_packet.specs.Layout.{state_number as number_of_state};
ghost use Rattle.bfd_rules.specs.Names as names;
ghost use Rattle.bfd_c.specs.Records.{test_number};
ghost use Rattle.bfd_c.specs.Structs as structs;

use crate::packing::packed_name;
use bfd_packet::{State, Test};
use bfd_rules::Refusal;

/// The number of a state: 0 AdminDown, 1 Down, 2 Init, 3 Up (RFC 5880 section 4.1).
pub(crate) fn state_number(state: State) -> u8
    ensures { result ≡ number_of_state state }
{
    state as u8
}

/// The number of a test that discards.
pub(crate) fn test_number(test: Test) -> u32
    ensures value { result ≡ test_number test }
    ensures below { result < 25 }
{
    test as u32
}

/// The number of a refusal.
pub(crate) fn refusal_number(refusal: Refusal) -> u32
    ensures { result ≡ structs.refusal_number refusal }
{
    refusal as u32
}

/// The name of a test, which has at most 15 bytes.
fn test_text(test: Test) -> &'static str
    ensures name { result.now ≡ name_of test }
    ensures short { length result.now ≤ 15 }
{
    test.name()
}

/// The name of a refusal, which has at most 15 bytes.
fn refusal_text(refusal: Refusal) -> &'static str
    ensures name { result.now ≡ names.refusal_name refusal }
    ensures short { length result.now ≤ 15 }
{
    refusal.name()
}

/// The name of a test for C.
pub(crate) fn test_name(test: Test) -> [u8; 20]
    ensures { result ≡ structs.name_bytes (name_of test) }
{
    packed_name(test_text(test).as_bytes())
}

/// The name of a refusal for C.
pub(crate) fn refusal_name(refusal: Refusal) -> [u8; 20]
    ensures { result ≡ structs.name_bytes (names.refusal_name refusal) }
{
    packed_name(refusal_text(refusal).as_bytes())
}
