//! Names for C, in static text.
ghost use Rattle.std.specs.Prelude.{◌≡◌, map, option_copied, slice_get};
ghost use Rattle.bfd_c.specs.Names as names;
ghost use Rattle.bfd_c.specs.Names.{names_by, some_text, text_by, text_read, texts_of};

use crate::engine::{DONE, RANGE};

// The names of each kind by number, from 0 on. A zero ends each; where a number is of nothing, none stands.

static CODES: [&[u8]; 12] = [
    b"Done\0",
    b"Closed\0",
    b"Memory\0",
    b"Range\0",
    b"End\0",
    b"Text\0",
    b"Events\0",
    b"TakenDiscr\0",
    b"TakenAddresses\0",
    b"Full\0",
    b"NotFound\0",
    b"Size\0",
];

static FAULTS: [&[u8]; 17] = [
    b"",
    b"NotAscii\0",
    b"TooLong\0",
    b"UnknownWord\0",
    b"FieldCount\0",
    b"BadNumber\0",
    b"OutOfRange\0",
    b"BadHex\0",
    b"BadAddress\0",
    b"SameDiscr\0",
    b"SameAddresses\0",
    b"NoSuchSession\0",
    b"Order\0",
    b"MissingEnd\0",
    b"TooMany\0",
    b"",
    b"SameKey\0",
];

static DROPS: [&[u8]; 25] = [
    b"",
    b"Short\0",
    b"Version\0",
    b"LengthMin\0",
    b"LengthOver\0",
    b"DetectMult\0",
    b"Multipoint\0",
    b"MyDiscr\0",
    b"YourUnknown\0",
    b"YourZeroState\0",
    b"NoSession\0",
    b"Ttl\0",
    b"AuthUnexpected\0",
    b"AuthMissing\0",
    b"AuthType\0",
    b"AuthKey\0",
    b"AuthLen\0",
    b"AuthSeq\0",
    b"AuthDigest\0",
    b"AdminDown\0",
    b"NotDemand\0",
    b"MultipointYour\0",
    b"NoTail\0",
    b"EchoForm\0",
    b"EchoStale\0",
];

static REFUSALS: [&[u8]; 6] = [
    b"",
    b"PollBusy\0",
    b"WrongState\0",
    b"OutOfRange\0",
    b"WrongKind\0",
    b"UnknownSession\0",
];

static STATES: [&[u8]; 4] = [b"AdminDown\0", b"Down\0", b"Init\0", b"Up\0"];

/// RFC 5880 section 4.1.
static DIAGNOSTICS: [&[u8]; 32] = [
    b"No Diagnostic\0",
    b"Control Detection Time Expired\0",
    b"Echo Function Failed\0",
    b"Neighbor Signaled Session Down\0",
    b"Forwarding Plane Reset\0",
    b"Path Down\0",
    b"Concatenated Path Down\0",
    b"Administratively Down\0",
    b"Reverse Concatenated Path Down\0",
    b"Reserved\0",
    b"Reserved\0",
    b"Reserved\0",
    b"Reserved\0",
    b"Reserved\0",
    b"Reserved\0",
    b"Reserved\0",
    b"Reserved\0",
    b"Reserved\0",
    b"Reserved\0",
    b"Reserved\0",
    b"Reserved\0",
    b"Reserved\0",
    b"Reserved\0",
    b"Reserved\0",
    b"Reserved\0",
    b"Reserved\0",
    b"Reserved\0",
    b"Reserved\0",
    b"Reserved\0",
    b"Reserved\0",
    b"Reserved\0",
    b"Reserved\0",
];

static OUTPUTS: [&[u8]; 3] = [b"", b"state\0", b"tx\0"];

fn codes_by_number() -> &'static [&'static [u8]]
    ensures { map (λ text. text.now) result.now ≡ texts_of names.code_names }
{
    &CODES
}

fn faults_by_number() -> &'static [&'static [u8]]
    ensures { map (λ text. text.now) result.now ≡ texts_of names.fault_names }
{
    &FAULTS
}

fn drops_by_number() -> &'static [&'static [u8]]
    ensures { map (λ text. text.now) result.now ≡ texts_of names.drop_names }
{
    &DROPS
}

fn refusals_by_number() -> &'static [&'static [u8]]
    ensures { map (λ text. text.now) result.now ≡ texts_of names.refusal_names }
{
    &REFUSALS
}

fn states_by_number() -> &'static [&'static [u8]]
    ensures { map (λ text. text.now) result.now ≡ texts_of names.state_names }
{
    &STATES
}

fn diagnostics_by_number() -> &'static [&'static [u8]]
    ensures { map (λ text. text.now) result.now ≡ texts_of names.diagnostic_names }
{
    &DIAGNOSTICS
}

fn outputs_by_number() -> &'static [&'static [u8]]
    ensures { map (λ text. text.now) result.now ≡ texts_of names.output_names }
{
    &OUTPUTS
}

/// The names of a kind.
fn texts(kind: u32) -> &'static [&'static [u8]]
    ensures { map (λ text. text.now) result.now ≡ texts_of (names_by kind) }
{
    match kind {
        1 => codes_by_number(),
        2 => faults_by_number(),
        3 => drops_by_number(),
        4 => refusals_by_number(),
        5 => states_by_number(),
        6 => diagnostics_by_number(),
        7 => outputs_by_number(),
        _ => &[],
    }
}

/// The name of a kind and a number, where there is one.
fn text(kind: u32, number: u32) -> Option<&'static [u8]>
    ensures { option_copied result ≡ text_by kind number }
{
    match texts(kind).get(number as usize) {
        Some(text) if !text.is_empty() => Some(*text),
        _ => None,
    }
}

/// The name of a number, of a kind: 1 codes, 2 faults of lines, 3 tests that discard, 4 refusals, 5 states, 6 diagnostics, 7 outputs.
/// The text stands in the library and is never freed; its last byte is a zero.
///
/// 3 comes if and only if there is no such kind, or no such number of it. Then `name` hasn't changed.
#[unsafe(no_mangle)]
pub extern "C" fn bfdd_find_name(kind: u32, number: u32, name: &mut &'static [u8]) -> u32
    ensures { (name.new.now, result) ≡ text_read (text_by kind number) name.old.now }
{
    match text(kind, number) {
        Some(text) => {
            *name = text;
            DONE
        }
        None => RANGE,
    }
}
