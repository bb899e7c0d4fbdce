//! The worked rows of scripts, of words and of statuses, each from its words and its text to its status and what is written, over the
//! outside of memory. `tests/cases` and `tests/lines` have the same rows, and more, for the program that was built.
use crate::Status;
use crate::tests::{Case, calm, ended};
use bfd_script::fields::LineFault;
use std::alloc::Global;
use std::sync::Wait;
use std::test::Fail;
use std::thread::Threads;

/// A passive session that hears a packet, and then nothing for its Detection Time.
const EXPIRING: &str = "bfd 1\n\
    p2p 1 single 1 10.0.0.1 10.0.0.2 passive 1000000 1000000 3 0 0\n\
    run\n\
    rx 1500 single 1 10.0.0.2 10.0.0.1 255 204003180000000700000000000f42400000000000000000\n\
    tick 3001\n\
    tick 3002\n\
    end\n";

/// A handshake, a Poll Sequence, a question and silence.
const HANDSHAKE: &str = "bfd 1\n\
    p2p 1 single 1 10.0.0.1 10.0.0.2 active 300000 300000 3 0 0\n\
    run\n\
    tick 750\n\
    rx 800000 single 1 10.0.0.2 10.0.0.1 255 208003180000000700000001000f4240000493e000000000\n\
    tick 1087\n\
    rx 1100000 single 1 10.0.0.2 10.0.0.1 255 20d003180000000700000001000493e0000493e000000000\n\
    show 1200000 1\n\
    tick 2000\n\
    end\n";

/// A script and its report.
type Row = (&'static str, &'static str);

/// Sessions of two peers.
const PAIRS: &[Row] = &[
    // The Detection Time ends within a tick.
    (
        EXPIRING,
        "1 state 1 Down Init 0\n\
        3 state 1 Init Down 1\n\
        done 3 0 0\n",
    ),
    // A handshake, a Poll Sequence, a question and silence.
    (
        HANDSHAKE,
        "1 tx 1 204003180000000100000000000f4240000493e000000000\n\
        2 state 1 Down Up 0\n\
        2 tx 1 20c003180000000100000007000493e0000493e000000000\n\
        3 tx 1 20e003180000000100000007000493e0000493e000000000\n\
        5 show 1 Up 0 Up 7 300000 300000 300000 900000 0\n\
        6 state 1 Up Down 1\n\
        6 tx 1 216003180000000100000000000f4240000493e000000000\n\
        done 6 4 0\n",
    ),
    // The TTL of a session without keys, and each part of a password.
    (
        "bfd 1\n\
        p2p 1 single 1 10.0.0.1 10.0.0.2 passive 1000000 1000000 3 0 0\n\
        p2p 2 single 1 10.0.0.1 10.0.0.3 passive 1000000 1000000 3 0 0\n\
        auth 2 1 5 736563726574\n\
        run\n\
        rx 1000 single 1 10.0.0.2 10.0.0.1 254 204003180000000700000000000f42400000000000000000\n\
        rx 2000 single 1 10.0.0.3 10.0.0.1 254 204403210000000700000000000f42400000000000000000010905736563726574\n\
        rx 3000 single 1 10.0.0.3 10.0.0.1 255 204403210000000700000000000f42400000000000000000010906736563726574\n\
        rx 4000 single 1 10.0.0.3 10.0.0.1 255 204403210000000700000000000f42400000000000000000010805736563726574\n\
        rx 5000 single 1 10.0.0.3 10.0.0.1 255 204403210000000700000000000f42400000000000000000020905736563726574\n\
        rx 6000 single 1 10.0.0.3 10.0.0.1 255 204403210000000700000000000f42400000000000000000010905736563726554\n\
        rx 7000 single 1 10.0.0.3 10.0.0.1 255 204003180000000700000000000f42400000000000000000\n\
        rx 8000 single 1 10.0.0.2 10.0.0.1 255 204403210000000700000000000f42400000000000000000010905736563726574\n\
        end\n",
        "1 drop Ttl\n\
        2 state 2 Down Init 0\n\
        3 drop AuthKey\n\
        4 drop AuthLen\n\
        5 drop AuthType\n\
        6 drop AuthDigest\n\
        7 drop AuthMissing\n\
        8 drop AuthUnexpected\n\
        done 8 0 7\n",
    ),
    // A disabled session is deaf, and sends no answer to P.
    (
        "bfd 1\n\
        p2p 1 single 1 10.0.0.1 10.0.0.2 passive 1000000 1000000 3 0 0\n\
        run\n\
        cmd 1000 1 disable\n\
        rx 2000 single 1 10.0.0.2 10.0.0.1 255 206003180000000700000000000f4240000f424000000000\n\
        show 3000 1\n\
        end\n",
        "1 state 1 Down AdminDown 7\n\
        2 drop AdminDown\n\
        3 show 1 AdminDown 7 Down 7 1000000 1000000 1000000 3000000 0\n\
        done 3 0 1\n",
    ),
    // A shorter Required Min RX is used only after F.
    (
        "bfd 1\n\
        p2p 1 single 1 10.0.0.1 10.0.0.2 active 1000000 1000000 3 0 0\n\
        run\n\
        rx 100000 single 1 10.0.0.2 10.0.0.1 255 208003180000000700000001000493e0000f424000000000\n\
        cmd 200000 1 rx 300000\n\
        show 300000 1\n\
        cmd 400000 1 tx 2000000\n\
        tick 864\n\
        tick 3099\n\
        tick 3100\n\
        end\n",
        "1 state 1 Down Up 0\n\
        1 tx 1 20c003180000000100000007000f4240000f424000000000\n\
        3 show 1 Up 0 Init 7 1000000 1000000 1000000 3000000 1\n\
        4 refuse PollBusy\n\
        5 tx 1 20e003180000000100000007000f4240000493e000000000\n\
        6 tx 1 20e003180000000100000007000f4240000493e000000000\n\
        7 state 1 Up Down 1\n\
        7 tx 1 214003180000000100000000000f4240000493e000000000\n\
        done 7 4 0\n",
    ),
    // Demand mode: a Poll Sequence that nobody answers.
    (
        "bfd 1\n\
        p2p 1 single 1 10.0.0.1 10.0.0.2 active 1000000 1000000 3 0 0\n\
        run\n\
        rx 100000 single 1 10.0.0.2 10.0.0.1 255 208003180000000700000001000f4240000f424000000000\n\
        rx 200000 single 1 10.0.0.2 10.0.0.1 255 20c003180000000700000001000f4240000f424000000000\n\
        cmd 300000 1 demand 1\n\
        tick 864\n\
        tick 3863\n\
        tick 3864\n\
        end\n",
        "1 state 1 Down Up 0\n\
        1 tx 1 20c003180000000100000007000f4240000f424000000000\n\
        4 tx 1 20e203180000000100000007000f4240000f424000000000\n\
        5 tx 1 20e203180000000100000007000f4240000f424000000000\n\
        6 state 1 Up Down 1\n\
        6 tx 1 214003180000000100000000000f4240000f424000000000\n\
        done 6 4 0\n",
    ),
    // A peer that wants no packets, and a packet that is overdue.
    (
        "bfd 1\n\
        p2p 1 single 1 10.0.0.1 10.0.0.2 active 1000000 1000000 3 0 0\n\
        run\n\
        rx 100000 single 1 10.0.0.2 10.0.0.1 255 204003180000000700000001000f42400000000000000000\n\
        tick 1000\n\
        rx 1500000 single 1 10.0.0.2 10.0.0.1 255 204003180000000700000001000f42400000c35000000000\n\
        tick 1000\n\
        end\n",
        "1 state 1 Down Init 0\n\
        4 tx 1 208003180000000100000007000f4240000f424000000000\n\
        done 4 1 0\n",
    ),
    // Echo packets.
    (
        "bfd 1\n\
        p2p 1 single 1 10.0.0.1 10.0.0.2 active 1000000 1000000 3 100000 0\n\
        run\n\
        rx 100000 single 1 10.0.0.2 10.0.0.1 255 208003180000000700000001000f4240000000000000c350\n\
        tick 101\n\
        rx 102000 echo 1 10.0.0.1 10.0.0.1 254 42464465000000010000000000000000\n\
        rx 103000 echo 1 10.0.0.1 10.0.0.1 254 42464465000000010000000000000000\n\
        tick 401\n\
        tick 402\n\
        end\n",
        "1 state 1 Down Up 0\n\
        2 tx 1 42464465000000010000000000000000\n\
        4 drop EchoStale\n\
        5 tx 1 42464465000000010000000100000000\n\
        6 state 1 Up Down 2\n\
        done 6 2 1\n",
    ),
    // A stale moment, and a tick that goes back.
    (
        "bfd 1\n\
        p2p 1 single 1 10.0.0.1 10.0.0.2 passive 1000000 1000000 3 0 0\n\
        run\n\
        rx 1500 single 1 10.0.0.2 10.0.0.1 255 204003180000000700000000000f42400000000000000000\n\
        tick 3002\n\
        rx 2000000 single 1 10.0.0.2 10.0.0.1 255 204003180000000700000000000f42400000000000000000\n\
        tick 3\n\
        tick 6001\n\
        tick 6002\n\
        end\n",
        "1 state 1 Down Init 0\n\
        2 state 1 Init Down 1\n\
        3 state 1 Down Init 1\n\
        6 state 1 Init Down 1\n\
        done 6 0 0\n",
    ),
    // The sending key changes.
    (
        "bfd 2\n\
        p2p 1 single 1 10.0.0.1 10.0.0.2 active 1000000 1000000 3 0 0\n\
        auth 1 1 5 736563726574\n\
        key 1 6 6e657721\n\
        run\n\
        tick 750\n\
        cmd 800000 1 key 6\n\
        tick 1514\n\
        rx 1600000 single 1 10.0.0.2 10.0.0.1 255 204403210000000700000000000f42400000000000000000010905736563726574\n\
        cmd 1700000 1 key 7\n\
        end\n",
        "1 tx 1 204403210000000100000000000f4240000f424000000000010905736563726574\n\
        3 tx 1 2044031f0000000100000000000f4240000f4240000000000107066e657721\n\
        4 state 1 Down Init 0\n\
        5 refuse OutOfRange\n\
        done 5 2 0\n",
    ),
];

/// Packets for nobody, sessions of several kinds, and two peers in one script.
const KINDS: &[Row] = &[
    // Packets for nobody.
    (
        "bfd 1\n\
        p2p 1 single 1 10.0.0.1 10.0.0.2 passive 1000000 1000000 3 0 0\n\
        run\n\
        rx 1 single 1 10.0.0.2 10.0.0.1 255 20c003180000000700000000000f42400000000000000000\n\
        rx 2 single 1 10.0.0.2 10.0.0.1 255 204003180000000700000009000f42400000000000000000\n\
        rx 3 single 2 10.0.0.2 10.0.0.1 255 204003180000000700000000000f42400000000000000000\n\
        rx 4 multi 1 10.0.0.2 10.0.0.1 255 204003180000000700000000000f42400000000000000000\n\
        end\n",
        "1 drop YourZeroState\n\
        2 drop YourUnknown\n\
        3 drop NoSession\n\
        4 drop NoSession\n\
        done 4 0 4\n",
    ),
    // A reflector.
    (
        "bfd 1\n\
        reflector 900 50000 up\n\
        run\n\
        rx 1 sbfd 1 10.0.0.1 10.0.0.9 255 204203180000000500000384000f42400000000000000000\n\
        rx 2 sbfd 1 10.0.0.1 10.0.0.9 255 206203180000000500000384000f42400000000000000000\n\
        rx 3 sbfd 1 10.0.0.1 10.0.0.9 255 204003180000000500000384000f42400000000000000000\n\
        rx 4 sbfd 1 10.0.0.1 10.0.0.9 255 204203180000000500000385000f42400000000000000000\n\
        end\n",
        "1 tx 900 20c003180000038400000005000f42400000c35000000000\n\
        2 tx 900 20d003180000038400000005000f42400000c35000000000\n\
        3 drop NotDemand\n\
        4 drop YourUnknown\n\
        done 4 2 2\n",
    ),
    // An initiator.
    (
        "bfd 1\n\
        sbfd 5 900 1 10.0.0.1 10.0.0.9 100000 3 0\n\
        run\n\
        tick 750\n\
        rx 760000 answer 1 10.0.0.9 10.0.0.1 255 20c003180000038400000005000f42400000c35000000000\n\
        tick 1059\n\
        tick 1060\n\
        end\n",
        "1 tx 5 204203180000000500000384000f42400000000000000000\n\
        2 state 5 Down Up 0\n\
        2 tx 5 20c203180000000500000384000186a00000000000000000\n\
        3 tx 5 20c203180000000500000384000186a00000000000000000\n\
        4 state 5 Up Down 1\n\
        4 tx 5 214203180000000500000384000f42400000000000000000\n\
        done 4 4 0\n",
    ),
    // A multipoint tail.
    (
        "bfd 1\n\
        tail 30 77 1 239.0.0.1 10.0.0.2\n\
        run\n\
        rx 1000 single 1 10.0.0.2 239.0.0.1 255 20c303180000004d00000000000493e00000000000000000\n\
        rx 2000 single 1 10.0.0.2 239.0.0.1 255 20c303180000004d0000001e000493e00000000000000000\n\
        rx 3000 single 1 10.0.0.2 239.0.0.1 255 20c303180000004e00000000000493e00000000000000000\n\
        rx 4000 multi 1 10.0.0.2 239.0.0.1 255 20c303180000004d00000000000493e00000000000000000\n\
        tick 900\n\
        tick 901\n\
        end\n",
        "1 state 30 Down Up 0\n\
        2 drop MultipointYour\n\
        3 drop NoTail\n\
        4 drop Multipoint\n\
        6 state 30 Up Down 1\n\
        done 6 0 3\n",
    ),
    // A multipoint head.
    (
        "bfd 1\n\
        head 40 1 10.0.0.1 239.0.0.1 100000 3 0\n\
        run\n\
        tick 75\n\
        cmd 100000 40 tx 200000\n\
        tick 157\n\
        cmd 160000 40 tx 50000\n\
        tick 234\n\
        tick 314\n\
        tick 507\n\
        tick 508\n\
        end\n",
        "1 tx 40 20c303180000002800000000000186a00000000000000000\n\
        3 tx 40 20e30318000000280000000000030d400000000000000000\n\
        4 refuse PollBusy\n\
        5 tx 40 20e30318000000280000000000030d400000000000000000\n\
        6 tx 40 20e30318000000280000000000030d400000000000000000\n\
        8 tx 40 20c30318000000280000000000030d400000000000000000\n\
        done 8 5 0\n",
    ),
    // A peer over several hops and one over one hop, which set C and offer Echo.
    (
        "bfd 1\n\
        p2p 11 multi 2 192.0.2.1 198.51.100.7 passive 300000 300000 5 0 7\n\
        p2p 12 single 1 10.0.0.1 10.0.0.2 active 300000 300000 3 0 0\n\
        run\n\
        rx 10000 multi 9 198.51.100.7 192.0.2.1 250 204005180000aa0100000000000f4240000493e00000c350\n\
        tick 750\n\
        rx 760000 single 1 10.0.0.2 10.0.0.1 255 204803180000bb020000000c000f4240000493e00000c350\n\
        rx 765000 multi 9 198.51.100.7 192.0.2.1 250 208005180000aa010000000b000f4240000493e00000c350\n\
        rx 770000 single 1 10.0.0.2 10.0.0.1 255 20e803180000bb020000000c000493e0000493e00000c350\n\
        cmd 800000 12 disable\n\
        cmd 810000 12 enable\n\
        tick 1032\n\
        rx 1040000 multi 9 198.51.100.7 192.0.2.1 250 20d005180000aa010000000b000493e0000493e00000c350\n\
        rx 1050000 multi 9 198.51.100.7 192.0.2.1 250 270005180000aa010000000b000f4240000493e00000c350\n\
        end\n",
        "1 state 11 Down Init 0\n\
        1 tx 11 208005180000000b0000aa01000f4240000493e000000000\n\
        2 tx 12 204003180000000c00000000000f4240000493e000000000\n\
        3 state 12 Down Init 0\n\
        3 tx 12 208003180000000c0000bb02000f4240000493e000000000\n\
        4 state 11 Init Up 0\n\
        4 tx 11 20c005180000000b0000aa01000493e0000493e000000000\n\
        5 state 12 Init Up 0\n\
        5 tx 12 20d003180000000c0000bb02000493e0000493e000000000\n\
        6 state 12 Up AdminDown 7\n\
        6 tx 12 270003180000000c0000bb02000f4240000493e000000000\n\
        7 state 12 AdminDown Down 7\n\
        7 tx 12 274003180000000c0000bb02000f4240000493e000000000\n\
        8 tx 11 20e005180000000b0000aa01000493e0000493e000000000\n\
        10 state 11 Up Down 3\n\
        10 tx 11 234005180000000b0000aa01000f4240000493e000000000\n\
        done 10 9 0\n",
    ),
];

/// The words of a replay on one shard, and on several by several workers.
const REPLAYS: &[&[&str]] = &[&["replay"], &["replay", "--shards", "7", "--workers", "5"]];

/// Whether each of these scripts has its report, by each of these words.
fn are_reported<R: Threads + Wait + Sync>(rt: &R, alloc: Global, rows: &[Row]) -> Option<bool> {
    for (text, written) in rows {
        for words in REPLAYS {
            let case = calm(words, text, written);
            if !ended(rt, alloc, &case).ok()?.is_reported(&case) {
                return Some(false);
            }
        }
    }
    Some(true)
}

#[test]
fn sessions_of_two_peers(rt: HostRuntime) {
    assert!(rt; are_reported(&rt, rt.alloc(), PAIRS) == Some(true));
}

#[test]
fn sessions_of_each_kind(rt: HostRuntime) {
    assert!(rt; are_reported(&rt, rt.alloc(), KINDS) == Some(true));
}

/// A text that isn't a script, the number of the faulty line, its fault, and what is written.
type Faulty = (&'static str, u64, LineFault, &'static str);

/// A fault of each kind of test: whether a line stands where it may, its fields, and the table.
const FAULTY: &[Faulty] = &[
    ("", 1, LineFault::MissingEnd, "bad 1 MissingEnd\n"),
    ("run\n", 1, LineFault::Order, "bad 1 Order\n"),
    (
        "bfd 1\nrun\n",
        3,
        LineFault::MissingEnd,
        "bad 3 MissingEnd\n",
    ),
    (
        "bfd 1\n\n",
        2,
        LineFault::UnknownWord,
        "bad 2 UnknownWord\n",
    ),
    (
        "bfd 1\nrun\ntick 01\nend\n",
        3,
        LineFault::BadNumber,
        "bad 3 BadNumber\n",
    ),
    (
        "bfd 1\nrun\ntick\nend\n",
        3,
        LineFault::FieldCount,
        "bad 3 FieldCount\n",
    ),
    (
        "bfd 1\nrun\nshow 5 1\nend\n",
        3,
        LineFault::NoSuchSession,
        "bad 3 NoSuchSession\n",
    ),
    (
        "bfd 1\nreflector 0 50000 up\nrun\nend\n",
        2,
        LineFault::OutOfRange,
        "bad 2 OutOfRange\n",
    ),
    (
        "bfd 1\nreflector 9 50000 up\nreflector 9 50000 up\nrun\nend\n",
        3,
        LineFault::SameDiscr,
        "bad 3 SameDiscr\n",
    ),
    (
        "bfd 1\nrun\nend\nrun\n",
        4,
        LineFault::Order,
        "bad 4 Order\n",
    ),
];

/// A case of a text that isn't a script.
fn faulty(words: &'static [&'static str], row: &Faulty) -> Case<'static> {
    let (text, line, fault, written) = *row;
    let mut case = calm(words, text, written);
    case.status = Status::BadLine { line, fault };
    case
}

#[test]
fn lines_with_a_fault(rt: HostRuntime) -> Result<(), Fail> {
    for row in FAULTY {
        let case = faulty(&["replay"], row);
        assert!(rt; ended(&rt, rt.alloc(), &case)?.is_reported(&case));
    }
    Ok(())
}

/// Words that aren't in the grammar.
const USAGES: &[&[&str]] = &[
    &[],
    &["replay", "--shards", "0"],
    &["replay", "--shards", "2", "--shards", "2"],
    &["load", "0", "1", "1"],
    &["watch", "2", "1"],
    &["pair", "0", "1"],
];

#[test]
fn words_outside_the_grammar(rt: HostRuntime) -> Result<(), Fail> {
    for words in USAGES {
        let mut case = calm(words, EXPIRING, "");
        case.status = Status::Usage;
        assert!(rt; ended(&rt, rt.alloc(), &case)?.is_reported(&case));
    }
    Ok(())
}

/// What `watch` writes of a link group of one session that comes Up and goes Down.
const UP_AND_DOWN: &str = "2 change 1 Down Up 0\n\
    2 group 1 up\n\
    6 change 1 Up Down 1\n\
    6 group 0 down\n\
    watched 2 0 down\n";

/// Words, a text, and what is written by a run that is done.
const DONE: &[(&[&str], &str, &str)] = &[
    (&["replay"], "bfd 1\nrun\nend\n", "done 0 0 0\n"),
    (&["load", "1", "1", "0"], "", "load 1 2 1 0 1\n"),
    (&["pair", "1", "0"], "", "pair 1 0 0 Down Down 0\n"),
    (&["watch", "1", "1"], HANDSHAKE, UP_AND_DOWN),
    (
        &["watch", "1", "1", "--shards", "3"],
        HANDSHAKE,
        UP_AND_DOWN,
    ),
    (
        &["watch", "1", "1"],
        EXPIRING,
        "1 change 1 Down Init 0\n3 change 1 Init Down 1\nwatched 2 0 down\n",
    ),
];

#[test]
fn what_each_word_writes(rt: HostRuntime) -> Result<(), Fail> {
    for (words, text, written) in DONE {
        let case = calm(words, text, written);
        assert!(rt; ended(&rt, rt.alloc(), &case)?.is_reported(&case));
    }
    let mut stranger = calm(&["watch", "1", "9"], EXPIRING, "");
    stranger.status = Status::NoMember(9);
    assert!(rt; ended(&rt, rt.alloc(), &stranger)?.is_reported(&stranger));
    Ok(())
}
