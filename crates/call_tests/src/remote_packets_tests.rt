//! Packets against what they ask.

use crate::asserts::{Runtime, assert_same};
use remote_packets::{Move, Packet, Point, WatchKind, command, parse};

/// Packets without numbers, and what they ask.
const PLAIN: &[(&[u8], Packet)] = &[
    (b"?", Packet::LastStop),
    (b"g", Packet::Registers),
    (b"G", Packet::Change),
    (b"G00", Packet::Change),
    (b"P0=0", Packet::Change),
    (b"M10000,1:00", Packet::Change),
    (b"X10000,0:", Packet::Change),
    (b"s", Packet::Go(Move::Step)),
    (b"S", Packet::Go(Move::Step)),
    (b"S05;10000", Packet::Go(Move::Step)),
    (b"c", Packet::Go(Move::Continue)),
    (b"C05", Packet::Go(Move::Continue)),
    (b"bs", Packet::Go(Move::ReverseStep)),
    (b"bc", Packet::Go(Move::ReverseContinue)),
    (b"vCont;s", Packet::Go(Move::Step)),
    (b"vCont;S", Packet::Go(Move::Step)),
    (b"vCont;S05:1;c:-1", Packet::Go(Move::Step)),
    (b"vCont;s:p1.-1", Packet::Go(Move::Step)),
    (b"vCont;c", Packet::Go(Move::Continue)),
    (b"vCont;c;s:1", Packet::Go(Move::Continue)),
    (b"vCont;C0b:1", Packet::Go(Move::Continue)),
    (b"vCont?", Packet::Moves),
    (b"qSupported", Packet::Supported),
    (b"qSupported:multiprocess+", Packet::Supported),
    (b"QStartNoAckMode", Packet::StartNoAck),
    (b"!", Packet::Extended),
    (b"H", Packet::Thread),
    (b"Hc-1", Packet::Thread),
    (b"qAttached", Packet::Attached),
    (b"qAttached:1", Packet::Attached),
    (b"vKill;", Packet::End),
    (b"vKill;1", Packet::End),
    (b"qRcmd,", Packet::Command),
    (b"qRcmd,0aFf", Packet::Command),
    (b"D", Packet::Detach),
    (b"D;1", Packet::Detach),
    (b"k", Packet::Kill),
];

/// Packets with numbers, and what they ask.
const NUMBERED: &[(&[u8], Packet)] = &[
    (b"p0", Packet::Register(0)),
    (b"p20", Packet::Register(32)),
    (b"pFfffffff", Packet::Register(4294967295)),
    (
        b"m10000,4",
        Packet::Memory {
            place: 65536,
            length: 4,
        },
    ),
    (
        b"m0000000A,0",
        Packet::Memory {
            place: 10,
            length: 0,
        },
    ),
    (b"Z0,10014,4", Packet::Set(Point::Break { place: 65556 })),
    (b"Z1,1,2;X1,0;,", Packet::Set(Point::Break { place: 1 })),
    (b"z0,10014,2;", Packet::Clear(Point::Break { place: 65556 })),
    (b"z1,10014,0", Packet::Clear(Point::Break { place: 65556 })),
    (
        b"Z2,10102,1",
        Packet::Set(Point::Watch {
            kind: WatchKind::Write,
            place: 65794,
            length: 1,
        }),
    ),
    (
        b"z3,fffffffF,ffffffff",
        Packet::Clear(Point::Watch {
            kind: WatchKind::Read,
            place: 4294967295,
            length: 4294967295,
        }),
    ),
    (
        b"Z4,0,0",
        Packet::Set(Point::Watch {
            kind: WatchKind::Access,
            place: 0,
            length: 0,
        }),
    ),
    (
        b"vCont;r10000,10014:-1",
        Packet::Go(Move::RangeStep {
            start: 65536,
            end: 65556,
        }),
    ),
    (
        b"vCont;r1,0;c",
        Packet::Go(Move::RangeStep { start: 1, end: 0 }),
    ),
    (
        b"qXfer:features:read:target.xml:0,ffb",
        Packet::Description {
            offset: 0,
            length: 4091,
        },
    ),
    (b"vRun;", Packet::Run(Some(0))),
    (b"vRun;not hexadecimal", Packet::Run(Some(0))),
    (b"vRun;;30", Packet::Run(Some(0))),
    (b"vRun;6f;3331333633", Packet::Run(Some(31363))),
    (
        b"vRun;;30303030303030303030303030303030303030303037",
        Packet::Run(Some(7)),
    ),
    (
        b"vRun;;3138343436373434303733373039353531363134",
        Packet::Run(Some(18446744073709551614)),
    ),
    (
        b"vRun;;3138343436373434303733373039353531363136",
        Packet::Run(Some(18446744073709551615)),
    ),
    (
        b"vRun;;313030303030303030303030303030303030303030",
        Packet::Run(Some(18446744073709551615)),
    ),
    (b"vRun;;", Packet::Run(None)),
    (b"vRun;;3", Packet::Run(None)),
    (b"vRun;;313", Packet::Run(None)),
    (b"vRun;;2f", Packet::Run(None)),
    (b"vRun;;3a", Packet::Run(None)),
    (b"vRun;;4130", Packet::Run(None)),
    (b"vRun;;303130", Packet::Run(Some(10))),
    (b"vRun;;0x3", Packet::Run(None)),
];

/// Packets that have not the form of one that is known, and others.
const OTHERS: &[&[u8]] = &[
    b"",
    b"??",
    b"!0",
    b"g0",
    b"s1",
    b"c10000",
    b"k0",
    b"b",
    b"bs0",
    b"bcx",
    b"p",
    b"p-1",
    b"p100000000",
    b"p1,2",
    b"px",
    b"m",
    b"m1",
    b"m1,",
    b"m,1",
    b"m1,2,3",
    b"m1;2",
    b"m000010000,4",
    b"m0x1,4",
    b"Z",
    b"Z0",
    b"Z0,1",
    b"Z2,10102",
    b"Z2,10102,",
    b"Z2,10102,1,2",
    b"Z2;,1,1",
    b"Z2,10102,1;X1,0",
    b"z4,0,0;",
    b"Z0;X,1,1",
    b"Z0,1;2",
    b"Z5,0,0",
    b"Z02,0,0",
    b"Z,0,0",
    b"z,",
    b"vCont",
    b"vCont;",
    b"vCont;;s",
    b"vCont;t",
    b"vCont;sx",
    b"vCont;r10000",
    b"vCont;r10000,",
    b"vCont;r1:0,2",
    b"vCont;r1,2,3",
    b"vCont??",
    b"vKill",
    b"vRun",
    b"vRun;;31;31",
    b"vRun;;31;",
    b"vMustReplyEmpty",
    b"qRcmd",
    b"qRcmd,7",
    b"qRcmd,7g",
    b"qRcmd,74 ",
    b"qXfer:features:read:target.xml:0",
    b"qXfer:features:read:target.xml:0,",
    b"qXfer:features:read:other.xml:0,1",
    b"qSupporte",
    b"QStartNoAckMode+",
    b"qC",
];

/// The packets ask what they are to ask.
fn assert_asked(rt: &impl Runtime, asked: &[(&[u8], Packet)]) {
    for (packet, want) in asked {
        assert!(rt; parse(packet) == *want);
    }
}

#[test]
fn packets_ask_what_they_ask(rt: HostRuntime) {
    assert_asked(&rt, PLAIN);
    assert_asked(&rt, NUMBERED);
}

#[test]
fn every_other_packet_is_other(rt: HostRuntime) {
    for packet in OTHERS {
        assert!(rt; parse(packet) == Packet::Other);
    }
}

/// Packets of commands, and the commands.
const COMMANDS: &[(&[u8], &[u8])] = &[
    (b"qRcmd,", b""),
    (b"qRcmd,74696d65", b"time"),
    (b"qRcmd,676F746f203135", b"goto 15"),
    (b"qRcmd,7", b""),
    (b"?", b""),
];

#[test]
fn commands_are_read(rt: HostRuntime) {
    for (packet, want) in COMMANDS {
        let words = command(rt.alloc(), packet).expect(&rt, "memory");
        assert_same(&rt, words.as_slice(), *want);
    }
}
