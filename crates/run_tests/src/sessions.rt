//! Sessions of a debugger over recorded runs: what is written for what is read.

use crate::guests::{COMPARE_AND_LOOK_UP, COPY_FOUR, Guest, Runtime, TRAP, job_of};
use crate::runs::cuts_of;
use checkpoints::Checkpoints;
use debug_session::Session;
use remote_frames::Framer;
use run_travel::Travel;
use std::process::Abort;

/// What is read, and what is written for it.
type Said = (&'static [u8], &'static [u8]);

/// What a session writes for bytes, and whether it is over then.
fn written_for(
    rt: &impl Runtime,
    session: &mut Session<'_>,
    framer: &mut Framer,
    bytes: &[u8],
) -> (Vec<u8>, bool) {
    let mut out = Vec::new(rt.alloc());
    let mut is_over = false;
    for byte in bytes {
        let framed = framer.read(*byte).expect(rt, "memory");
        is_over = session
            .hear(framed, framer.packet(), &mut out)
            .expect(rt, "memory");
    }
    (out, is_over)
}

/// These bytes are those.
fn assert_same(rt: &impl Abort, found: &[u8], wanted: &[u8]) {
    assert_eq!(rt; found, wanted);
}

/// Over the run of a guest with a checkpoint after each so many steps, a session that begins at a time writes so for what is
/// read. It is over at the end, if it is to be, and not before.
fn assert_says(
    rt: &impl Runtime,
    guest: &Guest,
    length: u64,
    time: u64,
    dialogue: &[Said],
    ends: bool,
) {
    let alloc = rt.alloc();
    let job = job_of(rt, guest);
    let cuts = cuts_of(rt, &job, length);
    let checkpoints = Checkpoints::take(alloc, &job, &cuts).expect(rt, "memory");
    let travel = Travel::new(alloc, &job, &checkpoints, &cuts).expect(rt, "memory");
    let mut session = Session::new(alloc, &job, travel, time).expect(rt, "memory");
    let mut framer = Framer::new(alloc);
    let mut left = dialogue.len();
    for (read, written) in dialogue {
        let (out, is_over) = written_for(rt, &mut session, &mut framer, read);
        left = left.saturating_sub(1);
        assert_same(rt, &out, written);
        assert_eq!(rt; is_over, ends && left == 0);
    }
}

/// Past a read, back over it, and on by breakpoints, out of a range and to the end.
const WATCHED: [Said; 19] = [
    (
        b"$qSupported:x#e9",
        b"+$PacketSize=4000;QStartNoAckMode+;ReverseStep+;ReverseContinue+;qXfer:features:read+;vContSupported+#80",
    ),
    (b"$QStartNoAckMode#b0", b"+$OK#9a"),
    (b"$?#3f", b"$T05#b9"),
    (b"$m10000,4#be", b"$b7050100#bf"),
    (b"$Z2,10102,1#09", b"$OK#9a"),
    (b"$vCont;c#a8", b"$T05watch:00010102;#c9"),
    (b"$p20#d2", b"$18000100#8a"),
    (b"$bs#d5", b"$T05watch:00010102;#c9"),
    (b"$bc#c5", b"$T05replaylog:begin;#02"),
    (b"$z2,10102,1#29", b"$OK#9a"),
    (b"$Z0,10014,4#0c", b"$OK#9a"),
    (b"$vCont;r10000,10014:-1#62", b"$T05#b9"),
    (b"$vCont;c#a8", b"$T05replaylog:end;#34"),
    (b"$s#73", b"$T05replaylog:end;#34"),
    (b"$bc#c5", b"$T05#b9"),
    (b"$qRcmd,74696d65#02", b"$O350a#48$OK#9a"),
    (b"$M10000,1:00#35", b"$E01#a6"),
    (b"$m0,4#fd", b"$E01#a6"),
    (b"$D#44", b"$OK#9a"),
];

#[test]
fn a_dialogue_goes_past_a_read_and_back(rt: HostRuntime) {
    for length in [1, 5, 100] {
        assert_says(&rt, &COPY_FOUR, length, 0, &WATCHED, true);
    }
}

/// Registers and memory behind the read, and that they are not changed.
const STATE: [Said; 14] = [
    (b"$?#3f", b"+$T05#b9"),
    (
        b"$g#67",
        b"+$0000000000000000f00f010000000000000000000000000000000000000000000000000000000000040000000001010004000000000000000000000000000000000000003f000000000000000000000000000000000000000000000000000000000000000000000000000000000000000000000000000000000000000000000018000100#3a",
    ),
    (b"$p0#a0", b"+$00000000#80"),
    (b"$pb#d2", b"+$00010100#82"),
    (b"$p20#d2", b"+$18000100#8a"),
    (b"$p21#d3", b"+$E01#a6"),
    (b"$m10100,4#bf", b"+$41424344#9a"),
    (b"$m10ffe,8#63", b"+$0000#c0"),
    (b"$m11000,1#bc", b"+$E01#a6"),
    (b"$m10100,0#bb", b"+$E01#a6"),
    (b"$mffff,2#63", b"+$E01#a6"),
    (b"$G00#a7", b"+$E01#a6"),
    (b"$P1=00000000#3e", b"+$E01#a6"),
    (b"$X10000,0:#df", b"+$E01#a6"),
];

/// Points that are set and cleared, and moves by all their names.
const POINTS: [Said; 20] = [
    (b"$Z1,10014,4;X1,0#2d", b"+$OK#9a"),
    (b"$Z1,10014,4#0d", b"+$OK#9a"),
    (b"$c#63", b"+$T05replaylog:end;#34"),
    (b"$bc#c5", b"+$T05#b9"),
    (b"$z1,10014,2#2b", b"+$OK#9a"),
    (b"$bc#c5", b"+$T05replaylog:begin;#02"),
    (b"$Z3,10100,4#0b", b"+$OK#9a"),
    (b"$C05#a8", b"+$T05rwatch:00010100;#39"),
    (b"$bs#d5", b"+$T05rwatch:00010100;#39"),
    (b"$z3,10100,4#2b", b"+$OK#9a"),
    (b"$Z4,10103,1#0c", b"+$OK#9a"),
    (b"$bc#c5", b"+$T05awatch:00010103;#2b"),
    (b"$z4,10103,1#2c", b"+$OK#9a"),
    (b"$s#73", b"+$T05#b9"),
    (b"$S05#b8", b"+$T05#b9"),
    (b"$vCont;s:1;c#c1", b"+$T05#b9"),
    (b"$p20#d2", b"+$20000100#83"),
    (b"$vCont;r10000,10020#c7", b"+$T05#b9"),
    (b"$p20#d2", b"+$24000100#87"),
    (b"$Z5,10000,4#0c", b"+$#00"),
];

/// What a debugger asks besides, and the run anew.
const OTHERS: [Said; 18] = [
    (b"$vCont?#49", b"+$vCont;c;C;s;S;r#0f"),
    (b"$qXfer:features:read:target.xml:0,5#80", b"+$m<?xml#39"),
    (b"$qXfer:features:read:target.xml:ffff,10#14", b"+$l#6c"),
    (b"$Hg0#df", b"+$OK#9a"),
    (b"$!#21", b"+$OK#9a"),
    (b"$qAttached:1#fa", b"+$1#31"),
    (b"$vMustReplyEmpty#3a", b"+$#00"),
    (b"$vKill;1#6e", b"+$OK#9a"),
    (b"$vRun;prog#9e", b"+$T05#b9"),
    (b"$p20#d2", b"+$00000100#81"),
    (b"$vRun;prog;35#41", b"+$T05#b9"),
    (b"$p20#d2", b"+$14000100#86"),
    (b"$vRun;prog;3939#b1", b"+$T05#b9"),
    (b"$p20#d2", b"+$30000100#84"),
    (b"$vRun;prog;41#3e", b"+$E01#a6"),
    (b"$vRun;prog;#d9", b"+$E01#a6"),
    (b"$vRun;prog;35;#7c", b"+$#00"),
    (b"$p20#d2", b"+$30000100#84"),
];

/// Commands in words.
const COMMANDS: [Said; 15] = [
    (b"$qRcmd,676f746f2037#ff", b"+$O370a#4a$OK#9a"),
    (b"$qRcmd,74696d65#02", b"+$O370a#4a$OK#9a"),
    (b"$qRcmd,7374657073#34", b"+$O31320a#a9$OK#9a"),
    (
        b"$qRcmd,676f746f203133#5f",
        b"+$O6e6f20737563682074696d650a#67$OK#9a",
    ),
    (
        b"$qRcmd,676f746f2078#04",
        b"+$O6e6f20737563682074696d650a#67$OK#9a",
    ),
    (b"$qRcmd,74696d65#02", b"+$O370a#4a$OK#9a"),
    (b"$qRcmd,7265616420303a33#87", b"+$O350a#48$OK#9a"),
    (b"$qRcmd,77726f746520313a30#29", b"+$O380a#4b$OK#9a"),
    (
        b"$qRcmd,77726f746520313a34#2d",
        b"+$O6e6f207375636820627974650a#36$OK#9a",
    ),
    (
        b"$qRcmd,7265616420313a30#85",
        b"+$O6e6f207375636820627974650a#36$OK#9a",
    ),
    (
        b"$qRcmd,726561642030#8d",
        b"+$O6e6f207375636820627974650a#36$OK#9a",
    ),
    (
        b"$qRcmd,63616c6c73#8f",
        b"+$O35207265616420303a302034206d3a3635373932202241424344220a3820777269746520313a302034206d3a3635373932202241424344220a3131206578697420300a656e6420330a#91$OK#9a",
    ),
    (
        b"$qRcmd,68656c70#fc",
        b"+$O74696d65207c207374657073207c2063616c6c73207c20676f746f2054207c207265616420433a4f207c2077726f746520433a4f0a#c9$OK#9a",
    ),
    (b"$qRcmd,7#5a", b"+$#00"),
    (b"$?#3f", b"+$T05#b9"),
];

/// Frames that are bad or broken off, the last answer again, and frames that are no longer acknowledged.
const FRAMES: [Said; 15] = [
    (b"-", b""),
    (b"+", b""),
    (b"\x03", b""),
    (b"$p0#a0", b"+$00000000#80"),
    (b"-", b"$00000000#80"),
    (b"$?#00", b"-"),
    (b"$?#zz", b"-"),
    (b"-", b"$00000000#80"),
    (b"$m1$?#3f", b"+$T05#b9"),
    (b"$?#3F+-", b"+$T05#b9$T05#b9"),
    (b"$QStartNoAckMode#b0", b"+$OK#9a"),
    (b"$?#00", b""),
    (b"-", b""),
    (b"$?#3f", b"$T05#b9"),
    (b"$k#6b", b""),
];

#[test]
fn each_packet_is_answered(rt: HostRuntime) {
    assert_says(&rt, &COPY_FOUR, 5, 6, &STATE, false);
    assert_says(&rt, &COPY_FOUR, 5, 6, &POINTS, false);
    assert_says(&rt, &COPY_FOUR, 5, 6, &OTHERS, false);
    assert_says(&rt, &COPY_FOUR, 5, 6, &COMMANDS, false);
    assert_says(&rt, &COPY_FOUR, 5, 6, &FRAMES, true);
}

/// The signal of a trap is told where a move comes to it, and not where it stays there.
const TO_A_TRAP: [Said; 5] = [
    (b"$c#63", b"+$T0b#e6"),
    (b"$?#3f", b"+$T0b#e6"),
    (b"$c#63", b"+$T05replaylog:end;#34"),
    (b"$bs#d5", b"+$T05#b9"),
    (b"$s#73", b"+$T0b#e6"),
];

/// A run without steps ends where it begins.
const STILL: [Said; 2] = [
    (b"$s#73", b"+$T05replaylog:end;#34"),
    (b"$bs#d5", b"+$T05replaylog:begin;#02"),
];

/// The end of a session is acknowledged, and not answered.
const KILLED: [Said; 1] = [(b"$k#6b", b"+")];

#[test]
fn ends_are_told(rt: HostRuntime) {
    assert_says(&rt, &COMPARE_AND_LOOK_UP, 3, 0, &TO_A_TRAP, false);
    assert_says(&rt, &TRAP, 3, 1 << 40, &STILL, false);
    assert_says(&rt, &TRAP, 3, 0, &KILLED, true);
}
