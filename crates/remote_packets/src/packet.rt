//! What packets ask.

/// Which accesses a watchpoint watches.
#[derive(Clone, Copy, PartialEq, Eq)]
pub enum WatchKind {
    /// Writes.
    Write,
    /// Reads.
    Read,
    /// Both.
    Access,
}

/// Where a run is to stop.
#[derive(Clone, Copy, PartialEq, Eq)]
pub enum Point {
    /// Where the pc is this address.
    Break {
        place: u32,
    },
    /// Where one of so many bytes from an address on is accessed. They may reach past the last address.
    Watch {
        kind: WatchKind,
        place: u32,
        length: u32,
    },
}

/// Where the run is to go.
#[derive(Clone, Copy, PartialEq, Eq)]
pub enum Move {
    /// One step on.
    Step,
    /// On to the next point.
    Continue,
    /// On to the next point, or to where the pc isn't from the start on and below the end.
    RangeStep { start: u32, end: u32 },
    /// One step back.
    ReverseStep,
    /// Back to the last point.
    ReverseContinue,
}

/// What a packet asks.
#[derive(Clone, Copy, PartialEq, Eq)]
pub enum Packet {
    /// The last stop: `?`.
    LastStop,
    /// All registers: `g`.
    Registers,
    /// The register of this number: `p N`.
    Register(u32),
    /// So many bytes of memory from an address on: `m A,L`.
    Memory { place: u32, length: u32 },
    /// Registers or memory are to be changed: `G`, `P`, `M` or `X`, and anything.
    Change,
    /// A point is set: `Z0` to `Z4`.
    Set(Point),
    /// A point is cleared: `z0` to `z4`.
    Clear(Point),
    /// A move: `s`, `S`, `c`, `C`, `bs`, `bc`, or the first action of a `vCont`.
    Go(Move),
    /// Which moves `vCont` may name: `vCont?`.
    Moves,
    /// What is supported: `qSupported`, and anything.
    Supported,
    /// So many bytes, from an offset on, of the description of the registers: `qXfer:features:read:target.xml:O,L`.
    Description { offset: u32, length: u32 },
    /// Frames aren't acknowledged any more: `QStartNoAckMode`.
    StartNoAck,
    /// The session goes on when a run is ended: `!`.
    Extended,
    /// Which thread is meant: `H`, and anything.
    Thread,
    /// Whether the run was there before: `qAttached`, and anything.
    Attached,
    /// The run anew, at a time in steps; past 2^64 - 1 that is meant. None where what should be the time is none:
    /// `vRun;NAME`, which means time 0, or `vRun;NAME;T`.
    Run(Option<u64>),
    /// The run is ended, and another may follow: `vKill;`, and anything.
    End,
    /// A command in words, whose bytes [`crate::command`] gives: `qRcmd,HEX`.
    Command,
    /// The session is ended, and that is answered: `D`, and anything.
    Detach,
    /// The session is ended: `k`.
    Kill,
    /// Every other packet.
    Other,
}
