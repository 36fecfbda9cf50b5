//! Texts of logs and of their parts.

/// The log of a run that reads four bytes, writes them and exits, in version 1. The digest is 0, 1, 2 .. 31.
pub const LOG_1: [u8; 107] = [
    0x4a, 0x45, 0x54, 0x4c, 0x4f, 0x47, 0x31, 0x0a, //
    0, 1, 2, 3, 4, 5, 6, 7, 8, 9, 10, 11, 12, 13, 14, 15, //
    16, 17, 18, 19, 20, 21, 22, 23, 24, 25, 26, 27, 28, 29, 30, 31, //
    1, 0, 0, 0, 1, 0, 0, 0, //
    1, 5, 0, 0, 0, 0, 0, 0, 0, 0, 1, 1, 0, 4, 0, 0, 0, 4, 0, 0, 0, 0x41, 0x42, 0x43, 0x44, //
    2, 8, 0, 0, 0, 1, 0, 0, 0, 0, 1, 1, 0, 4, 0, 0, 0, 4, 0, 0, 0, 0x41, 0x42, 0x43, 0x44, //
    5, 0x0b, 0, 0, 0, 0, 0, 0, 0,
];

/// The same log in version 2: a channel of four bytes, the read from 56 on, the write from 81 on, the exit from 110 on.
pub const LOG_2: [u8; 123] = [
    0x4a, 0x45, 0x54, 0x4c, 0x4f, 0x47, 0x32, 0x0a, //
    0, 1, 2, 3, 4, 5, 6, 7, 8, 9, 10, 11, 12, 13, 14, 15, //
    16, 17, 18, 19, 20, 21, 22, 23, 24, 25, 26, 27, 28, 29, 30, 31, //
    1, 0, 0, 0, 1, 0, 0, 0, //
    4, 0, 0, 0, 0x41, 0x42, 0x43, 0x44, //
    1, 5, 0, 0, 0, 0, 0, 0, 0, 0, 0, 0, 0, 0, 1, 1, 0, 4, 0, 0, 0, 4, 0, 0, 0, //
    2, 8, 0, 0, 0, 0, 0, 0, 0, 1, 0, 0, 0, 0, 1, 1, 0, 4, 0, 0, 0, 4, 0, 0, 0, 0x41, 0x42, 0x43,
    0x44, //
    5, 0x0b, 0, 0, 0, 0, 0, 0, 0, 0, 0, 0, 0,
];

/// A channel of three bytes, and one of five.
pub const THREE: [u8; 7] = [3, 0, 0, 0, 0x41, 0x42, 0x43];

pub const FIVE: [u8; 9] = [5, 0, 0, 0, 0x41, 0x42, 0x43, 0x44, 0x45];

/// In version 1 a clock call at step 3 and a call of number 42 at step 4.
pub const CALLS: [u8; 22] = [
    3, 3, 0, 0, 0, 2, 0, 0, 0, 1, 0, 0, 0, //
    4, 4, 0, 0, 0, 42, 0, 0, 0,
];

/// In version 1 a trap at step 5, of kind 2 at 0x10000.
pub const TRAP: [u8; 13] = [6, 5, 0, 0, 0, 2, 0, 0, 0, 0, 0, 1, 0];

/// In version 1 a read at step 0 on a channel that there isn't, a write at step 1 from outside the window, and a read
/// at step 2 at the channel's end.
pub const UNMOVED: [u8; 63] = [
    1, 0, 0, 0, 0, 9, 0, 0, 0, 0, 1, 1, 0, 4, 0, 0, 0, 0xf7, 0xff, 0xff, 0xff, //
    2, 1, 0, 0, 0, 1, 0, 0, 0, 0, 0, 0, 0x80, 4, 0, 0, 0, 0xf2, 0xff, 0xff, 0xff, //
    1, 2, 0, 0, 0, 0, 0, 0, 0, 0, 1, 1, 0, 4, 0, 0, 0, 0, 0, 0, 0,
];

/// In version 2 a clock call at the last step before 2^40, one at step 2^40, a limit at step 2^40, and one after it.
pub const LATE_CALL: [u8; 17] = [3, 255, 255, 255, 255, 255, 0, 0, 0, 2, 0, 0, 0, 1, 0, 0, 0];

pub const TOO_LATE_CALL: [u8; 17] = [3, 0, 0, 0, 0, 0, 1, 0, 0, 2, 0, 0, 0, 1, 0, 0, 0];

pub const LATE_LIMIT: [u8; 9] = [7, 0, 0, 0, 0, 0, 1, 0, 0];

pub const TOO_LATE_LIMIT: [u8; 9] = [7, 1, 0, 0, 0, 0, 1, 0, 0];

/// What stands after the channel in the log of version 2.
pub const AFTER_CHANNEL: [u8; 67] = [
    1, 5, 0, 0, 0, 0, 0, 0, 0, 0, 0, 0, 0, 0, 1, 1, 0, 4, 0, 0, 0, 4, 0, 0, 0, //
    2, 8, 0, 0, 0, 0, 0, 0, 0, 1, 0, 0, 0, 0, 1, 1, 0, 4, 0, 0, 0, 4, 0, 0, 0, 0x41, 0x42, 0x43,
    0x44, //
    5, 0x0b, 0, 0, 0, 0, 0, 0, 0, 0, 0, 0, 0,
];

/// A log in version 2 without inputs, of a program whose digest is 32 times 7: a call of number 42 at step 4, and a limit.
pub const OTHER: [u8; 70] = [
    74, 69, 84, 76, 79, 71, 50, 10, //
    7, 7, 7, 7, 7, 7, 7, 7, 7, 7, 7, 7, 7, 7, 7, 7, 7, 7, 7, 7, 7, 7, 7, 7, 7, 7, 7, 7, 7, 7, 7, 7, //
    1, 0, 0, 0, 0, 0, 0, 0, //
    4, 4, 0, 0, 0, 0, 0, 0, 0, 42, 0, 0, 0, //
    7, 9, 0, 0, 0, 0, 0, 0, 0,
];
