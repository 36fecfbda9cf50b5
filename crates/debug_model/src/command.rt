//! Commands in words.

/// What a command in words asks. A number past 2^64 - 1 counts as that.
#[derive(Clone, Copy)]
pub enum Command {
    /// The time: `time`.
    Time,
    /// How many steps the run has: `steps`.
    Steps,
    /// The text of the run's calls: `calls`.
    Calls,
    /// To go to a time: `goto T`. None where what stands there is no number.
    GoTo(Option<u64>),
    /// The step that read a byte, by its channel and its offset there: `read C:O`. None where what stands there isn't two
    /// numbers.
    Read(Option<(u64, u64)>),
    /// The step that wrote one: `wrote C:O`.
    Wrote(Option<(u64, u64)>),
    /// Every other, which is told what commands there are.
    Other,
}
