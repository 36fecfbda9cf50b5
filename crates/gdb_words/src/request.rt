//! What words stand for.

/// A recorded run that is to be debugged.
#[derive(Clone, Copy)]
pub struct Request<'a> {
    /// The name of the program's file.
    pub program: &'a str,
    /// The name of the log's file.
    pub log: &'a str,
    /// The time at which the session begins, in steps: 0 to 1,099,511,627,776, and 0 where the words tell none.
    pub time: u64,
}
