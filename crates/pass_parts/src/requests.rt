//! What the next epoch asks for.

use flow_model::Loc;

/// A location that the next epoch asks for.
#[derive(Clone, Copy)]
pub struct Request {
    pub loc: Loc,
    /// How many of the locations that the epoch asks itself must be answered before it: those up to the last
    /// start location of its terms. None in the first epoch.
    pub needed_first: usize,
}

/// What the next epoch asks for, in its order.
pub type Requests = Vec<Request>;
