//! A gate that each epoch's analysis enters as it begins.

/// A gate that each epoch's analysis enters as it begins, so that a test can hold one back.
pub trait Gate: Sync {
    /// Called once as the analysis of the epoch of this number begins. It answers nothing and
    /// changes no result.
    fn enter(&self, epoch: u32);
}

/// A gate that returns at once.
#[derive(Clone, Copy)]
pub struct OpenGate;

impl Gate for OpenGate {
    fn enter(&self, _epoch: u32) {}
}
