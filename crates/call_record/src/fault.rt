//! Why there is no log of a run.

use no_memory::Fault;
use record_model::Unrecorded;

/// Why [`crate::capture`] gave no log: the window or the log's length, or out of memory.
pub type CaptureFault = Fault<Unrecorded>;
