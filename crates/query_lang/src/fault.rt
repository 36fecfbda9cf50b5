//! Why no query was read, or made.

use no_memory::Fault;
use report_model::{FaultInQuery, OtherRule};

/// Why `parse` gave no query: the first fault of the text's first faulty line, or out of memory.
pub type QueryFault = Fault<FaultInQuery>;

/// Why `together` gave no query: the first query that has another rule, or out of memory.
pub type TogetherFault = Fault<OtherRule>;
