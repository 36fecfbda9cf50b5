//! Why bytes were not read as a log.

use log_model::FaultInLog;
use no_memory::Fault;

/// Why `read_log` gave no log: the first fault of the bytes, or out of memory.
pub type LogFault = Fault<FaultInLog>;
