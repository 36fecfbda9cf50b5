//! Laws of logs and of faults. Each is a function that does nothing: its contract is the law.

ghost use Rattle.log_model.specs.Laws.{ReadsLogs, ReadsFaults, WideLogsAreRead, HaveOneText, FaultyAreNoLogs, HaveOneFault, AreLogsOrFaulty, HaveLength, ArePrefixFree};

/// Bytes are read as a log exactly where they are a text of it, in either version.
pub fn reads_logs()
    ensures { ReadsLogs }
{}

/// A fault is read exactly where the bytes have it, at that offset.
pub fn reads_faults()
    ensures { ReadsFaults }
{}

/// A log that version 2 can hold is read from its text in version 2: to convert a log keeps it.
pub fn wide_logs_are_read()
    ensures { WideLogsAreRead }
{}

/// Bytes are a text of one log: what stands in a log stands in its texts.
pub fn one_text()
    ensures { HaveOneText }
{}

/// Bytes that have a fault are no log's text.
pub fn faulty_is_no_log()
    ensures { FaultyAreNoLogs }
{}

/// Bytes have one fault at most, at one offset.
pub fn one_fault()
    ensures { HaveOneFault }
{}

/// Bytes are a text of a log, or they have a fault.
pub fn each_is_a_log_or_faulty()
    ensures { AreLogsOrFaulty }
{}

/// A log's text has 48 bytes of header, and then its records' and its end's; in version 2 also four bytes for each
/// channel, and what was read on it.
pub fn text_length()
    ensures { HaveLength }
{}

/// Less than the whole of a text of a log is no log's text: a write that was cut off is never taken for a log.
pub fn no_front_is_a_log()
    ensures { ArePrefixFree }
{}
