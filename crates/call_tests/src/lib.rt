//! Tests of single calls of the crates below: a module for each crate, with outside vectors, printed texts, and calls
//! on their happy path, with memory that suffices. They stand here, and not beside the code, so that no crate is proved
//! twice.
#![tactic(auto)]

/// A source byte, by its channel and its offset.
macro_rules! source {
    ($channel:expr, $offset:expr) => { flow_model::SourceByte { channel: $channel, offset: $offset } };
}

/// Source bytes in a run, by its channel, its first and its last offset.
macro_rules! run {
    ($channel:expr, $first:expr, $last:expr) => {
        source_runs::SourceRun { channel: $channel, first: $first, last: $last }
    };
}

/// An output byte, by its channel and its offset.
macro_rules! output {
    ($channel:expr, $offset:expr) => {
        flow_model::SinkPoint::Out(flow_model::SinkByte { channel: $channel, offset: $offset })
    };
}

/// A location inside a run, after so many steps.
macro_rules! inside {
    ($loc:expr, $time:expr) => { flow_model::SinkPoint::At(flow_model::InnerSink { time: $time, loc: $loc }) };
}

/// A lane of a register, by their numbers.
macro_rules! lane {
    ($number:expr, $lane:expr) => { flow_model::Loc::Reg { number: $number, lane: $lane } };
}

#[cfg(test)]
mod asserts;
#[cfg(test)]
mod elf_image_tests;
#[cfg(test)]
mod epoch_cut_tests;
#[cfg(test)]
mod flow_rule_tests;
#[cfg(test)]
mod guest_assembler_tests;
#[cfg(test)]
mod instruction_text_tests;
#[cfg(test)]
mod lists_tests;
#[cfg(test)]
mod merge_log_tests;
#[cfg(test)]
mod outer_io_tests;
#[cfg(test)]
mod printed_names_tests;
#[cfg(test)]
mod query_lang_tests;
#[cfg(test)]
mod range_report_tests;
#[cfg(test)]
mod remote_frames_tests;
#[cfg(test)]
mod remote_packets_tests;
#[cfg(test)]
mod replay_log_tests;
#[cfg(test)]
mod run_output_tests;
#[cfg(test)]
mod rv_decode_tests;
#[cfg(test)]
mod rv_machine_tests;
#[cfg(test)]
mod sink_collect_tests;
#[cfg(test)]
mod source_ranges_tests;
#[cfg(test)]
mod source_runs_tests;
