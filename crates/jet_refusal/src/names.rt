//! The printed names of faults, of query kinds, of rules and of compared fields.

ghost use Rattle.std.specs.Prelude.{◌≡◌, ◌+◌, ◌≤◌, ◌++◌, length};
ghost use Rattle.jet_refusal.specs.Lines.{image_text, log_fault_name, query_kind, rule_name, field_text};

use crate::line::Line;
use elf_model::ImageKind;
use flow_model::Rule;
use log_model::LogKind;
use replay_model::Field;
use report_model::QueryKind;

/// Why a program is no image, as the whole text of its line.
pub(crate) fn image_text(kind: ImageKind) -> &'static str
    ensures text { result.now ≡ image_text kind }
    ensures short { length result.now ≤ 17 }
{
    match kind {
        ImageKind::Short => "image 1 Short",
        ImageKind::Magic => "image 2 Magic",
        ImageKind::Class => "image 3 Class",
        ImageKind::Kind => "image 4 Kind",
        ImageKind::Machine => "image 5 Machine",
        ImageKind::Header => "image 6 Header",
        ImageKind::Dynamic => "image 7 Dynamic",
        ImageKind::Segment => "image 8 Segment",
        ImageKind::NoSegment => "image 9 NoSegment",
        ImageKind::Entry => "image 10 Entry",
    }
}

/// The number and the name of a log's fault.
pub(crate) fn log_fault_name(kind: LogKind) -> &'static str
    ensures text { result.now ≡ log_fault_name kind }
    ensures short { length result.now ≤ 10 }
{
    match kind {
        LogKind::Magic => "1 Magic",
        LogKind::Header => "2 Header",
        LogKind::Short => "3 Short",
        LogKind::Tag => "4 Tag",
        LogKind::Order => "5 Order",
        LogKind::Result => "6 Result",
        LogKind::Trailing => "7 Trailing",
        LogKind::Bytes => "8 Bytes",
    }
}

/// The name of a query's fault.
pub(crate) fn query_kind(kind: QueryKind) -> &'static str
    ensures text { result.now ≡ query_kind kind }
    ensures short { length result.now ≤ 10 }
{
    match kind {
        QueryKind::BadByte => "BadByte",
        QueryKind::Word => "Word",
        QueryKind::Count => "Count",
        QueryKind::Number => "Number",
        QueryKind::Channel => "Channel",
        QueryKind::Range => "Range",
        QueryKind::SecondRule => "SecondRule",
        QueryKind::NoRule => "NoRule",
    }
}

/// The name of a rule, as queries have it.
pub fn rule_name(rule: Rule) -> &'static str
    ensures text { result.now ≡ rule_name rule }
    ensures short { length result.now ≤ 7 }
{
    match rule {
        Rule::Copy => "copy",
        Rule::Keep => "keep",
        Rule::Compute => "compute",
        Rule::Index => "index",
    }
}

/// Appends the name of a compared field: of a byte, with its place in the write.
pub(crate) fn push_field(line: &mut Line, field: Field)
    requires { length line.old + 45 ≤ 256 }
    ensures text { line.new ≡ line.old ++ field_text field }
    ensures short { length line.new ≤ length line.old + 45 }
{
    match field {
        Field::Event => line.push_str("event"),
        Field::A0 => line.push_str("a0"),
        Field::A1 => line.push_str("a1"),
        Field::A2 => line.push_str("a2"),
        Field::Result => line.push_str("result"),
        Field::Byte(index) => {
            line.push_str("byte ");
            line.push_number(index);
        }
        Field::Number => line.push_str("number"),
        Field::Code => line.push_str("code"),
        Field::Kind => line.push_str("kind"),
        Field::Pc => line.push_str("pc"),
    }
}
