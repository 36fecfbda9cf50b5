//! What a line says.

ghost use Rattle.std.specs.Prelude.{◌≡◌, ◌<◌, ◌∷◌, codes, Err, MatchOption, MatchResult, option_map};
ghost use Rattle.report_model.specs.Grammar.{words, says, read_line};
ghost use Rattle.report_model.specs.Grammar.{rule_named as rule_by_name, rule_of as rule_by_words, channel_of as channel_by_word, range_of as range_by_words, choice_of as choice_by_words, statement_of as statement_by_words};
ghost use Rattle.report_model.specs.Grammar.{memory_at as memory_by_words, memory_of as memory_points, register_at as register_by_words, register_of as register_points, sink_of as sink_by_words};
ghost use Rattle.report_model.specs.declared.QueryKind.TheVariants.{Channel, Count};
ghost use Rattle.query_lang.specs.Choices.{choice_shown, span_choice, map_ok};
ghost use Rattle.query_lang.specs.Statements.{statement_shown, points_shown, after_at, AreRangeWords};

use crate::choice::{Choice, Offsets, Span};
use crate::number::{number_of, time_of};
use crate::points::Points;
use crate::words::{Words, has_bad_byte, is_comment};
use flow_model::Rule;
use report_model::QueryKind;

/// The most bytes of memory that one line chooses.
const LARGEST_SIZE: u32 = 65_536;

/// What a line says that is neither empty nor a comment.
#[derive(Clone, Copy)]
pub enum Statement {
    RuleIs(Rule),
    Source(Choice),
    Sink(Choice),
    Points(Points),
}

/// The words after `source` or `sink`.
#[derive(Clone, Copy)]
pub enum RangeWords<'a> {
    All,
    Channel(&'a [u8]),
    Range {
        channel: &'a [u8],
        from: &'a [u8],
        past: &'a [u8],
    },
}

/// The rule of this name.
fn rule_named(name: &[u8]) -> Option<Rule>
    ensures { result ≡ rule_by_name name.now }
{
    if name == b"copy".as_slice() {
        Some(Rule::Copy)
    } else if name == b"keep".as_slice() {
        Some(Rule::Keep)
    } else if name == b"compute".as_slice() {
        Some(Rule::Compute)
    } else if name == b"index".as_slice() {
        Some(Rule::Index)
    } else {
        None
    }
}

/// The rule that the words after `rule` name.
fn rule_of(mut operands: Words<'_>) -> Result<Rule, QueryKind>
    ensures { result ≡ rule_by_words (words operands.entry.rest.now) }
{
    let Some(name) = operands.next() else {
        return Err(QueryKind::Count);
    };
    let Some(rule) = rule_named(name) else {
        return Err(QueryKind::Word);
    };
    match operands.next() {
        None => Ok(rule),
        Some(_) => Err(QueryKind::Count),
    }
}

/// The words after `source` or `sink`, where they are as many as there may be.
fn operands_of<'a>(mut operands: Words<'a>) -> Option<RangeWords<'a>>
    ensures { MatchOption result
        (choice_by_words (words operands.entry.rest.now) ≡ Err Count)
        (AreRangeWords (words operands.entry.rest.now)) }
{
    let first = operands.next()?;
    let is_all = first == b"all".as_slice();
    let Some(from) = operands.next() else {
        if is_all {
            return Some(RangeWords::All);
        }
        return Some(RangeWords::Channel(first));
    };
    let past = operands.next()?;
    match operands.next() {
        Some(_) => None,
        None if is_all => None,
        None => Some(RangeWords::Range {
            channel: first,
            from,
            past,
        }),
    }
}

/// A channel from 0 to 15.
fn channel_of(number: u32) -> Result<u8, QueryKind>
    ensures { MatchResult result
        (λ channel. (channel ≡ number) × (number < 16))
        (λ kind. (kind ≡ Channel) × (15 < number)) }
{
    match u8::try_from(number) {
        Ok(channel) if channel < 16 => Ok(channel),
        _ => Err(QueryKind::Channel),
    }
}

/// All bytes of a channel.
fn whole_channel(channel: &[u8]) -> Result<Span, QueryKind>
    ensures { map_ok span_choice result ≡ channel_by_word channel.now }
{
    let channel = number_of(channel).ok_or(QueryKind::Number)?;
    Ok(Span {
        channel: channel_of(channel)?,
        offsets: None,
    })
}

/// The bytes of a channel from one offset up to another.
fn range_of(channel: &[u8], from: &[u8], past: &[u8]) -> Result<Span, QueryKind>
    ensures { map_ok span_choice result ≡ range_by_words channel.now from.now past.now }
{
    let channel = number_of(channel).ok_or(QueryKind::Number)?;
    let from = number_of(from).ok_or(QueryKind::Number)?;
    let past = number_of(past).ok_or(QueryKind::Number)?;
    let channel = channel_of(channel)?;
    if from > past {
        return Err(QueryKind::Range);
    }
    Ok(Span {
        channel,
        offsets: Some(Offsets { from, past }),
    })
}

/// What the words after `source` or `sink` choose.
fn choice_of(operands: Words<'_>) -> Result<Choice, QueryKind>
    ensures { map_ok choice_shown result ≡ choice_by_words (words operands.entry.rest.now) }
{
    match operands_of(operands) {
        None => Err(QueryKind::Count),
        Some(RangeWords::All) => Ok(Choice::All),
        Some(RangeWords::Channel(channel)) => Ok(Choice::Span(whole_channel(channel)?)),
        Some(
            RangeWords::Range {
                channel,
                from,
                past,
            },
        ) => Ok(Choice::Span(range_of(channel, from, past)?)),
    }
}

/// The word after `at`, where no other word follows.
fn word_after_at(mut operands: Words<'_>) -> Result<&[u8], QueryKind>
    ensures { map_ok (λ word. word.now) result ≡ after_at (words operands.entry.rest.now) }
{
    let Some(at) = operands.next() else {
        return Err(QueryKind::Count);
    };
    if at != b"at".as_slice() {
        return Err(QueryKind::Word);
    }
    let Some(time) = operands.next() else {
        return Err(QueryKind::Count);
    };
    match operands.next() {
        None => Ok(time),
        Some(_) => Err(QueryKind::Count),
    }
}

/// So many bytes of memory from an address on, at a time.
fn memory_at(place: &[u8], size: &[u8], time: &[u8]) -> Result<Points, QueryKind>
    ensures { map_ok points_shown result ≡ memory_by_words place.now size.now (codes "at") time.now }
{
    let place = number_of(place).ok_or(QueryKind::Number)?;
    let size = number_of(size).ok_or(QueryKind::Number)?;
    let time = time_of(time).ok_or(QueryKind::Number)?;
    if !(1..=LARGEST_SIZE).contains(&size) {
        return Err(QueryKind::Range);
    }
    let last = place.checked_add(size - 1).ok_or(QueryKind::Range)?;
    Ok(Points::Memory {
        first: place,
        last,
        time,
    })
}

/// The bytes of memory that the words after `sink mem` choose.
fn memory_of(mut operands: Words<'_>) -> Result<Points, QueryKind>
    ensures { map_ok points_shown result ≡ memory_points (words operands.entry.rest.now) }
{
    let Some(place) = operands.next() else {
        return Err(QueryKind::Count);
    };
    let Some(size) = operands.next() else {
        return Err(QueryKind::Count);
    };
    memory_at(place, size, word_after_at(operands)?)
}

/// A register at a time.
fn register_at(number: &[u8], time: &[u8]) -> Result<Points, QueryKind>
    ensures { map_ok points_shown result ≡ register_by_words number.now (codes "at") time.now }
{
    let number = number_of(number).ok_or(QueryKind::Number)?;
    let time = time_of(time).ok_or(QueryKind::Number)?;
    match u8::try_from(number) {
        Ok(number) if (1..=31).contains(&number) => Ok(Points::Register { number, time }),
        _ => Err(QueryKind::Range),
    }
}

/// The lanes of a register that the words after `sink reg` choose.
fn register_of(mut operands: Words<'_>) -> Result<Points, QueryKind>
    ensures { map_ok points_shown result ≡ register_points (words operands.entry.rest.now) }
{
    let Some(number) = operands.next() else {
        return Err(QueryKind::Count);
    };
    register_at(number, word_after_at(operands)?)
}

/// What the words after `sink` say.
fn sink_of(operands: Words<'_>) -> Result<Statement, QueryKind>
    ensures { says statement_shown result ≡ sink_by_words (words operands.entry.rest.now) }
{
    let mut after = Words {
        rest: operands.rest,
    };
    let Some(first) = after.next() else {
        return Err(QueryKind::Count);
    };
    if first == b"mem".as_slice() {
        return Ok(Statement::Points(memory_of(after)?));
    }
    if first == b"reg".as_slice() {
        return Ok(Statement::Points(register_of(after)?));
    }
    Ok(Statement::Sink(choice_of(operands)?))
}

/// What a line says that begins with the keyword.
fn statement_by(keyword: &[u8], operands: Words<'_>) -> Result<Statement, QueryKind>
    ensures { says statement_shown result ≡ statement_by_words (keyword.now ∷ words operands.entry.rest.now) }
{
    if keyword == b"rule".as_slice() {
        return Ok(Statement::RuleIs(rule_of(operands)?));
    }
    if keyword == b"source".as_slice() {
        return Ok(Statement::Source(choice_of(operands)?));
    }
    if keyword == b"sink".as_slice() {
        return sink_of(operands);
    }
    Err(QueryKind::Word)
}

/// What a line says, or its first fault. A comment and an empty line say nothing.
pub fn statement_of(line: &[u8]) -> Result<Option<Statement>, QueryKind>
    ensures { map_ok (option_map statement_shown) result ≡ read_line line.now }
{
    if is_comment(line) {
        return Ok(None);
    }
    if has_bad_byte(line) {
        return Err(QueryKind::BadByte);
    }
    let mut words = Words { rest: line };
    match words.next() {
        None => Ok(None),
        Some(keyword) => Ok(Some(statement_by(keyword, words)?)),
    }
}
