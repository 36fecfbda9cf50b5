//! What stands behind a packet's name.

ghost use Rattle.std.specs.Prelude.{◌≡◌, option_map};
ghost use Rattle.std.specs.List.{list_all, before_first};
ghost use Rattle.hex.specs.Hex.{is_hex_digit};
ghost use Rattle.remote_packets.specs.Numbers.{pair, is_hex_text};
ghost use Rattle.remote_packets.specs.Packets.{is_semicolon, break_at, watch_at, point, move_named, first_move};
ghost use Rattle.remote_packets.specs.Packets.{run_of as run_by_words};

use crate::number::{pair_of, time_of};
use crate::packet::{Move, Packet, Point, WatchKind};
use crate::text::{begins_with, cut_at};

/// A breakpoint at an address. The length behind it isn't looked at, and nor is what follows a `;`.
fn break_of(operands: &[u8]) -> Option<Point>
    ensures { result ≡ option_map break_at (pair (before_first is_semicolon operands.now)) }
{
    let (numbers, _) = cut_at(operands, b';');
    let (place, _) = pair_of(numbers)?;
    Some(Point::Break { place })
}

/// A watchpoint of so many bytes from an address on.
fn watch_of(kind: WatchKind, operands: &[u8]) -> Option<Point>
    ensures { result ≡ option_map (watch_at kind) (pair operands.now) }
{
    let (place, length) = pair_of(operands)?;
    Some(Point::Watch {
        kind,
        place,
        length,
    })
}

/// The point behind `Z` or `z`: a kind, an address and a length, with commas between them.
pub(crate) fn point_of(text: &[u8]) -> Option<Point>
    ensures { result ≡ point text.now }
{
    let (kind, operands) = cut_at(text, b',');
    if kind == b"0".as_slice() || kind == b"1".as_slice() {
        break_of(operands)
    } else if kind == b"2".as_slice() {
        watch_of(WatchKind::Write, operands)
    } else if kind == b"3".as_slice() {
        watch_of(WatchKind::Read, operands)
    } else if kind == b"4".as_slice() {
        watch_of(WatchKind::Access, operands)
    } else {
        None
    }
}

/// The move of this name.
fn move_by(name: &[u8]) -> Option<Move>
    ensures { result ≡ move_named name.now }
{
    if name == b"s".as_slice() || begins_with(name, b"S") {
        return Some(Move::Step);
    }
    if name == b"c".as_slice() || begins_with(name, b"C") {
        return Some(Move::Continue);
    }
    let range = name.strip_prefix(b"r")?;
    let (start, end) = pair_of(range)?;
    Some(Move::RangeStep { start, end })
}

/// The first move behind `vCont;`: a thread may stand behind a `:`, and more behind a `;`.
pub(crate) fn move_of(actions: &[u8]) -> Option<Move>
    ensures { result ≡ first_move actions.now }
{
    let (action, _) = cut_at(actions, b';');
    let (name, _) = cut_at(action, b':');
    move_by(name)
}

/// What is asked behind `vRun;`: a program's name, which isn't looked at, and a time behind a `;`, or none.
pub(crate) fn run_of(words: &[u8]) -> Option<Packet>
    ensures { result ≡ run_by_words words.now }
{
    if !words.contains(&b';') {
        return Some(Packet::Run(Some(0)));
    }
    let (_, time) = cut_at(words, b';');
    if time.contains(&b';') {
        return None;
    }
    Some(Packet::Run(time_of(time)))
}

/// Whether this is a hexadecimal digit, in either case.
fn is_digit(byte: u8) -> bool
    ensures { result ≡ is_hex_digit byte }
{
    byte.is_ascii_hexdigit()
}

/// Whether each byte is a hexadecimal digit, in either case.
fn are_digits(bytes: &[u8]) -> bool
    ensures { result ≡ list_all is_hex_digit bytes.now }
{
    bytes.iter().all(|byte| is_digit(*byte))
}

/// Whether these are two hexadecimal digits for each byte of a text.
pub(crate) fn is_hex(digits: &[u8]) -> bool
    ensures { result ≡ is_hex_text digits.now }
{
    digits.len() % 2 == 0 && are_digits(digits)
}
