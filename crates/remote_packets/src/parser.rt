//! What a packet asks, by its bytes.

ghost use Rattle.std.specs.Prelude.{◌≡◌};
ghost use Rattle.remote_packets.specs.Packets.{packet_of, alone as alone_by_name, followed as followed_by_name, with_operands as with_operands_by_name};

use crate::number::{number_of, pair_of};
use crate::operands::{is_hex, move_of, point_of, run_of};
use crate::packet::{Move, Packet};
use crate::text::begins_with;

/// A packet behind whose name nothing stands.
fn alone(packet: &[u8]) -> Option<Packet>
    ensures { result ≡ alone_by_name packet.now }
{
    if packet == b"?".as_slice() {
        Some(Packet::LastStop)
    } else if packet == b"g".as_slice() {
        Some(Packet::Registers)
    } else if packet == b"s".as_slice() {
        Some(Packet::Go(Move::Step))
    } else if packet == b"c".as_slice() {
        Some(Packet::Go(Move::Continue))
    } else if packet == b"bs".as_slice() {
        Some(Packet::Go(Move::ReverseStep))
    } else if packet == b"bc".as_slice() {
        Some(Packet::Go(Move::ReverseContinue))
    } else if packet == b"vCont?".as_slice() {
        Some(Packet::Moves)
    } else if packet == b"QStartNoAckMode".as_slice() {
        Some(Packet::StartNoAck)
    } else if packet == b"!".as_slice() {
        Some(Packet::Extended)
    } else if packet == b"k".as_slice() {
        Some(Packet::Kill)
    } else {
        None
    }
}

/// A packet behind whose name anything may stand.
fn followed(packet: &[u8]) -> Option<Packet>
    ensures { result ≡ followed_by_name packet.now }
{
    if begins_with(packet, b"G")
        || begins_with(packet, b"P")
        || begins_with(packet, b"M")
        || begins_with(packet, b"X")
    {
        Some(Packet::Change)
    } else if begins_with(packet, b"S") {
        Some(Packet::Go(Move::Step))
    } else if begins_with(packet, b"C") {
        Some(Packet::Go(Move::Continue))
    } else if begins_with(packet, b"H") {
        Some(Packet::Thread)
    } else if begins_with(packet, b"D") {
        Some(Packet::Detach)
    } else if begins_with(packet, b"vKill;") {
        Some(Packet::End)
    } else if begins_with(packet, b"qSupported") {
        Some(Packet::Supported)
    } else if begins_with(packet, b"qAttached") {
        Some(Packet::Attached)
    } else {
        None
    }
}

/// A packet behind whose name operands stand.
fn with_operands(packet: &[u8]) -> Option<Packet>
    ensures { result ≡ with_operands_by_name packet.now }
{
    if let Some(number) = packet.strip_prefix(b"p") {
        return Some(Packet::Register(number_of(number)?));
    }
    if let Some(bytes) = packet.strip_prefix(b"m") {
        let (place, length) = pair_of(bytes)?;
        return Some(Packet::Memory { place, length });
    }
    if let Some(point) = packet.strip_prefix(b"Z") {
        return Some(Packet::Set(point_of(point)?));
    }
    if let Some(point) = packet.strip_prefix(b"z") {
        return Some(Packet::Clear(point_of(point)?));
    }
    if let Some(actions) = packet.strip_prefix(b"vCont;") {
        return Some(Packet::Go(move_of(actions)?));
    }
    if let Some(words) = packet.strip_prefix(b"vRun;") {
        return run_of(words);
    }
    if let Some(digits) = packet.strip_prefix(b"qRcmd,") {
        return if is_hex(digits) {
            Some(Packet::Command)
        } else {
            None
        };
    }
    let part = packet.strip_prefix(b"qXfer:features:read:target.xml:")?;
    let (offset, length) = pair_of(part)?;
    Some(Packet::Description { offset, length })
}

/// What a packet asks, whatever its bytes are. It takes no memory (GDB Remote Serial Protocol, "Packets" and "General
/// Query Packets").
#[tactic(auto, unfolding(crate::specs::Packets::packet_of))]
pub fn parse(packet: &[u8]) -> Packet
    ensures { result ≡ packet_of packet.now }
{
    if let Some(found) = alone(packet) {
        return found;
    }
    if let Some(found) = followed(packet) {
        return found;
    }
    with_operands(packet).unwrap_or(Packet::Other)
}
