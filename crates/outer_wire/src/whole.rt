//! Whole texts, over calls that send a piece.

ghost use Rattle.std.specs.Prelude.{OnOk, OnErr};
ghost use Rattle.outer_io.specs.Faults.{HasCause};
ghost use Rattle.outer_io.specs.Tells.{Tells};
ghost use Rattle.outer_wire.specs.Sending.{Sends, SendsPrefix};

use crate::wire::Wire;
use outer_io::WriteFault;

/// Sends all the bytes.
///
/// It fails where the wire failed; its count of faults then rose, or stands at 2^64 - 1, and what went is a prefix of
/// the bytes. Else no call failed.
pub fn send_whole<W: Wire>(wire: &mut W, bytes: &[u8]) -> Result<(), WriteFault>
    ensures cause { HasCause (W.shown wire.old).faults (W.shown wire.new).faults result }
    ensures ok { OnOk result (Tells (W.shown wire.old).history (W.shown wire.new).history (Sends bytes.now)) }
    ensures err { OnErr result (Tells (W.shown wire.old).history (W.shown wire.new).history (SendsPrefix bytes.now)) }
{
    let mut rest = bytes;
    while !rest.is_empty() {
        let Ok(count) = wire.send(rest) else {
            return Err(WriteFault);
        };
        rest = &rest[count..];
    }
    Ok(())
}
