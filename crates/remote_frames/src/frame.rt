//! Frames as they are written.

ghost use Rattle.std.specs.Prelude.{◌≡◌, ◌++◌, OnOk};
ghost use Rattle.remote_frames.specs.Frames.{frame, checksum};

use no_memory::NoMemory;

/// The sum of a packet's bytes modulo 256.
#[tactic(auto, using(crate::proofs::Sums::checksum_more))]
fn checksum_of(packet: &[u8]) -> u8
    ensures { result ≡ checksum packet.now }
{
    let mut total = 0u8;
    for byte in packet {
        total = total.wrapping_add(*byte);
    }
    total
}

/// Appends the frame of a packet: `$`, its bytes as they are, `#`, and the two hexadecimal digits of its checksum in
/// lower case. It gives up with NoMemory alone (GDB Remote Serial Protocol, "Overview").
pub fn push_frame(out: &mut Vec<u8>, packet: &[u8]) -> Result<(), NoMemory>
    ensures { OnOk result (out.new.items ≡ out.old.items ++ frame packet.now) }
{
    let mut digits = [0; 2];
    let checksum = [checksum_of(packet)];
    let _ = hex::encode_to_slice(checksum.as_slice(), &mut digits);
    out.push(b'$')?;
    out.extend_from_slice(packet)?;
    out.push(b'#')?;
    out.extend_from_slice(&digits)?;
    Ok(())
}
