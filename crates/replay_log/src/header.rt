//! The header of a log.

ghost use Rattle.std.specs.Prelude.{◌≡◌, IfOk, IfErr};
ghost use Rattle.log_model.specs.Logs.{magic};
ghost use Rattle.log_model.specs.Faults.{version_of};
ghost use Rattle.log_model.specs.Reading.{log_of};
ghost use Rattle.replay_log.specs.Answers.{IsFaultOf};
ghost use Rattle.replay_log.specs.Header.{IsHeader};

use crate::words::word_at;
use log_model::{FaultInLog, LogKind, Version};

/// The first bytes of a log of version 1.
const MAGIC_1: [u8; 8] = *b"JETLOG1\n";

/// The first bytes of a log of version 2.
const MAGIC_2: [u8; 8] = *b"JETLOG2\n";

/// The number of bytes of the header.
pub const HEADER_LENGTH: usize = 48;

/// The fields of the header.
#[derive(Drop)]
pub struct Header {
    pub version: Version,
    pub digest: [u8; 32],
    pub pages: u32,
    pub inputs: u32,
}

/// The first bytes of each log of a version.
pub fn magic(version: Version) -> [u8; 8]
    ensures { result ≡ magic version }
{
    match version {
        Version::One => MAGIC_1,
        Version::Two => MAGIC_2,
    }
}

/// The version that the first bytes say.
fn version_of(bytes: &[u8]) -> Option<Version>
    ensures { result ≡ version_of bytes.now }
{
    if bytes.starts_with(&MAGIC_1) {
        Some(Version::One)
    } else if bytes.starts_with(&MAGIC_2) {
        Some(Version::Two)
    } else {
        None
    }
}

/// Reads the header: eight bytes of magic, the digest, the pages and the inputs.
pub fn header_of(bytes: &[u8]) -> Result<Header, FaultInLog>
    ensures ok { IfOk result (IsHeader bytes.now) }
    ensures fault { IfErr result (IsFaultOf (log_of bytes.now)) }
{
    let Some(version) = version_of(bytes) else {
        return Err(FaultInLog {
            kind: LogKind::Magic,
            offset: 0,
        });
    };
    if bytes.len() < HEADER_LENGTH {
        return Err(FaultInLog {
            kind: LogKind::Header,
            offset: 8,
        });
    }
    let pages = word_at(bytes, 40);
    if pages == 0 || pages > 4096 {
        return Err(FaultInLog {
            kind: LogKind::Header,
            offset: 40,
        });
    }
    let inputs = word_at(bytes, 44);
    if inputs > 16 {
        return Err(FaultInLog {
            kind: LogKind::Header,
            offset: 44,
        });
    }
    let mut digest = [0; 32];
    digest.copy_from_slice(&bytes[8..40]);
    Ok(Header {
        version,
        digest,
        pages,
        inputs,
    })
}
