//! What a read or a write gets.

ghost use Rattle.std.specs.Prelude.{◌≡◌, ◌^◌, ◌<◌, length};
ghost use Rattle.log_model.specs.Logs.{IsBytes};
ghost use Rattle.record_model.specs.Calls.{result_of, bytes_of};

/// The result of a read or a write, and the bytes that it moves.
#[derive(Clone, Copy)]
pub(crate) struct Transfer<'a> {
    pub outcome: i32,
    pub bytes: &'a [u8],
}

impl<'a> Transfer<'a> {
    /// The transfer of these bytes, or of none where the call is refused with an error number below 0.
    pub(crate) fn unless_refused(refusal: i32, bytes: &'a [u8]) -> Transfer<'a>
        requires { length bytes.now < 2 ^ 31 }
        ensures outcome { result.outcome ≡ result_of refusal bytes.now }
        ensures bytes { result.bytes.now ≡ bytes_of refusal bytes.now }
        ensures are_bytes { IsBytes result.bytes.now }
    {
        if refusal < 0 {
            return Transfer {
                outcome: refusal,
                bytes: &[],
            };
        }
        Transfer {
            outcome: bytes.len() as i32,
            bytes,
        }
    }
}
