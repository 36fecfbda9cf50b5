//! Where the bytes of reads come from.

ghost use Rattle.std.specs.Prelude.{◌≡◌, ◌≤◌, length, slice_index};
ghost use Rattle.record_model.specs.Recorded.{input_of, part_of};
ghost use Rattle.call_record.specs.Sources.{contents};

/// The inputs of a run, by channel, and how many bytes a read gets at most.
#[derive(Clone, Copy)]
pub(crate) struct Source<'a> {
    pub inputs: &'a [Vec<u8>],
    pub piece: u32,
}

impl<'a> Source<'a> {
    /// The number of channels.
    pub(crate) fn channels(&self) -> u32
        requires { length self.now.inputs.now ≤ 16 }
        ensures { result ≡ length self.now.inputs.now }
    {
        self.inputs.len() as u32
    }

    /// What a read gets that has these arguments, where its channel was read up to an offset. It is nothing where
    /// there is no such channel.
    pub(crate) fn part(&self, args: &[u32; 3], offset: usize) -> &'a [u8]
        requires { offset ≤ length (input_of (contents self.now.inputs.now) (slice_index args.now 0)) }
        ensures part { result.now ≡ part_of (contents self.now.inputs.now) self.now.piece offset args.now }
        ensures short { length result.now ≤ self.now.piece }
    {
        let [channel, _, length] = *args;
        let Some(input) = self.inputs.get(channel as usize) else {
            return &[];
        };
        let rest = &input.as_slice()[offset..];
        let count = (length.min(self.piece) as usize).min(rest.len());
        &rest[..count]
    }
}
