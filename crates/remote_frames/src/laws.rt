//! Laws of the definitions: each is the contract of a function that does nothing.

ghost use Rattle.remote_frames.specs.FrameLaws.{IsHeard, AreHeard, BeginningIsHeard};

/// A packet in its frame is heard, whatever bytes came before it, and then what follows.
pub fn frame_is_heard()
    ensures { IsHeard }
{}

/// The frames of packets, one after another, are heard as these packets.
pub fn frames_are_heard()
    ensures { AreHeard }
{}

/// What a beginning of bytes says is the beginning of what they say.
pub fn beginning_is_heard()
    ensures { BeginningIsHeard }
{}
