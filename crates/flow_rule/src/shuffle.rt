//! Which lanes of a register an operation with an immediate keeps whole, and where they come to.

ghost use Rattle.std.specs.Prelude.{◌≡◌};
ghost use Rattle.flow_model.specs.Flow.{unchanged_lanes, left_lanes, right_lanes};
ghost use Rattle.flow_rule.specs.Shuffles.{AreLanes, Chooses};

/// For each lane of a register the lane of another from which it comes, below 4, or none.
#[derive(Clone, Copy)]
pub struct Shuffle {
    pub first: Option<u8>,
    pub second: Option<u8>,
    pub third: Option<u8>,
    pub fourth: Option<u8>,
}

impl Shuffle {
    #[inline(always)]
    fn new(first: Option<u8>, second: Option<u8>, third: Option<u8>, fourth: Option<u8>) -> Shuffle
        ensures { result ≡ record { first = first; second = second; third = third; fourth = fourth } }
    {
        Shuffle {
            first,
            second,
            third,
            fourth,
        }
    }
}

/// The lanes where an immediate, sign-extended, has this byte, each at its own place.
#[inline(always)]
pub(crate) fn unchanged(imm: i32, byte: u8) -> Shuffle
    ensures lanes { AreLanes result }
    ensures chosen { Chooses result (unchanged_lanes byte imm) }
{
    let [first, second, third, fourth] = imm.cast_unsigned().to_le_bytes();
    Shuffle::new(
        (first == byte).then_some(0),
        (second == byte).then_some(1),
        (third == byte).then_some(2),
        (fourth == byte).then_some(3),
    )
}

/// The lanes that a shift to the left by so many bits moves whole.
#[inline(always)]
pub(crate) fn moved_left(bits: u8) -> Shuffle
    ensures lanes { AreLanes result }
    ensures chosen { Chooses result (left_lanes bits) }
{
    match bits {
        0 => Shuffle::new(Some(0), Some(1), Some(2), Some(3)),
        8 => Shuffle::new(None, Some(0), Some(1), Some(2)),
        16 => Shuffle::new(None, None, Some(0), Some(1)),
        24 => Shuffle::new(None, None, None, Some(0)),
        _ => Shuffle::new(None, None, None, None),
    }
}

/// The lanes that a shift to the right by so many bits moves whole. The lanes above, which the sign may fill, come from
/// none.
#[inline(always)]
pub(crate) fn moved_right(bits: u8) -> Shuffle
    ensures lanes { AreLanes result }
    ensures chosen { Chooses result (right_lanes bits) }
{
    match bits {
        0 => Shuffle::new(Some(0), Some(1), Some(2), Some(3)),
        8 => Shuffle::new(Some(1), Some(2), Some(3), None),
        16 => Shuffle::new(Some(2), Some(3), None, None),
        24 => Shuffle::new(Some(3), None, None, None),
        _ => Shuffle::new(None, None, None, None),
    }
}
