//! How a run is cut.

ghost use Rattle.std.specs.Prelude.{◌≡◌, ◌<◌, ◌≤◌, IfOk, IfErr};
ghost use Rattle.epoch_model.specs.ByLength.{epoch_count, cut_times, long_first_times, lengths_of_last, shrinking_times, shared_length};

use crate::cutting::{Cuts, Shape};
use crate::fault::CutFault;

/// The most epochs that a run is cut into.
pub const MOST_EPOCHS: u64 = 4096;

/// The most epochs that get shorter and shorter.
pub const MOST_SHRINKING: u32 = 8;

/// How many epochs a run of so many steps has, by a length of 1 at least.
pub(crate) fn epoch_count(steps: u64, length: u64) -> u64
    requires { 1 ≤ length }
    ensures { result ≡ epoch_count steps length }
{
    steps.div_ceil(length).max(1)
}

/// The cuts of a run of so many steps into epochs of `length` steps, 1 at least. It takes no memory.
///
/// The fault is TooMany exactly where there would be more than [`MOST_EPOCHS`] epochs.
pub fn cuts(steps: u64, length: u64) -> Result<Cuts, CutFault>
    requires { 1 ≤ length }
    ensures cut { IfOk result (λ cuts. cuts ≡ cut_times steps length) }
    ensures few { IfOk result (λ _. epoch_count steps length ≤ MOST_EPOCHS) }
    ensures many { IfErr result (λ fault.
        (fault ≡ CutFault.TooMany (epoch_count steps length)) × (MOST_EPOCHS < epoch_count steps length)) }
{
    long_first_cuts(steps, length, 1)
}

/// The cuts of a run of so many steps into epochs of `length` steps, 1 at least, of which the first has `lengths` such lengths, 1 at
/// least, or all that there are. It takes no memory.
///
/// The fault is TooMany exactly where there would be more than [`MOST_EPOCHS`] epochs of one length each.
pub fn long_first_cuts(steps: u64, length: u64, lengths: u32) -> Result<Cuts, CutFault>
    requires length { 1 ≤ length }
    requires lengths { 1 ≤ lengths }
    ensures cut { IfOk result (λ cuts. cuts ≡ long_first_times lengths steps length) }
    ensures few { IfOk result (λ _. epoch_count steps length ≤ MOST_EPOCHS) }
    ensures many { IfErr result (λ fault.
        (fault ≡ CutFault.TooMany (epoch_count steps length)) × (MOST_EPOCHS < epoch_count steps length)) }
{
    let count = epoch_count(steps, length);
    if count > MOST_EPOCHS {
        return Err(CutFault::TooMany(count));
    }
    Ok(Cuts {
        steps,
        length,
        shape: Shape::LongFirst {
            lengths: lengths.min(count as u32),
        },
    })
}

/// How many lengths the last so many epochs have together, where the last one has 1, the one before it 3, and the ones before these
/// 6, 10, 15 and so on.
pub(crate) fn lengths_of_last(epochs: u32) -> u64
    requires { epochs ≤ MOST_SHRINKING }
    ensures { result ≡ lengths_of_last epochs }
{
    let epochs = u64::from(epochs);
    epochs * (epochs + 1) * (epochs + 2) / 6
}

/// The cuts of a run of so many steps into so many epochs that get shorter, 1 to [`MOST_SHRINKING`]: the last one has 1 length, the
/// one before it 3, and the ones before these 6, 10, 15 and so on. It takes no memory.
pub fn shrinking_cuts(steps: u64, epochs: u32) -> Cuts
    requires some { 1 ≤ epochs }
    requires most { epochs ≤ MOST_SHRINKING }
    ensures { result ≡ shrinking_times epochs steps (shared_length epochs steps) }
{
    Cuts {
        steps,
        length: steps.div_ceil(lengths_of_last(epochs)).max(1),
        shape: Shape::Shrinking { epochs },
    }
}
