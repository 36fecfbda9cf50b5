//! Constant texts.

ghost use Rattle.std.specs.Prelude.{◌≡◌};
ghost use Rattle.debug_model.specs.Description.{description};

use crate::target;

/// The description of the machine's registers, which a debugger reads: 1308 bytes (GDB manual, appendix G "Target
/// Descriptions").
#[tactic(auto, unfolding(crate::specs::Description::description))]
pub fn description() -> &'static [u8]
    ensures { result.now ≡ description }
{
    target::TEXT
}
