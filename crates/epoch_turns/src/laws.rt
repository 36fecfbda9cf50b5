//! Laws of the definitions: the functions do nothing, and each contract is a law.

ghost use Rattle.epoch_turns.specs.Groups.{BrokenNodesStay};

/// A node of a group that is broken stays broken, whatever turns the group has.
pub fn broken_nodes_stay_broken()
    ensures { BrokenNodesStay }
{}
