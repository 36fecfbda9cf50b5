//! Laws of the definitions: the functions do nothing, and each contract is a law.

ghost use Rattle.epoch_node.specs.Nodes.{BrokenStays, DoneStays};
ghost use Rattle.epoch_node.specs.Phases.{NodeEventIsByLinks, EventsAreOfNodes};

/// The events of a core are those of the nodes of the definitions, for what its links do.
pub fn events_are_of_nodes()
    ensures node { NodeEventIsByLinks }
    ensures core { EventsAreOfNodes }
{}

/// A node that is broken stays broken, whatever turns it has.
#[tactic(auto, using(crate::proofs::Led::broken_stays))]
pub fn broken_nodes_stay_broken()
    ensures { BrokenStays }
{}

/// A node that is done stays done, whatever turns it has.
#[tactic(auto, using(crate::proofs::Led::done_stays))]
pub fn done_nodes_stay_done()
    ensures { DoneStays }
{}
