//! Laws of the definitions: each is the contract of a function that does nothing.

ghost use Rattle.flow_model.specs.OriginLaws.{FlowAscends, ClearedAscends, OriginsAscend, NoneAtStart, OriginsFlowIn, StepKeepsOrigins, StepsKeepOrigins, ReceivedHasItsSource, OriginsWereRead};

/// The origins of each target of the flow table ascend without repeats.
pub fn flow_ascends()
    ensures instructions { FlowAscends }
    ensures calls { ClearedAscends }
{}

/// The origins of each location ascend without repeats, at each time of each trace and under each policy.
pub fn origins_ascend()
    ensures { OriginsAscend }
{}

/// What origins are: at the start there are none, and after a step a location has the source byte that is
/// fresh there and those that flow in, and no other.
pub fn origins_flow_in()
    ensures start { NoneAtStart }
    ensures step { OriginsFlowIn }
{}

/// A location that is no target of a step and gets no source byte keeps its origins, over one step and over
/// any stretch of them.
pub fn origins_are_kept()
    ensures one { StepKeepsOrigins }
    ensures stretch { StepsKeepOrigins }
{}

/// A byte that a read received has that one source byte as its origin if the policy introduces it, and no
/// origin otherwise: what stood there before is gone.
pub fn received_has_its_source()
    ensures { ReceivedHasItsSource }
{}

/// Each origin is a source byte that the policy introduces and that an earlier step read.
pub fn origins_were_read()
    ensures { OriginsWereRead }
{}
