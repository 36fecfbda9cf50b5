//! Laws of the definitions: each is the contract of a function that does nothing.

ghost use Rattle.stream_model.specs.StreamLaws.{AsksGrow, AnswersGrow, AsksEndLast, AnswersEndLast, NothingIsLeft, HeardAscends, ResolvableByCount, PlacesStay, DoneNodesMeet};
ghost use Rattle.stream_model.specs.Work.{DoneNodesWork};
ghost use Rattle.stream_model.specs.PassLaws.{AskingSends, AnsweringSends, PassesEndDone};
ghost use Rattle.stream_model.specs.ScheduleLaws.{NeverOverfull, NeverStill, StillAsking, StillAnswering, EveryScheduleMeets, SameWork};

/// Whoever gets more sends what it sent, and maybe more.
pub fn sent_grows_with_got()
    ensures asks { AsksGrow }
    ensures answers { AnswersGrow }
{}

/// An End is the last message on its link, so who got it got all that was sent.
pub fn end_is_last()
    ensures asks { AsksEndLast }
    ensures answers { AnswersEndLast }
    ensures left { NothingIsLeft }
{}

/// A set that was got ascends, whatever the neighbour sent.
pub fn sets_got_ascend()
    ensures { HeardAscends }
{}

/// Terms are resolvable once as many answers came as their start locations need, and that number stays when
/// more is asked.
pub fn resolvable_by_count()
    ensures count { ResolvableByCount }
    ensures places { PlacesStay }
{}

/// Nodes that are done carry on each link exactly what is needed and its origins, and have the rows of the
/// whole trace.
pub fn done_nodes_meet()
    ensures { DoneNodesMeet }
{}

/// Whatever the links do in each event, at each moment a pass that is not broken has sent a part of what it
/// is to send for what it got, and all of it at its end.
pub fn passes_send()
    ensures asking { AskingSends }
    ensures answering { AnsweringSends }
    ensures done { PassesEndDone }
{}

/// In every state that a schedule reaches, each link holds what was sent there and not got yet: at most as many messages as
/// its capacity.
pub fn never_overfull()
    ensures { NeverOverfull }
{}

/// In every state that a schedule reaches, all nodes are done or some node's event moves; an event that
/// does not move changes nothing.
pub fn never_still()
    ensures moves { NeverStill }
    ensures asking { StillAsking }
    ensures answering { StillAnswering }
{}

/// Whatever the cutting, the capacity and the schedule: nodes that are done, and none of them broken, have
/// the rows of the whole trace.
pub fn every_schedule_meets()
    ensures { EveryScheduleMeets }
{}

/// How many events move, whatever the capacity: in nodes that are done, and in every schedule that ends with
/// all nodes done and none of them broken.
pub fn same_work()
    ensures nodes { DoneNodesWork }
    ensures schedules { SameWork }
{}
