//! Cores by themselves, whose links are filled by hand: what they send, and what they come to.

ghost use Rattle.std.specs.Prelude.{◌≡◌, option_map, is_none};
ghost use Rattle.checkpoints.specs.Points.{beginnings};
ghost use Rattle.pass_parts.specs.Ends.{fresh_end};
ghost use Rattle.epoch_node.specs.Cores.{core_of, CanStart};
ghost use Rattle.epoch_node.specs.Keeping.{KeepsCore, fresh_traffic};

use crate::guests::{COPY_FOUR, Runtime, job_of};
use crate::runs::{COPY, cuts_of, query_of};
use checkpoints::Checkpoints;
use epoch_cut::{Cuts, EpochTicket};
use epoch_link::{Capacity, ListLink, Popped, Pushed};
use epoch_node::{Core, OpenGate, Phase};
use flow_model::{Loc, Message, SourceByte};
use query_lang::Query;
use replayer::Job;
use std::marker::Model;
use std::process::Abort;

/// How many messages a link holds.
const CAPACITY: u32 = 16;

/// A link that holds these messages, where there is a neighbour that sends them.
fn inlet(rt: &impl Runtime, messages: Option<&[Message]>) -> Option<ListLink<Message>>
    ensures { option_map (λ l. l.got) result ≡ fresh_end (is_none messages.entry) }
{
    let messages = messages?;
    let mut link = ListLink::new(rt.alloc(), Capacity::of(CAPACITY)).expect(rt, "memory");
    for &message in messages {
        let Pushed::Done = link.push(message) else {
            rt.abort()
        };
    }
    Some(link)
}

/// A link that holds nothing, unless there is no neighbour to send to.
fn outlet(rt: &impl Runtime, alone: bool) -> Option<ListLink<Message>>
    ensures { option_map (λ l. l.sent) result ≡ fresh_end alone }
{
    if alone {
        return None;
    }
    Some(ListLink::new(rt.alloc(), Capacity::of(CAPACITY)).expect(rt, "memory"))
}

/// The links of a core. Contracts see what it got and sent.
#[derive(Drop)]
struct Links {
    ask_in: Option<ListLink<Message>>,
    ask_out: Option<ListLink<Message>>,
    answer_in: Option<ListLink<Message>>,
    answer_out: Option<ListLink<Message>>,
}

impl Model for Links {
    ghost use Rattle.std.specs.Prelude.{option_map};
    ghost use Rattle.epoch_node.specs.Keeping.{Traffic};

    ghost Value = { Traffic };

    ghost view = { λ l. record {
      asks_got = option_map (λ i. i.got) l.ask_in;
      asks_sent = option_map (λ o. o.sent) l.ask_out;
      answers_got = option_map (λ i. i.got) l.answer_in;
      answers_sent = option_map (λ o. o.sent) l.answer_out;
    } };
}

/// A core of the copy of four bytes, what its neighbours send it, and what it sends and comes to.
struct Case {
    /// The number of its epoch, and how many steps an epoch has.
    number: u32,
    length: u64,
    /// What the next core asks, and what the previous one answers, where there is one.
    next_asks: Option<&'static [Message]>,
    previous_answers: Option<&'static [Message]>,
    /// What it asks the previous core, and what it answers the next one.
    asks: Option<&'static [Message]>,
    answers: Option<&'static [Message]>,
    /// The locations that it asked for.
    asked: &'static [Loc],
    /// Whether it has rows, of which there are none here, or is broken.
    whole: bool,
}

impl Case {
    /// Whether there is no previous core.
    fn is_first(&self) -> bool
        ensures { result ≡ is_none self.now.previous_answers }
    {
        self.previous_answers.is_none()
    }

    /// Whether there is no next core.
    fn is_last(&self) -> bool
        ensures { result ≡ is_none self.now.next_asks }
    {
        self.next_asks.is_none()
    }

    /// The links of its core, with all that its neighbours send.
    fn links(&self, rt: &impl Runtime) -> Links
        ensures { result ≡ fresh_traffic (is_none self.now.previous_answers) (is_none self.now.next_asks) }
    {
        Links {
            ask_in: inlet(rt, self.next_asks),
            ask_out: outlet(rt, self.is_first()),
            answer_in: inlet(rt, self.previous_answers),
            answer_out: outlet(rt, self.is_last()),
        }
    }
}

/// The ticket of the epoch of a number, which begins at its checkpoint.
fn ticket_of(
    rt: &impl Runtime,
    job: &Job,
    points: &Checkpoints<'_>,
    cuts: Cuts,
    number: u32,
) -> EpochTicket
    requires { points.now ≡ record { job = job.now; times = beginnings cuts } }
    ensures { CanStart points.now result }
{
    let alloc = rt.alloc();
    assert!(rt; number < cuts.count());
    let cursor = points.start(alloc, number).expect(rt, "memory");
    let mut tickets = cuts.tickets(alloc).expect(rt, "memory");
    assert!(rt; (number as usize) < tickets.len());
    let ticket = tickets.remove(number as usize);
    assert!(rt; ticket.number() == number);
    assert!(rt; ticket.first() == cursor.time());
    assert!(rt; ticket.past_last() <= job.steps());
    ticket
}

/// One event of a core, on the links of its phase. A core that is done has none.
fn turn(core: &mut Core<'_, OpenGate>, links: &mut Links)
    requires { KeepsCore (core_of core.old) links.old }
    ensures { KeepsCore (core_of core.new) links.new }
{
    match core.phase() {
        Phase::Fresh => core.event(&mut links.ask_in, &mut links.ask_out),
        Phase::Asking => core.event(&mut links.ask_in, &mut links.ask_out),
        Phase::Answering => core.event(&mut links.answer_in, &mut links.answer_out),
        Phase::Done => return,
    };
}

/// More events than any of the cores has.
const EVENTS: u32 = 64;

/// The core's events, if they are not more than [`EVENTS`].
fn turn_all(core: &mut Core<'_, OpenGate>, links: &mut Links)
    requires { KeepsCore (core_of core.old) links.old }
{
    for _ in 0..EVENTS {
        turn(core, links);
    }
}

/// Whether a message is another one.
fn is_same(message: Message, other: Message) -> bool {
    match (message, other) {
        (Message::Ask(loc), Message::Ask(other)) => loc == other,
        (Message::Byte(source), Message::Byte(other)) => source == other,
        (Message::Close(loc), Message::Close(other)) => loc == other,
        (Message::End { whole }, Message::End { whole: other }) => whole == other,
        _ => false,
    }
}

/// A link holds just these messages, in order.
fn assert_holds(rt: &impl Abort, link: &mut ListLink<Message>, messages: &[Message]) {
    for &message in messages {
        let Popped::Item(held) = link.pop() else {
            rt.abort()
        };
        assert!(rt; is_same(held, message));
    }
    let Popped::Empty = link.pop() else {
        rt.abort()
    };
}

/// Where there is a link, just these messages were sent, in order.
fn assert_sent(rt: &impl Abort, link: Option<ListLink<Message>>, messages: Option<&[Message]>) {
    match (link, messages) {
        (None, None) => {}
        (Some(mut link), Some(messages)) => assert_holds(rt, &mut link, messages),
        _ => rt.abort(),
    }
}

/// The core is done, with what it asked and whether it is whole.
fn assert_done(rt: &impl Abort, core: Core<'_, OpenGate>, case: &Case) {
    assert!(rt; core.phase() == Phase::Done);
    let (sets, asked, _events) = core.into_result().expect(rt, "memory");
    assert!(rt; asked.locations() == case.asked);
    match sets {
        Ok(sets) => assert!(rt; case.whole && sets.into_vec().expect(rt, "memory").is_empty()),
        Err(_) => assert!(rt; !case.whole),
    }
}

/// A new core sends and comes to what the case says.
fn assert_case(rt: &impl Runtime, job: &Job, query: &Query, case: &Case) {
    let alloc = rt.alloc();
    let cuts = cuts_of(rt, job, case.length);
    let points = Checkpoints::take(alloc, job, &cuts).expect(rt, "memory");
    let ticket = ticket_of(rt, job, &points, cuts, case.number);
    let (first, last) = (case.is_first(), case.is_last());
    let mut core = Core::new(alloc, ticket, &points, query, &OpenGate, first, last).expect(
        rt, "memory",
    );
    let mut links = case.links(rt);
    turn_all(&mut core, &mut links);
    assert_done(rt, core, case);
    assert_sent(rt, links.ask_out, case.asks);
    assert_sent(rt, links.answer_out, case.answers);
}

/// Where the four bytes lie.
const PLACES: &[Loc] = &[FIRST, SECOND, THIRD, FOURTH];

const FIRST: Loc = Loc::Mem { place: 65792 };

const SECOND: Loc = Loc::Mem { place: 65793 };

const THIRD: Loc = Loc::Mem { place: 65794 };

const FOURTH: Loc = Loc::Mem { place: 65795 };

/// The source byte of an offset, which one of them is.
macro_rules! byte {
    ($offset:expr) => { Message::Byte(SourceByte { channel: 0, offset: $offset }) };
}

/// All that was to be sent was sent.
const END: Message = Message::End { whole: true };

/// The sender is broken.
const BROKEN: Message = Message::End { whole: false };

/// What an epoch that writes the four bytes asks for, where an earlier one read them.
const ASKS: &[Message] = &[
    Message::Ask(FIRST),
    Message::Ask(SECOND),
    Message::Ask(THIRD),
    Message::Ask(FOURTH),
    END,
];

/// Cores of the first and the last of two epochs, and of the middle one of three.
const CASES: &[Case] = &[
    // Each place has its byte.
    Case {
        number: 0,
        length: 6,
        next_asks: Some(ASKS),
        previous_answers: None,
        asks: None,
        answers: Some(&[
            byte!(0),
            Message::Close(FIRST),
            byte!(1),
            Message::Close(SECOND),
            byte!(2),
            Message::Close(THIRD),
            byte!(3),
            Message::Close(FOURTH),
            END,
        ]),
        asked: &[],
        whole: true,
    },
    // Who asks is broken: nothing is answered.
    Case {
        number: 0,
        length: 6,
        next_asks: Some(&[Message::Ask(FIRST), Message::Ask(SECOND), BROKEN]),
        previous_answers: None,
        asks: None,
        answers: Some(&[BROKEN]),
        asked: &[],
        whole: false,
    },
    // What isn't a request is passed over.
    Case {
        number: 0,
        length: 6,
        next_asks: Some(&[Message::Close(FIRST), END]),
        previous_answers: None,
        asks: None,
        answers: Some(&[END]),
        asked: &[],
        whole: true,
    },
    // Who answers is broken: there are no rows.
    Case {
        number: 1,
        length: 6,
        next_asks: None,
        previous_answers: Some(&[byte!(0), Message::Close(FIRST), BROKEN]),
        asks: Some(ASKS),
        answers: None,
        asked: PLACES,
        whole: false,
    },
    // Who asks is broken: both neighbours are told.
    Case {
        number: 1,
        length: 4,
        next_asks: Some(&[BROKEN]),
        previous_answers: Some(&[END]),
        asks: Some(&[BROKEN]),
        answers: Some(&[BROKEN]),
        asked: &[],
        whole: false,
    },
];

#[test]
fn cores_send_what_is_due(rt: HostRuntime) {
    let job = job_of(&rt, &COPY_FOUR);
    let query = query_of(&rt, COPY);
    for case in CASES {
        assert_case(&rt, &job, &query, case);
    }
}
