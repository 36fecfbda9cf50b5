//! A session: where a debugged run stands, and what each packet changes and is answered.

ghost use Rattle.std.specs.Prelude.{◌≡◌, ◌≢◌, ◌≤◌, ℕ, List, Some, [], ◌∷◌, ◌++◌, IfOk, OnOk};
ghost use Rattle.std.specs.List.{flat_map, list_any};
ghost use Rattle.log_model.specs.Logs.{steps as steps_of};
ghost use Rattle.remote_frames.specs.Frames.{frame, Packet as PacketHeard};
ghost use Rattle.remote_frames.specs.Reading.{told as told_by};
ghost use Rattle.remote_packets.specs.declared.packet.Packet.TheVariants.{Command as CommandAsked, Kill as KillAsked};
ghost use Rattle.debug_model.specs.Arrivals.{arrival};
ghost use Rattle.debug_model.specs.Answers.{answer_to, arrived, put as put_to, run_anew, changed_by, is_last as is_last_packet, ends};
ghost use Rattle.debug_model.specs.Dialogues.{acknowledging, told, next, told_all, next_all, is_end, begun_at};
ghost use Rattle.debug_session.specs.Sessions.{answer_after};

use crate::command::command_named;
use crate::command_text::{command_text, time_asked};
use crate::memory::memory_text;
use crate::moves::make_move;
use crate::packets::{push_console, push_packet};
use crate::part::part_text;
use crate::points::{clear_point, set_point};
use crate::registers::{register_text, registers_text};
use crate::stop::stop_text;
use no_memory::NoMemory;
use remote_frames::Framed;
use remote_packets::{Move, Packet, command, parse};
use replayer::{Cursor, Job};
use run_travel::{Cause, Points, Travel};
use std::alloc::Global;
use std::marker::Model;

/// What is offered: packets of 16384 bytes, frames that aren't acknowledged, moves back, the description of the
/// registers, and moves by `vCont`.
const SUPPORTED: &[u8] =
    b"PacketSize=4000;QStartNoAckMode+;ReverseStep+;ReverseContinue+;qXfer:features:read+;vContSupported+";

/// A session of a debugger over the run of a job.
///
/// Contracts see it as its job and where it stands.
#[derive(Drop)]
pub struct Session<'a> {
    alloc: Global,
    job: &'a Job,
    travel: Travel<'a>,
    points: Points,
    // Why the run stopped last.
    stop: Cause,
    acknowledged: bool,
    // The frames of the last answer.
    last: Vec<u8>,
}

impl<'a> Model for Session<'a> {
    ghost use Rattle.std.specs.Prelude.{◌≡◌};
    ghost use Rattle.debug_model.specs.StopTexts.{stop_text};
    ghost use Rattle.debug_session.specs.Sessions.{SessionOf};

    ghost Value = { SessionOf };

    ghost view = { λ s. record {
      job = s.job.now;
      at = record {
        time = s.travel.time;
        points = s.points;
        stop = stop_text s.stop;
        acknowledged = s.acknowledged;
        last = s.last.items;
      };
    } };

    ghost invariant = { λ s. s.travel.job ≡ s.job.now };
}

/// Whether a packet ends the session.
fn is_last(asked: Packet) -> bool
    ensures { result ≡ is_last_packet asked }
{
    match asked {
        Packet::Detach => true,
        Packet::Kill => true,
        _ => false,
    }
}

impl<'a> Session<'a> {
    /// A session over the run of a job that begins at a time; past the run's steps it is their number. It gives up with
    /// NoMemory alone.
    pub fn new(
        alloc: Global,
        job: &'a Job,
        mut travel: Travel<'a>,
        time: u64,
    ) -> Result<Session<'a>, NoMemory>
        requires { travel.job ≡ job.now }
        ensures { IfOk result (λ session. session ≡ record { job = job.now; at = begun_at job.now time }) }
    {
        travel.go_to(time.min(job.steps()))?;
        Ok(Session {
            alloc,
            job,
            travel,
            points: Points::new(alloc),
            stop: Cause::Arrived,
            acknowledged: true,
            last: Vec::new(alloc),
        })
    }

    /// Where the run stands.
    fn here(&self) -> &Cursor<'a>
        ensures { result.now ≡ record { job = self.now.job; time = self.now.at.time } }
    {
        self.travel.here()
    }

    /// Makes a move.
    fn go(&mut self, asked: Move) -> Result<(), NoMemory>
        ensures { OnOk result (self.new ≡ record {
          job = self.old.job;
          at = arrived self.old.at (arrival self.old.job self.old.at.points self.old.at.time asked);
        }) }
    {
        self.stop = make_move(&mut self.travel, &self.points, asked)?;
        Ok(())
    }

    /// Goes to a time of the run.
    fn put(&mut self, time: u64) -> Result<(), NoMemory>
        requires { time ≤ steps_of self.old.job.log }
        ensures { OnOk result (self.new ≡ record { job = self.old.job; at = put_to self.old.at (Some time) }) }
    {
        self.travel.go_to(time)?;
        self.stop = Cause::Arrived;
        Ok(())
    }

    /// Begins the run anew at a time; past its steps their number is meant. Without one nothing changes.
    fn run(&mut self, time: Option<u64>) -> Result<(), NoMemory>
        ensures { OnOk result (self.new ≡ record {
          job = self.old.job;
          at = run_anew self.old.job self.old.at time;
        }) }
    {
        let steps = self.job.steps();
        match time {
            Some(time) => self.put(time.min(steps)),
            None => Ok(()),
        }
    }

    /// Makes the changes that a packet asks for, but for a command in words.
    fn change(&mut self, asked: Packet) -> Result<(), NoMemory>
        requires { asked ≢ CommandAsked }
        ensures { OnOk result ((bytes : List ℕ) → self.new ≡ record {
          job = self.old.job;
          at = changed_by self.old.job self.old.at bytes asked;
        }) }
    {
        match asked {
            Packet::Set(point) => set_point(&mut self.points, point),
            Packet::Clear(point) => {
                clear_point(&mut self.points, point);
                Ok(())
            }
            Packet::Go(there) => self.go(there),
            Packet::Run(time) => self.run(time),
            Packet::StartNoAck => {
                self.acknowledged = false;
                Ok(())
            }
            _ => Ok(()),
        }
    }

    /// These bytes, as a packet.
    fn text(&self, bytes: &[u8]) -> Result<Vec<u8>, NoMemory>
        ensures { IfOk result (λ text. text.items ≡ bytes.now) }
    {
        Ok(Vec::from_slice(self.alloc, bytes)?)
    }

    /// The one packet that answers a packet, whose changes are made.
    fn reply(&self, asked: Packet) -> Result<Vec<u8>, NoMemory>
        requires no_command { asked ≢ CommandAsked }
        requires no_kill { asked ≢ KillAsked }
        ensures { IfOk result (λ text. (bytes : List ℕ)
            → answer_after self.now.job self.now.at bytes asked ≡ text.items ∷ []) }
    {
        match asked {
            Packet::LastStop => stop_text(self.alloc, self.stop),
            Packet::Registers => registers_text(self.alloc, self.here()),
            Packet::Register(number) => register_text(self.alloc, self.here(), number),
            Packet::Memory { place, length } => memory_text(self.alloc, self.here(), place, length),
            Packet::Change => self.text(b"E01"),
            Packet::Set(_) => self.text(b"OK"),
            Packet::Clear(_) => self.text(b"OK"),
            Packet::Go(_) => stop_text(self.alloc, self.stop),
            Packet::Moves => self.text(b"vCont;c;C;s;S;r"),
            Packet::Supported => self.text(SUPPORTED),
            Packet::Description { offset, length } => part_text(self.alloc, offset, length),
            Packet::StartNoAck => self.text(b"OK"),
            Packet::Extended => self.text(b"OK"),
            Packet::Thread => self.text(b"OK"),
            Packet::Attached => self.text(b"1"),
            Packet::Run(None) => self.text(b"E01"),
            Packet::Run(Some(_)) => self.text(b"T05"),
            Packet::End => self.text(b"OK"),
            Packet::Command => unreachable!(),
            Packet::Detach => self.text(b"OK"),
            Packet::Kill => unreachable!(),
            Packet::Other => self.text(b""),
        }
    }

    /// Obeys the command in words of a packet, and appends the frames of its text and of `OK`.
    fn obey(&mut self, packet: &[u8], frames: &mut Vec<u8>) -> Result<(), NoMemory>
        ensures answered { OnOk result (frames.new.items ≡ frames.old.items
            ++ flat_map frame (answer_to self.old.job self.old.at packet.now CommandAsked)) }
        ensures changed { OnOk result (self.new ≡ record {
          job = self.old.job;
          at = changed_by self.old.job self.old.at packet.now CommandAsked;
        }) }
    {
        let words = command(self.alloc, packet)?;
        let asked = command_named(&words);
        let text = command_text(self.alloc, self.job, self.here().time(), asked)?;
        push_console(self.alloc, frames, &text)?;
        push_packet(frames, b"OK")?;
        match time_asked(self.job, asked) {
            Some(time) => self.put(time),
            None => Ok(()),
        }
    }

    /// Makes the changes that a packet asks for, and appends the frames of its answer.
    fn respond(
        &mut self,
        asked: Packet,
        packet: &[u8],
        frames: &mut Vec<u8>,
    ) -> Result<(), NoMemory>
        ensures answered { OnOk result (frames.new.items ≡ frames.old.items
            ++ flat_map frame (answer_to self.old.job self.old.at packet.now asked)) }
        ensures changed { OnOk result (self.new ≡ record {
          job = self.old.job;
          at = changed_by self.old.job self.old.at packet.now asked;
        }) }
    {
        match asked {
            Packet::Command => self.obey(packet, frames),
            Packet::Kill => Ok(()),
            _ => {
                self.change(asked)?;
                push_packet(frames, &self.reply(asked)?)
            }
        }
    }

    /// Appends what acknowledges a frame, where frames are acknowledged.
    fn push_if_acknowledged(&self, out: &mut Vec<u8>, bytes: &[u8]) -> Result<(), NoMemory>
        ensures { OnOk result (out.new.items ≡ out.old.items ++ acknowledging self.now.at bytes.now) }
    {
        if self.acknowledged {
            out.extend_from_slice(bytes)?;
        }
        Ok(())
    }

    /// Answers a packet: it appends the answer's bytes, and answers whether the session is over.
    fn answer(&mut self, packet: &[u8], out: &mut Vec<u8>) -> Result<bool, NoMemory>
        ensures told { OnOk result (out.new.items ≡ out.old.items
            ++ told self.old.job self.old.at (PacketHeard packet.now)) }
        ensures next { OnOk result (self.new ≡ record {
          job = self.old.job;
          at = next self.old.job self.old.at (PacketHeard packet.now);
        }) }
        ensures ends { IfOk result (λ over. over ≡ ends packet.now) }
    {
        let asked = parse(packet);
        let mut frames = Vec::new(self.alloc);
        self.push_if_acknowledged(out, b"+")?;
        self.respond(asked, packet, &mut frames)?;
        out.extend_from_slice(&frames)?;
        self.last = frames;
        Ok(is_last(asked))
    }

    /// Answers what a framer told: a packet of these bytes, a bad frame, that the last answer is wanted again, or
    /// nothing.
    /// It appends the bytes that are to be written, and answers whether the session is over. It gives up with NoMemory
    /// alone; then neither where the session stands is known nor what was appended.
    pub fn hear(
        &mut self,
        framed: Framed,
        packet: &[u8],
        out: &mut Vec<u8>,
    ) -> Result<bool, NoMemory>
        ensures told { OnOk result (out.new.items ≡ out.old.items
            ++ told_all self.old.job self.old.at (told_by framed packet.now)) }
        ensures next { OnOk result (self.new ≡ record {
          job = self.old.job;
          at = next_all self.old.job self.old.at (told_by framed packet.now);
        }) }
        ensures ends { IfOk result (λ over. over ≡ list_any is_end (told_by framed packet.now)) }
    {
        match framed {
            Framed::Nothing => Ok(false),
            Framed::Packet => self.answer(packet, out),
            Framed::Bad => {
                self.push_if_acknowledged(out, b"-")?;
                Ok(false)
            }
            Framed::Again => {
                self.push_if_acknowledged(out, &self.last)?;
                Ok(false)
            }
        }
    }
}
