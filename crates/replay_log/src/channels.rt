//! The channels of a log of version 2: all that was read on each, which reads take from the front.

ghost use Rattle.std.specs.Prelude.{◌≡◌, ◌+◌, ◌≤◌, ◌∷◌, [], ◌++◌, true, length, get_or, set, drop, Ok, OnOk, IfOk, IfErr, IfSome, IfNone};
ghost use Rattle.lists.specs.Fields.{word_at};
ghost use Rattle.log_model.specs.Faults.{are_left, is_channel_cut};
ghost use Rattle.no_memory.specs.Faults.{IsCausedBy};
ghost use Rattle.replay_log.specs.Answers.{IsFaultOf};
ghost use Rattle.replay_log.specs.Header.{channels, count_of, IsFrontChannel};

use crate::fault::LogFault;
use crate::header::HEADER_LENGTH;
use crate::words::word_at;
use log_model::{FaultInLog, LogKind, Version};
use no_memory::Fault;
use std::alloc::{AllocFailed, Global};
use std::marker::Model;

/// What is left of each channel, seen as the list of their bytes.
#[derive(Drop)]
pub struct Channels<'a> {
    left: Vec<&'a [u8]>,
}

impl<'a> Model for Channels<'a> {
    ghost use Rattle.std.specs.Prelude.{List, ℕ, map};

    ghost Value = { List (List ℕ) };

    ghost view = { λ c. map (λ s. s.now) c.left.items };
}

impl<'a> Channels<'a> {
    /// No channel.
    fn new(alloc: Global) -> Channels<'a>
        ensures { result ≡ [] }
    {
        Channels {
            left: Vec::new(alloc),
        }
    }

    /// One channel more.
    fn add(&mut self, channel: &'a [u8]) -> Result<(), AllocFailed<&'a [u8]>>
        ensures { OnOk result (self.new ≡ self.old ++ channel.now ∷ []) }
    {
        self.left.push(channel)
    }

    /// What is left of a channel; nothing where there is no such channel.
    pub fn left_on(&self, channel: u32) -> &'a [u8]
        ensures { result.now ≡ get_or self.now channel [] }
    {
        match self.left.get(channel as usize) {
            Some(left) => *left,
            None => &[],
        }
    }

    /// Whether some channel has bytes left.
    pub fn are_left(&self) -> bool
        ensures { result ≡ are_left self.now }
    {
        for left in &self.left {
            if !left.is_empty() {
                return true;
            }
        }
        false
    }

    /// Takes so many bytes off the front of a channel, if there is such a channel.
    pub fn skip(&mut self, channel: u32, count: usize)
        ensures { self.new ≡ set self.old channel (drop count (get_or self.old channel [])) }
    {
        let channel = channel as usize;
        if channel < self.left.len() {
            let left = self.left[channel];
            self.left[channel] = &left[count.min(left.len())..];
        }
    }
}

/// The channel at the front, and the bytes after it; none where it isn't whole.
fn front_of(rest: &[u8]) -> Option<(&[u8], &[u8])>
    ensures some { IfSome result (λ x. IsFrontChannel rest.now x.0.now x.1.now) }
    ensures none { IfNone result (is_channel_cut rest.now ≡ true) }
{
    if rest.len() < 4 {
        return None;
    }
    let length = word_at(rest, 0) as usize;
    let unmeasured = &rest[4..];
    if unmeasured.len() < length {
        return None;
    }
    Some(unmeasured.split_at(length))
}

/// How many channels follow the header.
fn channel_count(version: Version, inputs: u32) -> u32
    ensures { result ≡ count_of version inputs }
{
    match version {
        Version::One => 0,
        Version::Two => inputs,
    }
}

/// The channels that follow the header, which has so many inputs, and the bytes after them.
pub fn channels_of(
    alloc: Global,
    version: Version,
    inputs: u32,
    bytes: &[u8],
) -> Result<(Channels, &[u8]), LogFault>
    requires whole { 48 ≤ length bytes.now }
    requires inputs { inputs ≡ word_at bytes.now 44 }
    ensures ok { IfOk result (λ x. channels version bytes.now ≡ Ok (x.0, x.1.now)) }
    ensures after { IfOk result (λ x. length x.1.now + 48 ≤ length bytes.now) }
    ensures fault { IfErr result (IsCausedBy (IsFaultOf (channels version bytes.now))) }
{
    let mut left = Channels::new(alloc);
    let mut rest = &bytes[HEADER_LENGTH..];
    let count = channel_count(version, inputs);
    for i in 0..count {
        let _ = i;
        let Some((channel, after)) = front_of(rest) else {
            return Err(Fault::At(FaultInLog {
                kind: LogKind::Header,
                offset: (bytes.len() - rest.len()) as u64,
            }));
        };
        left.add(channel)?;
        rest = after;
    }
    Ok((left, rest))
}
