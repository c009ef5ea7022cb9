//! The job of a row, and calls of its opened modules, made again: with sinks that fail, and with less memory.
//!
//! A sink that takes fewer octets than there are must have got exactly the first ones, and the answer is `Device` with
//! their number. Each other sink must have got all, and the answer is that of the program. After a refusal for out of
//! memory a sink has nothing, or the answers to the first lines.

ghost use Rattle.std.specs.Prelude.{◌<◌};

use crate::programs::{Asked, asked_of, input_of, work_to};
use crate::requests::text_octets;
use check_jobs::value_of;
use command_line::Verb;
use input_lines::InputLines;
use jobs::asnc::{Explained, Fault, Kit, TypeId, Value, WriteFault, number};
use jobs::{Lines, command_output, line_command, stream};
use row_format::Row;
use sinks::{InMemory, Sink, Stops, send_all};
use std::alloc::{AllocError, Global};
use test_starving::{Starved, Turn, turn_of};

/// A sink that takes each number of octets below this one is tried, and one that takes all, or all but one.
const MOST: usize = 60;

/// The same of a row with long texts, which take long to open.
const MOST_OF_LONG: usize = 4;

/// The texts of a row are long from this number of octets.
const LONG: usize = 4096;

/// A call that sends octets to a sink.
#[derive(Clone, Copy, PartialEq, Eq)]
pub enum Way {
    /// The whole job: `work`, or `work_lines`.
    Job,
    /// The command of the job, in the opened modules.
    Command,
    /// `Kit::der_to` of the value that the job gives.
    Given,
    /// `Kit::encode_to` of that value.
    Made,
}

/// What a call sent, and how it ended.
pub struct Sent {
    octets: Vec<u8>,
    ended: Result<bool, Fault>,
}

/// Whether a call ended as another one did.
fn is_same(ended: &Result<bool, Fault>, other: &Result<bool, Fault>) -> bool {
    match (ended, other) {
        (Ok(yes), Ok(answer)) => yes == answer,
        (Err(fault), Err(refusal)) => number(fault) == number(refusal),
        _ => false,
    }
}

/// The line that `later` prints, by the two calls of the library, and whether it is `yes`.
fn later(alloc: Global, older: &Kit, newer: &Kit, ty: &str) -> Result<(Vec<u8>, bool), Fault> {
    let yes = Kit::later(alloc, older, newer, ty)?;
    let line = match Kit::compare(alloc, older, newer, ty)? {
        Explained::Later => String::from_str(alloc, "yes\n")?,
        Explained::Differs(_difference, text) => format!(in alloc; "no: {text}\n")?,
    };
    Ok((line.into_bytes(), yes))
}

/// The job of a row with its standard input, and its modules and its value, if they are accepted.
pub struct Task<'a> {
    asked: &'a Asked,
    input: &'a [u8],
    is_long: bool,
    kit: Option<Kit>,
    newer: Option<Kit>,
    value: Option<(TypeId, Value)>,
}

impl<'a> Task<'a> {
    /// The task of a row that asks for this.
    pub fn of(alloc: Global, row: &'a Row, asked: &'a Asked) -> Task<'a> {
        let kit = Kit::open(alloc, asked.texts()).ok();
        let ty = asked.job.ty.as_str();
        let value = match &kit {
            Some(kit) => kit.value_of(alloc, ty, value_of(&asked.job)).ok(),
            None => None,
        };
        Task {
            asked,
            input: input_of(row),
            is_long: text_octets(row) >= LONG,
            kit,
            newer: Kit::open(alloc, asked.newer()).ok(),
            value,
        }
    }

    /// Whether the task has what a call needs. The calls of the library are made for values of `der`.
    pub fn has(&self, way: Way) -> bool {
        let verb = self.asked.job.verb;
        match way {
            Way::Job => true,
            Way::Command => self.kit.is_some() && self.newer.is_some() && verb != Verb::Check,
            Way::Given | Way::Made => self.value.is_some() && verb == Verb::Der,
        }
    }

    /// Sends the answers to the lines of standard input, or what the command of the job prints; of `show` that is the
    /// headers alone.
    fn command<S: Sink>(&self, alloc: Global, kit: &Kit, sink: &mut S) -> Result<bool, Fault>
        requires { S.failed sink.old < u64.MAX }
    {
        let job = &self.asked.job;
        match line_command(job) {
            Some(command) if kit.type_named(job.ty.as_str()).is_some() => {
                let lines = Lines {
                    kit,
                    job,
                    texts: self.asked.texts(),
                    command,
                };
                stream(alloc, &lines, &mut InputLines::of(alloc, self.input), sink)
            }
            _ => {
                let (octets, yes) = self.output(alloc, kit)?;
                match send_all(sink, octets.as_slice()) {
                    Ok(()) => Ok(yes),
                    Err(sent) => Err(Fault::Device(sent)),
                }
            }
        }
    }

    /// What the command of the job prints, and whether it is neither a `no` nor a refusal.
    fn output(&self, alloc: Global, kit: &Kit) -> Result<(Vec<u8>, bool), Fault> {
        let (job, octets) = (&self.asked.job, self.asked.octets());
        match job.verb {
            Verb::Check => Ok((Vec::new(alloc), true)),
            Verb::Later => match &self.newer {
                Some(newer) => later(alloc, kit, newer, job.ty.as_str()),
                None => Ok((Vec::new(alloc), true)),
            },
            Verb::Show => {
                let shown = kit.show(alloc, job.ty.as_str(), octets)?;
                Ok((shown.lines.into_bytes(), shown.refusal.is_none()))
            }
            _ => Ok((command_output(alloc, kit, job, octets)?, true)),
        }
    }

    /// Makes a call.
    fn send<S: Sink>(&self, alloc: Global, way: Way, sink: &mut S) -> Result<bool, Fault>
        requires { S.failed sink.old < u64.MAX }
    {
        match (way, &self.kit, &self.value) {
            (Way::Command, Some(kit), _) => self.command(alloc, kit, sink),
            (Way::Given, Some(kit), _) => {
                let job = &self.asked.job;
                let _account = kit.der_to(alloc, job.ty.as_str(), value_of(job), sink)?;
                Ok(true)
            }
            (Way::Made, Some(kit), Some((id, value))) => {
                match kit.encode_to(alloc, *id, value, sink) {
                    Ok(_) => Ok(true),
                    Err(WriteFault::Device(count)) => Err(Fault::Device(count)),
                    Err(WriteFault::Memory) => Err(Fault::Memory),
                    Err(_) => Err(Fault::TooLong),
                }
            }
            _ => work_to(alloc, self.asked, self.input, sink),
        }
    }

    /// What a call should send, and how it should end: as the whole job does. The calls of the library send the octets
    /// whose hexadecimal digits that prints.
    pub fn wanted(&self, alloc: Global, way: Way) -> Result<Sent, AllocError> {
        let job = &self.asked.job;
        let source = if job.verb == Verb::Show {
            way
        } else {
            Way::Job
        };
        let mut sink = InMemory::of(Vec::new(alloc));
        let ended = self.send(alloc, source, &mut sink);
        let printed = sink.into_octets();
        let octets = match way {
            Way::Given | Way::Made if !job.raw => {
                let digits = printed.as_slice().strip_suffix(b"\n").unwrap_or(&[]);
                hex::decode(alloc, digits).unwrap_or(Vec::new(alloc))
            }
            _ => printed,
        };
        Ok(Sent { octets, ended })
    }

    /// Whether a sink gets what it should that takes `limit` octets, at most `most` in a call.
    fn is_right(&self, alloc: Global, sent: (Way, &Sent), limit: usize, most: usize) -> bool {
        let (way, wanted) = sent;
        let mut sink = Stops::at(Vec::new(alloc), limit, most, most == 1);
        let ended = self.send(alloc, way, &mut sink);
        let octets = wanted.octets.as_slice();
        let stops = limit < octets.len();
        let is_answer = match &ended {
            Err(Fault::Device(count)) => stops && *count == limit as u64,
            _ => !stops && is_same(&ended, &wanted.ended),
        };
        let front = &octets[..limit.min(octets.len())];
        is_answer && sink.octets() == front && sink.failures() == u64::from(stops)
    }

    /// How many sinks do not get what they should. Each takes one octet in a call, or up to five.
    fn wrong_sinks(&self, alloc: Global, way: Way, wanted: &Sent) -> usize {
        let length = wanted.octets.len();
        let tried = if self.is_long { MOST_OF_LONG } else { MOST };
        let mut wrong: usize = 0;
        for turn in 0..length.min(tried).saturating_add(2) {
            let limit = if turn < tried {
                turn
            } else {
                length.saturating_sub(turn - tried)
            };
            let most = if turn % 2 == 0 { 1 } else { 5 };
            if !self.is_right(alloc, (way, wanted), limit, most) {
                wrong = wrong.saturating_add(1);
            }
        }
        wrong
    }
}

/// How many calls sent octets, and how many sinks got other octets or another answer.
#[derive(Clone, Copy, Default)]
pub struct Stopped {
    pub outputs: usize,
    pub wrong: usize,
}

impl Stopped {
    /// Makes the calls of a row with sinks that fail. Returns how many sinks did not get what they should.
    pub fn stop(&mut self, alloc: Global, row: &Row) -> Result<usize, AllocError> {
        let before = self.wrong;
        let Ok(asked) = asked_of(alloc, row) else {
            return Ok(0);
        };
        let task = Task::of(alloc, row, &asked);
        for way in &[Way::Job, Way::Given, Way::Made] {
            if task.has(*way) {
                let wanted = task.wanted(alloc, *way)?;
                if !wanted.octets.is_empty() {
                    self.outputs = self.outputs.saturating_add(1);
                }
                let wrong = task.wrong_sinks(alloc, *way, &wanted);
                self.wrong = self.wrong.saturating_add(wrong);
            }
        }
        Ok(self.wrong.saturating_sub(before))
    }
}

/// A call with less memory.
pub struct Starving<'a> {
    pub task: &'a Task<'a>,
    pub way: Way,
    pub wanted: &'a Sent,
}

impl Starving<'_> {
    /// Whether these octets may have gone out before the memory ended.
    fn is_front(&self, octets: &[u8]) -> bool {
        let lines = !self.task.input.is_empty() && octets.ends_with(b"\n");
        octets.is_empty() || (lines && self.wanted.octets.as_slice().starts_with(octets))
    }
}

impl Starved for Starving<'_> {
    fn call(&mut self, alloc: Global) -> Turn {
        let wanted = self.wanted;
        let Ok(room) = Vec::with_capacity(alloc, wanted.octets.len()) else {
            return Turn::Refused;
        };
        let mut sink = InMemory::of(room);
        let ended = self.task.send(alloc, self.way, &mut sink);
        let octets = sink.into_octets();
        match &ended {
            Err(Fault::Memory) if self.is_front(octets.as_slice()) => Turn::Refused,
            _ => turn_of(is_same(&ended, &wanted.ended) && octets == wanted.octets),
        }
    }
}

impl Drop for Sent {
    fn drop(self) {
        let Sent {
            octets: _,
            ended: _,
        } = self;
    }
}

impl<'a> Drop for Task<'a> {
    fn drop(self) {
        let Task {
            asked: _,
            input: _,
            is_long: _,
            kit: _,
            newer: _,
            value: _,
        } = self;
    }
}

impl<'a> Drop for Starving<'a> {
    fn drop(self) {
        let Starving {
            task: _,
            way: _,
            wanted: _,
        } = self;
    }
}
