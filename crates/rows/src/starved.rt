//! The calls of a row, made again with ever more memory.
//!
//! Each answer must be the row's own one, or the refusal for out of memory. A job that takes lines may have answered
//! the first of them before that refusal. The last call has enough memory, and must give the row's own answer.
//!
//! Then a call of the row's opened modules is made again in the same way, since opening needs the most memory.
//!
//! Rows of folders are answered again in the same way by the crates of their folders: all but those with the command
//! `speed`. Each line of such an answer must be the row's own one, or have the fault for out of memory.

use crate::folders::Folder;
use row_format::Row;
use row_format::refusal::Refusal;
use std::alloc::{AllocError, Global};
use std::io;
use test_codec_answers::Samples;
use test_program_answers::{Starving, Task, Way, asked_of, call, text_octets};
use test_starving::{Pool, Starved, Swept, Turn, sweep_in};

/// The answer of a program that ran out of memory.
const REFUSED: &str = "status 3: error 1 Memory: out of memory";

/// The words of such a fault in the answer to a row of a folder.
const NO_MEMORY: &str = "1 Memory";

/// How many blocks of 31 MiB calls have while memory is enough.
const BLOCKS: usize = 60;

/// How many numbers a level of the stack holds that `deepen` uses.
const NUMBERS: usize = 256;

/// How many levels of 2 KiB `deepen` uses, so that calls may use 4 MiB of the stack.
const LEVELS: usize = 2048;

/// Whether an answer is a refusal for out of memory, after none or some of the lines of the row's own answer. Some
/// lines come only before the refusal of a job that takes lines.
fn is_refusal(row: &Row, answer: &str, own: &str) -> bool {
    match answer.strip_suffix(REFUSED) {
        Some("") => true,
        Some(lines) if row.has("--lines") => match own.strip_prefix(lines) {
            Some(rest) => rest.is_empty() || rest.starts_with('\n'),
            None => false,
        },
        _ => false,
    }
}

/// Whether an answer of a folder's crate is a refusal for out of memory: each line that isn't the row's own one has
/// such a fault. If a row wants another answer than that fault, the lines after `answered:` count.
fn has_refusal(answer: &str, own: &str) -> bool {
    let said = match answer.split_once("  answered:\n") {
        Some((_, said)) => said,
        None => answer,
    };
    let mut own_lines = own.lines();
    let mut refused = false;
    for line in said.lines() {
        let is_own = own_lines.next().is_some_and(|other| other == line);
        if line.contains(NO_MEMORY) {
            refused = true;
        } else if !is_own {
            return false;
        }
    }
    refused
}

/// A row that is answered again.
#[derive(Clone, Copy)]
struct Asked<'a> {
    folder: Folder<'a>,
    row: &'a Row,
    is_first: bool,
}

impl Asked<'_> {
    /// The answer to the calls of the row. The sink of a job takes `room` octets without an allocation.
    fn call(&self, alloc: Global, room: usize) -> Result<String, Refusal> {
        if self.folder.is_own() {
            return call(alloc, self.row, room);
        }
        Ok(self.folder.entry(alloc, self.row)?)
    }

    /// By which part of its memory a turn has more than the turn before.
    fn part(&self) -> usize {
        if self.folder.is_own() {
            part(self.row, self.is_first)
        } else {
            folder_part(&self.folder, self.row, self.is_first)
        }
    }

    /// Whether an answer is a refusal for out of memory.
    fn is_refusal(&self, answer: &str, own: &str) -> bool {
        if self.folder.is_own() {
            is_refusal(self.row, answer, own)
        } else {
            has_refusal(answer, own)
        }
    }

    /// The answer to the calls of the row. Rows that sweep have another answer of their own.
    fn own(&self, alloc: Global, answer: &str) -> Result<String, AllocError> {
        if !self.folder.is_own() || !self.row.command().ends_with("sweep") {
            return String::from_str(alloc, answer);
        }
        match self.call(alloc, 0) {
            Ok(answer) => Ok(answer),
            Err(Refusal::Message(words)) => Ok(words),
            Err(Refusal::Memory) => Err(AllocError),
        }
    }
}

/// The calls of a row, the row's own answer, and the first answer that is neither that nor a refusal.
#[derive(Drop)]
struct Again<'a> {
    asked: Asked<'a>,
    own: &'a str,
    other: Option<String>,
}

impl Starved for Again<'_> {
    fn call(&mut self, alloc: Global) -> Turn {
        let answer = match self.asked.call(alloc, self.own.len().saturating_add(1)) {
            Ok(answer) => answer,
            Err(Refusal::Message(words)) => words,
            Err(Refusal::Memory) => return Turn::Refused,
        };
        if answer.as_str() == self.own {
            return Turn::Right;
        }
        if self.asked.is_refusal(answer.as_str(), self.own) {
            return Turn::Refused;
        }
        self.other = Some(answer);
        Turn::Wrong
    }
}

/// The texts of a row are long from this number of octets.
const LONG: usize = 4096;

/// The texts of a row are short below this number of octets.
const SHORT: usize = 100;

/// By which part of its memory a turn has more than the turn before. A row with long texts has fewer turns, and fewer
/// calls that are right. In a row with the word `fine` each turn has 16 octets more, and so in the first row of a file
/// if its texts are short.
fn part(row: &Row, is_first: bool) -> usize {
    let octets = text_octets(row);
    if row.has("fine") || (is_first && octets < SHORT) {
        usize::MAX
    } else if octets < LONG {
        4
    } else {
        1
    }
}

/// The same for a row of a folder. In the first row of a file each turn has 16 octets more, below 4 KiB. In others it
/// has a sixteenth more, and answers that take long have few turns.
fn folder_part(folder: &Folder<'_>, row: &Row, is_first: bool) -> usize {
    if folder.takes_long() || text_octets(row) >= LONG {
        1
    } else if is_first {
        256
    } else {
        16
    }
}

/// The same for a call of a row's opened modules, which needs less memory.
fn opened_part(row: &Row, is_first: bool) -> usize {
    if row.has("fine") || is_first {
        usize::MAX
    } else if text_octets(row) < LONG {
        16
    } else {
        1
    }
}

/// A number that depends on all octets of the texts of a row.
fn digest(row: &Row) -> u64 {
    let mut digest: u64 = 0;
    for text in &row.texts {
        digest = digest_of(digest, text.octets.as_slice());
    }
    digest
}

/// A number that depends on another one and on octets.
fn digest_of(before: u64, octets: &[u8]) -> u64 {
    let mut digest = before;
    for octet in octets {
        digest = digest.wrapping_mul(1_099_511_628_211) ^ u64::from(*octet);
    }
    digest
}

/// What is found of a row: calls that were refused and then right, none that were refused, or this answer.
#[derive(Drop)]
enum Found {
    Right,
    NeverRefused,
    Other(String),
}

/// What is found by a sweep. `other` is the first other answer.
fn outcome_of(swept: Swept, other: String) -> Found {
    match swept {
        Swept::Endless => Found::NeverRefused,
        Swept::Through { refused: 0, .. } => Found::NeverRefused,
        Swept::Through { .. } => Found::Right,
        Swept::Wrong(_) => Found::Other(other),
    }
}

/// Makes the calls of a row with this answer again with ever more memory.
fn sweep(
    alloc: Global,
    pool: &mut Pool,
    asked: Asked<'_>,
    answer: &str,
) -> Result<Found, AllocError> {
    let own = asked.own(alloc, answer)?;
    let before = digest(asked.row);
    let mut again = Again {
        asked,
        own: own.as_str(),
        other: None,
    };
    let swept = sweep_in(alloc, pool, asked.part(), &mut again);
    let other = match again.other {
        Some(other) => other,
        None => String::from_str(alloc, "no answer with enough memory")?,
    };
    if digest(asked.row) != before {
        return Ok(Found::Other(String::from_str(alloc, "a change of the row")?));
    }
    Ok(outcome_of(swept, other))
}

/// Uses this many levels of the stack. The result depends on what each of them holds, and is never 0.
fn deepen(levels: usize, place: usize) -> u64 {
    let mut numbers = [0u64; NUMBERS];
    numbers[place % NUMBERS] = u64::MAX;
    let below = if levels == 0 {
        1
    } else {
        deepen(levels - 1, place.wrapping_add(1))
    };
    below | numbers[levels % NUMBERS]
}

/// Takes all memory but what calls have while it is enough. There is none if memory has no end. Before that the stack
/// is made as deep as calls may need it: it can't grow once all memory is taken.
pub fn all_memory(alloc: Global, files: usize) -> Result<Option<Pool>, AllocError> {
    if deepen(LEVELS, files) == 0 {
        return Ok(None);
    }
    Pool::new(alloc, BLOCKS)
}

/// How many calls were refused and then right, how many were never refused, and how many were answered otherwise.
#[derive(Clone, Copy, Default)]
struct Tally {
    right: usize,
    never: usize,
    wrong: usize,
}

impl Tally {
    /// Counts what is found of a row. Prints an answer that is neither the row's own one nor a refusal.
    fn count(&mut self, rt: &HostRuntime, row: &Row, found: Found) -> io::Result<()> {
        match found {
            Found::Right => self.right = self.right.saturating_add(1),
            Found::NeverRefused => self.never = self.never.saturating_add(1),
            Found::Other(other) => {
                self.wrong = self.wrong.saturating_add(1);
                let title = row.title(rt.alloc())?;
                println!(rt; "{title}: {other}")?;
            }
        }
        Ok(())
    }

    /// Makes a call of a row's opened modules again with ever more memory, and counts what is found. Of the calls that
    /// there are for a value each third row has the same.
    fn count_call(
        &mut self,
        rt: &HostRuntime,
        pool: &mut Pool,
        row: &Row,
        place: usize,
    ) -> io::Result<()> {
        let alloc = rt.alloc();
        let Ok(asked) = asked_of(alloc, row) else {
            return Ok(());
        };
        let task = Task::of(alloc, row, &asked);
        let way = match place % 3 {
            1 if task.has(Way::Given) => Way::Given,
            2 if task.has(Way::Made) => Way::Made,
            _ => Way::Command,
        };
        if !task.has(way) {
            return Ok(());
        }
        let wanted = task.wanted(alloc, way)?;
        let mut call = Starving {
            task: &task,
            way,
            wanted: &wanted,
        };
        let swept = sweep_in(alloc, pool, opened_part(row, place == 0), &mut call);
        let other = String::from_str(alloc, "another answer of opened modules")?;
        self.count(rt, row, outcome_of(swept, other))
    }

    /// Prints what was found of a file.
    fn print(&self, rt: &HostRuntime, file: &str, what: &str) -> io::Result<()> {
        let Tally {
            right,
            never,
            wrong,
        } = *self;
        println!(rt;
            "{file}: {right} {what} refused with less memory, {never} never, {wrong} answered otherwise"
        )
    }
}

/// The rows of a file, and the answers to them.
#[derive(Drop)]
pub struct Answered {
    pub file: String,
    pub rows: Vec<Row>,
    pub answers: Vec<String>,
}

impl Answered {
    /// Answers each row again with ever more memory, and makes the calls of its opened modules. Prints the answers that
    /// are neither the row's own one nor a refusal, and how many rows and calls were refused and then right.
    pub fn answer_again(
        &self,
        rt: &HostRuntime,
        samples: &Samples,
        pool: &mut Pool,
    ) -> io::Result<()> {
        let file = self.file.as_str();
        let folder = Folder::of(file, samples);
        let (mut whole, mut opened) = (Tally::default(), Tally::default());
        let mut place: usize = 0;
        for (row, answer) in self.rows.iter().zip(self.answers.iter()) {
            if row.command() == "speed" {
                continue;
            }
            let asked = Asked {
                folder,
                row,
                is_first: place == 0,
            };
            let found = sweep(rt.alloc(), pool, asked, answer.as_str())?;
            whole.count(rt, row, found)?;
            if folder.is_own() {
                opened.count_call(rt, pool, row, place)?;
            }
            place = place.saturating_add(1);
        }
        whole.print(rt, file, "rows")?;
        if folder.is_own() {
            opened.print(rt, file, "calls of opened modules")?;
        }
        Ok(())
    }
}
