//! The answers of the programs asnc and octcheck to their words and to texts.

ghost use Rattle.std.specs.Prelude.{◌<◌};

use crate::requests::{is_file, is_notation, texts_of};
use check_jobs::refusal;
use command_line::{Given, Job, ValueWords, Verb, job};
use diagnostics::report;
use input_lines::InputLines;
use jobs::asnc::{Fault, status};
use jobs::{Inputs, LineJob, line_command, work, work_lines};
use row_format::refusal::{Refusal, refuse};
use row_format::words::{asked, word};
use row_format::{Row, RowText};
use sinks::{InMemory, Sink};
use std::alloc::{AllocError, Global};
use test_reports::fault_lines;

/// The octets of files, by their names, from the texts of a row. In the name of a text `\n` means a line end.
fn octets_in(alloc: Global, row: &Row, files: &[String]) -> Result<Vec<Vec<u8>>, Fault> {
    let mut all = Vec::new(alloc);
    for file in files {
        let name = file.as_str().replace(alloc, "\n", "\\n")?;
        match row.texts.iter().find(|t| t.name.as_str() == name.as_str()) {
            Some(text) => all.push(text.octets.clone()?)?,
            None => return Err(Fault::File(file.clone()?)),
        }
    }
    Ok(all)
}

/// The octets of a file, from a text of the row.
fn octets_of(row: &Row, file: &String) -> Result<Vec<u8>, Fault> {
    match row.texts.iter().find(|t| t.name.as_str() == file.as_str()) {
        Some(text) => Ok(text.octets.clone()?),
        None => Err(Fault::File(file.clone()?)),
    }
}

/// The octets of the file of octets that a job names, if it names one.
fn given_in(row: &Row, given: &Given) -> Result<Option<Vec<u8>>, Fault> {
    match given {
        Given::Nothing | Given::Octets(_) | Given::Lines => Ok(None),
        Given::Path(file) => Ok(Some(octets_of(row, file)?)),
    }
}

/// The octets of the file of a job's account, if it names one.
fn account_in(row: &Row, job: &Job) -> Result<Option<Vec<u8>>, Fault> {
    match job.verb {
        Verb::Check => Ok(Some(octets_of(row, &job.account)?)),
        _ => Ok(None),
    }
}

/// What a program prints, without the last line end. Octets that are no text are in hexadecimal.
fn printed(alloc: Global, octets: &[u8]) -> Result<String, AllocError> {
    match str::from_utf8(octets) {
        Ok(text) => String::from_str(alloc, text.strip_suffix('\n').unwrap_or(text)),
        Err(_) => hex::encode_upper(alloc, octets),
    }
}

/// The line of a fault that a job met.
fn reported(alloc: Global, asked: &Asked, fault: &Fault) -> Result<String, AllocError> {
    let line = report(alloc, &asked.job, asked.texts(), asked.newer(), fault)?;
    let status = status(fault);
    format!(in alloc; "status {status}: {line}")
}

/// Does a job: sends what the program prints to a sink. These octets are standard input, if the job takes lines.
/// Returns false after a `no` or a refusal that is printed.
pub(crate) fn work_to<S: Sink>(
    alloc: Global,
    asked: &Asked,
    input: &[u8],
    sink: &mut S,
) -> Result<bool, Fault>
    requires { S.failed sink.old < u64.MAX }
{
    match line_command(&asked.job) {
        Some(command) => {
            let lines = LineJob {
                job: &asked.job,
                inputs: &asked.inputs,
                command,
            };
            work_lines(alloc, lines, &mut InputLines::of(alloc, input), sink)
        }
        None => work(alloc, &asked.job, &asked.inputs, sink),
    }
}

/// The octets of the text of a row that is named `stdin`; none without such a text.
pub(crate) fn input_of(row: &Row) -> &[u8] {
    match row.texts.iter().find(|t| t.name.as_str() == "stdin") {
        Some(text) => text.octets.as_slice(),
        None => &[],
    }
}

/// The answer for a fault that needs no texts.
fn refused(alloc: Global, fault: &Fault) -> Refusal {
    let status = status(fault);
    match format!(in alloc; "status {status}: {fault}") {
        Ok(line) => Refusal::Message(line),
        Err(_) => Refusal::Memory,
    }
}

/// The word at a place, or the other one if the list is shorter.
fn word_or<'a>(words: &[&'a str], place: usize, other: &'a str) -> &'a str {
    match word(words, place) {
        "" => other,
        given => given,
    }
}

/// The names of the texts that are files.
fn names_of(alloc: Global, texts: &[RowText]) -> Result<Vec<String>, AllocError> {
    let mut names = Vec::new(alloc);
    for text in texts {
        if is_file(text) {
            names.push(text.name.clone()?)?;
        }
    }
    Ok(names)
}

/// The job of `der` for a value in the texts of a row under the type that its first word names, `M.T` without one.
fn asked_of_value(alloc: Global, row: &Row, value: ValueWords) -> Result<Asked, Refusal> {
    let words = asked(alloc, row)?;
    let job = Job {
        verb: Verb::Der,
        ty: String::from_str(alloc, word_or(words.as_slice(), 0, "M.T"))?,
        value,
        account: String::new(alloc),
        octets: Given::Nothing,
        raw: false,
        strict: false,
        context: row.has("caret"),
        files: names_of(alloc, row.texts.as_slice())?,
        newer: Vec::new(alloc),
    };
    let inputs = Inputs {
        files: texts_of(alloc, row)?,
        newer: Vec::new(alloc),
        octets: None,
        account: None,
    };
    Ok(Asked { job, inputs })
}

/// `line NAME [TYPE [VALUE]]`: the job for a value in the texts of the row. Without other names that is `M.v` under
/// `M.T`.
fn line(alloc: Global, row: &Row) -> Result<Asked, Refusal> {
    let words = asked(alloc, row)?;
    let name = String::from_str(alloc, word_or(words.as_slice(), 1, "M.v"))?;
    asked_of_value(alloc, row, ValueWords::Named(name))
}

/// `notation NAME [TYPE]`: the job for the value that the row's text `notation` is the notation of, under `M.T` if
/// there is no other name. The line end of that text is left out.
fn notation(alloc: Global, row: &Row) -> Result<Asked, Refusal> {
    let octets = match row.texts.iter().find(|text| is_notation(text)) {
        Some(text) => text.octets.as_slice(),
        None => &[],
    };
    let text = match str::from_utf8(octets) {
        Ok(text) => text.strip_suffix('\n').unwrap_or(text),
        Err(_) => return Err(refuse(alloc, &"a notation that is not text")),
    };
    asked_of_value(
        alloc,
        row,
        ValueWords::Written(String::from_str(alloc, text)?),
    )
}

/// The words of a program's command line, which are those after the name of the row. `\n` means a line end.
fn command_line(alloc: Global, row: &Row, program: &str) -> Result<Vec<String>, AllocError> {
    let mut words = Vec::new(alloc);
    words.push(String::from_str(alloc, program)?)?;
    for word in &asked(alloc, row)? {
        words.push(word.replace(alloc, "\\n", "\n")?)?;
    }
    Ok(words)
}

/// The job of a row's command line for a program.
fn job_in(alloc: Global, row: &Row, program: &str) -> Result<Job, Refusal> {
    let words = command_line(alloc, row, program)?;
    match job(alloc, words.as_slice()) {
        Ok(job) => Ok(job),
        Err(fault) => Err(refused(alloc, &refusal(fault))),
    }
}

/// A row's job, and the contents of the files that it names, from the texts of the row.
pub struct Asked {
    pub job: Job,
    pub inputs: Inputs,
}

impl Asked {
    /// The texts of the job's modules.
    pub fn texts(&self) -> &[Vec<u8>] {
        self.inputs.files.as_slice()
    }

    /// The texts of the job's newer modules.
    pub fn newer(&self) -> &[Vec<u8>] {
        self.inputs.newer.as_slice()
    }

    /// The octets that the job gives.
    pub fn octets(&self) -> &[u8] {
        self.inputs.octets_of(&self.job)
    }

    /// The octets of the job's account.
    pub fn account(&self) -> &[u8] {
        self.inputs.account()
    }
}

/// The contents of the files that a row's job names, in the order of its words.
fn named_in(alloc: Global, row: &Row, job: Job) -> Result<Asked, Fault> {
    let octets = given_in(row, &job.octets)?;
    let account = account_in(row, &job)?;
    let files = octets_in(alloc, row, job.files.as_slice())?;
    let newer = octets_in(alloc, row, job.newer.as_slice())?;
    let inputs = Inputs {
        files,
        newer,
        octets,
        account,
    };
    Ok(Asked { job, inputs })
}

/// The job of a row's command line, and the contents of its files.
pub fn asked_in(alloc: Global, row: &Row, program: &str) -> Result<Asked, Refusal> {
    let job = job_in(alloc, row, program)?;
    match named_in(alloc, row, job) {
        Ok(asked) => Ok(asked),
        Err(fault) => Err(refused(alloc, &fault)),
    }
}

/// Adds a line for each file of newer modules.
fn push_newer(alloc: Global, text: &mut String, newer: &[String]) -> Result<(), AllocError> {
    for file in newer {
        let line = format!(in alloc; "\nnewer file {file}")?;
        text.push_str(line.as_str())?;
    }
    Ok(())
}

/// Whether the words of a job give a value by its name or by a notation, and the text that they give.
fn value_shown(value: &ValueWords) -> (&'static str, &str) {
    match value {
        ValueWords::Nothing => ("value", ""),
        ValueWords::Lines => ("lines", ""),
        ValueWords::Named(name) => ("value", name.as_str()),
        ValueWords::Written(text) => ("notation", text.as_str()),
    }
}

/// `job NAME WORD..` and `octjob NAME WORD..`: the job of asnc or octcheck for these words, a line for each part.
fn job_of(alloc: Global, row: &Row, program: &str) -> Result<String, Refusal> {
    let job = job_in(alloc, row, program)?;
    let verb = match job.verb {
        Verb::Der => "der",
        Verb::Ber => "ber",
        Verb::Uper => "uper",
        Verb::Unper => "unper",
        Verb::Account => "account",
        Verb::List => "list",
        Verb::Later => "later",
        Verb::Show => "show",
        Verb::Check => "check",
    };
    let octets = match job.octets {
        Given::Nothing => "nothing",
        Given::Lines => "lines",
        Given::Octets(_) => "octets",
        Given::Path(_) => "a file",
    };
    let (ty, raw) = (job.ty.as_str(), job.raw);
    let (kind, value) = value_shown(&job.value);
    let (account, strict, context) = (job.account.as_str(), job.strict, job.context);
    let mut text = format!(in alloc;
        "{verb} of {kind} {value} under type {ty}\nraw {raw}, context {context}\naccount '{account}', octets: {octets}, strict {strict}"
    )?;
    for file in &job.files {
        let line = format!(in alloc; "\nfile {file}")?;
        text.push_str(line.as_str())?;
    }
    push_newer(alloc, &mut text, job.newer.as_slice())?;
    Ok(text)
}

/// What a row asks: for `asnc NAME WORD..` and `octcheck NAME WORD..` the job of the program with these words, with the
/// texts of the row as its files.
pub fn asked_of(alloc: Global, row: &Row) -> Result<Asked, Refusal> {
    match row.command() {
        "line" => line(alloc, row),
        "notation" => notation(alloc, row),
        "asnc" | "packed-sweep" => asked_in(alloc, row, "asnc"),
        "octcheck" | "sweep" => asked_in(alloc, row, "octcheck"),
        _ => Err(refuse(alloc, &"no such command")),
    }
}

/// The answer to the job of a row: what the program prints, and `status 1` if it refused a line; or what it prints, and
/// the line of the fault that ended it. The sink takes `room` octets without an allocation.
fn run(alloc: Global, row: &Row, room: usize) -> Result<String, Refusal> {
    let asked = asked_of(alloc, row)?;
    let mut sink = InMemory::of(Vec::with_capacity(alloc, room)?);
    let done = work_to(alloc, &asked, input_of(row), &mut sink);
    let mut text = printed(alloc, sink.into_octets().as_slice())?;
    match done {
        Err(fault) => text.push_str(reported(alloc, &asked, &fault)?.as_str())?,
        Ok(yes) => {
            if !yes && line_command(&asked.job).is_some() {
                text.push_str("\nstatus 1")?;
            }
        }
    }
    Ok(text)
}

/// The answer to the calls of a row, by its command. Those of a row that sweeps are the calls before its changes. The
/// sink of a job takes `room` octets without an allocation.
pub fn call(alloc: Global, row: &Row, room: usize) -> Result<String, Refusal> {
    match row.command() {
        "job" => job_of(alloc, row, "asnc"),
        "octjob" => job_of(alloc, row, "octcheck"),
        "faults" => Ok(fault_lines(alloc)?),
        _ => run(alloc, row, room),
    }
}

impl Drop for Asked {
    fn drop(self) {
        let Asked { job: _, inputs: _ } = self;
    }
}
