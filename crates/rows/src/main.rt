//! Answers rows of data. It prints the name of each file, and for each row of the file an entry: the words of the row,
//! and below them the lines of its answer, each after two blanks.
//!
//! The words of the command line name files of rows. The word `bench` ends them: what comes after it is measured, by
//! the crate `bench`. `test_text_answers` answers those of the folders `text` and
//! `expected`, `test_module_answers` those of `modules`, and `test_codec_answers` those of `codec`. All others are
//! answered by `test_program_answers`, as the program `asnc` does. This crate makes the calls of these rows again: with
//! each octet changed, and with sinks that fail. It also prints the wanted answer of each row that has another one. At
//! the end all rows are answered again with less memory.
//!
//! The first word of such a row is a command, and the second is the name of the row. The commands are `line`,
//! `notation`, `asnc`, `job`, `octcheck`, `octjob`, `faults`, `sweep` and `packed-sweep`. Each is described at its
//! function and at the head of the files that use it. If a row has a text named `wanted`, its answer must be that text,
//! as the module `wanted` says. This program doesn't know these answers.
//!
//! The answers of the stored run and of the rows were written by hand or made by other tools, not taken from this
//! program. The exceptions are those of `suggestions.rows` and lists of expected tokens, which were compared by hand
//! with the grammar. The answer to a row with the word `caret` includes the line of its fault. In a row with the word
//! `numbered` each `#` of its texts is replaced by a number, counted from 0. The word `fine` is described in `starved`.
#![tactic(auto)]

mod changes;
mod folders;
mod packed_sweeps;
mod starved;
mod sweeps;
mod wanted;

ghost use Rattle.std.specs.Prelude.{IfOk, map, string_bytes};
ghost use Rattle.row_format.specs.Rows.{IsEntry};

use crate::changes::Changes;
use crate::folders::Folder;
use crate::starved::Answered;
use crate::wanted::{Count, differs, push_shown};
use row_format::refusal::Refusal;
use row_format::{Row, rows};
use std::alloc::{AllocError, Global};
use std::process::ExitCode;
use std::{env, fs, io};
use test_codec_answers::Samples;
use test_program_answers::{Stopped, call};

/// The answer to a row, by its command.
fn answer_of(alloc: Global, row: &Row) -> Result<String, Refusal> {
    match row.command() {
        "sweep" => sweeps::sweep(alloc, row),
        "packed-sweep" => packed_sweeps::sweep(alloc, row),
        _ => call(alloc, row, 0),
    }
}

/// What is found of the answers of this crate: how many are those that their rows want, and how many are wrong after a
/// change. `stopped` is on sinks that fail. `answers` are those to the rows of one file, and `answered` the files that
/// were answered.
#[derive(Drop)]
struct Findings {
    count: Count,
    changes: Changes,
    stopped: Stopped,
    answers: Vec<String>,
    answered: Vec<Answered>,
}

/// The entry of a row that this crate answers: its title, and below it the lines of its answer. If the row wants
/// another answer, a change of its octets gets a wrong one, or a sink that fails gets other octets, that follows.
fn own_answer(alloc: Global, row: &Row, findings: &mut Findings) -> Result<String, AllocError>
    ensures { IfOk result (λ s. IsEntry (map string_bytes row.now.words.items) (string_bytes s)) }
{
    let answer = match answer_of(alloc, row) {
        Ok(answer) => answer,
        Err(Refusal::Message(words)) => words,
        Err(Refusal::Memory) => return Err(AllocError),
    };
    let mut lines = String::new(alloc);
    push_shown(alloc, &mut lines, answer.as_str())?;
    if let Some(wanted) = differs(alloc, row, answer.as_str(), &mut findings.count)? {
        lines.push_str("but wanted:\n")?;
        push_shown(alloc, &mut lines, wanted)?;
    }
    let wrong = findings.changes.change(alloc, row, answer.as_str())?;
    if wrong > 0 {
        write!(lines, "but {wrong} changes have a wrong answer\n")?;
    }
    let sinks = findings.stopped.stop(alloc, row)?;
    if sinks > 0 {
        write!(
            lines,
            "but {sinks} sinks get other octets or another answer\n"
        )?;
    }
    findings.answers.push(answer)?;
    row.entry(alloc, lines.as_str())
}

/// The entry of a row. The answer to a row with the command `speed` has times, which are written to standard error.
fn answer(
    rt: &HostRuntime,
    folder: Folder<'_>,
    row: &Row,
    findings: &mut Findings,
) -> io::Result<String>
    ensures { IfOk result (λ s. IsEntry (map string_bytes row.now.words.items) (string_bytes s)) }
{
    let alloc = rt.alloc();
    if folder.is_own() {
        return Ok(own_answer(alloc, row, findings)?);
    }
    if row.command() == "speed" {
        return test_module_answers::measure(rt, row);
    }
    Ok(folder.entry(alloc, row)?)
}

/// Prints how many messages and accounts of a file were changed, and how many outputs went to sinks that fail.
fn print_changed(rt: &HostRuntime, changes: Changes, stopped: Stopped) -> io::Result<()> {
    let Changes {
        messages,
        accounts,
        wrong,
    } = changes;
    println!(rt; "{messages} messages and {accounts} accounts changed, {wrong} wrong answers")?;
    let Stopped { outputs, wrong } = stopped;
    println!(rt; "{outputs} outputs to sinks that fail, {wrong} sinks with a wrong answer")
}

/// Prints the entry of each row, and keeps the answers. After rows that this crate answers a line follows on how many
/// were changed.
fn answer_rows(
    rt: &HostRuntime,
    folder: Folder<'_>,
    rows: &[Row],
    findings: &mut Findings,
) -> io::Result<()> {
    for row in rows {
        let entry = answer(rt, folder, row, findings)?;
        println!(rt; "{entry}")?;
        if !folder.is_own() {
            findings.answers.push(entry)?;
        }
    }
    if !folder.is_own() {
        return Ok(());
    }
    print_changed(rt, findings.changes, findings.stopped)?;
    findings.changes = Changes::default();
    findings.stopped = Stopped::default();
    Ok(())
}

/// Prints the name of a file, and answers its rows. The file is kept.
fn answer_file(
    rt: &HostRuntime,
    samples: &Samples,
    file: &str,
    findings: &mut Findings,
) -> io::Result<()> {
    println!(rt; "{file}")?;
    let octets = fs::read(rt, file)?;
    let rows = match rows(rt.alloc(), octets.as_slice()) {
        Ok(rows) => rows,
        Err(fault) => return println!(rt; "{fault}"),
    };
    answer_rows(rt, Folder::of(file, samples), rows.as_slice(), findings)?;
    let file = String::from_str(rt.alloc(), file)?;
    let answers = std::mem::replace(&mut findings.answers, Vec::new(rt.alloc()));
    findings.answered.push(Answered {
        file,
        rows,
        answers,
    })?;
    Ok(())
}

/// Answers the rows again with ever more memory, and prints what is found.
fn answer_again(rt: &HostRuntime, samples: &Samples, answered: &[Answered]) -> io::Result<()> {
    let Some(mut pool) = starved::all_memory(rt.alloc(), answered.len())? else {
        return println!(rt; "no row with less memory: it has no end");
    };
    for file in answered {
        file.answer_again(rt, samples, &mut pool)?;
    }
    Ok(())
}

/// What the command line asks for: the files whose rows are answered, and the words after `bench`.
#[derive(Drop)]
struct Requested {
    files: Vec<String>,
    measured: Vec<String>,
}

/// What the command line asks for.
fn asked(rt: &HostRuntime) -> io::Result<Requested> {
    let mut files = Vec::new(rt.alloc());
    let mut measured = Vec::new(rt.alloc());
    let mut is_bench = false;
    for word in env::args(rt)?.skip(1) {
        if is_bench {
            measured.push(word)?;
        } else if word.as_str() == "bench" {
            is_bench = true;
        } else {
            files.push(word)?;
        }
    }
    Ok(Requested { files, measured })
}

/// Answers the rows of files, twice: the second time with less memory. The status is 1 if an answer isn't the one that
/// its row wants.
fn answer_files(rt: &HostRuntime, files: &[String]) -> io::Result<ExitCode> {
    let samples = Samples::new(rt.alloc())?;
    let mut findings = Findings {
        count: Count::default(),
        changes: Changes::default(),
        stopped: Stopped::default(),
        answers: Vec::new(rt.alloc()),
        answered: Vec::new(rt.alloc()),
    };
    for file in files {
        answer_file(rt, &samples, file.as_str(), &mut findings)?;
    }
    answer_again(rt, &samples, findings.answered.as_slice())?;
    let Count {
        compared,
        different,
    } = findings.count;
    println!(rt; "{compared} rows want an answer, {different} have another")?;
    Ok(if different == 0 {
        ExitCode::SUCCESS
    } else {
        ExitCode::from(1)
    })
}

/// Answers the rows of the files that the command line names, and measures what it asks for. The status is that of the
/// rows.
fn main(rt: HostRuntime) -> io::Result<ExitCode> {
    let asked = asked(&rt)?;
    let status = if asked.files.is_empty() {
        ExitCode::SUCCESS
    } else {
        answer_files(&rt, asked.files.as_slice())?
    };
    if !asked.measured.is_empty() {
        bench::run(&rt, asked.measured.as_slice())?;
    }
    Ok(status)
}
