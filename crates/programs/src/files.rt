//! The files that a job names.

ghost use Rattle.std.specs.Prelude.{◌≡◌, ◌+◌, ◌≤◌, ◌<◌, IfErr, IfOk, IsSome, None, OnOk, length, string_bytes};
ghost use Rattle.check_jobs.specs.Inputs.{AreInputsOf, HasFile};
ghost use Rattle.command_line.specs.declared.request.Verb.TheVariants.{Check};
ghost use Rattle.programs.specs.Jobs.{IsAmong, IsFileFault, IsNoInput, count_inputs, names};

use check_jobs::Inputs;
use command_line::{Given, Job, Verb};
use diagnostics::messages::Fault;
use std::io::Read;
use std::{fs, io};

/// Why a file could not be read.
fn file_fault(name: String, error: io::Error) -> Fault
    ensures { IsFileFault (λ x. x ≡ string_bytes name) result }
{
    match error.kind() {
        io::ErrorKind::NotFound => Fault::NoFile(name),
        io::ErrorKind::IsADirectory => Fault::Folder(name),
        io::ErrorKind::OutOfMemory => Fault::Memory,
        _ => Fault::File(name),
    }
}

/// The contents of a file.
fn file_of(rt: &HostRuntime, name: &String) -> Result<Vec<u8>, Fault>
    ensures { IfErr result (IsFileFault (λ x. x ≡ string_bytes name.now)) }
{
    match fs::read(rt, name.as_str()) {
        Ok(octets) => Ok(octets),
        Err(error) => Err(file_fault(name.clone()?, error)),
    }
}

/// The contents of standard input.
fn input(rt: &HostRuntime) -> io::Result<Vec<u8>> {
    let mut text = Vec::new(rt.alloc());
    let mut stdin = rt.stdin();
    stdin.read_to_end(&mut text)?;
    Ok(text)
}

/// The text of a file; `-` is standard input.
fn text_of(rt: &HostRuntime, file: &str) -> io::Result<Vec<u8>> {
    if file == "-" {
        input(rt)
    } else {
        fs::read(rt, file)
    }
}

/// How many of the files are standard input, or fewer if that is more than a `usize` holds.
fn inputs_in(files: &[String]) -> usize
    ensures most { result ≤ count_inputs (names files.now) }
    ensures few { result < 2 → count_inputs (names files.now) ≤ result }
{
    let mut count = 0usize;
    for file in files {
        if file.as_str() == "-" {
            count = count.saturating_add(1);
        }
    }
    count
}

/// Checks that standard input is not to be read twice; the error is `BadWords`.
fn check_input(rt: &HostRuntime, job: &Job) -> Result<(), Fault>
    ensures once { OnOk result
        (count_inputs (names job.now.files.items) + count_inputs (names job.now.newer.items) ≤ 1) }
    ensures twice { IfErr result (IsNoInput job.now) }
{
    let count = inputs_in(job.files.as_slice());
    if count.saturating_add(inputs_in(job.newer.as_slice())) > 1 {
        let words = String::from_str(rt.alloc(), "found - as a FILE twice, expected it once")?;
        return Err(Fault::BadWords(words));
    }
    Ok(())
}

/// The texts of files, in order: as many as there are files.
fn texts_of(rt: &HostRuntime, files: &[String]) -> Result<Vec<Vec<u8>>, Fault>
    ensures texts { IfOk result (λ v. length v.items ≡ length files.now) }
    ensures unread { IfErr result (IsFileFault (IsAmong (names files.now))) }
{
    let mut texts = Vec::new(rt.alloc());
    for file in files {
        match text_of(rt, file.as_str()) {
            Ok(text) => texts.push(text)?,
            Err(error) => return Err(file_fault(file.clone()?, error)),
        }
    }
    Ok(texts)
}

/// The contents of the file of octets that a job names, if it names one.
fn octets_of(rt: &HostRuntime, job: &Job) -> Result<Option<Vec<u8>>, Fault>
    ensures file { IfOk result (HasFile job.now.octets) }
    ensures unread { IfErr result (IsNoInput job.now) }
{
    match &job.octets {
        Given::Nothing | Given::Octets(_) | Given::Lines => Ok(None),
        Given::Path(name) => Ok(Some(file_of(rt, name)?)),
    }
}

/// The contents of the file of a job's account, if it names one.
fn account_of(rt: &HostRuntime, job: &Job) -> Result<Option<Vec<u8>>, Fault>
    ensures account { job.now.verb ≡ Check → IfOk result IsSome }
    ensures no_account { (job.now.verb ≡ Check → ⊥) → IfOk result (λ a. a ≡ None) }
    ensures unread { IfErr result (IsNoInput job.now) }
{
    match job.verb {
        Verb::Check => Ok(Some(file_of(rt, &job.account)?)),
        _ => Ok(None),
    }
}

/// Reads the files that a job names: its octets, its account, the texts of its modules, and those of its newer modules.
///
/// `File`, `NoFile`, `Folder`: a file can't be read. `BadWords`: standard input would be read twice. `Memory`: an
/// allocation failed.
pub fn inputs_of(rt: &HostRuntime, job: &Job) -> Result<Inputs, Fault>
    ensures read { IfOk result (AreInputsOf job.now) }
    // Standard input is read once at most.
    ensures once { OnOk result
        (count_inputs (names job.now.files.items) + count_inputs (names job.now.newer.items) ≤ 1) }
    ensures unread { IfErr result (IsNoInput job.now) }
{
    check_input(rt, job)?;
    let octets = octets_of(rt, job)?;
    let account = account_of(rt, job)?;
    let files = texts_of(rt, job.files.as_slice())?;
    let newer = texts_of(rt, job.newer.as_slice())?;
    Ok(Inputs {
        files,
        newer,
        octets,
        account,
    })
}
