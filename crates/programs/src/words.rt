//! The words of a command line.

ghost use Rattle.std.specs.Prelude.{◌≡◌, ◌∷◌, ℕ, List, IfErr, IfOk, map, string_bytes};
ghost use Rattle.command_line.specs.CommandLine.{IsRequested};
ghost use Rattle.programs.specs.Jobs.{AreUnread, IsNoJob};

use check_jobs::refusal;
use command_line::{Job, job};
use diagnostics::messages::Fault;
use std::alloc::Global;
use std::env;

/// The fault of a word that is not text.
fn not_text(alloc: Global) -> Fault
    ensures { AreUnread result }
{
    match String::from_str(alloc, "found a word that is not UTF-8, expected text") {
        Ok(text) => Fault::BadWords(text),
        Err(_) => Fault::Memory,
    }
}

/// The words of the command line, the first of them the product's name.
fn words_of(rt: &HostRuntime, program: &str) -> Result<Vec<String>, Fault>
    ensures words { IfOk result (λ ws. (rest : List (List ℕ)) × (map string_bytes ws.items ≡ program.now ∷ rest)) }
    ensures unread { IfErr result AreUnread }
{
    let alloc = rt.alloc();
    let mut words = Vec::new(alloc);
    words.push(String::from_str(alloc, program)?)?;
    let args = match env::args(rt) {
        Ok(args) => args,
        Err(_) => return Err(not_text(alloc)),
    };
    for word in args.skip(1) {
        words.push(word)?;
    }
    Ok(words)
}

/// The job that the words of the command line ask for, of the product with this name.
///
/// `Help`: help or the version is asked for. `BadWords`: the words ask for no job, or one of them is not text.
/// `Memory`: an allocation failed.
pub fn job_of(rt: &HostRuntime, program: &str) -> Result<Job, Fault>
    ensures job { IfOk result (λ j. (rest : List (List ℕ)) × IsRequested (program.now ∷ rest) j) }
    ensures refused { IfErr result (IsNoJob program.now) }
{
    let words = words_of(rt, program)?;
    match job(rt.alloc(), words.as_slice()) {
        Ok(job) => Ok(job),
        Err(fault) => Err(refusal(fault)),
    }
}
