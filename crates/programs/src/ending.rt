//! What programs write, and how they end.

ghost use Rattle.std.specs.Prelude.{◌≡◌, ◌⊎◌};
ghost use Rattle.std.specs.Process.{exit_status};
ghost use Rattle.diagnostics.specs.messages.Classes.{number_of};
ghost use Rattle.diagnostics.specs.messages.Status.{status_of};

use command_line::Job;
use diagnostics::messages::{Fault, status};
use diagnostics::report;
use std::io;
use std::process::ExitCode;

/// Writes a fault: help to standard output, else one line to standard error.
fn print_fault(rt: &HostRuntime, fault: &Fault) -> io::Result<()> {
    match fault {
        Fault::Help(text) => print!(rt; "{text}"),
        _ => eprintln!(rt; "{fault}"),
    }
}

/// Writes a fault, and returns the exit status; 3 if the fault can't be written.
pub fn exit_with(rt: &HostRuntime, fault: &Fault) -> ExitCode
    ensures { (exit_status result ≡ status_of (number_of fault.now)) ⊎ (exit_status result ≡ 3) }
{
    match print_fault(rt, fault) {
        Ok(()) => ExitCode::from(status(fault)),
        Err(_) => ExitCode::from(3),
    }
}

/// Writes a fault that a job met, in its files, in their texts or in the newer texts, and returns the exit status; 3 if
/// it can't be written.
pub fn exit_with_report(
    rt: &HostRuntime,
    job: &Job,
    texts: &[Vec<u8>],
    newer: &[Vec<u8>],
    fault: &Fault,
) -> ExitCode
    ensures { (exit_status result ≡ status_of (number_of fault.now)) ⊎ (exit_status result ≡ 3) }
{
    match report(rt.alloc(), job, texts, newer, fault) {
        Ok(line) => match eprintln!(rt; "{line}") {
            Ok(()) => ExitCode::from(status(fault)),
            Err(_) => ExitCode::from(3),
        },
        Err(_) => exit_with(rt, &Fault::Memory),
    }
}
