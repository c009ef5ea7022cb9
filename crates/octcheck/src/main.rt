//! The program `octcheck`: judges octets by the account beside them, and writes `yes`, or `no` and the reason.
#![tactic(auto)]

use check_jobs::check;
use command_line::Job;
use programs::{exit_with, exit_with_report, inputs_of, job_of};
use sinks::Counted;
use std::io;
use std::process::ExitCode;

/// Reads the files of a job and does it.
fn run(rt: &HostRuntime, job: &Job) -> ExitCode {
    let inputs = match inputs_of(rt, job) {
        Ok(inputs) => inputs,
        Err(fault) => return exit_with_report(rt, job, &[], &[], &fault),
    };
    let mut out = Counted::of(io::writer(rt));
    match check(rt.alloc(), job, &inputs, &mut out) {
        Ok(true) => ExitCode::SUCCESS,
        Ok(false) => ExitCode::from(1),
        Err(fault) => exit_with_report(rt, job, &inputs.files, &[], &fault),
    }
}

fn main(rt: HostRuntime) -> ExitCode {
    match job_of(&rt, "octcheck") {
        Ok(job) => run(&rt, &job),
        Err(fault) => exit_with(&rt, &fault),
    }
}
