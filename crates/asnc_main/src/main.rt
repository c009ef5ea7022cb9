//! The program `asnc`: reads its words and files, and writes what they ask for.
#![tactic(auto)]

use command_line::Job;
use input_lines::InputLines;
use jobs::{LineJob, line_command, work, work_lines};
use programs::{exit_with, exit_with_report, inputs_of, job_of};
use sinks::Counted;
use std::io;
use std::process::ExitCode;

/// Reads the files of a job and does it.
fn run(rt: &HostRuntime, job: &Job) -> ExitCode {
    let inputs = match inputs_of(rt, job) {
        Ok(inputs) => inputs,
        Err(fault) => return exit_with_report(rt, job, &[], &[], &fault),
    };
    let mut out = Counted::of(io::writer(rt));
    let done = match line_command(job) {
        Some(command) => {
            let asked = LineJob {
                job,
                inputs: &inputs,
                command,
            };
            let mut input = InputLines::of(rt.alloc(), rt.stdin());
            work_lines(rt.alloc(), asked, &mut input, &mut out)
        }
        None => work(rt.alloc(), job, &inputs, &mut out),
    };
    match done {
        Ok(true) => ExitCode::SUCCESS,
        Ok(false) => ExitCode::from(1),
        Err(fault) => exit_with_report(rt, job, &inputs.files, &inputs.newer, &fault),
    }
}

fn main(rt: HostRuntime) -> ExitCode {
    match job_of(&rt, "asnc") {
        Ok(job) => run(&rt, &job),
        Err(fault) => exit_with(&rt, &fault),
    }
}
