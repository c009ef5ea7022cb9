//! Why a line of standard input is refused, and the text that says so.

ghost use Rattle.std.specs.Prelude.{◌≡◌, ◌++◌, IfOk, codes, string_bytes};
ghost use Rattle.jobs.specs.Answers.{line_heading, without_ends, IsMarkedReport};
ghost use Rattle.diagnostics.specs.Heading.{Begins};

use asnc::messages::Fault;
use command_line::Job;
use diagnostics::report_line;
use std::alloc::{AllocError, Global};

/// Why a line is refused.
pub enum LineFault {
    /// 2 Limit(Line): the line has more than 33,554,432 octets.
    Limit,
    /// 73 LineEnd: the text that the command prints of the line has a line end, so the answer would not be one line.
    LineEnd,
    /// The command refuses what the line gives. `BadWords`: the line is not the hexadecimal digits of octets.
    Refused(Fault),
}

/// The report of a fault that a job met at a line. `texts` are those of the job's files.
fn report_of(
    alloc: Global,
    job: &Job,
    texts: &[Vec<u8>],
    line: &[u8],
    fault: &LineFault,
) -> Result<String, AllocError>
    ensures { IfOk result (λ s. Begins (line_heading fault.now) (string_bytes s)) }
{
    match fault {
        LineFault::Limit => String::from_str(
            alloc,
            "error 2 Limit(Line): a line has at most 33554432 octets",
        ),
        LineFault::LineEnd => String::from_str(
            alloc,
            "error 73 LineEnd: the answer has a line end in it",
        ),
        LineFault::Refused(fault) => report_line(alloc, job, texts, line, fault),
    }
}

/// `! `, and a report with a space in place of each line end.
fn marked(alloc: Global, report: &[u8]) -> Result<Vec<u8>, AllocError>
    ensures { IfOk result (λ v. v.items ≡ codes "! " ++ without_ends report.now) }
{
    let mut text = Vec::new(alloc);
    text.push(b'!')?;
    text.push(b' ')?;
    for octet in report {
        text.push(if *octet == b'\n' { b' ' } else { *octet })?;
    }
    Ok(text)
}

/// The text of the refusal of a line, without a line end. `texts` are those of the job's files.
pub(crate) fn refusal_text(
    alloc: Global,
    job: &Job,
    texts: &[Vec<u8>],
    line: &[u8],
    fault: &LineFault,
) -> Result<Vec<u8>, AllocError>
    ensures { IfOk result (λ v. IsMarkedReport fault.now v.items) }
{
    let report = report_of(alloc, job, texts, line, fault)?;
    marked(alloc, report.as_bytes())
}

impl Drop for LineFault {
    fn drop(self) {
        match self {
            LineFault::Limit => {}
            LineFault::LineEnd => {}
            LineFault::Refused(_) => {}
        }
    }
}
