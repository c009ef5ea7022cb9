//! What a job does with each line of standard input.

ghost use Rattle.std.specs.Prelude.{◌≡◌};
ghost use Rattle.jobs.specs.Answers.{asked_rules, line_command_of};

use asnc::Rules;
use command_line::{Given, Job, ValueWords, Verb};

/// What is done with each line of standard input.
#[derive(Clone, Copy)]
pub enum LineCommand {
    /// The line is the notation of a value, which is written by the distinguished encoding rules.
    Der,
    /// The line is the notation of a value, which is written in canonical PER.
    Uper,
    /// The line is octets in hexadecimal, which are read by these rules as a value.
    Ber(Rules),
    /// The line is octets in hexadecimal, which are read in canonical PER as a value.
    Unper,
}

/// The rules that a job with `--strict`, or without it, reads by.
fn rules_by(strict: bool) -> Rules
    ensures { result ≡ asked_rules strict }
{
    if strict { Rules::Der } else { Rules::Ber }
}

/// Returns what a job does with each line of standard input. The result is None if the job takes no lines.
pub fn line_command(job: &Job) -> Option<LineCommand>
    ensures { result ≡ line_command_of job.now.verb job.now.value job.now.octets job.now.strict }
{
    match job.verb {
        Verb::Der => match &job.value {
            ValueWords::Lines => Some(LineCommand::Der),
            ValueWords::Nothing | ValueWords::Named(_) | ValueWords::Written(_) => None,
        },
        Verb::Uper => match &job.value {
            ValueWords::Lines => Some(LineCommand::Uper),
            ValueWords::Nothing | ValueWords::Named(_) | ValueWords::Written(_) => None,
        },
        Verb::Ber => match &job.octets {
            Given::Lines => Some(LineCommand::Ber(rules_by(job.strict))),
            Given::Nothing | Given::Octets(_) | Given::Path(_) => None,
        },
        Verb::Unper => match &job.octets {
            Given::Lines => Some(LineCommand::Unper),
            Given::Nothing | Given::Octets(_) | Given::Path(_) => None,
        },
        Verb::Account | Verb::List | Verb::Later | Verb::Show | Verb::Check => None,
    }
}
