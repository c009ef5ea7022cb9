//! Words that ask for no job.

ghost use Rattle.std.specs.Prelude.{◌≡◌};
ghost use Rattle.check_jobs.specs.Inputs.{fault_of_words};

use command_line::WordsFault;
use judging::messages::Fault;

/// A fault of words, as a user sees it.
pub fn refusal(fault: WordsFault) -> Fault
    ensures { result ≡ fault_of_words fault }
{
    match fault {
        WordsFault::Memory => Fault::Memory,
        WordsFault::Help(text) => Fault::Help(text),
        WordsFault::BadWords(text) => Fault::BadWords(text),
    }
}
