//! Verdicts in words.

ghost use Rattle.std.specs.Prelude.{◌≡◌};
ghost use Rattle.judging.specs.Judged.{answer_of};

use account_checker::reason::{Reason, Verdict};

/// `yes`, or `no` and the reason.
pub fn answer(verdict: Verdict) -> &'static str
    ensures { result.now ≡ answer_of verdict }
{
    match verdict {
        Verdict::Yes => "yes",
        Verdict::No(Reason::NotOfType) => "no NotOfType",
        Verdict::No(Reason::Shape) => "no Shape",
        Verdict::No(Reason::Omitted) => "no Omitted",
        Verdict::No(Reason::Numbers) => "no Numbers",
        Verdict::No(Reason::Places) => "no Places",
        Verdict::No(Reason::Length) => "no Length",
        Verdict::No(Reason::Header) => "no Header",
        Verdict::No(Reason::Contents) => "no Contents",
    }
}
