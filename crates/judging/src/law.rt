//! What follows for verdicts. A caller calls a law to know it; a law takes no memory and no time.

ghost use Rattle.std.specs.Prelude.{◌≡◌, ℕ, List};
ghost use Rattle.asn_base.specs.Types.{Resolved};
ghost use Rattle.account_checker.specs.declared.reason.Verdict.{Verdict};
ghost use Rattle.account_checker.specs.declared.reason.Verdict.TheVariants.{Yes};
ghost use Rattle.resolve.specs.Program.{Program};
ghost use Rattle.named_values.specs.front_end.Accepted.{IsCheckedProgram};
ghost use Rattle.named_values.specs.messages.declared.fault.Fault.{Fault};
ghost use Rattle.named_values.specs.messages.declared.fault.Fault.TheVariants.{Memory};
ghost use Rattle.judging.specs.Judged.{IsConfirmed, IsJudged, IsVerdictOn};
ghost use Rattle.judging.specs.Refusals.{IsNotJudged, IsNotJudgedOn};
ghost use Rattle.named_values.specs.Given.{Given};

use account_checker::law::lemma_one_reason;
use account_text::law::lemma_one_account_of_a_text;
use encodings::account_laws;
use named_values::front_end::law::{
    lemma_accepted_checked, lemma_faults_exclude, lemma_values_of_schema,
};
use named_values::law::one_meaning;

/// What a yes alone means, whoever made the octets and the account. The octets are an encoding of the value that the
/// names mean, and no encoding by the basic rules is shorter.
pub fn lemma_yes_alone()
    ensures { (xs : List (List ℕ)) (first : List ℕ) (second : Given) (o account : List ℕ) →
        IsJudged xs first second o account Yes →
        IsConfirmed xs first second o }
{
    lemma_accepted_checked();
    lemma_values_of_schema();
    account_laws();
}

/// There is at most one verdict. If there is one, the claim has no fault except `Memory`.
pub fn lemma_one_verdict()
    ensures one { (p : Program) (s : List Resolved) (first : List ℕ) (second : Given) (o account : List ℕ)
        (r e : Verdict) →
        IsCheckedProgram p →
        IsVerdictOn p s first second o account r →
        IsVerdictOn p s first second o account e →
        r ≡ e }
    ensures not_refused { (p : Program) (s : List Resolved) (first : List ℕ) (second : Given) (o account : List ℕ)
        (r : Verdict)
        (e : Fault) →
        IsCheckedProgram p →
        IsVerdictOn p s first second o account r →
        IsNotJudgedOn p first second account e →
        e ≡ Memory }
    // Accepted texts have no fault.
    ensures texts { (xs : List (List ℕ)) (first : List ℕ) (second : Given) (o account : List ℕ) (r : Verdict)
        (e : Fault) →
        IsJudged xs first second o account r →
        IsNotJudged xs first second account e →
        e ≡ Memory }
{
    one_meaning();
    lemma_one_reason();
    lemma_one_account_of_a_text();
    lemma_accepted_checked();
    lemma_faults_exclude();
    named_values::front_end::law::one_program();
}
