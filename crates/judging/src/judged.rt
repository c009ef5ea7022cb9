//! The verdict on octets.

ghost use Rattle.std.specs.Prelude.{◌≡◌, List, map, ℕ, IfOk, IfErr};
ghost use Rattle.asn_base.specs.Abstract.{abstract};
ghost use Rattle.encodings.specs.Account.{Account as Account'};
ghost use Rattle.named_values.specs.front_end.Accepted.{octets_of};
ghost use Rattle.named_values.specs.front_end.Faults.{IsRightCompileError};
ghost use Rattle.judging.specs.Judged.{IsAccountIn, IsJudged, IsVerdict, IsVerdictOn};
ghost use Rattle.judging.specs.Refusals.{IsNoAccount, IsNotJudged, IsNotJudgedOn};
ghost use Rattle.named_values.specs.Given.{Given, as_given};

use account_checker::check;
use account_checker::reason::Verdict;
use account_text::{AccountFault, from_json, stop_of};
use asn_base::schema::{Schema, TypeId};
use asn_base::value::Value;
use named_values::front_end::{CompileError, Modules};
use named_values::messages::Fault;
use named_values::{ValueGiven, meant};
use octet_account::account::Account;
use std::alloc::Global;

/// A claim about a value: that these octets encode it, as this account describes.
#[derive(Clone, Copy)]
struct Claim<'a> {
    ty: &'a str,
    value: ValueGiven<'a>,
    octets: &'a [u8],
    account: &'a [u8],
}

/// A fault of texts, as a user sees it.
fn refusal(fault: CompileError) -> Fault
    ensures { (xs : List (List ℕ)) (first : List ℕ) (second : Given) (account : List ℕ) →
        IsRightCompileError xs fault →
        IsNotJudged xs first second account result }
{
    match &fault {
        CompileError::Memory => Fault::Memory,
        _ => Fault::Front(fault),
    }
}

/// The fault that octets aren't the text of an account, with the octet at which this shows.
#[tactic(auto, using(crate::proofs::Refused::stops_there))]
fn no_account(alloc: Global, octets: &[u8]) -> Fault
    ensures { ((a : Account') → IsAccountIn octets.now a → ⊥) → IsNoAccount octets.now result }
{
    match stop_of(alloc, octets) {
        Ok(stop) => Fault::NotAccount(stop),
        Err(_) => Fault::Memory,
    }
}

/// The account whose text the octets are.
#[tactic(auto, using(crate::proofs::Refused::not_utf8, crate::proofs::Refused::in_text))]
fn account_in(alloc: Global, octets: &[u8]) -> Result<Account, Fault>
    ensures read { IfOk result (IsAccountIn octets.now) }
    ensures none { IfErr result (IsNoAccount octets.now) }
{
    let Ok(text) = str::from_utf8(octets) else {
        return Err(no_account(alloc, octets));
    };
    match from_json(alloc, text) {
        Ok(account) => Ok(account),
        Err(AccountFault::Memory) => Err(Fault::Memory),
        Err(AccountFault::NotAccount) => Err(no_account(alloc, octets)),
    }
}

/// The verdict of the checker.
fn verdict(schema: &Schema, id: TypeId, value: &Value, octets: &[u8], account: &Account) -> Verdict
    ensures { IsVerdict schema.now id.index (abstract value.now) octets.now account.now result }
{
    check(schema, id, value, octets, account)
}

/// The verdict on a claim about accepted modules.
#[tactic(auto, using(crate::proofs::Refused::not_meant, crate::proofs::Refused::not_read))]
fn judge_in(
    alloc: Global,
    modules: &Modules,
    schema: &Schema,
    claim: &Claim<'_>,
) -> Result<Verdict, Fault>
    ensures judged { IfOk result (IsVerdictOn modules.now schema.now
        claim.now.ty.now (as_given claim.now.value) claim.now.octets.now claim.now.account.now) }
    ensures refused { IfErr result (IsNotJudgedOn modules.now
        claim.now.ty.now (as_given claim.now.value) claim.now.account.now) }
{
    let (id, value) = meant(alloc, modules, claim.ty, claim.value)?;
    let account = account_in(alloc, claim.account)?;
    Ok(verdict(schema, id, &value, claim.octets, &account))
}

/// Decides whether octets are a shortest encoding of a value, by the account beside them. The type is named as
/// `Module.Name`, by the module that assigns or imports the name. The value is given by such a name, or by a text that
/// is a notation. The value's notation is read under this type.
///
/// The verdict is what [`check`] returns for the types of the texts, the value, the octets and the account. `Yes`: no
/// BER encoding of the value has fewer octets, whoever made the octets and the account. `No`: the first reason that
/// fails.
///
/// The result is the first fault, in this order. `Front`: the fault of the texts that [`front_end::open`] finds.
/// `NoType`: the name of the type is that of none. `NoValue`: the name of the value is that of none. `Notation`: the
/// text of a notation has a fault at a place in it. `Value`: the value's notation means no value of the type.
/// `NotAccount`: the account isn't UTF-8, or isn't the text of an account. `Memory`: an allocation failed.
pub fn judge(
    alloc: Global,
    texts: &[Vec<u8>],
    ty: &str,
    value: ValueGiven<'_>,
    octets: &[u8],
    account: &[u8],
) -> Result<Verdict, Fault>
    // The verdict is right for the value that is meant in the texts.
    ensures judged { IfOk result
        (IsJudged (map octets_of texts.now) ty.now (as_given value.entry) octets.now account.now) }
    // A fault is true, and is the first one in the order above.
    ensures refused { IfErr result (IsNotJudged (map octets_of texts.now) ty.now (as_given value.entry) account.now) }
{
    let front = match named_values::front_end::open(alloc, texts) {
        Ok(front) => front,
        Err(fault) => return Err(refusal(fault)),
    };
    let claim = Claim {
        ty,
        value,
        octets,
        account,
    };
    match judge_in(alloc, &front.modules, &front.schema, &claim) {
        Ok(verdict) => Ok(verdict),
        Err(fault) => Err(fault),
    }
}
