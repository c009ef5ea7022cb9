//! Encodes a value by the distinguished rules.

ghost use Rattle.asn_base.specs.Abstract.{abstract};
ghost use Rattle.asn_base.specs.Typed.{IsValue};
ghost use Rattle.encodings.specs.Account.{Account, Describes};
ghost use Rattle.encodings.specs.Encoding.{Der};
ghost use Rattle.octet_account.specs.Flat.{AreRows};
ghost use Rattle.octet_account.specs.Seen.{flat};
ghost use Rattle.std.specs.Prelude.{◌≡◌, ◌<◌, ◌≤◌, Err, IfErr, IfOk, List, length, ℕ};
ghost use Rattle.der_layout.specs.declared.fault.EncodeFault.TheVariants.{NotOfType, TooLong};

use crate::fault::EncodeFault;
use crate::table::Table;
use account_rows::law::lemma_routine_rows;
use asn_base::schema::TypeId;
use asn_base::value::Value;
use codec_code::Code;
use codec_code::law::routine_laws;
use codec_machine::{RunFault, run};
use encodings::account_laws;
use limits::MAX_MESSAGE;
use octet_account::law::lemma_accounts_within_bounds;
use octet_account::row::Row;
use std::alloc::Global;

/// The least guess of how many rows there are.
const FEWEST_GUESSED: usize = 32;

/// The greatest guess of how many rows there are.
const MOST_GUESSED: usize = 1 << 20;

/// The octets of an encoding, and the rows of their account.
#[derive(Drop)]
pub struct Encoded {
    pub octets: Vec<u8>,
    pub rows: Vec<Row>,
}

/// The octets of the value's encoding by the distinguished rules (X.690, 10 and 11), and the rows of their account. The
/// routine of the type runs once, and writes all octets into one list. One octet is held open for each length until its
/// header closes. The members of each SET and SET OF are sorted within that list (10.3 and 11.6). The rows are in the
/// order of the value, with the place of each member of a SET or SET OF.
///
/// - `NotOfType`: exactly if the value isn't one of the type.
/// - `TooLong`: the value is one of the type, and its encoding has more than 16,777,216 octets.
/// - `Memory`: an allocation failed.
pub fn encode(alloc: Global, code: &Code, id: TypeId, value: &Value) -> Result<Encoded, EncodeFault>
    // An encoded value is one of the type.
    ensures value { IfOk result (λ m. IsValue code.now id.index (abstract value.now)) }
    // The octets are its encoding by the distinguished rules.
    ensures der { IfOk result (λ m. Der code.now id.index (abstract value.now) 0 m.octets.items) }
    // The rows are those of an account of these octets.
    ensures account { IfOk result (λ m. (a : Account)
        × Describes code.now id.index (abstract value.now) m.octets.items a
        × AreRows a (flat m.rows.items)) }
    ensures not_too_long { IfOk result (λ m. length m.octets.items ≤ 16777216) }
    // `NotOfType` exactly if the value isn't one of the type.
    ensures not_of_type { IfErr result (λ e. e ≡ NotOfType → IsValue code.now id.index (abstract value.now) → ⊥) }
    ensures no_value { (IsValue code.now id.index (abstract value.now) → ⊥) → result ≡ Err NotOfType }
    // After `TooLong` each encoding by the distinguished rules has more than 16,777,216 octets.
    ensures longer { IfErr result (λ e. e ≡ TooLong → (o : List ℕ)
        → Der code.now id.index (abstract value.now) 0 o
        → 16777216 < length o) }
{
    if !code.is_value(id, value) {
        return Err(EncodeFault::NotOfType);
    }
    match encode_typed(alloc, code, id, value) {
        Ok(found) => Ok(found),
        Err(fault) => Err(fault),
    }
}

/// A guess of how many rows there are, so that lists needn't grow. It is one for a list and, for each member, the guess
/// for the first member. It is at least 32 and at most 2^20. Any guess gives the same result.
fn guessed_rows(value: &Value) -> usize {
    match value {
        Value::List(values) => match values.as_slice().first() {
            Some(first) => values
                .len()
                .saturating_mul(guessed_members(first))
                .saturating_add(1),
            None => 1,
        },
        _ => guessed_members(value),
    }
    .max(FEWEST_GUESSED)
    .min(MOST_GUESSED)
}

/// A guess for a value: one for itself, and one for each value directly in it.
fn guessed_members(value: &Value) -> usize {
    match value {
        Value::List(values) => values.len().saturating_add(1),
        Value::Fields(values) => values.len().saturating_add(1),
        _ => 1,
    }
}

/// Encodes a value of the type.
fn encode_typed(
    alloc: Global,
    code: &Code,
    id: TypeId,
    value: &Value,
) -> Result<Encoded, EncodeFault>
    requires { IsValue code.now id.index (abstract value.now) }
    ensures der { IfOk result (λ m. Der code.now id.index (abstract value.now) 0 m.octets.items) }
    ensures account { IfOk result (λ m. (a : Account)
        × Describes code.now id.index (abstract value.now) m.octets.items a
        × AreRows a (flat m.rows.items)) }
    ensures not_too_long { IfOk result (λ m. length m.octets.items ≤ 16777216) }
    ensures not_of_type { IfErr result (λ e. e ≡ NotOfType → ⊥) }
    ensures longer { IfErr result (λ e. e ≡ TooLong → (o : List ℕ)
        → Der code.now id.index (abstract value.now) 0 o
        → 16777216 < length o) }
{
    code.lemma_invariant();
    routine_laws();
    lemma_routine_rows();
    lemma_accounts_within_bounds();
    account_laws();
    let mut table = Table::new(alloc, guessed_rows(value));
    match run(alloc, code, id, value, &mut table) {
        Ok(()) => {
            if table.octets.len() > MAX_MESSAGE {
                Err(EncodeFault::TooLong)
            } else {
                Ok(Encoded {
                    octets: table.octets,
                    rows: table.rows,
                })
            }
        }
        Err(RunFault::Memory) => Err(EncodeFault::Memory),
        Err(RunFault::NotOfType) => Err(EncodeFault::NotOfType),
    }
}
