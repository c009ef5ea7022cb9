//! Laws of accounts.

ghost use Rattle.std.specs.Prelude.{◌≡◌, ◌≤◌, ℕ, List, length};
ghost use Rattle.asn_base.specs.Abstract.{AbstractValue};
ghost use Rattle.asn_base.specs.Schemas.{IsSchema};
ghost use Rattle.asn_base.specs.Typed.{IsValueWithoutNodes};
ghost use Rattle.asn_base.specs.Types.{Resolved};
ghost use Rattle.encodings.specs.Account.{Account, Describes};
ghost use Rattle.octet_account.specs.Flat.{FlatRow, AreRows, IsWithin};

/// Rows are those of at most one account.
pub fn lemma_one_account()
    ensures { (a b : Account) (rs : List FlatRow) → AreRows a rs → AreRows b rs → a ≡ b }
{}

/// The account of the encoding of a value, in at most 16,777,216 octets, keeps the bounds of accounts.
pub fn lemma_accounts_within_bounds()
    ensures { (s : List Resolved) (t : ℕ) (v : AbstractValue) (o : List ℕ) (a : Account)
        → IsSchema s
        → IsValueWithoutNodes s t v
        → length o ≤ 16777216
        → Describes s t v o a
        → IsWithin 400 a }
{}
