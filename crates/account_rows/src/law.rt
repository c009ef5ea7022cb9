//! Laws of the rows that routines give.

ghost use Rattle.account_rows.specs.Meaning.{GivesRows};
ghost use Rattle.account_rows.specs.RowLayout.{RowLayout};
ghost use Rattle.asn_base.specs.Abstract.{AbstractValue};
ghost use Rattle.asn_base.specs.Schemas.{IsSchema};
ghost use Rattle.asn_base.specs.Typed.{IsValueWithoutNodes};
ghost use Rattle.asn_base.specs.Types.{Resolved};
ghost use Rattle.codec_code.specs.Events.{Event, HasOctets, Tree};
ghost use Rattle.codec_code.specs.Routines.{routine_at};
ghost use Rattle.codec_code.specs.Steps.{Steps};
ghost use Rattle.octet_account.specs.Flat.{FlatRow};
ghost use Rattle.std.specs.Prelude.{List, ℕ};

use asn_base::law::{lemma_alike_values, lemma_sameness};
use encodings::{header_laws, leaf_laws};

/// The routine of a type gives, for each value of the type, the events of a tree. The octets and rows of this tree are
/// those of an account of the value, and each account of the value has the same number of octets.
pub fn lemma_routine_rows()
    ensures rows { (s : List Resolved) (t : ℕ) (v : AbstractValue) (es : List Event)
        → IsSchema s
        → IsValueWithoutNodes s t v
        → Steps s t (routine_at s t) v es
        → GivesRows s t v es }
    // Octets that have rows are octets of the tree.
    ensures stand { (t : Tree) (o : List ℕ) (rs : List FlatRow) → RowLayout t o rs → HasOctets t o }
{
    lemma_sameness();
    lemma_alike_values();
    header_laws();
    leaf_laws();
}
