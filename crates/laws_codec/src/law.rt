//! The headline of the codec. A caller calls the law to know it; it takes no memory and no time.

ghost use Rattle.asn_base.specs.Abstract.{AbstractValue};
ghost use Rattle.asn_base.specs.Schemas.{IsSchema};
ghost use Rattle.asn_base.specs.Types.{Resolved};
ghost use Rattle.laws_codec.specs.Headline.{IsCoded};
ghost use Rattle.std.specs.Prelude.{List, ℕ};

use encodings::{account_laws, level_laws, reading_laws, schema_laws};
use packed_encodings::{message_laws, writing_laws};

/// What the codec promises of any value of any type of any schema. What [`der_writer::write_der`] returns is the one
/// DER encoding, and no definite-length BER encoding is shorter. [`account_checker::check`] says yes to it, and a yes
/// alone means a shortest encoding. [`ber_reader::read_ber`] returns the value for each of its BER encodings, and
/// [`ber_reader::read_der`] for the DER encoding. What [`packed_writer::write_uper`] returns is the one message of
/// canonical PER, for which [`packed_reader::read_uper`] returns the value.
pub fn headline()
    ensures { (s : List Resolved) (t : ℕ) (v : AbstractValue) → IsSchema s → IsCoded s t v }
{
    account_laws();
    level_laws();
    reading_laws();
    schema_laws();
    message_laws();
    writing_laws();
}
