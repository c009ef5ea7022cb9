//! Receivers of the tokens that are read.

ghost use Rattle.asn_base.specs.Types.{Resolved};
ghost use Rattle.ber_source.specs.Seen.{IsBare, value_token, as_token};
ghost use Rattle.ber_source.specs.PrimitiveValue.{IsValueOfToken};
ghost use Rattle.decode_faults.specs.declared.read_fault.ReadFault.TheVariants.{Memory};
ghost use Rattle.codec_code.specs.Routines.{routine_at};
ghost use Rattle.octet_answers.specs.States.{Token as Token', begun};
ghost use Rattle.std.specs.Prelude.{◌≡◌, ◌++◌, ◌∷◌, [], IfErr, List, OnOk};

use crate::token::{PrimitiveToken, PrimitiveValue, StructToken};
use asn_base::schema::TypeId;
use codec_code::Code;
use decode_faults::ReadFault;

/// Receives the tokens of a message in its order, and builds something of them, such as a view. A receiver
/// refuses a token only if an allocation fails.
pub trait TokenSink<'a>: Drop {
    /// The tokens that were received so far.
    ghost tokens: { Self → List Token' };

    /// Whether values of this schema may be given to it.
    ghost suits: { Self → List Resolved → Type 0 };

    /// Receives one more token, which has no contents octets.
    fn emit(&mut self, mark: StructToken) -> Result<(), ReadFault>
        ensures ok { OnOk result (tokens self.new ≡ tokens self.old ++ as_token mark ∷ []) }
        ensures err { IfErr result (λ e. e ≡ Memory) }
        ensures suits { (s : List Resolved) → suits self.old s → suits self.new s };

    /// Receives the token that a value of the type begins. The type's routine begins with a choice, or reads a value
    /// that holds no others.
    fn begin_bare(&mut self, code: &Code, id: TypeId) -> Result<(), ReadFault>
        requires suits { suits self.old code.now }
        requires bare { IsBare (routine_at code.now id.index) }
        ensures ok { OnOk result (tokens self.new ≡ tokens self.old ++ begun id ∷ []) }
        ensures err { IfErr result (λ e. e ≡ Memory) }
        ensures suits { (s : List Resolved) → suits self.old s → suits self.new s };

    /// Receives the contents octets of a value that holds no others, with their meaning.
    fn hold(
        &mut self,
        held: PrimitiveToken<'a>,
        decoded: PrimitiveValue<'a>,
    ) -> Result<(), ReadFault>
        requires { IsValueOfToken held decoded }
        ensures ok { OnOk result (tokens self.new ≡ tokens self.old ++ value_token held.entry ∷ []) }
        ensures err { IfErr result (λ e. e ≡ Memory) }
        ensures suits { (s : List Resolved) → suits self.old s → suits self.new s };
}
