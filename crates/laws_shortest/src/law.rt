//! The law that ties writers to the checker.

ghost use Rattle.account_checker.specs.Reasons.{IsRightAccount};
ghost use Rattle.asn_base.specs.Abstract.{AbstractValue};
ghost use Rattle.asn_base.specs.Types.{Resolved};
ghost use Rattle.der_writer.specs.Encoded.{IsEncoding, Went};
ghost use Rattle.encodings.specs.Account.{Account, Describes};
ghost use Rattle.sinks.specs.Sent.{SinkState};
ghost use Rattle.std.specs.Prelude.{List, ℕ};

/// The account that a writer answers is right, of the octets in its list and of those that a sink took.
pub fn lemma_written_are_right()
    ensures list { (s : List Resolved) (t : ℕ) (v : AbstractValue) (o : List ℕ) (a : Account)
        → IsEncoding s t v o
        → Describes s t v o a
        → IsRightAccount s t v o a }
    ensures sink { (s : List Resolved) (t : ℕ) (v : AbstractValue) (before after : SinkState) (a : Account)
        → (w : Went s t v before after a)
        → IsRightAccount s t v w.octets a }
{}
