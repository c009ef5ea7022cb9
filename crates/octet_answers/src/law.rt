//! Laws of what octets answer.

ghost use Rattle.asn_base.specs.declared.tag.Tag.{Tag};
ghost use Rattle.octet_answers.specs.Answers.{Answers, Takes};
ghost use Rattle.octet_answers.specs.Asked.{question_of};
ghost use Rattle.octet_answers.specs.Unanswered.{Leaves};
ghost use Rattle.octet_answers.specs.States.{State};
ghost use Rattle.octet_answers.specs.Units.{UnitAt};
ghost use Rattle.codec_source.specs.Events.{Alike, Event, Question};
ghost use Rattle.decode_faults.specs.declared.read_fault.ReadFault.{ReadFault};
ghost use Rattle.std.specs.Prelude.{◌≡◌, ◌≤◌, Bool, List, [], length, ℕ};

use encodings::header_laws;
use octets::law::lemma_one_front;
use primitive_reader::law::lemma_one_reading;
use segmented_strings::law::lemma_one_joining;

/// Octets answer a question in at most one way, with one state after it.
pub fn lemma_one_answer()
    ensures once { (a b c : State) (e f : Event)
        → Alike e f
        → Answers a e b
        → Answers a f c
        → (e ≡ f) × (b ≡ c) }
    ensures takes { (a b : State) (e : Event) → Answers a e b → Takes a e b }
{
    header_laws();
}

/// At most one encoding is at the start of octets, and none if there are no octets.
pub fn lemma_one_unit()
    ensures once { (g f : Tag) (c d : Bool) (k j : ℕ) (x y r s o : List ℕ)
        → UnitAt g c k x r o
        → UnitAt f d j y s o
        → (g ≡ f) × (c ≡ d) × (k ≡ j) × (x ≡ y) × (r ≡ s) }
    ensures some { (g : Tag) (c : Bool) (k : ℕ) (x r : List ℕ) → UnitAt g c k x r [] → ⊥ }
{
    header_laws();
}

/// A question is refused with at most one fault, which leaves a reader in one state, and never if it has an answer. The
/// octets left are no more than a message has.
pub fn lemma_one_refusal()
    ensures once { (a b c : State) (q : Question) (e f : ReadFault)
        → length a.here.octets ≤ 16777216
        → Leaves a q b e
        → Leaves a q c f
        → (e ≡ f) × (b ≡ c) }
    ensures either { (a b c : State) (q : Question) (e : ReadFault) (v : Event)
        → length a.here.octets ≤ 16777216
        → Leaves a q b e
        → question_of v ≡ q
        → Answers a v c
        → ⊥ }
{
    header_laws();
    lemma_one_front();
    lemma_one_reading();
    lemma_one_joining();
}
