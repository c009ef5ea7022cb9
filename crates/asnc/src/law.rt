//! What follows from the results of a kit. A caller calls a law to know it; a law takes no memory and no time.

ghost use Rattle.std.specs.Prelude.{◌≡◌, ◌≤◌, ℕ, List, String, IsSome, IsUtf8, None, length, true};
ghost use Rattle.std.specs.Global.{Global};
ghost use Rattle.asn_base.specs.Types.{Resolved};
ghost use Rattle.encodings.specs.Account.{Account};
ghost use Rattle.encodings.specs.Encoding.{Der};
ghost use Rattle.encodings.specs.Rules.{Rules, Basic, Distinguished};
ghost use Rattle.printed_values.specs.LineEnds.{HasNoLineEnd};
ghost use Rattle.printed_values.specs.ReadBack.{IsReadBack};
ghost use Rattle.resolve.specs.Program.{Program};
ghost use Rattle.trees.specs.Values.{Name};
ghost use Rattle.values.specs.Allowing.{Allows, AllowsCode};
ghost use Rattle.judging.specs.front_end.Accepted.{Accepted, AreAccepted};
ghost use Rattle.judging.specs.messages.declared.fault.Fault.{Fault};
ghost use Rattle.judging.specs.messages.declared.fault.Fault.TheVariants.{Memory, MessageLimit, NoType, DecodeError, BitDecodeError};
ghost use Rattle.judging.specs.messages.declared.fault.DecodeError.{DecodeError as DecodeError'};
ghost use Rattle.judging.specs.messages.declared.fault.BitDecodeError.{BitDecodeError as BitDecodeError'};
ghost use Rattle.asn_base.specs.Abstract.{AbstractValue};
ghost use Rattle.asnc.specs.Headline.{IsAnswer, IsMessageOf, IsRight, IsRightlyPacked, IsRightlyRead};
ghost use Rattle.asnc.specs.Headline.{IsRightlyUnpacked};
ghost use Rattle.asnc.specs.Kits.{IsNotOpened};
ghost use Rattle.asnc.specs.Packing.{IsNotPacked, IsPacked};
ghost use Rattle.asnc.specs.Reading.{IsNotReadAs, IsReadAs, rules_of};
ghost use Rattle.asnc.specs.Showing.{IsShownAs};
ghost use Rattle.asnc.specs.Unpacking.{IsNotUnpackedAs, IsUnpackedAs};
ghost use Rattle.asnc.specs.Versions.{IsCompared, IsKeptAnswer, IsPackedKeptAnswer, IsWidenedAnswer};
ghost use Rattle.asnc.specs.Whole.{IsWhole};
ghost use Rattle.asnc.specs.Writing.{IsAccountOf, IsEncoded, IsNotEncoded};
ghost use Rattle.std.specs.Int.Digits.{AllBelowBase};
ghost use Rattle.version_laws.specs.Versions.{IsKnown};
ghost use Rattle.account_checker.specs.declared.reason.Verdict.TheVariants.{Yes};
ghost use Rattle.judging.specs.Judged.{IsAccountIn, IsJudged};
ghost use Rattle.asnc.specs.declared.reading.Rules.{Rules as Rules'};
ghost use Rattle.asnc.specs.declared.showing.Listing.{Listing};
ghost use Rattle.judging.specs.named_values.Given.{Given, written};
ghost use Rattle.judging.specs.named_values.Meant.{IsMeant};

use asn_base::law::lemma_sameness;
use encodings::{der_laws, level_laws, message_laws};
use judging::front_end::law::{lemma_accepted_checked, lemma_faults_exclude};
use judging::named_values::law::one_meaning;
use packed_encodings::{message_laws as packed_message_laws, writing_laws};
use packed_writer::law::written_is_read;
use printed_values::law::lemma_printed_is_read_back;
use version_laws::law::{lemma_earlier_reads, lemma_later_reads};
use version_laws::packed_law::{lemma_earlier_reads_packed, lemma_later_reads_packed};
use written_values::law::lemma_read_is_notation;

/// What [`crate::Kit::der`] returns for texts that [`crate::Kit::open`] took is right, from the texts to the octets.
pub fn headline()
    ensures { (xs : List (List ℕ)) (p : Program) (s : List Resolved) (first : List ℕ) (second : Given) (o : List ℕ)
        (a : Account) →
        Accepted xs p s →
        IsEncoded p s first second o a →
        IsRight xs first second o a }
{}

/// What [`crate::Kit::uper`] returns for texts that [`crate::Kit::open`] took is right, from the texts to the octets.
/// They are the bits of the value, no others are, and they are read as a value that is the same, and as no other.
pub fn packed()
    ensures { (xs : List (List ℕ)) (p : Program) (s : List Resolved) (first : List ℕ) (second : Given) (o : List ℕ) →
        Accepted xs p s →
        IsPacked p s first second o →
        IsRightlyPacked xs first second o }
{
    packed_message_laws();
    writing_laws();
}

/// [`judging::judge`] accepts what [`crate::Kit::der`] returns for texts that [`crate::Kit::open`] took, by the text of
/// the account beside it, in any JSON spelling. So it accepts what [`crate::Kit::account`] returns.
pub fn judged()
    ensures account { (xs : List (List ℕ)) (p : Program) (s : List Resolved) (first : List ℕ) (second : Given)
        (o text : List ℕ)
        (a : Account) →
        Accepted xs p s →
        IsEncoded p s first second o a →
        IsAccountIn text a →
        IsJudged xs first second o text Yes }
    ensures text { (xs : List (List ℕ)) (p : Program) (s : List Resolved) (first : List ℕ) (second : Given)
        (text : List ℕ) →
        Accepted xs p s →
        IsUtf8 text →
        (w : IsAccountOf p s first second text) →
        IsJudged xs first second w.octets text Yes }
{}

/// What [`crate::Kit::ber`] returns for texts that [`crate::Kit::open`] took is right. Each encoding of a value by the
/// basic rules, if the caller asks for these, gives that value or `Memory`. What [`crate::Kit::der`] returns gives its
/// value back by either rules.
pub fn reading()
    // The printed text is a value of the type that the octets encode by the rules, and the only one.
    ensures right { (xs : List (List ℕ)) (p : Program) (s : List Resolved) (r : Rules) (name o printed : List ℕ)
        (k : ℕ) →
        Accepted xs p s →
        IsReadAs p s r name o printed k →
        IsRightlyRead xs r name o printed k }
    // For an encoding of a value, the printed text is that value, and no additions were skipped.
    ensures answered { (p : Program) (s : List Resolved) (r : Rules) (name o printed : List ℕ) (k : ℕ)
        (v : AbstractValue) →
        IsMessageOf p s name o v →
        IsReadAs p s r name o printed k →
        IsAnswer p s name printed k v }
    // By the basic rules no encoding of a value has a fault except `Memory`.
    ensures not_refused { (p : Program) (s : List Resolved) (name o : List ℕ) (v : AbstractValue) (e : Fault) →
        IsMessageOf p s name o v →
        IsNotReadAs p s Basic name o e →
        e ≡ Memory }
    // By the distinguished rules the DER encoding of a value has no fault except `Memory`.
    ensures not_refused_strictly { (xs : List (List ℕ)) (p : Program) (s : List Resolved) (name o : List ℕ)
        (v : AbstractValue) (e : Fault) →
        Accepted xs p s →
        (m : IsMessageOf p s name o v) →
        Der s m.type v 0 o →
        IsNotReadAs p s Distinguished name o e →
        e ≡ Memory }
    // The octets that are written for a value are such an encoding of it, and have no fault by either rules except
    // `Memory`.
    ensures written { (xs : List (List ℕ)) (p : Program) (s : List Resolved) (first : List ℕ) (second : Given)
        (o : List ℕ) (a : Account) →
        Accepted xs p s →
        (w : IsEncoded p s first second o a) →
        IsMessageOf p s first o w.value }
    ensures read_back { (xs : List (List ℕ)) (p : Program) (s : List Resolved) (first : List ℕ) (second : Given)
        (o : List ℕ) (a : Account)
        (r : Rules') (e : Fault) →
        Accepted xs p s →
        IsEncoded p s first second o a →
        IsNotReadAs p s (rules_of r) first o e →
        e ≡ Memory }
{
    der_laws();
    level_laws();
    message_laws();
    lemma_sameness();
}

/// What [`crate::Kit::unper`] returns for texts that [`crate::Kit::open`] took is right. What [`crate::Kit::uper`]
/// returns gives its value back, or `Memory`.
pub fn unpacked()
    // The printed text is a value of the type that the octets are a message of, and the only one.
    ensures right { (xs : List (List ℕ)) (p : Program) (s : List Resolved) (name o printed : List ℕ) (k : ℕ) →
        Accepted xs p s →
        IsUnpackedAs p s name o printed k →
        IsRightlyUnpacked xs name o printed k }
    // One message has one printed value at most, and one number of skipped additions.
    ensures one { (p : Program) (s : List Resolved) (name o printed again : List ℕ) (k j : ℕ) →
        IsUnpackedAs p s name o printed k →
        IsUnpackedAs p s name o again j →
        (printed ≡ again) × (k ≡ j) }
    // For the message that is written of a value, the printed text is that value, and no additions were skipped.
    ensures answered { (p : Program) (s : List Resolved) (first : List ℕ) (second : Given) (o printed : List ℕ) (k : ℕ)
        (w : IsPacked p s first second o) →
        IsUnpackedAs p s first o printed k →
        IsAnswer p s first printed k w.value }
    // It has no fault except `Memory`.
    ensures read_back { (p : Program) (s : List Resolved) (first : List ℕ) (second : Given) (o : List ℕ) (e : Fault) →
        IsPacked p s first second o →
        IsNotUnpackedAs p s first o e →
        e ≡ Memory }
{
    written_is_read();
}

/// What [`crate::Kit::ber`] and [`crate::Kit::unper`] print is value notation (X.680, clause 17). Read in any module,
/// the printed text means the value that the octets encode, and no other. The exceptions are a text of more than
/// 16,777,216 octets, and a value with a line end in one of its texts.
pub fn printed()
    ensures read { (xs : List (List ℕ)) (p : Program) (s : List Resolved) (r : Rules) (name o printed : List ℕ) (k : ℕ)
        (M : Name) →
        Accepted xs p s →
        (w : IsReadAs p s r name o printed k) →
        HasNoLineEnd w.read.value →
        IsUtf8 printed →
        length printed ≤ 16777216 →
        IsReadBack p (Allows p) (AllowsCode p) M w.type printed w.read.value }
    ensures unpacked { (xs : List (List ℕ)) (p : Program) (s : List Resolved) (name o printed : List ℕ) (k : ℕ)
        (M : Name) →
        Accepted xs p s →
        (w : IsUnpackedAs p s name o printed k) →
        HasNoLineEnd w.read.value →
        IsUtf8 printed →
        length printed ≤ 16777216 →
        IsReadBack p (Allows p) (AllowsCode p) M w.type printed w.read.value }
{
    lemma_accepted_checked();
    message_laws();
    lemma_printed_is_read_back();
}

/// What [`crate::Kit::ber`] and [`crate::Kit::unper`] print can be given as a text in place of the name of a value.
/// Under the same name of a type it means the value that the octets encode. The exceptions are those of [`printed`].
pub fn given_back()
    ensures read { (xs : List (List ℕ)) (p : Program) (s : List Resolved) (r : Rules) (name o printed : List ℕ)
        (k : ℕ) →
        Accepted xs p s →
        (w : IsReadAs p s r name o printed k) →
        HasNoLineEnd w.read.value →
        IsUtf8 printed →
        length printed ≤ 16777216 →
        IsMeant p name (written printed) w.type w.read.value }
    ensures unpacked { (xs : List (List ℕ)) (p : Program) (s : List Resolved) (name o printed : List ℕ) (k : ℕ) →
        Accepted xs p s →
        (w : IsUnpackedAs p s name o printed k) →
        HasNoLineEnd w.read.value →
        IsUtf8 printed →
        length printed ≤ 16777216 →
        IsMeant p name (written printed) w.type w.read.value }
{
    printed();
    lemma_read_is_notation();
}

/// The whole promise for one value, of texts that [`crate::Kit::open`] took. What [`crate::Kit::der`] and
/// [`crate::Kit::uper`] return for it is right, and [`judging::judge`] accepts it. [`crate::Kit::ber`] and
/// [`crate::Kit::unper`] give the value back.
pub fn whole()
    ensures { (xs : List (List ℕ)) (p : Program) (s : List Resolved) (first : List ℕ) (second : Given) (o b : List ℕ)
        (a : Account) →
        Accepted xs p s →
        (w : IsEncoded p s first second o a) →
        (q : IsPacked p s first second b) →
        IsWhole xs p s first second o b a w.value q.value }
{
    headline();
    judged();
    reading();
    packed();
    unpacked();
    one_answer();
    one_meaning();
    lemma_accepted_checked();
}

/// What [`crate::Kit::der`] returns for one version of a type is decoded by [`crate::Kit::ber`] of another version, if
/// [`crate::Kit::later`] says yes of both.
pub fn versions()
    // The older version prints what it keeps of the value, and skips the additions that it leaves out. The exception is
    // a value with an alternative or an item that the older version doesn't know.
    ensures older { (xs ys : List (List ℕ)) (p q : Program) (s r : List Resolved) (name : List ℕ) (second : Given)
        (o printed : List ℕ)
        (a : Account) (k : ℕ) →
        Accepted xs p s →
        Accepted ys q r →
        (c : IsCompared p s q r name true) →
        (w : IsEncoded q r name second o a) →
        AllBelowBase 256 o →
        IsKnown s c.older w.value →
        IsReadAs p s Basic name o printed k →
        IsKeptAnswer p s name printed k w.value }
    // It has no fault except `Memory`.
    ensures older_reads { (xs ys : List (List ℕ)) (p q : Program) (s r : List Resolved) (name : List ℕ) (second : Given)
        (o : List ℕ)
        (a : Account) (e : Fault) →
        Accepted xs p s →
        Accepted ys q r →
        (c : IsCompared p s q r name true) →
        (w : IsEncoded q r name second o a) →
        AllBelowBase 256 o →
        IsKnown s c.older w.value →
        IsNotReadAs p s Basic name o e →
        e ≡ Memory }
    // The newer version prints the value with what was appended absent, by either rules, and skips nothing.
    ensures newer { (xs ys : List (List ℕ)) (p q : Program) (s r : List Resolved) (name : List ℕ) (second : Given)
        (o printed : List ℕ)
        (a : Account) (k : ℕ) (l : Rules') →
        Accepted xs p s →
        Accepted ys q r →
        IsCompared p s q r name true →
        (w : IsEncoded p s name second o a) →
        IsReadAs q r (rules_of l) name o printed k →
        IsWidenedAnswer q r name printed k w.value }
    // It has no fault except `Memory`.
    ensures newer_reads { (xs ys : List (List ℕ)) (p q : Program) (s r : List Resolved) (name : List ℕ) (second : Given)
        (o : List ℕ)
        (a : Account) (e : Fault) (l : Rules') →
        Accepted xs p s →
        Accepted ys q r →
        IsCompared p s q r name true →
        IsEncoded p s name second o a →
        IsNotReadAs q r (rules_of l) name o e →
        e ≡ Memory }
{
    lemma_earlier_reads();
    lemma_later_reads();
}

/// What [`crate::Kit::uper`] returns for one version of a type is decoded by [`crate::Kit::unper`] of another version,
/// if [`crate::Kit::later`] says yes of both.
pub fn packed_versions()
    // The older version prints what it keeps of the value, and skips the additions that it leaves out. The exception is
    // a value with an alternative or an item that the older version doesn't know.
    ensures older { (xs ys : List (List ℕ)) (p q : Program) (s r : List Resolved) (name : List ℕ) (second : Given)
        (o printed : List ℕ)
        (k : ℕ) →
        Accepted xs p s →
        Accepted ys q r →
        (c : IsCompared p s q r name true) →
        (w : IsPacked q r name second o) →
        IsKnown s c.older w.value →
        IsUnpackedAs p s name o printed k →
        IsPackedKeptAnswer p s r c.newer name printed k w.value }
    // It has no fault except `Memory`.
    ensures older_reads { (xs ys : List (List ℕ)) (p q : Program) (s r : List Resolved) (name : List ℕ) (second : Given)
        (o : List ℕ)
        (e : Fault) →
        Accepted xs p s →
        Accepted ys q r →
        (c : IsCompared p s q r name true) →
        (w : IsPacked q r name second o) →
        IsKnown s c.older w.value →
        IsNotUnpackedAs p s name o e →
        e ≡ Memory }
    // The newer version prints the value with what was appended absent, and skips nothing.
    ensures newer { (xs ys : List (List ℕ)) (p q : Program) (s r : List Resolved) (name : List ℕ) (second : Given)
        (o printed : List ℕ)
        (k : ℕ) →
        Accepted xs p s →
        Accepted ys q r →
        IsCompared p s q r name true →
        (w : IsPacked p s name second o) →
        IsUnpackedAs q r name o printed k →
        IsWidenedAnswer q r name printed k w.value }
    // It has no fault except `Memory`.
    ensures newer_reads { (xs ys : List (List ℕ)) (p q : Program) (s r : List Resolved) (name : List ℕ) (second : Given)
        (o : List ℕ)
        (e : Fault) →
        Accepted xs p s →
        Accepted ys q r →
        IsCompared p s q r name true →
        IsPacked p s name second o →
        IsNotUnpackedAs q r name o e →
        e ≡ Memory }
{
    lemma_earlier_reads_packed();
    lemma_later_reads_packed();
}

/// Whatever has a result has no fault except `Memory`.
pub fn one_answer()
    // Accepted texts have no fault.
    ensures opened { (xs : List (List ℕ)) (p : Program) (e : Fault) →
        AreAccepted xs p →
        IsNotOpened xs e →
        e ≡ Memory }
    // If there is an encoding, the texts mean a value of the type, and its encoding isn't too long.
    ensures written { (xs : List (List ℕ)) (p : Program) (s : List Resolved) (first : List ℕ) (second : Given)
        (o : List ℕ) (a : Account)
        (e : Fault) →
        Accepted xs p s →
        IsEncoded p s first second o a →
        IsNotEncoded p s first second e →
        e ≡ Memory }
    // If a value is packed, it is one of the type, and its bits are not too long.
    ensures packed { (xs : List (List ℕ)) (p : Program) (s : List Resolved) (first : List ℕ) (second : Given)
        (o : List ℕ) (e : Fault) →
        Accepted xs p s →
        IsPacked p s first second o →
        IsNotPacked p s first second e →
        e ≡ Memory }
    // If bits are read, the octets are a message of a value.
    ensures unpacked { (p : Program) (s : List Resolved) (name o printed : List ℕ) (k : ℕ) (e : Fault) →
        IsUnpackedAs p s name o printed k →
        IsNotUnpackedAs p s name o e →
        e ≡ Memory }
    // If a value is read, the octets encode a value by the rules.
    ensures read { (p : Program) (s : List Resolved) (r : Rules) (name o printed : List ℕ) (k : ℕ) (e : Fault) →
        IsReadAs p s r name o printed k →
        IsNotReadAs p s r name o e →
        e ≡ Memory }
{
    lemma_faults_exclude();
    lemma_accepted_checked();
    one_meaning();
}

/// `NoType` and a fault of the octets are never both true: the name of the type is checked first. The order of the
/// faults of names is a law of [`named_values::law`].
pub fn one_refusal()
    ensures octets { (p : Program) (s : List Resolved) (r : Rules) (name o : List ℕ) (x : String Global)
        (u : DecodeError') →
        IsNotReadAs p s r name o (NoType x) →
        IsNotReadAs p s r name o (DecodeError u) →
        ⊥ }
    ensures bits { (p : Program) (s : List Resolved) (name o : List ℕ) (x : String Global) (u : BitDecodeError') →
        IsNotUnpackedAs p s name o (NoType x) →
        IsNotUnpackedAs p s name o (BitDecodeError u) →
        ⊥ }
    ensures length { (p : Program) (s : List Resolved) (name o : List ℕ) (x : String Global) →
        IsNotUnpackedAs p s name o (NoType x) →
        IsNotUnpackedAs p s name o MessageLimit →
        ⊥ }
    // Octets are too many, or have a fault at a bit, but not both.
    ensures limit { (p : Program) (s : List Resolved) (name o : List ℕ) (u : BitDecodeError') →
        IsNotUnpackedAs p s name o MessageLimit →
        IsNotUnpackedAs p s name o (BitDecodeError u) →
        ⊥ }
{}

/// Octets are shown as accepted by [`crate::Kit::show`] exactly if [`crate::Kit::ber`] reads them by the basic rules.
pub fn shown_as_read()
    ensures accepted { (p : Program) (s : List Resolved) (name o printed : List ℕ) (k : ℕ) (l : Listing) →
        IsReadAs p s Basic name o printed k →
        IsShownAs p s name o l →
        l.refusal ≡ None }
    ensures refused { (p : Program) (s : List Resolved) (name o : List ℕ) (u : DecodeError') (l : Listing) →
        IsNotReadAs p s Basic name o (DecodeError u) →
        IsShownAs p s name o l →
        IsSome l.refusal }
{}
