//! Modules that are ready for use.

ghost use Rattle.std.specs.Prelude.{◌≡◌, ◌<◌, ◌⊎◌, ℕ, List, [], length, map, string_bytes};
ghost use Rattle.std.specs.Prelude.{Err, IfOk, IfErr, IfSome, IsErrOf, MatchOption, MatchResult};
ghost use Rattle.asn_base.specs.Abstract.{abstract};
ghost use Rattle.asn_base.specs.Typed.{IsValue};
ghost use Rattle.decode_faults.specs.declared.read_fault.ReadFault.TheVariants.{Memory as no_room};
ghost use Rattle.decode_faults.specs.declared.read_fault.ReadFault.TheVariants.{MessageLimit as too_many_octets};
ghost use Rattle.decode_faults.specs.declared.read_fault.ReadFault.TheVariants.{NotDer as not_strict};
ghost use Rattle.der_writer.specs.Encoded.{IsEncoding, Went, WentInPart};
ghost use Rattle.der_writer.specs.declared.fault.WriteFault.TheVariants.{NotOfType, TooLong};
ghost use Rattle.der_writer.specs.declared.fault.WriteFault.TheVariants.{Device as write_stopped};
ghost use Rattle.der_writer.specs.declared.fault.WriteFault.TheVariants.{Memory as not_written};
ghost use Rattle.encodings.specs.Account.{Describes};
ghost use Rattle.encodings.specs.Encoding.{Der};
ghost use Rattle.packed_encodings.specs.Weights.{weight};
ghost use Rattle.packed_reader.specs.declared.fault.PerFault.TheVariants.{MessageLimit};
ghost use Rattle.packed_writer.specs.Message.{IsMessage, IsTooLong};
ghost use Rattle.packed_writer.specs.declared.fault.WriteFault.TheVariants.{NotOfType as not_packed};
ghost use Rattle.packed_writer.specs.declared.fault.WriteFault.TheVariants.{TooLong as too_many_bits};
ghost use Rattle.value_text.specs.Print.{print};
ghost use Rattle.value_text.specs.declared.print_fault.Fault.TheVariants.{NotOfType as not_printed};
ghost use Rattle.views.specs.Tree.{value_of};
ghost use Rattle.resolve.specs.Program.{Program};
ghost use Rattle.judging.specs.front_end.Accepted.{Accepted, AreAccepted, HasTypes, octets_of};
ghost use Rattle.judging.specs.front_end.Faults.{IsRightCompileError};
ghost use Rattle.judging.specs.front_end.declared.fault.CompileError.TheVariants.{Memory as no_memory};
ghost use Rattle.sinks.specs.Sent.{state};
ghost use Rattle.type_listing.specs.Listing.{IsTypeListing};
ghost use Rattle.judging.specs.messages.declared.fault.Fault.TheVariants.{Device, Front, Memory};
ghost use Rattle.asnc.specs.Differences.{AreCompared};
ghost use Rattle.asnc.specs.ErrorSites.{IsErrorSite};
ghost use Rattle.asnc.specs.Kits.{IsNotOpened};
ghost use Rattle.asnc.specs.Packing.{IsNotPacked, IsPacked};
ghost use Rattle.asnc.specs.Reading.{HasBrokenRule, IsNotDer, IsNotReadAs, IsReadAs, IsReadBy, IsReadFault, rules_of};
ghost use Rattle.asnc.specs.Showing.{IsNotShownAs, IsShownAs};
ghost use Rattle.asnc.specs.Unpacking.{IsNotUnpackedAs, IsNotUnpackedBy, IsUnpackedAs, IsUnpackedBy, with_parts};
ghost use Rattle.asnc.specs.Versions.{IsCompared, IsNotCompared};
ghost use Rattle.asnc.specs.Writing.{IsAccountOf, IsEncoded, IsNotEncoded, IsSent, IsSentInPart};
ghost use Rattle.judging.specs.named_values.Given.{as_given};
ghost use Rattle.judging.specs.named_values.Meant.{IsMeant, IsNotMeant};
ghost use Rattle.judging.specs.named_values.Named.{Names, TypeNamed};

use crate::kit_types::{KitType, KitTypes};
use crate::reading::{Rules, locate_fault, read_as, read_by};
use crate::showing::{Listing, shown_as};
use crate::unpacking::{PackedTypes, locate_bit_fault, unpacked, unpacked_as};
use crate::view_text::print_view;
use account_text::to_json;
use asn_base::schema::{Schema, TypeId};
use asn_base::value::Value;
use ber_reader::Read;
use codec_code::{Code, compile};
use decode_faults::ReadFault;
use der_writer::{WriteFault, write_der, write_der_to};
use judging::front_end::law::lemma_values_of_schema;
use judging::front_end::{CompileError, Modules};
use judging::messages::{BitDecodeError, DecodeError, Fault};
use judging::named_values::{ValueGiven, meant, type_number};
use later_versions::{Explained, explain, later};
use octet_account::account::Account;
use packed_code::{PackedCode, compile_packed};
use packed_reader::{PerFault, RefusedBits};
use packed_writer::write_uper;
use sinks::Sink;
use std::alloc::{AllocError, Global};
use std::marker::Model;
use type_listing::list;
use views::View;

/// Accepted modules: their names with their meanings, and the codec programs of their types.
pub struct Kit {
    modules: Modules,
    schema: Schema,
    code: Code,
    packed: PackedCode,
}

impl Model for Kit {
    ghost use Rattle.std.specs.Coded.{codes};
    ghost use Rattle.asn_base.specs.Codes.{abstract_value_code};
    ghost use Rattle.resolve.specs.Codes.{tree_code};
    ghost use Rattle.asnc.specs.Kits.{Opened};

    ghost Value = { Opened };

    ghost coded = { Prim.hlevel (codes, tree_code, abstract_value_code) };

    ghost view = { λ k. record { program = k.modules; types = k.code } };

    ghost use Rattle.std.specs.Prelude.{◌≡◌};
    ghost use Rattle.judging.specs.front_end.Accepted.{HasTypes};

    ghost invariant = { λ k. HasTypes k.modules k.code × (k.schema ≡ k.code) × (k.packed ≡ k.code) };
}

/// A fault of texts, as a user sees it.
fn refusal(fault: CompileError) -> Fault
    ensures valid { (xs : List (List ℕ)) → IsRightCompileError xs fault → IsNotOpened xs result }
    ensures memory { fault ≡ no_memory → result ≡ Memory }
    // No fault except `Memory` becomes `Memory`.
    ensures reported { (fault ≡ no_memory → ⊥) → result ≡ Front fault }
{
    match &fault {
        CompileError::Memory => Fault::Memory,
        _ => Fault::Front(fault),
    }
}

/// The kit of modules that were accepted, with these types. The levels of their DEFAULTs are found here, once.
fn kit_of(alloc: Global, modules: Modules, mut schema: Schema) -> Result<Kit, Fault>
    requires { HasTypes modules schema }
    ensures program { IfOk result (λ k. k.program ≡ modules) }
    ensures types { IfOk result (λ k. k.types ≡ schema) }
    ensures memory { IfErr result (λ e. e ≡ Memory) }
{
    match schema.cache_default_depths(alloc) {
        Ok(()) => {}
        Err(_) => return Err(Fault::Memory),
    }
    let code = match compile(alloc, &schema) {
        Ok(code) => code,
        Err(codec_code::Fault::Memory) => return Err(Fault::Memory),
    };
    let packed = match compile_packed(alloc, &schema) {
        Ok(packed) => packed,
        Err(_) => return Err(Fault::Memory),
    };
    Ok(Kit {
        modules,
        schema,
        code,
        packed,
    })
}

impl Kit {
    /// Reads the texts of modules, links them, and compiles their types. An empty list of texts is accepted too; its
    /// kit has no names.
    ///
    /// The error is the first fault. For each text in turn the faults of its octets come first, and then those of its
    /// tokens. The faults of names, of tags and of constraints follow. Last come those of additions after extension
    /// markers, of DEFAULTs and of value assignments. `Memory`: an allocation failed.
    pub fn open(alloc: Global, texts: &[Vec<u8>]) -> Result<Kit, Fault>
        // The texts are accepted, as this program with these types.
        ensures opened { IfOk result (λ k. Accepted (map octets_of texts.now) k.program k.types) }
        // Accepted texts are opened, as the program that they are, unless an allocation fails.
        ensures only { (p : Program) →
            AreAccepted (map octets_of texts.now) p →
            MatchResult result (λ k. k.program ≡ p) (λ e. e ≡ Memory) }
        // A fault is true, and is the first one in reading order.
        ensures fault { IfErr result (IsNotOpened (map octets_of texts.now)) }
    {
        match judging::front_end::open(alloc, texts) {
            Ok(front) => kit_of(alloc, front.modules, front.schema),
            Err(fault) => Err(refusal(fault)),
        }
    }

    /// The schema has the types of the program.
    fn settled(&self)
        ensures { HasTypes self.now.program self.now.types }
    {
        let _code = &self.code;
    }

    /// Returns the type of a name, and the value that the notation of a value that is given means under this type
    /// (X.680, clause 17). The type is named as `Module.Name`, by the module that assigns or imports the name. The
    /// value is given by such a name, or by a text that is a notation. The names in this text are read in the module
    /// that the name of the type begins with.
    ///
    /// The error is the first fault, in this order. `NoType`: the name of the type is that of none. `NoValue`: the name
    /// of the value is that of none. `Notation`: the text of a notation has a fault at a place in it: its octets aren't
    /// those of tokens, its tokens aren't those of one value, or it means no value of the type. `Value`: the value's
    /// notation means no value of the type, and the place is in the text of a module. `Memory`: an allocation failed.
    pub fn value_of(
        &self,
        alloc: Global,
        ty: &str,
        value: ValueGiven<'_>,
    ) -> Result<(TypeId, Value), Fault>
        // The type has this name, and this is the value that is meant.
        ensures meant { IfOk result
            (λ r. IsMeant self.now.program ty.now (as_given value.entry) r.0.index (abstract r.1)) }
        // It is a value of the type, as the other calls require.
        ensures is { IfOk result (λ r. IsValue self.now.types r.0.index (abstract r.1)) }
        // A fault is true.
        ensures refused { IfErr result (IsNotMeant self.now.program ty.now (as_given value.entry)) }
    {
        lemma_values_of_schema();
        self.modules.lemma_kept();
        meant(alloc, &self.modules, ty, value)
    }

    /// Returns the octets that encode a value of a type by the distinguished rules, and the account of these octets.
    /// The type is named and the value is given as for [`Kit::value_of`]. The value's notation is read under this type,
    /// whatever type a named value is assigned with.
    ///
    /// `NoType`, `NoValue`, `Notation` and `Value` come as for [`Kit::value_of`]. `TooLong`: the encoding has more than
    /// 16,777,216 octets. `Memory`: an allocation failed.
    pub fn der(
        &self,
        alloc: Global,
        ty: &str,
        value: ValueGiven<'_>,
    ) -> Result<(Vec<u8>, Account), Fault>
        // The octets are the only DER encoding of what the value's notation means under the type. The account is that
        // of the octets.
        ensures encoded { IfOk result (λ r.
            IsEncoded self.now.program self.now.types ty.now (as_given value.entry) r.0.items r.1) }
        // A fault is true.
        ensures refused { IfErr result (IsNotEncoded self.now.program self.now.types ty.now (as_given value.entry)) }
    {
        let (id, typed) = match self.value_of(alloc, ty, value) {
            Ok(found) => found,
            Err(fault) => return Err(fault),
        };
        match write_der(alloc, &self.code, id, &typed) {
            Ok(written) => Ok(written),
            Err(WriteFault::Memory) => Err(Fault::Memory),
            Err(WriteFault::TooLong) => Err(Fault::TooLong),
            Err(_) => unreachable!(),
        }
    }

    /// Returns the text of the account that [`Kit::der`] returns, in JSON without white space.
    ///
    /// The faults come as for [`Kit::der`].
    pub fn account(&self, alloc: Global, ty: &str, value: ValueGiven<'_>) -> Result<String, Fault>
        // The text is that of the account of the only DER encoding.
        ensures reported { IfOk result (λ s.
            IsAccountOf self.now.program self.now.types ty.now (as_given value.entry) (string_bytes s)) }
        // A fault is true.
        ensures refused { IfErr result (IsNotEncoded self.now.program self.now.types ty.now (as_given value.entry)) }
    {
        let (_octets, account) = match self.der(alloc, ty, value) {
            Ok(written) => written,
            Err(fault) => return Err(fault),
        };
        match to_json(alloc, &account) {
            Ok(text) => Ok(text),
            Err(_) => Err(Fault::Memory),
        }
    }

    /// Writes the octets that [`Kit::der`] returns to a sink, in order, in as many calls as the sink needs, and returns
    /// their account.
    ///
    /// The faults of [`Kit::der`] come before the first octet. `Device`: one call of the sink failed, which isn't
    /// tried again; the fault has the number of octets that went out before.
    pub fn der_to<S: Sink>(
        &self,
        alloc: Global,
        ty: &str,
        value: ValueGiven<'_>,
        sink: &mut S,
    ) -> Result<Account, Fault>
        requires room { S.failed sink.old < u64.MAX }
        // The sink took exactly the only DER encoding, and no call failed. The account is that of the encoding.
        ensures sent { IfOk result (IsSent self.now.program self.now.types ty.now (as_given value.entry)
            (state (S.taken sink.old) (S.failed sink.old))
            (state (S.taken sink.new) (S.failed sink.new))) }
        // The sink took exactly the first n octets of the encoding, fewer than there are, and one call failed.
        ensures device { IfErr result (λ e. (n : ℕ) →
            e ≡ Device n →
            IsSentInPart self.now.program self.now.types ty.now (as_given value.entry)
            (state (S.taken sink.old) (S.failed sink.old))
            (state (S.taken sink.new) (S.failed sink.new))
            n) }
        // Any other fault is true, as one of `der`, and no octet went out.
        ensures refused { IfErr result (λ e.
            ((n : ℕ) → e ≡ Device n → ⊥) →
            IsNotEncoded self.now.program self.now.types ty.now (as_given value.entry) e × (sink.new ≡ sink.old)) }
    {
        let (id, typed) = match self.value_of(alloc, ty, value) {
            Ok(found) => found,
            Err(fault) => return Err(fault),
        };
        match write_der_to(alloc, &self.code, id, &typed, sink) {
            Ok(account) => Ok(account),
            Err(WriteFault::Memory) => Err(Fault::Memory),
            Err(WriteFault::TooLong) => Err(Fault::TooLong),
            Err(WriteFault::Device(count)) => Err(Fault::Device(count)),
            Err(WriteFault::NotOfType) => unreachable!(),
        }
    }

    /// Encodes a value of a type in canonical PER, unaligned: its bits, filled to octets (X.691, 11.1). The type is
    /// named and the value is given as for [`Kit::value_of`], and the value's notation is read under this type.
    ///
    /// `NoType`, `NoValue`, `Notation` and `Value` come as for [`Kit::value_of`]. `TooLong`: there are more than
    /// 16,777,216 octets, or the value's nodes and the octets of its character strings are together more than that.
    /// `Memory`: an allocation failed.
    pub fn uper(&self, alloc: Global, ty: &str, value: ValueGiven<'_>) -> Result<Vec<u8>, Fault>
        // The octets are the bits of the value that the notation stands for under the type, and no others are.
        ensures packed { IfOk result (λ o.
            IsPacked self.now.program self.now.types ty.now (as_given value.entry) o.items) }
        // The reason of a refusal applies.
        ensures refused { IfErr result (IsNotPacked self.now.program self.now.types ty.now (as_given value.entry)) }
    {
        let (id, typed) = match self.value_of(alloc, ty, value) {
            Ok(found) => found,
            Err(fault) => return Err(fault),
        };
        match write_uper(alloc, &self.packed, id, &typed) {
            Ok(octets) => Ok(octets),
            Err(packed_writer::WriteFault::Memory) => Err(Fault::Memory),
            Err(packed_writer::WriteFault::TooLong) => Err(Fault::TooLong),
            Err(packed_writer::WriteFault::NotOfType) => unreachable!(),
        }
    }

    /// Decodes the value of a type that octets encode by the basic or by the distinguished rules. Returns its printed
    /// text, and the number of skipped additions that the type lacks. The type is named as `Module.Name`, by the module
    /// that assigns or imports it.
    ///
    /// `NoType`: the name is not that of a type. `DecodeError`: the octets encode no value of the type by the rules,
    /// with at most 400 levels of headers, or there are more than 16,777,216. `Memory`: an allocation failed.
    pub fn ber(
        &self,
        alloc: Global,
        ty: &str,
        octets: &[u8],
        rules: Rules,
    ) -> Result<(String, u64), Fault>
        // The octets encode exactly one value of the type by the rules, with one number of unknown additions. The value
        // is printed, and the number is the second result.
        ensures read { IfOk result (λ r.
            IsReadAs self.now.program self.now.types (rules_of rules) ty.now octets.now (string_bytes r.0) r.1) }
        // A fault is true.
        ensures refused { IfErr result
            (IsNotReadAs self.now.program self.now.types (rules_of rules) ty.now octets.now) }
    {
        let types = KitTypes {
            modules: &self.modules,
            schema: &self.schema,
            code: &self.code,
        };
        read_as(alloc, types, ty, octets, rules)
    }

    /// Lists the headers of a message, with what each is in the terms of the type, and says whether [`Kit::ber`]
    /// accepts the message by the basic rules. The type is named as for [`Kit::ber`]. If the octets are refused, those
    /// headers are listed that are before the octet of the refusal.
    ///
    /// A line has the offset of a header, from 0, and its identifier octets and its length octets in hexadecimal
    /// (X.690, 8.1.2 and 8.1.3). Its margin has two spaces for each encoding around the header, for ten at most, and
    /// then the number of the others, as `+1 `. After that come the name of the component or alternative or the index
    /// of the element, the name and the kind of the type, and the value of what is primitive. A value is cut off after
    /// 60 characters, and a name after 28. The lines have at most 64 octets for each octet of the message.
    ///
    /// `NoType`: the name is not that of a type. `Memory`: an allocation failed.
    pub fn show(&self, alloc: Global, ty: &str, octets: &[u8]) -> Result<Listing, Fault>
        // The lines are those of the headers, and the refusal is that of the octets.
        ensures shown { IfOk result (IsShownAs self.now.program self.now.types ty.now octets.now) }
        // A fault is true.
        ensures refused { IfErr result (IsNotShownAs self.now.program ty.now) }
    {
        let types = KitTypes {
            modules: &self.modules,
            schema: &self.schema,
            code: &self.code,
        };
        shown_as(alloc, types, ty, octets)
    }

    /// Decodes the value of a type that octets are a message of in canonical PER, unaligned (X.691, 11.1). Returns its
    /// printed text, and the number of skipped additions that the type lacks. The type is named as for [`Kit::ber`].
    ///
    /// `NoType`: the name is not that of a type. `BitDecodeError`: the octets are a message of no value of the type;
    /// its first fault has its bit and its path. `MessageLimit`: there are more than 16,777,216 octets. `Memory`: an
    /// allocation failed.
    pub fn unper(&self, alloc: Global, ty: &str, octets: &[u8]) -> Result<(String, u64), Fault>
        // The octets are a message of exactly one value of the type, with one number of unknown additions. The value is
        // printed, and the number is the second result.
        ensures read { IfOk result (λ r.
            IsUnpackedAs self.now.program self.now.types ty.now octets.now (string_bytes r.0) r.1) }
        // The reason of a refusal applies.
        ensures refused { IfErr result (IsNotUnpackedAs self.now.program self.now.types ty.now octets.now) }
    {
        let types = PackedTypes {
            modules: &self.modules,
            schema: &self.schema,
            code: &self.packed,
        };
        unpacked_as(alloc, types, ty, octets)
    }

    /// Finds the type of a name, written as `Module.Name`, by the module that assigns or imports it (X.680, clause
    /// 14.1). The result is None if no type has this name. The number is that of the type for the other calls of this
    /// kit.
    pub fn type_named(&self, name: &str) -> Option<TypeId>
        // The type has this name. After None the kit has no type of this name.
        ensures named { MatchOption result
            ((t : ℕ) → TypeNamed self.now.program name.now t → ⊥)
            (λ id. TypeNamed self.now.program name.now id.index) }
        // No other type has the name.
        ensures only { IfSome result (λ id. Names self.now.program name.now id.index) }
    {
        type_number(&self.modules, name)
    }

    /// The types of the kit's modules. Values are made and looked into by names with them. The numbers of types are
    /// those that [`Kit::type_named`] finds.
    pub fn schema(&self) -> &Schema
        ensures { result.now ≡ self.now.types }
    {
        &self.schema
    }

    /// Encodes a value that a program has made, by the distinguished rules (X.690, clauses 8, 10 and 11), and returns
    /// the octets with their account.
    ///
    /// `NotOfType`: the value is not one of the type, or the kit has no such type. `TooLong`: the encoding has more
    /// than 16,777,216 octets. `Memory`: an allocation failed.
    pub fn encode(
        &self,
        alloc: Global,
        id: TypeId,
        value: &Value,
    ) -> Result<(Vec<u8>, Account), WriteFault>
        // The octets are the value's one encoding, and no encoding by the basic rules is shorter.
        ensures encoding { IfOk result (λ w. IsEncoding self.now.types id.index (abstract value.now) w.0.items) }
        // The account describes them.
        ensures account { IfOk result (λ w. Describes self.now.types id.index (abstract value.now) w.0.items w.1) }
        // `NotOfType` if and only if the value is not one of the type.
        ensures not_of_type { IfErr result (λ e. e ≡ NotOfType
            → IsValue self.now.types id.index (abstract value.now)
            → ⊥) }
        ensures no_value { (IsValue self.now.types id.index (abstract value.now) → ⊥) → result ≡ Err NotOfType }
        // `TooLong` only if each encoding by the distinguished rules is too long.
        ensures longer { IfErr result (λ e. e ≡ TooLong → (o : List ℕ)
            → Der self.now.types id.index (abstract value.now) 0 o
            → 16777216 < length o) }
        // `Device` never comes: there is no sink.
        ensures no_device { IfErr result (λ e. (n : ℕ) → e ≡ write_stopped n → ⊥) }
    {
        write_der(alloc, &self.code, id, value)
    }

    /// Encodes a value that a program has made, as [`Kit::encode`] does, and writes the octets to a sink, in order.
    /// Returns their account, whose first row gives their number.
    ///
    /// `NotOfType`, `TooLong` and `Memory` come as for [`Kit::encode`], before the first octet. `Device`: one call of
    /// the sink failed, which isn't tried again; the fault has the number of octets that went out before.
    pub fn encode_to<S: Sink>(
        &self,
        alloc: Global,
        id: TypeId,
        value: &Value,
        sink: &mut S,
    ) -> Result<Account, WriteFault>
        requires room { S.failed sink.old < u64.MAX }
        // The sink took exactly the value's one encoding, and no call failed. The account is that of the encoding.
        ensures sent { IfOk result (λ account. Went self.now.types id.index (abstract value.now)
            (state (S.taken sink.old) (S.failed sink.old))
            (state (S.taken sink.new) (S.failed sink.new))
            account) }
        // The sink took exactly the first n octets of the encoding, fewer than there are, and one call failed.
        ensures device { IfErr result (λ e. (n : ℕ) →
            e ≡ write_stopped n →
            WentInPart self.now.types id.index (abstract value.now)
            (state (S.taken sink.old) (S.failed sink.old))
            (state (S.taken sink.new) (S.failed sink.new))
            n) }
        // After any other fault no octet went out.
        ensures refused { IfErr result (λ e. (e ≡ not_written) ⊎ ((e ≡ NotOfType) ⊎ (e ≡ TooLong))
            → sink.new ≡ sink.old) }
        // `NotOfType` if and only if the value is not one of the type.
        ensures not_of_type { IfErr result (λ e. e ≡ NotOfType
            → IsValue self.now.types id.index (abstract value.now)
            → ⊥) }
        ensures no_value { (IsValue self.now.types id.index (abstract value.now) → ⊥) → result ≡ Err NotOfType }
        // `TooLong` only if each encoding by the distinguished rules is too long.
        ensures longer { IfErr result (λ e. e ≡ TooLong → (o : List ℕ)
            → Der self.now.types id.index (abstract value.now) 0 o
            → 16777216 < length o) }
    {
        write_der_to(alloc, &self.code, id, value, sink)
    }

    /// Encodes a value that a program has made, in canonical PER, unaligned: its bits, filled to octets (X.691, 11.1).
    ///
    /// `NotOfType`: the value is not one of the type, or the kit has no such type. `TooLong`: there are more than
    /// 16,777,216 octets, or the value's nodes and the octets of its character strings are together more than that.
    /// `Memory`: an allocation failed.
    pub fn pack(
        &self,
        alloc: Global,
        id: TypeId,
        value: &Value,
    ) -> Result<Vec<u8>, packed_writer::WriteFault>
        // The octets are the value's one message.
        ensures message { IfOk result (λ o. IsMessage self.now.types id.index (abstract value.now) o.items) }
        // `NotOfType` if and only if the value is not one of the type.
        ensures not_of_type { IfErr result (λ e. e ≡ not_packed
            → IsValue self.now.types id.index (abstract value.now)
            → ⊥) }
        ensures no_value { (IsValue self.now.types id.index (abstract value.now) → ⊥) → result ≡ Err not_packed }
        // `TooLong` only if the value is too heavy, or its message too long.
        ensures longer { IfErr result (λ e. e ≡ too_many_bits
            → IsTooLong self.now.types id.index (abstract value.now)) }
        // A value that is too heavy is `TooLong`, whether there is memory or not.
        ensures heavy { IsValue self.now.types id.index (abstract value.now)
            → 16777216 < weight (abstract value.now)
            → result ≡ Err too_many_bits }
    {
        write_uper(alloc, &self.packed, id, value)
    }

    /// Decodes the value of a type that octets are a message of in canonical PER, unaligned (X.691, 11.1). Beside the
    /// value is the number of skipped additions that the type lacks.
    ///
    /// `MessageLimit`: there are more than 16,777,216 octets. `Refused`: the first fault of the bits, with the bit and
    /// the part of the value where it is. `Memory`: an allocation failed.
    pub fn unpack(&self, alloc: Global, id: TypeId, octets: &[u8]) -> Result<(Value, u64), PerFault>
        // The octets are a message of the value alone, with the only number of additions.
        ensures read { IfOk result (λ r. IsUnpackedBy self.now.types id.index octets.now (abstract r.0) r.1) }
        // The reason of a refusal applies.
        ensures refused { IfErr result (IsNotUnpackedBy self.now.types id.index octets.now) }
        ensures limit { 16777216 < length octets.now → result ≡ Err MessageLimit }
    {
        unpacked(alloc, &self.packed, id, octets)
    }

    /// Decodes the value of a type that octets encode by the basic or by the distinguished rules. Its strings are
    /// slices of the octets if they are primitive there. Beside the value is the number of skipped additions that the
    /// type lacks. `Read::view` shows the value part by part, and [`View::to_value`] copies it.
    ///
    /// The faults are those of [`ber_reader::read_ber`] and [`ber_reader::read_der`].
    pub fn decode<'a>(
        &self,
        alloc: Global,
        id: TypeId,
        octets: &'a [u8],
        rules: Rules,
    ) -> Result<Read<'a>, ReadFault>
        // It is the only value that the octets encode, with the only number of additions.
        ensures read { IfOk result (IsReadBy self.now.types (rules_of rules) id.index octets.now) }
        // The reason of a refusal applies.
        ensures refused { IfErr result (λ e. (e ≡ no_room → ⊥)
            → IsReadFault self.now.types (rules_of rules) id.index octets.now e) }
        ensures limit { 16777216 < length octets.now → result ≡ Err too_many_octets }
    {
        read_by(alloc, &self.code, id, octets, rules)
    }

    /// Says where a fault of [`Kit::decode`] is: at which octet, from 0, and in which part of the value. What was found
    /// there and what was expected is beside it, if more can be said than the fault says. The arguments are those of
    /// the call that was refused. The error comes only if an allocation fails.
    pub fn locate(
        &self,
        alloc: Global,
        id: TypeId,
        octets: &[u8],
        fault: ReadFault,
    ) -> Result<DecodeError, AllocError>
        // It is this fault.
        ensures fault { IfOk result (λ u. u.fault ≡ fault) }
        // Reading stops at this octet, within this part.
        ensures place { (fault ≡ not_strict → ⊥) → IfOk result (λ u.
            IsErrorSite self.now.types id.index octets.now u.offset (string_bytes u.path)) }
        // Of `NotDer` the first rule is broken at this octet, and the finding says which one.
        ensures finding { fault ≡ not_strict
            → IsNotDer self.now.types id.index octets.now
            → IfOk result (λ u. HasBrokenRule self.now.types id.index octets.now u.offset u.finding) }
    {
        let ty = KitType {
            schema: &self.schema,
            code: &self.code,
            id,
        };
        locate_fault(alloc, ty, octets, fault)
    }

    /// Says in which part of a value a fault of [`Kit::unpack`] is, by names, and what the constraints allow there if
    /// they are why the bits are refused. `id` is the type of the call that was refused. The error comes only if an
    /// allocation fails.
    pub fn locate_bits(
        &self,
        alloc: Global,
        id: TypeId,
        refused: RefusedBits,
    ) -> Result<BitDecodeError, AllocError>
        ensures refusal { IfOk result (λ u. u.refusal ≡ refused.refusal) }
        ensures bit { IfOk result (λ u. u.bit ≡ refused.bit) }
        // The path has the names and numbers of the parts.
        ensures path { IfOk result (λ u.
            string_bytes u.path ≡ with_parts self.now.types id.index [] refused.path.items) }
    {
        locate_bit_fault(alloc, &self.schema, id, refused)
    }

    /// Prints the value that a view shows, in the notation of X.680.
    ///
    /// `NotOfType`: it is not a value of the type, or the kit has no such type. `Memory`: an allocation failed.
    pub fn print(
        &self,
        alloc: Global,
        id: TypeId,
        view: &View<'_>,
    ) -> Result<String, value_text::Fault>
        // A value of the type is printed, and nothing else.
        ensures value { IfOk result (λ s. IsValue self.now.types id.index (value_of view.now)) }
        ensures text { IfOk result (λ s.
            string_bytes s ≡ print self.now.types id.index (value_of view.now)) }
        // After `NotOfType` the value isn't one of the type.
        ensures not_of_type { IsErrOf result not_printed
            → IsValue self.now.types id.index (value_of view.now)
            → ⊥ }
    {
        print_view(alloc, &self.schema, id, view)
    }

    /// Whether the type of this name in the newer kit is a later version of that in the older kit. A later version is
    /// the same type with additions appended at extension markers, at any depth (X.680, clauses 7, 20, 25 and 29). The
    /// type is named as `Module.Name`, in each kit where it is assigned or where it is imported.
    ///
    /// `NoType`: at least one kit has no type of this name. `Memory`: an allocation failed.
    pub fn later(alloc: Global, older: &Kit, newer: &Kit, ty: &str) -> Result<bool, Fault>
        // The name finds one type in each kit, and the answer is yes exactly if the newer one is a later version.
        ensures compared { IfOk result (IsCompared older.now.program older.now.types
            newer.now.program newer.now.types ty.now) }
        // The reason of a refusal applies.
        ensures refused { IfErr result (IsNotCompared older.now.program newer.now.program ty.now) }
    {
        let Some(first) = type_number(&older.modules, ty) else {
            return Err(Fault::NoType(String::from_str(alloc, ty)?));
        };
        let Some(second) = type_number(&newer.modules, ty) else {
            return Err(Fault::NoType(String::from_str(alloc, ty)?));
        };
        newer.settled();
        match later(alloc, &older.schema, first, &newer.schema, second) {
            Ok(answer) => Ok(answer),
            Err(_) => Err(Fault::Memory),
        }
    }

    /// Compares the type of this name in the older kit with that in the newer kit. The answer is that the newer one is
    /// a later version, as [`Kit::later`] says, or where it is none first, and why, with a text that says so.
    ///
    /// `NoType`: at least one kit has no type of this name. `Memory`: an allocation failed.
    pub fn compare(alloc: Global, older: &Kit, newer: &Kit, ty: &str) -> Result<Explained, Fault>
        // The name finds one type in each kit, and the answer is that of their comparison.
        ensures compared { IfOk result (AreCompared older.now.program older.now.types
            newer.now.program newer.now.types ty.now) }
        // The reason of a refusal applies.
        ensures refused { IfErr result (IsNotCompared older.now.program newer.now.program ty.now) }
    {
        let Some(first) = type_number(&older.modules, ty) else {
            return Err(Fault::NoType(String::from_str(alloc, ty)?));
        };
        let Some(second) = type_number(&newer.modules, ty) else {
            return Err(Fault::NoType(String::from_str(alloc, ty)?));
        };
        newer.settled();
        match explain(alloc, &older.schema, first, &newer.schema, second) {
            Ok(answer) => Ok(answer),
            Err(_) => Err(Fault::Memory),
        }
    }

    /// Returns a list of all types, in order of their numbers, for people to read. It has the number of each type, its
    /// place in the texts, its tags, and the steps of its routine. `Memory` comes only if an allocation fails.
    pub fn list(&self, alloc: Global) -> Result<String, Fault>
        ensures listed { IfOk result (λ text. IsTypeListing self.now.program self.now.types (string_bytes text)) }
        ensures memory { IfErr result (λ e. e ≡ Memory) }
    {
        Ok(list(alloc, self.modules.linked(), &self.code)?)
    }
}

impl Drop for Kit {
    fn drop(self) {
        let Kit {
            modules: _,
            schema: _,
            code: _,
            packed: _,
        } = self;
    }
}
