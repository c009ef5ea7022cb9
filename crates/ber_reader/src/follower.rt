//! A cursor over a message that knows which values are open, and keeps none of its tokens.

ghost use Rattle.asn_base.specs.Types.{Resolved};
ghost use Rattle.ber_reader.specs.Followed.{IsOpenSink, found_by, leads_to, led, number_or};
ghost use Rattle.ber_reader.specs.Opened.{opens};
ghost use Rattle.ber_reader.specs.Paths.{begun_in};
ghost use Rattle.ber_source.specs.Log.{logged};
ghost use Rattle.decode_faults.specs.declared.read_fault.ReadFault.TheVariants.{MessageLimit};
ghost use Rattle.octet_answers.specs.States.{front};
ghost use Rattle.std.specs.Prelude.{◌≡◌, ◌<◌, ◌≤◌, IfErr, IfOk, false, length, List, None};

use crate::open::OpenValue;
use crate::open_sink::{OpenSink, as_many};
use crate::path::leads;
use asn_base::schema::TypeId;
use ber_source::asking::{choose_next, has_more, is_component_next, next_in_set, skip};
use ber_source::moves::{begin, close, end, hold, open};
use ber_source::reader_state::{ReaderState, at_front};
use codec_code::{Code, Field, Head, Step};
use codec_source::Source;
use decode_faults::ReadFault;
use encodings::LeafKind;
use limits::MAX_MESSAGE;
use octet_answers::law::lemma_one_answer;
use std::alloc::{AllocError, Global};
use std::marker::Model;

/// A message while it is read from its start by the basic rules, with the values that are open.
#[derive(Drop)]
pub struct Follower<'c, 'p, 'a> {
    place: ReaderState<'c, 'a, OpenSink<'a>>,
    path: &'p [OpenValue],
    before: Option<usize>,
}

impl<'c, 'p, 'a> Model for Follower<'c, 'p, 'a> {
    ghost use Rattle.ber_reader.specs.Followed.{IsOpenSink, Led, led};
    ghost use Rattle.ber_source.specs.Seen.{IsValidState, state_of};
    ghost use Rattle.ber_source.specs.Log.{logged};
    ghost use Rattle.std.specs.Coded.{codes};
    ghost use Rattle.asn_base.specs.Codes.{abstract_value_code};

    ghost Value = { Led };

    ghost coded = { Prim.hlevel (codes, abstract_value_code) };

    ghost view = { λ c. led (state_of (λ f. logged f.log) c.place) c.path.now c.before };

    ghost invariant = { λ c. IsValidState IsOpenSink c.place };
}

impl<'c, 'p, 'a> Follower<'c, 'p, 'a> {
    /// A cursor at the start of a message, in which at most `budget` values may begin. It looks for the value to which
    /// the way leads. `MessageLimit`: the message has more than 16,777,216 octets.
    pub(crate) fn new(
        alloc: Global,
        code: &'c Code,
        octets: &'a [u8],
        path: &'p [OpenValue],
        budget: usize,
    ) -> Result<Self, ReadFault>
        ensures ok { IfOk result (λ c. c ≡ led (front code.now octets.now budget) path.now None) }
        ensures few { IfOk result (λ c. length octets.now ≤ 16777216) }
        ensures err { IfErr result (λ e. (e ≡ MessageLimit) × (16777216 < length octets.now)) }
    {
        if octets.len() > MAX_MESSAGE {
            return Err(ReadFault::MessageLimit);
        }
        Ok(Follower {
            place: at_front(alloc, code, octets, budget, OpenSink::new(alloc)),
            path,
            before: None,
        })
    }

    /// The offset in the message, from 0, of the first octet that isn't read of the contents that are being read.
    pub(crate) fn at(&self) -> usize
        ensures { result ≡ self.now.state.here.at }
    {
        self.place.here.at
    }

    /// The number of values that began before the first one to which the way leads, or of all that began, if the way
    /// leads to none of them. `AllocError`: an allocation failed while the message was read.
    pub(crate) fn number(&self) -> Result<usize, AllocError>
        ensures { IfOk result (λ n. n ≡ number_or (begun_in self.now.state.emitted) self.now.before) }
    {
        let begun = begun_so_far(&self.place.emitted)?;
        match self.before {
            Some(number) => Ok(number),
            None => Ok(begun),
        }
    }

    /// The values that are open, the outermost first. `AllocError`: an allocation failed while the message was read.
    pub(crate) fn into_values(self) -> Result<Vec<OpenValue>, AllocError>
        ensures { IfOk result (λ list. list.items ≡ opens self.entry.state.emitted) }
    {
        self.place.emitted.finish()
    }
}

/// The number of values that began so far. `AllocError`: an allocation failed while tokens were received.
fn begun_so_far(receiver: &OpenSink<'_>) -> Result<usize, AllocError>
    ensures begun { (s : List Resolved)
        → IsOpenSink receiver.now s
        → IfOk result (λ n. n ≡ begun_in (logged receiver.now.log)) }
    ensures sound { IfOk result (λ n. receiver.now.failed ≡ false) }
{
    if receiver.failed {
        return Err(AllocError);
    }
    Ok(as_many(&receiver.begun))
}

/// What is known of the number of values before the one to which the way leads, when one more value begins.
/// `AllocError`: an allocation failed while tokens were received.
fn next_before(
    receiver: &OpenSink<'_>,
    path: &[OpenValue],
    before: Option<usize>,
) -> Result<Option<usize>, AllocError>
    ensures { (s : List Resolved)
        → IsOpenSink receiver.now s
        → IfOk result (λ o. o ≡ found_by (leads_to path.now (opens (logged receiver.now.log)))
        (begun_in (logged receiver.now.log)) before) }
{
    let begun = begun_so_far(receiver)?;
    match before {
        Some(number) => Ok(Some(number)),
        None => {
            if leads(receiver.values.as_slice(), path) {
                Ok(Some(begun))
            } else {
                Ok(None)
            }
        }
    }
}

impl<'c, 'p, 'a> Source for Follower<'c, 'p, 'a> {
    ghost use Rattle.ber_reader.specs.Followed.{Follows};

    ghost takes = { Follows };

    ghost use Rattle.ber_reader.specs.Followed.{LeavesLed};

    ghost refuses = { LeavesLed };

    ghost budget = { λ a. a.state.budget };

    fn begin(&mut self, id: TypeId) -> Result<(), ReadFault> {
        lemma_one_answer();
        let before = match next_before(&self.place.emitted, self.path, self.before) {
            Ok(before) => before,
            Err(_) => return Err(ReadFault::Memory),
        };
        match begin(&mut self.place, id) {
            Ok(()) => {
                self.before = before;
                Ok(())
            }
            Err(fault) => Err(fault),
        }
    }

    fn end(&mut self) -> Result<(), ReadFault> {
        lemma_one_answer();
        end(&mut self.place)
    }

    fn open(&mut self, head: Head) -> Result<(), ReadFault> {
        lemma_one_answer();
        open(&mut self.place, head)
    }

    fn close(&mut self) -> Result<(), ReadFault> {
        lemma_one_answer();
        close(&mut self.place)
    }

    fn leaf(&mut self, kind: LeafKind) -> Result<(), ReadFault> {
        lemma_one_answer();
        hold(&mut self.place, kind)
    }

    fn skip(&mut self) -> Result<(), ReadFault> {
        lemma_one_answer();
        skip(&mut self.place)
    }

    fn has_component(&mut self, field: Field) -> Result<bool, ReadFault> {
        lemma_one_answer();
        is_component_next(&mut self.place, field)
    }

    fn has_element(&mut self, id: TypeId, sorted: bool) -> Result<bool, ReadFault> {
        lemma_one_answer();
        Ok(has_more(&self.place))
    }

    fn next_component(&mut self, steps: &[Step]) -> Result<Option<TypeId>, ReadFault> {
        lemma_one_answer();
        next_in_set(&mut self.place, steps)
    }

    fn alternative(&mut self, calls: &[Step]) -> Result<TypeId, ReadFault> {
        lemma_one_answer();
        choose_next(&mut self.place, calls)
    }

    fn small_rows<'s>(
        &mut self,
        code: &Code,
        id: TypeId,
        head: Head,
        fields: &'s [Step],
    ) -> Result<Option<&'s [Step]>, ReadFault> {
        Ok(None)
    }

    fn small_value(&mut self, id: TypeId, head: Head, kind: LeafKind) -> Result<bool, ReadFault> {
        Ok(false)
    }

    fn small_component(
        &mut self,
        field: Field,
        head: Head,
        kind: LeafKind,
    ) -> Result<bool, ReadFault> {
        Ok(false)
    }

    fn small_element(
        &mut self,
        id: TypeId,
        sorted: bool,
        head: Head,
        kind: LeafKind,
    ) -> Result<bool, ReadFault> {
        Ok(false)
    }

    fn small_choice(&mut self, code: &Code, id: TypeId, calls: &[Step]) -> Result<bool, ReadFault> {
        Ok(false)
    }

    fn small_choice_component(
        &mut self,
        code: &Code,
        field: Field,
        calls: &[Step],
    ) -> Result<bool, ReadFault> {
        Ok(false)
    }

    ghost use Rattle.ber_reader.specs.Followed.{led_less, never_more_led, one_led};

    ghost lemma_one_answer = { one_led };

    ghost spends = { led_less };

    ghost keeps = { never_more_led };
}
