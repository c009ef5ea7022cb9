//! A cursor over a message that builds a view of it.

ghost use Rattle.decode_faults.specs.declared.read_fault.ReadFault.TheVariants.{MessageLimit};
ghost use Rattle.ber_source.specs.Log.{logged};
ghost use Rattle.ber_source.specs.ViewSink.{IsViewSink};
ghost use Rattle.octet_answers.specs.States.{front};
ghost use Rattle.std.specs.Prelude.{◌≡◌, ◌<◌, ◌≤◌, IfErr, IfOk, IsTrue, [], ◌↔◌, length};

use crate::asking::{choose_next, has_more, is_component_next, next_in_set, skip};
use crate::moves::{begin, close, end, hold, open};
use crate::reader_state::{ReaderState, at_front};
use crate::rows::{Rows, small_rows};
use crate::small::{
    small_choice, small_choice_component, small_component, small_element, small_value,
};
use crate::view_sink::ViewSink;
use asn_base::schema::TypeId;
use codec_code::{Code, Field, Head, Step};
use codec_source::Source;
use decode_faults::ReadFault;
use encodings::LeafKind;
use limits::MAX_MESSAGE;
use octet_answers::law::lemma_one_answer;
use std::alloc::Global;
use std::marker::Model;

/// A message while it is read from its start by the basic rules, and the view of what was read.
#[derive(Drop)]
pub struct Viewer<'c, 'a> {
    place: ReaderState<'c, 'a, ViewSink<'c, 'a>>,
}

impl<'c, 'a> Model for Viewer<'c, 'a> {
    ghost use Rattle.octet_answers.specs.States.{State};
    ghost use Rattle.ber_source.specs.Seen.{IsValidState, state_of};
    ghost use Rattle.ber_source.specs.Log.{logged};
    ghost use Rattle.ber_source.specs.ViewSink.{IsViewSink};
    ghost use Rattle.std.specs.Coded.{codes};
    ghost use Rattle.asn_base.specs.Codes.{abstract_value_code};

    ghost Value = { State };

    ghost coded = { Prim.hlevel (codes, abstract_value_code) };

    ghost view = { λ c. state_of (λ t. logged t.log) c.place };

    ghost invariant = { λ c. IsValidState IsViewSink c.place };
}

/// How many octets a node takes in most messages, at least.
const OCTETS_A_NODE: usize = 4;

/// The least guess of how many nodes there are.
const FEWEST_GUESSED: usize = 64;

/// The greatest guess of how many nodes there are.
const MOST_GUESSED: usize = 1 << 18;

/// A guess of how many nodes the view of a message of this number of octets has, so that its list needn't grow. Any
/// guess gives the same result.
fn guessed_nodes(octets: usize) -> usize {
    (octets / OCTETS_A_NODE)
        .max(FEWEST_GUESSED)
        .min(MOST_GUESSED)
}

impl<'c, 'a> Viewer<'c, 'a> {
    /// A cursor at the start of a message, in which at most `budget` values may begin. `MessageLimit`: the message has
    /// more than 16,777,216 octets.
    pub fn new(
        alloc: Global,
        code: &'c Code,
        octets: &'a [u8],
        budget: usize,
    ) -> Result<Self, ReadFault>
        ensures ok { IfOk result (λ c. c ≡ front code.now octets.now budget) }
        ensures few { IfOk result (λ c. length octets.now ≤ 16777216) }
        ensures err { IfErr result (λ e. (e ≡ MessageLimit) × (16777216 < length octets.now)) }
    {
        if octets.len() > MAX_MESSAGE {
            return Err(ReadFault::MessageLimit);
        }
        let sink = ViewSink::new(alloc, code, guessed_nodes(octets.len()));
        Ok(Viewer {
            place: at_front(alloc, code, octets, budget, sink),
        })
    }

    /// Whether no octets are left of the contents that are being read.
    pub fn is_at_end(&self) -> bool
        ensures { IsTrue result ↔ (self.now.here.octets ≡ []) }
    {
        self.place.here.octets.is_empty()
    }

    /// The view of what was read.
    pub fn into_sink(self) -> ViewSink<'c, 'a>
        ensures tokens { logged result.log ≡ self.entry.emitted }
        ensures suits { IsViewSink result self.entry.schema }
    {
        self.place.emitted
    }
}

impl<'c, 'a> Source for Viewer<'c, 'a> {
    ghost use Rattle.octet_answers.specs.Answers.{Takes};

    ghost takes = { Takes };

    ghost use Rattle.octet_answers.specs.Unanswered.{Leaves};

    ghost refuses = { Leaves };

    ghost budget = { λ a. a.budget };

    #[inline(always)]
    fn begin(&mut self, id: TypeId) -> Result<(), ReadFault> {
        lemma_one_answer();
        begin(&mut self.place, id)
    }

    #[inline(always)]
    fn end(&mut self) -> Result<(), ReadFault> {
        lemma_one_answer();
        end(&mut self.place)
    }

    #[inline(always)]
    fn open(&mut self, head: Head) -> Result<(), ReadFault> {
        lemma_one_answer();
        open(&mut self.place, head)
    }

    #[inline(always)]
    fn close(&mut self) -> Result<(), ReadFault> {
        lemma_one_answer();
        close(&mut self.place)
    }

    #[inline(always)]
    fn leaf(&mut self, kind: LeafKind) -> Result<(), ReadFault> {
        lemma_one_answer();
        hold(&mut self.place, kind)
    }

    fn skip(&mut self) -> Result<(), ReadFault> {
        lemma_one_answer();
        skip(&mut self.place)
    }

    #[inline(always)]
    fn has_component(&mut self, field: Field) -> Result<bool, ReadFault> {
        lemma_one_answer();
        is_component_next(&mut self.place, field)
    }

    fn has_element(&mut self, id: TypeId, sorted: bool) -> Result<bool, ReadFault> {
        lemma_one_answer();
        Ok(has_more(&self.place))
    }

    fn next_component(&mut self, steps: &[Step]) -> Result<Option<TypeId>, ReadFault> {
        lemma_one_answer();
        next_in_set(&mut self.place, steps)
    }

    fn alternative(&mut self, calls: &[Step]) -> Result<TypeId, ReadFault> {
        lemma_one_answer();
        choose_next(&mut self.place, calls)
    }

    #[inline(always)]
    fn small_value(&mut self, id: TypeId, head: Head, kind: LeafKind) -> Result<bool, ReadFault> {
        small_value(&mut self.place, id, head, kind)
    }

    #[inline(always)]
    fn small_component(
        &mut self,
        field: Field,
        head: Head,
        kind: LeafKind,
    ) -> Result<bool, ReadFault> {
        small_component(&mut self.place, field, head, kind)
    }

    #[inline(always)]
    fn small_element(
        &mut self,
        id: TypeId,
        sorted: bool,
        head: Head,
        kind: LeafKind,
    ) -> Result<bool, ReadFault> {
        small_element(&mut self.place, id, sorted, head, kind)
    }

    #[inline(always)]
    fn small_choice(&mut self, code: &Code, id: TypeId, calls: &[Step]) -> Result<bool, ReadFault> {
        small_choice(&mut self.place, code, id, calls)
    }

    #[inline(always)]
    fn small_choice_component(
        &mut self,
        code: &Code,
        field: Field,
        calls: &[Step],
    ) -> Result<bool, ReadFault> {
        small_choice_component(&mut self.place, code, field, calls)
    }

    #[inline(always)]
    fn small_rows<'s>(
        &mut self,
        code: &Code,
        id: TypeId,
        head: Head,
        fields: &'s [Step],
    ) -> Result<Option<&'s [Step]>, ReadFault> {
        small_rows(&mut self.place, code, Rows { id, head, fields })
    }

    ghost use Rattle.ber_source.specs.Laws.{begins_less, never_more, lemma_one_answer as lemma_one_answer'};

    ghost lemma_one_answer = { lemma_one_answer' };

    ghost spends = { begins_less };

    ghost keeps = { never_more };
}
