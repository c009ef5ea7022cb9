//! The reading of a notation under a type, from its beginning on.

ghost use Rattle.std.specs.Prelude.{◌<◌, ◌≤◌, ◌≡◌, ℕ, Bool as 𝔹, List, [], true, false, IfErr, IfOk, IfSome, OnOk, None, Some, length, map};
ghost use Rattle.asn_base.specs.Abstract.{AbstractValue, abstract};
ghost use Rattle.trees.specs.declared.types.ElementsKind.{ElementsKind as ElementsKind'};
ghost use Rattle.trees.specs.declared.types.ListKind.TheVariants.{Choice as choice};
ghost use Rattle.trees.specs.declared.types.Standing.TheVariants.{Root};
ghost use Rattle.trees.specs.Values.{Name, member_of, tree_of};
ghost use Rattle.type_table.specs.Lists.{AreSound};
ghost use Rattle.type_table.specs.Seen.{kind_of, part_of};
ghost use Rattle.type_table.specs.Table.{elements, members};
ghost use Rattle.names.specs.Modules.{AreDifferent};
ghost use Rattle.value_notations.specs.Notations.{field_names, may_lack_value, part_names};
ghost use Rattle.resolve.specs.Program.{Program};
ghost use Rattle.value_notations.specs.Values.{IsTyped, MayLackValue};
ghost use Rattle.values.specs.Allowing.{Allows, AllowsCode};
ghost use Rattle.values.specs.Arranged.{first_place};
ghost use Rattle.typed_values.specs.Faults.{HasKindIn, IsListIn, IsRightValueFault, IsWrittenDefault};
ghost use Rattle.typed_values.specs.Known.{AreKnown, AreListed, IsListed};
ghost use Rattle.typed_values.specs.proving.Reading.{Answers, AnswersEnd, AnswersWhole, ArePlaced, HaveTypes, IsMade, IsWrongDefault, IsWrongField, IsFollowed, MakeFields, MakeRow, MakesField, MayBeLeftOut, Moves, FailsInField, FailsInOne, GoesOn, HasShapeIn, IsLater, IsReadItself, IsReady, Returns};

use crate::fault::{Cause, ValueFault, ValueSite, follow_cause, names_cause};
use crate::followed::{Followed, LastNotation, Unfollowed};
use crate::forms::{chosen_in, fields_in, values_in};
use crate::levels::Defaults;
use crate::lists::list_for;
use crate::naming::{Led, lead};
use crate::outcome::{CheckedOnly, Outcome};
use crate::reader::{NotationReader, ReadAlone};
use crate::simple::simple_value;
use crate::written::written;
use asn_base::schema::TypeId;
use asn_base::value::Value;
use limits::MAX_NODES;
use std::alloc::Global;
use trees::{ListKind, Named, PresenceSyntax, Standing, ValueSyntax};
use type_table::{ListMember, Shape};
use value_notations::opened::Opened;
use value_notations::references::notation_at;
use values::constraints::{Bounded, allows_size};
use values::law::{lemma_groups_are_whole, lemma_value_of_fields};
use values::{alternative, arranged};

/// The most levels that a value may have.
const MOST_LEVELS: u8 = 64;

/// Whether the list is a CHOICE.
fn is_choice(kind: ListKind) -> bool
    ensures yes { result ≡ true → kind ≡ choice }
    ensures no { result ≡ false → kind ≡ choice → ⊥ }
{
    match kind {
        ListKind::Choice => true,
        ListKind::Sequence => false,
        ListKind::Set => false,
    }
}

/// The DEFAULT of a component that may be absent, or None if it has none, or is an addition, whose DEFAULT isn't read.
fn default_of(component: &ListMember) -> Option<&ValueSyntax>
    requires { may_lack_value (part_of component.now) ≡ true }
    ensures none { (p : Program) (levels : ℕ) (N : Name) → result ≡ None
        → MayLackValue p (Allows p) (AllowsCode p) levels N (part_of component.now) }
    ensures root { IfSome result (λ n. component.now.standing ≡ Root) }
    ensures presence { IfSome result (λ n. IsWrittenDefault component.now.presence n.now) }
{
    match component.standing {
        Standing::Addition(_) => None,
        Standing::Root => match &component.presence {
            PresenceSyntax::Mandatory => None,
            PresenceSyntax::Optional => None,
            PresenceSyntax::Default(notation) => {
                let notation: &ValueSyntax = notation;
                Some(notation)
            }
        },
    }
}

impl<'r, 'a> NotationReader<'r, 'a> {
    /// Reads a notation under a type, if `levels` levels and a node are left. The values that the reading adds to
    /// `opened` are removed again. The reading ends with `Memory` if the table lacks memory. So does a reader that
    /// foresees chains of names where it can't.
    #[cycle(reading)]
    fn read<O: Outcome>(&mut self, levels: u8, at: ValueSite<'a>) -> Result<O, ValueFault<'a>>
        requires there { at.ty.index < length self.old.bounded.now.program.types }
        requires ready { IsReady self.old }
        ensures is_read { Answers O.shows self.old.bounded.now levels self.old.left self.new.left self.old.opened.now
            at.entry.within.now at.entry.ty.index at.entry.notation.now self.new.defaults.now result }
        ensures returns { OnOk result (Returns self.old self.new) }
        ensures ready { GoesOn self.old self.new }
        ensures same_table { self.new.defaults.ghost_name ≡ self.old.defaults.ghost_name }
    {
        if self.defaults.lacks_memory() || !self.foresee::<O>(levels, at) {
            let cause = Cause::Memory;
            return Err(ValueFault { at, cause });
        }
        self.read_now(levels, at)
    }

    /// If a notation under a type that holds others is a name from which a long chain leads, judges the value to which
    /// the chain leads, so that the table knows what that comes to. The chain is found after that, so that the values
    /// on it have later turns than those to which the notation of the last one leads. False if the table doesn't know
    /// then what the name comes to.
    #[cycle(reading)]
    fn foresee<O: Outcome>(&mut self, levels: u8, at: ValueSite<'a>) -> bool
        requires there { at.ty.index < length self.old.bounded.now.program.types }
        requires ready { IsReady self.old }
        ensures returns { result ≡ true → Returns self.old self.new }
        ensures left { self.new.left ≡ self.old.left }
        ensures ready { GoesOn self.old self.new }
        ensures same_table { self.new.defaults.ghost_name ≡ self.old.defaults.ghost_name }
    {
        if self.plain {
            return true;
        }
        let Some(number) = self.defaults.long_name(self.bounded, self.opened, at) else {
            return true;
        };
        let path = self
            .defaults
            .path_from(self.alloc, self.bounded, self.opened, number);
        let linked = self.bounded.linked();
        let end = self
            .defaults
            .end_of(linked, self.opened, path.as_slice(), number);
        if !self.judge_last::<O>(levels, at.ty, end) {
            return false;
        }
        self.settle_to(path.as_slice(), number, at.ty)
    }

    /// Reads under a type the notation of a value assignment, if there is one, so that the table knows what it comes
    /// to. False if there is none, or the notation has a fault.
    #[cycle(reading)]
    fn judge_last<O: Outcome>(&mut self, levels: u8, ty: TypeId, end: Option<usize>) -> bool
        requires there { ty.index < length self.old.bounded.now.program.types }
        requires inside { IfSome end (λ i. i < length self.old.bounded.now.program.values) }
        requires ready { IsReady self.old }
        ensures returns { result ≡ true → Returns self.old self.new }
        ensures left { self.new.left ≡ self.old.left }
        ensures ready { GoesOn self.old self.new }
        ensures same_table { self.new.defaults.ghost_name ≡ self.old.defaults.ghost_name }
    {
        let Some(number) = end else {
            return false;
        };
        match self.defaults.named.entry(self.bounded, number, ty) {
            Some(_) => return true,
            None => {}
        }
        let before = self.begin(levels);
        let Some(nodes) = self.read_itself::<O>(levels, ty, number) else {
            return false;
        };
        let read = ReadAlone {
            number,
            ty,
            levels,
            nodes,
        };
        self.close_itself(read, before);
        true
    }

    /// Reads under a type the notation of a value assignment, with `levels` levels and 2^24 nodes. Returns how many
    /// nodes its value has, or None if it has a fault.
    #[cycle(reading)]
    fn read_itself<O: Outcome>(&mut self, levels: u8, ty: TypeId, number: usize) -> Option<u32>
        requires there { ty.index < length self.old.bounded.now.program.types }
        requires inside { number < length self.old.bounded.now.program.values }
        requires ready { IsReady self.old }
        ensures read { IfSome result (λ nodes.
            IsReadItself self.old.bounded.now.program number ty.index levels nodes self.new.defaults.now) }
        ensures later { IfSome result (λ nodes. IsLater self.old.defaults.now self.new.defaults.now) }
        ensures opened { self.new.opened.now ≡ self.old.opened.now }
        ensures left { self.new.left ≡ self.old.left }
        ensures ready { GoesOn self.old self.new }
        ensures same_table { self.new.defaults.ghost_name ≡ self.old.defaults.ghost_name }
    {
        let (within, notation) = notation_at(self.bounded.linked(), number);
        let at = ValueSite {
            ty,
            within,
            notation,
        };
        let mut opened = Opened::new(self.alloc);
        match opened.open(number) {
            Ok(()) => {}
            Err(_) => return None,
        }
        let mut reader = NotationReader {
            alloc: self.alloc,
            bounded: self.bounded,
            defaults: &mut *self.defaults,
            left: MAX_NODES,
            opened: &mut opened,
            plain: self.plain,
        };
        match reader.read_now::<O>(levels, at) {
            Ok(_) => Some(MAX_NODES - reader.left),
            Err(_) => None,
        }
    }

    /// Reads a notation under a type, as [`NotationReader::read`] does, after chains of names were foreseen.
    #[cycle(reading)]
    fn read_now<O: Outcome>(&mut self, levels: u8, at: ValueSite<'a>) -> Result<O, ValueFault<'a>>
        requires there { at.ty.index < length self.old.bounded.now.program.types }
        requires ready { IsReady self.old }
        ensures is_read { Answers O.shows self.old.bounded.now levels self.old.left self.new.left self.old.opened.now
            at.entry.within.now at.entry.ty.index at.entry.notation.now self.new.defaults.now result }
        ensures returns { OnOk result (Returns self.old self.new) }
        ensures ready { GoesOn self.old self.new }
        ensures same_table { self.new.defaults.ghost_name ≡ self.old.defaults.ghost_name }
    {
        if levels == 0 {
            let cause = Cause::Depth;
            return Err(ValueFault { at, cause });
        }
        if self.left == 0 {
            let cause = Cause::Nodes;
            return Err(ValueFault { at, cause });
        }
        let before = self.start::<O>(levels, at);
        match self.led(levels, at) {
            Err(fault) => Err(fault),
            Ok(value) => {
                self.end(at.ty, levels, before);
                Ok(value)
            }
        }
    }

    /// Reads a notation under a type, with a level and a node left. The values to which its references lead are being
    /// read after the call.
    #[cycle(reading)]
    fn led<O: Outcome>(&mut self, levels: u8, at: ValueSite<'a>) -> Result<O, ValueFault<'a>>
        requires there { at.ty.index < length self.old.bounded.now.program.types }
        requires level { 0 < levels }
        requires node { 0 < self.old.left }
        requires ready { IsReady self.old }
        ensures is_read { AnswersEnd O.shows self.old.bounded.now levels self.old.left self.new.left
            self.old.opened.now at.entry.within.now at.entry.ty.index at.entry.notation.now self.new.opened.now
            self.new.defaults.now result }
        ensures moves { OnOk result (Moves self.old self.new) }
        ensures ready { GoesOn self.old self.new }
        ensures same_table { self.new.defaults.ghost_name ≡ self.old.defaults.ghost_name }
    {
        let linked = self.bounded.linked();
        let (shape, home) = written(linked, at.ty);
        let nodes = self.left;
        let unfollowed = Unfollowed {
            at,
            shape: &shape,
            levels,
            nodes,
        };
        match lead::<O>(self.bounded, self.defaults, self.opened, &unfollowed) {
            Err(fault) => {
                let cause = follow_cause(fault);
                Err(ValueFault { at, cause })
            }
            Ok(Led::Known(entry, value)) => {
                self.left -= entry.nodes;
                self.defaults.reach(levels - entry.levels);
                self.defaults.named.pass(entry.latest);
                Ok(value)
            }
            Ok(Led::Last(within, last)) => {
                self.left -= 1;
                let levels = levels - 1;
                self.defaults.reach(levels);
                let followed = Followed {
                    at,
                    levels,
                    home,
                    within,
                    last,
                };
                match self.value_of(&followed, shape.shape()) {
                    Ok(value) => Ok(value),
                    Err(fault) => Err(fault),
                }
            }
        }
    }

    /// Reads the notation to which the references of a notation lead, under the shape of its type after references and
    /// tags.
    #[cycle(reading)]
    fn value_of<O: Outcome>(
        &mut self,
        followed: &Followed<'a>,
        shape: &'a Shape,
    ) -> Result<O, ValueFault<'a>>
        requires there { followed.now.at.ty.index < length self.old.bounded.now.program.types }
        requires written { HasShapeIn self.old.bounded.now followed.now.at.ty.index shape.now followed.now.home.now }
        requires ready { IsReady self.old }
        requires reached { self.old.defaults.now.lowest ≤ followed.now.levels }
        ensures is_read { (os : List ℕ)
            → IsFollowed self.old.bounded.now (kind_of shape.now) os self.old.opened.now followed.now
            → AnswersWhole O.shows self.old.bounded.now self.old.left self.new.left os self.old.opened.now
            followed.now self.new.defaults.now result }
        ensures returns { OnOk result (Returns self.old self.new) }
        ensures ready { GoesOn self.old self.new }
        ensures same_table { self.new.defaults.ghost_name ≡ self.old.defaults.ghost_name }
    {
        let linked = self.bounded.linked();
        linked.lemma_whole();
        match shape {
            Shape::Simple(simple) => {
                let last = LastNotation {
                    within: followed.within,
                    notation: followed.last,
                };
                match simple_value(self.alloc, self.bounded, followed.at, simple, last) {
                    Ok(value) => Ok(O::leaf(value)),
                    Err(fault) => Err(fault),
                }
            }
            Shape::Elements(_, element) => {
                let element = TypeId { index: *element };
                self.list(followed, element)
            }
            Shape::Members(kind, _, parts) => {
                let members = parts.as_slice();
                if is_choice(*kind) {
                    self.chosen(followed, members)
                } else {
                    self.fields(followed, *kind, members)
                }
            }
            Shape::Reference(_) => unreachable!(),
            Shape::Tagged(_, _, _) => unreachable!(),
        }
    }

    /// Reads the value of a SEQUENCE OF or SET OF.
    #[cycle(reading)]
    fn list<O: Outcome>(
        &mut self,
        followed: &Followed<'a>,
        element: TypeId,
    ) -> Result<O, ValueFault<'a>>
        requires there { followed.now.at.ty.index < length self.old.bounded.now.program.types }
        requires element { element.index < length self.old.bounded.now.program.types }
        requires ready { IsReady self.old }
        requires reached { self.old.defaults.now.lowest ≤ followed.now.levels }
        ensures is_read { (os : List ℕ) (k : ElementsKind') (N : Name)
            → HasKindIn self.old.bounded.now.program followed.now.at.ty.index (elements k element.index) N
            → IsFollowed self.old.bounded.now (elements k element.index) os self.old.opened.now followed.now
            → AnswersWhole O.shows self.old.bounded.now self.old.left self.new.left os self.old.opened.now
            followed.now self.new.defaults.now result }
        ensures returns { OnOk result (Returns self.old self.new) }
        ensures ready { GoesOn self.old self.new }
        ensures same_table { self.new.defaults.ghost_name ≡ self.old.defaults.ghost_name }
    {
        let at = followed.at;
        let Some(notations) = values_in(followed.last) else {
            let cause = Cause::NotOfType;
            return Err(ValueFault { at, cause });
        };
        let values = match self.all(followed, element, notations) {
            Ok(values) => values,
            Err(fault) => return Err(fault),
        };
        if !allows_size(self.bounded, at.ty, values.len()) {
            let cause = Cause::Outside;
            return Err(ValueFault { at, cause });
        }
        Ok(O::list(values))
    }

    /// Reads the elements of a list, one after the other.
    #[cycle(reading)]
    fn all<O: Outcome>(
        &mut self,
        followed: &Followed<'a>,
        element: TypeId,
        notations: &'a [ValueSyntax],
    ) -> Result<Vec<O>, ValueFault<'a>>
        requires there { element.index < length self.old.bounded.now.program.types }
        requires ready { IsReady self.old }
        ensures value { IfOk result (λ vs. MakeRow O.shows self.old.bounded.now.program followed.now.levels
            self.old.left
            self.new.left self.old.opened.now followed.now.within.now element.index (map tree_of notations.now)
            self.new.defaults.now vs.items) }
        ensures fault { IfErr result (FailsInOne self.old.bounded.now followed.now.levels self.old.left
            self.old.opened.now followed.now.within.now element.index notations.now) }
        ensures returns { OnOk result (Returns self.old self.new) }
        ensures ready { GoesOn self.old self.new }
        ensures same_table { self.new.defaults.ghost_name ≡ self.old.defaults.ghost_name }
    {
        let mut values = list_for(self.alloc, notations.len());
        for i in 0..notations.len() {
            let at = ValueSite {
                ty: element,
                within: followed.within,
                notation: &notations[i],
            };
            let value = match self.read(followed.levels, at) {
                Ok(value) => value,
                Err(fault) => return Err(fault),
            };
            match values.push(value) {
                Ok(()) => {}
                Err(_) => {
                    let cause = Cause::Memory;
                    return Err(ValueFault { at, cause });
                }
            }
        }
        Ok(values)
    }

    /// Reads the value of a CHOICE.
    #[cycle(reading)]
    fn chosen<O: Outcome>(
        &mut self,
        followed: &Followed<'a>,
        alternatives: &'a [ListMember],
    ) -> Result<O, ValueFault<'a>>
        requires members { HaveTypes self.old.bounded.now.program (map part_of alternatives.now) }
        requires ready { IsReady self.old }
        requires reached { self.old.defaults.now.lowest ≤ followed.now.levels }
        ensures is_read { (os : List ℕ) (e : 𝔹) (N : Name)
            → HasKindIn self.old.bounded.now.program followed.now.at.ty.index
            (members choice e (map part_of alternatives.now)) N
            → IsFollowed self.old.bounded.now (members choice e (map part_of alternatives.now)) os
            self.old.opened.now followed.now
            → AnswersWhole O.shows self.old.bounded.now self.old.left self.new.left os self.old.opened.now
            followed.now self.new.defaults.now result }
        ensures returns { OnOk result (Returns self.old self.new) }
        ensures ready { GoesOn self.old self.new }
        ensures same_table { self.new.defaults.ghost_name ≡ self.old.defaults.ghost_name }
    {
        let at = followed.at;
        let Some((name, notation)) = chosen_in(followed.last) else {
            let cause = Cause::NotOfType;
            return Err(ValueFault { at, cause });
        };
        let Some(number) = alternative(alternatives, name) else {
            let cause = Cause::UnknownAlternative;
            return Err(ValueFault { at, cause });
        };
        let inner = ValueSite {
            ty: TypeId {
                index: alternatives[number].ty,
            },
            within: followed.within,
            notation,
        };
        let value: O = match self.read(followed.levels, inner) {
            Ok(value) => value,
            Err(fault) => return Err(fault),
        };
        match O::alternative(self.alloc, number, value) {
            Ok(chosen) => Ok(chosen),
            Err(_) => {
                let cause = Cause::Memory;
                Err(ValueFault { at, cause })
            }
        }
    }

    /// Reads the value of a SEQUENCE or SET.
    #[cycle(reading)]
    fn fields<O: Outcome>(
        &mut self,
        followed: &Followed<'a>,
        kind: ListKind,
        components: &'a [ListMember],
    ) -> Result<O, ValueFault<'a>>
        requires list { kind ≡ choice → ⊥ }
        requires distinct { AreDifferent (part_names (map part_of components.now)) }
        requires members { HaveTypes self.old.bounded.now.program (map part_of components.now) }
        requires listed { AreListed self.old.bounded.now.program followed.now.home.now (map part_of components.now) }
        requires ready { IsReady self.old }
        requires reached { self.old.defaults.now.lowest ≤ followed.now.levels }
        ensures is_read { (os : List ℕ) (e : 𝔹)
            → IsListIn self.old.bounded.now followed.now.at.ty.index kind e components.now followed.now.home.now
            → IsFollowed self.old.bounded.now (members kind e (map part_of components.now)) os
            self.old.opened.now followed.now
            → AnswersWhole O.shows self.old.bounded.now self.old.left self.new.left os self.old.opened.now
            followed.now self.new.defaults.now result }
        ensures returns { OnOk result (Returns self.old self.new) }
        ensures ready { GoesOn self.old self.new }
        ensures same_table { self.new.defaults.ghost_name ≡ self.old.defaults.ghost_name }
    {
        lemma_value_of_fields();
        lemma_groups_are_whole();
        let at = followed.at;
        let Some(given) = fields_in(followed.last) else {
            let cause = Cause::NotOfType;
            return Err(ValueFault { at, cause });
        };
        let places = match arranged(self.alloc, kind, components, given) {
            Ok(places) => places,
            Err(fault) => {
                let cause = names_cause(fault, followed.within, followed.last);
                return Err(ValueFault { at, cause });
            }
        };
        match self.all_fields(followed, components, given, places.as_slice()) {
            Ok(values) => Ok(O::fields(values)),
            Err(fault) => Err(fault),
        }
    }

    /// Reads the components of a SEQUENCE or SET in the order of definition.
    #[cycle(reading)]
    fn all_fields<O: Outcome>(
        &mut self,
        followed: &Followed<'a>,
        components: &'a [ListMember],
        given: &'a [Named<ValueSyntax>],
        places: &[Option<usize>],
    ) -> Result<Vec<Option<O>>, ValueFault<'a>>
        requires arranged { ArePlaced (map part_of components.now) (field_names (map member_of given.now)) places.now }
        requires members { HaveTypes self.old.bounded.now.program (map part_of components.now) }
        requires listed { AreListed self.old.bounded.now.program followed.now.home.now (map part_of components.now) }
        requires ready { IsReady self.old }
        ensures value { IfOk result (λ vs. MakeFields O.shows self.old.bounded.now.program followed.now.levels
            self.old.left
            self.new.left self.old.opened.now followed.now.within.now followed.now.home.now (map member_of given.now)
            (map part_of components.now) self.new.defaults.now vs.items) }
        ensures fault { IfErr result (FailsInField self.old.bounded.now followed.now.levels self.old.left
            self.old.opened.now followed.now.within.now followed.now.home.now given.now components.now) }
        ensures returns { OnOk result (Returns self.old self.new) }
        ensures ready { GoesOn self.old self.new }
        ensures same_table { self.new.defaults.ghost_name ≡ self.old.defaults.ghost_name }
    {
        let mut values = list_for(self.alloc, components.len());
        for i in 0..components.len() {
            let value = match self.field(followed, &components[i], given, places[i]) {
                Ok(value) => value,
                Err(fault) => return Err(fault),
            };
            match values.push(value) {
                Ok(()) => {}
                Err(_) => {
                    let at = followed.at;
                    let cause = Cause::Memory;
                    return Err(ValueFault { at, cause });
                }
            }
        }
        Ok(values)
    }

    /// Reads a component: its field, or nothing if it may be absent.
    #[cycle(reading)]
    fn field<O: Outcome>(
        &mut self,
        followed: &Followed<'a>,
        component: &'a ListMember,
        given: &'a [Named<ValueSyntax>],
        place: Option<usize>,
    ) -> Result<Option<O>, ValueFault<'a>>
        requires there { component.now.ty < length self.old.bounded.now.program.types }
        requires placed { place ≡ first_place (part_of component.now).name (field_names (map member_of given.now)) }
        requires may { place ≡ None → may_lack_value (part_of component.now) ≡ true }
        requires listed { IsListed self.old.bounded.now.program followed.now.home.now (part_of component.now) }
        requires ready { IsReady self.old }
        ensures value { IfOk result (MakesField O.shows self.old.bounded.now.program followed.now.levels self.old.left
            self.new.left self.old.opened.now followed.now.within.now followed.now.home.now (map member_of given.now)
            (part_of component.now) self.new.defaults.now) }
        ensures fault { IfErr result (IsWrongField self.old.bounded.now followed.now.levels self.old.left
            self.old.opened.now followed.now.within.now followed.now.home.now given.now component.now) }
        ensures returns { OnOk result (Returns self.old self.new) }
        ensures ready { GoesOn self.old self.new }
        ensures same_table { self.new.defaults.ghost_name ≡ self.old.defaults.ghost_name }
    {
        match place {
            Some(place) => {
                let at = ValueSite {
                    ty: TypeId {
                        index: component.ty,
                    },
                    within: followed.within,
                    notation: &given[place].value,
                };
                match self.read(followed.levels, at) {
                    Ok(value) => Ok(Some(value)),
                    Err(fault) => Err(fault),
                }
            }
            None => {
                let Some(notation) = default_of(component) else {
                    return Ok(None);
                };
                let home = followed.home;
                match self.whole_default::<O>(followed.levels, component, home, notation) {
                    Ok(()) => Ok(None),
                    Err(fault) => Err(fault),
                }
            }
        }
    }

    /// Reads a DEFAULT, unless the table says that it stands for a value of at most `levels` levels. After the reading
    /// the table says how many levels it has.
    #[cycle(reading)]
    fn whole_default<O: Outcome>(
        &mut self,
        levels: u8,
        component: &'a ListMember,
        home: &'a str,
        notation: &'a ValueSyntax,
    ) -> Result<(), ValueFault<'a>>
        requires there { component.now.ty < length self.old.bounded.now.program.types }
        requires root { component.now.standing ≡ Root }
        requires presence { IsWrittenDefault component.now.presence notation.now }
        requires listed { IsListed self.old.bounded.now.program home.now (part_of component.now) }
        requires ready { IsReady self.old }
        ensures may { OnOk result (MayBeLeftOut self.old.bounded.now.program levels self.new.defaults.now.lowest
            home.now (part_of component.now)) }
        ensures fault { IfErr result (IsWrongDefault self.old.bounded.now levels home.now component.now) }
        ensures left { self.new.left ≡ self.old.left }
        ensures returns { OnOk result (Returns self.old self.new) }
        ensures ready { GoesOn self.old self.new }
        ensures same_table { self.new.defaults.ghost_name ≡ self.old.defaults.ghost_name }
    {
        if self.defaults.allows(self.bounded, component, home, levels) {
            return Ok(());
        }
        let lowest = self.defaults.begin(levels);
        match self.read_default::<O>(levels, component, home, notation) {
            Ok(()) => {}
            Err(fault) => return Err(fault),
        }
        let used = self.defaults.used(levels);
        self.defaults.note(self.bounded, component, home, used);
        self.defaults.reach(lowest);
        Ok(())
    }

    /// Reads a DEFAULT in the module where it is written, with 2^24 nodes.
    #[cycle(reading)]
    fn read_default<O: Outcome>(
        &mut self,
        levels: u8,
        component: &'a ListMember,
        home: &'a str,
        notation: &'a ValueSyntax,
    ) -> Result<(), ValueFault<'a>>
        requires there { component.now.ty < length self.old.bounded.now.program.types }
        requires root { component.now.standing ≡ Root }
        requires presence { IsWrittenDefault component.now.presence notation.now }
        requires ready { IsReady self.old }
        ensures may { OnOk result (MayBeLeftOut self.old.bounded.now.program levels self.new.defaults.now.lowest
            home.now (part_of component.now)) }
        ensures fault { IfErr result (IsWrongDefault self.old.bounded.now levels home.now component.now) }
        ensures left { self.new.left ≡ self.old.left }
        ensures returns { OnOk result (Returns self.old self.new) }
        ensures ready { GoesOn self.old self.new }
        ensures same_table { self.new.defaults.ghost_name ≡ self.old.defaults.ghost_name }
    {
        let at = ValueSite {
            ty: TypeId {
                index: component.ty,
            },
            within: home,
            notation,
        };
        let mut opened = Opened::new(self.alloc);
        let mut reader = NotationReader {
            alloc: self.alloc,
            bounded: self.bounded,
            defaults: &mut *self.defaults,
            left: MAX_NODES,
            opened: &mut opened,
            plain: self.plain,
        };
        match reader.read::<O>(levels, at) {
            Ok(_) => Ok(()),
            Err(fault) => Err(fault),
        }
    }
}

/// What is made of a notation under a type, with 64 levels and 2^24 nodes. `plain`: no chains of names are foreseen.
fn whole<'a, O: Outcome>(
    alloc: Global,
    bounded: &Bounded<'a>,
    defaults: &mut Defaults,
    at: ValueSite<'a>,
    plain: bool,
) -> Result<O, ValueFault<'a>>
    requires there { at.ty.index < length bounded.now.program.types }
    requires sound { AreSound bounded.now.program.types }
    requires known { AreKnown bounded.now.program defaults.old }
    ensures value { IfOk result (IsMade O.shows bounded.now.program at.entry.within.now at.entry.ty.index
        (tree_of at.entry.notation.now)) }
    ensures fault { IfErr result (IsRightValueFault bounded.now 64 16777216 [] at.entry.within.now at.entry.ty.index
        at.entry.notation.now) }
    ensures known { AreKnown bounded.now.program defaults.new }
{
    let mut opened = Opened::new(alloc);
    let mut reader = NotationReader {
        alloc,
        bounded,
        defaults,
        left: MAX_NODES,
        opened: &mut opened,
        plain,
    };
    match reader.read(MOST_LEVELS, at) {
        Ok(value) => Ok(value),
        Err(fault) => Err(fault),
    }
}

/// The value that a notation stands for under a type (X.680, clause 17), as [`typed`] returns it. The caller gives the
/// table, and one table serves all notations of the same modules.
pub fn read_with<'a>(
    alloc: Global,
    bounded: &Bounded<'a>,
    defaults: &mut Defaults,
    at: ValueSite<'a>,
) -> Result<Value, ValueFault<'a>>
    requires there { at.ty.index < length bounded.now.program.types }
    requires sound { AreSound bounded.now.program.types }
    requires known { AreKnown bounded.now.program defaults.old }
    ensures value { IfOk result
        (λ v. IsTyped bounded.now.program (Allows bounded.now.program) (AllowsCode bounded.now.program)
        at.entry.within.now at.entry.ty.index (tree_of at.entry.notation.now) (abstract v)) }
    ensures fault { IfErr result
        (IsRightValueFault bounded.now 64 16777216 [] at.entry.within.now at.entry.ty.index at.entry.notation.now) }
    ensures known { AreKnown bounded.now.program defaults.new }
{
    match whole::<Value>(alloc, bounded, defaults, at, true) {
        Ok(value) => Ok(value),
        Err(fault) => Err(fault),
    }
}

/// Whether a notation stands for a value of a type, or its first fault, as [`read_with`] returns it. No value is
/// built, so the call takes little memory, however many nodes the value has. Only if a reading that foresees chains of
/// names fails, the notation is read again without, to find its first fault.
pub fn check_with<'a>(
    alloc: Global,
    bounded: &Bounded<'a>,
    defaults: &mut Defaults,
    at: ValueSite<'a>,
) -> Result<(), ValueFault<'a>>
    requires there { at.ty.index < length bounded.now.program.types }
    requires sound { AreSound bounded.now.program.types }
    requires known { AreKnown bounded.now.program defaults.old }
    ensures value { OnOk result ((v : AbstractValue) × IsTyped bounded.now.program (Allows bounded.now.program)
        (AllowsCode bounded.now.program) at.entry.within.now at.entry.ty.index (tree_of at.entry.notation.now) v) }
    ensures fault { IfErr result
        (IsRightValueFault bounded.now 64 16777216 [] at.entry.within.now at.entry.ty.index at.entry.notation.now) }
    ensures known { AreKnown bounded.now.program defaults.new }
{
    match whole::<CheckedOnly>(alloc, bounded, defaults, at, false) {
        Ok(_) => return Ok(()),
        Err(_) => {}
    }
    match whole::<CheckedOnly>(alloc, bounded, defaults, at, true) {
        Ok(_) => Ok(()),
        Err(fault) => Err(fault),
    }
}

/// The value that a notation stands for under a type (X.680, clause 17): `ty` is the type, `within` the name of the
/// module in which the notation is read. A value has at most 64 levels and 2^24 nodes; an absent component counts with
/// the levels of its DEFAULT.
///
/// The error is the first fault, in the order in which the notation is read, with its place: `Cause` says what is
/// wrong.
pub fn typed<'a>(
    alloc: Global,
    bounded: &Bounded<'a>,
    ty: TypeId,
    within: &'a str,
    notation: &'a ValueSyntax,
) -> Result<Value, ValueFault<'a>>
    requires there { ty.index < length bounded.now.program.types }
    requires sound { AreSound bounded.now.program.types }
    ensures value { IfOk result
        (λ v. IsTyped bounded.now.program (Allows bounded.now.program) (AllowsCode bounded.now.program) within.now
        ty.index (tree_of notation.now) (abstract v)) }
    ensures fault { IfErr result
        (IsRightValueFault bounded.now 64 16777216 [] within.now ty.index notation.now) }
{
    let mut defaults = Defaults::of_one(alloc);
    let at = ValueSite {
        ty,
        within,
        notation,
    };
    read_with(alloc, bounded, &mut defaults, at)
}
