//! Laws of settled schemas. A caller calls a law to know it; the call takes no memory and no time.

ghost use Rattle.std.specs.Prelude.{◌≡◌, ◌↔◌, ◌++◌, ℕ, Bool, List, Some, slice_get};
ghost use Rattle.std.specs.List.{AllByRecursion};
ghost use Rattle.asn_base.specs.declared.tag.Tag.{Tag};
ghost use Rattle.asn_base.specs.Schemas.{HasTag, IsDefaultCircle, IsSchema, TagsAscend};
ghost use Rattle.asn_base.specs.Schemas as schemas;
ghost use Rattle.asn_base.specs.Tags.{AllTagged, AllHaveDistinctTags, First, HasFewTags};
ghost use Rattle.asn_base.specs.Types.{Is, Kind, Resolved};
ghost use Rattle.asn_base.specs.Types as types;
ghost use Rattle.additions.specs.Additions.{KeepAdditions};
ghost use Rattle.resolve.specs.Program.{IsWhole, Program};
ghost use Rattle.resolve.specs.Sound.{IsSoundProgram};
ghost use Rattle.settled.specs.Parts.{HasKeptTags, IsChecked};
ghost use Rattle.settled.specs.Settled.{IsProgramSchema};
ghost use Rattle.tagging.specs.First as tagging;
ghost use Rattle.tagging.specs.Tagged.{IsTagged};
ghost use Rattle.tagging.specs.Tags.{label};

/// The tags that can be first in a type of a settled schema are those that can be in the program's type (X.680, clauses
/// 25.6, 27.3 and 29.3). Two settled schemas of a program have the same tags.
pub fn same_tags()
    ensures firsts { (p : Program) (s : List types.Resolved) (i : ℕ) (g : Tag)
        → IsProgramSchema p s
        → (First s i g ↔ tagging.CanBeFirst p.types i (label g)) }
    ensures one { (p : Program) (s u : List types.Resolved) (i : ℕ) (r q : types.Resolved)
        → IsProgramSchema p s
        → IsProgramSchema p u
        → slice_get s i ≡ Some r
        → slice_get u i ≡ Some q
        → r.tags ≡ q.tags }
{
    schema_of::law::lemma_parts_are_written();
    tagging::law::one_path();
}

/// The tags of a settled schema fulfil the rules of an accepted schema, if the program's types bear their tags as X.680
/// requires. A type without a tag is a CHOICE (clause 31.2). Components and alternatives are distinguished by their
/// first tags (clauses 25.6, 27.3 and 29.3). A type has at most six tags (a limit of this compiler). Each component of
/// a SET and each alternative of a CHOICE has one of its own (narrower than X.680). After the marker of a CHOICE the
/// first tags ascend, if the program fulfils the rules on extension markers (clause 29).
pub fn lemma_tags_are_kept()
    ensures tagged { (p : Program) (s : List types.Resolved)
        → IsProgramSchema p s
        → AllTagged s }
    ensures distinct_tags { (p : Program) (s : List types.Resolved)
        → IsTagged p.types
        → IsProgramSchema p s
        → AllHaveDistinctTags s }
    ensures few { (p : Program) (s : List types.Resolved)
        → IsTagged p.types
        → IsProgramSchema p s
        → HasFewTags s }
    ensures components { (p : Program) (s : List types.Resolved) (i : ℕ) (tags : List Tag) (marker : Bool)
        (cs : List types.Component)
        → IsWhole p
        → IsTagged p.types
        → IsProgramSchema p s
        → types.Is s i tags (types.a_set marker cs)
        → AllByRecursion (λ c. HasTag s c.type) cs }
    ensures alternatives { (p : Program) (s : List types.Resolved) (i : ℕ) (tags : List Tag) (marker : Bool)
        (root more : List types.Alternative)
        → IsWhole p
        → IsTagged p.types
        → IsProgramSchema p s
        → types.Is s i tags (types.a_choice root marker more)
        → AllByRecursion (λ a. HasTag s a.type) (root ++ more) }
    ensures ascending { (p : Program) (s : List types.Resolved) (i : ℕ) (tags : List Tag) (marker : Bool)
        (root more : List types.Alternative)
        → KeepAdditions p.types
        → IsProgramSchema p s
        → types.Is s i tags (types.a_choice root marker more)
        → TagsAscend s more }
{
    schema_of::law::lemma_parts_are_written();
}

/// Each type of a settled schema fulfils what a schema requires of it (X.680, clauses 20, 22, 25, 27, 29, 41 and 51).
/// Its constraints have bounds. Its items, bits, components and alternatives have distinct identifiers for names and
/// are where they may be. The types in it are those of the schema, its defaults are values of their types, and no limit
/// is passed.
pub fn lemma_types_are_sound()
    ensures { (p : Program) (s : List Resolved) (t : ℕ) (tags : List Tag) (k : Kind)
        → IsChecked p
        → IsProgramSchema p s
        → HasKeptTags s
        → Is s t tags k
        → schemas.IsSound s k }
{
    schema_of::law::same_values();
    value_notations::law::one_value();
}

/// In a settled schema no component with a DEFAULT has a type that leads back to the list of which it is a component
/// (X.680, clause 25.7).
pub fn no_default_circles()
    ensures { (p : Program) (s : List Resolved) (t : ℕ)
        → IsWhole p
        → IsSoundProgram p
        → IsProgramSchema p s
        → IsDefaultCircle s t
        → ⊥ }
{}

/// A settled schema of a program that fulfils its rules is accepted, if its tags fulfil theirs.
pub fn lemma_program_schema_is_schema()
    ensures { (p : Program) (s : List Resolved)
        → IsChecked p
        → IsProgramSchema p s
        → HasKeptTags s
        → IsSchema s }
{
    lemma_types_are_sound();
    no_default_circles();
}
