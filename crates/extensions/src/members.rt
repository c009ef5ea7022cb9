//! The components and alternatives of a list.

ghost use Rattle.std.specs.Prelude.{◌≡◌, ◌++◌, ◌∷◌, [], ℕ, List, false, None, Some, IfOk, OnOk, length, map, option_map, slice_get};
ghost use Rattle.asn_base.specs.Abstract.{AbstractValue};
ghost use Rattle.asn_base.specs.Types as types;
ghost use Rattle.asn_base.specs.Seen.{alternative_of, component_of, kind_of, presence_of as presence_seen};
ghost use Rattle.trees.specs.declared.types.Standing.TheVariants.{Root};
ghost use Rattle.trees.specs.Types.{default as default'};
ghost use Rattle.trees.specs.Values.{Name, Tree};
ghost use Rattle.type_table.specs.Seen.{part_of};
ghost use Rattle.type_table.specs.Table.{members, Part as Part'};
ghost use Rattle.resolve.specs.Program.{Program};
ghost use Rattle.settled.specs.additions.Additions.{IsAdded, has_default};
ghost use Rattle.settled.specs.schema_of.SchemaOf.{AreAlternativesOf, AreComponentsOf, IsAlternativeOf, IsComponentOf, IsPresenceOf};
ghost use Rattle.extensions.specs.proving.Defaults.{AreDefaultsOf, IsDefaultOf};
ghost use Rattle.extensions.specs.proving.Tables.{defaults_seen, shared_seen};
ghost use Rattle.extensions.specs.proving.Cores.{AdditionsLast, HaveNoDefaultAfter, IsCoreOf, IsGiven, is_optional as is_optional'};

use crate::pool::Shared;
use asn_base::schema::{Addition, Alternative, Alternatives, Component, Core, Presence, TypeId};
use std::alloc::{AllocError, Global};
use trees::{ListKind, PresenceSyntax, Standing};
use type_table::ListMember as Part;

/// Whether a component is OPTIONAL.
fn is_optional(part: &Part) -> bool
    ensures { result ≡ is_optional' (part_of part.now).presence }
{
    match &part.presence {
        PresenceSyntax::Mandatory => false,
        PresenceSyntax::Optional => true,
        PresenceSyntax::Default(_) => false,
    }
}

/// The presence of a component with a DEFAULT, which shares the value.
fn default_value(default: &Option<Shared>) -> Result<Presence, AllocError>
    requires { default.now ≡ None → ⊥ }
    ensures { IfOk result (λ r. (v : AbstractValue) → option_map shared_seen default.now ≡ Some v
        → presence_seen r ≡ types.default v) }
{
    match default {
        None => unreachable!(),
        Some(value) => match value.held.clone() {
            Ok(shared) => Ok(Presence::Default(shared)),
            Err(fault) => Err(fault),
        },
    }
}

/// The presence of a component in the root. `default` is the value of its DEFAULT, if it has one.
fn in_root(part: &Part, default: &Option<Shared>) -> Result<Presence, AllocError>
    requires given { IsGiven (part_of part.now) (option_map shared_seen default.now) }
    ensures { (p : Program) (M : Name) →
        (part_of part.now).standing ≡ Root →
        IsDefaultOf p M (part_of part.now) (option_map shared_seen default.now) →
        IfOk result (λ r. IsPresenceOf p M (part_of part.now) (presence_seen r)) }
{
    match &part.presence {
        PresenceSyntax::Mandatory => Ok(Presence::Mandatory),
        PresenceSyntax::Optional => Ok(Presence::Optional),
        PresenceSyntax::Default(_) => default_value(default),
    }
}

/// The presence of a component. `default` is the value of its DEFAULT, if it has one.
fn presence(part: &Part, default: &Option<Shared>) -> Result<Presence, AllocError>
    requires given { IsGiven (part_of part.now) (option_map shared_seen default.now) }
    requires plain { IsAdded (part_of part.now) → has_default (part_of part.now).presence ≡ false }
    ensures { (p : Program) (M : Name) →
        IsDefaultOf p M (part_of part.now) (option_map shared_seen default.now) →
        IfOk result (λ r. IsPresenceOf p M (part_of part.now) (presence_seen r)) }
{
    match part.standing {
        Standing::Root => in_root(part, default),
        Standing::Addition(group) => {
            let optional = is_optional(part);
            Ok(Presence::Addition(Addition { optional, group }))
        }
    }
}

/// A component with the value of its DEFAULT, if it has one.
fn component(part: &Part, default: &Option<Shared>) -> Result<Component, AllocError>
    requires given { IsGiven (part_of part.now) (option_map shared_seen default.now) }
    requires plain { IsAdded (part_of part.now) → has_default (part_of part.now).presence ≡ false }
    ensures { (p : Program) (M : Name) →
        IsDefaultOf p M (part_of part.now) (option_map shared_seen default.now) →
        IfOk result (λ c. IsComponentOf p M (part_of part.now) (component_of c)) }
{
    let name = match part.name.it.clone() {
        Ok(name) => name,
        Err(fault) => return Err(fault),
    };
    match presence(part, default) {
        Ok(presence) => Ok(Component {
            name,
            ty: TypeId { index: part.ty },
            presence,
        }),
        Err(fault) => Err(fault),
    }
}

/// The components of a list, in order, with the values of their DEFAULTs.
fn components(
    alloc: Global,
    parts: &[Part],
    defaults: &[Option<Shared>],
) -> Result<Vec<Component>, AllocError>
    requires given { (p : Program) × (M : Name) ×
        AreDefaultsOf p M (map part_of parts.now) (defaults_seen defaults.now) }
    requires plain { HaveNoDefaultAfter (map part_of parts.now) }
    ensures { (p : Program) (M : Name) →
        AreDefaultsOf p M (map part_of parts.now) (defaults_seen defaults.now) →
        IfOk result (λ v. AreComponentsOf p M (map part_of parts.now) (map component_of v.items)) }
{
    let mut all = Vec::new(alloc);
    for at in 0..parts.len() {
        match component(&parts[at], &defaults[at]) {
            Ok(one) => match all.push(one) {
                Ok(()) => {}
                Err(_) => return Err(AllocError),
            },
            Err(fault) => return Err(fault),
        }
    }
    Ok(all)
}

/// An alternative.
fn alternative(part: &Part) -> Result<Alternative, AllocError>
    ensures { IfOk result (λ a. IsAlternativeOf (part_of part.now) (alternative_of a)) }
{
    Ok(Alternative {
        name: part.name.it.clone()?,
        ty: TypeId { index: part.ty },
    })
}

/// Adds an alternative.
fn add(alternatives: &mut Vec<Alternative>, one: Alternative) -> Result<(), AllocError>
    ensures { OnOk result
        (map alternative_of alternatives.new.items ≡ map alternative_of alternatives.old.items ++ alternative_of one
        ∷ []) }
{
    alternatives.push(one)?;
    Ok(())
}

/// Adds the next alternative, to those of the root or to those after the marker.
fn put(
    root: &mut Vec<Alternative>,
    additions: &mut Vec<Alternative>,
    part: &Part,
) -> Result<(), AllocError>
    ensures { (cs : List Part') →
        AreAlternativesOf cs (map alternative_of root.old.items) (map alternative_of additions.old.items) →
        ((m : ℕ) (d : Part') → slice_get cs m ≡ Some d → IsAdded d → IsAdded (part_of part.now)) →
        OnOk result (AreAlternativesOf (cs ++ part_of part.now ∷ []) (map alternative_of root.new.items)
        (map alternative_of additions.new.items)) }
{
    let one = match alternative(part) {
        Ok(one) => one,
        Err(fault) => return Err(fault),
    };
    match part.standing {
        Standing::Root => add(root, one),
        Standing::Addition(_) => add(additions, one),
    }
}

/// The alternatives of a CHOICE, in order: those of the root and those after the marker.
fn alternatives(alloc: Global, marker: bool, parts: &[Part]) -> Result<Alternatives, AllocError>
    requires { AdditionsLast (map part_of parts.now) }
    ensures marker { IfOk result (λ a. a.extensible ≡ marker) }
    ensures parts { IfOk result (λ a. AreAlternativesOf (map part_of parts.now) (map alternative_of a.root.items)
        (map alternative_of a.additions.items)) }
{
    let mut root = Vec::new(alloc);
    let mut additions = Vec::new(alloc);
    for at in 0..parts.len() {
        put(&mut root, &mut additions, &parts[at])?;
    }
    Ok(Alternatives {
        root,
        extensible: marker,
        additions,
    })
}

/// The SEQUENCE, SET or CHOICE of a schema, with the values of its DEFAULTs.
pub(crate) fn list_core(
    alloc: Global,
    kind: ListKind,
    marker: bool,
    parts: &[Part],
    defaults: &[Option<Shared>],
) -> Result<Core, AllocError>
    requires given { (p : Program) × (M : Name) ×
        AreDefaultsOf p M (map part_of parts.now) (defaults_seen defaults.now) }
    requires plain { HaveNoDefaultAfter (map part_of parts.now) }
    requires following { AdditionsLast (map part_of parts.now) }
    ensures { (p : Program) (i : ℕ) (M : Name) →
        AreDefaultsOf p M (map part_of parts.now) (defaults_seen defaults.now) →
        IfOk result (λ c. IsCoreOf p i M (members kind marker (map part_of parts.now)) (kind_of c)) }
{
    match kind {
        ListKind::Sequence => match components(alloc, parts, defaults) {
            Ok(components) => Ok(Core::Sequence(marker, components)),
            Err(fault) => Err(fault),
        },
        ListKind::Set => match components(alloc, parts, defaults) {
            Ok(components) => Ok(Core::Set(marker, components)),
            Err(fault) => Err(fault),
        },
        ListKind::Choice => match alternatives(alloc, marker, parts) {
            Ok(alternatives) => Ok(Core::Choice(alternatives)),
            Err(fault) => Err(fault),
        },
    }
}
