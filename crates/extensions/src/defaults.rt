//! The values of DEFAULTs.

ghost use Rattle.std.specs.Prelude.{◌≡◌, ◌++◌, ◌∷◌, [], ◌<◌, IfOk, IfErr, OnOk, length, map, option_map, slice_get, Some};
ghost use Rattle.type_table.specs.Lists.{AreSound};
ghost use Rattle.type_table.specs.Seen.{part_of, type_of, types_of};
ghost use Rattle.typed_values.specs.Known.{AreKnown};
ghost use Rattle.extensions.specs.proving.Defaults.{AreDefaultsOf, IsDefaultOf};
ghost use Rattle.extensions.specs.Faults.{IsFirstDefault, IsFirstIn, IsWrongDefault};
ghost use Rattle.extensions.specs.proving.Tables.{AreDefaultsAt, AreTabled, HaveTypes, IsFirstAt, Reports, defaults_seen, shared_seen, table_seen};

use crate::builder::Builder;
use crate::pool::{Pool, Shared};
use crate::wrong::{Wrong, value_of};
use asn_base::schema::TypeId;
use constraints::Bounded;
use std::alloc::{AllocError, Global};
use trees::PresenceSyntax;
use type_table::{ListMember, Shape, TypeNode};
use typed_values::{Defaults, ValueSite};

/// The value of a component's DEFAULT, whose notation is in this module, or None if the component has no DEFAULT.
fn default_of<'a>(
    builder: Builder<'_, 'a>,
    defaults: &mut Defaults,
    pool: &mut Pool,
    within: &'a str,
    component: &'a ListMember,
) -> Result<Option<Shared>, Wrong<'a>>
    requires there { component.now.ty < length builder.bounded.now.program.types }
    requires sound { AreSound builder.bounded.now.program.types }
    requires known { AreKnown builder.bounded.now.program defaults.old }
    ensures value { IfOk result
        (λ v. IsDefaultOf builder.entry.bounded.now.program within.now (part_of component.now)
        (option_map shared_seen v)) }
    ensures fault { IfErr result (Reports (IsWrongDefault builder.entry.bounded.now within.now component.now)) }
    ensures known { AreKnown builder.entry.bounded.now.program defaults.new }
{
    let ty = TypeId {
        index: component.ty,
    };
    match &component.presence {
        PresenceSyntax::Mandatory => Ok(None),
        PresenceSyntax::Optional => Ok(None),
        PresenceSyntax::Default(notation) => {
            let at = ValueSite {
                ty,
                within,
                notation,
            };
            match value_of(builder.alloc, builder.bounded, defaults, at) {
                Ok(value) => match pool.place(builder.alloc, builder.bounded.linked(), at, value) {
                    Ok(shared) => Ok(Some(shared)),
                    Err(_) => Err(Wrong::Memory),
                },
                Err(wrong) => Err(wrong),
            }
        }
    }
}

/// Adds a value, or None. `AllocError` only if an allocation fails.
fn add(values: &mut Vec<Option<Shared>>, value: Option<Shared>) -> Result<(), AllocError>
    ensures { OnOk result
        (defaults_seen values.new.items ≡ defaults_seen values.old.items ++ option_map shared_seen value ∷ []) }
{
    values.push(value)?;
    Ok(())
}

/// The values of the DEFAULTs of a list's components. The list is in this module.
fn defaults_in<'a>(
    builder: Builder<'_, 'a>,
    defaults: &mut Defaults,
    pool: &mut Pool,
    within: &'a str,
    components: &'a [ListMember],
) -> Result<Vec<Option<Shared>>, Wrong<'a>>
    requires there { HaveTypes (length builder.bounded.now.program.types) (map part_of components.now) }
    requires sound { AreSound builder.bounded.now.program.types }
    requires known { AreKnown builder.bounded.now.program defaults.old }
    ensures values { IfOk result
        (λ v. AreDefaultsOf builder.entry.bounded.now.program within.now (map part_of components.now)
        (defaults_seen v.items)) }
    ensures fault { IfErr result (Reports (IsFirstIn builder.entry.bounded.now within.now components.now)) }
    ensures known { AreKnown builder.entry.bounded.now.program defaults.new }
{
    let mut values = Vec::new(builder.alloc);
    for at in 0..components.len() {
        match default_of(builder, defaults, pool, within, &components[at]) {
            Ok(value) => match add(&mut values, value) {
                Ok(()) => {}
                Err(_) => return Err(Wrong::Memory),
            },
            Err(wrong) => return Err(wrong),
        }
    }
    Ok(values)
}

/// The values of the DEFAULTs in a type. The result is empty if the type isn't a list of components.
fn defaults_at<'a>(
    builder: Builder<'_, 'a>,
    defaults: &mut Defaults,
    pool: &mut Pool,
    ty: usize,
    written: &'a TypeNode,
) -> Result<Vec<Option<Shared>>, Wrong<'a>>
    requires there { ty < length builder.bounded.now.program.types }
    requires is { slice_get builder.bounded.now.program.types ty ≡ Some (type_of written.now) }
    requires text { slice_get builder.bounded.now.types ty ≡ Some written.now }
    requires sound { AreSound builder.bounded.now.program.types }
    requires known { AreKnown builder.bounded.now.program defaults.old }
    ensures values { IfOk result (λ v. AreDefaultsAt builder.entry.bounded.now.program ty (defaults_seen v.items)) }
    ensures fault { IfErr result (Reports (IsFirstAt builder.entry.bounded.now ty)) }
    ensures known { AreKnown builder.entry.bounded.now.program defaults.new }
{
    let linked = builder.bounded.linked();
    linked.lemma_whole();
    let home = linked.home(TypeId { index: ty });
    match &written.shape {
        Shape::Members(_, _, components) => {
            defaults_in(builder, defaults, pool, home.module, components)
        }
        Shape::Simple(_) => Ok(Vec::new(builder.alloc)),
        Shape::Reference(_) => Ok(Vec::new(builder.alloc)),
        Shape::Tagged(_, _, _) => Ok(Vec::new(builder.alloc)),
        Shape::Elements(_, _) => Ok(Vec::new(builder.alloc)),
    }
}

/// Adds a list of values. `AllocError` only if an allocation fails.
fn put(table: &mut Vec<Vec<Option<Shared>>>, values: Vec<Option<Shared>>) -> Result<(), AllocError>
    ensures { OnOk result (table_seen table.new.items ≡ table_seen table.old.items ++ defaults_seen values.items ∷ []) }
{
    table.push(values)?;
    Ok(())
}

/// The values of all DEFAULTs, by the numbers of the types that they are in. The error is the fault of the first
/// DEFAULT that isn't a value of its component's type, or `Memory`.
pub(crate) fn all_defaults<'a>(
    alloc: Global,
    bounded: &Bounded<'a>,
    defaults: &mut Defaults,
    types: &'a [TypeNode],
) -> Result<Vec<Vec<Option<Shared>>>, Wrong<'a>>
    requires types { types_of types.now ≡ bounded.now.program.types }
    requires text { types.now ≡ bounded.now.types }
    requires sound { AreSound bounded.now.program.types }
    requires known { AreKnown bounded.now.program defaults.old }
    ensures table { IfOk result (λ t. AreTabled bounded.now.program (length bounded.now.program.types)
        (table_seen t.items)) }
    ensures fault { IfErr result (Reports (IsFirstDefault bounded.now)) }
    ensures known { AreKnown bounded.now.program defaults.new }
{
    let mut pool = match Pool::of(alloc, bounded.linked().values().len()) {
        Ok(pool) => pool,
        Err(_) => return Err(Wrong::Memory),
    };
    let builder = Builder { alloc, bounded };
    let mut table = Vec::new(alloc);
    for ty in 0..types.len() {
        match defaults_at(builder, defaults, &mut pool, ty, &types[ty]) {
            Ok(values) => match put(&mut table, values) {
                Ok(()) => {}
                Err(_) => return Err(Wrong::Memory),
            },
            Err(wrong) => return Err(wrong),
        }
    }
    Ok(table)
}
