//! The numbers of types, which are given to one level of a type at a time.

ghost use Rattle.std.specs.Prelude.{ℕ, slice_get, ◌≡◌, ◌≤◌, ◌+◌, ◌++◌, ◌<◌, IfOk, IfErr, OnOk, [], ◌∷◌, length, map, Some};
ghost use Rattle.trees.specs.Names.{reference_module, reference_name};
ghost use Rattle.trees.specs.Types.{type_tree_of, type_members, type_member_of};
ghost use Rattle.trees.specs.Values.{name_at};
ghost use Rattle.names.specs.declared.scope.Assigned.TheVariants as assigned;
ghost use Rattle.names.specs.declared.fault.NameFault.TheVariants as faults;
ghost use Rattle.names.specs.declared.sources.AssignedAt.{AssignedAt};
ghost use Rattle.names.specs.Names.{Refers};
ghost use Rattle.names.specs.Sources.{header_of, assignment_of, source_of, sources_of, AllAssigned};
ghost use Rattle.names.specs.proving.Gathering.{syntaxes};
ghost use Rattle.trees.specs.declared.types.TypeSyntax.TheViews.{out-TypeSyntax};
ghost use Rattle.type_table.specs.Faults.{IsFirstNumbering, IsFormAt, IsNumberingFault, IsUnknownAt, IsWrittenAt};
ghost use Rattle.type_table.specs.FirstInList.{IsLimitAt};
ghost use Rattle.type_table.specs.Numbering.{member_sources, inner_source, numbered, form_parts, parts_of, IsKind, IsTop, AreNumberedTypes};
ghost use Rattle.type_table.specs.Seen.{types_of, kind_of, part_of, type_of, form_seen};
ghost use Rattle.type_table.specs.Written.{AreWrittenTypes, parts_written, member_kept, member_written, members_kept, members_written, plain_kept, plain_written, text_kept, text_written};
ghost use Rattle.type_table.specs.proving.Checks.{IsNothing, IsUnknown, IsTypesLimit, IsSourceFault};

use crate::table::{ListMember, Shape, TypeNode};
use limits::MAX_WRITTEN;
use names::fault::source_location;
use names::{Assigned, AssignedAt, Header, Limit, MemberIndex, NameFault, Names, Source};
use std::alloc::{AllocError, Global};
use std::collections::VecDeque;
use trees::{Member, Reference, TypeForm, TypeSyntax};

/// The names of the modules, their heads and all assignments.
#[derive(Clone, Copy)]
struct Program<'a> {
    names: &'a Names,
    headers: &'a [Header],
    assignments: &'a [AssignedAt],
}

/// The names of the modules, and the one in which a type is written.
#[derive(Clone, Copy)]
struct Scope<'a> {
    names: &'a Names,
    within: &'a str,
}

/// The numbers of a type and of what it is written in.
#[derive(Clone, Copy)]
struct Numbers {
    /// The assignment that the type is written in.
    assignment: usize,
    /// The type.
    own: usize,
    /// The first one of the types directly in it.
    first: usize,
}

/// The members of a list with these numbers. Their types get the numbers from `first` on and are added to `parts`.
fn components_of(
    alloc: Global,
    members: Vec<Member<TypeSyntax>>,
    numbers: Numbers,
    parts: &mut VecDeque<Source>,
) -> Result<Vec<ListMember>, AllocError>
    requires few { numbers.first + length members.items ≤ 65536 }
    ensures components { IfOk result
        (λ v. map part_of v.items ≡ numbered numbers.first (type_members (map type_member_of members.items))) }
    ensures parts { OnOk result
        (sources_of parts.new.items ≡ sources_of parts.old.items
        ++ member_sources numbers.assignment numbers.own 0 (type_members (map type_member_of members.items))) }
    ensures written { OnOk result
        (syntaxes parts.new.items ≡ syntaxes parts.old.items ++ map (λ m. m.syntax) members.items) }
    ensures texts { IfOk result (λ v. map member_kept v.items ≡ map member_written members.items) }
{
    let mut components = Vec::new(alloc);
    for Member {
        name,
        syntax,
        presence,
        standing,
    } in members {
        let number = components.len();
        parts.push_back(Source {
            syntax,
            assignment: numbers.assignment,
            place: Some(MemberIndex {
                list: numbers.own,
                number,
            }),
        })?;
        components.push(ListMember {
            name,
            ty: numbers.first + number,
            presence,
            standing,
        })?;
    }
    Ok(components)
}

/// How many types are directly in a type.
fn parts_count(syntax: &TypeSyntax) -> usize
    ensures { (assignment number : ℕ) → result ≡ length (parts_of assignment number (type_tree_of syntax.now)) }
{
    match &syntax.form {
        TypeForm::Simple(_) => 0,
        TypeForm::Reference(_) => 0,
        TypeForm::List(_, _, members) => members.len(),
        TypeForm::Elements(_, _) => 1,
        TypeForm::Tagged(_, _, _) => 1,
    }
}

/// The number of the type that a reference refers to. `UnknownName`: the name is not that of a type. `Memory`: an
/// allocation failed.
fn meant_by(
    alloc: Global,
    names: &Names,
    within: &str,
    reference: &Reference,
) -> Result<usize, NameFault>
    ensures ok { IfOk result
        (λ j. Refers names.now within.now (reference_module reference.now)
        (reference_name reference.now) (assigned.Type j)) }
    ensures fault { IfErr result
        (IsNothing names.now within.now (reference_module reference.now)
        (reference_name reference.now)) }
    ensures at { IfErr result (IsUnknownAt reference.now.at) }
{
    let name = reference.name();
    match names.refers(within, reference.module(), name) {
        Some(Assigned::Type(number)) => Ok(number),
        _ => Err(NameFault::UnknownName(source_location(alloc, within, name, reference.at)?)),
    }
}

/// Adds a type that isn't a member of a list to `parts`. `AllocError` only if an allocation fails.
fn put(inner: TypeSyntax, assignment: usize, parts: &mut VecDeque<Source>) -> Result<(), AllocError>
    ensures parts { OnOk result
        (sources_of parts.new.items ≡ sources_of parts.old.items ++ inner_source assignment (type_tree_of inner)) }
    ensures written { OnOk result (syntaxes parts.new.items ≡ syntaxes parts.old.items ++ inner ∷ []) }
{
    parts.push_back(Source {
        syntax: inner,
        assignment,
        place: None,
    })?;
    Ok(())
}

/// The shape of a type with this form and these numbers. The types directly in it get the numbers from `first` on and
/// are added to `parts`. `UnknownName`: a reference leads to no type. `Memory`: an allocation failed.
fn take_apart(
    alloc: Global,
    scope: Scope<'_>,
    form: TypeForm<TypeSyntax>,
    numbers: Numbers,
    parts: &mut VecDeque<Source>,
) -> Result<Shape, NameFault>
    requires few { numbers.first + length (form_parts numbers.assignment numbers.own (form_seen form)) ≤ 65536 }
    ensures kind { IfOk result
        (λ s. IsKind scope.entry.names.now scope.entry.within.now numbers.first (form_seen form) (kind_of s)) }
    ensures parts { OnOk result
        (sources_of parts.new.items ≡ sources_of parts.old.items
        ++ form_parts numbers.assignment numbers.own (form_seen form)) }
    ensures written { OnOk result
        (syntaxes parts.new.items ≡ syntaxes parts.old.items ++ parts_written form) }
    ensures plain { IfOk result (λ s. plain_kept s ≡ plain_written form) }
    ensures members { IfOk result (λ s. members_kept s ≡ members_written form) }
    ensures fault { IfErr result (IsUnknown scope.entry.names.now scope.entry.within.now (form_seen form)) }
    ensures at { IfErr result (IsFormAt form) }
{
    match form {
        TypeForm::Simple(simple) => Ok(Shape::Simple(simple)),
        TypeForm::Reference(reference) => {
            match meant_by(alloc, scope.names, scope.within, &reference) {
                Ok(meant) => Ok(Shape::Reference(meant)),
                Err(fault) => Err(fault),
            }
        }
        TypeForm::List(kind, marker, members) => {
            let components = components_of(alloc, members, numbers, parts)?;
            Ok(Shape::Members(kind, marker, components))
        }
        TypeForm::Elements(kind, element) => {
            put(Box::into_inner(element), numbers.assignment, parts)?;
            Ok(Shape::Elements(kind, numbers.first))
        }
        TypeForm::Tagged(tag, word, inner) => {
            put(Box::into_inner(inner), numbers.assignment, parts)?;
            Ok(Shape::Tagged(tag, word, numbers.first))
        }
    }
}

/// The fault `Limit` for too many written types, at a type of this assignment. `Memory` only if an allocation fails.
pub fn too_many(alloc: Global, header: &Header, assignment: &AssignedAt, at: usize) -> NameFault
    ensures limit { IsTypesLimit (name_at header.now.name) (name_at assignment.now.name) result }
    ensures at { IsLimitAt at result }
{
    match source_location(
        alloc,
        header.name.it.as_str(),
        assignment.name.it.as_str(),
        at,
    ) {
        Ok(source_location) => NameFault::Limit(Limit::Types, source_location),
        Err(_) => NameFault::Memory,
    }
}

/// The written type of a source that gets this number. The types directly in it are added to the other sources.
///
/// `UnknownName`: a reference leads to no type. `Limit`: there are too many types. `Memory`: an allocation failed.
fn written_of(
    alloc: Global,
    program: Program<'_>,
    source: Source,
    number: usize,
    parts: &mut VecDeque<Source>,
) -> Result<TypeNode, NameFault>
    requires assigned { source.assignment < length program.assignments.now }
    requires placed { (k : ℕ) (a : AssignedAt)
        → slice_get program.assignments.now k ≡ Some a
        → a.module < length program.headers.now }
    requires few { number + 1 + length parts.old.items ≤ 65536 }
    ensures top { IfOk result
        (λ w. IsTop program.entry.names.now (map header_of program.entry.headers.now)
        (map assignment_of program.entry.assignments.now)
        (number + 1 + length parts.old.items) (source_of source) (type_of w)) }
    ensures parts { OnOk result
        (sources_of parts.new.items ≡ sources_of parts.old.items
        ++ parts_of source.assignment number (type_tree_of source.syntax)) }
    ensures written { OnOk result
        (syntaxes parts.new.items
        ≡ syntaxes parts.old.items ++ parts_written (out-TypeSyntax source.syntax).form) }
    ensures few { OnOk result (number + 1 + length parts.new.items ≤ 65536) }
    ensures fault { IfErr result
        (IsSourceFault program.entry.names.now (map header_of program.entry.headers.now)
        (map assignment_of program.entry.assignments.now) number
        (number + 1 + length parts.old.items) (source_of source)) }
    ensures text { IfOk result (λ w. text_kept w ≡ text_written source.syntax) }
    ensures at { IfErr result (IsWrittenAt source.syntax) }
{
    let (assignments, headers) = (program.assignments, program.headers);
    let assignment = &assignments[source.assignment];
    let header = &headers[assignment.module];
    let first = number + 1 + parts.len();
    if MAX_WRITTEN - first < parts_count(&source.syntax) {
        return Err(too_many(alloc, header, assignment, source.syntax.at));
    }
    let Source {
        syntax,
        assignment: owner,
        place,
    } = source;
    let TypeSyntax {
        at,
        form,
        constraints,
    } = syntax;
    let scope = Scope {
        names: program.names,
        within: header.name.it.as_str(),
    };
    let numbers = Numbers {
        assignment: owner,
        own: number,
        first,
    };
    match take_apart(alloc, scope, form, numbers, parts) {
        Ok(shape) => Ok(TypeNode {
            at,
            shape,
            constraints,
            default: header.default,
            place,
            assignment: owner,
        }),
        Err(fault) => Err(fault),
    }
}

/// All written types in the order of their numbers: first those of the assignments, and then the parts of each type.
///
/// `UnknownName`: a reference leads to no type. `Limit`: more than 65,536 types are written. `Memory`: an allocation
/// failed. The fault is that of the first type in the order of their numbers.
pub fn number_all(
    alloc: Global,
    names: &Names,
    headers: &[Header],
    assignments: &[AssignedAt],
    roots: VecDeque<Source>,
) -> Result<Vec<TypeNode>, NameFault>
    requires assigned { AllAssigned (length assignments.now) (sources_of roots.items) }
    requires placed { (k : ℕ) (a : AssignedAt) → slice_get assignments.now k ≡ Some a → a.module < length headers.now }
    requires few { length roots.items ≤ 65536 }
    ensures ok { IfOk result
        (λ v. AreNumberedTypes names.now (map header_of headers.now) (map assignment_of assignments.now)
        (sources_of roots.items) (types_of v.items)) }
    ensures few { IfOk result (λ v. length v.items ≤ 65536) }
    ensures written { IfOk result (λ v. AreWrittenTypes (syntaxes roots.items) v.items) }
    ensures fault { IfErr result
        (IsNumberingFault names.now (map header_of headers.now) (map assignment_of assignments.now)
        (sources_of roots.items)) }
    ensures first { IfErr result
        (IsFirstNumbering names.now (map header_of headers.now) (map assignment_of assignments.now)
        (sources_of roots.items) (syntaxes roots.items)) }
{
    let program = Program {
        names,
        headers,
        assignments,
    };
    let mut sources = roots;
    let mut types = Vec::new(alloc);
    for number in 0..MAX_WRITTEN {
        match sources.pop_front() {
            None => return Ok(types),
            Some(source) => match written_of(alloc, program, source, number, &mut sources) {
                Ok(written) => types.push(written)?,
                Err(fault) => return Err(fault),
            },
        }
    }
    Ok(types)
}
