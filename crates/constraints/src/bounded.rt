//! Tagged modules whose constraints have a meaning.

ghost use Rattle.std.specs.Prelude.{ℕ, ℤ, IsTrue, ◌↔◌, ◌≡◌, ◌⊎◌, ◌<◌, false, true, pos, length, IfErr, MatchOption, MatchResult, IsSomeAnd};
ghost use Rattle.asn_base.specs.declared.strings.StringKind.{StringKind};
ghost use Rattle.asn_base.specs.Schemas.{IsLeast, IsGreatest};
ghost use Rattle.asn_base.specs.Seen.{bounds_of};
ghost use Rattle.asn_base.specs.Typed.{IsInSome};
ghost use Rattle.trees.specs.Types.{a_restricted_string};
ghost use Rattle.type_table.specs.Seen.{kind_of};
ghost use Rattle.type_table.specs.Table.{WrittenKind, simple};
ghost use Rattle.range_ends.specs.Ends.{IsTypeOfKind};
ghost use Rattle.constraints.specs.Constraints.{is_integer as is_integer', has_alphabet as has_alphabet', has_visible_size as has_visible_size'};
ghost use Rattle.constraints.specs.Allowed.{IsNumberAllowed, IsCounted, IsInAlphabet, AreVisible, AreCharacters, LeaveTheSame};
ghost use Rattle.constraints.specs.Bounded.{AreBounded};
ghost use Rattle.constraints.specs.Tables.{AreBoundsOf};
ghost use Rattle.constraints.specs.Faults.{IsRightFault};
ghost use Rattle.constraints.specs.First.{IsFirst};
ghost use Rattle.constraints.specs.proving.Columns.{IsLeft};

use crate::column::{BoundTable, TableRef, column_of, core_at};
use crate::fault::{BoundFault, reported};
use crate::limit::Limit;
use crate::meaning::{has_alphabet, has_size, is_integer};
use asn_base::constraint::Bounds;
use asn_base::schema::TypeId;
use range_ends::ReferenceTable;
use ranges::Codes;
use resolve::Linked;
use std::alloc::Global;
use std::marker::Model;
use tagging::Tagged;
use trees::Simple;
use type_table::Shape;

/// Tagged modules in which every constraint has a meaning and allows something. The value borrows the modules, so its
/// numbers of types are theirs.
pub struct Bounded<'a> {
    tagged: &'a Tagged<'a>,
    table: TableRef<'a>,
}

impl<'a> Model for Bounded<'a> {
    ghost use Rattle.std.specs.Coded.{codes};
    ghost use Rattle.resolve.specs.Codes.{tree_code};
    ghost use Rattle.resolve.specs.Program.{WrittenProgram};
    ghost use Rattle.trees.specs.contracts.value.ValueSyntax as value_syntax;

    ghost coded = { Prim.hlevel (codes, tree_code, value_syntax.the_row.coded) };

    ghost Value = { WrittenProgram };

    ghost view = { λ b. b.tagged.now };

    ghost use Rattle.constraints.specs.proving.Columns.{HoldsOf, held};

    ghost invariant = { λ b. HoldsOf b.tagged.now.program (held b.table) };
}

impl<'a> Bounded<'a> {
    /// Tagged modules and their table, as [`bound`] returns them. The call takes no memory, and a time that is the same
    /// for all modules.
    pub fn with_table(tagged: &'a Tagged<'a>, table: &'a BoundTable) -> Bounded<'a>
        requires { AreBoundsOf tagged.now.program table.now }
        ensures { result ≡ tagged.now }
    {
        Bounded {
            tagged,
            table: TableRef::Lent(table),
        }
    }

    /// The tagged modules.
    pub fn tagged(&self) -> &'a Tagged<'a>
        ensures { result.now ≡ self.now }
    {
        self.tagged
    }

    /// The linked modules.
    pub fn linked(&self) -> &'a Linked
        ensures { result.now ≡ self.now }
    {
        self.tagged.linked()
    }

    /// Whether the number is that of one of the types.
    pub fn has(&self, ty: TypeId) -> bool
        ensures { IsTrue result ↔ ty.index < length self.now.program.types }
    {
        self.tagged.has(ty)
    }

    /// What holds of all modules whose constraints are bounded.
    pub fn lemma_whole(&self)
        ensures { AreBounded self.now.program }
    {
        let _tagged = self.tagged;
    }

    /// What the constraints of a type allow.
    pub(crate) fn limit(&self, ty: usize) -> Option<&Limit>
        requires { ty < length self.now.program.types }
        ensures { IsSomeAnd result (λ l. (k : WrittenKind) → IsTypeOfKind self.now.program.types ty k →
            IsLeft self.now.program k ty l.now) }
    {
        self.table.get().limit(ty)
    }

    /// A number that types share if [`Bounded::leave_the_same`] is true of them: types that are references to one type,
    /// or tags before it, without constraints of their own. The number is below the number of types.
    pub fn limit_number(&self, ty: TypeId) -> Option<usize> {
        self.table.get().number(ty.index)
    }

    /// Whether the constraints of two types are known to allow the same, if references and tags lead from both to one
    /// kind. The function takes no memory.
    pub fn leave_the_same(&self, one: TypeId, other: TypeId) -> bool
        ensures { result ≡ true → (k : WrittenKind) → IsTypeOfKind self.now.program.types one.index k →
            IsTypeOfKind self.now.program.types other.index k
            → LeaveTheSame self.now.program k one.index other.index }
    {
        let column = self.table.get();
        match column.number(one.index) {
            None => false,
            Some(number) => match column.number(other.index) {
                None => false,
                Some(same) => number == same,
            },
        }
    }

    /// The shape that a type's references and tags lead to.
    pub(crate) fn shape(&self, ty: usize) -> &'a Shape
        requires { ty < length self.now.program.types }
        ensures { IsTypeOfKind self.now.program.types ty (kind_of result.now) }
    {
        core_at(self.tagged.linked(), ty)
    }
}

/// Returns what is found once for the constraints of tagged modules (X.680, clauses 49 to 51), or the first fault, as
/// [`bound`] returns it.
pub fn bound_table(alloc: Global, tagged: &Tagged<'_>) -> Result<BoundTable, BoundFault>
    ensures found { MatchResult result (AreBoundsOf tagged.now.program) (IsRightFault tagged.now.program) }
    ensures written { IfErr result (IsFirst tagged.now.program tagged.now.types tagged.now.assignments) }
{
    let linked = tagged.linked();
    let scope = match ReferenceTable::of(alloc, linked) {
        Ok(scope) => scope,
        Err(_) => return Err(BoundFault::Memory),
    };
    match column_of(alloc, &scope) {
        Ok(column) => Ok(column),
        Err(fault) => Err(reported(alloc, linked, fault)),
    }
}

/// Returns tagged modules with what their constraints allow (X.680, clauses 49 to 51), or the first fault, with its
/// module, the name of the assignment and the place. `Reconstrained`, `WrongKind`, `MarkerPlace`, `LowerAboveUpper` and
/// `Circular` are faults of one constraint, and `Empty` is one of a type. `Memory`: an allocation failed. Types are
/// checked by their numbers, before each one those that it leads to, and constraints in order.
pub fn bound<'a>(alloc: Global, tagged: &'a Tagged<'a>) -> Result<Bounded<'a>, BoundFault>
    ensures found { MatchResult result
        (λ b. (b ≡ tagged.now) × AreBounded tagged.now.program)
        (IsRightFault tagged.now.program) }
    ensures written { IfErr result (IsFirst tagged.now.program tagged.now.types tagged.now.assignments) }
{
    match bound_table(alloc, tagged) {
        Ok(table) => Ok(Bounded {
            tagged,
            table: TableRef::Owned(table),
        }),
        Err(fault) => Err(fault),
    }
}

/// The least and the greatest number or size that is allowed, and whether there is an extension marker.
pub(crate) fn seen(limit: &Limit) -> Bounds
    requires { 0 < length limit.now.numbers }
    ensures least { IsLeast (λ z. IsInSome z limit.now.numbers) result.least }
    ensures greatest { IsGreatest (λ z. IsInSome z limit.now.numbers) result.greatest }
    ensures extensible { result.extensible ≡ limit.now.extensible }
{
    Bounds {
        least: limit.numbers.least(),
        greatest: limit.numbers.greatest(),
        extensible: limit.extensible,
    }
}

/// The bounds of the numbers or sizes of a type that the packed encoding uses.
fn visible(bounded: &Bounded<'_>, ty: usize) -> Option<Bounds>
    requires { ty < length bounded.now.program.types }
    ensures { IsSomeAnd result (λ b. (k : WrittenKind) → IsTypeOfKind bounded.now.program.types ty k
        → AreVisible bounded.now.program k ty (bounds_of b)) }
{
    let _shape = bounded.shape(ty);
    match bounded.limit(ty) {
        None => None,
        Some(limit) => Some(seen(limit)),
    }
}

/// Whether the packed encoding uses the size of a type.
fn has_visible_size(shape: &Shape) -> bool
    ensures { result ≡ has_visible_size' (kind_of shape.now) }
{
    match shape {
        Shape::Simple(Simple::Utf8String) => false,
        _ => has_size(shape),
    }
}

/// Whether a number can count: any number of an INTEGER, and otherwise a size, which is not below 0.
fn counted(shape: &Shape, number: i128) -> bool
    ensures { IsTrue result ↔ IsCounted (kind_of shape.now) number }
{
    is_integer(shape) || 0 <= number
}

/// Whether a number is in the root, or, if there is an extension marker, can count.
fn leaves(limit: &Limit, shape: &Shape, number: i128) -> bool
    ensures { IsTrue result ↔ (IsInSome number limit.now.numbers
        ⊎ ((limit.now.extensible ≡ true) × IsCounted (kind_of shape.now) number)) }
{
    limit.numbers.has(number) || (limit.extensible && counted(shape, number))
}

/// The bounds of the numbers of an INTEGER type that the packed encoding uses (X.691, clauses 10.3 and 12.1). They are
/// the least and the greatest number that its constraints allow, None where there is no bound, and whether an extension
/// marker is in them. The result is None for any other type. The function takes no memory.
pub fn range(bounded: &Bounded<'_>, ty: TypeId) -> Option<Bounds>
    requires { ty.index < length bounded.now.program.types }
    ensures { (k : WrittenKind) → IsTypeOfKind bounded.now.program.types ty.index k → MatchOption result
        (is_integer' k ≡ false)
        (λ b. (is_integer' k ≡ true) × AreVisible bounded.now.program k ty.index (bounds_of b)) }
{
    if is_integer(bounded.shape(ty.index)) {
        visible(bounded, ty.index)
    } else {
        None
    }
}

/// The bounds of the sizes that the packed encoding uses, as [`range`] (X.691, clauses 10.3, 16, 17, 20, 22 and 30).
/// The type is a BIT STRING without named bits, an OCTET STRING, one of the four restricted strings, or a SEQUENCE OF
/// or SET OF. A size is in bits, octets, characters or elements; without a constraint the least is 0. The result is
/// None for any other type; the size of a UTF8String isn't used. The function takes no memory.
pub fn size(bounded: &Bounded<'_>, ty: TypeId) -> Option<Bounds>
    requires { ty.index < length bounded.now.program.types }
    ensures { (k : WrittenKind) → IsTypeOfKind bounded.now.program.types ty.index k → MatchOption result
        (has_visible_size' k ≡ false)
        (λ b. (has_visible_size' k ≡ true) × AreVisible bounded.now.program k ty.index (bounds_of b)) }
{
    if has_visible_size(bounded.shape(ty.index)) {
        visible(bounded, ty.index)
    } else {
        None
    }
}

/// The codes of the characters that the constraints of one of the four restricted strings allow (X.691, clause 30.5).
/// Without a constraint they are those of all its characters. The result is None for any other type. The function takes
/// no memory: the codes are the bits of a `u128`.
pub fn alphabet(bounded: &Bounded<'_>, ty: TypeId) -> Option<Codes>
    requires { ty.index < length bounded.now.program.types }
    ensures { (k : WrittenKind) → IsTypeOfKind bounded.now.program.types ty.index k → MatchOption result
        (has_alphabet' k ≡ false)
        (AreCharacters bounded.now.program k ty.index) }
{
    if !has_alphabet(bounded.shape(ty.index)) {
        return None;
    }
    match bounded.limit(ty.index) {
        None => None,
        Some(limit) => Some(limit.codes.copy()),
    }
}

/// Whether a number may be the value of an INTEGER type: its constraints allow the number, or they have an extension
/// marker. The function takes no memory.
pub fn allows_number(bounded: &Bounded<'_>, ty: TypeId, number: i128) -> bool
    requires { ty.index < length bounded.now.program.types }
    ensures { (k : WrittenKind) → IsTypeOfKind bounded.now.program.types ty.index k →
        (IsTrue result ↔ IsNumberAllowed bounded.now.program k ty.index number) }
{
    match bounded.limit(ty.index) {
        None => false,
        Some(limit) => leaves(limit, bounded.shape(ty.index), number),
    }
}

/// Whether a value of a type other than INTEGER may have this size, in bits, octets, characters or elements. It may if
/// the constraints of the type allow the size, or have an extension marker. The function takes no memory.
pub fn allows_size(bounded: &Bounded<'_>, ty: TypeId, size: usize) -> bool
    requires { ty.index < length bounded.now.program.types }
    ensures { (k : WrittenKind) → IsTypeOfKind bounded.now.program.types ty.index k →
        (IsTrue result ↔ IsNumberAllowed bounded.now.program k ty.index (pos size)) }
{
    allows_number(bounded, ty, size as i128)
}

/// Whether the character with this code is allowed in a value of one of the four restricted strings: it is one of that
/// type's characters, and constraints allow it. The function takes no memory.
pub fn allows_character(bounded: &Bounded<'_>, ty: TypeId, code: u32) -> bool
    requires { ty.index < length bounded.now.program.types }
    ensures { (s : StringKind) → IsTypeOfKind bounded.now.program.types ty.index (simple (a_restricted_string s)) →
        (IsTrue result ↔ IsInAlphabet bounded.now.program s ty.index code) }
{
    match bounded.limit(ty.index) {
        None => false,
        Some(limit) => limit.codes.has(code),
    }
}

impl<'a> Drop for Bounded<'a> {
    fn drop(self) {
        let Bounded {
            tagged: _,
            table: _,
        } = self;
    }
}
