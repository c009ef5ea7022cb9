//! The classes of faults: each has a number and a name.

ghost use Rattle.messages.specs.Classes.{IsClass, class_of, front_class_of, text_class_of, tree_class_of};
ghost use Rattle.messages.specs.Classes.{name_class_of, tag_class_of, bit_class_of, bound_class_of};
ghost use Rattle.messages.specs.Classes.{addition_class_of, notation_class_of, reason_class_of, read_class_of};

use crate::fault::{Fault, NotationFault};
use decode_faults::{ReadFault, Refusal};
use front_end::CompileError;
use front_end::additions::ExtFault;
use front_end::constraints::BoundFault;
use front_end::tagging::TagFault;
use front_end::value_diagnostics::Reason;
use names::{Limit, NameFault};
use notation::SyntaxFault;
use text::LexFault;

/// A number and a name.
#[derive(Clone, Copy)]
pub(crate) struct Class {
    pub(crate) number: u8,
    pub(crate) name: &'static str,
}

/// The class of a number and a name.
fn is(number: u8, name: &'static str) -> Class
    ensures { IsClass result (number, name.now) }
{
    Class { number, name }
}

/// The class of a fault.
pub(crate) fn fault_class(fault: &Fault) -> Class
    ensures { IsClass result (class_of fault.now) }
{
    match fault {
        Fault::Memory => is(1, "Memory"),
        Fault::File(_) | Fault::NoFile(_) | Fault::Folder(_) => is(3, "File"),
        Fault::BadWords(_) => is(4, "BadWords"),
        Fault::Help(_) => is(5, "Help"),
        Fault::Front(fault) | Fault::Newer(fault) => of_front(fault),
        Fault::NoType(_) | Fault::NoNewerType(_) | Fault::NoValue(_) => is(31, "UnknownName"),
        Fault::Value(value_error) => of_reason(value_error.reason),
        Fault::Notation(fault) => of_notation(fault),
        Fault::TooLong => is(71, "TooLong"),
        Fault::Device(_) => is(72, "Device"),
        Fault::DecodeError(unread) => of_reading(unread.fault),
        Fault::BitDecodeError(unread) => of_bits(unread.refusal),
        Fault::MessageLimit => is(2, "Limit(Message)"),
        Fault::NotAccount(_) => is(100, "NotAccount"),
    }
}

fn of_front(fault: &CompileError) -> Class
    ensures { IsClass result (front_class_of fault.now) }
{
    match fault {
        CompileError::Memory => is(1, "Memory"),
        CompileError::Text(_, fault) => of_text(fault),
        CompileError::Tree(_, fault) => of_tree(fault),
        CompileError::Name(fault) => of_name(fault),
        CompileError::Tag(fault) => of_tag(fault),
        CompileError::Bound(fault) => of_bound(fault),
        CompileError::Additions(fault) => of_addition(fault),
        CompileError::Default(value_error) | CompileError::Assigned(value_error) => of_reason(
            value_error.reason,
        ),
    }
}

fn of_text(fault: &LexFault) -> Class
    ensures { IsClass result (text_class_of fault.now) }
{
    match fault {
        LexFault::Memory => is(1, "Memory"),
        LexFault::Limit(text::Limit::Text, _) => is(2, "Limit(Text)"),
        LexFault::Limit(text::Limit::Integer, _) => is(2, "Limit(Integer)"),
        LexFault::NotUtf8(_) => is(10, "NotUtf8"),
        LexFault::BadCharacter(_) => is(11, "BadCharacter"),
        LexFault::OpenComment(_) => is(12, "OpenComment"),
        LexFault::OpenString(_) => is(13, "OpenString"),
        LexFault::BadNumber(_) => is(14, "BadNumber"),
        LexFault::BadName(_) => is(15, "BadName"),
    }
}

fn of_tree(fault: &SyntaxFault) -> Class
    ensures { IsClass result (tree_class_of fault.now) }
{
    match fault {
        SyntaxFault::Memory => is(1, "Memory"),
        SyntaxFault::Limit(parser_combinators::Limit::Nesting, _) => is(2, "Limit(Nesting)"),
        SyntaxFault::Limit(parser_combinators::Limit::Integer, _) => is(2, "Limit(Integer)"),
        SyntaxFault::Limit(parser_combinators::Limit::TagNumber, _) => is(2, "Limit(TagNumber)"),
        SyntaxFault::Unexpected(_) => is(20, "Unexpected"),
        SyntaxFault::OutOfProfile(_) => is(21, "OutOfProfile"),
    }
}

fn of_name(fault: &NameFault) -> Class
    ensures { IsClass result (name_class_of fault.now) }
{
    match fault {
        NameFault::Memory => is(1, "Memory"),
        NameFault::Limit(Limit::Modules, _) => is(2, "Limit(Modules)"),
        NameFault::Limit(Limit::Types, _) => is(2, "Limit(Types)"),
        NameFault::Limit(Limit::Values, _) => is(2, "Limit(Values)"),
        NameFault::Limit(Limit::Members, _) => is(2, "Limit(Members)"),
        NameFault::Limit(Limit::Items, _) => is(2, "Limit(Items)"),
        NameFault::Limit(Limit::NamedBit, _) => is(2, "Limit(NamedBit)"),
        NameFault::Limit(Limit::Integer, _) => is(2, "Limit(Integer)"),
        NameFault::Twice(_) => is(30, "Twice"),
        NameFault::UnknownName(_) => is(31, "UnknownName"),
        NameFault::NotExported(_) => is(32, "NotExported"),
        NameFault::Circular(_) => is(33, "Circular"),
        NameFault::UnknownModule(_) => is(34, "UnknownModule"),
    }
}

fn of_tag(fault: &TagFault) -> Class
    ensures { IsClass result (tag_class_of fault.now) }
{
    match fault {
        TagFault::Memory => is(1, "Memory"),
        TagFault::Limit(front_end::tagging::Limit::Tags, _) => is(2, "Limit(Tags)"),
        TagFault::Limit(front_end::tagging::Limit::TagNumber, _) => is(2, "Limit(TagNumber)"),
        TagFault::TagClash(_) => is(40, "TagClash"),
        TagFault::ImplicitChoice(_) => is(41, "ImplicitChoice"),
        TagFault::UntaggedChoice(_) => is(42, "UntaggedChoice"),
        TagFault::MixedAutomatic(_) => is(43, "MixedAutomatic"),
    }
}

fn of_bound(fault: &BoundFault) -> Class
    ensures { IsClass result (bound_class_of fault.now) }
{
    match fault {
        BoundFault::Memory => is(1, "Memory"),
        BoundFault::Circular(_) => is(33, "Circular"),
        BoundFault::Empty(_) => is(50, "Empty"),
        BoundFault::WrongKind(_) => is(51, "WrongKind"),
        BoundFault::Reconstrained(_) => is(52, "Reconstrained"),
        BoundFault::LowerAboveUpper(_) => is(53, "LowerAboveUpper"),
        BoundFault::MarkerPlace(_) => is(55, "MarkerPlace"),
    }
}

fn of_addition(fault: &ExtFault) -> Class
    ensures { IsClass result (addition_class_of fault.now) }
{
    match fault {
        ExtFault::Memory => is(1, "Memory"),
        ExtFault::MarkerPlace(_) => is(55, "MarkerPlace"),
        ExtFault::AdditionOrder(_) => is(56, "AdditionOrder"),
        ExtFault::DefaultAddition(_) => is(57, "DefaultAddition"),
    }
}

fn of_reason(reason: Reason) -> Class
    ensures { IsClass result (reason_class_of reason) }
{
    match reason {
        Reason::Depth => is(2, "Limit(Depth)"),
        Reason::Nodes => is(2, "Limit(Nodes)"),
        Reason::Oid => is(2, "Limit(Oid)"),
        Reason::NoSuchName => is(31, "UnknownName"),
        Reason::Circular => is(33, "Circular"),
        Reason::NotOfType | Reason::OutOfOrder => is(60, "NotOfType"),
        Reason::Outside => is(61, "OutsideConstraint"),
        Reason::NoSuchItem | Reason::UnknownBit => is(62, "UnknownItem"),
        Reason::UnknownAlternative | Reason::UnknownField => is(62, "UnknownItem"),
        Reason::Missing => is(63, "Missing"),
        Reason::Repeated => is(64, "Repeated"),
    }
}

fn of_notation(fault: &NotationFault) -> Class
    ensures { IsClass result (notation_class_of fault.now) }
{
    match fault {
        NotationFault::Octets(fault) => of_text(fault),
        NotationFault::Tokens(fault) => of_tree(fault),
        NotationFault::Value(value_error) => of_reason(value_error.reason),
    }
}

fn of_reading(fault: ReadFault) -> Class
    ensures { IsClass result (read_class_of fault) }
{
    match fault {
        ReadFault::Memory => is(1, "Memory"),
        ReadFault::MessageLimit => is(2, "Limit(Message)"),
        ReadFault::IntegerLimit => is(2, "Limit(Integer)"),
        ReadFault::OidLimit => is(2, "Limit(Oid)"),
        ReadFault::Truncated => is(80, "Truncated"),
        ReadFault::Indefinite => is(81, "Indefinite"),
        ReadFault::BadLength => is(82, "BadLength"),
        ReadFault::BadTag => is(83, "BadTag"),
        ReadFault::UnexpectedTag => is(84, "UnexpectedTag"),
        ReadFault::Missing => is(85, "Missing"),
        ReadFault::BadContents => is(86, "BadContents"),
        ReadFault::EmptySegments => is(87, "EmptySegments"),
        ReadFault::OutsideConstraint => is(88, "OutsideConstraint"),
        ReadFault::Trailing => is(89, "Trailing"),
        ReadFault::TooDeep => is(95, "TooDeep"),
        ReadFault::NotDer => is(96, "NotDer"),
    }
}

fn of_bits(refusal: Refusal) -> Class
    ensures { IsClass result (bit_class_of refusal) }
{
    match refusal {
        Refusal::IntegerLimit => is(2, "Limit(Integer)"),
        Refusal::OidLimit => is(2, "Limit(Oid)"),
        Refusal::NodesLimit => is(2, "Limit(Nodes)"),
        Refusal::Truncated => is(90, "Truncated"),
        Refusal::NotCanonical => is(91, "NotCanonical"),
        Refusal::Outside => is(92, "OutsideConstraint"),
        Refusal::UnknownAlternative => is(93, "UnknownAlternative"),
        Refusal::UnknownEnumeration => is(93, "UnknownEnumeration"),
        Refusal::Padding => is(94, "Padding"),
        Refusal::TooDeep => is(95, "TooDeep"),
        Refusal::TooManyAdditions => is(97, "TooManyAdditions"),
    }
}
