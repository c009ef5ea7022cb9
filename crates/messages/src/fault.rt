//! Why a request is refused, with which number and name, and with which exit status.

ghost use Rattle.std.specs.Prelude.{◌≡◌};
ghost use Rattle.messages.specs.Classes.{class_of, number_of, name_of};
ghost use Rattle.messages.specs.Status.{status_of};
ghost use Rattle.messages.specs.declared.fault.Fault.TheVariants.{Memory};

use crate::classes::fault_class;
use account_text::Stop;
use decode_faults::{ReadFault, Refusal};
use front_end::CompileError;
use front_end::value_diagnostics::ValueDiagnostic;
use notation::SyntaxFault;
use std::alloc::{AllocError, AllocFailed};
use text::LexFault;
use thiserror::Error;

/// What was found in octets that are refused, and what was expected in its place, in words.
#[derive(Debug)]
pub struct Finding {
    pub found: String,
    pub expected: String,
}

/// Why octets can't be read as a value, and where: the place of the octet, from 0, and the part of the value that was
/// being read there. The part is given from the outermost one in, as `a.b[2].c`; it is empty if it was the whole value.
/// There is a finding if more can be said than the fault alone says.
#[derive(Debug, Error)]
#[error("{fault} at octet {offset}")]
pub struct DecodeError {
    pub fault: ReadFault,
    pub offset: usize,
    pub path: String,
    pub finding: Option<Finding>,
}

/// Why bits can't be read as a value, and where: the place of the bit, from 0, and the part of the value that was being
/// read there. The part is given as that of [`DecodeError`]; `allowed` says in words what the constraints of its type
/// allow, if that is why.
#[derive(Debug, Error)]
#[error("{refusal} at bit {bit}")]
pub struct BitDecodeError {
    pub refusal: Refusal,
    pub bit: usize,
    pub path: String,
    pub allowed: Option<String>,
}

/// Why the text of a notation, which is given in place of the name of a value, stands for no value of the type. Each
/// place is one in that text, and not in the text of a module.
#[derive(Debug, Error)]
pub enum NotationFault {
    /// The text has no tokens (X.680, clause 12). The place is that of an octet.
    #[error("{0}")]
    Octets(LexFault),
    /// The tokens of the text are not those of one value (X.680, clause 17). The place is that of a token.
    #[error("{0}")]
    Tokens(SyntaxFault),
    /// The notation stands for no value of the type. The offset is that of an octet of the text, and the module is the
    /// one in which the names of the notation are read.
    #[error("{0}")]
    Value(ValueDiagnostic),
}

/// A refusal: its text begins with its number and name, except for help that was asked for.
#[derive(Debug, Drop, Error)]
pub enum Fault {
    /// There was not enough memory.
    #[error("error 1 Memory: out of memory")]
    Memory,
    /// A file could not be read; the string is its name.
    #[error("error 3 File: {0}: the file can not be read")]
    File(String),
    /// No file has this name.
    #[error("error 3 File: {0}: there is no such file")]
    NoFile(String),
    /// This is a folder, and no file.
    #[error("error 3 File: {0}: this is a folder")]
    Folder(String),
    /// The command line asks for nothing that the program does; the string says what is wrong with it.
    #[error("error 4 BadWords: {0}")]
    BadWords(String),
    /// Help was asked for; the string is its text.
    #[error("{0}")]
    Help(String),
    /// The texts are not accepted.
    #[error("error {0}")]
    Front(CompileError),
    /// The newer texts are not accepted, where versions are compared.
    #[error("error {0}")]
    Newer(CompileError),
    /// The name of a type, as the caller wrote it, that no module has.
    #[error("error 31 UnknownName: {0}")]
    NoType(String),
    /// The name of a type, as the caller wrote it, that no newer module has, where versions are compared.
    #[error("error 31 UnknownName: {0}")]
    NoNewerType(String),
    /// The name of a value, as the caller wrote it, that no module has.
    #[error("error 31 UnknownName: {0}")]
    NoValue(String),
    /// The notation of the value stands for no value of the type. The place is in the text of the module that the fault
    /// names.
    #[error("error {0}")]
    Value(ValueDiagnostic),
    /// The text of a notation stands for no value of the type. The place is in that text.
    #[error("error {0}")]
    Notation(NotationFault),
    /// The encoding has more than 16,777,216 octets. In PER the nodes of the value and the octets of its character
    /// strings may be more than that instead.
    #[error("error 71 TooLong: the octets are more than 16777216, or in PER the nodes and octets of character strings")]
    TooLong,
    /// The output took this many octets and then no more.
    #[error("error 72 Device: the output took {0} octets and then no more")]
    Device(u64),
    /// The octets can't be read as a value of the type.
    #[error("error {0}")]
    DecodeError(DecodeError),
    /// The bits of the octets can't be read as a value of the type.
    #[error("error {0}")]
    BitDecodeError(BitDecodeError),
    /// A message in PER has more than 16,777,216 octets.
    #[error("error 2 Limit(Message): a message has at most 16777216 octets")]
    MessageLimit,
    /// The octets are not the text of an account; `Stop` says where it stops being one.
    #[error("error 100 NotAccount: {0}")]
    NotAccount(Stop),
}

impl<T: Drop> From<AllocFailed<T>> for Fault {
    ghost from_gives = { λ _ e. e ≡ Memory };

    fn from(_error: AllocFailed<T>) -> Fault {
        Fault::Memory
    }
}

impl From<AllocError> for Fault {
    ghost from_gives = { λ _ e. e ≡ Memory };

    fn from(_error: AllocError) -> Fault {
        Fault::Memory
    }
}

/// The number of a fault's class, which its text contains.
pub fn number(fault: &Fault) -> u8
    ensures { result ≡ number_of fault.now }
{
    fault_class(fault).number
}

/// The name of a fault's class, which its text contains after the number; the name of a limit is in parentheses.
pub fn name(fault: &Fault) -> &'static str
    ensures { result.now ≡ name_of fault.now }
{
    fault_class(fault).name
}

/// The exit status of a program that ends with this fault. It is 0 if help was asked for, 2 for a bad command line, and
/// 3 if memory ran out or a file or a device failed. Any other refusal gives 1.
pub fn status(fault: &Fault) -> u8
    ensures { result ≡ status_of (number_of fault.now) }
{
    match number(fault) {
        5 => 0,
        4 => 2,
        1 | 3 | 72 => 3,
        _ => 1,
    }
}

impl Drop for Finding {
    fn drop(self) {
        let Finding {
            found: _,
            expected: _,
        } = self;
    }
}

impl Drop for DecodeError {
    fn drop(self) {
        let DecodeError {
            fault: _,
            offset: _,
            path: _,
            finding: _,
        } = self;
    }
}

impl Drop for BitDecodeError {
    fn drop(self) {
        let BitDecodeError {
            refusal: _,
            bit: _,
            path: _,
            allowed: _,
        } = self;
    }
}

impl Drop for NotationFault {
    fn drop(self) {
        match self {
            NotationFault::Octets(_) => {}
            NotationFault::Tokens(_) => {}
            NotationFault::Value(_) => {}
        }
    }
}
