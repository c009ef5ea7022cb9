//! The values that are open while a message is read, without its tokens.

ghost use Rattle.asn_base.specs.Types.{Resolved};
ghost use Rattle.ber_reader.specs.Followed.{IsOpenSink, IsSeen};
ghost use Rattle.ber_reader.specs.Opened.{opens};
ghost use Rattle.ber_reader.specs.Paths.{begun_in};
ghost use Rattle.ber_source.specs.Log.{logged};
ghost use Rattle.ber_source.specs.Seen.{token_of};
ghost use Rattle.std.specs.Prelude.{◌≡◌, ◌+◌, ◌++◌, ◌∷◌, [], IfOk, length, List, OnOk};

use crate::open::{OpenValue, take};
use crate::path::begun_by;
use asn_base::schema::TypeId;
use ber_source::log::{Log, add, empty};
use ber_source::{PrimitiveToken, PrimitiveValue, StructToken, Token, TokenSink, marked};
use codec_code::Code;
use decode_faults::ReadFault;
use std::alloc::{AllocError, Global};

/// A receiver of the tokens of a message, which keeps none of them. It has the values that are open, each with the part
/// of it that is being read. `begun` has an octet for each value that began. After an allocation failed, the receiver
/// is of no more use.
#[derive(Drop)]
pub struct OpenSink<'a> {
    pub(crate) values: Vec<OpenValue>,
    pub(crate) begun: Vec<u8>,
    pub(crate) failed: bool,
    pub(crate) log: Log<'a>,
}

impl<'a> OpenSink<'a> {
    /// A receiver that has received no token yet.
    pub(crate) fn new(alloc: Global) -> Self
        ensures suits { (s : List Resolved) → IsOpenSink result s }
        ensures nothing { logged result.log ≡ [] }
    {
        OpenSink {
            values: Vec::new(alloc),
            begun: Vec::new(alloc),
            failed: false,
            log: empty(),
        }
    }

    /// The values that are open, the outermost first. `AllocError`: an allocation failed while tokens were received.
    pub(crate) fn finish(self) -> Result<Vec<OpenValue>, AllocError>
        ensures { (s : List Resolved)
            → IsOpenSink self.entry s
            → IfOk result (λ list. list.items ≡ opens (logged self.entry.log)) }
    {
        if self.failed {
            return Err(AllocError);
        }
        Ok(self.values)
    }
}

/// The number of octets in the list.
pub(crate) fn as_many(list: &Vec<u8>) -> usize
    ensures { result ≡ length list.now.items }
{
    list.len()
}

/// Counts one more if the token begins a value.
fn count(begun: &mut Vec<u8>, token: Token<'_>) -> Result<(), AllocError>
    ensures { OnOk result (length begun.new.items ≡ length begun.old.items + begun_in (token_of token.entry ∷ [])) }
{
    if begun_by(token) == 1 {
        begun.push(0)?;
    }
    Ok(())
}

/// Receives one more token.
fn receive<'a>(receiver: &mut OpenSink<'a>, token: Token<'a>) -> Result<(), AllocError>
    ensures ok { OnOk result (logged receiver.new.log ≡ logged receiver.old.log ++ token_of token.entry ∷ []) }
    ensures seen { OnOk result (IsSeen receiver.old → IsSeen receiver.new) }
    ensures failed { OnOk result (receiver.new.failed ≡ receiver.old.failed) }
{
    let begun = as_many(&receiver.begun);
    count(&mut receiver.begun, token)?;
    take(&mut receiver.values, token)?;
    add(&mut receiver.log, token);
    Ok(())
}

impl<'a> TokenSink<'a> for OpenSink<'a> {
    ghost tokens = { λ f. logged f.log };

    ghost suits = { IsOpenSink };

    fn emit(&mut self, mark: StructToken) -> Result<(), ReadFault> {
        match receive(self, marked(mark)) {
            Ok(()) => Ok(()),
            Err(_) => {
                self.failed = true;
                Err(ReadFault::Memory)
            }
        }
    }

    fn begin_bare(&mut self, code: &Code, id: TypeId) -> Result<(), ReadFault> {
        match receive(self, Token::Begun(id)) {
            Ok(()) => Ok(()),
            Err(_) => {
                self.failed = true;
                Err(ReadFault::Memory)
            }
        }
    }

    fn hold(
        &mut self,
        held: PrimitiveToken<'a>,
        decoded: PrimitiveValue<'a>,
    ) -> Result<(), ReadFault> {
        let token = Token::PrimitiveToken {
            kind: held.kind,
            form: held.form,
            octets: held.octets,
            at: held.at,
        };
        match receive(self, token) {
            Ok(()) => Ok(()),
            Err(_) => {
                self.failed = true;
                Err(ReadFault::Memory)
            }
        }
    }
}
