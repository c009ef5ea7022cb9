//! A view while it receives the tokens of a message.

ghost use Rattle.asn_base.specs.Types.{Resolved};
ghost use Rattle.ber_source.specs.PrimitiveValue.{IsValueOfToken};
ghost use Rattle.ber_source.specs.Seen.{IsBare, value_token, as_token, token_of};
ghost use Rattle.ber_source.specs.Log.{logged, passes};
ghost use Rattle.ber_source.specs.ViewSink.{GiveTree, IsBuiltOf, IsViewSink};
ghost use Rattle.codec_code.specs.Routines.{routine_at};
ghost use Rattle.octet_answers.specs.States.{begun};
ghost use Rattle.std.specs.Prelude.{◌≡◌, ◌+◌, ◌++◌, ◌∷◌, [], IfOk, length, List, OnOk};

use crate::build::{Build, begin_bare, hold, nothing, take};
use crate::judge::{Judge, at_first, follow, follow_begin, follow_held};
use crate::log::{Log, add, empty};
use crate::{PrimitiveToken, PrimitiveValue, StructToken, Token, TokenSink};
use asn_base::schema::TypeId;
use codec_code::Code;
use decode_faults::ReadFault;
use std::alloc::{AllocError, Global};
use views::View;

/// A view while its message is read. It receives the tokens, and counts the skipped additions. After an allocation
/// failed, it is of no more use.
#[derive(Drop)]
pub struct ViewSink<'c, 'a> {
    pub(crate) code: &'c Code,
    pub(crate) build: Build<'a>,
    pub(crate) skipped: Vec<u8>,
    pub(crate) failed: bool,
    pub(crate) judge: Judge,
    pub(crate) log: Log<'a>,
}

/// The view of a value, and the number of skipped additions that its type lacks. `fits` is true if each value that
/// holds no others is surely one of its type, and each list that must not be empty has an element.
#[derive(Drop)]
pub struct Built<'a> {
    pub view: View<'a>,
    pub skipped: u64,
    pub fits: bool,
}

impl<'c, 'a> ViewSink<'c, 'a> {
    /// A view that has received no token yet, with room for this number of nodes if there is memory for them.
    pub(crate) fn new(alloc: Global, code: &'c Code, room: usize) -> Self
        ensures suits { IsViewSink result code.now }
        ensures nothing { logged result.log ≡ [] }
    {
        ViewSink {
            code,
            build: nothing(alloc, room),
            skipped: Vec::new(alloc),
            failed: false,
            judge: at_first(),
            log: empty(),
        }
    }

    /// Returns the view of the value whose tree the received tokens give, and the number of skipped additions.
    /// `AllocError`: an allocation failed while tokens were received.
    pub fn finish(self) -> Result<Built<'a>, AllocError>
        requires { (s : List Resolved) × IsViewSink self s × GiveTree s (logged self.log) }
        ensures { (s : List Resolved)
            → IsViewSink self.entry s
            → IfOk result (IsBuiltOf s (logged self.entry.log)) }
    {
        if self.failed {
            return Err(AllocError);
        }
        let skipped = as_many(&self.skipped);
        Ok(Built {
            view: self.build.builder.finish(),
            skipped,
            fits: self.judge.fits,
        })
    }
}

/// The number of octets in the list.
fn as_many(list: &Vec<u8>) -> u64
    ensures { result ≡ length list.now.items }
{
    list.len() as u64
}

/// A mark as a token.
pub fn marked<'a>(mark: StructToken) -> Token<'a>
    ensures { token_of result ≡ as_token mark }
{
    match mark {
        StructToken::Component(place) => Token::Component(place),
        StructToken::Chosen(index) => Token::Chosen(index),
        StructToken::Begun(id) => Token::Begun(id),
        StructToken::Ended => Token::Ended,
        StructToken::Passed => Token::Passed,
    }
}

/// Counts one more if the mark is that of a skipped addition.
#[inline(always)]
fn count(skipped: &mut Vec<u8>, mark: StructToken) -> Result<(), AllocError>
    ensures { OnOk result (length skipped.new.items ≡ length skipped.old.items + passes (as_token mark ∷ [])) }
{
    match mark {
        StructToken::Passed => {
            skipped.push(0)?;
            Ok(())
        }
        StructToken::Component(_) => Ok(()),
        StructToken::Chosen(_) => Ok(()),
        StructToken::Begun(_) => Ok(()),
        StructToken::Ended => Ok(()),
    }
}

/// Receives one more token, which has no contents octets.
#[inline(always)]
fn add_mark<'c, 'a>(view_sink: &mut ViewSink<'c, 'a>, mark: StructToken) -> Result<(), AllocError>
    ensures ok { OnOk result (logged view_sink.new.log ≡ logged view_sink.old.log ++ as_token mark ∷ []) }
    ensures suits { OnOk result ((s : List Resolved) → IsViewSink view_sink.old s → IsViewSink view_sink.new s) }
    ensures code { view_sink.new.code.now ≡ view_sink.old.code.now }
{
    take(view_sink.code, &mut view_sink.build, mark)?;
    count(&mut view_sink.skipped, mark)?;
    follow(&mut view_sink.judge, view_sink.code, mark);
    add(&mut view_sink.log, marked(mark));
    Ok(())
}

/// Receives the token that a value of the type begins, which has no node of its own.
#[inline(always)]
fn add_bare<'c, 'a>(view_sink: &mut ViewSink<'c, 'a>, id: TypeId)
    requires { IsBare (routine_at view_sink.old.code.now id.index) }
    ensures tokens { logged view_sink.new.log ≡ logged view_sink.old.log ++ begun id ∷ [] }
    ensures suits { (s : List Resolved) → IsViewSink view_sink.old s → IsViewSink view_sink.new s }
{
    begin_bare(view_sink.code, &mut view_sink.build, id);
    follow_begin(&mut view_sink.judge, id);
    add(&mut view_sink.log, Token::Begun(id));
}

/// Receives the contents octets of a value that holds no others.
#[inline(always)]
fn add_held<'c, 'a>(
    view_sink: &mut ViewSink<'c, 'a>,
    held: PrimitiveToken<'a>,
    decoded: PrimitiveValue<'a>,
) -> Result<(), AllocError>
    requires { IsValueOfToken held decoded }
    ensures ok { OnOk result (logged view_sink.new.log ≡ logged view_sink.old.log ++ value_token held.entry ∷ []) }
    ensures suits { OnOk result ((s : List Resolved) → IsViewSink view_sink.old s → IsViewSink view_sink.new s) }
    ensures code { view_sink.new.code.now ≡ view_sink.old.code.now }
{
    follow_held(&mut view_sink.judge, view_sink.code, held, &decoded);
    hold(view_sink.code, &mut view_sink.build, held, decoded)?;
    add(
        &mut view_sink.log,
        Token::PrimitiveToken {
            kind: held.kind,
            form: held.form,
            octets: held.octets,
            at: held.at,
        },
    );
    Ok(())
}

impl<'c, 'a> TokenSink<'a> for ViewSink<'c, 'a> {
    ghost tokens = { λ t. logged t.log };

    ghost suits = { IsViewSink };

    #[inline(always)]
    fn emit(&mut self, mark: StructToken) -> Result<(), ReadFault> {
        match add_mark(self, mark) {
            Ok(()) => Ok(()),
            Err(_) => {
                self.failed = true;
                Err(ReadFault::Memory)
            }
        }
    }

    #[inline(always)]
    fn begin_bare(&mut self, code: &Code, id: TypeId) -> Result<(), ReadFault> {
        add_bare(self, id);
        Ok(())
    }

    #[inline(always)]
    fn hold(
        &mut self,
        held: PrimitiveToken<'a>,
        decoded: PrimitiveValue<'a>,
    ) -> Result<(), ReadFault> {
        match add_held(self, held, decoded) {
            Ok(()) => Ok(()),
            Err(_) => {
                self.failed = true;
                Err(ReadFault::Memory)
            }
        }
    }
}
