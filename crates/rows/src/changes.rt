//! The messages and accounts of rows, changed in each place.
//!
//! A message is the octets that a row gives or that it asks for. Each proper beginning of it must be refused as
//! truncated. With one bit changed it must be refused by its reader, or it is another message: its value, written and
//! read again, is the same, and by distinguished rules the octets are the same too. Of an account each number is one up
//! or down, each row is left out, doubled or of another kind: then no answer may be yes. With one bit of its octets
//! changed the answer must be no.

use crate::sweeps::{with_bit, wrong_answers};
use row_format::Row;
use std::alloc::{AllocError, Global};
use test_program_answers::asnc::{Fault, Kit, Rules, ValueGiven, number};
use test_program_answers::command_line::Verb;
use test_program_answers::{Asked, asked_of};

/// The most octets of a message that is changed.
const MOST: usize = 600;

/// The rules of a message.
#[derive(Clone, Copy, PartialEq, Eq)]
enum Coding {
    Tagged(Rules),
    Packed,
}

/// A message of a row. `given`: the row gives it, so that it may be refused.
#[derive(Drop)]
struct Message {
    octets: Vec<u8>,
    coding: Coding,
    given: bool,
}

/// Reads and writes messages of one type.
#[derive(Drop)]
struct Codec<'a> {
    kit: &'a Kit,
    ty: &'a str,
    coding: Coding,
}

impl Codec<'_> {
    /// The value of a message as a text, and how many additions were skipped; or the number of the refusal.
    fn read(&self, alloc: Global, octets: &[u8]) -> Result<(String, u64), u8> {
        let answer = match self.coding {
            Coding::Tagged(rules) => self.kit.ber(alloc, self.ty, octets, rules),
            Coding::Packed => self.kit.unper(alloc, self.ty, octets),
        };
        match answer {
            Ok(read) => Ok(read),
            Err(fault) => Err(number(&fault)),
        }
    }

    /// The message of a value, by distinguished or packed rules. Nothing if it is refused.
    fn write(&self, alloc: Global, text: &str) -> Option<Vec<u8>> {
        let value = ValueGiven::Written(text.as_bytes());
        match self.coding {
            Coding::Tagged(_) => match self.kit.der(alloc, self.ty, value) {
                Ok((octets, _account)) => Some(octets),
                Err(_) => None,
            },
            Coding::Packed => match self.kit.uper(alloc, self.ty, value) {
                Ok(octets) => Some(octets),
                Err(_) => None,
            },
        }
    }

    /// The same by distinguished rules in place of basic ones.
    fn strict(&self) -> Codec<'_> {
        let coding = match self.coding {
            Coding::Tagged(_) => Coding::Tagged(Rules::Der),
            Coding::Packed => Coding::Packed,
        };
        Codec {
            kit: self.kit,
            ty: self.ty,
            coding,
        }
    }

    /// Whether a value that was read from octets is written and read again as the same value. If no addition was
    /// skipped, distinguished octets are the same too, and so is the text, but for basic octets, which may have zero
    /// bits after named ones, or members in another order.
    fn comes_back(&self, alloc: Global, octets: &[u8], text: &str, skipped: u64) -> bool {
        let strict = self.strict();
        let Some(again) = strict.write(alloc, text) else {
            return false;
        };
        let whole = skipped == 0 && strict.coding == self.coding;
        if whole && self.coding != Coding::Packed && again.as_slice() != octets {
            return false;
        }
        let same = match strict.read(alloc, again.as_slice()) {
            Ok((same, 0)) => same,
            _ => return false,
        };
        if whole && same.as_str() != text {
            return false;
        }
        match strict.write(alloc, same.as_str()) {
            Some(last) => last.as_slice() == again.as_slice(),
            None => false,
        }
    }

    /// Whether octets are refused by the reader, or as a value that comes back.
    fn is_right(&self, alloc: Global, octets: &[u8]) -> bool {
        match self.read(alloc, octets) {
            Ok((text, skipped)) => self.comes_back(alloc, octets, text.as_str(), skipped),
            Err(number) => number == 2 || (number >= 80 && number < 100),
        }
    }

    /// How many proper beginnings of a message have another answer than that they are truncated.
    fn wrong_beginnings(&self, alloc: Global, octets: &[u8]) -> usize {
        let truncated = match self.coding {
            Coding::Tagged(_) => 80,
            Coding::Packed => 90,
        };
        let mut wrong: usize = 0;
        for n in 0..octets.len() {
            match self.read(alloc, &octets[..n]) {
                Err(number) if number == truncated => {}
                _ => wrong = wrong.saturating_add(1),
            }
        }
        wrong
    }

    /// How many messages with one bit of this octet changed have a wrong answer.
    fn wrong_bits_of(
        &self,
        alloc: Global,
        octets: &[u8],
        place: usize,
    ) -> Result<usize, AllocError> {
        let mut wrong: usize = 0;
        for bit in &[1u8, 2, 4, 8, 16, 32, 64, 128] {
            let changed = with_bit(alloc, octets, place, *bit)?;
            if !self.is_right(alloc, changed.as_slice()) {
                wrong = wrong.saturating_add(1);
            }
        }
        Ok(wrong)
    }

    /// How many messages with one bit changed have a wrong answer.
    fn wrong_bits(&self, alloc: Global, octets: &[u8]) -> Result<usize, AllocError> {
        let mut wrong: usize = 0;
        for place in 0..octets.len() {
            wrong = wrong.saturating_add(self.wrong_bits_of(alloc, octets, place)?);
        }
        Ok(wrong)
    }
}

/// The octets that an answer is the hexadecimal digits of; no octets if it isn't.
fn octets_in(alloc: Global, answer: &str) -> Vec<u8> {
    match hex::decode(alloc, answer.as_bytes()) {
        Ok(octets) => octets,
        Err(_) => Vec::new(alloc),
    }
}

/// The octets that a job gives.
fn given_octets(alloc: Global, asked: &Asked) -> Result<Vec<u8>, AllocError> {
    let mut octets = Vec::new(alloc);
    octets.extend_from_slice(asked.octets())?;
    Ok(octets)
}

/// The message that a job gives or asks for, if there is one.
fn message_of(alloc: Global, asked: &Asked, answer: &str) -> Result<Option<Message>, AllocError> {
    let (coding, given, octets) = match asked.job.verb {
        Verb::Der => (Coding::Tagged(Rules::Der), false, octets_in(alloc, answer)),
        Verb::Uper => (Coding::Packed, false, octets_in(alloc, answer)),
        Verb::Ber if asked.job.strict => {
            (
                Coding::Tagged(Rules::Der),
                true,
                given_octets(alloc, asked)?,
            )
        }
        Verb::Ber => (
            Coding::Tagged(Rules::Ber),
            true,
            given_octets(alloc, asked)?,
        ),
        Verb::Unper => (Coding::Packed, true, given_octets(alloc, asked)?),
        Verb::Account | Verb::List | Verb::Later | Verb::Show | Verb::Check => return Ok(None),
    };
    if octets.is_empty() || octets.len() > MOST {
        return Ok(None);
    }
    Ok(Some(Message {
        octets,
        coding,
        given,
    }))
}

/// How many messages and accounts were changed, and how many of their changes had a wrong answer.
#[derive(Clone, Copy, Default)]
pub struct Changes {
    pub messages: usize,
    pub accounts: usize,
    pub wrong: usize,
}

impl Changes {
    /// Changes the message of a job, if the message is accepted.
    fn change_message(
        &mut self,
        alloc: Global,
        asked: &Asked,
        message: &Message,
    ) -> Result<(), AllocError> {
        let kit = match Kit::open(alloc, asked.texts()) {
            Ok(kit) => kit,
            Err(Fault::Memory) => return Err(AllocError),
            Err(_) => return Ok(()),
        };
        let codec = Codec {
            kit: &kit,
            ty: asked.job.ty.as_str(),
            coding: message.coding,
        };
        let octets = message.octets.as_slice();
        if codec.read(alloc, octets).is_err() {
            if !message.given {
                self.wrong = self.wrong.saturating_add(1);
            }
            return Ok(());
        }
        let beginnings = codec.wrong_beginnings(alloc, octets);
        let bits = codec.wrong_bits(alloc, octets)?;
        self.messages = self.messages.saturating_add(1);
        self.wrong = self.wrong.saturating_add(beginnings).saturating_add(bits);
        Ok(())
    }

    /// Changes the account of a job, if the answer is yes.
    fn change_account(
        &mut self,
        alloc: Global,
        asked: &Asked,
        answer: &str,
    ) -> Result<(), AllocError> {
        if answer != "yes" {
            return Ok(());
        }
        let text = str::from_utf8(asked.account()).unwrap_or("").trim();
        self.accounts = self.accounts.saturating_add(1);
        self.wrong = self
            .wrong
            .saturating_add(wrong_answers(alloc, asked, text)?);
        Ok(())
    }

    /// Changes the message or the account of a row with this answer, if it has one. Returns how many changes had a
    /// wrong answer.
    pub fn change(&mut self, alloc: Global, row: &Row, answer: &str) -> Result<usize, AllocError> {
        let before = self.wrong;
        let asked = match asked_of(alloc, row) {
            Ok(asked) => asked,
            Err(_) => return Ok(0),
        };
        if asked.job.raw {
            return Ok(0);
        }
        match asked.job.verb {
            Verb::Check => self.change_account(alloc, &asked, answer)?,
            _ => {
                if let Some(message) = message_of(alloc, &asked, answer)? {
                    self.change_message(alloc, &asked, &message)?;
                }
            }
        }
        Ok(self.wrong.saturating_sub(before))
    }
}
