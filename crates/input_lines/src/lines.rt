//! Lines of a reader.

ghost use Rattle.std.specs.Io.KnownBytes.{IsAtEnd, Keeps};
ghost use Rattle.std.specs.Prelude.{◌≡◌, ◌<◌, ◌≤◌, ℕ, List, [], IfOk, OnOk, length};
ghost use Rattle.input_lines.specs.Remaining.{remaining_of};
ghost use Rattle.input_lines.specs.Lines.{HasNoLine, TakesLine};
ghost use Rattle.input_lines.specs.proving.Parts.{IsTaken};
ghost use Rattle.input_lines.specs.declared.lines.NextLine.TheVariants.{End, Line, Long};

use crate::fill::fill;
use crate::step::take_line;
use std::alloc::Global;
use std::io;
use std::io::Read;

/// How many octets a line may have, without its end.
pub const MAX_LINE: usize = 33_554_432;

/// What comes next in a reader of lines.
#[derive(Clone, Copy, Debug, PartialEq, Eq)]
pub enum NextLine {
    /// A line.
    Line,
    /// A line with more octets than [`MAX_LINE`].
    Long,
    /// No further line.
    End,
}

/// The lines of a reader. A line ends with LF, and the last one may end with the reader's octets.
#[derive(Drop)]
pub struct InputLines<R: Read> {
    reader: R,
    /// What was read last.
    part: Vec<u8>,
    /// How many octets of it were taken.
    at: usize,
}

/// What a reader of lines took of a part.
#[derive(Clone, Copy)]
pub(crate) enum Taken {
    /// The rest of a line, and its end.
    Ended,
    /// Octets of a line that goes on.
    More,
    /// Nothing, since there is nothing left.
    AtEnd,
}

/// What a line is, of which all octets were taken.
fn whole(line: &[u8]) -> NextLine
    ensures line { length line.now ≤ 33554432 → result ≡ Line }
    ensures long { 33554432 < length line.now → result ≡ Long }
{
    if line.len() > MAX_LINE {
        NextLine::Long
    } else {
        NextLine::Line
    }
}

/// What a line is that ends with all octets.
fn last(line: &[u8]) -> NextLine
    ensures end { line.now ≡ [] → result ≡ End }
    ensures line { 0 < length line.now → length line.now ≤ 33554432 → result ≡ Line }
    ensures long { 33554432 < length line.now → result ≡ Long }
{
    if line.is_empty() {
        NextLine::End
    } else {
        whole(line)
    }
}

impl<R: Read> InputLines<R> {
    /// The lines of what this reader gives from here on.
    pub fn of(alloc: Global, reader: R) -> Self
        ensures { remaining_of R.remaining result ≡ R.remaining reader }
    {
        InputLines {
            reader,
            part: Vec::new(alloc),
            at: 0,
        }
    }

    /// Reads the next part if all octets of the last one were taken.
    fn refill(&mut self) -> io::Result<()>
        ensures kept { OnOk result (Keeps (remaining_of R.remaining self.old) (remaining_of R.remaining self.new)) }
        ensures end { OnOk result (length self.new.part.items ≤ self.new.at
            → IsAtEnd (remaining_of R.remaining self.new)) }
    {
        if self.at >= self.part.len() {
            self.at = 0;
            fill(&mut self.reader, &mut self.part)?;
        }
        Ok(())
    }

    /// Takes what there is of a line in the last part, or in the next one if that was taken.
    fn take_part(&mut self, line: &mut Vec<u8>) -> io::Result<Taken>
        ensures { IfOk result (IsTaken (remaining_of R.remaining self.old) (remaining_of R.remaining self.new)
            line.old.items line.new.items) }
    {
        self.refill()?;
        if self.at >= self.part.len() {
            return Ok(Taken::AtEnd);
        }
        let step = take_line(line, &self.part[self.at..])?;
        self.at += step.count;
        Ok(if step.ends { Taken::Ended } else { Taken::More })
    }

    /// Puts the next line into `line`, in place of what is there, without its line end. Of a line that is too long only
    /// the first octets are put there, and the whole line is passed over.
    ///
    /// The error is that of the reader, or of kind `OutOfMemory`. After an error the octets of the line so far are
    /// lost.
    pub fn next(&mut self, line: &mut Vec<u8>) -> io::Result<NextLine>
        // The line is the first of those that were left, and the others are left.
        ensures line { IfOk result (λ r. r ≡ Line →
            TakesLine (remaining_of R.remaining self.old) (remaining_of R.remaining self.new) line.new.items) }
        ensures not_long { IfOk result (λ r. r ≡ Line → length line.new.items ≤ 33554432) }
        // The first line of those that were left is too long, and the others are left.
        ensures long { IfOk result (λ r. r ≡ Long → (full : List ℕ)
            × (33554432 < length full)
            × TakesLine (remaining_of R.remaining self.old) (remaining_of R.remaining self.new) full) }
        // There is no line.
        ensures end { IfOk result (λ r. r ≡ End → HasNoLine (remaining_of R.remaining self.old)) }
    {
        line.clear();
        for _ in 0..u64::MAX {
            match self.take_part(line)? {
                Taken::Ended => return Ok(whole(line.as_slice())),
                Taken::AtEnd => return Ok(last(line.as_slice())),
                Taken::More => {}
            }
        }
        Err(io::Error::from(io::ErrorKind::Other))
    }
}
