// A text with one volume a line: a whole number of dm³ in decimal digits. specs/Lines.antt says which texts give volumes.
ghost use Rattle.std.specs.Prelude.{◌≡◌, ◌+◌, ◌*◌};
ghost use Rattle.gasday.specs.Text.{longer, step_of, at_end_of};

use std::alloc::Allocator;
use std::fmt;
use std::fmt::{Display, Formatter};

// A line as far as it has been read: no byte of it, its number, or its number and a carriage return.
#[derive(Clone, Copy)]
pub enum Line {
    Begun,
    Number(u64),
    Returned(u64),
}

// What is wrong with a line.
#[derive(Clone, Copy)]
pub enum Fault {
    Empty,
    NoDigit(u8),
    TooLarge,
}

// What a byte makes of a line: a longer line, or the volume of a whole one.
#[derive(Clone, Copy)]
pub enum Step {
    Longer(Line),
    Whole(u64),
}

// Why a text gives no volumes.
#[derive(Clone, Copy)]
pub enum Unread {
    Line { number: usize, fault: Fault },
    OutOfMemory,
}

impl Display for Fault {
    fn fmt<W: fmt::Write>(&self, f: &mut Formatter<W>) -> fmt::Result {
        match self {
            Fault::Empty => f.write_str("is empty"),
            Fault::NoDigit(byte @ b'!'..=b'~') => {
                write!(f, "has '{}', which is no digit", char::from(*byte))
            }
            Fault::NoDigit(byte) => write!(f, "has the byte {byte}, which is no digit"),
            Fault::TooLarge => write!(f, "is above {}", u64::MAX),
        }
    }
}

impl Display for Unread {
    fn fmt<W: fmt::Write>(&self, f: &mut Formatter<W>) -> fmt::Result {
        match self {
            Unread::Line { number, fault } => write!(f, "line {number} {fault}"),
            Unread::OutOfMemory => f.write_str("out of memory"),
        }
    }
}

impl Line {
    // The line of a number with one digit more.
    fn longer(number: u64, digit: u8) -> Result<Line, Fault>
        ensures { result ≡ longer (number * 10 + digit) }
    {
        let tens = number.checked_mul(10).ok_or(Fault::TooLarge)?;
        let sum = tens.checked_add(digit.into()).ok_or(Fault::TooLarge)?;
        Ok(Line::Number(sum))
    }

    fn step(self, byte: u8) -> Result<Step, Fault>
        ensures { result ≡ step_of self byte }
    {
        match (self, byte) {
            (Line::Begun, b'\n' | b'\r') => Err(Fault::Empty),
            (Line::Begun, b'0'..=b'9') => Ok(Step::Longer(Line::Number((byte - b'0').into()))),
            (Line::Number(n), b'0'..=b'9') => Ok(Step::Longer(Line::longer(n, byte - b'0')?)),
            (Line::Number(n), b'\r') => Ok(Step::Longer(Line::Returned(n))),
            (Line::Number(n) | Line::Returned(n), b'\n') => Ok(Step::Whole(n)),
            (Line::Returned(_), _) => Err(Fault::NoDigit(b'\r')),
            _ => Err(Fault::NoDigit(byte)),
        }
    }

    // The number of a line that the end of the text ends; none where no byte of it stands there.
    fn at_end(self) -> Result<Option<u64>, Fault>
        ensures { result ≡ at_end_of self }
    {
        match self {
            Line::Begun => Ok(None),
            Line::Number(n) => Ok(Some(n)),
            Line::Returned(_) => Err(Fault::NoDigit(b'\r')),
        }
    }
}

// The volumes of the whole lines so far, and the line that has not ended.
#[derive(Drop)]
pub struct Volumes<A: Allocator> {
    whole: Vec<u64, A>,
    line: Line,
}

impl<A: Allocator> Volumes<A> {
    ghost use Rattle.std.specs.Prelude.{[], ◌∷◌, ◌++◌};
    ghost use Rattle.gasday.specs.declared.volumes.Line.TheVariants.{Begun};
    ghost use Rattle.gasday.specs.Text.{reading, line_number, with_byte, with_bytes, Gives, ended};
    ghost use Rattle.gasday.specs.Read.{read_of, Answers};

    pub fn new(alloc: A) -> Self
        ensures { read_of result ≡ reading [] Begun }
    {
        Self {
            whole: Vec::new(alloc),
            line: Line::Begun,
        }
    }

    pub fn count(&self) -> usize {
        self.whole.len()
    }

    // What is wrong with the line that has not ended.
    fn wrong(&self, fault: Fault) -> Unread
        ensures { result ≡ Unread.Line (line_number self.now.whole.items) fault }
    {
        Unread::Line {
            number: self.whole.len() + 1,
            fault,
        }
    }

    fn push(&mut self, volume: u64) -> Result<(), Unread>
        ensures { Gives (reading (self.old.whole.items ++ volume ∷ []) self.old.line) result (read_of self.new) }
    {
        self.whole.push(volume).map_err(|_| Unread::OutOfMemory)
    }

    // Takes the byte that follows.
    fn take(&mut self, byte: u8) -> Result<(), Unread>
        ensures { Gives (with_byte (read_of self.old) byte) result (read_of self.new) }
    {
        match self.line.step(byte) {
            Ok(Step::Longer(line)) => {
                self.line = line;
                Ok(())
            }
            Ok(Step::Whole(volume)) => {
                self.line = Line::Begun;
                self.push(volume)
            }
            Err(fault) => Err(self.wrong(fault)),
        }
    }

    // Takes the bytes that follow.
    pub fn take_all(&mut self, bytes: &[u8]) -> Result<(), Unread>
        ensures { Gives (with_bytes (read_of self.old) bytes.now) result (read_of self.new) }
    {
        for byte in bytes {
            self.take(*byte)?;
        }
        Ok(())
    }

    // The volumes, where the text ends here.
    pub fn finish(mut self) -> Result<Vec<u64, A>, Unread>
        ensures { Answers (ended (read_of self)) result }
    {
        match self.line.at_end() {
            Ok(None) => {}
            Ok(Some(volume)) => self.push(volume)?,
            Err(fault) => return Err(self.wrong(fault)),
        }
        Ok(self.whole)
    }
}
