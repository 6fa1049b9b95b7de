// The blocks of a day file, a line for each.
use super::input::STEP;
use super::progress::Progress;
use day_file::{FIRST_BLOCK, Next};
use properties::Properties;
use records::Refusal;
use std::fmt::{Display, Formatter};
use std::io::Write;
use std::{fmt, io};

// The properties of a record.
#[derive(Drop)]
struct Six(Properties);

impl Display for Six {
    fn fmt<W: fmt::Write>(&self, f: &mut Formatter<W>) -> fmt::Result {
        let p = self.0;
        write!(f, "Z {}", p.z.value())?;
        write!(f, " Hs {}", p.hs.value())?;
        write!(f, " Hi {}", p.hi.value())?;
        write!(f, " rho {}", p.rho.value())?;
        write!(f, " d {}", p.d.value())?;
        write!(f, " W {}", p.w.value())
    }
}

// A block: its offset, its length, and the properties of its record or their refusal.
#[derive(Drop)]
struct Block<'a> {
    offset: usize,
    bytes: &'a [u8],
}

impl Display for Block<'_> {
    fn fmt<W: fmt::Write>(&self, f: &mut Formatter<W>) -> fmt::Result {
        write!(f, "{} {} ", self.offset, self.bytes.len())?;
        match properties::properties_of(self.bytes) {
            Ok(properties) => write!(f, "{}", Six(properties)),
            Err(refusal) => write!(f, "{refusal}"),
        }
    }
}

// The refusal of the walk at an offset, which says nothing where the file is no day file.
#[derive(Drop)]
struct Stop {
    offset: usize,
    refusal: Refusal,
}

impl Display for Stop {
    fn fmt<W: fmt::Write>(&self, f: &mut Formatter<W>) -> fmt::Result {
        if self.refusal != Refusal::NoDayFile {
            write!(f, "{} ", self.offset)?;
        }
        write!(f, "{}", self.refusal)
    }
}

// Tells how far the list has come, where a block passes a whole step.
fn tell_listed<R: Eprint>(offset: usize, next: usize, length: usize, progress: &mut Progress<R>) {
    if offset / STEP < next / STEP {
        progress.tell(format_args!("{} of {} MB listed", next / STEP, length / STEP));
    }
}

// Writes a line for each block and, where the walk is refused, one for the refusal; answers whether the walk came to the file's end.
pub fn list<W: Write, R: Eprint>(
    file: &[u8],
    out: &mut W,
    progress: &mut Progress<R>,
) -> io::Result<bool> {
    let mut offset = FIRST_BLOCK;
    loop {
        match day_file::next_offset(file, offset) {
            Ok(Next::Offset(next)) => {
                let bytes = day_file::block_at(file, offset).unwrap();
                writeln!(out, "{}", Block { offset, bytes })?;
                tell_listed(offset, next, file.len(), progress);
                offset = next;
            }
            Ok(Next::End) => return Ok(true),
            Err(refusal) => {
                writeln!(out, "{}", Stop { offset, refusal })?;
                return Ok(false);
            }
        }
    }
}
