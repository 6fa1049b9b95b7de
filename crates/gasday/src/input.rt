// The day file and the volumes, read from the files that the arguments name.
ghost use Rattle.std.specs.Prelude.{◌≡◌};
ghost use Rattle.day_file.specs.Format.{no_day_file};

use super::progress::Progress;
use super::trouble::Trouble;
use super::volumes::Volumes;
use day_file::FIRST_BLOCK;
use records::Refusal;
use std::alloc::Allocator;
use std::io::{Input, Read};
use std::rt::Files;
use std::{fs, io};

// After so many bytes it is told how far a file has been read.
pub const STEP: usize = 1000000;

// Whether bytes begin no day file, which the first 5 of them decide: `FirstBytesTell` and `FirstBytesDecide` in specs/Metered.antt.
fn begins_none(bytes: &[u8]) -> bool
    ensures { result ≡ no_day_file bytes.now }
{
    matches!(
        day_file::next_offset(bytes, FIRST_BLOCK),
        Err(Refusal::NoDayFile)
    )
}

// A day file to its end, or the first 5 bytes of what is none.
fn read_day<A: Allocator, R: Eprint>(
    reader: &mut impl Read,
    alloc: A,
    progress: &mut Progress<R>,
) -> io::Result<Vec<u8, A>> {
    let mut file = Vec::new(alloc);
    reader.take(FIRST_BLOCK as u64).read_to_end(&mut file)?;
    if begins_none(&file) {
        return Ok(file);
    }
    for _ in 0..u64::MAX {
        if reader.take(STEP as u64).read_to_end(&mut file)? < STEP {
            break;
        }
        progress.tell(format_args!("{} MB of the day file read", file.len() / STEP));
    }
    Ok(file)
}

pub fn day_named<R: Input + Files + Eprint + Alloc>(
    rt: &R,
    name: &str,
    progress: &mut Progress<R>,
) -> io::Result<Vec<u8, R::A>> {
    if name == "-" {
        read_day(&mut rt.reader(), rt.alloc(), progress)
    } else {
        read_day(&mut fs::open(rt, name)?, rt.alloc(), progress)
    }
}

// The volumes of a text to its end.
fn read_volumes<R: Eprint + Alloc>(
    reader: &mut impl Read,
    rt: &R,
    progress: &mut Progress<R>,
) -> Result<Vec<u64, R::A>, Trouble> {
    let mut volumes = Volumes::new(rt.alloc());
    let mut part = Vec::new(rt.alloc());
    for _ in 0..u64::MAX {
        part.clear();
        let more = reader
            .take(STEP as u64)
            .read_to_end(&mut part)
            .map_err(Trouble::Volumes)?;
        volumes.take_all(&part).map_err(Trouble::Text)?;
        if more < STEP {
            break;
        }
        progress.tell(format_args!("{} volumes read", volumes.count()));
    }
    volumes.finish().map_err(Trouble::Text)
}

pub fn volumes_named<R: Input + Files + Eprint + Alloc>(
    rt: &R,
    name: &str,
    progress: &mut Progress<R>,
) -> Result<Vec<u64, R::A>, Trouble> {
    if name == "-" {
        read_volumes(&mut rt.reader(), rt, progress)
    } else {
        read_volumes(
            &mut fs::open(rt, name).map_err(Trouble::Volumes)?,
            rt,
            progress,
        )
    }
}
