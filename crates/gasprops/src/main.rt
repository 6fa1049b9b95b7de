// Reads one analysis record from standard input and prints its six properties or, where its argument is `--per-kilogram`, its two
// calorific values per kilogram in units of 10 J/kg; of a refused record `refused ` and the number.
//
// It reads until the input ends, and never more than 284 bytes, one more than the longest record has: 8 + 5 × 55 = 283. They decide
// what a longer input gives, whatever follows: conditions 2 to 5 look at the first 8 bytes, and a length above 283 breaks condition 6
// for every n up to 55. These are `FirstBytesDecideProperties` and `FirstBytesDecidePerKilogram` in crates/properties/specs.
#![tactic(auto)]

mod trouble;

ghost use Rattle.std.specs.Prelude.{◌≡◌, ◌≤◌, length, take, IfOk};

use properties::{PerKilogram, Properties};
use records::Refusal;
use std::env::{Env, FillError};
use std::fmt::{Display, Formatter};
use std::io::{Input, Read};
use std::{fmt, io};
use trouble::Trouble;

// The six lines of the properties.
#[derive(Drop)]
struct SixLines(Properties);

impl Display for SixLines {
    fn fmt<W: fmt::Write>(&self, f: &mut Formatter<W>) -> fmt::Result {
        let p = self.0;
        writeln!(f, "Z {}", p.z.value())?;
        writeln!(f, "Hs {}", p.hs.value())?;
        writeln!(f, "Hi {}", p.hi.value())?;
        writeln!(f, "rho {}", p.rho.value())?;
        writeln!(f, "d {}", p.d.value())?;
        writeln!(f, "W {}", p.w.value())
    }
}

// The two lines of the values per kilogram.
#[derive(Drop)]
struct TwoLines(PerKilogram);

impl Display for TwoLines {
    fn fmt<W: fmt::Write>(&self, f: &mut Formatter<W>) -> fmt::Result {
        let v = self.0;
        writeln!(f, "superior {}", v.superior.value())?;
        writeln!(f, "inferior {}", v.inferior.value())
    }
}

// The lines of an answer, or the one line of a refusal.
fn print_answer<T: Display + Drop>(rt: &impl Print, answer: Result<T, Refusal>) -> io::Result<()> {
    match answer {
        Ok(lines) => print!(rt; "{lines}"),
        Err(refusal) => println!(rt; "{refusal}"),
    }
}

// What is asked for of a record.
#[derive(Clone, Copy)]
enum Asked {
    Properties,
    PerKilogram,
}

// Whether there is an argument after the program's name and the i - 1 that follow it.
fn has_argument(rt: &impl Env, i: usize) -> bool {
    !matches!(rt.arg(i, &mut []), Err(FillError::NotPresent))
}

// Properties where there is no argument, values per kilogram where it is `--per-kilogram` alone.
fn asked_for(rt: &impl Env) -> Result<Asked, Trouble> {
    let mut word = [0u8; 14];
    match rt.arg(1, &mut word) {
        Err(FillError::NotPresent) => Ok(Asked::Properties),
        Ok(n) if word[..n] == b"--per-kilogram"[..] && !has_argument(rt, 2) => {
            Ok(Asked::PerKilogram)
        }
        _ => Err(Trouble::Arguments),
    }
}

// Reads until the buffer is full or the input ends, however many pieces it comes in, and answers how many bytes it put at the start of the
// buffer: it takes no more than the buffer holds. std's `read_to_end` promises no such bound, and needs memory, which may be short.
fn read_full(reader: &mut impl Read, buffer: &mut [u8]) -> io::Result<usize>
    ensures { IfOk result (λ n. (n ≤ length buffer.new) × (n ≡ length (take n buffer.new))) }
{
    let mut done = 0;
    while done < buffer.len() {
        match reader.read(&mut buffer[done..])? {
            0 => break,
            more => done += more,
        }
    }
    Ok(done)
}

fn print_asked(rt: &impl Print, asked: Asked, bytes: &[u8]) -> io::Result<()> {
    match asked {
        Asked::Properties => print_answer(rt, properties::properties_of(bytes).map(SixLines)),
        Asked::PerKilogram => print_answer(rt, properties::per_kilogram_of(bytes).map(TwoLines)),
    }
}

fn run<R: Env + Input + Print>(rt: &R) -> Result<(), Trouble> {
    let asked = asked_for(rt)?;
    let mut buffer = [0u8; 284];
    let n = read_full(&mut rt.reader(), &mut buffer).map_err(Trouble::Input)?;
    print_asked(rt, asked, &buffer[..n]).map_err(Trouble::Output)
}

fn main(rt: HostRuntime) {
    if let Err(trouble) = run(&rt) {
        let _ = trouble.tell(&rt);
    }
}
