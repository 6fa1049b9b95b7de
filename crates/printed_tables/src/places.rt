// The figures that differ, as they are printed with their places.
ghost use Rattle.std.specs.Prelude.{◌<◌};

use super::parts::Part;
use std::fmt::{Display, Formatter};
use std::{fmt, io};

// Where a figure stands in its part of the source.
#[derive(Clone, Copy)]
pub enum Place {
    Cell {
        line: usize,
        value: &'static str,
        conditions: &'static str,
    },
    Row {
        line: u8,
        name: &'static str,
    },
    Text {
        name: &'static str,
    },
}

impl Display for Place {
    fn fmt<W: fmt::Write>(&self, f: &mut Formatter<W>) -> fmt::Result {
        match *self {
            Self::Cell {
                line,
                value,
                conditions,
            } => write!(f, "line {line}, {value}, {conditions}"),
            Self::Row { line, name } => write!(f, "line {line}, {name}"),
            Self::Text { name } => write!(f, "{name}"),
        }
    }
}

// The digits of a figure, and its scale: 1000 for three decimals.
#[derive(Clone, Copy)]
struct Figure {
    digits: u64,
    scale: u64,
    ghost some: { 0 < scale },
}

impl Figure {
    fn new(digits: u64, scale: u64) -> Self
        requires { 0 < scale }
    {
        Self { digits, scale }
    }
}

// With its decimal point.
impl Display for Figure {
    fn fmt<W: fmt::Write>(&self, f: &mut Formatter<W>) -> fmt::Result {
        let whole = self.digits / self.scale;
        let rest = self.digits % self.scale;
        let decimals = self.scale.ilog10() as usize;
        write!(f, "{whole}.{rest:0decimals$}")
    }
}

// Prints the figures of a part whose digits as printed and as calculated differ.
pub fn print_differences<P: Part>(rt: &impl Print, part: &P) -> io::Result<()> {
    for k in 0..part.len() {
        let scale = part.scale(k);
        let (printed, calculated) = (part.printed(k), part.calculated(k));
        if printed != calculated {
            let place = part.place(k);
            let printed = Figure::new(printed, scale);
            let calculated = Figure::new(calculated, scale);
            println!(rt;
                "{}, {place}: printed {printed}, calculated {calculated}",
                P::NAME
            )?;
        }
    }
    Ok(())
}
