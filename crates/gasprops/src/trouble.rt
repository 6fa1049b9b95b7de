// Why the program prints no answer.
use std::fmt::{Display, Formatter};
use std::{fmt, io};

#[derive(Drop)]
pub enum Trouble {
    Arguments,
    Input(io::Error),
    Output(io::Error),
}

impl Display for Trouble {
    fn fmt<W: fmt::Write>(&self, f: &mut Formatter<W>) -> fmt::Result {
        match self {
            Trouble::Arguments => f.write_str("the only argument is --per-kilogram"),
            Trouble::Input(reason) => write!(f, "standard input: {reason}"),
            Trouble::Output(reason) => write!(f, "standard output: {reason}"),
        }
    }
}

impl Trouble {
    // Writes a line to standard error, with the system's words for why. Where there is no memory to cut the words out, the number
    // stands after them.
    pub fn tell<R: Eprint + Alloc>(&self, rt: &R) -> io::Result<()> {
        match format!(in rt.alloc(); "{self}") {
            Ok(text) => eprintln!(rt; "gasprops: {}", words_of(&text)),
            Err(_) => eprintln!(rt; "gasprops: {self}"),
        }
    }
}

// An error's words, without the number that std writes after them.
fn words_of(text: &str) -> &str {
    text.split_once(" (os error ")
        .map_or(text, |(words, _)| words)
}
