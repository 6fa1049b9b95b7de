// Why the program prints no answer.
use super::volumes::Unread;
use std::fmt::{Display, Formatter};
use std::{fmt, io};

#[derive(Drop)]
pub enum Trouble {
    Arguments,
    DayFile(io::Error),
    Volumes(io::Error),
    Text(Unread),
    Output(io::Error),
}

impl Display for Trouble {
    fn fmt<W: fmt::Write>(&self, f: &mut Formatter<W>) -> fmt::Result {
        match self {
            Trouble::Arguments => {
                f.write_str(
                    "the arguments are DAY VOLUMES or --list DAY, then --progress or none; one file at most is -",
                )
            }
            Trouble::DayFile(reason) => write!(f, "day file: {reason}"),
            Trouble::Volumes(reason) => write!(f, "volumes: {reason}"),
            Trouble::Text(reason) => write!(f, "volumes: {reason}"),
            Trouble::Output(reason) => write!(f, "standard output: {reason}"),
        }
    }
}

impl Trouble {
    // Writes a line to standard error, with the system's words for why. Where there is no memory to cut the words out, the number
    // stands after them.
    pub fn tell<R: Eprint + Alloc>(&self, rt: &R) -> io::Result<()> {
        match format!(in rt.alloc(); "{self}") {
            Ok(text) => eprintln!(rt; "gasday: {}", words_of(&text)),
            Err(_) => eprintln!(rt; "gasday: {self}"),
        }
    }
}

// An error's words, without the number that std writes after them.
fn words_of(text: &str) -> &str {
    text.split_once(" (os error ")
        .map_or(text, |(words, _)| words)
}
