// One line on standard error that tells how far a long file has been read.
use std::fmt::Display;

#[derive(Drop)]
pub struct Progress<'a, R> {
    rt: &'a R,
    wanted: bool,
    stands: bool,
}

impl<'a, R: Eprint> Progress<'a, R> {
    pub fn new(rt: &'a R, wanted: bool) -> Self {
        Self {
            rt,
            wanted,
            stands: false,
        }
    }

    // Writes the line over the one that stands there, where that is wanted. That it cannot be written stops nothing.
    pub fn tell<D: Display + Drop>(&mut self, line: D) {
        self.clear();
        if self.wanted {
            self.stands = true;
            let _ = eprint!(self.rt; "{line}");
        }
    }

    // Takes the line away, which has at most 40 characters.
    pub fn clear(&mut self) {
        if self.stands {
            self.stands = false;
            let _ = eprint!(self.rt; "\r{:40}\r", "");
        }
    }
}
