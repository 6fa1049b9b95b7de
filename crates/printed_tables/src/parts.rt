// The comparison of a part of the source.
ghost use Rattle.std.specs.Prelude.{◌≡◌, ◌<◌, List, ℕ, length, slice_index};
ghost use Rattle.printed_tables.specs.Counts.{none, counted, counts_of};

use super::places::Place;
use std::fmt;
use std::fmt::{Display, Formatter};

// A part of the source. Its figures stand line after line, and are counted from 0.
pub trait Part {
    const NAME: &'static str;

    // how many figures, their digits as printed, and the k-th as calculated
    ghost figures: { ℕ };

    ghost printed: { List ℕ };

    ghost calculated: { Self → ℕ → ℕ };

    fn len(&self) -> usize
        ensures { result ≡ figures };

    fn printed(&self, k: usize) -> u64
        requires { k < figures }
        ensures { result ≡ slice_index printed k };

    fn calculated(&self, k: usize) -> u64
        requires { k < figures }
        ensures { result ≡ calculated self.now k };

    // 1000 where the k-th figure has three decimals.
    fn scale(&self, k: usize) -> u64
        requires { k < figures }
        ensures { 0 < result };

    fn place(&self, k: usize) -> Place
        requires { k < figures };

    ghost whole: { length printed ≡ figures };
}

// How many figures are equal, one off in the last printed digit, and neither. A count stays far below 2^32.
#[derive(Clone, Copy)]
pub struct Counts {
    equal: u32,
    one_off: u32,
    otherwise: u32,
}

impl Counts {
    pub fn new() -> Self
        ensures { result ≡ none }
    {
        Self {
            equal: 0,
            one_off: 0,
            otherwise: 0,
        }
    }

    // The counts with one figure more.
    #[tactic(auto, unfolding(crate::specs::Counts::counted))]
    pub fn with(self, printed: u64, calculated: u64) -> Self
        ensures { result ≡ counted self printed calculated }
    {
        let off = printed.abs_diff(calculated);
        Self {
            equal: self.equal.wrapping_add(u32::from(off == 0)),
            one_off: self.one_off.wrapping_add(u32::from(off == 1)),
            otherwise: self.otherwise.wrapping_add(u32::from(1 < off)),
        }
    }
}

impl Display for Counts {
    fn fmt<W: fmt::Write>(&self, f: &mut Formatter<W>) -> fmt::Result {
        let [equal, one_off, otherwise] = [self.equal, self.one_off, self.otherwise].map(u64::from);
        let figures = equal + one_off + otherwise;
        write!(
            f,
            "{figures} figures, {equal} equal, {one_off} one off, {otherwise} otherwise"
        )
    }
}

// The counts with the figures of a part more.
#[tactic(auto, unfolding(crate::specs::Counts::counts_of))]
pub fn count<P: Part>(c: Counts, part: &P) -> Counts
    ensures { result ≡ counts_of c P.printed (P.calculated part.now) P.figures }
{
    let mut counts = c;
    for k in 0..part.len() {
        counts = counts.with(part.printed(k), part.calculated(k));
    }
    counts
}
