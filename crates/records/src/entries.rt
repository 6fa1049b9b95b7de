// Lists of entries, each a line number and a fraction in ppm: those of a record's bytes, or two lists.
// A line number is any byte, of which 7 refuses some; C lends it and its fraction in two lists, and so no struct has both.
ghost use Rattle.std.specs.Prelude.{◌≡◌, ◌≤◌, ◌<◌, List, ℕ, length, get_or};

// As many fractions as line numbers, read by index, and no more than a record's byte counts. An iterator would be one more type for each of
// the two kinds.
pub trait Entries {
    ghost lines: { Self → List ℕ };

    ghost fractions: { Self → List ℕ };

    fn len(&self) -> usize
        ensures { result ≡ length (lines self.now) };

    fn line(&self, k: usize) -> u8
        requires { k < length (lines self.now) }
        ensures { result ≡ get_or (lines self.now) k 0 };

    fn fraction(&self, k: usize) -> u32
        requires { k < length (lines self.now) }
        ensures { result ≡ get_or (fractions self.now) k 0 };

    ghost same: { (e : Self) → length (fractions e) ≡ length (lines e) };

    ghost few: { (e : Self) → length (lines e) ≤ 255 };
}

// Two lists of one length.
#[derive(Clone, Copy)]
pub struct Lists<'a> {
    pub lines: &'a [u8],
    pub fractions: &'a [u32],
    pub ghost paired: { length fractions.now ≡ length lines.now },
    pub ghost few: { length lines.now ≤ 255 },
}

impl Entries for Lists<'_> {
    ghost use Rattle.std.specs.Prelude.{◌≡◌};

    ghost lines = { λ e. e.lines.now };

    ghost fractions = { λ e. e.fractions.now };

    ghost same = { λ e. e.paired };

    ghost few = { λ e. e.few };

    fn len(&self) -> usize {
        self.lines.len()
    }

    fn line(&self, k: usize) -> u8 {
        self.lines[k]
    }

    fn fraction(&self, k: usize) -> u32 {
        self.fractions[k]
    }
}
