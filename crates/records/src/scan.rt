// The entry scan: 7 in a search over the line numbers, then 8, 10 to 12 and 9 in one over the fractions. The first entry that breaks 7 ends
// the first search, and the first fraction of 0 the second.
ghost use Rattle.std.specs.Prelude.{◌≡◌, true, false, ◌&&◌, ◌||◌, cond, ◌+◌, ◌^◌, ◌≤◌, ◌<◌, eqb, leb, ltb, length};
ghost use Rattle.records.specs.Order.{first_of};
ghost use Rattle.records.specs.Refusals.{number_in};
ghost use Rattle.components.specs.Composition.{methane, hydrogen, hydrogen_class};
ghost use Rattle.records.specs.Conditions.{water, line_breaks, sum_outside, methane_low, above_limit, water_high, limits_order, lines_order, fractions_order, content_order};

use super::conditions;
use super::entries::Entries;
use super::refusal::Refusal;

// The range of the sum of the fractions, and the least fraction of methane, in ppm.
const LEAST_SUM: u64 = 999900;

const MOST_SUM: u64 = 1000100;

const LEAST_METHANE: u32 = 500000;

// What 10 to 12 and 9 need of the entries so far: the sum of the fractions; the fractions of methane and of water, 0 where absent as document
// 01 has it; whether hydrogen has put the gas into its class; and whether a line other than water is above its limit, outside the class and
// in it, since hydrogen may stand after that line.
#[derive(Clone, Copy, Default)]
struct Scan {
    sum: u64,
    methane: u32,
    class: bool,
    above_outside: bool,
    above_inside: bool,
    water: u32,
}

impl Scan {
    // With one more entry.
    fn with(self, line: u8, fraction: u32) -> Self
        requires { self.sum < 2 ^ 63 }
        ensures sum { result.sum ≡ self.sum + fraction }
        ensures methane { result.methane ≡ cond (eqb line methane) fraction self.methane }
        ensures class { result.class ≡ (self.class || (eqb line hydrogen && hydrogen_class fraction)) }
        ensures outside { result.above_outside ≡ (self.above_outside || above_limit false line fraction) }
        ensures inside { result.above_inside ≡ (self.above_inside || above_limit true line fraction) }
        ensures water { result.water ≡ cond (eqb line water) fraction self.water }
    {
        let noted = if conditions::COMMON_LIMIT < fraction {
            self.with_large(line, fraction)
        } else {
            self
        };
        // `fraction_or` leaves no branch: a `match` on the line takes up to twice the time over 55 entries.
        Self {
            sum: self.sum + u64::from(fraction),
            methane: fraction_or(self.methane, conditions::METHANE, line, fraction),
            water: fraction_or(self.water, conditions::WATER, line, fraction),
            ..noted
        }
    }

    // With what no fraction up to the common limit tells.
    fn with_large(self, line: u8, fraction: u32) -> Self
        ensures class { result.class ≡ (self.class || (eqb line hydrogen && hydrogen_class fraction)) }
        ensures outside { result.above_outside ≡ (self.above_outside || above_limit false line fraction) }
        ensures inside { result.above_inside ≡ (self.above_inside || above_limit true line fraction) }
    {
        Self {
            class: self.class | conditions::is_class(line, fraction),
            above_outside: self.above_outside | conditions::above_limit(false, line, fraction),
            above_inside: self.above_inside | conditions::above_limit(true, line, fraction),
            ..self
        }
    }

    // A line other than water is above its limit.
    fn above(self) -> bool
        ensures { result ≡ cond self.class self.above_inside self.above_outside }
    {
        if self.class {
            self.above_inside
        } else {
            self.above_outside
        }
    }

    // 10 to 12 and 9, after the last entry.
    fn check(self) -> Result<(), Refusal>
        ensures { number_in result ≡ first_of (limits_order (sum_outside self.sum) (methane_low self.class self.methane) (cond self.class self.above_inside self.above_outside) (water_high self.class self.water)) }
    {
        if !self.class && self.methane < LEAST_METHANE {
            return Err(Refusal::MethaneLow);
        }
        if self.above() {
            return Err(Refusal::AboveLimit);
        }
        if conditions::limit_of(self.class, conditions::WATER) < self.water {
            return Err(Refusal::WaterHigh);
        }
        if self.sum < LEAST_SUM || MOST_SUM < self.sum {
            return Err(Refusal::SumOutside);
        }
        Ok(())
    }
}

// The fraction of an entry where its line is the wanted one, and otherwise another.
fn fraction_or(other: u32, wanted: u8, line: u8, fraction: u32) -> u32
    ensures { result ≡ cond (eqb line wanted) fraction other }
{
    if line == wanted { fraction } else { other }
}

// A line number outside 1 to 55, or not above the one before; 0 stands before the first.
fn line_breaks(before: u8, line: u8) -> bool
    ensures { result ≡ (leb line before || ltb 55 line) }
{
    // With `||` a check of 55 entries takes half as long again.
    (line <= before) | (55 < line)
}

// 7.
fn check_lines<E: Entries>(entries: &E) -> Result<(), Refusal>
    ensures { number_in result ≡ first_of (lines_order (E.lines entries.now)) }
{
    let mut before = 0;
    // Left from inside by its label, as document 01 has the entry scan; so is the one below.
    'lines: {
        for k in 0..entries.len() {
            let line = entries.line(k);
            if line_breaks(before, line) {
                break 'lines Err(Refusal::LineOutOfOrder);
            }
            before = line;
        }
        Ok(())
    }
}

// 8, 10 to 12 and 9, where 7 does not hold.
fn check_fractions<E: Entries>(entries: &E) -> Result<(), Refusal>
    requires { line_breaks 0 (E.lines entries.now) ≡ false }
    ensures { number_in result ≡ first_of (fractions_order (E.lines entries.now) (E.fractions entries.now)) }
{
    let mut scan = Scan::default();
    'fractions: {
        for k in 0..entries.len() {
            let fraction = entries.fraction(k);
            if fraction == 0 {
                break 'fractions Err(Refusal::FractionZero);
            }
            scan = scan.with(entries.line(k), fraction);
        }
        scan.check()
    }
}

// 7, 8, 10 to 12 and 9.
pub fn check_content<E: Entries>(entries: &E) -> Result<(), Refusal>
    ensures { number_in result ≡ first_of (content_order (E.lines entries.now) (E.fractions entries.now)) }
{
    check_lines(entries)?;
    check_fractions(entries)
}
