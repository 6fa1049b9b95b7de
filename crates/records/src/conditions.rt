// The conditions of a record's head and of an entry, each with document 01's number.
ghost use Rattle.std.specs.Prelude.{◌≡◌, ◌&&◌, eqb};
ghost use Rattle.components.specs.Composition.{hydrogen, hydrogen_class};
ghost use Rattle.records.specs.Order.{first_of};
ghost use Rattle.records.specs.Refusals.{number_in};
ghost use Rattle.records.specs.Conditions.{limit_of, unlimited, count_outside, above_limit, head_order};

use super::format;
use super::record::Head;
use super::refusal::Refusal;

// Lines of the component table, numbers as in a record: an enum of these six would leave the other 49 without a name.
pub const METHANE: u8 = 1;

const ETHANE: u8 = 2;

const HYDROGEN: u8 = 41;

pub const WATER: u8 = 42;

const NITROGEN: u8 = 52;

const CARBON_DIOXIDE: u8 = 54;

// The limit of most lines, and no limit but water's is below it.
pub const COMMON_LIMIT: u32 = 50000;

// The least fraction of hydrogen in its class, in ppm.
const LEAST_HYDROGEN: u32 = 900000;

// 5: n is 0 or above 55.
pub fn count_outside(n: usize) -> bool
    ensures { result ≡ count_outside n }
{
    !matches!(n, 1..=55)
}

// 1 to 6.
pub fn check_head(bytes: &[u8]) -> Result<(), Refusal>
    ensures { number_in result ≡ first_of (head_order bytes.now) }
{
    if bytes.len() < format::HEAD_LENGTH {
        return Err(Refusal::TooShort);
    }
    let head = Head { bytes };
    if !head.has_mark() {
        return Err(Refusal::MarkDiffers);
    }
    if head.version() != format::VERSION {
        return Err(Refusal::VersionDiffers);
    }
    if !head.pair().is_permitted() {
        return Err(Refusal::PairNotPermitted);
    }
    let n = head.count();
    if count_outside(n) {
        return Err(Refusal::CountOutside);
    }
    if bytes.len() != format::record_length(n) {
        return Err(Refusal::LengthDiffers);
    }
    Ok(())
}

// The highest fraction of a line, in ppm, outside the hydrogen class or in it.
pub fn limit_of(class: bool, line: u8) -> u32
    ensures { result ≡ limit_of class line }
{
    match (class, line) {
        (_, WATER) => 200,
        (false, NITROGEN) => 300000,
        (false, ETHANE | CARBON_DIOXIDE) => 150000,
        _ => COMMON_LIMIT,
    }
}

// The line that has no highest fraction.
fn unlimited(class: bool) -> u8
    ensures { result ≡ unlimited class }
{
    if class { HYDROGEN } else { METHANE }
}

// An entry of a line other than water is above its limit, outside the hydrogen class or in it.
pub fn above_limit(class: bool, line: u8, fraction: u32) -> bool
    ensures { result ≡ above_limit class line fraction }
{
    (line != unlimited(class)) & (line != WATER) & (limit_of(class, line) < fraction)
}

// An entry of hydrogen in its class.
pub fn is_class(line: u8, fraction: u32) -> bool
    ensures { result ≡ (eqb line hydrogen && hydrogen_class fraction) }
{
    (line == HYDROGEN) & (LEAST_HYDROGEN <= fraction)
}
