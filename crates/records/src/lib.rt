// The analysis record of document 01, read and written. Every list of bytes, and every composition and buffer, gets its answer or the one
// reason of its refusal.
#![tactic(auto)]

ghost use Rattle.std.specs.Prelude.{◌≡◌, ◌≤◌, IfOk};
ghost use Rattle.records.specs.Order.{first_of};
ghost use Rattle.records.specs.Format.{contents};
ghost use Rattle.records.specs.Conditions.{given_order, room_order};
ghost use Rattle.records.specs.Refusals.{number_in};
ghost use Rattle.records.specs.Answers.{Reads, Writes};

mod conditions;
mod entries;
mod format;
mod pair;
mod record;
mod refusal;
mod scan;

pub use entries::{Entries, Lists};
pub use format::{number_2, number_4, record_length};
pub use pair::Pair;
pub use record::{Head, Record, RecordEntries};
pub use refusal::Refusal;

// The pair of temperatures, and count entries: line number, and mole fraction in ppm. Past the entries stands 0. The C interface fills
// two arrays of 55, so the entries are two arrays.
#[derive(Clone, Copy)]
pub struct Analysis {
    pub pair: Pair,
    pub count: usize,
    pub lines: [u8; 55],
    pub fractions: [u32; 55],
}

// Reads a record.
pub fn read(bytes: &[u8]) -> Result<Analysis, Refusal>
    ensures { Reads bytes.now result }
{
    let record = Record::new(bytes)?;
    let mut lines = [0u8; 55];
    let mut fractions = [0u32; 55];
    format::read_entries(&record.entries(), &mut lines, &mut fractions);
    Ok(Analysis {
        pair: record.pair(),
        count: record.head().count(),
        lines,
        fractions,
    })
}

// The entries that the writer is given, or the first that holds of 19, 4, 5, 7, 8, 10 to 12 and 9.
fn given_entries<'a>(
    pair: Pair,
    lines: &'a [u8],
    fractions: &'a [u32],
) -> Result<Lists<'a>, Refusal>
    ensures number { number_in result ≡ first_of (given_order (contents pair.combustion pair.metering lines.now fractions.now)) }
    ensures same { IfOk result (λ e. (e.lines.now ≡ lines.now) × (e.fractions.now ≡ fractions.now)) }
{
    if lines.len() != fractions.len() {
        return Err(Refusal::ListsDiffer);
    }
    if !pair.is_permitted() {
        return Err(Refusal::PairNotPermitted);
    }
    if conditions::count_outside(lines.len()) {
        return Err(Refusal::CountOutside);
    }
    let entries = Lists { lines, fractions };
    scan::check_content(&entries)?;
    Ok(entries)
}

// 20, for a buffer of room bytes and n entries.
fn check_room(n: usize, room: usize) -> Result<(), Refusal>
    requires { n ≤ 55 }
    ensures { number_in result ≡ first_of (room_order room n) }
{
    if room < format::record_length(n) {
        return Err(Refusal::RoomShort);
    }
    Ok(())
}

// Writes a record into the first bytes of a buffer, and touches no other; a refusal leaves the whole buffer as it was.
pub fn write(pair: Pair, lines: &[u8], fractions: &[u32], out: &mut [u8]) -> Result<(), Refusal>
    ensures { Writes (contents pair.combustion pair.metering lines.now fractions.now) out.old out.new result }
{
    let entries = given_entries(pair, lines, fractions)?;
    check_room(lines.len(), out.len())?;
    format::put_record(pair, &entries, out);
    Ok(())
}
