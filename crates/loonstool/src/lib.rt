// What firmware in C and Rust calls: the meter in words that the caller lends, the properties of a record, its calorific values per
// kilogram, records read and written, and the blocks of a day file. crates/loonstool_c exports each of these functions;
// include/loonstool.h declares the exports for C, rust/ wraps them for Rust. Each call that may be refused gives 0, or the number of the
// refusal, by which alone C knows it; a refusal leaves what the caller lent as it was. C passes plain numbers and lists, and has no enum
// with a value.
#![tactic(auto)]

ghost use Rattle.std.specs.Prelude.{◌≡◌, ℕ};
ghost use Rattle.records.specs.Order.{mapped};
ghost use Rattle.records.specs.Refusals.{number_in, outcome};
ghost use Rattle.records.specs.Format.{contents};
ghost use Rattle.records.specs.Calls.{reading_of, writing_of};
ghost use Rattle.records.specs.Answers.{held, Returns};
ghost use Rattle.day_file.specs.Walk.{next_of, block_of};
ghost use Rattle.day_file.specs.Answers.{next};
ghost use Rattle.properties.specs.Chain.{properties_of};
ghost use Rattle.properties.specs.PerKilogram.{per_kilogram_of};
ghost use Rattle.properties.specs.Answers.{numbers, per_kilogram_numbers};
ghost use Rattle.meter.specs.declared.Meter.{Meter};
ghost use Rattle.meter.specs.State.{fresh_meter};
ghost use Rattle.meter.specs.Calls.{analysis_of, metering_of, totals_of, mean_of, mean_inferior_of};
ghost use Rattle.meter.specs.Days.{day_of};
ghost use Rattle.lent_meter.specs.Words.{packed, packed_totals};
ghost use Rattle.lent_meter.specs.Lent.{Lent, OnWords, Leaves, OnReading, OnDay};
ghost use Rattle.lent_meter.specs.Check.{Tells};
ghost use Rattle.loonstool.specs.Exports.{in_order, per_kilogram_in_order, analysis, next_word, BlockPut};

use day_file::Next;
use lent_meter::Words;
use meter::Energy;
use properties::{PerKilogram, Properties};
use records::{Pair, Refusal};

// The number of a refusal, 0 where there is none.
fn number_in<A>(answer: &Result<A, Refusal>) -> u8
    ensures { result ≡ number_in answer.now }
{
    match answer {
        Ok(_) => 0,
        Err(refusal) => refusal.number(),
    }
}

// The number of an answer, and its value into lent memory.
fn give<A: Copy>(answer: Result<A, Refusal>, place: &mut A) -> u8
    ensures { Returns (outcome (λ a. a) answer) place.old result place.new }
{
    if let Ok(value) = &answer {
        *place = *value;
    }
    number_in(&answer)
}

// A meter as made.
pub fn loonstool_meter_fresh(meter: &mut Words)
    ensures { meter.new ≡ packed fresh_meter }
{
    lent_meter::fresh(meter);
}

// Whether words hold a meter.
pub fn loonstool_meter_check(meter: &Words) -> bool
    ensures { Tells result (Lent meter.now) }
{
    lent_meter::check(meter)
}

// The properties of a record come into force on a stream.
pub fn loonstool_meter_analysis(meter: &mut Words, stream: usize, bytes: &[u8]) -> u8
    ensures on_words { OnWords (λ (m : Meter). analysis_of m stream bytes.now) meter.old result meter.new }
    ensures leaves { Leaves stream meter.old result meter.new }
{
    number_in(&lent_meter::analysis(meter, stream, bytes))
}

// A stream takes a volume, in dm³.
pub fn loonstool_meter_metering(meter: &mut Words, stream: usize, volume: u64) -> u8
    requires { Lent meter.old }
    ensures on_words { OnWords (λ (m : Meter). metering_of m stream volume) meter.old result meter.new }
    ensures leaves { Leaves stream meter.old result meter.new }
{
    number_in(&lent_meter::metering(meter, stream, volume))
}

// A stream takes the analyses and the volumes of a day file, one volume for each block; counts are how many of each were accepted.
pub fn loonstool_meter_day(
    meter: &mut Words,
    stream: usize,
    file: &[u8],
    volumes: &[u64],
    counts: &mut [u64; 2],
) -> u8
    requires { Lent meter.old }
    ensures on_words { OnDay (λ (m : Meter). day_of m stream file.now volumes.now) meter.old counts.old result meter.new counts.new }
    ensures leaves { Leaves stream meter.old result meter.new }
{
    give(
        lent_meter::day(meter, stream, file, volumes).map(lent_meter::counts_words),
        counts,
    )
}

// The volume, the energies and the mass of a stream.
pub fn loonstool_meter_totals(meter: &Words, stream: usize, totals: &mut [u64; 7]) -> u8
    ensures { OnReading packed_totals (λ (m : Meter). totals_of m stream) meter.now totals.old result totals.new }
{
    give(
        lent_meter::totals(meter, stream).map(lent_meter::totals_words),
        totals,
    )
}

// The mean superior calorific value of what a stream has taken, in J/m³. C has a function for each energy.
pub fn loonstool_meter_mean(meter: &Words, stream: usize, mean: &mut u64) -> u8
    requires { Lent meter.now }
    ensures { OnReading (λ (h : ℕ). h) (λ (m : Meter). mean_of m stream) meter.now mean.old result mean.new }
{
    give(
        lent_meter::mean(meter, stream, Energy::Superior).map(|h| h.value()),
        mean,
    )
}

// The mean inferior calorific value of what a stream has taken, in J/m³.
pub fn loonstool_meter_mean_inferior(meter: &Words, stream: usize, mean: &mut u64) -> u8
    requires { Lent meter.now }
    ensures { OnReading (λ (h : ℕ). h) (λ (m : Meter). mean_inferior_of m stream) meter.now mean.old result mean.new }
{
    give(
        lent_meter::mean(meter, stream, Energy::Inferior).map(|h| h.value()),
        mean,
    )
}

// The numbers of the properties, in document 01's order, as C's struct has them. A `From` could stand only in crates/properties.
fn in_order(p: Properties) -> [u64; 6]
    ensures { result ≡ in_order (numbers p) }
{
    [
        p.z.value(),
        p.hs.value(),
        p.hi.value(),
        p.rho.value(),
        p.d.value(),
        p.w.value(),
    ]
}

// Z, Hs, Hi, rho, d and W of a record.
pub fn loonstool_properties_of(bytes: &[u8], properties: &mut [u64; 6]) -> u8
    ensures { Returns (mapped in_order (properties_of bytes.now)) properties.old result properties.new }
{
    give(properties::properties_of(bytes).map(in_order), properties)
}

// The values per kilogram, in document 01's order.
fn per_kilogram_in_order(v: PerKilogram) -> [u64; 2]
    ensures { result ≡ per_kilogram_in_order (per_kilogram_numbers v) }
{
    [v.superior.value(), v.inferior.value()]
}

// The superior and the inferior calorific value per kilogram of a record, unit 10 J/kg.
pub fn loonstool_per_kilogram(bytes: &[u8], values: &mut [u64; 2]) -> u8
    ensures { Returns (mapped per_kilogram_in_order (per_kilogram_of bytes.now)) values.old result values.new }
{
    give(
        properties::per_kilogram_of(bytes).map(per_kilogram_in_order),
        values,
    )
}

// Reads a record: the pair of temperatures in °C, the number of entries, and their line numbers and fractions, with 0 past them.
// C lends a place for each.
pub fn loonstool_read(
    bytes: &[u8],
    combustion: &mut u8,
    metering: &mut u8,
    count: &mut usize,
    lines: &mut [u8; 55],
    fractions: &mut [u32; 55],
) -> u8
    ensures { Returns
        (mapped held (reading_of bytes.now))
        (analysis combustion.old metering.old count.old lines.old fractions.old)
        result
        (analysis combustion.new metering.new count.new lines.new fractions.new) }
{
    let answer = records::read(bytes);
    if let Ok(found) = &answer {
        *combustion = found.pair.combustion;
        *metering = found.pair.metering;
        *count = found.count;
        *lines = found.lines;
        *fractions = found.fractions;
    }
    number_in(&answer)
}

// Writes a record into the first 8 + 5n bytes of a buffer.
pub fn loonstool_write(
    combustion: u8,
    metering: u8,
    lines: &[u8],
    fractions: &[u32],
    buffer: &mut [u8],
) -> u8
    ensures { Returns (writing_of (contents combustion metering lines.now fractions.now) buffer.old) buffer.old result buffer.new }
{
    let pair = Pair {
        combustion,
        metering,
    };
    number_in(&records::write(pair, lines, fractions, buffer))
}

// The next offset as C has it: 0 at the end of the file.
fn next_word(found: Next) -> usize
    ensures { result ≡ next_word (next found) }
{
    match found {
        Next::Offset(offset) => offset,
        Next::End => 0,
    }
}

// The walk of a day file: the offset after the block at an offset, 5 for the first; 0 at the end of the file.
pub fn loonstool_day_next(file: &[u8], offset: usize, next: &mut usize) -> u8
    ensures { Returns (mapped next_word (next_of file.now offset)) next.old result next.new }
{
    give(day_file::next_offset(file, offset).map(next_word), next)
}

// The block at an offset of a day file, as a part of the file; false where the walk gives no block.
pub fn loonstool_day_block<'a>(file: &'a [u8], offset: usize, block: &mut &'a [u8]) -> bool
    ensures { BlockPut (block_of file.now offset) block.old.now result block.new.now }
{
    if let Some(bytes) = day_file::block_at(file, offset) {
        *block = bytes;
        return true;
    }
    false
}
