// The static library that firmware links: each function that include/loonstool.h declares, by that of crates/loonstool, with its clauses.
// C passes plain numbers and lists. Each function stands twice, as no crate can stand on a static library, and crates/tally has to.
// proofs/Cited.antt shows of the meter's calls that their contracts are those of which crates/tally speaks.
#![tactic(auto)]

ghost use Rattle.std.specs.Prelude.{◌≡◌, ℕ};
ghost use Rattle.records.specs.Order.{mapped};
ghost use Rattle.records.specs.Format.{contents};
ghost use Rattle.records.specs.Calls.{reading_of, writing_of};
ghost use Rattle.records.specs.Answers.{held, Returns};
ghost use Rattle.day_file.specs.Walk.{next_of, block_of};
ghost use Rattle.properties.specs.Chain.{properties_of};
ghost use Rattle.properties.specs.PerKilogram.{per_kilogram_of};
ghost use Rattle.meter.specs.declared.Meter.{Meter};
ghost use Rattle.meter.specs.State.{fresh_meter};
ghost use Rattle.meter.specs.Calls.{analysis_of, metering_of, totals_of, mean_of, mean_inferior_of};
ghost use Rattle.meter.specs.Days.{day_of};
ghost use Rattle.lent_meter.specs.Words.{packed, packed_totals};
ghost use Rattle.lent_meter.specs.Lent.{Lent, OnWords, Leaves, OnReading, OnDay};
ghost use Rattle.lent_meter.specs.Check.{Tells};
ghost use Rattle.loonstool.specs.Exports.{in_order, per_kilogram_in_order, analysis, next_word, BlockPut};

use lent_meter::Words;

// A meter as made.
#[unsafe(no_mangle)]
pub extern "C" fn loonstool_meter_fresh(meter: &mut Words)
    ensures { meter.new ≡ packed fresh_meter }
{
    loonstool::loonstool_meter_fresh(meter);
}

// Whether words hold a meter.
#[unsafe(no_mangle)]
pub extern "C" fn loonstool_meter_check(meter: &Words) -> bool
    ensures { Tells result (Lent meter.now) }
{
    loonstool::loonstool_meter_check(meter)
}

// The properties of a record come into force on a stream.
#[unsafe(no_mangle)]
pub extern "C" fn loonstool_meter_analysis(meter: &mut Words, stream: usize, bytes: &[u8]) -> u8
    ensures on_words { OnWords (λ (m : Meter). analysis_of m stream bytes.now) meter.old result meter.new }
    ensures leaves { Leaves stream meter.old result meter.new }
{
    loonstool::loonstool_meter_analysis(meter, stream, bytes)
}

// A stream takes a volume, in dm³.
#[unsafe(no_mangle)]
pub extern "C" fn loonstool_meter_metering(meter: &mut Words, stream: usize, volume: u64) -> u8
    requires { Lent meter.old }
    ensures on_words { OnWords (λ (m : Meter). metering_of m stream volume) meter.old result meter.new }
    ensures leaves { Leaves stream meter.old result meter.new }
{
    loonstool::loonstool_meter_metering(meter, stream, volume)
}

// A stream takes the analyses and the volumes of a day file, one volume for each block; counts are how many of each were accepted.
#[unsafe(no_mangle)]
pub extern "C" fn loonstool_meter_day(
    meter: &mut Words,
    stream: usize,
    file: &[u8],
    volumes: &[u64],
    counts: &mut [u64; 2],
) -> u8
    requires { Lent meter.old }
    ensures on_words { OnDay (λ (m : Meter). day_of m stream file.now volumes.now) meter.old counts.old result meter.new counts.new }
    ensures leaves { Leaves stream meter.old result meter.new }
{
    loonstool::loonstool_meter_day(meter, stream, file, volumes, counts)
}

// The volume, the energies and the mass of a stream.
#[unsafe(no_mangle)]
pub extern "C" fn loonstool_meter_totals(meter: &Words, stream: usize, totals: &mut [u64; 7]) -> u8
    ensures { OnReading packed_totals (λ (m : Meter). totals_of m stream) meter.now totals.old result totals.new }
{
    loonstool::loonstool_meter_totals(meter, stream, totals)
}

// The mean superior calorific value of what a stream has taken, in J/m³.
#[unsafe(no_mangle)]
pub extern "C" fn loonstool_meter_mean(meter: &Words, stream: usize, mean: &mut u64) -> u8
    requires { Lent meter.now }
    ensures { OnReading (λ (h : ℕ). h) (λ (m : Meter). mean_of m stream) meter.now mean.old result mean.new }
{
    loonstool::loonstool_meter_mean(meter, stream, mean)
}

// The mean inferior calorific value of what a stream has taken, in J/m³.
#[unsafe(no_mangle)]
pub extern "C" fn loonstool_meter_mean_inferior(meter: &Words, stream: usize, mean: &mut u64) -> u8
    requires { Lent meter.now }
    ensures { OnReading (λ (h : ℕ). h) (λ (m : Meter). mean_inferior_of m stream) meter.now mean.old result mean.new }
{
    loonstool::loonstool_meter_mean_inferior(meter, stream, mean)
}

// Z, Hs, Hi, rho, d and W of a record.
#[unsafe(no_mangle)]
pub extern "C" fn loonstool_properties_of(bytes: &[u8], properties: &mut [u64; 6]) -> u8
    ensures { Returns (mapped in_order (properties_of bytes.now)) properties.old result properties.new }
{
    loonstool::loonstool_properties_of(bytes, properties)
}

// The superior and the inferior calorific value per kilogram of a record, unit 10 J/kg.
#[unsafe(no_mangle)]
pub extern "C" fn loonstool_per_kilogram(bytes: &[u8], values: &mut [u64; 2]) -> u8
    ensures { Returns (mapped per_kilogram_in_order (per_kilogram_of bytes.now)) values.old result values.new }
{
    loonstool::loonstool_per_kilogram(bytes, values)
}

// Reads a record: the pair of temperatures in °C, the number of entries, and their line numbers and fractions, with 0 past them.
#[unsafe(no_mangle)]
pub extern "C" fn loonstool_read(
    bytes: &[u8],
    combustion: &mut u8,
    metering: &mut u8,
    count: &mut usize,
    lines: &mut [u8; 55],
    fractions: &mut [u32; 55],
) -> u8
    ensures { Returns
        (mapped held (reading_of bytes.now))
        (analysis combustion.old metering.old count.old lines.old fractions.old)
        result
        (analysis combustion.new metering.new count.new lines.new fractions.new) }
{
    loonstool::loonstool_read(bytes, combustion, metering, count, lines, fractions)
}

// Writes a record into the first 8 + 5n bytes of a buffer.
#[unsafe(no_mangle)]
pub extern "C" fn loonstool_write(
    combustion: u8,
    metering: u8,
    lines: &[u8],
    fractions: &[u32],
    buffer: &mut [u8],
) -> u8
    ensures { Returns (writing_of (contents combustion metering lines.now fractions.now) buffer.old) buffer.old result buffer.new }
{
    loonstool::loonstool_write(combustion, metering, lines, fractions, buffer)
}

// The walk of a day file: the offset after the block at an offset, 5 for the first; 0 at the end of the file.
#[unsafe(no_mangle)]
pub extern "C" fn loonstool_day_next(file: &[u8], offset: usize, next: &mut usize) -> u8
    ensures { Returns (mapped next_word (next_of file.now offset)) next.old result next.new }
{
    loonstool::loonstool_day_next(file, offset, next)
}

// The block at an offset of a day file, as a part of the file; false where the walk gives no block.
#[unsafe(no_mangle)]
pub extern "C" fn loonstool_day_block<'a>(
    file: &'a [u8],
    offset: usize,
    block: &mut &'a [u8],
) -> bool
    ensures { BlockPut (block_of file.now offset) block.old.now result block.new.now }
{
    loonstool::loonstool_day_block(file, offset, block)
}
