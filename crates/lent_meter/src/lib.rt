// The meter of document 01 in words that the caller lends and a call changes in place, so that firmware in C or Rust can call it and keep
// it. A row of words holds a stream. Each call on a stream tests 13 and works on the stream's row alone; a refusal leaves all that was
// lent as it was.
// The calls of crates/meter change a `Meter`; here words are lent, of which an analysis changes nine, a metering call seven, and a day file
// all of a row.
#![tactic(auto)]

mod held;
mod words;

ghost use Rattle.std.specs.Prelude.{◌≡◌};
ghost use Rattle.records.specs.Refusals.{number_in};
ghost use Rattle.day_file.specs.Format.{blocks_of};
ghost use Rattle.meter.specs.declared.Meter.{Meter};
ghost use Rattle.meter.specs.declared.Stream.{Stream};
ghost use Rattle.meter.specs.State.{fresh_meter};
ghost use Rattle.meter.specs.Calls.{stream_analysis, stream_metering, analysis_of, metering_of, totals_of, mean_for};
ghost use Rattle.meter.specs.Days.{stream_day, day_of};
ghost use Rattle.meter.specs.Answers.{totals_meaning, mean_meaning};
ghost use Rattle.lent_meter.specs.Words.{packed, packed_totals, packed_counts};
ghost use Rattle.lent_meter.specs.Lent.{Lent, LentRow, OnWords, Leaves, OnMeter, OnRow, LeavesRow, DayOnWords, DayOnRow};
ghost use Rattle.lent_meter.specs.Check.{Tells};

use day_file::DayFile;
use meter::{Counts, Energy, Gas, StreamTotals};
use properties::quantities::CalorificValue;
use records::{Record, Refusal};
use words::Row;
// Streams of a meter.
const STREAMS: usize = 16;

pub type Words = [Row; STREAMS];

// A meter as made.
pub fn fresh(words: &mut Words)
    ensures { words.new ≡ packed fresh_meter }
{
    *words = [[0u64; words::WORDS]; STREAMS];
}

// Whether words hold a meter: for any words whatever.
pub fn check(words: &Words) -> bool
    ensures { Tells result (Lent words.now) }
{
    held::each_holds(words)
}

// The row with the record's gas in force; or the record's refusal, or 14.
fn analysis_row(row: &mut Row, bytes: &[u8]) -> Result<(), Refusal>
    ensures on_row { OnRow (λ (s : Stream). stream_analysis s bytes.now) row.old (number_in result) row.new }
    ensures leaves_row { LeavesRow row.old (number_in result) row.new }
{
    let accepted = Record::new(bytes)?;
    let pair = accepted.pair();
    if words::pair_differs(row, pair) {
        return Err(Refusal::PairDiffers);
    }
    let properties = properties::properties_in(&accepted);
    words::put_gas(row, Gas { pair, properties });
    Ok(())
}

// The properties of a record come into force on a stream.
pub fn analysis(words: &mut Words, stream: usize, bytes: &[u8]) -> Result<(), Refusal>
    ensures on_words { OnWords (λ (m : Meter). analysis_of m stream bytes.now) words.old (number_in result) words.new }
    ensures leaves { Leaves stream words.old (number_in result) words.new }
{
    meter::check_stream(stream)?;
    analysis_row(&mut words[stream], bytes)
}

// The row with the volume added; or 15, 16 or 17.
fn metering_row(row: &mut Row, volume: u64) -> Result<(), Refusal>
    requires { LentRow row.old }
    ensures on_row { OnRow (λ (s : Stream). stream_metering s volume) row.old (number_in result) row.new }
    ensures leaves_row { LeavesRow row.old (number_in result) row.new }
{
    if meter::MOST_VOLUME < volume {
        return Err(Refusal::VolumeAbove);
    }
    if row[words::ANALYSED] == 0 {
        return Err(Refusal::NoAnalysis);
    }
    let totals = words::totals_in(row);
    if meter::MOST_TOTAL < totals.volume + volume {
        return Err(Refusal::TotalPasses);
    }
    let properties = words::properties_in(row);
    words::put_totals(row, totals.added(properties, volume));
    Ok(())
}

// A stream takes a volume, in dm³. C lends plain words, so that they hold a meter stands in the contract, and not in a type.
pub fn metering(words: &mut Words, stream: usize, volume: u64) -> Result<(), Refusal>
    requires { Lent words.old }
    ensures on_words { OnWords (λ (m : Meter). metering_of m stream volume) words.old (number_in result) words.new }
    ensures leaves { Leaves stream words.old (number_in result) words.new }
{
    meter::check_stream(stream)?;
    metering_row(&mut words[stream], volume)
}

// The row after a day file: its stream takes the blocks and the volumes.
fn day_row(row: &mut Row, day: &DayFile, volumes: &[u64]) -> Counts
    requires { LentRow row.old }
    ensures { DayOnRow (λ (s : Stream). stream_day s (blocks_of day.now.file.now) volumes.now) row.old result row.new }
{
    let mut stream = words::stream_in(row);
    let counts = stream.day(day, volumes);
    *row = words::row_of(&stream);
    counts
}

// A stream takes the analyses and the volumes of a day file, one volume for each block.
pub fn day(
    words: &mut Words,
    stream: usize,
    file: &[u8],
    volumes: &[u64],
) -> Result<Counts, Refusal>
    requires { Lent words.old }
    ensures on_words { DayOnWords (λ (m : Meter). day_of m stream file.now volumes.now) words.old result words.new }
    ensures leaves { Leaves stream words.old (number_in result) words.new }
{
    let day = meter::check_day(stream, file, volumes.len())?;
    Ok(day_row(&mut words[stream], &day, volumes))
}

// Counts as words, as C's struct has them.
pub fn counts_words(counts: Counts) -> [u64; 2]
    ensures { result ≡ packed_counts counts }
{
    [counts.analyses as u64, counts.volumes as u64]
}

// The volume, the energies and the mass of a stream.
pub fn totals(words: &Words, stream: usize) -> Result<StreamTotals, Refusal>
    ensures { OnMeter (λ (m : Meter). totals_of m stream) words.now (totals_meaning result) }
{
    meter::check_stream(stream)?;
    Ok(words::totals_in(&words[stream]))
}

// Totals as words, as C's struct has them.
pub fn totals_words(totals: StreamTotals) -> [u64; 7]
    ensures { result ≡ packed_totals totals }
{
    [
        totals.volume,
        totals.superior.whole,
        totals.superior.rest,
        totals.inferior.whole,
        totals.inferior.rest,
        totals.mass.whole,
        totals.mass.rest,
    ]
}

// The mean calorific value of an energy of what a stream has taken, in J/m³.
pub fn mean(words: &Words, stream: usize, energy: Energy) -> Result<CalorificValue, Refusal>
    requires { Lent words.now }
    ensures { OnMeter (λ (m : Meter). mean_for energy m stream) words.now (mean_meaning result) }
{
    let found = totals(words, stream)?;
    found.register_of(energy).mean_over(found.volume)
}
