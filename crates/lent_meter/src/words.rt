// The words of a stream, read and written.
ghost use Rattle.std.specs.Prelude.{◌≡◌, get_or};
ghost use Rattle.properties.specs.Answers.{numbers};
ghost use Rattle.properties.specs.Quantities.{Bounded};
ghost use Rattle.lent_meter.specs.Words.{packed_stream, totals_in, six_in, gas_in, analysis_in, stream_in, with_gas_words, with_totals_words};
ghost use Rattle.lent_meter.specs.Lent.{LentRow};
ghost use Rattle.lent_meter.specs.Check.{words_differ};

use meter::{Gas, Register, Stream, StreamTotals};
use properties::Properties;
use properties::quantities::{
    CalorificValue, CompressionFactor, Density, RelativeDensity, WobbeIndex,
};
use records::Pair;

// Words of a stream. C lends an array of them, so each has its place by number.
pub const WORDS: usize = 16;
// The words in their order: 1 where there is an analysis, and 0 where there is none;
pub const ANALYSED: usize = 0;
// its pair of temperatures, in °C;
pub const COMBUSTION: usize = 1;

pub const METERING: usize = 2;
// its properties;
pub const Z: usize = 3;

pub const HS: usize = 4;

pub const HI: usize = 5;

pub const RHO: usize = 6;

pub const D: usize = 7;

pub const W: usize = 8;
// the volume in dm³; the superior energy, whole MJ and rest in mJ;
const VOLUME: usize = 9;

const SUPERIOR: usize = 10;

const SUPERIOR_REST: usize = 11;
// the inferior energy;
const INFERIOR: usize = 12;

const INFERIOR_REST: usize = 13;
// and the mass, whole kg and rest in 10^-11 kg.
const MASS: usize = 14;

const MASS_REST: usize = 15;

// An array as C lends it. A `From` of it could stand only in the crate of the type that it is read as or written from.
pub type Row = [u64; WORDS];

// The totals in a row.
pub fn totals_in(row: &Row) -> StreamTotals
    ensures { result ≡ totals_in row.now }
{
    StreamTotals {
        volume: row[VOLUME],
        superior: Register {
            whole: row[SUPERIOR],
            rest: row[SUPERIOR_REST],
        },
        inferior: Register {
            whole: row[INFERIOR],
            rest: row[INFERIOR_REST],
        },
        mass: Register {
            whole: row[MASS],
            rest: row[MASS_REST],
        },
    }
}

// The row with other totals, word by word: an array of them to copy takes more stack than include/loonstool.h says of a metering call.
pub fn put_totals(row: &mut Row, totals: StreamTotals)
    ensures { row.new ≡ with_totals_words row.old totals }
{
    row[VOLUME] = totals.volume;
    row[SUPERIOR] = totals.superior.whole;
    row[SUPERIOR_REST] = totals.superior.rest;
    row[INFERIOR] = totals.inferior.whole;
    row[INFERIOR_REST] = totals.inferior.rest;
    row[MASS] = totals.mass.whole;
    row[MASS_REST] = totals.mass.rest;
}

// The properties in a row.
pub fn properties_in(row: &Row) -> Properties
    requires { Bounded (six_in row.now) }
    ensures { numbers result ≡ six_in row.now }
{
    Properties {
        z: CompressionFactor::new(row[Z]),
        hs: CalorificValue::new(row[HS]),
        hi: CalorificValue::new(row[HI]),
        rho: Density::new(row[RHO]),
        d: RelativeDensity::new(row[D]),
        w: WobbeIndex::new(row[W]),
    }
}

// Whether a row has an analysis whose pair is another one.
pub fn pair_differs(row: &Row, pair: Pair) -> bool
    ensures { result ≡ words_differ row.now pair.combustion pair.metering }
{
    let differs = (row[COMBUSTION] != u64::from(pair.combustion))
        | (row[METERING] != u64::from(pair.metering));
    (row[ANALYSED] != 0) & differs
}

// The row with a gas in force, its totals as they were.
pub fn put_gas(row: &mut Row, gas: Gas)
    ensures { row.new ≡ with_gas_words row.old gas.pair.combustion gas.pair.metering (numbers gas.properties) }
{
    let p = gas.properties;
    row[ANALYSED] = 1;
    row[COMBUSTION] = u64::from(gas.pair.combustion);
    row[METERING] = u64::from(gas.pair.metering);
    row[Z] = p.z.value();
    row[HS] = p.hs.value();
    row[HI] = p.hi.value();
    row[RHO] = p.rho.value();
    row[D] = p.d.value();
    row[W] = p.w.value();
}

// The gas in a row that has one.
fn gas_in(row: &Row) -> Gas
    requires { LentRow row.now × (get_or row.now 0 0 ≡ 0 → ⊥) }
    ensures { result ≡ gas_in row.now }
{
    Gas {
        pair: Pair {
            combustion: row[COMBUSTION] as u8,
            metering: row[METERING] as u8,
        },
        properties: properties_in(row),
    }
}

// The analysis in a row.
fn analysis_in(row: &Row) -> Option<Gas>
    requires { LentRow row.now }
    ensures { result ≡ analysis_in (get_or row.now 0 0) row.now }
{
    if row[ANALYSED] == 0 {
        None
    } else {
        Some(gas_in(row))
    }
}

// The stream in a row.
pub fn stream_in(row: &Row) -> Stream
    requires { LentRow row.now }
    ensures { result ≡ stream_in row.now }
{
    Stream::from_parts(analysis_in(row), totals_in(row))
}

// A stream as a row.
pub fn row_of(stream: &Stream) -> Row
    ensures { result ≡ packed_stream stream.now }
{
    let mut row = [0u64; WORDS];
    if let Some(gas) = stream.in_force() {
        put_gas(&mut row, gas);
    }
    put_totals(&mut row, stream.totals());
    row
}
