// The meter of document 01: sixteen streams, each with the analysis in force, a volume total, two energies and a mass. Every call on a
// meter as made or as its calls left it, with any stream, record, volume and day file, gets its answer or the one reason of its refusal. A
// call that is refused leaves the meter as it was.
#![tactic(auto)]

ghost use Rattle.std.specs.Prelude.{◌≡◌, [], ◌∷◌, ◌+◌, ◌*◌, ◌^◌, ◌≤◌, ◌<◌, IfOk};
ghost use Rattle.records.specs.Order.{first_of};
ghost use Rattle.records.specs.Refusals.{number_in};
ghost use Rattle.records.specs.Answers.{Gives};
ghost use Rattle.day_file.specs.Format.{blocks_of};
ghost use Rattle.properties.specs.Quantities.{Bounded};
ghost use Rattle.properties.specs.Answers.{numbers};
ghost use Rattle.meter.specs.State.{last_stream, most_volume, most_total, fresh_meter, SoundEnergy, SoundTotals, SoundStream};
ghost use Rattle.meter.specs.Conditions.{pair_differs, totals_order};
ghost use Rattle.meter.specs.Calls.{booked, added, stream_analysis, stream_metering, analysis_of, metering_of, totals_of, mean_over, mean_for, register_of};
ghost use Rattle.meter.specs.Days.{stream_day, day_of, GivesDay};
ghost use Rattle.meter.specs.Answers.{totals_meaning, mean_meaning};

mod day;

pub use day::{Counts, check_day};
use day_file::DayFile;
use properties::Properties;
use properties::quantities::CalorificValue;
use records::{Pair, Record, Refusal};
use std::marker::Model;

// The last stream.
pub const LAST_STREAM: usize = 15;
// The most that one metering call adds, in dm³.
pub const MOST_VOLUME: u64 = 10000000;
// The most that a volume total comes to, in dm³.
pub const MOST_TOTAL: u64 = 999999999999;
// mJ in 1 MJ.
pub const PER_MJ: u64 = 1000000000;
// 10^-11 kg in 1 kg.
pub const PER_KG: u64 = 100000000000;

// The properties of an accepted record, and its pair.
#[derive(Clone, Copy)]
pub struct Gas {
    pub pair: Pair,
    pub properties: Properties,
}

// The energies of a stream: by the superior and by the inferior calorific value.
#[derive(Clone, Copy, PartialEq, Eq)]
pub enum Energy {
    Superior,
    Inferior,
}

// An amount in two parts: of energy whole MJ and a rest below 10^9 mJ, of mass whole kg and a rest below 10^11 of 10^-11 kg.
#[derive(Clone, Copy, Default, PartialEq, Eq, PartialOrd, Ord)]
pub struct Register {
    pub whole: u64,
    pub rest: u64,
}

// The totals of a stream: the volume in dm³, the energies by the superior and by the inferior calorific value, and the mass.
#[derive(Clone, Copy, Default)]
pub struct StreamTotals {
    pub volume: u64,
    pub superior: Register,
    pub inferior: Register,
    pub mass: Register,
}

// A stream: the analysis in force, and the totals.
#[derive(Clone, Copy)]
pub struct Stream {
    analysis: Option<Gas>,
    totals: StreamTotals,
}

impl Model for Stream {
    ghost use Rattle.meter.specs.StreamState.{StreamState};

    ghost Value = { StreamState };

    ghost use Rattle.meter.specs.State.{SoundStream};

    ghost view = { λ s. record { analysis = s.analysis; totals = s.totals } };

    ghost invariant = { λ s. SoundStream (record { analysis = s.analysis; totals = s.totals }) };

    ghost inverse = { λ s. record { analysis = s.analysis; totals = s.totals } };
}

// Sixteen streams, 0 to 15.
#[derive(Clone, Copy)]
pub struct Meter {
    streams: [Stream; 16],
}

// 13: the stream is above 15.
pub fn check_stream(stream: usize) -> Result<(), Refusal>
    ensures number { number_in result ≡ first_of (totals_order stream) }
    ensures within { IfOk result (λ _. stream ≤ last_stream) }
{
    if LAST_STREAM < stream {
        return Err(Refusal::StreamAbove);
    }
    Ok(())
}

impl Register {
    // The register with volume × value more, in units of its rest, `unit` of which make one whole. What it asks
    // stands here and in no type: lent_meter makes registers of any words.
    pub fn booked(self, unit: u64, volume: u64, value: u64) -> Register
        requires register { (self.rest < unit) × (unit < 2 ^ 62) × (self.whole < 2 ^ 63) }
        requires factors { (volume ≤ most_volume) × (value < 2 ^ 32) }
        ensures { result ≡ booked unit self (volume * value) }
    {
        let more = volume * value;
        let rest = self.rest + more;
        Register {
            whole: self.whole + rest / unit,
            rest: rest % unit,
        }
    }

    // The mean calorific value of an energy over a volume, in J/m³, or 18.
    pub fn mean_over(self, volume: u64) -> Result<CalorificValue, Refusal>
        requires { SoundEnergy volume self × (volume ≤ most_total) }
        ensures { mean_meaning result ≡ mean_over self volume }
    {
        if volume == 0 {
            return Err(Refusal::TotalZero);
        }
        Ok(CalorificValue::new(rounding::nearest_wide(self.whole, self.rest, volume)))
    }
}

impl StreamTotals {
    // The totals with the volume, volume × Hs and volume × Hi in mJ, and volume × rho in 10^-11 kg, added.
    pub fn added(self, properties: Properties, volume: u64) -> StreamTotals
        requires sound_totals { SoundTotals self × Bounded (numbers properties) }
        requires volume { (volume ≤ most_volume) × (self.volume + volume ≤ most_total) }
        ensures { result ≡ added self properties volume }
    {
        StreamTotals {
            volume: self.volume + volume,
            superior: self.superior.booked(PER_MJ, volume, properties.hs.value()),
            inferior: self.inferior.booked(PER_MJ, volume, properties.hi.value()),
            mass: self.mass.booked(PER_KG, volume, properties.rho.value()),
        }
    }

    // The register of an energy.
    pub fn register_of(self, energy: Energy) -> Register
        ensures { result ≡ register_of energy self }
    {
        match energy {
            Energy::Superior => self.superior,
            Energy::Inferior => self.inferior,
        }
    }

    // The mean calorific value of an energy over the volume, in J/m³, or 18.
    pub fn mean(self, energy: Energy) -> Result<CalorificValue, Refusal>
        requires { SoundTotals self }
        ensures { mean_meaning result ≡ mean_over (register_of energy self) self.volume }
    {
        self.register_of(energy).mean_over(self.volume)
    }
}

impl Stream {
    // A stream from its parts.
    pub fn from_parts(analysis: Option<Gas>, totals: StreamTotals) -> Stream
        requires { SoundStream (record { analysis = analysis; totals = totals }) }
        ensures { result ≡ record { analysis = analysis; totals = totals } }
    {
        Stream { analysis, totals }
    }

    // The analysis in force.
    pub fn in_force(&self) -> Option<Gas>
        ensures { result ≡ self.now.analysis }
    {
        self.analysis
    }

    // The totals.
    pub fn totals(&self) -> StreamTotals
        ensures { result ≡ self.now.totals }
    {
        self.totals
    }

    // 14: the pair is not the stream's.
    fn pair_differs(&self, pair: Pair) -> bool
        ensures { result ≡ pair_differs self.now.analysis pair.combustion pair.metering }
    {
        self.analysis.is_some_and(|gas| gas.pair != pair)
    }

    // The properties of a record come into force, where 13 does not hold.
    fn analysis(&mut self, bytes: &[u8]) -> Result<(), Refusal>
        ensures { Gives (stream_analysis self.old bytes.now) self.old result self.new }
    {
        let accepted = Record::new(bytes)?;
        let pair = accepted.pair();
        if self.pair_differs(pair) {
            return Err(Refusal::PairDiffers);
        }
        let properties = properties::properties_in(&accepted);
        self.analysis = Some(Gas { pair, properties });
        Ok(())
    }

    // The stream takes a volume, in dm³, where 13 does not hold.
    fn metering(&mut self, volume: u64) -> Result<(), Refusal>
        ensures { Gives (stream_metering self.old volume) self.old result self.new }
    {
        if MOST_VOLUME < volume {
            return Err(Refusal::VolumeAbove);
        }
        let gas = self.analysis.ok_or(Refusal::NoAnalysis)?;
        if MOST_TOTAL - self.totals.volume < volume {
            return Err(Refusal::TotalPasses);
        }
        self.totals = self.totals.added(gas.properties, volume);
        Ok(())
    }

    // A block of a day file with its volume: first its record comes into force, then the volume is taken. A refusal stops nothing.
    fn block(&mut self, block: &[u8], volume: u64) -> Counts
        ensures { record { counts = result; left = self.new } ≡ stream_day self.old (block.now ∷ []) (volume ∷ []) }
    {
        Counts {
            analyses: usize::from(self.analysis(block).is_ok()),
            volumes: usize::from(self.metering(volume).is_ok()),
        }
    }

    // The blocks of a day file, each with its volume.
    pub fn day(&mut self, day: &DayFile, volumes: &[u64]) -> Counts
        ensures { record { counts = result; left = self.new } ≡ stream_day self.old (blocks_of day.now.file.now) volumes.now }
    {
        let mut counts = Counts::default();
        let mut blocks = day.blocks();
        for volume in volumes {
            let Some(block) = blocks.next() else {
                break;
            };
            let taken = self.block(block, *volume);
            counts.analyses += taken.analyses;
            counts.volumes += taken.volumes;
        }
        counts
    }
}

impl Meter {
    // A meter as made.
    pub fn new() -> Meter
        ensures { result ≡ fresh_meter }
    {
        let stream = Stream {
            analysis: None,
            totals: StreamTotals::default(),
        };
        Meter {
            streams: [stream; 16],
        }
    }

    // The properties of a record come into force on a stream. By an index: with `get_mut` two goals stay open.
    pub fn analysis(&mut self, stream: usize, bytes: &[u8]) -> Result<(), Refusal>
        ensures { Gives (analysis_of self.old stream bytes.now) self.old result self.new }
    {
        check_stream(stream)?;
        self.streams[stream].analysis(bytes)
    }

    // A stream takes a volume, in dm³.
    pub fn metering(&mut self, stream: usize, volume: u64) -> Result<(), Refusal>
        ensures { Gives (metering_of self.old stream volume) self.old result self.new }
    {
        check_stream(stream)?;
        self.streams[stream].metering(volume)
    }

    // A stream takes the analyses and the volumes of a day file, one volume for each block.
    pub fn day(&mut self, stream: usize, file: &[u8], volumes: &[u64]) -> Result<Counts, Refusal>
        ensures { GivesDay (day_of self.old stream file.now volumes.now) self.old result self.new }
    {
        let day = check_day(stream, file, volumes.len())?;
        Ok(self.streams[stream].day(&day, volumes))
    }

    // The volume, the energies and the mass of a stream.
    pub fn totals(&self, stream: usize) -> Result<StreamTotals, Refusal>
        ensures { totals_meaning result ≡ totals_of self.now stream }
    {
        check_stream(stream)?;
        let named = &self.streams[stream];
        Ok(named.totals)
    }

    // The mean calorific value of an energy of what a stream has taken, in J/m³.
    pub fn mean(&self, stream: usize, energy: Energy) -> Result<CalorificValue, Refusal>
        ensures { mean_meaning result ≡ mean_for energy self.now stream }
    {
        check_stream(stream)?;
        let named = &self.streams[stream];
        named.totals.mean(energy)
    }
}
