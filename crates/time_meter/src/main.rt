// Makes 10,000,000 metering calls over all sixteen streams, and prints for each stream its number, its volume, of each energy whole MJ,
// rest in mJ and mean, and of the mass whole kg and rest in 10^-11 kg. rust/benches/program.rs runs it, makes the same calls on meters
// in Rust, and compares what is printed and the times.
#![tactic(auto)]

ghost use Rattle.std.specs.Prelude.{◌≡◌};
ghost use Rattle.time_meter.specs.Calls.{temperature_of, methane_at, analysed_to, metered_to};

use meter::{Energy, Meter, StreamTotals};
use properties::quantities::CalorificValue;
use records::Refusal;
use std::fmt::{Display, Formatter};
use std::{fmt, io};

// 15 °C for even streams, 0 °C for odd ones, as the byte of a record.
fn temperature(stream: usize) -> u8
    ensures { result ≡ temperature_of stream }
{
    if stream % 2 == 0 { 15 } else { 0 }
}

// The record of methane alone at a stream's temperature, both of combustion and of metering. `records::write` would need a buffer and an
// answer for its refusal; these are its 13 bytes.
#[tactic(auto, unfolding(records::specs::Format::entries_bytes))]
fn methane(stream: usize) -> [u8; 13]
    ensures { result ≡ methane_at (temperature_of stream) }
{
    let t = temperature(stream);
    [b'G', b'C', b'R', 1, 0, t, t, 1, 1, 0x40, 0x42, 0x0F, 0]
}

// An analysis on each stream. A `for`: the calls change one meter in place, which a fold would hand on from turn to turn.
fn analyse(meter: &mut Meter)
    ensures { meter.new ≡ analysed_to 16 meter.old }
{
    #[tactic(auto, unfolding(crate::specs::Calls::analysed_to))]
    for stream in 0..16 {
        let _ = meter.analysis(stream, &methane(stream));
    }
}

// The metering calls, from stream to stream, by a `for` as in `analyse`.
fn take_volumes(meter: &mut Meter)
    ensures { meter.new ≡ metered_to 10000000 meter.old }
{
    #[tactic(auto, unfolding(crate::specs::Calls::metered_to))]
    for i in 0..10000000 {
        let _ = meter.metering((i % 16) as usize, i % 1000);
    }
}

// What a stream has taken, and its means.
#[derive(Drop)]
struct Line {
    stream: usize,
    totals: StreamTotals,
    mean: CalorificValue,
    mean_inferior: CalorificValue,
}

impl Line {
    fn new(meter: &Meter, stream: usize) -> Result<Line, Refusal> {
        Ok(Line {
            stream,
            totals: meter.totals(stream)?,
            mean: meter.mean(stream, Energy::Superior)?,
            mean_inferior: meter.mean(stream, Energy::Inferior)?,
        })
    }
}

impl Display for Line {
    fn fmt<W: fmt::Write>(&self, f: &mut Formatter<W>) -> fmt::Result {
        let t = self.totals;
        write!(f, "{} {}", self.stream, t.volume)?;
        write!(
            f,
            " {} {} {}",
            t.superior.whole,
            t.superior.rest,
            self.mean.value()
        )?;
        write!(
            f,
            " {} {} {}",
            t.inferior.whole,
            t.inferior.rest,
            self.mean_inferior.value()
        )?;
        write!(f, " {} {}", t.mass.whole, t.mass.rest)
    }
}

// A line for each stream of which the meter tells.
fn print_lines(rt: &impl Print, meter: &Meter) -> io::Result<()> {
    for line in (0..16).filter_map(|stream| Line::new(meter, stream).ok()) {
        println!(rt; "{line}")?;
    }
    Ok(())
}

// It ends alike where a write fails.
fn main(rt: HostRuntime) {
    let mut meter = Meter::new();
    analyse(&mut meter);
    take_volumes(&mut meter);
    let _ = print_lines(&rt, &meter);
}
