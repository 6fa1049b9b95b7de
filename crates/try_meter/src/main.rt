// Runs the compiled calls of the meter that its input lists and prints what comes back: K9 of document 01, each refusal from 13 to 18,
// some where a later condition of the order holds too, 9, and 11 where 9 holds too, the carry from the rest to the whole MJ and kg, two
// gases on one stream, a natural gas and hydrogen on one, with 10 for hydrogen 899,999 and 11 in the hydrogen class, and a stream that
// is full.
//
// rust/examples/expected.rs prints the input, from the lists of rust/tests/calls. A call is a letter, the lengths of a title and of a
// record (2 bytes each), a stream and a volume in dm³ (8 bytes each, least significant first), the title, and the record. The letter
// `n` takes a fresh meter, `a` is an analysis, `m` a metering call, `f` fills a stream, and `r` reads one.
#![tactic(auto)]

mod call;
mod printed;

ghost use Rattle.std.specs.Prelude.{◌≡◌, ◌≤◌, length, take};
ghost use Rattle.try_meter.specs.Calls.{filled_by, after_call};

use call::{Call, Calls, Kind};
use meter::{Energy, Meter, StreamTotals};
use printed::{Accepted, Answer, Mean, Totals};
use properties::quantities::CalorificValue;
use records::Refusal;
use std::io;
use std::io::{Input, Read};

// A stream takes 99,999 times 10,000,000 dm³. A `for`: the calls change one meter in place, which a fold would hand on.
fn fill(meter: &mut Meter, stream: usize)
    ensures { meter.new ≡ filled_by 99999 meter.old stream }
{
    #[tactic(auto, unfolding(crate::specs::Calls::filled_by))]
    for i in 0..99999u64 {
        let _ = meter.metering(stream, 10000000);
    }
}

// What the call gives; nothing is said of a fresh meter and of one that is filled.
#[derive(Drop)]
enum Given {
    Nothing,
    Analysis(Result<(), Refusal>),
    Metering(Result<(), Refusal>),
    Reading {
        totals: Result<StreamTotals, Refusal>,
        mean: Result<CalorificValue, Refusal>,
        inferior: Result<CalorificValue, Refusal>,
    },
}

// Makes a call of the input.
fn make(meter: &mut Meter, call: &Call) -> Given
    ensures { meter.new ≡ after_call meter.old call.now.kind call.now.stream call.now.volume call.now.bytes.now }
{
    let stream = call.stream;
    match call.kind {
        Kind::Fresh => {
            *meter = Meter::new();
            Given::Nothing
        }
        Kind::Analysis => Given::Analysis(meter.analysis(stream, call.bytes)),
        Kind::Metering => Given::Metering(meter.metering(stream, call.volume)),
        Kind::Filling => {
            fill(meter, stream);
            Given::Nothing
        }
        Kind::Reading => Given::Reading {
            totals: meter.totals(stream),
            mean: meter.mean(stream, Energy::Superior),
            inferior: meter.mean(stream, Energy::Inferior),
        },
    }
}

fn print(rt: &impl Print, call: &Call, given: Given) -> io::Result<()> {
    let stream = call.stream;
    match given {
        Given::Nothing => Ok(()),
        Given::Analysis(answer) => {
            print!(rt; "analysis {stream}")?;
            rt.write_all(call.title)?;
            println!(rt; ": {}", Answer(answer.map(|()| Accepted)))
        }
        Given::Metering(answer) => {
            let answer = Answer(answer.map(|()| Accepted));
            println!(rt; "metering {stream} {}: {answer}", call.volume)
        }
        Given::Reading {
            totals,
            mean,
            inferior,
        } => {
            println!(rt; "totals {stream}: {}", Answer(totals.map(Totals)))?;
            println!(rt; "mean {stream}: {}", Answer(mean.map(Mean)))?;
            println!(rt; "mean inferior {stream}: {}", Answer(inferior.map(Mean)))
        }
    }
}

// Makes the calls of the input on a meter that begins fresh.
fn run(rt: &impl Print, input: &[u8]) -> io::Result<()> {
    let mut meter = Meter::new();
    for call in Calls(input) {
        let given = make(&mut meter, &call);
        print(rt, &call, given)?;
    }
    Ok(())
}

// Reads until the buffer is full, the input ends or a read fails, and answers how many bytes it put at the start of the buffer. A Vec would
// rest on the functions of C that allocate.
fn read_full(reader: &mut impl Read, buffer: &mut [u8]) -> usize
    ensures { (result ≤ length buffer.new) × (result ≡ length (take result buffer.new)) }
{
    let mut done = 0;
    while done < buffer.len() {
        match reader.read(&mut buffer[done..]) {
            Ok(0) | Err(_) => break,
            Ok(more) => done += more,
        }
    }
    done
}

// It ends alike where a write fails.
fn main(rt: HostRuntime) {
    let mut space = [0u8; 2048];
    let n = read_full(&mut rt.reader(), &mut space);
    let _ = run(&rt, &space[..n]);
}
