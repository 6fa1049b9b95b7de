// Meters a day file with its volumes on stream 0 of a fresh meter, and prints how many analyses and volumes were accepted, the totals and
// the means; or prints a line for each block of a day file. Its arguments:
//   DAY VOLUMES     the day file, and the text with the volumes, one a line
//   --list DAY      the day file whose blocks it lists
// One of the two files may be `-`, standard input. A third argument `--progress` has it tell on standard error how far a long file has
// been read. Its status is 0 where it has printed these, 1 where the file is refused, and 2 for trouble.
#![tactic(auto)]

mod blocks;
mod input;
mod metered;
mod progress;
mod trouble;
mod volumes;

use progress::Progress;
use std::alloc::Allocator;
use std::env::Env;
use std::io::{BufWriter, Input, Write};
use std::process::ExitCode;
use std::rt::Files;
use std::{env, io};
use trouble::Trouble;

const PRINTED: u8 = 0;

const REFUSED: u8 = 1;

const TROUBLE: u8 = 2;

// The first two arguments, and whether the third is there.
#[derive(Drop)]
struct Asked<A: Allocator> {
    first: String<A>,
    second: String<A>,
    progress: bool,
}

fn asked_for<R: Env + Alloc>(rt: &R) -> Result<Asked<R::A>, Trouble> {
    let mut words = env::args(rt).map_err(|_| Trouble::Arguments)?;
    let _program = words.next();
    let first = words.next().ok_or(Trouble::Arguments)?;
    let second = words.next().ok_or(Trouble::Arguments)?;
    let third = words.next();
    let progress = third
        .as_ref()
        .is_some_and(|word| word.as_str() == "--progress");
    if third.is_some() && !progress || words.next().is_some() {
        return Err(Trouble::Arguments);
    }
    Ok(Asked {
        first,
        second,
        progress,
    })
}

fn print_day<R: Input + Files + Print + Eprint + Alloc>(
    rt: &R,
    day: &str,
    volumes: &str,
    progress: &mut Progress<R>,
) -> Result<u8, Trouble> {
    if day == "-" && volumes == "-" {
        return Err(Trouble::Arguments);
    }
    let file = input::day_named(rt, day, progress).map_err(Trouble::DayFile)?;
    let volumes = input::volumes_named(rt, volumes, progress)?;
    progress.clear();
    match metered::meter_day(&file, &volumes) {
        Ok(metered) => rt.print(metered).map(|()| PRINTED),
        Err(refusal) => rt.println(refusal).map(|()| REFUSED),
    }
    .map_err(Trouble::Output)
}

fn print_blocks<R: Input + Files + Print + Eprint + Alloc>(
    rt: &R,
    day: &str,
    progress: &mut Progress<R>,
) -> Result<u8, Trouble> {
    let file = input::day_named(rt, day, progress).map_err(Trouble::DayFile)?;
    let mut out = BufWriter::new(rt.alloc(), io::writer(rt)).map_err(Trouble::Output)?;
    let whole = blocks::list(&file, &mut out, progress).map_err(Trouble::Output)?;
    out.flush().map_err(Trouble::Output)?;
    Ok(if whole { PRINTED } else { REFUSED })
}

fn print_asked<R: Input + Files + Print + Eprint + Alloc>(
    rt: &R,
    first: &str,
    second: &str,
    progress: &mut Progress<R>,
) -> Result<u8, Trouble> {
    if first == "--list" {
        print_blocks(rt, second, progress)
    } else {
        print_day(rt, first, second, progress)
    }
}

fn run<R: Env + Input + Files + Print + Eprint + Alloc>(rt: &R) -> Result<u8, Trouble> {
    let asked = asked_for(rt)?;
    let mut progress = Progress::new(rt, asked.progress);
    let status = print_asked(
        rt,
        asked.first.as_str(),
        asked.second.as_str(),
        &mut progress,
    );
    progress.clear();
    status
}

fn main(rt: HostRuntime) -> ExitCode {
    let status = run(&rt).unwrap_or_else(|trouble| {
        let _ = trouble.tell(&rt);
        TROUBLE
    });
    ExitCode::from(status)
}
