// What a day file asks of a meter before any of it is taken, and what is answered.
ghost use Rattle.std.specs.Prelude.{◌≡◌, ◌≤◌, IfOk};
ghost use Rattle.records.specs.Order.{first_of};
ghost use Rattle.records.specs.Refusals.{number_in};
ghost use Rattle.meter.specs.State.{last_stream};
ghost use Rattle.meter.specs.Conditions.{day_order};

use super::check_stream;
use day_file::DayFile;
use records::Refusal;

// How many analyses and how many volumes of a day file were accepted.
#[derive(Clone, Copy, Default)]
pub struct Counts {
    pub analyses: usize,
    pub volumes: usize,
}

// The day file that a stream takes with so many volumes, or 13, 21, 23 or 19.
pub fn check_day(stream: usize, file: &[u8], volumes: usize) -> Result<DayFile<'_>, Refusal>
    ensures number { number_in result ≡ first_of (day_order stream file.now volumes) }
    ensures same { IfOk result (λ d. d.file.now ≡ file.now) }
    ensures within { IfOk result (λ _. stream ≤ last_stream) }
{
    check_stream(stream)?;
    let day = DayFile::new(file)?;
    if volumes != day.count {
        return Err(Refusal::ListsDiffer);
    }
    Ok(day)
}
