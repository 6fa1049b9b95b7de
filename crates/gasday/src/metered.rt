// What a day comes to.
ghost use Rattle.std.specs.Prelude.{◌≡◌};
ghost use Rattle.gasday.specs.Metered.{metered_of, metered_meaning};

use meter::{Counts, Energy, Meter, StreamTotals};
use properties::quantities::CalorificValue;
use records::Refusal;
use std::fmt;
use std::fmt::{Display, Formatter};

// The stream of the fresh meter that takes the day.
const STREAM: usize = 0;

// How many analyses and volumes were accepted, the totals, and the means of both energies.
#[derive(Drop)]
pub struct Metered {
    counts: Counts,
    totals: StreamTotals,
    mean: Result<CalorificValue, Refusal>,
    mean_inferior: Result<CalorificValue, Refusal>,
}

// What a day file and its volumes come to on a fresh meter, or the refusal of the file.
pub fn meter_day(file: &[u8], volumes: &[u64]) -> Result<Metered, Refusal>
    ensures { metered_meaning result ≡ metered_of file.now volumes.now }
{
    let mut meter = Meter::new();
    let counts = meter.day(STREAM, file, volumes)?;
    Ok(Metered {
        counts,
        totals: meter.totals(STREAM)?,
        mean: meter.mean(STREAM, Energy::Superior),
        mean_inferior: meter.mean(STREAM, Energy::Inferior),
    })
}

// A mean, or its refusal.
#[derive(Drop)]
struct Mean(Result<CalorificValue, Refusal>);

impl Display for Mean {
    fn fmt<W: fmt::Write>(&self, f: &mut Formatter<W>) -> fmt::Result {
        match &self.0 {
            Ok(mean) => write!(f, "{}", mean.value()),
            Err(refusal) => write!(f, "{refusal}"),
        }
    }
}

// Its lines.
impl Display for Metered {
    fn fmt<W: fmt::Write>(&self, f: &mut Formatter<W>) -> fmt::Result {
        let t = self.totals;
        writeln!(f, "analyses {}", self.counts.analyses)?;
        writeln!(f, "volumes {}", self.counts.volumes)?;
        writeln!(f, "volume {}", t.volume)?;
        writeln!(f, "superior_mj {}", t.superior.whole)?;
        writeln!(f, "superior_rest {}", t.superior.rest)?;
        writeln!(f, "inferior_mj {}", t.inferior.whole)?;
        writeln!(f, "inferior_rest {}", t.inferior.rest)?;
        writeln!(f, "mass_kg {}", t.mass.whole)?;
        writeln!(f, "mass_rest {}", t.mass.rest)?;
        writeln!(f, "mean {}", Mean(self.mean))?;
        writeln!(f, "mean_inferior {}", Mean(self.mean_inferior))
    }
}
