// Tables 4 and 5: the ideal calorific value per kilogram and per cubic metre of the lines 1 to 48, superior and inferior by turns.
ghost use Rattle.std.specs.Prelude.{◌≡◌, ◌/◌, ◌<◌, ◌≤◌, slice_index, refl};
ghost use Rattle.components.specs.Table.{superior};
ghost use Rattle.components.specs.Temperatures.{heat_place};
ghost use Rattle.printed_tables.specs.Figures.{number_of, scale_of, figure_per_kilogram, superiors, meterings, figure_per_cubic_metre};

use super::parts::{Counts, Part, count};
use super::places::{Place, print_differences};
use super::{table_4, table_5};
use components::Combustion;
use properties::quantities::MassCalorificValue;
use properties::steps;
use std::io;

// A number of the component table, without its sign; line and column are those of `components::entry`.
#[tactic(auto, using(components::proofs::Entries::entry_below))]
pub fn number(line: usize, column: usize) -> u64
    requires { (1 ≤ line) × (line ≤ 55) × (column < 12) }
    ensures value { result ≡ number_of line column }
    ensures small { result ≤ 10000000 }
{
    u64::from(components::entry(line as u8, column).unsigned_abs())
}

// By turns.
const VALUES: [&str; 2] = ["superior", "inferior"];

// Table 4, the ideal calorific value per kilogram.
pub struct Table4;

impl Table4 {
    const TEMPERATURES: [&'static str; 4] = ["25", "20", "15", "0"];

    // Three decimals for methane, two for the other lines.
    fn scale_of_line(line: usize) -> u64
        ensures { (result ≡ scale_of 4 line) × (result ≤ 1000) }
    {
        if line == 1 { 1000 } else { 100 }
    }

    // The figure of a line in a column.
    #[tactic(auto, using(components::proofs::Entries::entry_by_mass, crate::proofs::NumberLaws::mass_above))]
    fn figure(line: usize, column: usize) -> u64
        requires { (1 ≤ line) × (line ≤ 55) × (column < 8) }
        ensures { result ≡ figure_per_kilogram line column }
    {
        let h = number(line, Combustion::At25.superior() + column);
        let m = number(line, components::MOLAR_MASS);
        let value = steps::per_kilogram(1000000 * h, 1000000 * m).value();
        rounding::nearest(value * Self::scale_of_line(line), MassCalorificValue::SCALE)
    }
}

impl Part for Table4 {
    const NAME: &'static str = "table 4";

    ghost use Rattle.printed_tables.specs.Parts.{table_4_figures, table_4_figure};
    ghost use Rattle.printed_tables.specs.declared.table_4.TheConstants.{FIGURES};

    ghost figures = { table_4_figures };

    ghost printed = { FIGURES };

    ghost calculated = { λ _. table_4_figure };

    fn len(&self) -> usize {
        table_4::FIGURES.len()
    }

    fn printed(&self, k: usize) -> u64 {
        u64::from(table_4::FIGURES[k])
    }

    fn calculated(&self, k: usize) -> u64 {
        Self::figure(k / 8 + 1, k % 8)
    }

    fn scale(&self, k: usize) -> u64 {
        Self::scale_of_line(k / 8 + 1)
    }

    fn place(&self, k: usize) -> Place {
        Place::Cell {
            line: k / 8 + 1,
            value: VALUES[k % 2],
            conditions: Self::TEMPERATURES[k % 8 / 2],
        }
    }

    ghost whole = { refl };
}

// A pair of conditions of table 5, the metering temperature in °C.
#[derive(Clone, Copy)]
struct Conditions {
    combustion: Combustion,
    metering: u8,
}

// Table 5, the ideal calorific value per cubic metre.
pub struct Table5;

impl Table5 {
    const CONDITIONS: [Conditions; 6] = [
        Conditions {
            combustion: Combustion::At15,
            metering: 15,
        },
        Conditions {
            combustion: Combustion::At0,
            metering: 0,
        },
        Conditions {
            combustion: Combustion::At15,
            metering: 0,
        },
        Conditions {
            combustion: Combustion::At25,
            metering: 0,
        },
        Conditions {
            combustion: Combustion::At20,
            metering: 20,
        },
        Conditions {
            combustion: Combustion::At25,
            metering: 20,
        },
    ];

    // Their names, apart from the numbers: no proof names a constant in which text stands.
    const NAMES: [&'static str; 6] = ["15/15", "0/0", "15/0", "25/0", "20/20", "25/20"];

    // Three decimals for methane and hydrogen, two for the other lines.
    fn scale_of_line(line: usize) -> u64
        ensures { (result ≡ scale_of 5 line) × (result ≤ 1000) }
    {
        if line == 1 || line == 41 { 1000 } else { 100 }
    }

    fn conditions_of(column: usize) -> Conditions
        requires { column < 12 }
        ensures superior { superior (heat_place result.combustion) ≡ slice_index superiors (column / 2) }
        ensures metering { result.metering ≡ slice_index meterings (column / 2) }
    {
        Self::CONDITIONS[column / 2]
    }

    // The figure of a line in a column.
    fn figure(line: usize, column: usize) -> u64
        requires { (1 ≤ line) × (line ≤ 55) × (column < 12) }
        ensures { result ≡ figure_per_cubic_metre line column }
    {
        let conditions = Self::conditions_of(column);
        let h = number(line, conditions.combustion.superior() + column % 2);
        let value = steps::ideal_calorific_value(1000000 * h, conditions.metering);
        rounding::nearest(value * Self::scale_of_line(line), 1000000)
    }
}

impl Part for Table5 {
    const NAME: &'static str = "table 5";

    ghost use Rattle.printed_tables.specs.Parts.{table_5_figures, table_5_figure};
    ghost use Rattle.printed_tables.specs.declared.table_5.TheConstants.{FIGURES};

    ghost figures = { table_5_figures };

    ghost printed = { FIGURES };

    ghost calculated = { λ _. table_5_figure };

    fn len(&self) -> usize {
        table_5::FIGURES.len()
    }

    fn printed(&self, k: usize) -> u64 {
        u64::from(table_5::FIGURES[k])
    }

    fn calculated(&self, k: usize) -> u64 {
        Self::figure(k / 12 + 1, k % 12)
    }

    fn scale(&self, k: usize) -> u64 {
        Self::scale_of_line(k / 12 + 1)
    }

    fn place(&self, k: usize) -> Place {
        Place::Cell {
            line: k / 12 + 1,
            value: VALUES[k % 2],
            conditions: Self::NAMES[k % 12 / 2],
        }
    }

    ghost whole = { refl };
}

pub fn print_comparison<P: Part>(rt: &impl Print, table: &P) -> io::Result<()> {
    let name = P::NAME;
    print_differences(rt, table)?;
    println!(rt; "{name}: {}", count(Counts::new(), table))?;
    println!(rt; "not compared: the names of {name}; it has no lines 49 to 55")
}
