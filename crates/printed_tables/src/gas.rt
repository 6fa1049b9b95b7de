// The gas of annex D at 15/15: table D.1, its sums, and formulas (7) and (9).
ghost use Rattle.std.specs.Prelude.{◌≡◌, ◌%◌, ◌<◌, ◌≤◌, slice_index, refl};
ghost use Rattle.properties.specs.Chain.{HmSuperior, M, S};
ghost use Rattle.printed_tables.specs.Figures.{number_of};
ghost use Rattle.printed_tables.specs.Gas.{gas, line_at, fraction_at, mass_part, volume_part, gas_totals};
ghost use Rattle.printed_tables.specs.TableD1.{row_columns, row_scales, row_units, row_weight, row_scale, row_figure};

use super::parts::Part;
use super::places::Place;
use super::{table_d1, tables};
use components::{Combustion, Metering, Sums};
use properties::steps;

// The lines, and their mole fractions in ppm: two lists, as `records::write` takes them.
pub const LINES: [u8; 8] = [1, 2, 3, 4, 5, 6, 52, 54];

pub const FRACTIONS: [u32; 8] = [924700, 35000, 9800, 2200, 3400, 600, 17500, 6800];

// A column of table D.1: its column of the component table, the scale of its figures, and how many of the unit make 1.
#[derive(Clone, Copy)]
struct Column {
    column: usize,
    scale: u64,
    unit: u64,
}

const COLUMNS: [Column; 6] = [
    Column {
        column: 0,
        scale: 1000,
        unit: 10000,
    },
    Column {
        column: 8,
        scale: 100,
        unit: 1000,
    },
    Column {
        column: 2,
        scale: 10000,
        unit: 10000,
    },
    Column {
        column: 0,
        scale: 10000,
        unit: 10000000000,
    },
    Column {
        column: 8,
        scale: 100,
        unit: 1000000000,
    },
    Column {
        column: 2,
        scale: 100000,
        unit: 10000000000,
    },
];

// Their names, apart from the numbers: no proof names a constant in which text stands.
const NAMES: [&str; 6] = ["M", "H", "s", "x M", "x H", "x s"];

// The column of the k-th figure. Here a figure is its place in the list, as `Part` counts it: a type of it would be this number.
fn column_of(k: usize) -> Column
    ensures column { result.column ≡ slice_index row_columns (k % 6) }
    ensures scale { result.scale ≡ slice_index row_scales (k % 6) }
    ensures unit { result.unit ≡ slice_index row_units (k % 6) }
{
    COLUMNS[k % 6]
}

// The i-th line's number in a column of the component table, without its sign: `tables::number` where the line stands in a list. By its place,
// as specs/Gas has it: a type of places would be this number too.
fn number(i: usize, column: usize) -> u64
    requires { (i < 8) × (column < 12) }
    ensures value { result ≡ number_of (line_at i) column }
    ensures small { result ≤ 10000000 }
{
    tables::number(usize::from(LINES[i]), column)
}

fn fraction(i: usize) -> u64
    requires { i < 8 }
    ensures { result ≡ fraction_at i }
{
    u64::from(FRACTIONS[i])
}

// Table D.1.
pub struct TableD1;

impl Part for TableD1 {
    const NAME: &'static str = "annex D, table D.1";

    ghost use Rattle.printed_tables.specs.Parts.{table_d1_figures};
    ghost use Rattle.printed_tables.specs.TableD1.{row_figure};
    ghost use Rattle.printed_tables.specs.declared.table_d1.TheConstants.{FIGURES};

    ghost figures = { table_d1_figures };

    ghost printed = { FIGURES };

    ghost calculated = { λ _. row_figure };

    fn len(&self) -> usize {
        table_d1::FIGURES.len()
    }

    fn printed(&self, k: usize) -> u64 {
        u64::from(table_d1::FIGURES[k])
    }

    fn calculated(&self, k: usize) -> u64 {
        figure(k)
    }

    fn scale(&self, k: usize) -> u64 {
        scale(k)
    }

    fn place(&self, k: usize) -> Place {
        Place::Row {
            line: LINES[k / 6],
            name: NAMES[k % 6],
        }
    }

    ghost whole = { refl };
}

// The scale of the k-th figure. Molar masses have three decimals, and nitrogen's, figure 36, four.
fn scale(k: usize) -> u64
    ensures { (result ≡ row_scale k) × (0 < result) }
{
    if k == 36 {
        return 10000;
    }
    column_of(k).scale
}

// What the number of the table is multiplied by: 1 or x.
fn weight(k: usize) -> u64
    requires { k < 48 }
    ensures { result ≡ row_weight k }
{
    if k % 6 < 3 {
        return 1;
    }
    fraction(k / 6)
}

// The k-th figure as calculated.
#[tactic(auto, using(crate::proofs::GasLaws::product_high, crate::proofs::GasLaws::scaled_high))]
fn figure(k: usize) -> u64
    requires { k < 48 }
    ensures { result ≡ row_figure k }
{
    let column = column_of(k);
    let n = number(k / 6, column.column);
    rounding::nearest(weight(k) * n * scale(k), column.unit)
}

// The sums of x H, x M, x s and x, of formula (7), unit 10^-12 MJ/kg, and of formula (9), unit 10^-6 J/m³.
#[derive(Clone, Copy)]
pub struct Totals {
    pub h: u64,
    pub m: u64,
    pub s: u64,
    pub x: u64,
    pub mass: u64,
    pub volume: u64,
}

// A line's part of formula (7): its mass fraction, unit 10^-7, times its calorific value, unit 10^-5 MJ/kg. It shares no sum or division
// with (9), which has no masses, so each formula is a function.
#[tactic(auto, using(crate::proofs::GasLaws::mass_high_lem, crate::proofs::GasLaws::mass_part_high, crate::proofs::GasLaws::m_value, crate::proofs::GasLaws::line_in, crate::proofs::NumberLaws::mass_above), unfolding(crate::specs::Gas::mass_part))]
fn mass_part(i: usize, total: u64) -> u64
    requires { (i < 8) × (total ≡ M gas) }
    ensures { result ≡ mass_part i }
{
    let m = number(i, components::MOLAR_MASS);
    let h = number(i, Combustion::At15.superior());
    let fraction = rounding::nearest(fraction(i) * m * 10000000, total);
    fraction * rounding::nearest(1000000 * h, m)
}

// A line's part of formula (9): its fraction times its calorific value.
#[tactic(auto, using(crate::proofs::GasLaws::volume_part_high), unfolding(crate::specs::Gas::volume_part, properties::specs::Chain::D, properties::specs::Chain::T))]
fn volume_part(i: usize) -> u64
    requires { i < 8 }
    ensures { result ≡ volume_part i }
{
    let h = number(i, Combustion::At15.superior());
    fraction(i) * steps::ideal_calorific_value(1000000 * h, 15)
}

// The sums of the gas over the component table, h and s at 15 °C. `sums_of` of properties takes an accepted record: one would be written
// and read for it, and the sums could be refused.
fn sums() -> Sums
    ensures superior { result.superior ≡ HmSuperior gas }
    ensures mass { result.mass ≡ M gas }
    ensures summation { result.summation ≡ S gas }
{
    let mut sums = Sums::default();
    for (line, fraction) in LINES.iter().zip(&FRACTIONS) {
        sums.add(*line, *fraction, Combustion::At15, Metering::At15);
    }
    sums
}

pub fn gas_totals() -> Totals
    ensures { result ≡ gas_totals }
{
    let sums = sums();
    let m = sums.mass;
    let s = sums.summation.unsigned_abs();
    let mut x = 0;
    let mut mass = 0;
    let mut volume = 0;
    // One loop by place: as chains, three sums would go over the lines three times.
    #[tactic(auto, unfolding(crate::specs::Gas::sum_to))]
    for i in 0..8 {
        x += fraction(i);
        mass += mass_part(i, m);
        volume += volume_part(i);
    }
    Totals {
        h: sums.superior,
        m,
        s,
        x,
        mass,
        volume,
    }
}
