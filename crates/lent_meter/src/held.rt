// Whether words hold a meter.
ghost use Rattle.std.specs.Prelude.{◌≡◌, ◌*◌, ◌^◌, ◌≤◌, ◌<◌, length, replicate, is_some, IfSome};
ghost use Rattle.records.specs.Conditions.{permitted};
ghost use Rattle.properties.specs.Bounds.{Proper, DensityByAir};
ghost use Rattle.properties.specs.Quantities.{Bounded};
ghost use Rattle.meter.specs.State.{most_total, nothing_booked, SoundRegister, SoundTotals, SoundGas};
ghost use Rattle.meter.specs.Calls.{booked};
ghost use Rattle.lent_meter.specs.Words.{totals_in, six_in, gas_in};
ghost use Rattle.lent_meter.specs.Lent.{LentRow, EachLent};
ghost use Rattle.lent_meter.specs.Check.{Tells, RegisterUnit, between, within_ranges, at_most};

use super::words;
use super::words::Row;
use meter::Register;
use properties::quantities::{
    CalorificValue, CompressionFactor, Density, RelativeDensity, WobbeIndex,
};
use properties::steps;
use records::Pair;

// Two digits to this base make every volume total, and the unit of every register is a multiple of it.
const BASE: u64 = 1000000;

// Whether every word is 0.
fn all_zero(row: &[u64]) -> bool
    ensures { Tells result (row.now ≡ replicate (length row.now) 0) }
{
    row.iter().all(|word| *word == 0)
}

// The pair in a row, where it is permitted.
fn pair_in(row: &Row) -> Option<Pair>
    ensures permitted { is_some result ≡ permitted (gas_in row.now).pair.combustion (gas_in row.now).pair.metering }
    ensures pair { IfSome result (λ pair. pair ≡ (gas_in row.now).pair) }
{
    let combustion = u8::try_from(row[words::COMBUSTION]).ok()?;
    let metering = u8::try_from(row[words::METERING]).ok()?;
    let pair = Pair {
        combustion,
        metering,
    };
    if pair.is_permitted() {
        Some(pair)
    } else {
        None
    }
}

// Whether a value lies between two others, both included. A function of its own: written out, the six ranges below do not close.
fn between(floor: u64, value: u64, ceiling: u64) -> bool
    ensures { result ≡ between floor value ceiling }
{
    (floor..=ceiling).contains(&value)
}

// Whether each property in a row lies between its floor and its ceiling.
fn within_ranges(row: &Row) -> bool
    ensures { result ≡ within_ranges (six_in row.now) }
{
    between(
        CompressionFactor::FLOOR,
        row[words::Z],
        CompressionFactor::BOUND,
    ) & between(CalorificValue::FLOOR, row[words::HS], CalorificValue::BOUND)
        & between(CalorificValue::FLOOR, row[words::HI], CalorificValue::BOUND)
        & between(Density::FLOOR, row[words::RHO], Density::BOUND)
        & between(
            RelativeDensity::FLOOR,
            row[words::D],
            RelativeDensity::BOUND,
        )
        & between(WobbeIndex::FLOOR, row[words::W], WobbeIndex::BOUND)
}

// Whether the properties in a row lie in their ranges, with Hi not above Hs and the index of Hs and d.
fn holds_properties(row: &Row) -> bool
    ensures { Tells result (Proper (six_in row.now)) }
{
    if !within_ranges(row) {
        return false;
    }
    (row[words::HI] <= row[words::HS])
        & (row[words::W] == steps::index(row[words::HS], row[words::D]))
}

// Whether rho in a row is d times the density of air, from the metering temperature in °C: a `u8`, as in steps.rt of crates/properties.
fn holds_density(row: &Row, metering: u8) -> bool
    requires { Bounded (six_in row.now) }
    ensures { Tells result (DensityByAir metering (six_in row.now)) }
{
    let rho = row[words::RHO];
    let by_air = steps::by_air(metering, row[words::D]);
    (rho <= by_air + steps::AIR_DISTANCE) & (by_air <= rho + steps::AIR_DISTANCE)
}

// Whether the pair and the properties in a row are those of a gas.
fn holds_gas(row: &Row) -> bool
    ensures { Tells result (SoundGas (gas_in row.now)) }
{
    let Some(pair) = pair_in(row) else {
        return false;
    };
    if !holds_properties(row) {
        return false;
    }
    holds_density(row, pair.metering)
}

// How a register is booked: `unit` of its rest make one whole, and the values lie from the floor to the ceiling.
#[derive(Clone, Copy)]
struct Measure {
    unit: u64,
    floor: u64,
    ceiling: u64,
    ghost register_unit: { RegisterUnit unit },
    ghost values: { (floor < 2 ^ 32) × (ceiling < 2 ^ 32) },
}

const ENERGY: Measure = Measure {
    unit: meter::PER_MJ,
    floor: CalorificValue::FLOOR,
    ceiling: CalorificValue::BOUND,
};

const MASS: Measure = Measure {
    unit: meter::PER_KG,
    floor: Density::FLOOR,
    ceiling: Density::BOUND,
};

impl Measure {
    // Volume × value as a register.
    fn product(self, volume: u64, value: u64) -> Register
        requires { (volume ≤ most_total) × (value < 2 ^ 32) }
        ensures { result ≡ booked self.unit nothing_booked (volume * value) }
    {
        let share = self.unit / BASE;
        let high = volume / BASE * value;
        let before = Register {
            whole: high / share,
            rest: high % share * BASE,
        };
        before.booked(self.unit, volume % BASE, value)
    }

    // Whether a register is one of a volume.
    fn holds(self, register: Register, volume: u64) -> bool
        requires { volume ≤ most_total }
        ensures { Tells result (SoundRegister self.unit self.floor self.ceiling volume register) }
    {
        (register.rest < self.unit)
            & at_most(self.product(volume, self.floor), register)
            & at_most(register, self.product(volume, self.ceiling))
    }
}

// Whether a register holds no more than another, both with rests below one whole: the order of registers, said by a definition.
fn at_most(register: Register, most: Register) -> bool
    ensures { result ≡ at_most register most }
{
    register <= most
}

// Whether the totals in a row are those of a stream.
fn holds_totals(row: &Row) -> bool
    ensures { Tells result (SoundTotals (totals_in row.now)) }
{
    let totals = words::totals_in(row);
    if meter::MOST_TOTAL < totals.volume {
        return false;
    }
    ENERGY.holds(totals.superior, totals.volume)
        & ENERGY.holds(totals.inferior, totals.volume)
        & MASS.holds(totals.mass, totals.volume)
        & at_most(totals.inferior, totals.superior)
}

// Whether a row holds a stream: one without an analysis, or one with.
fn holds_stream(row: &Row) -> bool
    ensures { Tells result (LentRow row.now) }
{
    if all_zero(row) {
        return true;
    }
    (row[words::ANALYSED] == 1) & holds_gas(row) & holds_totals(row)
}

// Whether each row holds a stream.
pub fn each_holds(rows: &[Row]) -> bool
    ensures { Tells result (EachLent rows.now) }
{
    rows.iter().all(holds_stream)
}
