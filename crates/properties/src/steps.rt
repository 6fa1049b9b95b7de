// The steps of document 01 from sums to properties, in its order and letters, and from sums to the values per kilogram.
ghost use Rattle.std.specs.Prelude.{◌≡◌, ◌+◌, ◌*◌, ◌^◌, ◌≤◌, ◌<◌, nat_abs};
ghost use Rattle.rounding.specs.Near.{near};
ghost use Rattle.components.specs.Bounds.{heat_by_mass, summation_high};
ghost use Rattle.properties.specs.Bounds.{any_heat, any_mass, air_high, relative_low, by_air};
ghost use Rattle.properties.specs.Quantities.{calorific_bound, relative_bound};
ghost use Rattle.properties.specs.Chain.{for_metering, temperature, divisor, air_factor, tenth, compression, ideal_calorific, ideal_density, ideal_relative, root_of, wobbe};
ghost use Rattle.properties.specs.PerKilogram.{per_kilogram};

use super::quantities::{
    CalorificValue, CompressionFactor, MassCalorificValue, RelativeDensity, WobbeIndex,
};

// A number for 0, 15 or 20 °C metering; any other number counts as 20. A type of the three would ask more of the callers of this file.
pub fn for_metering(at_0: u64, at_15: u64, at_20: u64, metering: u8) -> u64
    ensures { result ≡ for_metering at_0 at_15 at_20 metering }
{
    match metering {
        0 => at_0,
        15 => at_15,
        _ => at_20,
    }
}

// The whole number nearest to n / D, from the metering temperature in °C. Each D has a division of its own: the compiler turns a division
// by a constant into a multiplication.
fn nearest_over_d(n: u64, metering: u8) -> u64
    ensures { result ≡ near n (divisor (temperature metering)) }
{
    match metering {
        0 => rounding::nearest(n, 831451 * 27315),
        15 => rounding::nearest(n, 831451 * 28815),
        _ => rounding::nearest(n, 831451 * 29315),
    }
}

// A, the compression factor of air, unit 10^-5, from the metering temperature in °C.
pub fn air_factor(metering: u8) -> u64
    ensures { result ≡ air_factor metering }
{
    for_metering(99941, 99958, 99963, metering)
}

fn square(x: i64) -> u64
    requires { nat_abs x < 2 ^ 31 }
    ensures { result ≡ nat_abs x * nat_abs x }
{
    (x * x) as u64
}

// 2. The compression factor.
pub fn compression_factor(s: i64) -> CompressionFactor
    requires { nat_abs s ≤ summation_high }
    ensures { result.value ≡ compression (tenth s) }
{
    let s9 = rounding::nearest_signed(s, 10);
    CompressionFactor::new(rounding::nearest(
        1000000000000000000 - square(s9),
        CompressionFactor::SCALE,
    ))
}

// 3. The ideal calorific value, J/m³.
pub fn ideal_calorific_value(hm: u64, metering: u8) -> u64
    requires { hm ≤ any_heat }
    ensures { result ≡ ideal_calorific hm (divisor (temperature metering)) }
{
    nearest_over_d(hm * 1013250, metering)
}

// 4. The ideal density, unit 10^-8 kg/m³: step 3 with another number. A function for both would name neither quantity.
pub fn ideal_density(m: u64, metering: u8) -> u64
    requires { m ≤ any_mass }
    ensures { result ≡ ideal_density m (divisor (temperature metering)) }
{
    nearest_over_d(m * 10132500, metering)
}

// 5. G, the ideal relative density, unit 10^-8; without the factor of air where `air` is 100,000.
pub fn ideal_relative_density(m: u64, air: u64) -> u64
    requires { (m ≤ any_mass) × (air ≤ air_high) }
    ensures { result ≡ ideal_relative m air }
{
    rounding::nearest(m * air, 289626000)
}

// The index of a calorific value and a relative density, as a number.
#[tactic(auto, using(crate::proofs::StepBounds::root_low_lem))]
pub fn index(hs: u64, d: u64) -> u64
    requires { (hs ≤ calorific_bound) × (relative_low ≤ d) × (d ≤ relative_bound) }
    ensures { result ≡ wobbe hs (root_of d) }
{
    let r = rounding::integer_root(d * 10000000000);
    rounding::nearest(hs * 1000000000, r)
}

// 6. The Wobbe index, of a calorific value that is at most twice the relative density, each in its unit, but for 1.
pub fn wobbe_index(hs: CalorificValue, d: RelativeDensity) -> WobbeIndex
    requires known { (hs.value ≤ calorific_bound) × (relative_low ≤ d.value) × (d.value ≤ relative_bound) }
    requires by_density { hs.value ≤ 2 * d.value + 1 }
    ensures { result.value ≡ wobbe hs.value (root_of d.value) }
{
    WobbeIndex::new(index(hs.value(), d.value()))
}

// A calorific value per kilogram, from Hm and M.
#[tactic(auto, using(crate::proofs::StepBounds::per_kilogram_high))]
pub fn per_kilogram(hm: u64, m: u64) -> MassCalorificValue
    requires { (hm ≤ any_heat) × (0 < m) × (hm ≤ heat_by_mass * m) }
    ensures { result.value ≡ per_kilogram hm m }
{
    MassCalorificValue::new(rounding::nearest(hm * 1000000, m))
}

// The most that rho differs from d times the density of air.
pub const AIR_DISTANCE: u64 = 5;

// d times the density of air, unit 10^-8 kg/m³, from the metering temperature in °C.
#[tactic(auto, using(crate::proofs::StepBounds::air_density_lem))]
pub fn by_air(metering: u8, d: u64) -> u64
    requires { d ≤ relative_bound }
    ensures { result ≡ by_air metering d }
{
    let air = for_metering(1292922827, 1225409709, 1204448732, metering);
    rounding::nearest(d * air, 1000000000)
}
