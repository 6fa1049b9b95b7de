// The six properties of a gas from its analysis record, by document 01, and its calorific values per kilogram, by request W-202 of
// document 02. Every list of bytes gets its answer, or the one number that reading it gives.
#![tactic(auto)]

ghost use Rattle.std.specs.Prelude.{◌≡◌};
ghost use Rattle.records.specs.Format.{contents_in};
ghost use Rattle.properties.specs.Chain.{six_of, properties_of};
ghost use Rattle.properties.specs.PerKilogram.{mass_basis_of, per_kilogram_of};
ghost use Rattle.properties.specs.Accepted.{Summed, SixOfSums};
ghost use Rattle.properties.specs.Answers.{numbers, meaning, per_kilogram_numbers, per_kilogram_meaning};

pub mod quantities;
pub mod steps;
pub mod sums;

use components::Sums;
use quantities::{
    CalorificValue, CompressionFactor, Density, MassCalorificValue, RelativeDensity, WobbeIndex,
};
use records::{Record, Refusal};

// The six properties.
#[derive(Clone, Copy)]
pub struct Properties {
    pub z: CompressionFactor,
    pub hs: CalorificValue,
    pub hi: CalorificValue,
    pub rho: Density,
    pub d: RelativeDensity,
    pub w: WobbeIndex,
}

// The properties of a gas that no condition refuses, from its sums and its metering temperature in °C: a `u8`, as in steps.rt.
pub fn properties_from(sums: Sums, metering: u8) -> Properties
    requires { Summed sums.superior sums.inferior sums.mass sums.summation metering }
    ensures { SixOfSums sums.superior sums.inferior sums.mass sums.summation metering (numbers result) }
{
    let air = steps::air_factor(metering);
    let z = steps::compression_factor(sums.summation);
    let hs = CalorificValue::real(steps::ideal_calorific_value(sums.superior, metering), z);
    let hi = CalorificValue::real(steps::ideal_calorific_value(sums.inferior, metering), z);
    let rho = Density::real(steps::ideal_density(sums.mass, metering), z);
    let d = RelativeDensity::real(steps::ideal_relative_density(sums.mass, air), z);
    let w = steps::wobbe_index(hs, d);
    Properties {
        z,
        hs,
        hi,
        rho,
        d,
        w,
    }
}

// The properties of an accepted record.
#[tactic(auto, using(crate::proofs::Summing::summed))]
pub fn properties_in(accepted: &Record) -> Properties
    ensures { numbers result ≡ six_of (contents_in accepted.now.bytes.now) }
{
    properties_from(sums::sums_of(accepted), accepted.pair().metering)
}

// The properties of a record.
pub fn properties_of(bytes: &[u8]) -> Result<Properties, Refusal>
    ensures { meaning result ≡ properties_of bytes.now }
{
    Ok(properties_in(&Record::new(bytes)?))
}

// The calorific values per kilogram.
#[derive(Clone, Copy)]
pub struct PerKilogram {
    pub superior: MassCalorificValue,
    pub inferior: MassCalorificValue,
}

// The values per kilogram of an accepted record.
pub fn per_kilogram_in(accepted: &Record) -> PerKilogram
    ensures { per_kilogram_numbers result ≡ mass_basis_of (contents_in accepted.now.bytes.now) }
{
    let sums = sums::sums_of(accepted);
    PerKilogram {
        superior: steps::per_kilogram(sums.superior, sums.mass),
        inferior: steps::per_kilogram(sums.inferior, sums.mass),
    }
}

// The values per kilogram of a record.
pub fn per_kilogram_of(bytes: &[u8]) -> Result<PerKilogram, Refusal>
    ensures { per_kilogram_meaning result ≡ per_kilogram_of bytes.now }
{
    Ok(per_kilogram_in(&Record::new(bytes)?))
}
