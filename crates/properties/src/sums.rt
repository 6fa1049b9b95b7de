// 1. The sums of a record over the component table.
ghost use Rattle.std.specs.Prelude.{◌≡◌};
ghost use Rattle.components.specs.Temperatures.{heat_place, summation_place};
ghost use Rattle.records.specs.Format.{contents_in};
ghost use Rattle.properties.specs.Chain.{combustion_place, metering_place, HmSuperior, HmInferior, M, S};

use components::{Combustion, Metering, Sums};
use records::{Entries, Record};

// The combustion temperature of the table, from its °C.
fn combustion_of(celsius: u8) -> Combustion
    ensures { heat_place result ≡ combustion_place celsius }
{
    match celsius {
        25 => Combustion::At25,
        20 => Combustion::At20,
        15 => Combustion::At15,
        _ => Combustion::At0,
    }
}

// The metering temperature of the table, from its °C.
fn metering_of(celsius: u8) -> Metering
    ensures { summation_place result ≡ metering_place celsius }
{
    match celsius {
        0 => Metering::At0,
        15 => Metering::At15,
        _ => Metering::At20,
    }
}

// The sums of an accepted record, in one pass over its entries. It stays a call, so that a record that is refused costs nothing for it.
#[inline(never)]
pub fn sums_of(accepted: &Record) -> Sums
    ensures superior { result.superior ≡ HmSuperior (contents_in accepted.now.bytes.now) }
    ensures inferior { result.inferior ≡ HmInferior (contents_in accepted.now.bytes.now) }
    ensures mass { result.mass ≡ M (contents_in accepted.now.bytes.now) }
    ensures summation { result.summation ≡ S (contents_in accepted.now.bytes.now) }
{
    let pair = accepted.pair();
    let combustion = combustion_of(pair.combustion);
    let metering = metering_of(pair.metering);
    let entries = accepted.entries();
    let mut sums = Sums::default();
    for i in 0..entries.len() {
        sums.add(entries.line(i), entries.fraction(i), combustion, metering);
    }
    sums
}
