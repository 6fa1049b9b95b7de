// The properties and the calorific value per kilogram as quantities. SCALE is how many of the quantity's unit make 1 of the standard's,
// BOUND the ceiling that no value passes, FLOOR what no property of an accepted record is below. Every ceiling is below 2^32, so a value
// is kept in 32 bits.
ghost use Rattle.std.specs.Prelude.{◌≡◌, ◌*◌, ◌^◌, ◌≤◌, ◌<◌, zip};
ghost use Rattle.properties.specs.Quantities.{scales, bounds};
ghost use Rattle.properties.specs.Chain.{real};

// A quantity of one kind, known by its ceiling.
#[derive(Clone, Copy)]
pub struct Quantity<const BOUND: u32> {
    value: u32,
}

// No TryFrom or From: a caller has proved the bound, so no error could come of it, and `value` says what it gives.
impl<const BOUND: u32> Quantity<BOUND> {
    pub fn new(value: u64) -> Self
        requires { value ≤ BOUND }
        ensures { result.value ≡ value }
    {
        let value = value as u32;
        Self { value }
    }

    pub fn value(self) -> u64
        ensures { result ≡ self.entry.value }
    {
        self.value as u64
    }

    // The real value of a quantity from its ideal one.
    pub fn real(ideal: u64, z: CompressionFactor) -> Self
        requires { (0 < z.value) × (ideal * 10 ^ 9 ≤ BOUND * z.value) }
        ensures { result.value ≡ real ideal z.value }
    {
        Self::new(rounding::nearest(ideal * CompressionFactor::SCALE, z.value()))
    }
}

// A compression factor, unit 10^-9.
pub type CompressionFactor = Quantity<COMPRESSION_BOUND>;

const COMPRESSION_BOUND: u32 = 1000000000;

impl CompressionFactor {
    pub const SCALE: u64 = 1000000000;

    pub const BOUND: u64 = COMPRESSION_BOUND as u64;

    pub const FLOOR: u64 = 724000000;
}

// A calorific value, unit J/m³. SCALE of them make 1 MJ/m³.
pub type CalorificValue = Quantity<CALORIFIC_BOUND>;

const CALORIFIC_BOUND: u32 = 250000000;

impl CalorificValue {
    pub const SCALE: u64 = 1000000;

    pub const BOUND: u64 = CALORIFIC_BOUND as u64;

    pub const FLOOR: u64 = 9030000;
}

// A density, unit 10^-8 kg/m³. SCALE of them make 1 kg/m³.
pub type Density = Quantity<DENSITY_BOUND>;

const DENSITY_BOUND: u32 = 510000000;

impl Density {
    pub const SCALE: u64 = 100000000;

    pub const BOUND: u64 = DENSITY_BOUND as u64;

    pub const FLOOR: u64 = 7540000;
}

// A relative density, unit 10^-8.
pub type RelativeDensity = Quantity<RELATIVE_BOUND>;

const RELATIVE_BOUND: u32 = 390000000;

impl RelativeDensity {
    pub const SCALE: u64 = 100000000;

    pub const BOUND: u64 = RELATIVE_BOUND as u64;

    pub const FLOOR: u64 = 6250000;
}

// A Wobbe index, unit J/m³. SCALE of them make 1 MJ/m³.
pub type WobbeIndex = Quantity<WOBBE_BOUND>;

const WOBBE_BOUND: u32 = 470000000;

impl WobbeIndex {
    pub const SCALE: u64 = 1000000;

    pub const BOUND: u64 = WOBBE_BOUND as u64;

    pub const FLOOR: u64 = 3880000;
}

// A calorific value per kilogram, unit 10 J/kg. SCALE of them make 1 MJ/kg.
pub type MassCalorificValue = Quantity<MASS_CALORIFIC_BOUND>;

const MASS_CALORIFIC_BOUND: u32 = 15000000;

impl MassCalorificValue {
    pub const SCALE: u64 = 100000;

    pub const BOUND: u64 = MASS_CALORIFIC_BOUND as u64;
}

// The scales and the ceilings of Z, Hs, Hi, rho, d, W and a value per kilogram.
pub fn scales_and_bounds() -> [(u64, u64); 7]
    ensures { result ≡ zip scales bounds }
{
    [
        (CompressionFactor::SCALE, CompressionFactor::BOUND),
        (CalorificValue::SCALE, CalorificValue::BOUND),
        (CalorificValue::SCALE, CalorificValue::BOUND),
        (Density::SCALE, Density::BOUND),
        (RelativeDensity::SCALE, RelativeDensity::BOUND),
        (WobbeIndex::SCALE, WobbeIndex::BOUND),
        (MassCalorificValue::SCALE, MassCalorificValue::BOUND),
    ]
}
