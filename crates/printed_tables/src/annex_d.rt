// Annex D: table D.1, and the text from D.1 to D.4.3.
ghost use Rattle.std.specs.Prelude.{◌≡◌, ◌<◌, slice_index, map, refl};
ghost use Rattle.properties.specs.Answers.{numbers};
ghost use Rattle.printed_tables.specs.Gas.{gas_totals};
ghost use Rattle.printed_tables.specs.Text.{text_values, text_steps, text_figure};
ghost use Rattle.printed_tables.specs.Parts.{text_figures};
ghost use Rattle.printed_tables.specs.declared.text.TheConstants.{FIGURES};

use super::gas::TableD1;
use super::parts::{Counts, Part, count};
use super::places::{Place, print_differences};
use super::{gas, text};
use properties::quantities::{CalorificValue, RelativeDensity};
use properties::{Properties, steps};
use records::{Pair, Refusal};
use std::io;

// The values of the figures of the text, six to a row, as in specs/Text: one list of thirty is no plainer.
pub type Values = [[u64; 6]; 5];

// The values whose figures are printed, from the sums and the properties of the gas: h_m is the calorific value per kilogram, unit
// 10 J/kg, and the ideal relative density has 1 for the compression factor of air.
#[tactic(auto, using(crate::proofs::GasLaws::h_value, crate::proofs::GasLaws::m_value, crate::proofs::GasLaws::ideal_h_lem, crate::proofs::GasLaws::ideal_d_lem), unfolding(crate::specs::Text::ideal_hm, crate::specs::Text::ideal_h, crate::specs::Text::ideal_d, crate::specs::Text::ideal_rho, crate::specs::Text::ideal_w, properties::specs::Chain::D, properties::specs::Chain::T))]
fn values(totals: gas::Totals, p: Properties) -> Values
    requires { totals ≡ gas_totals }
    ensures { result ≡ text_values (numbers p) }
{
    let h_m = steps::per_kilogram(totals.h, totals.m).value();
    let h_0 = steps::ideal_calorific_value(totals.h, 15);
    let d_0 = steps::ideal_relative_density(totals.m, 100000);
    let rho_0 = steps::ideal_density(totals.m, 15);
    let w_0 = steps::wobbe_index(CalorificValue::new(h_0), RelativeDensity::new(d_0)).value();
    let z = p.z.value();
    let h = p.hs.value();
    let d = p.d.value();
    let rho = p.rho.value();
    let w = p.w.value();
    [
        [totals.x, totals.m, totals.h, totals.s, totals.h, h_m],
        [h_m, totals.mass, h_0, h_0, totals.volume, totals.s],
        [z, z, h, h, d_0, d_0],
        [d, d, rho_0, rho_0, rho, rho],
        [w_0, w_0, w, w, w, 0],
    ]
}

// The k-th figure, by its place as `Part` counts it.
fn figure_of(k: usize) -> text::Figure
    requires { k < text_figures }
    ensures digits { result.digits ≡ slice_index (map (λ figure. figure.digits) FIGURES) k }
    ensures scale { 0 < result.scale }
    ensures step_above { 0 < result.step }
    ensures step { result.step ≡ slice_index text_steps k }
{
    text::FIGURES[k]
}

// The text after the rows of table D.1, with the values of its figures.
#[derive(Drop)]
struct Text {
    values: Values,
}

impl Part for Text {
    const NAME: &'static str = "annex D";

    ghost figures = { text_figures };

    ghost printed = { map (λ figure. figure.digits) FIGURES };

    ghost calculated = { λ text. text_figure text.values };

    fn len(&self) -> usize {
        text::FIGURES.len()
    }

    fn printed(&self, k: usize) -> u64 {
        u64::from(figure_of(k).digits)
    }

    fn calculated(&self, k: usize) -> u64 {
        rounding::nearest(self.values[k / 6][k % 6], figure_of(k).step)
    }

    fn scale(&self, k: usize) -> u64 {
        figure_of(k).scale
    }

    fn place(&self, k: usize) -> Place {
        Place::Text {
            name: text::NAMES[k],
        }
    }

    ghost whole = { refl };
}

// All figures, with the properties of the gas's record.
fn print_figures(rt: &impl Print, p: Properties) -> io::Result<()> {
    let text = Text {
        values: values(gas::gas_totals(), p),
    };
    print_differences(rt, &TableD1)?;
    print_differences(rt, &text)?;
    let rows = count(Counts::new(), &TableD1);
    println!(rt; "annex D: {}", count(rows, &text))
}

// The properties of the gas at 15/15, from its record.
fn properties() -> Result<Properties, Refusal> {
    let pair = Pair {
        combustion: 15,
        metering: 15,
    };
    // An array takes no computed length: 48 is `record_length(8)`.
    let mut record = [0u8; 48];
    records::write(pair, &gas::LINES, &gas::FRACTIONS, &mut record)?;
    properties::properties_of(&record)
}

pub fn print_comparison(rt: &impl Print) -> io::Result<()> {
    match properties() {
        Ok(p) => print_figures(rt, p)?,
        Err(_) => println!(rt; "annex D: the record is refused")?,
    }
    println!(rt; "not compared: the fractions x of table D.1, the input")?;
    println!(rt; "not compared: the constants p2, T2, R, molar mass of air, Z of air")?;
    println!(rt; "not compared: figures that a later formula of annex D repeats")?;
    println!(rt; "not compared: D.5 and table D.2, estimates of precision")
}
