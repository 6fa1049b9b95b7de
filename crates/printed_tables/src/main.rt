// Compares the figures that source document 002 prints in table 5, table 4 and annex D with those of the library's functions. Prints each
// figure that is not equal, with its place, how many are equal, one off in the last printed digit and neither, and what is printed in the
// source and not compared.
#![tactic(auto)]

mod annex_d;
mod gas;
mod parts;
mod places;
mod table_4;
mod table_5;
mod table_d1;
mod tables;
mod text;

use std::io;

fn print_comparisons(rt: &impl Print) -> io::Result<()> {
    tables::print_comparison(rt, &tables::Table5)?;
    tables::print_comparison(rt, &tables::Table4)?;
    annex_d::print_comparison(rt)
}

// It ends alike where a write fails.
fn main(rt: HostRuntime) {
    let _ = print_comparisons(&rt);
}
