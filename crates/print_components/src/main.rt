// Prints the component table, a line of the table a line: the line's number, then its twelve columns in the order and the
// units of crates/components/src/table.rt.
#![tactic(auto)]

ghost use Rattle.std.specs.Prelude.{◌≤◌};

use std::io;

// A line and its columns are numbers, as `entry` takes them, since they are counted through.
fn print_line(rt: &impl Print, line: u8) -> io::Result<()>
    requires { (1 ≤ line) × (line ≤ 55) }
{
    print!(rt; "{line}")?;
    for column in 0..12 {
        print!(rt; " {}", components::entry(line, column))?;
    }
    println!(rt)
}

fn print_lines(rt: &impl Print) -> io::Result<()> {
    for line in 1..=55 {
        print_line(rt, line)?;
    }
    Ok(())
}

// It ends alike where a write fails.
fn main(rt: HostRuntime) {
    let _ = print_lines(&rt);
}
