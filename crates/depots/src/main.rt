// The first program: reads a list of edition 1 on standard input, at most 3,077 bytes, makes a plan, and prints the listed depots with their groups, W and q.
#![tactic(auto)]

ghost use Rattle.figures.specs.Computed.{Computed};

use figures::Figures;
use std::io;

// Prints how many depots are listed, and the line of each.
fn print_lines(rt: &impl Print, x: Figures) -> io::Result<()>
    requires { Computed x }
{
    let all = tables::listed(x.list);
    println!(rt; "depots {}", sets::size(all))?;
    for d in 0..64u8 {
        if sets::contains(all, d) {
            println!(rt; "{}", lines::depot_line(x, d))?;
        }
    }
    Ok(())
}

// Prints what the program says of a list.
fn print(rt: &impl Print, input: &[u8]) -> io::Result<()> {
    match figures::read(records::edition1(), input) {
        Ok(figures) => print_lines(rt, figures),
        Err(row) => println!(rt; "refused {}", row.number()),
    }
}

fn main(rt: HostRuntime) -> io::Result<()> {
    let mut buf = [0u8; 3077];
    let n = input::read_full(&mut rt.stdin(), &mut buf)?;
    print(&rt, &buf[..n])
}
