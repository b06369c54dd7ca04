// Reads a list of either edition on standard input, at most 4,167 bytes, makes a plan, and prints it for a person to read: its groups, and what each depot brings to each site.
// Of a list that is refused it prints the row and what it means.
#![tactic(auto)]

ghost use Rattle.std.specs.Prelude.{◌<◌};
ghost use Rattle.figures.specs.Computed.{Computed};

use figures::Figures;
use lines::{Fraction, GroupLine, Part, SiteLine};
use records::Refusal;
use std::{fmt, io};

// So many of a thing, with its name for one and for any other number.
#[derive(Clone, Copy)]
struct Counted {
    number: u64,
    one: &'static str,
    many: &'static str,
}

impl fmt::Display for Counted {
    fn fmt<W: fmt::Write>(&self, f: &mut fmt::Formatter<W>) -> fmt::Result {
        let name = if self.number == 1 {
            self.one
        } else {
            self.many
        };
        write!(f, "{} {name}", self.number)
    }
}

fn litres(number: u64) -> Counted {
    Counted {
        number,
        one: "litre",
        many: "litres",
    }
}

// The depots of a group, and the verb.
#[derive(Clone, Copy)]
struct Carriers(u64);

impl fmt::Display for Carriers {
    fn fmt<W: fmt::Write>(&self, f: &mut fmt::Formatter<W>) -> fmt::Result {
        let one = sets::size(self.0) == 1;
        f.write_str(if one { "depot" } else { "depots" })?;
        for d in 0..64u8 {
            if sets::contains(self.0, d) {
                write!(f, " {d}")?;
            }
        }
        f.write_str(if one { " carries" } else { " carry" })
    }
}

// What a depot brings to a site.
#[derive(Clone, Copy)]
struct Brought {
    depot: u8,
    share: Fraction,
}

impl Brought {
    // What a part is, in q-ths of a litre.
    fn of(x: Part, q: u64) -> Brought
        requires { 0 < q }
    {
        Brought {
            depot: x.depot,
            share: lines::mixed(x.share, q),
        }
    }
}

impl fmt::Display for Brought {
    fn fmt<W: fmt::Write>(&self, f: &mut fmt::Formatter<W>) -> fmt::Result {
        write!(f, "depot {} brings {}", self.depot, self.share)
    }
}

// Prints a group, with what each depot of one of several carries or, of a list with a roll, each crew.
fn print_group(rt: &impl Print, number: usize, x: GroupLine, rolled: bool) -> io::Result<()>
    requires { 0 < x.size }
{
    print!(rt;
        "group {number}: {} {}",
        Carriers(x.depots),
        litres(x.litres)
    )?;
    if x.size != 1 {
        let of = if rolled { "per crew" } else { "each" };
        print!(rt; ", {} {of}", lines::mixed(x.litres, x.size))?;
    }
    println!(rt; "")
}

// Prints a site, with what its depots bring: an own site has no second.
fn print_site(rt: &impl Print, i: usize, x: SiteLine) -> io::Result<()>
    requires { 0 < x.size }
{
    print!(rt; "site {i}: {}", Brought::of(x.first, x.size))?;
    if x.first.depot != x.second.depot {
        print!(rt; ", {}", Brought::of(x.second, x.size))?;
    }
    println!(rt; " of {}", litres(x.litres))
}

// Prints how many sites, listed depots and groups there are.
fn print_counts(rt: &impl Print, sites: u64, depots: u64, groups: u64) -> io::Result<()> {
    let sites = Counted {
        number: sites,
        one: "site",
        many: "sites",
    };
    let depots = Counted {
        number: depots,
        one: "depot",
        many: "depots",
    };
    let groups = Counted {
        number: groups,
        one: "group",
        many: "groups",
    };
    println!(rt; "{sites}, {depots}, {groups}")
}

// Prints a list with the plan that was made for it.
fn print_plan(rt: &impl Print, x: Figures) -> io::Result<()>
    requires { Computed x }
{
    let depots = sets::size(tables::listed(x.list));
    print_counts(rt, x.list.count as u64, depots, x.plan.count as u64)?;
    for k in 0..x.plan.count {
        print_group(rt, k + 1, lines::group_line(x, k), x.list.roll.there)?;
    }
    for i in 0..x.list.count {
        print_site(rt, i, lines::site_line(x, i))?;
    }
    Ok(())
}

// What a row that refuses a list means. The other rows refuse plans and calls.
fn meaning(row: Refusal) -> &'static str {
    match row {
        Refusal::ListHead => {
            "the list has under 4 bytes or begins neither with 4C 53 nor with 4C 32"
        }
        Refusal::TooManySites => "the list has more than 512 sites",
        Refusal::ListLength => {
            "the list's length is not 4 + 6 x sites or, if it begins with 4C 32, 4 + 8 x sites or 66 more with a roll"
        }
        Refusal::SiteMark => {
            "a site does not begin with 53 54 or, if the list begins with 4C 32, with 53 32; or its roll does not begin with 44 52"
        }
        Refusal::DepotAbove63 => "a site names a depot above 63",
        Refusal::NoLitres => "a site has 0 litres",
        Refusal::CrewsAbove9 => "a depot has more than 9 crews in the roll",
        Refusal::SiteUncrewed => "a site names a depot that has no crew in the roll",
        _ => "",
    }
}

// Prints what the program says of a list.
fn show(rt: &impl Print, input: &[u8]) -> io::Result<()> {
    match figures::read(readers::edition::edition_of(input), input) {
        Ok(figures) => print_plan(rt, figures),
        Err(row) => println!(rt; "refused {}: {}", row.number(), meaning(row)),
    }
}

fn main(rt: HostRuntime) -> io::Result<()> {
    let mut buf = [0u8; 4167];
    let n = input::read_full(&mut rt.stdin(), &mut buf)?;
    show(&rt, &buf[..n])
}
