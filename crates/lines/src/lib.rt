// What is printed of a depot, of a group and of a site of the plan made.
#![tactic(auto)]

ghost use Rattle.std.specs.Prelude.{◌≡◌, ◌+◌, ◌*◌, ◌<◌, T};
ghost use Rattle.density.specs.Groups.{groups_of};
ghost use Rattle.density.specs.Plan.{Rules};
ghost use Rattle.tables.specs.Tables.{net, shares_in};
ghost use Rattle.figures.specs.Computed.{Computed};
ghost use Rattle.lines.specs.Lines.{depot_line, group_line, site_line};

use figures::Figures;
use std::fmt;

// What is printed of a depot: its number, its group from 1, W and q.
#[derive(Clone, Copy)]
pub struct DepotLine {
    pub depot: u8,
    pub group: u8,
    pub litres: u64,
    pub size: u64,
}

impl fmt::Display for DepotLine {
    fn fmt<W: fmt::Write>(&self, f: &mut fmt::Formatter<W>) -> fmt::Result {
        write!(
            f,
            "{} {} {} {}",
            self.depot, self.group, self.litres, self.size
        )
    }
}

// What is printed of a group: its set of depots, W and q.
#[derive(Clone, Copy)]
pub struct GroupLine {
    pub depots: u64,
    pub litres: u64,
    pub size: u64,
}

// What a depot brings to a site, in q-ths of a litre.
#[derive(Clone, Copy)]
pub struct Part {
    pub depot: u8,
    pub share: u64,
}

// What is printed of a site: what its depots bring, q of the group that carries it, and its litres.
#[derive(Clone, Copy)]
pub struct SiteLine {
    pub first: Part,
    pub second: Part,
    pub size: u64,
    pub litres: u64,
}

// A number of q-ths as a mixed fraction: whole units, and a rest of fewer than q.
#[derive(Clone, Copy)]
pub struct Fraction {
    pub whole: u64,
    pub rest: u64,
    pub q: u64,
}

// Written as `4 1/2`, `1/2`, `4` or `0`.
impl fmt::Display for Fraction {
    fn fmt<W: fmt::Write>(&self, f: &mut fmt::Formatter<W>) -> fmt::Result {
        if self.rest == 0 {
            return write!(f, "{}", self.whole);
        }
        if self.whole > 0 {
            write!(f, "{} ", self.whole)?;
        }
        write!(f, "{}/{}", self.rest, self.q)
    }
}

// The line of a listed depot.
pub fn depot_line(x: Figures, d: u8) -> DepotLine
    requires { T ((net x.list).listed d) × Computed x }
    ensures { result ≡ depot_line (net x.list) d }
{
    let k = x.places[d as usize];
    DepotLine {
        depot: d,
        group: k + 1,
        litres: x.litres[k as usize],
        size: x.sizes[k as usize],
    }
}

// The line of a group of the plan made.
pub fn group_line(x: Figures, k: usize) -> GroupLine
    requires { (k < x.plan.count) × Computed x }
    ensures { (result ≡ group_line (net x.list) (groups_of (net x.list)) k) × (0 < result.size) }
{
    GroupLine {
        depots: x.plan.groups[k],
        litres: x.litres[k],
        size: x.sizes[k],
    }
}

// The line of a site of the plan made: its shares keep the rules.
pub fn site_line(x: Figures, i: usize) -> SiteLine
    requires { (i < x.list.count) × Computed x }
    ensures value { result ≡ site_line (net x.list) (groups_of (net x.list)) (shares_in x.list x.plan) i }
    ensures rules { Rules (net x.list) (groups_of (net x.list)) (shares_in x.list x.plan) i × (0 < result.size) }
{
    let list = x.list;
    let plan = x.plan;
    let s = list.sites[i];
    let k = tables::later(x.places[s.first as usize], x.places[s.second as usize]);
    let size = x.sizes[k as usize];
    let litres = tables::litres_of(s);
    let share = plan.shares[i];
    let first = Part {
        depot: s.first,
        share,
    };
    let second = Part {
        depot: s.second,
        share: litres * size - share,
    };
    SiteLine {
        first,
        second,
        size,
        litres,
    }
}

// x q-ths as a mixed fraction.
pub fn mixed(x: u64, q: u64) -> Fraction
    requires { 0 < q }
    ensures { (x ≡ result.whole * q + result.rest) × (result.rest < q) × (result.q ≡ q) }
{
    let whole = x / q;
    let rest = x % q;
    Fraction { whole, rest, q }
}
