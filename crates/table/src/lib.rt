// A table of sites that the caller lends: thin functions over it, and a copy of it by value.
// A lent table has its edition's widths by type: that of edition 1 has sites with two-byte litres, that of edition 2 sites as the definition has them.
#![tactic(auto)]

ghost use Rattle.std.specs.Prelude.{◌≡◌, map, ◌<◌, ◌≤◌, min, length, get_or, set};
ghost use Rattle.table.specs.Table.{between, held_of, places_on};
ghost use Rattle.table.specs.Widths.{no_site1, widened, LitresFit};

use density::Site;

pub mod values;

// A site of edition 1.
#[derive(Clone, Copy)]
pub struct Site1 {
    pub first: u8,
    pub second: u8,
    pub litres: u16,
}

// What stands at a blank place of a table of edition 1.
pub const NO_SITE1: Site1 = Site1 {
    first: 0,
    second: 0,
    litres: 0,
};

// What stands at a blank place of a table of edition 2.
pub const NO_SITE: Site = Site {
    first: 0,
    second: 0,
    litres: 0,
};

// The site at a place.
pub fn site_at<T: Copy>(table: &[T], i: usize) -> T
    requires { i < length table.now }
    ensures { (blank : T) → result ≡ get_or table.now i blank }
{
    table[i]
}

// A site goes to a place. The other places keep their content.
pub fn put_site<T: Copy>(table: &mut [T], i: usize, s: T)
    requires { i < length table.old }
    ensures { table.new ≡ set table.old i s }
{
    table[i] = s;
}

// How many sites a table of so many places can hold: at most 512.
pub fn capacity(places: usize) -> usize
    ensures { result ≡ min places 512 }
{
    places.min(512)
}

// How many places a table of so many has in an array of 600.
pub fn places_on(places: usize) -> usize
    ensures { result ≡ places_on places }
{
    places.min(600)
}

// Copy in: the table by value, as many places as can hold sites, and blank places after them.
pub fn held<T: Copy>(table: &[T], blank: T) -> [T; 512]
    ensures { result ≡ held_of blank table.now }
{
    let mut a = [blank; 512];
    for i in 0..capacity(table.len()) {
        a[i] = site_at(table, i);
    }
    a
}

// Copy out: the sites from one place up to another go to the table, one by one. Its other places keep their content.
pub fn store<T: Copy>(table: &mut [T], sites: [T; 512], from: usize, to: usize)
    requires { (from ≤ to) × (to ≤ 512) × (to ≤ length table.old) }
    ensures { table.new ≡ between from to sites table.old }
{
    for i in from..to {
        put_site(table, i, sites[i]);
    }
}

// A site of edition 1 as the definition has it.
impl From<Site1> for Site {
    ghost from_gives = { λ s r. r ≡ widened s };

    fn from(s: Site1) -> Site {
        Site {
            first: s.first,
            second: s.second,
            litres: s.litres as u32,
        }
    }
}

// The 512 places wide.
pub fn widen_all(sites: [Site1; 512]) -> [Site; 512]
    ensures { (result ≡ map widened sites) × LitresFit result }
{
    let mut a = [NO_SITE; 512];
    for (i, &s) in sites.iter().enumerate() {
        a[i] = Site::from(s);
    }
    a
}
