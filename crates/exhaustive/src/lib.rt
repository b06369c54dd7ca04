// Groups and plans by a plain count over all sets of depots, from document 01, "Depots, sites, groups", and document 02, g and h. It shares nothing with the engine but the
// types of a list and of a plan. For lists of at most 16 sites whose listed depots are below 12; `is_small` says whether a list is one. No sum and no product of theirs wraps.
#![tactic(auto)]

use density::Site;
use records::{ListArray, PlanArray};

// A site: the sets of its first and of its second depot, and its litres; all three are 0 beyond the last site.
#[derive(Clone, Copy)]
struct Entry {
    first: u64,
    second: u64,
    litres: u64,
}

// The set of one depot. Depots from 12 on are all put at 12, which makes the list too large.
fn single(depot: u8) -> u64 {
    if depot < 12 { 1 << depot } else { 4096 }
}

impl From<Site> for Entry {
    fn from(site: Site) -> Entry {
        Entry {
            first: single(site.first),
            second: single(site.second),
            litres: site.litres as u64,
        }
    }
}

const NO_SITE: Entry = Entry {
    first: 0,
    second: 0,
    litres: 0,
};

impl Entry {
    // The set of the site's depots.
    fn depots(&self) -> u64 {
        self.first | self.second
    }

    // The litres of the site in a set's: "sites that touch the set and whose depots all lie in the set or among the grouped ones"
    fn counted(&self, set: u64, grouped: u64) -> u64 {
        let both = self.depots();
        if both & set != 0 && both & !(set | grouped) == 0 {
            return self.litres;
        }
        0
    }
}

// A set of depots with its litres and its crews.
#[derive(Clone, Copy)]
struct Group {
    set: u64,
    litres: u64,
    crews: u64,
}

impl Group {
    // Has it more litres per crew than another, or as many and more crews?
    fn exceeds(&self, other: &Group) -> bool {
        let a = self.litres.wrapping_mul(other.crews);
        let b = other.litres.wrapping_mul(self.crews);
        b < a || a == b && other.crews < self.crews
    }
}

// A small list: its sites, the crews of depots 0 to 11, and the set of the listed depots.
#[derive(Clone, Copy)]
struct Small {
    sites: [Entry; 16],
    crews: [u64; 12],
    listed: u64,
}

// The depots with crews in the roll; without a roll none.
fn crewed(list: &ListArray) -> u64 {
    let mut set: u64 = 0;
    if list.roll.there {
        for d in 0..64u8 {
            if list.roll.crews[d as usize] != 0 {
                set |= single(d);
            }
        }
    }
    set
}

// The crews of depots 0 to 11. "Without a roll a listed depot has one crew."
fn crews(list: &ListArray) -> [u64; 12] {
    let mut out = [1u64; 12];
    if list.roll.there {
        for (place, crews) in out.iter_mut().zip(list.roll.crews.iter()) {
            *place = *crews as u64;
        }
    }
    out
}

impl Small {
    // The list, if it has at most 16 sites and its listed depots are below 12. "A depot is listed if some site names it", and by h) "A depot with crews in the roll is listed
    // even without sites."
    fn of(list: &ListArray) -> Option<Small> {
        if 16 < list.count {
            return None;
        }
        let mut sites = [NO_SITE; 16];
        let mut listed = crewed(list);
        for (entry, site) in sites.iter_mut().zip(list.sites[..list.count].iter()) {
            *entry = Entry::from(*site);
            listed |= entry.depots();
        }
        if 4096 <= listed {
            return None;
        }
        let crews = crews(list);
        Some(Small {
            sites,
            crews,
            listed,
        })
    }

    // "The size of a set becomes its crews added up": one by one, depot for depot.
    fn size(&self, set: u64) -> u64 {
        let mut n: u64 = 0;
        for (d, crews) in self.crews.iter().enumerate() {
            if set & (1 << d) != 0 {
                n = n.wrapping_add(*crews);
            }
        }
        n
    }

    // "The litres of a set, given the depots already grouped". "A site counts once."
    fn litres_of(&self, set: u64, grouped: u64) -> u64 {
        let mut w: u64 = 0;
        for site in self.sites.iter() {
            w = w.wrapping_add(site.counted(set, grouped));
        }
        w
    }

    // "The next group is, among the non-empty sets of listed depots not yet grouped, the one with the most litres per depot", by g) per crew. "Of several such sets it is the
    // largest." Those sets are the numbers from 1 to the set `free` of such depots that have no depot outside it. It starts from no litres for no crews,
    // which any of them exceeds or equals with more crews.
    fn next_group(&self, free: u64, grouped: u64) -> u64 {
        let mut best = Group {
            set: 0,
            litres: 0,
            crews: 0,
        };
        for set in 1..=free {
            if set & !free == 0 {
                let group = Group {
                    set,
                    litres: self.litres_of(set, grouped),
                    crews: self.size(set),
                };
                if group.exceeds(&best) {
                    best = group;
                }
            }
        }
        best.set
    }

    // "Groups follow until every listed depot is in one."
    fn groups(&self) -> Found {
        let mut found = Found {
            count: 0,
            sets: [0; 16],
        };
        let mut free = self.listed;
        let mut grouped: u64 = 0;
        for (k, place) in found.sets.iter_mut().enumerate() {
            if free == 0 {
                break;
            }
            let set = self.next_group(free, grouped);
            *place = set;
            found.count = k + 1;
            grouped |= set;
            free &= !set;
        }
        found
    }

    // "A site of w litres is w × q", q being the size of the group that carries it.
    fn part(&self, groups: &Found, site: Entry, share: u64) -> Part {
        let carrier = groups.carrier(&site);
        let whole = match carrier {
            Some(k) => site.litres.wrapping_mul(self.size(groups.set(k))),
            None => 0,
        };
        Part {
            site,
            carrier,
            whole,
            share,
        }
    }

    // The parts of the sites by a plan's shares, and 0 beyond the last.
    fn parts(&self, groups: &Found, plan: &PlanArray, count: usize) -> [Part; 16] {
        let mut out = [NO_PART; 16];
        for (i, place) in out.iter_mut().enumerate() {
            if i < count {
                *place = self.part(groups, self.sites[i], plan.shares[i]);
            }
        }
        out
    }

    // "A plan is level if for each depot the shares it has from sites carried by its own group add up to W", and by g) to
    // "its crews times W". A depot in no group is not listed.
    fn is_level(&self, groups: &Found, parts: &[Part; 16]) -> bool {
        for (d, crews) in self.crews.iter().enumerate() {
            let depot = 1 << d;
            if let Some(k) = groups.place(depot) {
                if load(parts, k, depot) != carried(parts, k).wrapping_mul(*crews) {
                    return false;
                }
            }
        }
        true
    }
}

// Groups in order, 0 beyond the last.
#[derive(Clone, Copy)]
struct Found {
    count: usize,
    sets: [u64; 16],
}

impl Found {
    // The group at a place, empty where there is none.
    fn set(&self, k: usize) -> u64 {
        self.sets.get(k).copied().unwrap_or(0)
    }

    // The place of the group that has the depot, if one has. A depot is given by its set.
    fn place(&self, depot: u64) -> Option<usize> {
        self.sets.iter().position(|set| *set & depot != 0)
    }

    // "A site is carried by the later of its depots' groups."
    fn carrier(&self, site: &Entry) -> Option<usize> {
        let first = self.place(site.first)?;
        let second = self.place(site.second)?;
        Some(first.max(second))
    }

    // "A depot in an earlier group than the carrying one has 0."
    fn allows(&self, depot: u64, carrier: Option<usize>, has: u64) -> bool {
        has == 0 || self.place(depot) == carrier
    }

    // "the first depot has s of it, the second the rest. An own site has s = w × q." Its depot's group carries it.
    fn keeps(&self, x: &Part) -> bool {
        if x.whole < x.share {
            return false;
        }
        let rest = x.whole - x.share;
        if x.site.first == x.site.second {
            return rest == 0;
        }
        self.allows(x.site.first, x.carrier, x.share) && self.allows(x.site.second, x.carrier, rest)
    }

    // Are they the plan's?
    fn are_of(&self, plan: &PlanArray) -> bool {
        self.count == plan.count
            && self
                .sets
                .iter()
                .zip(plan.groups.iter())
                .take(self.count)
                .all(|(set, group)| *set == *group)
    }
}

// A site in a plan: the place of the group that carries it, if one does, what the site is in its q-ths of a litre, and the first depot's share of that.
#[derive(Clone, Copy)]
struct Part {
    site: Entry,
    carrier: Option<usize>,
    whole: u64,
    share: u64,
}

const NO_PART: Part = Part {
    site: NO_SITE,
    carrier: None,
    whole: 0,
    share: 0,
};

impl Part {
    // What a depot has of the site if group k carries it; of another site 0.
    fn share_of(&self, k: usize, depot: u64) -> u64 {
        let mut has: u64 = 0;
        if self.carrier == Some(k) {
            if self.site.first == depot {
                has = self.share;
            }
            if self.site.second == depot {
                has = has.wrapping_add(self.whole.wrapping_sub(self.share));
            }
        }
        has
    }
}

// "the shares it has from sites carried by its own group", that is group k, added up
fn load(parts: &[Part; 16], k: usize, depot: u64) -> u64 {
    let mut all: u64 = 0;
    for x in parts.iter() {
        all = all.wrapping_add(x.share_of(k, depot));
    }
    all
}

// "W the litres of all sites it carries", of group k.
fn carried(parts: &[Part; 16], k: usize) -> u64 {
    let mut w: u64 = 0;
    for x in parts.iter().filter(|x| x.carrier == Some(k)) {
        w = w.wrapping_add(x.site.litres);
    }
    w
}

// Has the list at most 16 sites, and are its listed depots below 12? Where not, the other functions count nothing.
pub fn is_small(list: &ListArray) -> bool {
    Small::of(list).is_some()
}

// The groups of a small list, with all shares 0. For other lists no groups.
pub fn groups(list: &ListArray) -> PlanArray {
    let mut plan = PlanArray {
        count: 0,
        groups: [0; 64],
        shares: [0; 512],
    };
    if let Some(small) = Small::of(list) {
        let found = small.groups();
        plan.count = found.count;
        plan.groups[..16].copy_from_slice(&found.sets);
    }
    plan
}

// Are the plan's groups those of a small list, and its other places 0?
pub fn has_groups(list: &ListArray, plan: &PlanArray) -> bool {
    let found = groups(list);
    found.count == plan.count && found.groups == plan.groups
}

// Is the plan true of the list? For a list that is not small, no.
pub fn is_true(list: &ListArray, plan: &PlanArray) -> bool {
    match Small::of(list) {
        Some(small) => {
            let groups = small.groups();
            if !groups.are_of(plan) {
                return false;
            }
            let parts = small.parts(&groups, plan, list.count);
            parts.iter().all(|x| groups.keeps(x)) && small.is_level(&groups, &parts)
        }
        None => false,
    }
}
