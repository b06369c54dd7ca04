// The step of a store of edition 1 to edition 2 over lent tables of site structs (document 02, e: "A busy desk goes over").
#![tactic(auto)]

ghost use Rattle.std.specs.Prelude.{◌≡◌, true, List, ◌≤◌, length, replicate};
ghost use Rattle.density.specs.declared.Site.{Site};
ghost use Rattle.records.specs.declared.Edition.{Edition};
ghost use Rattle.table.specs.Table.{overlay};
ghost use Rattle.held_state.specs.Held.{on};
ghost use Rattle.store.specs.State.{carried};
ghost use Rattle.edition1.specs.Edition1.{view1};
ghost use Rattle.store_migrate.specs.Migrate.{MovedOver, Decided};

use density::Site;
use edition1::Store1;
use held_state::Store;
use records::{Refusal, no_roll};
use serve::row_zero;
use store::decide::refuse;
use store::{Answer, Decision};
use store_calls::migrate_row;
use store_entries2::Out2;
use table::{NO_SITE1, Site1, widen_all};

// The first n numbers of an array, and zeros.
fn first<const N: usize>(xs: [u64; N], n: usize) -> [u64; N]
    requires { n ≤ N }
    ensures { (result ≡ overlay n xs.entry (replicate N 0)) × (length xs.entry ≡ N) }
{
    let mut a = [0; N];
    a[..n].copy_from_slice(&xs[..n]);
    a
}

// What carries over of a store: how many sites it has, and its plan or the lack of one. There is no roll.
fn carry(store: Store) -> Store
    requires { (store.count ≤ 512) × (store.held ≡ true → store.grouped ≤ 64) }
    ensures { (e : Edition) (table : List Site) → result ≡ carried (on e store table) }
{
    if !store.held {
        return Store {
            count: store.count,
            held: false,
            grouped: 0,
            groups: [0; 64],
            shares: [0; 512],
            roll: no_roll(),
        };
    }
    let groups = first(store.groups, store.grouped);
    let shares = first(store.shares, store.count);
    Store {
        count: store.count,
        held: true,
        grouped: store.grouped,
        groups,
        shares,
        roll: no_roll(),
    }
}

// The step on values, to a new table of `room` places: rows 0 and 2, or what goes to the new store and table.
fn decide(store: Store1, sites: [Site1; 512], places: usize, room: usize) -> Decision
    ensures { Decided store sites places room result }
{
    let wide = Store::from(store);
    let all = widen_all(sites);
    if row_zero(wide, all, places) {
        return refuse(wide, all, Refusal::CorruptStore);
    }
    if let Err(row) = migrate_row(wide.count, room) {
        return refuse(wide, all, row);
    }
    Decision {
        answer: Ok(Answer::Done),
        store: carry(wide),
        sites: all,
        n: wide.count,
    }
}

// The step, over lent tables; the old one is only read. Three calls and no branch. A refusal gives back the figures of the old store, and leaves the new table as it was.
pub fn migrate(store: Store1, table: &[Site1], new: &mut [Site]) -> Out2
    ensures { MovedOver (view1 store table.now) new.old result.answer result.store new.new }
{
    let sites = table::held(table, NO_SITE1);
    let d = decide(store, sites, table.len(), new.len());
    table::store(new, d.sites, 0, d.n);
    Out2 {
        answer: d.answer,
        store: d.store,
    }
}
