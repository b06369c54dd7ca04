// The step of a store of edition 1 to edition 2 over bytes that the caller lends (document 02, e: "A busy desk goes over").
#![tactic(auto)]

ghost use Rattle.std.specs.Prelude.{◌≡◌, true};
ghost use Rattle.records.specs.Format.{edition1, edition2};
ghost use Rattle.store.specs.Calls.{told};
ghost use Rattle.lent.specs.Lent.{is_of};
ghost use Rattle.store_migrate_bytes.specs.Migrate.{Migrated};

use held_state::is_corrupt;
use layout::{list_in, store_in};
use layout_put::{put_bare, put_plan, put_roll, put_sites};
use lent::summary;
use records::{Refusal, edition1, no_roll};
use store::Answer;
use store_calls::migrate_row;

// The step of a store of edition 1 and its table, which are only read, to a store of edition 2 over a new table. What is refused writes nothing.
pub fn migrate(
    store: &[u8],
    table: &[u8],
    store2: &mut [u8],
    table2: &mut [u8],
) -> Result<Answer, Refusal>
    requires { (is_of edition1 store.now ≡ true) × (is_of edition2 store2.old ≡ true) }
    ensures { Migrated store.now table.now store2.old table2.old (told result) store2.new table2.new }
{
    let e = edition1();
    let mut groups = [0u64; 64];
    let mut shares = [0u64; 512];
    let h = store_in(store, e.share, e.roll, &mut groups, &mut shares);
    let list = list_in(table, e.litres, h.count, h.roll);
    let known = summary(e, h, table);
    if is_corrupt(list, known, &groups, &shares) {
        return Err(Refusal::CorruptStore);
    }
    migrate_row(h.count, table2.len() / 6)?;
    put_sites(table2, 4, list.sites, h.count);
    put_roll(store2, 8, no_roll());
    if h.held {
        put_plan(store2, 8, h.count, h.grouped, &groups, &shares);
    } else {
        put_bare(store2, 8, h.count);
    }
    Ok(Answer::Done)
}
