// The static library for Rust and C: Check, Make and files between editions, each answered by a number; where a list and its plan are written, the plan's length goes beside it.
// Kept: functions that differ in an edition or a way stand one by one, since C calls each by its name.
#![tactic(auto)]

ghost use Rattle.std.specs.Prelude.{◌≡◌, ◌<◌, ◌^◌, IfOk};
ghost use Rattle.records.specs.declared.Lengths.{Lengths};
ghost use Rattle.records.specs.Refusals.{outcome};
ghost use Rattle.records.specs.Format.{edition_of, read_list};
ghost use Rattle.judge.specs.Check.{check_row};
ghost use Rattle.converter.specs.Convert.{upgrade, downgrade, convert_list, convert_plan};
ghost use Rattle.engine.specs.Codes.{check_code, wrote_code, MadeCode, both_code, plan_length_in, ListCode, BothCode};

use records::{Lengths, Refusal};
use signed::{length, refused};

// Check: 0 where the plan passes; where a row refuses, its number with a minus sign.
#[unsafe(no_mangle)]
pub extern "C" fn sulgheti_check(list: &[u8], plan: &[u8]) -> i64
    ensures { result ≡ check_code (check_row (edition_of list.now) list.now plan.now) }
{
    wrote_code(judge::check(list, plan).map(|()| 0))
}

// The length written, or the row's number with a minus sign.
fn wrote_code(answer: Result<usize, Refusal>) -> i64
    requires { IfOk answer (λ n. n < 2 ^ 63) }
    ensures { result ≡ wrote_code (outcome answer) }
{
    match answer {
        Ok(n) => length(n),
        Err(row) => refused(row.number()),
    }
}

// Make: the length of the plan that is written; where a row refuses, its number with a minus sign.
#[unsafe(no_mangle)]
pub extern "C" fn sulgheti_make(list: &[u8], out: &mut [u8]) -> i64
    ensures { MadeCode (edition_of list.now) (read_list (edition_of list.now) 512 list.now) out.old result out.new }
{
    wrote_code(maker::make(list, out))
}

// The four converters, up from edition 1 to edition 2, or back where every figure fits: each answers the length of the list that is written; where a row refuses, its number with
// a minus sign, and nothing is written.

// A list, up.
#[unsafe(no_mangle)]
pub extern "C" fn sulgheti_upgrade_list(list: &[u8], out: &mut [u8]) -> i64
    ensures { ListCode (convert_list upgrade list.now out.old) out.old result out.new }
{
    wrote_code(converter::upgrade_list(list, out))
}

// A list, back.
#[unsafe(no_mangle)]
pub extern "C" fn sulgheti_downgrade_list(list: &[u8], out: &mut [u8]) -> i64
    ensures { ListCode (convert_list downgrade list.now out.old) out.old result out.new }
{
    wrote_code(converter::downgrade_list(list, out))
}

// The list's length, the plan's going to `len`; or the row's number with a minus sign, `len` being left as it was.
fn both_code(answer: Result<Lengths, Refusal>, len: &mut usize) -> i64
    requires { IfOk answer (λ (x : Lengths). x.list < 2 ^ 63) }
    ensures { (result ≡ both_code (outcome answer)) × (len.new ≡ plan_length_in (outcome answer) len.old) }
{
    if let Ok(lengths) = answer {
        *len = lengths.plan;
    }
    wrote_code(answer.map(|lengths| lengths.list))
}

// A list and its plan, up; the plan's length goes to `len`.
#[unsafe(no_mangle)]
pub extern "C" fn sulgheti_upgrade_plan(
    list: &[u8],
    plan: &[u8],
    out: &mut [u8],
    other: &mut [u8],
    len: &mut usize,
) -> i64
    ensures { BothCode (convert_plan upgrade list.now plan.now out.old other.old) out.old other.old len.old result out.new other.new len.new }
{
    both_code(converter::upgrade_plan(list, plan, out, other), len)
}

// A list and its plan, back; the plan's length goes to `len`.
#[unsafe(no_mangle)]
pub extern "C" fn sulgheti_downgrade_plan(
    list: &[u8],
    plan: &[u8],
    out: &mut [u8],
    other: &mut [u8],
    len: &mut usize,
) -> i64
    ensures { BothCode (convert_plan downgrade list.now plan.now out.old other.old) out.old other.old len.old result out.new other.new len.new }
{
    both_code(converter::downgrade_plan(list, plan, out, other), len)
}
