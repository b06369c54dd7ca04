// Runs a script of calls from standard input, one line each, and prints one line for each.
//
//   check LIST PLAN            `passes`, or `refused` and the row
//   make LIST LEN              makes a plan in a buffer of LEN bytes, at most 8,192, filled with A5: `length` and the plan's length, or `refused` and the row, and then the whole buffer
//
// Both take either edition of list; a plan is of the list's edition.
//
// Between the editions, with the same figures in the same order. Buffers are as for `make`; nothing is written unless all fits:
//   upgrade LIST LEN           a list of edition 1 in edition 2: `length` and its length, or `refused` and the row, and then the whole buffer
//   upgrade LIST PLAN LEN LEN  the same with its plan, the list's buffer first: `lengths` and both lengths, or `refused` and the row, and then both buffers
//   downgrade LIST LEN, downgrade LIST PLAN LEN LEN
//                              the other way, of edition 2 in edition 1
//
// These four lines, `check` and `make` leave the desk as it is.
//
// The desk's calls, over one desk and a table. A refused call answers `refused` and the row:
//   table N                    a fresh desk of edition 1, and a table of N places, at most 600, all zero; it answers `table` and N
//   table2 N                   the same of edition 2; it answers `table2` and N. Before the first of these lines the desk is fresh, of edition 1, and has 512 places
//   load LIST                  `done`
//   change SITE LITRES         `done`
//   add FIRST SECOND LITRES    `done`
//   propose PLAN               `done`
//   share SITE                 `share`, s and w × q
//   depot D                    `depot`, W and q
//   difference A B             `difference`, the difference (with a minus sign where it is below zero) and its divisor
//   atleast LITRES             `set` and the eight bytes, as in a plan's group, of the depots whose W/q is at least so many litres, a number up to 4,294,967,295
//   written LEN                the held plan in a buffer as for `make`: `length` and its length, or `refused` and the row, and then the whole buffer
//   list LEN                   the held list likewise, with a plan or without one
//   migrate N                  a desk of edition 1 goes over to edition 2 and a new table of N places, at most 600, all zero before, with its sites and its plan or the lack of one: `done`
//
// A refused `migrate` leaves the old desk and its table. On a desk of edition 2 it is a bad line.
// A desk takes lists and plans of its own edition. A depot is a number up to 255, a site up to 2^64 - 1.
// The litres of `change` and `add` are a number up to 65,535 on a desk of edition 1, and up to 4,294,967,295 on one of edition 2.
// Bytes are hexadecimal, of either case, without spaces, `-` for none; they are printed in upper case. Numbers are decimal. Words stand apart by one or more spaces, and spaces before the first and behind the last are passed over.
// A blank line prints nothing, nor does one whose first word begins with `#`. Any other line, and one with a word too many or too few, or with a number too large for its place, prints `bad line`.
// A line is at most 65,536 bytes long. Of a longer one nothing is carried out, whatever it begins with: it is read to its end and prints one `bad line` there.
// The last line may lack its newline. An answer is printed as soon as its line is read.
#![tactic(auto)]

ghost use Rattle.std.specs.Prelude.{◌≡◌, ◌⊎◌, ℕ, ◌+◌, ◌*◌, ◌≤◌, ◌^◌, IfOk};
ghost use Rattle.script.specs.Prefix.{IsPrefixLen};
ghost use Rattle.commands.specs.Commands.{is_back, Within};
ghost use Rattle.store.specs.Widths.{Named};
ghost use Rattle.layout.specs.Layout.{store_size};
ghost use Rattle.records.specs.Write.{WrittenOf};
ghost use Rattle.records.specs.Files.{WrittenBoth};
ghost use Rattle.converter.specs.Convert.{way, convert_list, convert_plan};
ghost use Rattle.console.specs.Editions.{edition_at, desk_after};
ghost use Rattle.console.specs.declared.DeskEdition.TheVariants.{Second};

use commands::{Command, Direction};
use records::{Edition, Lengths, Refusal, edition1, edition2};
use std::io;
use std::io::Read;
use store::{Answer, Request};

// Which edition a desk is of.
#[derive(Clone, Copy)]
enum DeskEdition {
    First,
    Second,
}

impl DeskEdition {
    fn edition(self) -> Edition
        ensures { result ≡ edition_at self }
    {
        match self {
            DeskEdition::First => edition1(),
            DeskEdition::Second => edition2(),
        }
    }

    // The largest number of litres.
    fn most_litres(self) -> u32
        ensures { result + 1 ≡ 256 ^ (edition_at self).litres }
    {
        match self {
            DeskEdition::First => 65535,
            DeskEdition::Second => u32::MAX,
        }
    }

    // The bytes of a store.
    fn store_bytes(self) -> usize
        ensures { result ≡ store_size (edition_at self).share (edition_at self).roll }
    {
        match self {
            DeskEdition::First => 2584,
            DeskEdition::Second => 4704,
        }
    }

    // The bytes of a table of so many places, at most 600; of more, which no desk has, none.
    fn table_bytes(self, places: usize) -> usize
        ensures upper_bound { result ≤ 3600 }
        ensures value { places ≤ 600 → result ≡ (2 + (edition_at self).litres) * places }
    {
        if places > 600 {
            return 0;
        }
        match self {
            DeskEdition::First => 4 * places,
            DeskEdition::Second => 6 * places,
        }
    }
}

// The bytes of a store and of its table, and how many places the table has: at most 600.
// In edition 2 a store has 4,704 bytes and a place 6; in edition 1 a store has the first 2,584 bytes, and a place 4.
#[derive(Clone, Copy)]
struct Desk {
    edition: DeskEdition,
    places: usize,
    store: [u8; 4704],
    table: [u8; 3600],
}

// What a step to edition 2 answers, and the desk behind it.
#[derive(Clone, Copy)]
struct Step {
    answer: Result<Answer, Refusal>,
    desk: Desk,
}

// What is kept between reads: how many bytes of the next line are read, and the desk.
#[derive(Clone, Copy)]
struct State {
    used: usize,
    desk: Desk,
}

fn bad(rt: &impl Print) -> io::Result<()> {
    println!(rt; "bad line")
}

// A set of depots as in a plan's group record: eight bytes, the lowest first.
fn print_set(rt: &impl Print, x: u64) -> io::Result<()> {
    print!(rt; "set {:016X}", x.swap_bytes())
}

fn print_refused(rt: &impl Print, row: Refusal) -> io::Result<()> {
    print!(rt; "refused {}", row.number())
}

fn print_answer(rt: &impl Print, a: Result<Answer, Refusal>) -> io::Result<()> {
    match a {
        Ok(Answer::Done) => print!(rt; "done"),
        Ok(Answer::Share(s, w)) => print!(rt; "share {s} {w}"),
        Ok(Answer::Depot(w, q)) => print!(rt; "depot {w} {q}"),
        Ok(Answer::Difference(d, q)) => print!(rt; "difference {d} {q}"),
        Ok(Answer::Length(n)) => print!(rt; "length {n}"),
        Ok(Answer::Reached(x)) => print_set(rt, x),
        Err(row) => print_refused(rt, row),
    }
}

fn print_wrote(rt: &impl Print, w: Result<usize, Refusal>) -> io::Result<()> {
    print_answer(rt, w.map(Answer::Length))
}

fn print_wrote_both(rt: &impl Print, w: Result<Lengths, Refusal>) -> io::Result<()> {
    match w {
        Ok(n) => print!(rt; "lengths {} {}", n.list, n.plan),
        Err(row) => print_refused(rt, row),
    }
}

fn print_verdict(rt: &impl Print, v: Result<(), Refusal>) -> io::Result<()> {
    match v {
        Ok(()) => print!(rt; "passes"),
        Err(row) => print_refused(rt, row),
    }
}

fn end_answer(rt: &impl Print) -> io::Result<()> {
    rt.print("\n")
}

// A buffer behind an answer.
fn print_buffer(rt: &impl Print, bytes: &[u8]) -> io::Result<()> {
    if bytes.is_empty() {
        return rt.print(" -");
    }
    let mut text = [0u8; 16384];
    let n = script::encode(bytes, &mut text);
    rt.print(" ")?;
    rt.write_all(&text[..n])
}

// The check of a list and a plan, both in hexadecimal. Here and in the other calls the first 8,192 bytes of a list or of a plan are taken.
// What is cut off changes no answer: a list has at most 4,166 bytes and a plan at most 5,765, so a longer one is refused by its head
// (rows 1 and 2, rows 7 to 9) or by its length (rows 3 and 10), cut or not.
fn checked(rt: &impl Print, list: &[u8], plan: &[u8]) -> io::Result<()> {
    let mut a = [0u8; 8192];
    let mut b = [0u8; 8192];
    let n = script::decode(list, &mut a);
    let m = script::decode(plan, &mut b);
    print_verdict(rt, judge::check(&a[..n], &b[..m]))?;
    end_answer(rt)
}

// check LIST PLAN
fn run_check(rt: &impl Print, args: &[u8]) -> io::Result<()> {
    checked(rt, script::word(args), script::word(script::rest(args)))
}

// Makes the plan of a list in a buffer, and prints the answer and the buffer.
fn made_in(rt: &impl Print, list: &[u8], out: &mut [u8]) -> io::Result<()> {
    print_wrote(rt, maker::make(list, out))?;
    print_buffer(rt, out)?;
    end_answer(rt)
}

// make LIST LEN
fn run_make(rt: &impl Print, args: &[u8], len: usize) -> io::Result<()>
    requires { len ≤ 8192 }
{
    let mut bytes = [0u8; 8192];
    let n = script::decode(script::word(args), &mut bytes);
    let mut out = [0xA5u8; 8192];
    made_in(rt, &bytes[..n], &mut out[..len])
}

// Converts a list.
fn convert(direction: Direction, list: &[u8], out: &mut [u8]) -> Result<usize, Refusal>
    ensures { WrittenOf (convert_list (way (is_back direction)) list.now out.old) out.old result out.new }
{
    match direction {
        Direction::Upgrade => converter::upgrade_list(list, out),
        Direction::Downgrade => converter::downgrade_list(list, out),
    }
}

// Converts a list in a buffer, and prints the answer and the buffer.
fn converted_in(
    rt: &impl Print,
    direction: Direction,
    list: &[u8],
    out: &mut [u8],
) -> io::Result<()> {
    print_wrote(rt, convert(direction, list, out))?;
    print_buffer(rt, out)?;
    end_answer(rt)
}

// upgrade LIST LEN, downgrade LIST LEN
fn run_convert(rt: &impl Print, args: &[u8], direction: Direction, len: usize) -> io::Result<()>
    requires { len ≤ 8192 }
{
    let mut bytes = [0u8; 8192];
    let n = script::decode(script::word(args), &mut bytes);
    let mut out = [0xA5u8; 8192];
    converted_in(rt, direction, &bytes[..n], &mut out[..len])
}

// Converts a list and its plan.
fn convert_plan(
    direction: Direction,
    list: &[u8],
    plan: &[u8],
    out: &mut [u8],
    other: &mut [u8],
) -> Result<Lengths, Refusal>
    ensures { WrittenBoth (convert_plan (way (is_back direction)) list.now plan.now out.old other.old) out.old other.old result out.new other.new }
{
    match direction {
        Direction::Upgrade => converter::upgrade_plan(list, plan, out, other),
        Direction::Downgrade => converter::downgrade_plan(list, plan, out, other),
    }
}

// Converts a list and its plan in two buffers, and prints the answer and both buffers.
fn plan_converted_in(
    rt: &impl Print,
    direction: Direction,
    list: &[u8],
    plan: &[u8],
    out: &mut [u8],
    other: &mut [u8],
) -> io::Result<()> {
    print_wrote_both(rt, convert_plan(direction, list, plan, out, other))?;
    print_buffer(rt, out)?;
    print_buffer(rt, other)?;
    end_answer(rt)
}

// upgrade LIST PLAN LEN LEN, downgrade LIST PLAN LEN LEN
fn run_convert_plan(
    rt: &impl Print,
    args: &[u8],
    direction: Direction,
    first: usize,
    second: usize,
) -> io::Result<()>
    requires { (first ≤ 8192) × (second ≤ 8192) }
{
    let mut a = [0u8; 8192];
    let mut b = [0u8; 8192];
    let n = script::decode(script::word(args), &mut a);
    let m = script::decode(script::word(script::rest(args)), &mut b);
    let mut out = [0xA5u8; 8192];
    let mut other = [0xA5u8; 8192];
    plan_converted_in(
        rt,
        direction,
        &a[..n],
        &b[..m],
        &mut out[..first],
        &mut other[..second],
    )
}

// A fresh desk, and a table of so many places.
fn fresh(edition: DeskEdition, places: usize) -> Desk
    requires { places ≤ 600 }
{
    let mut store = [0u8; 4704];
    lent::fresh(edition.edition(), &mut store[..edition.store_bytes()]);
    Desk {
        edition,
        places,
        store,
        table: [0; 3600],
    }
}

// table N, table2 N
fn run_table(rt: &impl Print, edition: DeskEdition, places: usize) -> io::Result<Desk>
    requires { places ≤ 600 }
{
    match edition {
        DeskEdition::First => println!(rt; "table {places}")?,
        DeskEdition::Second => println!(rt; "table2 {places}")?,
    }
    Ok(fresh(edition, places))
}

// The end of a line with a call's answer: `written` and `list` print the buffer.
fn end_call(rt: &impl Print, request: Request, buffer: &[u8]) -> io::Result<()> {
    match request {
        Request::Written | Request::ListWritten => print_buffer(rt, buffer)?,
        _ => {}
    }
    end_answer(rt)
}

// A call of the desk, and its answer: the entry over lent bytes, which the library exports call by call.
fn called(
    rt: &impl Print,
    mut desk: Desk,
    request: Request,
    input: &[u8],
    buffer: &mut [u8],
) -> io::Result<Desk>
    requires { Named (256 ^ (edition_at desk.edition).litres) request }
{
    let size = desk.edition.store_bytes();
    let n = desk.edition.table_bytes(desk.places);
    let answer = lent::call(
        desk.edition.edition(),
        &mut desk.store[..size],
        &mut desk.table[..n],
        request,
        input,
        buffer,
    );
    print_answer(rt, answer)?;
    end_call(rt, request, buffer)?;
    Ok(desk)
}

// The desk behind a step that is so answered: the new one where it is done, and else the old one.
fn desk_after(answer: Result<Answer, Refusal>, old: Desk, new: Desk) -> Desk
    ensures { result ≡ desk_after answer old new }
{
    match answer {
        Ok(Answer::Done) => new,
        _ => old,
    }
}

// The step of a desk of edition 1 to edition 2 and a new table of so many places: the entry over lent bytes, which the library exports.
fn migrated(desk: Desk, places: usize) -> Step
    requires { places ≤ 600 }
    ensures { (result.desk ≡ desk) ⊎ ((result.desk.edition ≡ Second) × (result.desk.places ≡ places)) }
{
    let n = DeskEdition::First.table_bytes(desk.places);
    let mut store2 = [0u8; 4704];
    let mut table2 = [0u8; 3600];
    let answer = store_migrate_bytes::migrate(
        &desk.store[..2584],
        &desk.table[..n],
        &mut store2,
        &mut table2[..6 * places],
    );
    let new = Desk {
        edition: DeskEdition::Second,
        places,
        store: store2,
        table: table2,
    };
    Step {
        answer,
        desk: desk_after(answer, desk, new),
    }
}

// migrate N
fn run_migrate(rt: &impl Print, desk: Desk, places: usize) -> io::Result<Desk>
    requires { places ≤ 600 }
    ensures { desk.edition ≡ Second → IfOk result (λ after. after ≡ desk) }
{
    if let DeskEdition::Second = desk.edition {
        bad(rt)?;
        return Ok(desk);
    }
    let after = migrated(desk, places);
    print_answer(rt, after.answer)?;
    end_answer(rt)?;
    Ok(after.desk)
}

// Puts the input of a call at the front of `out`, and answers how long it is: `load` and `propose` have one, in hexadecimal.
fn input_of(request: Request, args: &[u8], out: &mut [u8]) -> usize
    ensures { IsPrefixLen result out.new }
{
    match request {
        Request::Load | Request::Propose => script::decode(script::word(args), out),
        _ => 0,
    }
}

// A call of the desk that is lent a buffer of `len` bytes.
fn run_call(
    rt: &impl Print,
    desk: Desk,
    request: Request,
    args: &[u8],
    len: usize,
) -> io::Result<Desk>
    requires { (len ≤ 8192) × Named (256 ^ (edition_at desk.edition).litres) request }
{
    let mut bytes = [0u8; 8192];
    let n = input_of(request, args, &mut bytes);
    let mut out = [0xA5u8; 8192];
    called(rt, desk, request, &bytes[..n], &mut out[..len])
}

// Carries out a command that leaves the desk as it is.
fn run_apart(rt: &impl Print, command: Command, line: &[u8]) -> io::Result<()>
    requires { (most : ℕ) × Within most command }
{
    match command {
        Command::Bad => bad(rt),
        Command::Check => run_check(rt, script::rest(line)),
        Command::Make(n) => run_make(rt, script::rest(line), n),
        Command::Convert(direction, n) => run_convert(rt, script::rest(line), direction, n),
        Command::ConvertPlan(direction, n, m) => run_convert_plan(
            rt,
            script::rest(line),
            direction,
            n,
            m,
        ),
        _ => Ok(()),
    }
}

// Carries out a line.
fn run_line(rt: &impl Print, desk: Desk, line: &[u8]) -> io::Result<Desk> {
    let command = commands::parse(line, desk.edition.most_litres());
    match command {
        Command::Table(n) => run_table(rt, DeskEdition::First, n),
        Command::Call(request) => run_call(rt, desk, request, script::rest(line), 0),
        Command::Written(n) => run_call(rt, desk, Request::Written, script::rest(line), n),
        Command::ListWritten(n) => run_call(rt, desk, Request::ListWritten, script::rest(line), n),
        Command::Table2(n) => run_table(rt, DeskEdition::Second, n),
        Command::Migrate(n) => run_migrate(rt, desk, n),
        _ => {
            run_apart(rt, command, line)?;
            Ok(desk)
        }
    }
}

// Carries out a line of `used` bytes, which may be too many.
fn run_used(rt: &impl Print, desk: Desk, line: &[u8], used: usize) -> io::Result<Desk> {
    if used > line.len() {
        bad(rt)?;
        return Ok(desk);
    }
    run_line(rt, desk, &line[..used])
}

// Carries out the line that is read, and begins the next.
fn end_line(rt: &impl Print, state: State, line: &[u8]) -> io::Result<State> {
    Ok(State {
        used: 0,
        desk: run_used(rt, state.desk, line, state.used)?,
    })
}

// Takes in a piece of the input.
fn feed(rt: &impl Print, mut state: State, line: &mut [u8], piece: &[u8]) -> io::Result<State> {
    for b in piece {
        if *b == b'\n' {
            state = end_line(rt, state, line)?;
        } else {
            state.used = script::put(line, state.used, *b);
        }
    }
    Ok(state)
}

// Reads to the end of the input. A proved loop has to end, and nothing says that the input does: the loop has so many turns that no run uses them up.
fn read_all<R: Read>(rt: &impl Print, input: &mut R, line: &mut [u8]) -> io::Result<State> {
    let mut state = State {
        used: 0,
        desk: fresh(DeskEdition::First, 512),
    };
    let mut piece = [0u8; 4096];
    for _ in 0..u64::MAX {
        let n = input.read(&mut piece)?;
        if n == 0 {
            break;
        }
        state = feed(rt, state, line, &piece[..n])?;
    }
    Ok(state)
}

fn main(rt: HostRuntime) -> io::Result<()> {
    let mut line = [0u8; 65536];
    let state = read_all(&rt, &mut rt.stdin(), &mut line)?;
    if state.used > 0 {
        end_line(&rt, state, &line)?;
    }
    Ok(())
}
