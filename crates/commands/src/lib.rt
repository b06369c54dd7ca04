// A line of a script turned into a command. The top of crates/console/src/main.rt says what the lines mean.
#![tactic(auto)]

ghost use Rattle.std.specs.Prelude.{◌≡◌, ◌∷◌, [], MatchOption};
ghost use Rattle.std.specs.Option.{unwrap_or};
ghost use Rattle.script.specs.Decimal.{number_of};
ghost use Rattle.script.specs.Words.{words_of};
ghost use Rattle.commands.specs.Commands.{of_bytes, of_site, of_depot, of_litres, of_size, reads, one_word, direction_of, two_words, three_words, four_words, call_of, command_of};
ghost use Rattle.commands.specs.declared.Command.TheVariants.{Bad, Call, ConvertPlan};
ghost use Rattle.store.specs.declared.Request.TheVariants.{Change, Difference, Add};

use store::Request;

// The direction between editions.
#[derive(Clone, Copy)]
pub enum Direction {
    Upgrade,
    Downgrade,
}

// What a line asks for. A `Call` is a call of the desk; `written` and `list`, which take a buffer, have variants of their own.
// `Convert` is of a list, `ConvertPlan` of a list and its plan. Bytes are not held: they are words of the line.
// Kept: `Blank` and `Bad` are commands of a script, as `command_of` lists them.
#[derive(Clone, Copy)]
pub enum Command {
    Blank,
    Bad,
    Table(usize),
    Call(Request),
    Written(usize),
    Check,
    Make(usize),
    ListWritten(usize),
    Table2(usize),
    Convert(Direction, usize),
    ConvertPlan(Direction, usize, usize),
    Migrate(usize),
}

// The most places of a table.
const PLACES: u64 = 600;

// The most bytes of a buffer.
const SIZE: u64 = 8192;

// The largest numbers of a site, of a depot and of a threshold. That of litres is the edition's, and `parse` is given it.
const SITE: u64 = u64::MAX;

const DEPOT: u64 = 255;

const THRESHOLD: u64 = 4294967295;

// The first word and what stands behind it, where there is a word.
fn next(text: &[u8]) -> Option<(&[u8], &[u8])>
    ensures { MatchOption result (words_of text.now ≡ []) (λ w. words_of text.now ≡ w.0.now ∷ words_of w.1.now) }
{
    let word = script::word(text);
    if word.is_empty() {
        return None;
    }
    Some((word, script::rest(text)))
}

// A number of sites, places or bytes.
fn count(text: &[u8], bound: u64) -> Option<usize>
    ensures { result ≡ number_of bound text.now }
{
    script::decimal(text, bound).map(|n| n as usize)
}

// The number of a depot.
fn depot(text: &[u8]) -> Option<u8>
    ensures { result ≡ number_of 255 text.now }
{
    script::decimal(text, DEPOT).map(|n| n as u8)
}

// A threshold of litres.
fn threshold(text: &[u8]) -> Option<u32>
    ensures { result ≡ number_of 4294967295 text.now }
{
    script::decimal(text, THRESHOLD).map(|m| m as u32)
}

// The litres of a site.
fn litres_of(text: &[u8], most: u32) -> Option<u32>
    ensures { result ≡ number_of most text.now }
{
    script::decimal(text, most as u64).map(|n| n as u32)
}

// The command, where the word stands for bytes.
fn given(text: &[u8], command: Option<Command>) -> Option<Command>
    ensures { unwrap_or result Bad ≡ of_bytes text.now (unwrap_or command Bad) }
{
    if script::is_bytes(text) {
        command
    } else {
        None
    }
}

// The call that only reads, by its name and one word behind it.
// Kept: names are told one after another, here and below, in the order of the definitions.
#[tactic(auto, unfolding(crate::specs::Commands::reads))]
fn reads(name: &[u8], word: &[u8]) -> Option<Command>
    ensures { unwrap_or result Bad ≡ reads name.now word.now }
{
    if script::same(name, b"share") {
        count(word, SITE).map(Request::Share).map(Command::Call)
    } else if script::same(name, b"depot") {
        depot(word).map(Request::Depot).map(Command::Call)
    } else if script::same(name, b"written") {
        count(word, SIZE).map(Command::Written)
    } else if script::same(name, b"atleast") {
        threshold(word).map(Request::AtLeast).map(Command::Call)
    } else if script::same(name, b"list") {
        count(word, SIZE).map(Command::ListWritten)
    } else {
        None
    }
}

// The call of a name with one word behind it.
#[tactic(auto, unfolding(crate::specs::Commands::one_word))]
fn one_word(name: &[u8], word: &[u8]) -> Option<Command>
    ensures { unwrap_or result Bad ≡ one_word name.now word.now }
{
    if script::same(name, b"table") {
        count(word, PLACES).map(Command::Table)
    } else if script::same(name, b"table2") {
        count(word, PLACES).map(Command::Table2)
    } else if script::same(name, b"load") {
        given(word, Some(Command::Call(Request::Load)))
    } else if script::same(name, b"propose") {
        given(word, Some(Command::Call(Request::Propose)))
    } else if script::same(name, b"migrate") {
        count(word, PLACES).map(Command::Migrate)
    } else {
        reads(name, word)
    }
}

// change SITE LITRES
fn change(site: &[u8], litres: &[u8], most: u32) -> Option<Command>
    ensures { unwrap_or result Bad ≡ of_site site.now (λ i. of_litres most litres.now (λ w. Call (Change i w))) }
{
    let i = count(site, SITE)?;
    let w = litres_of(litres, most)?;
    Some(Command::Call(Request::Change(i, w)))
}

// difference A B
fn difference(a: &[u8], b: &[u8]) -> Option<Command>
    ensures { unwrap_or result Bad ≡ of_depot a.now (λ d. of_depot b.now (λ e. Call (Difference d e))) }
{
    let d = depot(a)?;
    let e = depot(b)?;
    Some(Command::Call(Request::Difference(d, e)))
}

// The direction of a name.
#[tactic(auto, unfolding(crate::specs::Commands::direction_of))]
fn direction_of(name: &[u8]) -> Option<Direction>
    ensures { result ≡ direction_of name.now }
{
    if script::same(name, b"upgrade") {
        Some(Direction::Upgrade)
    } else if script::same(name, b"downgrade") {
        Some(Direction::Downgrade)
    } else {
        None
    }
}

// The call of a name with two words behind it.
#[tactic(auto, unfolding(crate::specs::Commands::two_words))]
fn two_words(name: &[u8], a: &[u8], b: &[u8], most: u32) -> Option<Command>
    ensures { unwrap_or result Bad ≡ two_words most name.now a.now b.now }
{
    if script::same(name, b"change") {
        change(a, b, most)
    } else if script::same(name, b"difference") {
        difference(a, b)
    } else if script::same(name, b"check") {
        given(a, given(b, Some(Command::Check)))
    } else if script::same(name, b"make") {
        given(a, count(b, SIZE).map(Command::Make))
    } else {
        let direction = direction_of(name)?;
        given(a, count(b, SIZE).map(|n| Command::Convert(direction, n)))
    }
}

// add FIRST SECOND LITRES
fn add(first: &[u8], second: &[u8], litres: &[u8], most: u32) -> Option<Command>
    ensures { unwrap_or result Bad ≡ of_depot first.now (λ f. of_depot second.now (λ s. of_litres most litres.now (λ w. Call (Add f s w)))) }
{
    let f = depot(first)?;
    let s = depot(second)?;
    let w = litres_of(litres, most)?;
    Some(Command::Call(Request::Add(f, s, w)))
}

// The call of a name with three words behind it.
#[tactic(auto, unfolding(crate::specs::Commands::three_words))]
fn three_words(name: &[u8], a: &[u8], b: &[u8], c: &[u8], most: u32) -> Option<Command>
    ensures { unwrap_or result Bad ≡ three_words most name.now a.now b.now c.now }
{
    if script::same(name, b"add") {
        add(a, b, c, most)
    } else {
        None
    }
}

// upgrade LIST PLAN LEN LEN, or downgrade LIST PLAN LEN LEN, where LIST and PLAN stand for bytes
fn convert_plan(direction: Direction, len: &[u8], other: &[u8]) -> Option<Command>
    ensures { unwrap_or result Bad ≡ of_size len.now (λ n. of_size other.now (λ m. ConvertPlan direction n m)) }
{
    let n = count(len, SIZE)?;
    let m = count(other, SIZE)?;
    Some(Command::ConvertPlan(direction, n, m))
}

// The call of a name with four words behind it.
#[tactic(auto, unfolding(crate::specs::Commands::four_words))]
fn four_words(name: &[u8], a: &[u8], b: &[u8], c: &[u8], d: &[u8]) -> Option<Command>
    ensures { unwrap_or result Bad ≡ four_words name.now a.now b.now c.now d.now }
{
    let direction = direction_of(name)?;
    given(a, given(b, convert_plan(direction, c, d)))
}

// The call of a name and the words of what stands behind it: one to four.
fn call(name: &[u8], text: &[u8], most: u32) -> Option<Command>
    ensures { unwrap_or result Bad ≡ call_of most name.now (words_of text.now) }
{
    let (a, text) = next(text)?;
    let Some((b, text)) = next(text) else {
        return one_word(name, a);
    };
    let Some((c, text)) = next(text) else {
        return two_words(name, a, b, most);
    };
    let Some((d, text)) = next(text) else {
        return three_words(name, a, b, c, most);
    };
    if next(text).is_some() {
        return None;
    }
    four_words(name, a, b, c, d)
}

// The command of a line. Litres that go to the table are at most `most`.
pub fn parse(line: &[u8], most: u32) -> Command
    ensures { result ≡ command_of most line.now }
{
    let Some((name, text)) = next(line) else {
        return Command::Blank;
    };
    if name.starts_with(b"#") {
        return Command::Blank;
    }
    call(name, text, most).unwrap_or(Command::Bad)
}
