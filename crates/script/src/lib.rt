// Lines of a script: words, bytes in hexadecimal, decimal numbers, and a line put together byte by byte.
#![tactic(auto)]

ghost use Rattle.std.specs.Prelude.{◌≡◌, cond, ◌≤◌, ◌<◌, ◌+◌, ◌*◌, ◌/◌, min, ltb, length, take, drop, set, IfSome, not, ◌==◌};
ghost use Rattle.std.specs.List.{prefix_len, list_all};
ghost use Rattle.script.specs.Prefix.{IsPrefixLen};
ghost use Rattle.script.specs.Hex.{digit_of, glyph_of, digits_of, byte_of, bytes_of, is_none, is_bytes};
ghost use Rattle.script.specs.Decimal.{number_of};
ghost use Rattle.script.specs.Words.{trimmed_of, word_of, rest_of, same_of};

// What a hexadecimal digit of either case stands for; 16 where the byte is none.
// Kept: 16 in place of an `Option`, since `digit_of` says so and the byte of two digits is defined by it.
#[tactic(auto, using(std::proofs::lemmas::Bool::Decides::nat_tests), unfolding(crate::specs::Hex::digit_of))]
pub fn digit(b: u8) -> u8
    ensures { result ≡ digit_of b }
{
    match b {
        b'0'..=b'9' => b - b'0',
        b'A'..=b'F' => b - b'A' + 10,
        b'a'..=b'f' => b - b'a' + 10,
        _ => 16,
    }
}

// The digit of a number below 16, in upper case.
pub fn glyph(d: u8) -> u8
    requires { d < 16 }
    ensures { result ≡ glyph_of d }
{
    if d < 10 { b'0' + d } else { b'A' + (d - 10) }
}

// How many spaces stand at the front.
fn spaces(s: &[u8]) -> usize
    ensures within { result ≤ length s.now }
    ensures value { result ≡ prefix_len (λ b. b == 32) s.now }
{
    s.iter().take_while(|b| **b == b' ').count()
}

// How many bytes stand before the first space, or before the end.
fn letters(s: &[u8]) -> usize
    ensures within { result ≤ length s.now }
    ensures value { result ≡ prefix_len (λ b. not (b == 32)) s.now }
{
    s.iter().take_while(|b| **b != b' ').count()
}

// What stands behind the spaces at the front.
fn trimmed(s: &[u8]) -> &[u8]
    ensures { result.now ≡ trimmed_of s.now }
{
    let n = spaces(s);
    &s[n..]
}

// The first word; nothing where there is none.
pub fn word(s: &[u8]) -> &[u8]
    ensures { result.now ≡ word_of s.now }
{
    let t = trimmed(s);
    let n = letters(t);
    &t[..n]
}

// What stands behind the first word.
pub fn rest(s: &[u8]) -> &[u8]
    ensures { result.now ≡ rest_of s.now }
{
    let t = trimmed(s);
    let n = letters(t);
    &t[n..]
}

// Are the bytes the same?
// Kept: `==` of a slice and a byte string needs `.as_slice()` at each name.
pub fn same(a: &[u8], b: &[u8]) -> bool
    ensures { result ≡ same_of a.now b.now }
{
    a == b
}

// Are all bytes hexadecimal digits?
fn digits(text: &[u8]) -> bool
    ensures { result ≡ list_all (λ b. not (digit_of b == 16)) text.now }
{
    text.iter().all(|b| digit(*b) != 16)
}

// Is the word `-`, which stands for no bytes?
pub fn is_none(text: &[u8]) -> bool
    ensures { result ≡ is_none text.now }
{
    matches!(text, [b'-'])
}

// Does the word stand for bytes: `-`, or two digits for each byte?
#[tactic(auto, using(crate::proofs::Texts::all_is))]
pub fn is_bytes(text: &[u8]) -> bool
    ensures { result ≡ is_bytes text.now }
{
    is_none(text) || (!text.is_empty() && text.len() % 2 == 0 && digits(text))
}

// The byte of two digits. Of a byte that is no digit the low four bits are taken.
fn pair(high: u8, low: u8) -> u8
    ensures { result ≡ byte_of high low }
{
    digit(high) % 16 * 16 + digit(low) % 16
}

// Puts the bytes of a word at the front of `out`, as many as find place, and answers how many. The bytes behind them stay.
pub fn decode(text: &[u8], out: &mut [u8]) -> usize
    ensures prefix_len { IsPrefixLen result out.new }
    ensures value { result ≡ min (length text.now / 2) (length out.old) }
    ensures out_after { take result out.new ≡ take result (bytes_of text.now) }
    ensures out_unchanged { drop result out.new ≡ drop result out.old }
{
    let n = (text.len() / 2).min(out.len());
    for i in 0..n {
        out[i] = pair(text[2 * i], text[2 * i + 1]);
    }
    n
}

// Puts two digits for each byte at the front of `out`, as many as find place, and answers how many. The bytes behind them stay.
pub fn encode(bytes: &[u8], out: &mut [u8]) -> usize
    ensures prefix_len { IsPrefixLen result out.new }
    ensures value { result ≡ 2 * min (length bytes.now) (length out.old / 2) }
    ensures out_after { take result out.new ≡ take result (digits_of bytes.now) }
    ensures out_unchanged { drop result out.new ≡ drop result out.old }
{
    let n = bytes.len().min(out.len() / 2);
    for (i, b) in bytes[..n].iter().enumerate() {
        out[2 * i] = glyph(*b / 16);
        out[2 * i + 1] = glyph(*b % 16);
    }
    2 * n
}

// The number that stands for a text of decimal digits, where it is at most `most`.
pub fn decimal(text: &[u8], most: u64) -> Option<u64>
    ensures value { result ≡ number_of most text.now }
    ensures within { IfSome result (λ n. n ≤ most) }
{
    if text.is_empty() {
        return None;
    }
    let mut v = 0;
    for b in text {
        let d = digit(*b) as u64;
        if d > 9 || d > most || v > (most - d) / 10 {
            return None;
        }
        v = v * 10 + d;
    }
    Some(v)
}

// Puts a byte behind the `used` bytes of a line, and answers how many are used then: one more than there are places where the line is too long, which then stays.
pub fn put(line: &mut [u8], used: usize, b: u8) -> usize
    ensures value { result ≡ cond (ltb used (length line.old)) (used + 1) (length line.old + 1) }
    ensures line_after { line.new ≡ set line.old used b }
{
    if used < line.len() {
        line[used] = b;
        used + 1
    } else {
        line.len() + 1
    }
}
