// Numbers as bytes, low byte first.
ghost use Rattle.std.specs.Prelude.{◌≡◌, ◌≤◌, ◌+◌, length, take, drop};
ghost use Rattle.records.specs.Bytes.{le, Value};

// The number that the bytes of `s` stand for.
pub fn value(s: &[u8]) -> u64
    requires { length s.now ≤ 8 }
    ensures { Value s.now result }
{
    let mut v: u64 = 0;
    for b in s.iter().rev() {
        v = v * 256 + u64::from(*b);
    }
    v
}

// Numbers of one, two, four, six and eight bytes at a place of `s`.
// Kept: a function for each width of an edition, so that none is read by a loop at run time.
fn one(s: &[u8], at: usize) -> u64
    requires { at + 1 ≤ length s.now }
    ensures { Value (take 1 (drop at s.now)) result }
{
    s[at] as u64
}

fn two(s: &[u8], at: usize) -> u64
    requires { at + 2 ≤ length s.now }
    ensures { Value (take 2 (drop at s.now)) result }
{
    one(s, at) + 256 * one(s, at + 1)
}

fn four(s: &[u8], at: usize) -> u64
    requires { at + 4 ≤ length s.now }
    ensures { Value (take 4 (drop at s.now)) result }
{
    two(s, at) + 65536 * two(s, at + 2)
}

fn six(s: &[u8], at: usize) -> u64
    requires { at + 6 ≤ length s.now }
    ensures { Value (take 6 (drop at s.now)) result }
{
    four(s, at) + 4294967296 * two(s, at + 4)
}

fn eight(s: &[u8], at: usize) -> u64
    requires { at + 8 ≤ length s.now }
    ensures { Value (take 8 (drop at s.now)) result }
{
    four(s, at) + 4294967296 * four(s, at + 4)
}

// The number of `w` bytes at a place of `s`.
pub fn field(s: &[u8], at: usize, w: usize) -> u64
    requires { (w ≤ 8) × (at + w ≤ length s.now) }
    ensures { Value (take w (drop at s.now)) result }
{
    if w == 4 {
        return four(s, at);
    }
    if w == 2 {
        return two(s, at);
    }
    if w == 8 {
        return eight(s, at);
    }
    if w == 6 {
        return six(s, at);
    }
    value(&s[at..at + w])
}

// Fills `out` with the low bytes of `x`.
pub fn put(out: &mut [u8], x: u64)
    ensures { out.new ≡ le (length out.old) x }
{
    let mut rest = x;
    for b in out.iter_mut() {
        *b = (rest % 256) as u8;
        rest /= 256;
    }
}
