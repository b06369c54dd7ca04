// The reader of records: a slice and a position in it. A step (`next`) takes the struct apart and calls `record_at` on the slice and the position; `read_records` and `scan` move the reader.
#![tactic(auto)]

ghost use Rattle.std.specs.Prelude.{◌≡◌, ◌≤◌, ◌+◌, ◌*◌, length};
ghost use Rattle.scanner.specs.Scan.{record_at, RecordsRead, AllRead};

use records::number;

// A reader of records: the bytes, and the position of the next record.
#[derive(Clone, Copy)]
pub struct Reader<'a> {
    pub src: &'a [u8],
    pub at: usize,
}

// What is known once a record has been read: whether its mark, or one before it, is wrong; its body; and the position behind it.
// Kept: `wrong`, here and in `End`, is what a test found, beside values that are always there.
#[derive(Clone, Copy)]
pub struct Record {
    pub wrong: bool,
    pub body: u64,
    pub next: usize,
}

// What is known once all records have been read: whether a mark is wrong, and the position behind the last.
#[derive(Clone, Copy)]
pub struct End {
    pub wrong: bool,
    pub at: usize,
}

// The work of a step, on the slice and the position: a record of a mark and a body of `w` bytes.
pub fn record_at(s: &[u8], at: usize, w: usize, mark: u64, wrong: bool) -> Record
    requires { (w ≤ 8) × (at + (2 + w) ≤ length s.now) }
    ensures { result ≡ record_at s.now at w mark wrong }
{
    let found = number::field(s, at, 2);
    let body = number::field(s, at + 2, w);
    let size = 2 + w;
    Record {
        wrong: wrong || found != mark,
        body,
        next: at + size,
    }
}

// A step: the record at the reader's position.
pub fn next<'a>(r: Reader<'a>, w: usize, mark: u64, wrong: bool) -> Record
    requires { (w ≤ 8) × (r.at + (2 + w) ≤ length r.src.now) }
    ensures { result ≡ record_at r.entry.src.now r.entry.at w mark wrong }
{
    record_at(r.src, r.at, w, mark, wrong)
}

// Steps a reader through records of one kind, one for each place of `out`, which takes its body. Each step moves the reader behind the record that it read.
pub fn read_records<'a>(mut r: Reader<'a>, w: usize, mark: u64, wrong: bool, out: &mut [u64]) -> End
    requires { (w ≤ 8) × (r.at + (2 + w) * length out.old ≤ length r.src.now) }
    ensures { RecordsRead r.entry.src.now r.entry.at w mark wrong (length out.old) result out.new }
{
    let mut end = End { wrong, at: r.at };
    for place in out.iter_mut() {
        let x = next(r, w, mark, end.wrong);
        *place = x.body;
        r.at = x.next;
        end = End {
            wrong: x.wrong,
            at: x.next,
        };
    }
    end
}

// Reads all records behind the head of a list or a plan, one after another: one reader over the bytes, which goes through the groups and on through the sites or shares. A list has no groups.
pub fn scan(
    s: &[u8],
    from: usize,
    group: u64,
    groups: &mut [u64],
    w: usize,
    mark: u64,
    out: &mut [u64],
) -> End
    requires { (w ≤ 8) × (from + 10 * length groups.old + (2 + w) * length out.old ≤ length s.now) }
    ensures { AllRead s.now from group (length groups.old) w mark (length out.old) result groups.new out.new }
{
    let mut r = Reader { src: s, at: from };
    let g = read_records(r, 8, group, false, groups);
    r.at = g.at;
    read_records(r, w, mark, g.wrong, out)
}
