// The edition of a list.
ghost use Rattle.std.specs.Prelude.{◌≡◌};
ghost use Rattle.records.specs.Format.{edition_of};

use records::number::field;
use records::{Edition, edition1, edition2};

// The edition that the first two bytes of a list name.
pub fn edition_of(s: &[u8]) -> Edition
    ensures { result ≡ edition_of s.now }
{
    if s.len() < 2 {
        return edition1();
    }
    if field(s, 0, 2) == 0x324C {
        return edition2();
    }
    edition1()
}
