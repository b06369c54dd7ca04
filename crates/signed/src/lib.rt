// Lengths and rows as the signed numbers that C functions answer.
#![tactic(auto)]

ghost use Rattle.std.specs.Prelude.{◌≡◌, ◌<◌, ◌^◌, pos, neg_ℤ};

// A length, as a signed number.
pub fn length(n: usize) -> i64
    requires { n < 2 ^ 63 }
    ensures { result ≡ pos n }
{
    n as i64
}

// A row's number with a minus sign.
pub fn refused(n: u8) -> i64
    ensures { result ≡ neg_ℤ (pos n) }
{
    0 - length(n as usize)
}
