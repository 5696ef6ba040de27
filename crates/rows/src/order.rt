// The order of rows by keys of 17 bytes, eight bytes at a time, without regard to case.
ghost use Rattle.std.specs.Prelude.{◌≡◌, ◌+◌, ◌≤◌, true, length};
ghost use Rattle.rules.specs.01-Lists.{bytes_before};
ghost use Rattle.rows.specs.Rows.{part};
ghost use Rattle.rows.specs.Order.{folded, number, numbers_of, Low, LowName, Keyed, Folded};

use super::eight;

// The 17 bytes of a presence that are compared: its SDS, and its name, less its case, in two numbers. They are compared in this order.
#[derive(Clone, Copy, PartialEq, Eq, PartialOrd, Ord)]
pub struct Key {
    pub sds: u8,
    pub first: u64,
    pub second: u64,
}

// Eight bytes as one number, the first of them highest.
fn word(base: &[u8], at: usize) -> u64
    requires { at + 8 ≤ length base.now }
    ensures { result ≡ number 0 (part base.now at 8) }
{
    u64::from_be_bytes(eight(base, at))
}

pub fn are_eight_same(base: &[u8], a: usize, c: usize) -> bool
    requires { (a + 8 ≤ length base.now) × (c + 8 ≤ length base.now) }
    ensures { result ≡ true → part base.now a 8 ≡ part base.now c 8 }
{
    eight(base, a) == eight(base, c)
}

// Eight bytes less their case. One more brings the underscore from right before the small letters to where the mask takes it before all
// letters, as it stands in lower case; bytes that no name has may fall together, and from 128 on carry into the next.
fn fold8(w: u64) -> u64
    ensures { Folded w result }
{
    w.wrapping_add(0x0101_0101_0101_0101) & 0x5f5f_5f5f_5f5f_5f5f
}

pub fn folded(base: &[u8], at: usize) -> u64
    requires { (at + 8 ≤ length base.now) × Low (part base.now at 8) }
    ensures { result ≡ number 0 (folded (part base.now at 8)) }
{
    fold8(word(base, at))
}

pub fn key_at(base: &[u8], at: usize) -> Key
    requires { (at + 17 ≤ length base.now) × LowName base.now at }
    ensures { Keyed base.now at result }
{
    Key {
        sds: base[at],
        first: folded(base, at + 1),
        second: folded(base, at + 9),
    }
}

pub fn key_before(a: Key, b: Key) -> bool
    ensures { result ≡ bytes_before (numbers_of a) (numbers_of b) }
{
    a < b
}
