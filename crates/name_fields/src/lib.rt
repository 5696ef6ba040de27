// The name in a field of a fixed width: its bytes, and zeros behind them.
#![tactic(auto)]

ghost use Rattle.std.specs.Prelude.{◌≡◌, ◌+◌, ◌-◌, ◌≤◌, length, if◌then◌else◌, ◌==◌, nat_eq, nat_lt};
ghost use Rattle.name_fields.specs.Field.{name_field, blank_field, Stripped, may_follow, following, field_byte, may_stand, Gathered};

use rules::Limits;

// How many bytes of a field are the name: those before its first zero.
pub fn name_length(field: &[u8]) -> usize
    ensures { Stripped field.now result }
{
    field.iter().position(|&c| c == 0).unwrap_or(field.len())
}

// Whether byte c may stand behind byte `last` of a field, which is a space before the first one: a name begins with a letter, and
// behind its first zero are only zeros. Made of comparisons alone, so that the loop below makes sixteen at once.
fn may_follow(last: u8, c: u8) -> bool
    ensures { result ≡ may_follow last c }
{
    let letter = ((b'A' <= c) & (c <= b'Z')) | ((b'a' <= c) & (c <= b'z'));
    let word = letter | (((b'0' <= c) & (c <= b'9')) | (c == b'_'));
    let begun = (last != 0) & ((last != b' ') | letter);
    (word & begun) | ((c == 0) & (last != b' '))
}

// Whether each byte of a field of 16 may follow the one before it, and the first one byte `before`. Every byte is read: with no way out of
// the loop, and a length that is known, the compiler reads them at once.
fn follows(field: &[u8], before: u8) -> bool
    requires { length field.now ≡ 16 }
    ensures { result ≡ following before field.now }
{
    let mut fine = true;
    let mut last = before;
    for &c in &field[..Limits::NAME] {
        fine &= may_follow(last, c);
        last = c;
    }
    fine
}

// Whether a field of 16 bytes holds a well-formed name and zeros behind it.
pub fn is_name_field(field: &[u8]) -> bool
    requires { length field.now ≡ 16 }
    ensures { result ≡ name_field field.now }
{
    follows(field, b' ')
}

// ---- a field that may hold a name or none, with whatever stands before it

// 0 where byte c can stand in a field: how far it is from the nearest byte that can, roughly. Made of what a machine does with sixteen
// bytes at once.
fn strangeness(c: u8) -> u8
    ensures { (result == 0) ≡ field_byte c }
{
    let letter = (c | 32).wrapping_sub(b'a').saturating_sub(25);
    let digit = c.wrapping_sub(b'0').saturating_sub(9);
    letter.min(digit).min(c.min(c ^ b'_'))
}

// What stands behind a zero.
fn behind_zero(last: u8, c: u8) -> u8
    ensures { result ≡ (if nat_eq last 0 then c else 0) }
{
    if last == 0 { c } else { 0 }
}

// What is wrong with byte c behind byte `last`: 0 where nothing is.
fn fault(last: u8, c: u8) -> u8
    ensures { (result == 0) ≡ may_stand last c }
{
    strangeness(c) | behind_zero(last, c)
}

// Gathers what is wrong with the 16 bytes behind the one at `at`, each in its own fault: such that a field cannot hold, or not zero behind a
// zero. The faults are looked at when all rows are passed: so no row needs a test, and the compiler keeps sixteen in one register. The byte
// before a byte is read again, and not kept: so it reads sixteen of either kind at once.
pub fn gather(base: &[u8], at: usize, faults: &mut [u8])
    requires { (at + 17 ≤ length base.now) × (length faults.old ≡ 16) }
    ensures { Gathered base.now at faults.old faults.new }
{
    for i in 0..Limits::NAME {
        faults[i] |= fault(base[at + i], base[at + i + 1]);
    }
}

// Whether a field of any length is zero. No way out of this loop either.
pub fn is_blank_field(field: &[u8]) -> bool
    ensures { result ≡ blank_field field.now }
{
    let mut bits: u8 = 0;
    for &c in field {
        bits |= c;
    }
    bits == 0
}
