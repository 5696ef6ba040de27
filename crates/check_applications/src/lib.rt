// Whether the applications of a base are fine: what their numbers may be, and then each row, in one pass over them.
#![tactic(auto)]

ghost use Rattle.std.specs.Prelude.{◌≡◌, ◌+◌, ◌≤◌, ◌<◌, length};
ghost use Rattle.rules.specs.02-Limits.{limits};
ghost use Rattle.rules.specs.07-Picture.{base_length, application_width};
ghost use Rattle.rows.specs.Rows.{Halved};
ghost use Rattle.rows.specs.Decides.{Decides};
ghost use Rattle.base.specs.Tables.{applications};
ghost use Rattle.check_held.specs.Fine.{ApplicationsFine, Shown};
ghost use Rattle.check_applications.specs.Applied.{Low, Bounded, Numbered, BothHeld, RowDecided};

use base::Base;
use rules::Limits;

// Whether each byte from `from` on, up to `end`, is below 128. With no way out of the loop the compiler reads many at once.
fn are_low(base: &[u8], from: usize, end: usize) -> bool
    requires { (from ≤ end) × (end ≤ length base.now) }
    ensures { Decides (Low base.now from end) result }
{
    let mut bits = 0;
    for b in &base[from..end] {
        bits |= b;
    }
    bits < 128
}

// Whether no row tells a type past the last one, and the last row no such SDS: where rows rise, no other does.
fn numbers_fine(base: &[u8], n: usize) -> bool
    requires { (length base.now ≡ base_length) × (n ≤ limits.applications) }
    ensures { Decides (Bounded base.now n) result }
{
    n == 0
        || base::application_sds(base, n - 1) < Limits::SDSS
            && are_low(
                base,
                Base::APPLICATIONS_AT,
                Base::APPLICATIONS_AT + n * Base::APPLICATION_WIDTH,
            )
}

// The number of row i, and the byte behind it: of four bytes the compiler makes one load.
fn numbered(base: &[u8], i: usize) -> usize
    requires { (length base.now ≡ base_length) × (i < limits.applications) }
    ensures { Numbered base.now i result }
{
    base::order::application_number(base, i) * 256
        + rows::byte(
            base,
            Base::APPLICATIONS_AT + i * Base::APPLICATION_WIDTH + Base::APPLICATION_WIDTH,
        )
}

// Whether SDS d holds both types; for one past the last any answer will do. In a word of 32 bits one instruction finds the bit.
fn holds_both(held: &[u16], d: usize, to: usize, attribute: usize) -> bool
    requires { (length held.now ≡ limits.types) × ((to < limits.types) × (attribute < limits.types)) }
    ensures { BothHeld held.now d to attribute result }
{
    (u32::from(held[to] & held[attribute]) >> (d % 32)) & 1 == 1
}

// A type that an SDS holds is used: where an attribute type is applied to no attribute type, this is an object or link type. The row is
// read by its offset: the compiler would take its number apart again if both were read in one way.
fn application_fine(base: &[u8], at: usize, held: &[u16]) -> bool
    requires shown { Shown base.now held.now }
    requires application_width_bound { (at + application_width ≤ base_length) × Low base.now at (at + application_width) }
    ensures { RowDecided base.now at result }
{
    let d = rows::byte(base, at);
    let to = rows::byte(base, at + Base::TO_OFFSET);
    let attribute = rows::byte(base, at + Base::ATTRIBUTE_OFFSET);
    holds_both(held, d, to, attribute)
        && base::kind(base, attribute) == Base::ATTRIBUTE
        && base::kind(base, to) != Base::ATTRIBUTE
}

// The n rows, found by halving, are all that is used; each is fine by itself and has a higher number than the one before it.
pub fn applications_fine(base: &[u8], n: usize, held: &[u16]) -> bool
    requires shown { Shown base.now held.now }
    requires halved { Halved base.now applications.start applications.width limits.applications n }
    ensures { Decides (ApplicationsFine base.now) result }
{
    if !base::used::no_application_from(base, n) || !numbers_fine(base, n) {
        return false;
    }
    // the highest number that a row of SDS 0 could have, which has none; the byte behind a row counts for nothing
    let mut before: usize = 65535 * 256;
    // carried beside i, as `application_fine` asks for it
    let mut at = Base::APPLICATIONS_AT;
    for i in 0..n {
        let number = numbered(base, i);
        if number <= before / 256 * 256 + 255 || !application_fine(base, at, held) {
            return false;
        }
        before = number;
        at += Base::APPLICATION_WIDTH;
    }
    true
}
