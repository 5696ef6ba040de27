// Whether the presences are as they would be written, in order, each in an SDS and with a name, or of an object type, and none twice: in
// two passes, one over names, types and modes, and one over the rows' order, in which is gathered which SDSs hold each type.
#![tactic(auto)]

ghost use Rattle.std.specs.Prelude.{◌≡◌, true, false, ℕ, ◌+◌, ◌≤◌, ◌<◌, length, replicate};
ghost use Rattle.rules.specs.02-Limits.{limits};
ghost use Rattle.rules.specs.04-Schema.{used_sds};
ghost use Rattle.rules.specs.07-Picture.{base_length, presence_width};
ghost use Rattle.rows.specs.Order.{Keyed};
ghost use Rattle.rows.specs.Decides.{Decides};
ghost use Rattle.base.specs.Rows.{presence_at};
ghost use Rattle.base.specs.Back.{schema_of};
ghost use Rattle.check_presences.specs.Rows.{SystemFirst};
ghost use Rattle.check_presences.specs.Fields.{tail_of, FieldFine, ByItself, FieldsTold};
ghost use Rattle.check_presences.specs.Floor.{Bottom, Last, Under, above, Follows, Begun, RowPassed, GoesOn};
ghost use Rattle.check_presences.specs.Gathered.{bits_in, RowsGathered};

use base::Base;
use rows::order::Key;
use rules::Limits;

// Whether the first of n presences is that of a fresh base, and no other is in SDS 0.
pub fn system_first(base: &[u8], n: usize) -> bool
    requires { (length base.now ≡ base_length) × (n ≤ limits.presences) }
    ensures { Decides (SystemFirst base.now n) result }
{
    n != 0
        && base::presence_sds(base, 0) == 0
        && base::presence_type(base, 0) == 0
        && names::is_equal(base::presence_field(base, 0), b"object\0\0\0\0\0\0\0\0\0\0")
        && base::presence_usage(base, 0) == Base::ALL_MODES
        && base::presence_definition(base, 0) == Base::ALL_MODES
        && (n == 1 || base::presence_sds(base, 1) != 0)
}

// ---- names, types and modes of the rows, each by itself

// The last byte of the name of row i, its type, usage and definition, in one number, the lowest first.
fn tail(base: &[u8], i: usize) -> usize
    requires { (length base.now ≡ base_length) × (i < limits.presences) }
    ensures { result ≡ tail_of base.now i }
{
    let at = Base::PRESENCES_AT + i * Base::PRESENCE_WIDTH + Base::TYPE_OFFSET - 1;
    rows::byte(base, at)
        + 256 * rows::byte(base, at + 1)
        + 65536 * rows::byte(base, at + 2)
        + 16777216 * rows::byte(base, at + 3)
}

// All five modes in either set.
const ALL: usize = Base::ALL_MODES * 16777216 + Base::ALL_MODES * 65536;

// What the modes of all rows are: all five everywhere, or not.
#[derive(Clone, Copy, PartialEq, Eq)]
pub enum Modes {
    All,
    Other,
}

// None where a field of n rows holds what is neither a name, but for its first byte, nor blank, a type is none that there can be, or a mode
// is none of the five. All of it is gathered, and looked at once. In a pass of its own: beside the order of names the compiler would not
// read a field at once.
pub fn fields_told(base: &[u8], n: usize) -> Option<Modes>
    requires base_len { (length base.now ≡ base_length) × (n ≤ limits.presences) }
    requires system_first { SystemFirst base.now n }
    ensures { FieldsTold base.now n result }
{
    let mut faults = [0; Limits::NAME];
    let mut all = ALL;
    let mut any = ALL;
    for i in 1..n {
        name_fields::gather(
            base,
            Base::PRESENCES_AT + i * Base::PRESENCE_WIDTH,
            &mut faults,
        );
        let row = tail(base, i);
        all &= row;
        any |= row;
    }
    if !name_fields::is_blank_field(&faults) {
        return None;
    }
    // The last byte of a name is below 128, as the faults tell too: with it in `tail`, the compiler reads four bytes at once.
    if any & 0xffff_8080 != ALL {
        return None;
    }
    if all & 0xffff_0000 == ALL {
        return Some(Modes::All);
    }
    Some(Modes::Other)
}

// ---- one row behind the other

// What a row is to stand above: the halves, less their case, of the name passed last in an SDS, and the bit of that SDS. Before the first
// name of an SDS they are below every name and above a blank field: so one comparison tells that a row has a name and stands in its
// place.
#[derive(Clone, Copy)]
pub struct Floor {
    pub bit: u16,
    pub first: u64,
    pub second: u64,
}

// The first half of a blank field, less its case.
const BLANK: u64 = 0x0101_0101_0101_0101;

// Right below the first half of every name, which begins with a letter.
const BOTTOM: u64 = 0x41ff_ffff_ffff_ffff;

fn bottom(bit: u16) -> Floor
    ensures { (result.bit ≡ bit) × Bottom result }
{
    Floor {
        bit,
        first: BOTTOM,
        second: u64::MAX,
    }
}

// Of the name that the key is of.
fn named(bit: u16, key: Key) -> Floor
    ensures { (result.bit ≡ bit) × ((result.first ≡ key.first) × (result.second ≡ key.second)) }
{
    Floor {
        bit,
        first: key.first,
        second: key.second,
    }
}

// What row i is to stand above: what row `last` has made, or the bottom of another SDS, which is used and stands behind that of `last`.
fn begun(base: &[u8], last: usize, i: usize, floor: Floor) -> Option<Floor>
    requires base_len { (length base.now ≡ base_length) × ((last < limits.presences) × (i < limits.presences)) }
    requires last { Last base.now last floor }
    ensures { Begun base.now last i result }
{
    let before = base::presence_sds(base, last);
    let d = base::presence_sds(base, i);
    if d == before {
        return Some(floor);
    }
    if d < before || !lookup::sdss::is_sds(base, d) {
        return None;
    }
    Some(bottom(1u16 << d))
}

fn is_above(floor: Floor, key: Key) -> bool
    ensures { result ≡ above floor key }
{
    (floor.first, floor.second) < (key.first, key.second)
}

// Whether row i, which is not above, follows row `last` all the same: as a nameless one, of an object type, and behind nameless ones of
// lower types alone in its SDS.
fn nameless_follows(base: &[u8], last: usize, i: usize, floor: Floor, key: Key) -> bool
    requires base_len { (length base.now ≡ base_length) × ((last < limits.presences) × (i < limits.presences)) }
    requires field_fine { FieldFine base.now last × FieldFine base.now i }
    requires under { Under base.now last i floor × (Keyed base.now (presence_at i) key × (above floor key ≡ false)) }
    ensures { Decides (Follows base.now last i) result }
{
    key.first == BLANK
        && lookup::types::is_kind(base, base::presence_type(base, i), Base::OBJECT)
        && (base::presence_sds(base, last) != base::presence_sds(base, i)
            || floor.first == BOTTOM
                && base::presence_type(base, last) < base::presence_type(base, i))
}

// What the row behind row i is to stand above in its SDS, if row i follows row `last`.
fn compared(base: &[u8], last: usize, i: usize, floor: Floor) -> Option<Floor>
    requires base_len { (length base.now ≡ base_length) × ((last < limits.presences) × (i < limits.presences)) }
    requires field_fine { FieldFine base.now last × FieldFine base.now i }
    requires last { Last base.now last floor }
    ensures { RowPassed base.now last i result }
{
    let under = begun(base, last, i, floor)?;
    let key = base::order::presence_key(base, i);
    if is_above(under, key) {
        return Some(named(under.bit, key));
    }
    if !nameless_follows(base, last, i, under, key) {
        return None;
    }
    Some(bottom(under.bit))
}

// Whether the row at `at` has the SDS of the row at `was`, and in the first half of its name the same bytes, as many neighbours have: then
// the second half tells.
fn goes_on(base: &[u8], was: usize, at: usize, floor: Floor, second: u64) -> bool
    requires { (was + 17 ≤ length base.now) × (at + 17 ≤ length base.now) }
    ensures { result ≡ true → GoesOn base.now was at floor second }
{
    rows::byte(base, was) == rows::byte(base, at)
        && rows::order::are_eight_same(base, was + Base::NAME_OFFSET, at + Base::NAME_OFFSET)
        && floor.second < second
}

// The same as `compared`, for row i at `at`, right behind row `last`. Read by its offset here: were it read by its number too, the compiler
// would read its bytes one by one.
fn passed(base: &[u8], last: usize, i: usize, at: usize, floor: Floor) -> Option<Floor>
    requires base_len { (length base.now ≡ base_length) × ((last < limits.presences) × (i < limits.presences)) }
    requires at_value { (at ≡ presence_at i) × (at ≡ presence_at last + presence_width) }
    requires field_fine { FieldFine base.now last × FieldFine base.now i }
    requires last { Last base.now last floor }
    ensures { RowPassed base.now last i result }
{
    let second = rows::order::folded(base, at + Base::NAME_OFFSET + 8);
    if goes_on(base, at - Base::PRESENCE_WIDTH, at, floor, second) {
        return Some(Floor { second, ..floor });
    }
    compared(base, last, i, floor)
}

// ---- all rows

// How many bits the words have: in a number as wide as they are, so that the compiler counts in eight of them at once.
fn bits_in(held: &[u16]) -> u16
    requires { length held.now ≡ limits.types }
    ensures { result ≡ bits_in held.now }
{
    let mut bits = 0;
    for w in held {
        bits += w.count_ones() as u16;
    }
    bits
}

// Whether n rows, of which the first is that of a fresh base and each is fine by itself, are fine. The words are 0 before. No row is asked
// whether its SDS holds its type already: then there would be fewer bits than rows.
pub fn rows_fine(base: &[u8], n: usize, held: &mut [u16]) -> bool
    requires base_len { (length base.now ≡ base_length) × (n ≤ limits.presences) }
    requires system_first { (SystemFirst base.now n) × (used_sds (schema_of base.now) 0 ≡ true) }
    requires by_index { ((i : ℕ) → i < n → ByItself base.now i) × (held.old ≡ replicate limits.types 0) }
    ensures { RowsGathered base.now n held.new result }
{
    held[0] = 1;
    // as in a fresh base: nothing to count
    if n == 1 {
        return true;
    }
    let mut floor = named(1, base::order::presence_key(base, 0));
    // carried beside i, as `passed` asks for it
    let mut at = Base::PRESENCES_AT + Base::PRESENCE_WIDTH;
    for i in 1..n {
        let Some(made) = passed(base, i - 1, i, at, floor) else {
            return false;
        };
        floor = made;
        held[base::presence_type(base, i)] |= floor.bit;
        at += Base::PRESENCE_WIDTH;
    }
    usize::from(bits_in(held)) == n
}
