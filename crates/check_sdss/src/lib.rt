// Whether the table of SDSs is as it would be written, and each is alone with its name.
#![tactic(auto)]

ghost use Rattle.std.specs.Prelude.{◌≡◌, true, ℕ, ◌<◌, length, MatchOption};
ghost use Rattle.rules.specs.02-Limits.{limits};
ghost use Rattle.rules.specs.03-Names.{same_name};
ghost use Rattle.rules.specs.04-Schema.{used_sds};
ghost use Rattle.rules.specs.07-Picture.{base_length};
ghost use Rattle.rows.specs.Decides.{Decides};
ghost use Rattle.rows.specs.Order.{NameBytes};
ghost use Rattle.base.specs.Rows.{sds_at};
ghost use Rattle.base.specs.Back.{schema_of};
ghost use Rattle.check_held.specs.Fine.{SdssFine};
ghost use Rattle.check_sdss.specs.Fields.{fine_field, FieldsFine, first_half, UnlikeEarlier, Alone, Seen, SeenWith};

use base::Base;
use rules::Limits;

fn sds_field_fine(base: &[u8], d: usize) -> bool
    requires { (length base.now ≡ base_length) × (d < limits.sdss) }
    ensures { result ≡ fine_field base.now d }
{
    let field = base::sds_field(base, d);
    name_fields::is_blank_field(field) || name_fields::is_name_field(field)
}

fn sds_fields_fine(base: &[u8]) -> bool
    requires { length base.now ≡ base_length }
    ensures { Decides (FieldsFine base.now) result }
{
    (0..Limits::SDSS).all(|d| sds_field_fine(base, d))
}

// Whether the names in two fields are the same: by eight bytes at once, since no byte is there that a name has not.
fn are_same(a: &[u8], b: &[u8]) -> bool
    requires { NameBytes a.now × NameBytes b.now }
    ensures { result ≡ same_name a.now b.now }
{
    rows::order::folded(a, 0) == rows::order::folded(b, 0)
        && rows::order::folded(a, 8) == rows::order::folded(b, 8)
}

// Whether no SDS before d has the name of SDS d.
fn unlike_earlier(base: &[u8], d: usize) -> bool
    requires base_len { (length base.now ≡ base_length) × (d < limits.sdss) }
    requires fields_fine { FieldsFine base.now }
    ensures { Decides (UnlikeEarlier base.now d) result }
{
    for e in 0..d {
        if are_same(base::sds_field(base, d), base::sds_field(base, e)) {
            return false;
        }
    }
    true
}

// The same, where `first` is the first half of the name: names are compared only where its mark was seen before.
fn is_new(base: &[u8], d: usize, first: u64, seen: u64) -> bool
    requires base_len { (length base.now ≡ base_length) × (d < limits.sdss) }
    requires fields_fine { FieldsFine base.now }
    requires d_value { (used_sds (schema_of base.now) d ≡ true) × ((first ≡ first_half base.now d) × Seen base.now d seen) }
    ensures { Decides (UnlikeEarlier base.now d) result }
{
    (seen >> (first % 61)) & 1 != 1 || unlike_earlier(base, d)
}

// The marks seen, with that of SDS d if it is used, and none where an SDS before it has its name. A mark is what the first half of a name
// leaves, divided by 61: a bit of one word. The name is read at `at`: by d, as its first byte is, it would be read byte by byte.
fn seen_with(base: &[u8], d: usize, at: usize, seen: u64) -> Option<u64>
    requires base_len { (length base.now ≡ base_length) × ((d < limits.sdss) × (at ≡ sds_at d)) }
    requires fields_fine { FieldsFine base.now }
    requires seen { Seen base.now d seen }
    ensures { MatchOption result (Alone base.now d → ⊥) (λ with. SeenWith base.now d with) }
{
    if !lookup::sdss::is_sds(base, d) {
        return Some(seen);
    }
    let first = rows::order::folded(base, at);
    if !is_new(base, d, first, seen) {
        return None;
    }
    Some(seen | (1u64 << (first % 61)))
}

fn names_differ(base: &[u8]) -> bool
    requires { (length base.now ≡ base_length) × FieldsFine base.now }
    ensures { Decides ((d : ℕ) → d < limits.sdss → Alone base.now d) result }
{
    let mut seen = 0;
    // carried beside d, as `seen_with` asks for it
    let mut at = Base::SDSS_AT;
    for d in 0..Limits::SDSS {
        let Some(with) = seen_with(base, d, at, seen) else {
            return false;
        };
        seen = with;
        at += Base::SDS_WIDTH;
    }
    true
}

pub fn sdss_fine(base: &[u8]) -> bool
    requires { length base.now ≡ base_length }
    ensures { Decides (SdssFine base.now) result }
{
    sds_fields_fine(base)
        && names_differ(base)
        && names::is_equal(base::sds_field(base, 0), b"system\0\0\0\0\0\0\0\0\0\0")
}
