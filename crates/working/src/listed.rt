// What a list of SDSs is asked before it is used, and its SDSs as one word, a bit each.
ghost use Rattle.std.specs.Prelude.{◌≡◌, ℕ, ◌<◌, length, get_or};
ghost use Rattle.rules.specs.01-Lists.{any, among, repeated};
ghost use Rattle.rules.specs.02-Limits.{limits};
ghost use Rattle.rules.specs.07-Picture.{base_length};
ghost use Rattle.rules.specs.09-Refusals.{unknown_sds};
ghost use Rattle.base.specs.Back.{schema_of};
ghost use Rattle.type_set.specs.Set.{bit};

use type_set::TypeSet;

// ---- what refuses a list

// Whether some number of the list is no SDS's.
pub fn has_unknown(base: &[u8], schema: &[u8]) -> bool
    requires { length base.now ≡ base_length }
    ensures { result ≡ any (unknown_sds (schema_of base.now)) schema.now }
{
    schema
        .iter()
        .any(|&d| !lookup::sdss::is_sds(base, usize::from(d)))
}

// Whether an SDS is listed twice.
pub fn has_repeated(schema: &[u8]) -> bool
    requires { (i : ℕ) → i < length schema.now → get_or schema.now i 0 < 128 }
    ensures { result ≡ repeated schema.now }
{
    let mut met = TypeSet::empty();
    for &d in schema {
        let d = usize::from(d);
        if met.test(d) {
            return true;
        }
        met = met.add(d);
    }
    false
}

// ---- what it lists

// The SDSs of the list.
pub fn listed(schema: &[u8]) -> u16
    requires { (i : ℕ) → i < length schema.now → get_or schema.now i 0 < limits.sdss }
    ensures { (k : ℕ) → bit result k ≡ among schema.now k }
{
    let mut sdss: u16 = 0;
    for &d in schema {
        sdss |= 1u16 << d;
    }
    sdss
}

// Whether SDS d is in the word.
pub fn lists(sdss: u16, d: usize) -> bool
    requires { d < limits.sdss }
    ensures { result ≡ bit sdss d }
{
    (sdss >> d) & 1 == 1
}
