// SDSs: by their number, by their name, and the lowest number that is free.
ghost use Rattle.std.specs.Prelude.{◌≡◌, true, ◌<◌, length, IfSome};
ghost use Rattle.std.specs.Option.{unwrap_or};
ghost use Rattle.rules.specs.02-Limits.{limits};
ghost use Rattle.rules.specs.03-Names.{well_formed};
ghost use Rattle.rules.specs.04-Schema.{sds_name, used_sds};
ghost use Rattle.rules.specs.07-Picture.{base_length};
ghost use Rattle.rules.specs.09-Refusals.{sds_name_taken};
ghost use Rattle.base.specs.Back.{schema_of};
ghost use Rattle.lookup.specs.Found.{FreeSds};

use rules::Limits;

// Whether d is the number of an SDS: its name has a first byte.
pub fn is_sds(base: &[u8], d: usize) -> bool
    requires { length base.now ≡ base_length }
    ensures { result ≡ used_sds (schema_of base.now) d }
{
    d < Limits::SDSS && base::sds_field(base, d)[0] != 0
}

// The name of an SDS, blank where the number is unused.
pub fn sds_name(base: &[u8], d: usize) -> &[u8]
    requires { (length base.now ≡ base_length) × (d < limits.sdss) }
    ensures { result.now ≡ sds_name (schema_of base.now) d }
{
    let field = base::sds_field(base, d);
    &field[..name_fields::name_length(field)]
}

pub fn has_sds_named(base: &[u8], name: &[u8]) -> bool
    requires { (length base.now ≡ base_length) × (well_formed name.now ≡ true) }
    ensures { result ≡ sds_name_taken (schema_of base.now) name.now }
{
    for d in 0..Limits::SDSS {
        if names::is_same(sds_name(base, d), name) {
            return true;
        }
    }
    false
}

// The lowest number that no SDS has.
pub fn free_sds(base: &[u8]) -> Option<usize>
    requires { length base.now ≡ base_length }
    ensures lowest { FreeSds base.now (unwrap_or result limits.sdss) }
    ensures below { IfSome result (λ d. d < limits.sdss) }
{
    for d in 0..Limits::SDSS {
        if !is_sds(base, d) {
            return Some(d);
        }
    }
    None
}
