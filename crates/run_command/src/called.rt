// SDSs by name.
ghost use Rattle.std.specs.Prelude.{◌≡◌, ◌≤◌, ◌<◌, length};
ghost use Rattle.rules.specs.02-Limits.{limits};
ghost use Rattle.rules.specs.07-Picture.{base_length};
ghost use Rattle.rules.specs.14-Run.{sds_called};
ghost use Rattle.base.specs.Back.{schema_of};
ghost use Rattle.run_command.specs.Called.{called};

use rules::Limits;

// Whether SDS d bears the name.
fn is_called(base: &[u8], d: usize, name: &[u8]) -> bool
    requires { (length base.now ≡ base_length) × (d < limits.sdss) }
    ensures { result ≡ called (schema_of base.now) name.now d }
{
    lookup::sdss::is_sds(base, d) && names::is_same(lookup::sdss::sds_name(base, d), name)
}

// The number of the SDS that bears the name. No Option: 01 has it that an unknown one counts as number 16.
pub fn sds_called(base: &[u8], name: &[u8]) -> usize
    requires { length base.now ≡ base_length }
    ensures { (result ≡ sds_called (schema_of base.now) name.now) × (result ≤ 16) }
{
    for d in 0..Limits::SDSS {
        if is_called(base, d, name) {
            return d;
        }
    }
    Limits::SDSS
}
