// Types: the kind of one by its number, and the lowest number that is free.
ghost use Rattle.std.specs.Prelude.{◌≡◌, ◌<◌, eqb, length, IfSome};
ghost use Rattle.std.specs.Option.{unwrap_or};
ghost use Rattle.rules.specs.02-Limits.{limits};
ghost use Rattle.rules.specs.04-Schema.{kind_of, kind_code};
ghost use Rattle.rules.specs.07-Picture.{Sound, base_length};
ghost use Rattle.base.specs.Back.{schema_of};
ghost use Rattle.lookup.specs.Found.{FreeType};

use base::Base;
use rules::Limits;

// Whether type t is of the kind with that code: 1 object, 2 attribute, 3 link.
pub fn is_kind(base: &[u8], t: usize, code: usize) -> bool
    requires { (length base.now ≡ base_length) × ((0 < code) × (code < 4)) }
    ensures { result ≡ eqb (kind_code (kind_of (schema_of base.now) t)) code }
{
    t < Limits::TYPES && base::kind(base, t) == code
}

// The lowest number from `from` on that no type has.
pub fn free_type(base: &[u8], from: usize) -> Option<usize>
    requires { Sound base.now }
    ensures lowest { FreeType (schema_of base.now) from (unwrap_or result limits.types) }
    ensures below { IfSome result (λ t. t < limits.types) }
{
    for t in from..Limits::TYPES {
        if base::kind(base, t) == Base::UNUSED {
            return Some(t);
        }
    }
    None
}
