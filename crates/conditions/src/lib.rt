// The conditions under which the changing calls refuse, each decided.
#![tactic(auto)]

pub mod aimed;

ghost use Rattle.std.specs.Prelude.{◌≡◌, ◌<◌, eqb, length, IfSome};
ghost use Rattle.std.specs.Option.{unwrap_or};
ghost use Rattle.rules.specs.01-Lists.{any};
ghost use Rattle.rules.specs.02-Limits.{limits};
ghost use Rattle.rules.specs.04-Schema.{present, is_parent, applied, has_end};
ghost use Rattle.rules.specs.07-Picture.{Sound, base_length};
ghost use Rattle.rules.specs.Read.{read_side};
ghost use Rattle.base.specs.Back.{schema_of};
ghost use Rattle.conditions.specs.Reverse.{ReverseOf};

use base::Base;

// ---- types

// Whether a is a parent of type t.
pub fn is_parent(base: &[u8], t: usize, a: usize) -> bool
    requires { Sound base.now × (t < limits.types) }
    ensures { result ≡ is_parent (schema_of base.now) t a }
{
    for i in 0..base::parent_count(base, t) {
        if base::parent(base, t, i) == a {
            return true;
        }
    }
    false
}

// The reverse of type t, if it has one.
pub fn reverse_of(base: &[u8], t: usize) -> Option<usize>
    requires { Sound base.now × (t < limits.types) }
    ensures reverse { ReverseOf (schema_of base.now) t (unwrap_or result limits.types) }
    ensures below { IfSome result (λ r. r < limits.types) }
{
    if base::kind(base, t) != Base::LINK {
        return None;
    }
    if base::value(base, t) == Base::DESIGNATION {
        return None;
    }
    Some(base::reverse(base, t))
}

// ---- presences

// Whether type t is in SDS d.
pub fn is_present(base: &[u8], d: usize, t: usize) -> bool
    requires { length base.now ≡ base_length }
    ensures { result ≡ present (schema_of base.now) d t }
{
    lookup::presences::presence_row(base, d, t).is_some()
}

// Whether type t is in some SDS.
pub fn is_elsewhere(base: &[u8], t: usize) -> bool
    requires { length base.now ≡ base_length }
    ensures { result ≡ any (λ p. eqb p.type t) (schema_of base.now).presences }
{
    for i in 0..base::used::presence_count(base) {
        if base::presence_type(base, i) == t {
            return true;
        }
    }
    false
}

// ---- applications

pub fn is_applied(base: &[u8], d: usize, t: usize, a: usize) -> bool
    requires { length base.now ≡ base_length }
    ensures { result ≡ applied (schema_of base.now) d t a }
{
    lookup::applications::application_row(base, d, t, a).is_some()
}

// ---- ends

pub fn is_end(base: &[u8], d: usize, l: usize, side: usize, o: usize) -> bool
    requires sound { Sound base.now }
    requires d_bound { (d < 256) × ((l < 256) × ((side < 2) × (o < 256))) }
    ensures { result ≡ has_end (schema_of base.now) d l (read_side side) o }
{
    lookup::ends::end_row(base, d, l, side, o).is_some()
}
