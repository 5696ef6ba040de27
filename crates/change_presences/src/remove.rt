// A type removed from an SDS, with its reverse.
ghost use Rattle.std.specs.Prelude.{◌≡◌, [], ◌∷◌, true, ◌<◌, IfSome};
ghost use Rattle.std.specs.Option.{unwrap_or};
ghost use Rattle.rules.specs.02-Limits.{limits};
ghost use Rattle.rules.specs.04-Schema.{present};
ghost use Rattle.rules.specs.07-Picture.{Sound, picture};
ghost use Rattle.rules.specs.09-Refusals.{answered};
ghost use Rattle.rules.specs.10-Changes.{less_gone, less_type, remove_type, remove_number};
ghost use Rattle.rules.specs.12-Contracts.{Kept};
ghost use Rattle.base.specs.Back.{schema_of};
ghost use Rattle.base.specs.Stored.{Stored, Shows};
ghost use Rattle.conditions.specs.Reverse.{ReverseOf};
ghost use Rattle.change_presences.specs.Remove.{HeldOnce, less_presence, removal};

use base::Base;
use rules::{Done, Refused};

// The presence of type t in SDS d goes.
fn take_out(base: &mut [u8], d: usize, t: usize)
    requires stored { Stored base.old }
    requires held_once { HeldOnce (schema_of base.old) d t }
    ensures { Shows base.new (less_presence d t (schema_of base.old)) }
{
    let row = lookup::presences::presence_row(base, d, t).unwrap();
    edit::take_presence(base, row);
}

// Type t goes where it is in no SDS any more.
fn drop_if_gone(base: &mut [u8], t: usize)
    requires stored { Stored base.old }
    requires t_lt_types { t < limits.types }
    ensures { Shows base.new (less_gone (t ∷ []) (schema_of base.old)) }
{
    if !conditions::is_elsewhere(base, t) {
        edit::write_type(base, t, Base::UNUSED, 0, 0, b"");
    }
}

// Type t goes from SDS d, and its reverse with it, if it has one.
fn take_type(base: &mut [u8], d: usize, t: usize, reverse: Option<usize>)
    requires sound { Sound base.old × (present (schema_of base.old) d t ≡ true) }
    requires reverse_of { ReverseOf (schema_of base.old) t (unwrap_or reverse limits.types) }
    requires below { IfSome reverse (λ r. r < limits.types) }
    ensures { base.new ≡ picture (less_type d t (schema_of base.old)) }
{
    take_out(base, d, t);
    let Some(r) = reverse else {
        drop_if_gone(base, t);
        return;
    };
    take_out(base, d, r);
    drop_if_gone(base, t);
    drop_if_gone(base, r);
}

// Type t goes from SDS d where nothing stands in the way, with which every removal ends.
fn remove(base: &mut [u8], d: usize, t: usize) -> Result<Done, Refused>
    requires { Sound base.old × (present (schema_of base.old) d t ≡ true) }
    ensures { Kept base.old (removal d t) (answered result) base.new }
{
    let reverse = conditions::reverse_of(base, t);
    in_use::obstacle(base, d, t, reverse)?;
    take_type(base, d, t, reverse);
    Ok(Done(t, 0, 0))
}

// A type, by its name, goes from an SDS.
pub fn remove_type(base: &mut [u8], sds: usize, name: &[u8]) -> Result<Done, Refused>
    ensures { Kept base.old (remove_type sds name.now) (answered result) base.new }
{
    conditions::aimed::aimed(base, sds, name)?;
    let t = conditions::aimed::named(base, sds, name)?;
    remove(base, sds, t)
}

// A type, by its number, goes from an SDS.
pub fn remove_number(base: &mut [u8], sds: usize, t: usize) -> Result<Done, Refused>
    ensures { Kept base.old (remove_number sds t) (answered result) base.new }
{
    conditions::aimed::aimed_at(base, sds)?;
    if !conditions::is_present(base, sds, t) {
        return Err(Refused::NoSuchType);
    }
    remove(base, sds, t)
}
