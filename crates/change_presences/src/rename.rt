// A presence under another name.
ghost use Rattle.std.specs.Prelude.{◌≡◌, ◌<◌, false};
ghost use Rattle.rules.specs.02-Limits.{limits};
ghost use Rattle.rules.specs.07-Picture.{Sound, picture};
ghost use Rattle.rules.specs.09-Refusals.{borne_by_another, answered};
ghost use Rattle.rules.specs.10-Changes.{rename, rename_number, with_name};
ghost use Rattle.rules.specs.12-Contracts.{Kept};
ghost use Rattle.base.specs.Back.{schema_of};
ghost use Rattle.change_presences.specs.Rename.{Nameable, renaming};

use rules::{Done, Refused};

// Whether a type other than t bears the name in SDS d.
fn is_borne_by_another(base: &[u8], d: usize, t: usize, name: &[u8]) -> bool
    requires { Sound base.now × (d < limits.sdss) }
    ensures { result ≡ borne_by_another (schema_of base.now) d t name.now }
{
    let Some(other) = lookup::named::type_in(base, d, name) else {
        return false;
    };
    other != t
}

// Type t gets the name in SDS d, and its presence moves to its new place; its modes stay.
fn put_name(base: &mut [u8], d: usize, t: usize, name: &[u8])
    requires nameable { Nameable base.old d t name.now }
    requires free { borne_by_another (schema_of base.old) d t name.now ≡ false }
    ensures { base.new ≡ picture (with_name d name.now t (schema_of base.old)) }
{
    let row = lookup::presences::presence_row(base, d, t).unwrap();
    let usage = base::presence_usage(base, row);
    let definition = base::presence_definition(base, row);
    edit::take_presence(base, row);
    edit::put_with_modes(base, d, name, t, usage, definition);
}

// The same where no other type bears the name there, with which every rename ends.
fn give_name(base: &mut [u8], d: usize, t: usize, name: &[u8]) -> Result<Done, Refused>
    requires { Nameable base.old d t name.now }
    ensures { Kept base.old (renaming d t name.now) (answered result) base.new }
{
    if is_borne_by_another(base, d, t, name) {
        return Err(Refused::NameTaken);
    }
    put_name(base, d, t, name);
    Ok(Done(0, 0, 0))
}

// A presence, by its name, gets another.
pub fn rename(base: &mut [u8], sds: usize, name: &[u8], new: &[u8]) -> Result<Done, Refused>
    ensures { Kept base.old (rename sds name.now new.now) (answered result) base.new }
{
    conditions::aimed::aimed_two(base, sds, name, new)?;
    let found = conditions::aimed::named(base, sds, name)?;
    give_name(base, sds, found, new)
}

// A presence, by its type, gets a name: it may have had none.
pub fn rename_number(base: &mut [u8], sds: usize, t: usize, new: &[u8]) -> Result<Done, Refused>
    ensures { Kept base.old (rename_number sds t new.now) (answered result) base.new }
{
    conditions::aimed::aimed(base, sds, new)?;
    if !conditions::is_present(base, sds, t) {
        return Err(Refused::NoSuchType);
    }
    give_name(base, sds, t, new)
}
