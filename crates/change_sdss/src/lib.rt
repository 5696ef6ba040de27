// A fresh base; SDSs made and removed. Each call tests the refusals of its rule in their order, and writes only where none holds.
#![tactic(auto)]

ghost use Rattle.rules.specs.09-Refusals.{answered};
ghost use Rattle.rules.specs.10-Changes.{new_sds, remove_sds};
ghost use Rattle.rules.specs.12-Contracts.{Kept, Freshened};

use base::Base;
use rules::{Done, Refused};

pub fn fresh(base: &mut [u8]) -> Result<Done, Refused>
    ensures { Freshened base.old (answered result) base.new }
{
    if base.len() != Base::LENGTH {
        return Err(Refused::NotSound);
    }
    base::write_fresh(base);
    Ok(Done(0, 0, 0))
}

pub fn new_sds(base: &mut [u8], name: &[u8]) -> Result<Done, Refused>
    ensures { Kept base.old (new_sds name.now) (answered result) base.new }
{
    if !sound::is_sound(base) {
        return Err(Refused::NotSound);
    }
    if !names::is_well_formed(name) {
        return Err(Refused::Malformed);
    }
    if lookup::sdss::has_sds_named(base, name) {
        return Err(Refused::NameTaken);
    }
    let Some(d) = lookup::sdss::free_sds(base) else {
        return Err(Refused::NoRoom);
    };
    edit::write_sds(base, d, name);
    Ok(Done(d, 0, 0))
}

pub fn remove_sds(base: &mut [u8], sds: usize) -> Result<Done, Refused>
    ensures { Kept base.old (remove_sds sds) (answered result) base.new }
{
    conditions::aimed::aimed_at(base, sds)?;
    if let Some(lowest) = in_use::lowest_type(base, sds) {
        return Err(Refused::SdsInUse(lowest));
    }
    edit::write_sds(base, sds, b"");
    Ok(Done(0, 0, 0))
}
