// The functions that the C service calls. Each is one call of document 01 or 02 and keeps that call's contract; include/cisternfox.h
// says what the host owes.
#![tactic(auto)]

ghost use Rattle.rules.specs.10-Changes.{new_sds, remove_sds, new_object, new_attribute, new_designation, new_pair, import, apply, unapply};
ghost use Rattle.rules.specs.10-Changes.{apply_link, unapply_link, add_destination, remove_destination, remove_type, remove_number, rename};
ghost use Rattle.rules.specs.10-Changes.{rename_number, set_modes};
ghost use Rattle.rules.specs.11-Asks.{scan_object, scan_link, profile, find, depth_of, name, descendant_set, modes_of};
ghost use Rattle.rules.specs.07-Picture.{base_length};
ghost use Rattle.rules.specs.11-File.{write_file, file_most};
ghost use Rattle.rules.specs.12-Contracts.{room, Kept, Listed, Answered, Freshened, Filed, ReadIn};
ghost use Rattle.std.specs.Prelude.{◌≡◌, length};

use base::Base;
use rules::Answer;

#[unsafe(no_mangle)]
pub extern "C" fn cf_base_length() -> usize
    ensures { result ≡ base_length }
{
    Base::LENGTH
}

#[unsafe(no_mangle)]
pub extern "C" fn cf_fresh(base: &mut [u8]) -> Answer
    ensures { Freshened base.old result base.new }
{
    Answer::from(change_sdss::fresh(base))
}

#[unsafe(no_mangle)]
pub extern "C" fn cf_new_sds(base: &mut [u8], name: &[u8]) -> Answer
    ensures { Kept base.old (new_sds name.now) result base.new }
{
    Answer::from(change_sdss::new_sds(base, name))
}

#[unsafe(no_mangle)]
pub extern "C" fn cf_remove_sds(base: &mut [u8], sds: usize) -> Answer
    ensures { Kept base.old (remove_sds sds) result base.new }
{
    Answer::from(change_sdss::remove_sds(base, sds))
}

#[unsafe(no_mangle)]
pub extern "C" fn cf_new_object(base: &mut [u8], sds: usize, name: &[u8], parents: &[u8]) -> Answer
    ensures { Kept base.old (new_object sds name.now parents.now) result base.new }
{
    Answer::from(change_objects::new_object(base, sds, name, parents))
}

#[unsafe(no_mangle)]
pub extern "C" fn cf_new_attribute(base: &mut [u8], sds: usize, name: &[u8], value: usize) -> Answer
    ensures { Kept base.old (new_attribute sds name.now value) result base.new }
{
    Answer::from(change_types::new_attribute(base, sds, name, value))
}

#[unsafe(no_mangle)]
pub extern "C" fn cf_new_designation(base: &mut [u8], sds: usize, name: &[u8]) -> Answer
    ensures { Kept base.old (new_designation sds name.now) result base.new }
{
    Answer::from(change_types::new_designation(base, sds, name))
}

#[unsafe(no_mangle)]
pub extern "C" fn cf_new_pair(
    base: &mut [u8],
    sds: usize,
    name: &[u8],
    reverse: &[u8],
    category: usize,
    back: usize,
) -> Answer
    ensures { Kept base.old (new_pair sds name.now reverse.now category back) result base.new }
{
    Answer::from(change_pairs::new_pair(base, sds, name, reverse, category, back))
}

#[unsafe(no_mangle)]
pub extern "C" fn cf_import(
    base: &mut [u8],
    target: usize,
    source: usize,
    name: &[u8],
    new: &[u8],
    new_reverse: &[u8],
) -> Answer
    ensures { Kept base.old (import target source name.now new.now new_reverse.now) result base.new }
{
    Answer::from(change_imports::import(base, target, source, name, new, new_reverse))
}

#[unsafe(no_mangle)]
pub extern "C" fn cf_apply(base: &mut [u8], sds: usize, attribute: &[u8], to: &[u8]) -> Answer
    ensures { Kept base.old (apply sds attribute.now to.now) result base.new }
{
    Answer::from(change_applications::apply(base, sds, attribute, to))
}

#[unsafe(no_mangle)]
pub extern "C" fn cf_unapply(base: &mut [u8], sds: usize, attribute: &[u8], to: &[u8]) -> Answer
    ensures { Kept base.old (unapply sds attribute.now to.now) result base.new }
{
    Answer::from(change_applications::unapply(base, sds, attribute, to))
}

#[unsafe(no_mangle)]
pub extern "C" fn cf_apply_link(base: &mut [u8], sds: usize, link: &[u8], object: &[u8]) -> Answer
    ensures { Kept base.old (apply_link sds link.now object.now) result base.new }
{
    Answer::from(change_ends::apply_link(base, sds, link, object))
}

#[unsafe(no_mangle)]
pub extern "C" fn cf_unapply_link(base: &mut [u8], sds: usize, link: &[u8], object: &[u8]) -> Answer
    ensures { Kept base.old (unapply_link sds link.now object.now) result base.new }
{
    Answer::from(change_ends::unapply_link(base, sds, link, object))
}

#[unsafe(no_mangle)]
pub extern "C" fn cf_add_destination(
    base: &mut [u8],
    sds: usize,
    link: &[u8],
    object: &[u8],
) -> Answer
    ensures { Kept base.old (add_destination sds link.now object.now) result base.new }
{
    Answer::from(change_ends::add_destination(base, sds, link, object))
}

#[unsafe(no_mangle)]
pub extern "C" fn cf_remove_destination(
    base: &mut [u8],
    sds: usize,
    link: &[u8],
    object: &[u8],
) -> Answer
    ensures { Kept base.old (remove_destination sds link.now object.now) result base.new }
{
    Answer::from(change_ends::remove_destination(base, sds, link, object))
}

#[unsafe(no_mangle)]
pub extern "C" fn cf_remove_type(base: &mut [u8], sds: usize, name: &[u8]) -> Answer
    ensures { Kept base.old (remove_type sds name.now) result base.new }
{
    Answer::from(change_presences::remove::remove_type(base, sds, name))
}

#[unsafe(no_mangle)]
pub extern "C" fn cf_remove_number(base: &mut [u8], sds: usize, t: usize) -> Answer
    ensures { Kept base.old (remove_number sds t) result base.new }
{
    Answer::from(change_presences::remove::remove_number(base, sds, t))
}

#[unsafe(no_mangle)]
pub extern "C" fn cf_rename(base: &mut [u8], sds: usize, name: &[u8], new: &[u8]) -> Answer
    ensures { Kept base.old (rename sds name.now new.now) result base.new }
{
    Answer::from(change_presences::rename::rename(base, sds, name, new))
}

#[unsafe(no_mangle)]
pub extern "C" fn cf_rename_number(base: &mut [u8], sds: usize, t: usize, new: &[u8]) -> Answer
    ensures { Kept base.old (rename_number sds t new.now) result base.new }
{
    Answer::from(change_presences::rename::rename_number(base, sds, t, new))
}

#[unsafe(no_mangle)]
pub extern "C" fn cf_set_modes(
    base: &mut [u8],
    sds: usize,
    name: &[u8],
    usage: usize,
    definition: usize,
) -> Answer
    ensures { Kept base.old (set_modes sds name.now usage definition) result base.new }
{
    Answer::from(change_presences::modes::set_modes(base, sds, name, usage, definition))
}

#[unsafe(no_mangle)]
pub extern "C" fn cf_scan_object(
    base: &[u8],
    schema: &[u8],
    t: usize,
    code: usize,
    output: &mut [u8],
) -> Answer
    ensures { Listed base.now (scan_object schema.now t code (room output.old)) result output.old output.new }
{
    Answer::from(ask::scan_object(base, schema, t, code, output))
}

#[unsafe(no_mangle)]
pub extern "C" fn cf_scan_link(
    base: &[u8],
    schema: &[u8],
    t: usize,
    code: usize,
    output: &mut [u8],
) -> Answer
    ensures { Listed base.now (scan_link schema.now t code (room output.old)) result output.old output.new }
{
    Answer::from(ask::scan_link(base, schema, t, code, output))
}

#[unsafe(no_mangle)]
pub extern "C" fn cf_profile(base: &[u8], schema: &[u8], t: usize, output: &mut [u8]) -> Answer
    ensures { Listed base.now (profile schema.now t (room output.old)) result output.old output.new }
{
    Answer::from(ask::profile(base, schema, t, output))
}

#[unsafe(no_mangle)]
pub extern "C" fn cf_find(base: &[u8], schema: &[u8], name: &[u8]) -> Answer
    ensures { Answered base.now (find schema.now name.now) result }
{
    Answer::from(ask::find(base, schema, name))
}

#[unsafe(no_mangle)]
pub extern "C" fn cf_depth(base: &[u8], schema: &[u8], t: usize) -> Answer
    ensures { Answered base.now (depth_of schema.now t) result }
{
    Answer::from(ask::depth(base, schema, t))
}

#[unsafe(no_mangle)]
pub extern "C" fn cf_descendant_set(base: &[u8], schema: &[u8], t: usize) -> Answer
    ensures { Answered base.now (descendant_set schema.now t) result }
{
    Answer::from(ask::descendant_set(base, schema, t))
}

#[unsafe(no_mangle)]
pub extern "C" fn cf_modes(base: &[u8], schema: &[u8], t: usize) -> Answer
    ensures { Answered base.now (modes_of schema.now t) result }
{
    Answer::from(ask::modes(base, schema, t))
}

#[unsafe(no_mangle)]
pub extern "C" fn cf_name(base: &[u8], sds: usize, t: usize) -> Answer
    ensures { Answered base.now (name sds t) result }
{
    Answer::from(ask::name_place(base, sds, t))
}

// ---- the exchange file

// How long a file is at most.
#[unsafe(no_mangle)]
pub extern "C" fn cf_file_most() -> usize
    ensures { result ≡ file_most }
{
    file::MOST
}

#[unsafe(no_mangle)]
pub extern "C" fn cf_write_file(base: &[u8], output: &mut [u8]) -> Answer
    ensures { Filed base.now (write_file (length output.old)) result output.old output.new }
{
    Answer::from(file::write_file(base, output))
}

#[unsafe(no_mangle)]
pub extern "C" fn cf_read_file(base: &mut [u8], file: &[u8]) -> Answer
    ensures { ReadIn base.old file.now result base.new }
{
    Answer::from(file::read_file(base, file))
}
