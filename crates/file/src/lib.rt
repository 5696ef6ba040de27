// The exchange file, out and in: the two calls. What stands where in a file its parts say, below.
#![tactic(auto)]

ghost use Rattle.std.specs.Prelude.{◌≡◌, cond, ◌≤◌, length};
ghost use Rattle.rules.specs.09-Refusals.{answered};
ghost use Rattle.rules.specs.07-Picture.{Sound, base_length};
ghost use Rattle.rules.specs.11-File.{file_of, write_file};
ghost use Rattle.rules.specs.12-Contracts.{Filed, ReadIn};
ghost use Rattle.base.specs.Back.{schema_of};
ghost use Rattle.rows.specs.Decides.{Decides};
ghost use Rattle.file_out_presences.specs.Out.{PutDown};
ghost use Rattle.file.specs.Accept.{Loaded, ToldBy, Accepts};

use base::Base;
use file_out::Parts;
use file_sections::Width;
use rules::{Done, Limits, Refused};

// How long a file is at most: the six counts, and every section at its limit, with 4 parents a type.
pub const MOST: usize = 6 * Width::COUNT
    + Limits::SDSS * Width::SDS
    + Limits::TYPES * Width::TYPE
    + Limits::TYPES * 4 * Width::PARENT
    + Limits::PRESENCES * Width::PRESENCE
    + Limits::APPLICATIONS * Width::APPLICATION
    + Limits::ENDS * Width::END;

// ---- out

pub fn write_file(base: &[u8], out: &mut [u8]) -> Result<Done, Refused>
    ensures { Filed base.now (write_file (length out.old)) (answered result) out.old out.new }
{
    if !sound::is_sound(base) {
        return Err(Refused::NotSound);
    }
    let length = file_out::length(base);
    if out.len() < length {
        return Err(Refused::ShortOutput);
    }
    put_down(base, out);
    Ok(Done(length, 0, 0))
}

// Part behind part.
fn put_down(base: &[u8], out: &mut [u8]) -> usize
    requires { (Sound base.now) × (length (file_of (schema_of base.now)) ≤ length out.old) }
    ensures { PutDown (file_of (schema_of base.now)) out.old out.new result }
{
    let mut at = 0;
    for j in 0..Parts::MANY {
        at += file_out::part(base, j, &mut out[at..]);
    }
    at
}

// ---- in

pub fn read_file(base: &mut [u8], file: &[u8]) -> Result<Done, Refused>
    ensures { ReadIn base.old file.now (answered result) base.new }
{
    if base.len() != Base::LENGTH {
        return Err(Refused::NotSound);
    }
    if let Err(start) = file_form::form(file) {
        return Err(Refused::MalformedFile(start));
    }
    if !accept(base, file) {
        return Err(Refused::UnsoundFile);
    }
    Ok(Done(0, 0, 0))
}

// The base becomes the one that is written as the file, if there is one: decided first, then copied. What a bad file makes of the work
// area is of no account.
fn accept(base: &mut [u8], file: &[u8]) -> bool
    requires { length base.old ≡ base_length }
    ensures { Accepts base.old file.now result base.new }
{
    let mut area = [0; Base::LENGTH];
    load(file, &mut area);
    let good = is_told_by(&area, file);
    copy_if(good, &area, base);
    good
}

fn copy_if(good: bool, area: &[u8], base: &mut [u8])
    requires { length area.now ≡ length base.old }
    ensures { base.new ≡ cond good area.now base.old }
{
    if good {
        base.copy_from_slice(area);
    }
}

fn load(file: &[u8], area: &mut [u8])
    requires { length area.old ≡ base_length }
    ensures { Loaded file.now area.new }
{
    let at = file_in_types::load_types(file, area);
    file_in_rows::load_rows(file, at, area);
}

// Whether the bytes are a base, and the file is that base's.
fn is_told_by(area: &[u8], file: &[u8]) -> bool
    ensures { Decides (ToldBy area.now file.now) result }
{
    sound::is_sound(area) && is_file_of(area, file)
}

// Whether the file is that of the base, part by part.
fn is_file_of(base: &[u8], file: &[u8]) -> bool
    requires { Sound base.now }
    ensures { Decides (file.now ≡ file_of (schema_of base.now)) result }
{
    let mut bytes = [0; Parts::MOST];
    let mut rest = file;
    for j in 0..Parts::MANY {
        let n = file_out::part(base, j, &mut bytes);
        let Some(behind) = rest.strip_prefix(&bytes[..n]) else {
            return false;
        };
        rest = behind;
    }
    rest.is_empty()
}
