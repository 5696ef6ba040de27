// The file of a sound base, part by part, so that a caller can write the parts one behind the other, or compare each with a piece of
// a file.
#![tactic(auto)]

pub mod numbered;
pub mod parents;
pub mod tables;

ghost use Rattle.std.specs.Prelude.{◌≡◌, ◌≤◌, ◌<◌, length};
ghost use Rattle.rules.specs.07-Picture.{Sound};
ghost use Rattle.rules.specs.11-File.{file_of};
ghost use Rattle.base.specs.Back.{schema_of};
ghost use Rattle.file_out_presences.specs.Out.{PutDown};
ghost use Rattle.file_out.specs.Parts.{count_bytes, part_of};
ghost use Rattle.file_out.specs.Put.{PutOn};

use base::Base;
use file_sections::Width;
use rules::Limits;

// How many bytes of its row the entry of a type has behind its number: kind; value kind or category; reverse.
const TYPE_KEPT: usize = Width::TYPE - 1;

// Which part is which. Those of the presences are their count, and the entries of each SDS.
// Numbers and no enum: whoever makes a file counts them through, and those of the SDSs differ by their number alone.
#[derive(Clone, Copy)]
pub struct Parts {}

impl Parts {
    pub const SDSS: usize = 0;

    pub const TYPES: usize = 1;

    pub const PARENTS: usize = 2;

    pub const PRESENCES: usize = 3;

    pub const FIRST_SDS: usize = 4;

    pub const APPLICATIONS: usize = Parts::FIRST_SDS + Limits::SDSS;

    pub const ENDS: usize = Parts::APPLICATIONS + 1;

    // How many there are, and the room that one needs at most: that of an SDS which holds every type, and of a count.

    pub const MANY: usize = Parts::ENDS + 1;

    pub const MOST: usize = Width::COUNT + Limits::TYPES * Width::PRESENCE;
}

// A count, low byte first.
fn put_count(n: usize, out: &mut [u8]) -> usize
    requires n_bound { n < 65536 }
    requires in_bounds { 2 ≤ length out.old }
    ensures { PutOn (count_bytes n) out.old 0 out.new result }
{
    rows::table::write(out, 0, &(n as u16).to_le_bytes());
    Width::COUNT
}

// How long the file of a sound base is.
pub fn length(base: &[u8]) -> usize
    requires { Sound base.now }
    ensures { result ≡ length (file_of (schema_of base.now)) }
{
    let sdss = numbered::count(base, Base::SDSS_AT, Base::SDS_WIDTH, Limits::SDSS);
    let types = numbered::count(base, Base::TYPES_AT, Base::TYPE_WIDTH, Limits::TYPES);
    let parents = parents::count(base);
    let presences = lookup::presences::count(base);
    let applications = tables::applications(base);
    let ends = tables::ends(base);
    6 * Width::COUNT
        + sdss * Width::SDS
        + types * Width::TYPE
        + parents * Width::PARENT
        + presences * Width::PRESENCE
        + applications * Width::APPLICATION
        + ends * Width::END
}

// Part j of it.
pub fn part(base: &[u8], j: usize, out: &mut [u8]) -> usize
    requires sound { Sound base.now }
    requires j_bound { j < 22 }
    requires j_in_bounds { length (part_of (schema_of base.now) j) ≤ length out.old }
    ensures { PutDown (part_of (schema_of base.now) j) out.old out.new result }
{
    match j {
        Parts::SDSS => numbered::put(
            base,
            Base::SDSS_AT,
            Base::SDS_WIDTH,
            Limits::SDSS,
            Base::SDS_WIDTH,
            out,
        ),
        Parts::TYPES => numbered::put(
            base,
            Base::TYPES_AT,
            Base::TYPE_WIDTH,
            Limits::TYPES,
            TYPE_KEPT,
            out,
        ),
        Parts::PARENTS => parents::put(base, out),
        Parts::PRESENCES => put_count(lookup::presences::count(base), out),
        Parts::APPLICATIONS => tables::put(
            base,
            Base::APPLICATIONS_AT,
            Base::APPLICATION_WIDTH,
            tables::applications(base),
            out,
        ),
        Parts::ENDS => tables::put(
            base,
            Base::ENDS_AT,
            Base::END_WIDTH,
            tables::ends(base),
            out,
        ),
        _ => file_out_presences::presences_in(base, j - Parts::FIRST_SDS, out),
    }
}
