// The first half of reading an exchange file: SDSs, types and parents. Any bytes are taken, and what is no entry of a schema is passed over or
// written as it stands: whoever reads a file tests afterwards what came of it.
#![tactic(auto)]

ghost use Rattle.std.specs.Prelude.{◌≡◌, ◌≤◌, ◌<◌, length};
ghost use Rattle.rules.specs.07-Picture.{base_length};
ghost use Rattle.file_in_types.specs.declared.Section.TheVariants.{Sdss, Types, Parents};
ghost use Rattle.file_in_types.specs.Steps.{width_of, limit_of, step_of, sds_in, type_in, parent_in};
ghost use Rattle.file_in_types.specs.Loaded.{SectionIn, TypesLoaded};

use base::Base;
use file_sections::Width;
use rules::Limits;

const MOST_PARENTS: usize = 4;

// SDSs, types and parents of a file, put into an area that then shows nothing else; where the presences start in the file.
pub fn load_types(file: &[u8], area: &mut [u8]) -> usize
    requires { length area.old ≡ base_length }
    ensures { TypesLoaded file.now area.new result }
{
    rows::table::clear(area);
    let types_at = put_section(Section::Sdss, file, 0, area);
    let parents_at = put_section(Section::Types, file, types_at, area);
    put_section(Section::Parents, file, parents_at, area)
}

// ---- a section

#[derive(Clone, Copy)]
enum Section {
    Sdss,
    Types,
    Parents,
}

impl Section {
    // How many bytes an entry has.
    fn width(self) -> usize
        ensures { (result ≡ width_of self) × ((0 < result) × (result ≤ 20)) }
    {
        match self {
            Section::Sdss => Width::SDS,
            Section::Types => Width::TYPE,
            Section::Parents => Width::PARENT,
        }
    }

    // How many entries there may be.
    fn most(self) -> usize
        ensures { (result ≡ limit_of self) × (result < 65536) }
    {
        match self {
            Section::Sdss => Limits::SDSS,
            Section::Types => Limits::TYPES,
            Section::Parents => Limits::TYPES * MOST_PARENTS,
        }
    }

    fn put(self, entry: &[u8], area: &mut [u8])
        requires { (length entry.now ≡ width_of self) × (length area.old ≡ base_length) }
        ensures { area.new ≡ step_of self entry.now area.old }
    {
        match self {
            Section::Sdss => put_sds(entry, area),
            Section::Types => put_type(entry, area),
            Section::Parents => put_parent(entry, area),
        }
    }
}

// Its entries from `at` on, if they are not too many; where the next section starts.
fn put_section(section: Section, file: &[u8], at: usize, area: &mut [u8]) -> usize
    requires { length area.old ≡ base_length }
    ensures { SectionIn (width_of section) (step_of section) (limit_of section) file.now at area.old area.new result }
{
    let w = section.width();
    let Some(entries) = file_sections::entries(file, at, w, section.most()) else {
        return at;
    };
    for entry in entries.chunks_exact(w) {
        section.put(entry, area);
    }
    at + Width::COUNT + entries.len()
}

// ---- an entry

// Its name is the row of the SDS of that number.
fn put_sds(entry: &[u8], area: &mut [u8])
    requires { (length entry.now ≡ width_of Sdss) × (length area.old ≡ base_length) }
    ensures { area.new ≡ sds_in entry.now area.old }
{
    let d = usize::from(entry[0]);
    if Limits::SDSS <= d {
        return;
    }
    let at = Base::SDSS_AT + d * Base::SDS_WIDTH;
    rows::table::write(area, at, &entry[1..]);
}

// A row as it stands before its type has parents.
fn put_type(entry: &[u8], area: &mut [u8])
    requires { (length entry.now ≡ width_of Types) × (length area.old ≡ base_length) }
    ensures { area.new ≡ type_in entry.now area.old }
{
    let t = usize::from(entry[0]);
    if Limits::TYPES <= t {
        return;
    }
    let row = [entry[1], entry[2], entry[3], 0, 0, 0, 0, 0];
    let at = Base::TYPES_AT + t * Base::TYPE_WIDTH;
    rows::table::write(area, at, &row);
}

// One parent more, behind those that the type has.
fn put_parent(entry: &[u8], area: &mut [u8])
    requires { (length entry.now ≡ width_of Parents) × (length area.old ≡ base_length) }
    ensures { area.new ≡ parent_in entry.now area.old }
{
    let t = usize::from(entry[0]);
    if Limits::TYPES <= t {
        return;
    }
    let n = base::parent_count(area, t);
    if MOST_PARENTS <= n {
        return;
    }
    let at = Base::TYPES_AT + t * Base::TYPE_WIDTH;
    area[at + Base::PARENTS_OFFSET + n] = entry[1];
    area[at + Base::COUNT_OFFSET] += 1;
}
