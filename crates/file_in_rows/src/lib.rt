// The last three sections of an exchange file, put into an area as long as a base. What comes of a bad file does not matter, since the
// area is tested afterwards: so nothing is asked of the bytes, and something is promised only where they are those of a good schema.
#![tactic(auto)]

ghost use Rattle.std.specs.Prelude.{◌≡◌, ◌+◌, ◌*◌, ◌≤◌, ◌<◌, length};
ghost use Rattle.rules.specs.02-Limits.{limits};
ghost use Rattle.rules.specs.07-Picture.{presence_width, base_length};
ghost use Rattle.file_in_rows.specs.Loaded.{row_from, EntriesPut, PresencesLoaded, TableLoaded, RowsLoaded};

use base::Base;
use file_sections::Width;
use rules::Limits;

// Presences, applications and ends of a file, put into an area that holds its SDSs and types; `at` is where the presences start in
// the file.
pub fn load_rows(file: &[u8], at: usize, area: &mut [u8])
    requires { length area.old ≡ base_length }
    ensures { RowsLoaded file.now at area.old area.new }
{
    let applications = load_presences(file, at, area);
    let ends = load_table(
        file,
        applications,
        Width::APPLICATION,
        Limits::APPLICATIONS,
        area,
        Base::APPLICATIONS_AT,
    );
    load_table(file, ends, Width::END, Limits::ENDS, area, Base::ENDS_AT);
}

// ---- presences: by SDS and type in a file, by SDS and name in a base

// Where their section ends; the file's end where they are not all there, or too many.
fn load_presences(file: &[u8], at: usize, area: &mut [u8]) -> usize
    requires { length area.old ≡ base_length }
    ensures { PresencesLoaded file.now at area.old area.new result }
{
    let Some(entries) = file_sections::entries(file, at, Width::PRESENCE, Limits::PRESENCES) else {
        return file.len();
    };
    put_presences(entries, area);
    at + Width::COUNT + entries.len()
}

// Each of the entries goes in at its place among those before it.
fn put_presences(entries: &[u8], area: &mut [u8])
    requires { (length area.old ≡ base_length) × (length entries.now ≤ limits.presences * presence_width) }
    ensures { EntriesPut entries.now area.old area.new }
{
    for (i, entry) in entries.chunks_exact(Width::PRESENCE).enumerate() {
        edit::put_row(area, i, &presence_row(entry));
    }
}

// The row of the presence that has this entry.
fn presence_row(entry: &[u8]) -> [u8; Base::PRESENCE_WIDTH]
    requires { length entry.now ≡ presence_width }
    ensures { result ≡ row_from entry.now }
{
    let mut row = [0; Base::PRESENCE_WIDTH];
    row[0] = entry[0];
    row[Base::TYPE_OFFSET] = entry[1];
    row[Base::USAGE_OFFSET] = entry[Base::USAGE_OFFSET];
    row[Base::DEFINITION_OFFSET] = entry[Base::DEFINITION_OFFSET];
    rows::table::write(&mut row, Base::NAME_OFFSET, &entry[2..2 + Limits::NAME]);
    row
}

// ---- applications and ends: in a file as in a base

// The entries of width w from `at` on go to `to`, where there is room for so many. Returned: as of the presences.
fn load_table(file: &[u8], at: usize, w: usize, most: usize, area: &mut [u8], to: usize) -> usize
    requires { ((0 < w) × (w ≤ 20)) × ((most < 65536) × (to + most * w ≤ length area.old)) }
    ensures { TableLoaded file.now at w most to area.old area.new result }
{
    let Some(entries) = file_sections::entries(file, at, w, most) else {
        return file.len();
    };
    rows::table::write(area, to, entries);
    at + Width::COUNT + entries.len()
}
