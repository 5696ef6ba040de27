// Rows put in, taken out and written over: each is the same edit of the schema that the bytes show. Within a call a base is not
// always sound; here it need only be stored. Where a row starts and how wide it is, `base` says.
#![tactic(auto)]

ghost use Rattle.std.specs.Prelude.{◌≡◌, ◌⊎◌, true, false, ◌||◌, ◌+◌, ◌*◌, ◌≤◌, ◌<◌, length, get_or};
ghost use Rattle.rules.specs.01-Lists.{put, rising};
ghost use Rattle.rules.specs.02-Limits.{limits};
ghost use Rattle.rules.specs.03-Names.{blank, well_formed};
ghost use Rattle.rules.specs.04-Schema.{new_presence, with_modes, present, bears, applied, has_end, with_presences, with_applications, with_ends};
ghost use Rattle.rules.specs.06-Good.{presence_before, application_before, end_before};
ghost use Rattle.rules.specs.07-Picture.{presence_width, presence_row, sds_row, base_length};
ghost use Rattle.rules.specs.10-Changes.{nameless};
ghost use Rattle.rules.specs.Read.{read_side};
ghost use Rattle.base.specs.Back.{schema_of, presence_count, application_count, end_count};
ghost use Rattle.base.specs.Stored.{Stored, Shows, less_row, modes_row, TypeWritten, type_fields};
ghost use Rattle.rows.specs.Table.{PutIn, written, closed};
ghost use Rattle.base.specs.Tables.{presences};
ghost use Rattle.base.specs.Rows.{sds_at, presence_at};

use base::{Base, Table};
use rules::Limits;

// Row i of the n of a table goes.
fn take_row(base: &mut [u8], table: Table, n: usize, i: usize)
    requires { (length base.old ≡ base_length) × ((i < n) × (n ≤ table.room)) }
    ensures { base.new ≡ closed base.old (table.start + i * table.width) (table.start + n * table.width) table.width }
{
    rows::table::take_row(base, table.row(i), table.row(n), table.width);
}

// ---- SDSs

// SDS d gets the name, or none where it is blank.
pub fn write_sds(base: &mut [u8], d: usize, name: &[u8])
    requires { (length base.old ≡ base_length) × ((d < limits.sdss) × (length name.now ≤ limits.name)) }
    ensures { base.new ≡ written base.old (sds_at d) (sds_row name.now) }
{
    let at = Table::SDSS.row(d);
    rows::table::clear(&mut base[at..at + Base::SDS_WIDTH]);
    rows::table::write(base, at, name);
}

// ---- presences

// The bytes of the row that says that type t is in SDS d under that name, with these modes.
fn presence_bytes(
    d: usize,
    name: &[u8],
    t: usize,
    usage: usize,
    definition: usize,
) -> [u8; Base::PRESENCE_WIDTH]
    requires d_bound { (d < 256) × ((t < 256) × (length name.now ≤ limits.name)) }
    requires usage_bound { (usage < 256) × (definition < 256) }
    ensures { result ≡ presence_row (with_modes usage definition (new_presence d name.now t)) }
{
    let mut row = [0; Base::PRESENCE_WIDTH];
    row[0] = d as u8;
    row[Base::TYPE_OFFSET] = t as u8;
    row[Base::USAGE_OFFSET] = usage as u8;
    row[Base::DEFINITION_OFFSET] = definition as u8;
    rows::table::write(&mut row, Base::NAME_OFFSET, name);
    row
}

// A row goes in at its place among n presences. (By a function of its own: the compiler then knows how wide it is, whoever calls.)
pub fn put_row(base: &mut [u8], n: usize, row: &[u8])
    requires { (length base.old ≡ base_length) × ((n < limits.presences) × (length row.now ≡ presence_width)) }
    ensures { PutIn base.old presences.start limits.name n row.now base.new }
{
    rows::table::put_in(base, Base::PRESENCES_AT, n, row, Limits::NAME);
}

// Type t gets a presence in SDS d with these modes, under a name that is free there, or where it is not there already.
pub fn put_with_modes(
    base: &mut [u8],
    d: usize,
    name: &[u8],
    t: usize,
    usage: usize,
    definition: usize,
)
    requires stored { Stored base.old }
    requires fact { (d ≡ 0 → ⊥) × ((d < 256) × (t < 256)) }
    requires name_value { blank name.now || well_formed name.now ≡ true }
    requires base_len_bound { length (schema_of base.old).presences < limits.presences }
    requires fact_2 { (bears (schema_of base.old) d name.now ≡ false) ⊎ (present (schema_of base.old) d t ≡ false) }
    requires usage_bound { (usage < 256) × (definition < 256) }
    ensures { let s = schema_of base.old in let p = with_modes usage definition (new_presence d name.now t) in
        Shows base.new (with_presences s (put presence_before p s.presences)) }
{
    let row = presence_bytes(d, name, t, usage, definition);
    let n = base::used::presence_count(base);
    put_row(base, n, &row);
}

// With all five, as every new presence.
pub fn put_presence(base: &mut [u8], d: usize, name: &[u8], t: usize)
    requires stored { Stored base.old }
    requires fact { (d ≡ 0 → ⊥) × ((d < 256) × (t < 256)) }
    requires name_value { well_formed name.now ≡ true }
    requires base_len_bound { length (schema_of base.old).presences < limits.presences }
    requires name_value_2 { bears (schema_of base.old) d name.now ≡ false }
    ensures { let s = schema_of base.old in
        Shows base.new (with_presences s (put presence_before (new_presence d name.now t) s.presences)) }
{
    put_with_modes(base, d, name, t, Base::ALL_MODES, Base::ALL_MODES);
}

// Without a name, where it is not there already.
pub fn put_nameless(base: &mut [u8], d: usize, t: usize)
    requires stored { Stored base.old }
    requires fact { (d ≡ 0 → ⊥) × ((d < 256) × (t < 256)) }
    requires base_len_bound { length (schema_of base.old).presences < limits.presences }
    requires t_value { present (schema_of base.old) d t ≡ false }
    ensures { let s = schema_of base.old in
        Shows base.new (with_presences s (put presence_before (nameless d t) s.presences)) }
{
    put_with_modes(base, d, b"", t, Base::ALL_MODES, Base::ALL_MODES);
}

// Row i, of another SDS than SDS 0, gets these modes, with which the rows still rise.
pub fn write_modes(base: &mut [u8], i: usize, usage: usize, definition: usize)
    requires stored { Stored base.old }
    requires i_bound { (i < presence_count base.old) × (get_or base.old (presence_at i) 0 ≡ 0 → ⊥) }
    requires usage_bound { (usage < 256) × (definition < 256) }
    requires base_value { rising presence_before (modes_row i usage definition (schema_of base.old).presences) ≡ true }
    ensures { let s = schema_of base.old in
        Shows base.new (with_presences s (modes_row i usage definition s.presences)) }
{
    let modes = [usage as u8, definition as u8];
    let at = Table::PRESENCES.row(i) + Base::USAGE_OFFSET;
    rows::table::write(base, at, &modes);
}

// Row i goes.
pub fn take_presence(base: &mut [u8], i: usize)
    requires stored { Stored base.old }
    requires i_bound { i < presence_count base.old }
    ensures { let s = schema_of base.old in Shows base.new (with_presences s (less_row i s.presences)) }
{
    let n = base::used::presence_count(base);
    take_row(base, Table::PRESENCES, n, i);
}

// ---- applications

// Attribute type a is applied to type t in SDS d, as it was not.
pub fn put_application(base: &mut [u8], d: usize, t: usize, a: usize)
    requires stored { Stored base.old }
    requires fact { (d ≡ 0 → ⊥) × ((d < 256) × ((t < 256) × (a < 256))) }
    requires base_len_bound { length (schema_of base.old).applications < limits.applications }
    requires a_value { applied (schema_of base.old) d t a ≡ false }
    ensures { let s = schema_of base.old in
        Shows base.new (with_applications s (put application_before (record { sds = d; to = t; attribute = a }) s.applications)) }
{
    let row = [d as u8, t as u8, a as u8];
    let n = base::used::application_count(base);
    rows::table::put_in(base, Base::APPLICATIONS_AT, n, &row, 0);
}

// Row i goes.
pub fn take_application(base: &mut [u8], i: usize)
    requires stored { Stored base.old }
    requires i_bound { i < application_count base.old }
    ensures { let s = schema_of base.old in Shows base.new (with_applications s (less_row i s.applications)) }
{
    let n = base::used::application_count(base);
    take_row(base, Table::APPLICATIONS, n, i);
}

// ---- ends

// Object type o becomes an end of link type l in SDS d, as it was not: an origin where `side` is 0, a destination where it is 1.
pub fn put_end(base: &mut [u8], d: usize, l: usize, side: usize, o: usize)
    requires stored { Stored base.old }
    requires fact { (d ≡ 0 → ⊥) × ((d < 256) × ((l < 256) × ((side < 2) × (o < 256)))) }
    requires base_len_bound { length (schema_of base.old).ends < limits.ends }
    requires o_value { has_end (schema_of base.old) d l (read_side side) o ≡ false }
    ensures { let s = schema_of base.old in
        Shows base.new (with_ends s (put end_before (record { sds = d; link = l; side = read_side side; object = o }) s.ends)) }
{
    let row = [d as u8, l as u8, side as u8, o as u8];
    let n = base::used::end_count(base);
    rows::table::put_in(base, Base::ENDS_AT, n, &row, 0);
}

// Row i goes.
pub fn take_end(base: &mut [u8], i: usize)
    requires stored { Stored base.old }
    requires i_bound { i < end_count base.old }
    ensures { let s = schema_of base.old in Shows base.new (with_ends s (less_row i s.ends)) }
{
    let n = base::used::end_count(base);
    take_row(base, Table::ENDS, n, i);
}

// ---- types

// The row of type t: its kind, the value kind or category, the reverse, the parents. What a kind lacks is 0, or no parents.
pub fn write_type(
    base: &mut [u8],
    t: usize,
    kind: usize,
    value: usize,
    reverse: usize,
    parents: &[u8],
)
    requires stored { Stored base.old }
    requires t_lt_types { t < limits.types }
    requires kind_bound { (kind < 256) × ((value < 256) × (reverse < 256)) }
    requires parents_len_bound { length parents.now ≤ 4 }
    ensures { TypeWritten base.old t (type_fields kind value reverse parents.now) base.new }
{
    let mut row = [
        kind as u8,
        value as u8,
        reverse as u8,
        parents.len() as u8,
        0,
        0,
        0,
        0,
    ];
    rows::table::write(&mut row, Base::PARENTS_OFFSET, parents);
    rows::table::write(base, Table::TYPES.row(t), &row);
}
