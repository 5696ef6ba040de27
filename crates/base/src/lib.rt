// The lent base: here alone stands where a row starts, how wide it is and which of its bytes holds what. Everything above reads
// fields by their number of SDS, type or row.
#![tactic(auto)]

pub mod order;
pub mod used;

ghost use Rattle.std.specs.Prelude.{◌≡◌, ◌+◌, ◌*◌, ◌<◌, ◌≤◌, length, replicate};
ghost use Rattle.rules.specs.02-Limits.{limits};
ghost use Rattle.rules.specs.04-Schema.{fresh};
ghost use Rattle.rules.specs.07-Picture.{picture, base_length, type_width};
ghost use Rattle.rules.specs.Read.{value_offset, reverse_offset, count_offset, parents_offset, name_offset, type_offset, to_offset, attribute_offset};
ghost use Rattle.rules.specs.Read.{usage_offset, definition_offset, link_offset, side_offset, object_offset};
ghost use Rattle.rows.specs.Rows.{part, Reads};
ghost use Rattle.rows.specs.Decides.{Decides};
ghost use Rattle.base.specs.Rows.{sds_at, type_at, presence_at, application_at, end_at};

use rules::Limits;

#[derive(Clone, Copy)]
pub struct Base {}

impl Base {
    pub const SDS_WIDTH: usize = Limits::NAME;

    pub const TYPE_WIDTH: usize = 8;

    pub const PRESENCE_WIDTH: usize = Limits::NAME + 4;

    pub const APPLICATION_WIDTH: usize = 3;

    pub const END_WIDTH: usize = 4;

    pub const SDSS_AT: usize = 0;

    pub const TYPES_AT: usize = Base::SDSS_AT + Limits::SDSS * Base::SDS_WIDTH;

    pub const PRESENCES_AT: usize = Base::TYPES_AT + Limits::TYPES * Base::TYPE_WIDTH;

    pub const APPLICATIONS_AT: usize = Base::PRESENCES_AT
        + Limits::PRESENCES * Base::PRESENCE_WIDTH;

    pub const ENDS_AT: usize = Base::APPLICATIONS_AT
        + Limits::APPLICATIONS * Base::APPLICATION_WIDTH;

    pub const LENGTH: usize = Base::ENDS_AT + Limits::ENDS * Base::END_WIDTH;

    // Which byte of its row holds what; the first holds a type's kind, and the SDS of the others.

    pub const VALUE_OFFSET: usize = 1;

    pub const REVERSE_OFFSET: usize = 2;

    pub const COUNT_OFFSET: usize = 3;

    pub const PARENTS_OFFSET: usize = 4;

    pub const NAME_OFFSET: usize = 1;

    pub const TYPE_OFFSET: usize = Base::NAME_OFFSET + Limits::NAME;

    pub const USAGE_OFFSET: usize = Base::TYPE_OFFSET + 1;

    pub const DEFINITION_OFFSET: usize = Base::USAGE_OFFSET + 1;

    pub const TO_OFFSET: usize = 1;

    pub const ATTRIBUTE_OFFSET: usize = 2;

    pub const LINK_OFFSET: usize = 1;

    pub const SIDE_OFFSET: usize = 2;

    pub const OBJECT_OFFSET: usize = 3;

    // The set of all five modes: 1 create, 2 delete, 4 read, 8 write, 16 navigate.

    pub const ALL_MODES: usize = 31;

    // What the first byte of a type says it is, and two categories of links.

    pub const UNUSED: usize = 0;

    pub const OBJECT: usize = 1;

    pub const ATTRIBUTE: usize = 2;

    pub const LINK: usize = 3;

    pub const IMPLICIT: usize = 3;

    pub const DESIGNATION: usize = 4;

    // A base by value, for a program that holds its own. Lending it as a slice needs the length.
    pub fn fresh() -> [u8; Base::LENGTH]
        ensures { (result ≡ picture fresh) × (base_length ≡ length result) }
    {
        let mut base = [0; Base::LENGTH];
        write_fresh(&mut base);
        base
    }
}

// A table: where its first row starts, how wide a row is, how many there is room for.
#[derive(Clone, Copy)]
pub struct Table {
    pub start: usize,
    pub width: usize,
    pub room: usize,
    pub ghost wide: { 0 < width },
    pub ghost lies: { start + room * width ≤ base_length },
}

impl Table {
    pub const SDSS: Table = Table {
        start: Base::SDSS_AT,
        width: Base::SDS_WIDTH,
        room: Limits::SDSS,
    };

    pub const TYPES: Table = Table {
        start: Base::TYPES_AT,
        width: Base::TYPE_WIDTH,
        room: Limits::TYPES,
    };

    pub const PRESENCES: Table = Table {
        start: Base::PRESENCES_AT,
        width: Base::PRESENCE_WIDTH,
        room: Limits::PRESENCES,
    };

    pub const APPLICATIONS: Table = Table {
        start: Base::APPLICATIONS_AT,
        width: Base::APPLICATION_WIDTH,
        room: Limits::APPLICATIONS,
    };

    pub const ENDS: Table = Table {
        start: Base::ENDS_AT,
        width: Base::END_WIDTH,
        room: Limits::ENDS,
    };

    // Where row i starts. Inline, as what stands on it: the compiler then knows the table.
    #[inline]
    pub fn row(self, i: usize) -> usize
        requires { i ≤ self.room }
        ensures { result ≡ self.start + i * self.width }
    {
        self.start + i * self.width
    }

    // The byte that stands so many behind the first of row i.
    #[inline]
    fn byte(self, base: &[u8], i: usize, offset: usize) -> usize
        requires { (length base.now ≡ base_length) × ((i < self.room) × (offset < self.width)) }
        ensures { Reads base.now (self.start + i * self.width + offset) result }
    {
        rows::byte(base, self.row(i) + offset)
    }
}

// ---- all of it

// All zero, but for the names of SDS 0 and type 0, the kind of type 0 and its modes.
pub fn write_fresh(base: &mut [u8])
    requires { length base.old ≡ base_length }
    ensures { base.new ≡ picture fresh }
{
    rows::table::clear(base);
    rows::table::write(base, Base::SDSS_AT, b"system");
    base[Base::TYPES_AT] = 1;
    base[Base::PRESENCES_AT + Base::USAGE_OFFSET] = Base::ALL_MODES as u8;
    base[Base::PRESENCES_AT + Base::DEFINITION_OFFSET] = Base::ALL_MODES as u8;
    rows::table::write(base, Base::PRESENCES_AT + Base::NAME_OFFSET, b"object");
}

// ---- SDSs

// The field of 16 bytes that holds the name of an SDS.
pub fn sds_field(base: &[u8], d: usize) -> &[u8]
    requires { (length base.now ≡ base_length) × (d < limits.sdss) }
    ensures { result.now ≡ part base.now (sds_at d) limits.name }
{
    let at = Table::SDSS.row(d);
    &base[at..at + Base::SDS_WIDTH]
}

// ---- types

pub fn kind(base: &[u8], t: usize) -> usize
    requires { (length base.now ≡ base_length) × (t < limits.types) }
    ensures { Reads base.now (type_at t) result }
{
    Table::TYPES.byte(base, t, 0)
}

// An attribute type's value kind, or a link type's category.
pub fn value(base: &[u8], t: usize) -> usize
    requires { (length base.now ≡ base_length) × (t < limits.types) }
    ensures { Reads base.now (type_at t + value_offset) result }
{
    Table::TYPES.byte(base, t, Base::VALUE_OFFSET)
}

pub fn reverse(base: &[u8], t: usize) -> usize
    requires { (length base.now ≡ base_length) × (t < limits.types) }
    ensures { Reads base.now (type_at t + reverse_offset) result }
{
    Table::TYPES.byte(base, t, Base::REVERSE_OFFSET)
}

pub fn parent_count(base: &[u8], t: usize) -> usize
    requires { (length base.now ≡ base_length) × (t < limits.types) }
    ensures { Reads base.now (type_at t + count_offset) result }
{
    Table::TYPES.byte(base, t, Base::COUNT_OFFSET)
}

// The parent in place i of 4.
pub fn parent(base: &[u8], t: usize, i: usize) -> usize
    requires { (length base.now ≡ base_length) × ((t < limits.types) × (i < 4)) }
    ensures { Reads base.now (type_at t + parents_offset + i) result }
{
    Table::TYPES.byte(base, t, Base::PARENTS_OFFSET + i)
}

// Whether all of its row is zero, as that of an unused type is.
pub fn is_type_unused(base: &[u8], t: usize) -> bool
    requires { (length base.now ≡ base_length) × (t < limits.types) }
    ensures { Decides (part base.now (type_at t) type_width ≡ replicate type_width 0) result }
{
    let at = Table::TYPES.row(t);
    rows::used::is_zero(base, at, at + Base::TYPE_WIDTH)
}

// ---- presences

pub fn presence_sds(base: &[u8], i: usize) -> usize
    requires { (length base.now ≡ base_length) × (i < limits.presences) }
    ensures { Reads base.now (presence_at i) result }
{
    Table::PRESENCES.byte(base, i, 0)
}

// The field of 16 bytes that holds the local name.
pub fn presence_field(base: &[u8], i: usize) -> &[u8]
    requires { (length base.now ≡ base_length) × (i < limits.presences) }
    ensures { result.now ≡ part base.now (presence_at i + name_offset) limits.name }
{
    let at = name_at(i);
    &base[at..at + Limits::NAME]
}

// Where that name starts.
pub fn name_at(i: usize) -> usize
    requires { i < limits.presences }
    ensures { result ≡ presence_at i + name_offset }
{
    Table::PRESENCES.row(i) + Base::NAME_OFFSET
}

pub fn presence_type(base: &[u8], i: usize) -> usize
    requires { (length base.now ≡ base_length) × (i < limits.presences) }
    ensures { Reads base.now (presence_at i + type_offset) result }
{
    Table::PRESENCES.byte(base, i, Base::TYPE_OFFSET)
}

pub fn presence_usage(base: &[u8], i: usize) -> usize
    requires { (length base.now ≡ base_length) × (i < limits.presences) }
    ensures { Reads base.now (presence_at i + usage_offset) result }
{
    Table::PRESENCES.byte(base, i, Base::USAGE_OFFSET)
}

pub fn presence_definition(base: &[u8], i: usize) -> usize
    requires { (length base.now ≡ base_length) × (i < limits.presences) }
    ensures { Reads base.now (presence_at i + definition_offset) result }
{
    Table::PRESENCES.byte(base, i, Base::DEFINITION_OFFSET)
}

// ---- applications

pub fn application_sds(base: &[u8], i: usize) -> usize
    requires { (length base.now ≡ base_length) × (i < limits.applications) }
    ensures { Reads base.now (application_at i) result }
{
    Table::APPLICATIONS.byte(base, i, 0)
}

pub fn application_to(base: &[u8], i: usize) -> usize
    requires { (length base.now ≡ base_length) × (i < limits.applications) }
    ensures { Reads base.now (application_at i + to_offset) result }
{
    Table::APPLICATIONS.byte(base, i, Base::TO_OFFSET)
}

pub fn application_attribute(base: &[u8], i: usize) -> usize
    requires { (length base.now ≡ base_length) × (i < limits.applications) }
    ensures { Reads base.now (application_at i + attribute_offset) result }
{
    Table::APPLICATIONS.byte(base, i, Base::ATTRIBUTE_OFFSET)
}

// ---- ends

pub fn end_sds(base: &[u8], i: usize) -> usize
    requires { (length base.now ≡ base_length) × (i < limits.ends) }
    ensures { Reads base.now (end_at i) result }
{
    Table::ENDS.byte(base, i, 0)
}

pub fn end_link(base: &[u8], i: usize) -> usize
    requires { (length base.now ≡ base_length) × (i < limits.ends) }
    ensures { Reads base.now (end_at i + link_offset) result }
{
    Table::ENDS.byte(base, i, Base::LINK_OFFSET)
}

// 0 origin, 1 destination.
pub fn end_side(base: &[u8], i: usize) -> usize
    requires { (length base.now ≡ base_length) × (i < limits.ends) }
    ensures { Reads base.now (end_at i + side_offset) result }
{
    Table::ENDS.byte(base, i, Base::SIDE_OFFSET)
}

pub fn end_object(base: &[u8], i: usize) -> usize
    requires { (length base.now ≡ base_length) × (i < limits.ends) }
    ensures { Reads base.now (end_at i + object_offset) result }
{
    Table::ENDS.byte(base, i, Base::OBJECT_OFFSET)
}
