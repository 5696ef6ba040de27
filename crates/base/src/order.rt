// Rows in numbers, for their order.
ghost use Rattle.std.specs.Prelude.{◌≡◌, ◌<◌, length};
ghost use Rattle.rules.specs.02-Limits.{limits};
ghost use Rattle.rules.specs.07-Picture.{base_length, application_width, end_width};
ghost use Rattle.rows.specs.Rows.{part};
ghost use Rattle.rows.specs.Order.{number, LowName, Keyed};
ghost use Rattle.base.specs.Rows.{presence_at, application_at, end_at};

use super::Table;
use rows::order::Key;

// By SDS and name.
pub fn presence_key(base: &[u8], i: usize) -> Key
    requires base_len { (length base.now ≡ base_length) × (i < limits.presences) }
    requires low_name { LowName base.now (presence_at i) }
    ensures { Keyed base.now (presence_at i) result }
{
    rows::order::key_at(base, Table::PRESENCES.row(i))
}

// ---- a row as one number, its first byte highest, whose order is that of the rows: one expression, of which the compiler makes one load

pub fn application_number(base: &[u8], i: usize) -> usize
    requires { (length base.now ≡ base_length) × (i < limits.applications) }
    ensures { result ≡ number 0 (part base.now (application_at i) application_width) }
{
    (super::application_sds(base, i) * 256 + super::application_to(base, i)) * 256
        + super::application_attribute(base, i)
}

pub fn end_number(base: &[u8], i: usize) -> usize
    requires { (length base.now ≡ base_length) × (i < limits.ends) }
    ensures { result ≡ number 0 (part base.now (end_at i) end_width) }
{
    ((super::end_sds(base, i) * 256 + super::end_link(base, i)) * 256 + super::end_side(base, i))
        * 256
        + super::end_object(base, i)
}
