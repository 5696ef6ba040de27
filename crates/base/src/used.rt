// How many rows of a table are used, and whether the room behind them is zero, whatever the bytes hold.
ghost use Rattle.std.specs.Prelude.{◌≡◌, ◌+◌, ◌-◌, ◌*◌, ◌≤◌, length, drop, replicate};
ghost use Rattle.rules.specs.02-Limits.{limits};
ghost use Rattle.rules.specs.07-Picture.{base_length};
ghost use Rattle.rows.specs.Rows.{part, filled, Counted, Halved};
ghost use Rattle.rows.specs.Decides.{Decides};
ghost use Rattle.base.specs.Tables.{BlankFrom, PresencesHalved, presences, applications, ends};
ghost use Rattle.base.specs.Back.{presence_count, application_count, end_count};

use super::{Base, Table};
use rules::Limits;

impl Table {
    // How many rows stand before the first unused one.
    #[inline(always)]
    fn count(self, base: &[u8]) -> usize
        requires { length base.now ≡ base_length }
        ensures { Counted (filled self.width self.room (drop self.start base.now)) self.room result }
    {
        rows::used::filled(base, self.start, self.width, self.room)
    }

    // The same by halving, where the used rows stand before the others, for a check that sees to it: by the first byte of each.
    #[inline(always)]
    fn halved(self, base: &[u8]) -> usize
        requires { length base.now ≡ base_length }
        ensures { Halved base.now self.start self.width self.room result }
    {
        rows::used::halved(base, self.start, self.width, self.room)
    }

    // Whether the room from row n on is zero.
    #[inline(always)]
    fn is_blank_from(self, base: &[u8], n: usize) -> bool
        requires { (length base.now ≡ base_length) × (n ≤ self.room) }
        ensures { let zeros = replicate ((self.room - n) * self.width) 0 in
            Decides (part base.now (self.start + n * self.width) ((self.room - n) * self.width) ≡ zeros) result }
    {
        rows::used::is_zero(base, self.row(n), self.row(self.room))
    }
}

pub fn presence_count(base: &[u8]) -> usize
    requires { length base.now ≡ base_length }
    ensures { Counted (presence_count base.now) limits.presences result }
{
    Table::PRESENCES.count(base)
}

pub fn application_count(base: &[u8]) -> usize
    requires { length base.now ≡ base_length }
    ensures { Counted (application_count base.now) limits.applications result }
{
    Table::APPLICATIONS.count(base)
}

pub fn end_count(base: &[u8]) -> usize
    requires { length base.now ≡ base_length }
    ensures { Counted (end_count base.now) limits.ends result }
{
    Table::ENDS.count(base)
}

pub fn no_presence_from(base: &[u8], n: usize) -> bool
    requires { (length base.now ≡ base_length) × (n ≤ limits.presences) }
    ensures { Decides (BlankFrom presences n base.now) result }
{
    Table::PRESENCES.is_blank_from(base, n)
}

pub fn no_application_from(base: &[u8], n: usize) -> bool
    requires { (length base.now ≡ base_length) × (n ≤ limits.applications) }
    ensures { Decides (BlankFrom applications n base.now) result }
{
    Table::APPLICATIONS.is_blank_from(base, n)
}

pub fn no_end_from(base: &[u8], n: usize) -> bool
    requires { (length base.now ≡ base_length) × (n ≤ limits.ends) }
    ensures { Decides (BlankFrom ends n base.now) result }
{
    Table::ENDS.is_blank_from(base, n)
}

// ---- the same by halving, where the used rows stand before the others, for a check that sees to it

// The first presence, and by the SDS those behind it: none of them is in SDS 0.
pub fn presences_halved(base: &[u8]) -> usize
    requires { length base.now ≡ base_length }
    ensures { PresencesHalved base.now result }
{
    let behind = rows::used::halved(
        base,
        Table::PRESENCES.row(1),
        Base::PRESENCE_WIDTH,
        Limits::PRESENCES - 1,
    );
    1 + behind
}

// By the SDS, which is never SDS 0.
pub fn applications_halved(base: &[u8]) -> usize
    requires { length base.now ≡ base_length }
    ensures { Halved base.now applications.start applications.width limits.applications result }
{
    Table::APPLICATIONS.halved(base)
}

pub fn ends_halved(base: &[u8]) -> usize
    requires { length base.now ≡ base_length }
    ensures { Halved base.now ends.start ends.width limits.ends result }
{
    Table::ENDS.halved(base)
}
