// The parents: type by type, each with its child.
ghost use Rattle.std.specs.Prelude.{◌+◌, ◌≤◌, ◌<◌, map, length};
ghost use Rattle.rules.specs.01-Lists.{joined};
ghost use Rattle.rules.specs.02-Limits.{limits};
ghost use Rattle.rules.specs.04-Schema.{parents};
ghost use Rattle.rules.specs.07-Picture.{Sound};
ghost use Rattle.rules.specs.11-File.{section, parent_entry, parent_entries};
ghost use Rattle.rows.specs.Rows.{Counted};
ghost use Rattle.base.specs.Back.{schema_of};
ghost use Rattle.file_out.specs.Put.{PutOn};
ghost use Rattle.file_out_presences.specs.Out.{PutDown};

use file_sections::Width;
use rules::Limits;

// How many there are; no type has more than four.
pub fn count(base: &[u8]) -> usize
    requires { Sound base.now }
    ensures { Counted (length (parent_entries (schema_of base.now))) 512 result }
{
    let mut n = 0;
    for t in 0..Limits::TYPES {
        n += base::parent_count(base, t);
    }
    n
}

// Those of type t; what is told is where they end.
fn put_of(base: &[u8], t: usize, out: &mut [u8], from: usize) -> usize
    requires sound { Sound base.now }
    requires t_lt_types { t < limits.types }
    requires t_in_bounds { from + length (joined (map (parent_entry t) (parents (schema_of base.now) t))) ≤ length out.old }
    ensures { PutOn (joined (map (parent_entry t) (parents (schema_of base.now) t))) out.old from out.new result }
{
    let mut at = from;
    for i in 0..base::parent_count(base, t) {
        rows::table::write(out, at, &[t as u8, base::parent(base, t, i) as u8]);
        at += Width::PARENT;
    }
    at
}

// The section of all.
pub fn put(base: &[u8], out: &mut [u8]) -> usize
    requires sound { Sound base.now }
    requires base_in_bounds { length (section (parent_entries (schema_of base.now))) ≤ length out.old }
    ensures { PutDown (section (parent_entries (schema_of base.now))) out.old out.new result }
{
    let many = count(base);
    let mut at = super::put_count(many, out);
    for t in 0..Limits::TYPES {
        at = put_of(base, t, out, at);
    }
    at
}
