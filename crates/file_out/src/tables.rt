// Applications and ends: their rows are the file's entries, in the same order.
ghost use Rattle.std.specs.Prelude.{◌+◌, ◌*◌, ◌≤◌, ◌<◌, ◌++◌, length};
ghost use Rattle.rules.specs.02-Limits.{limits};
ghost use Rattle.rules.specs.07-Picture.{Sound};
ghost use Rattle.rows.specs.Rows.{part, Counted};
ghost use Rattle.base.specs.Back.{schema_of};
ghost use Rattle.file_out.specs.Parts.{count_bytes};
ghost use Rattle.file_out_presences.specs.Out.{PutDown};

// How many applications there are: their used rows stand before the others, so halving finds it.
pub fn applications(base: &[u8]) -> usize
    requires { Sound base.now }
    ensures { Counted (length (schema_of base.now).applications) limits.applications result }
{
    base::used::applications_halved(base)
}

// How many ends, likewise.
pub fn ends(base: &[u8]) -> usize
    requires { Sound base.now }
    ensures { Counted (length (schema_of base.now).ends) limits.ends result }
{
    base::used::ends_halved(base)
}

// The count of n rows, and their bytes as they stand.
pub fn put(base: &[u8], start: usize, width: usize, n: usize, out: &mut [u8]) -> usize
    requires n_bound { (n < 65536) × (start + n * width ≤ length base.now) }
    requires width_in_bounds { length (count_bytes n ++ part base.now start (n * width)) ≤ length out.old }
    ensures { PutDown (count_bytes n ++ part base.now start (n * width)) out.old out.new result }
{
    let at = super::put_count(n, out);
    let bytes = n * width;
    let end = start + bytes;
    rows::table::write(out, at, &base[start..end]);
    at + bytes
}
