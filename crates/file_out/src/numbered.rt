// SDSs and types: each has the row of its number, which begins with 0 where the number is unused.
ghost use Rattle.std.specs.Prelude.{◌+◌, ◌*◌, ◌≤◌, ◌<◌, length};
ghost use Rattle.rules.specs.11-File.{section};
ghost use Rattle.rows.specs.Rows.{Counted};
ghost use Rattle.file_out.specs.Put.{PutOn, row_bytes, begun_rows, row_entries};
ghost use Rattle.file_out_presences.specs.Out.{PutDown};

// How many of n rows do not begin with 0.
pub fn count(base: &[u8], start: usize, width: usize, n: usize) -> usize
    requires { (0 < width) × (start + n * width ≤ length base.now) }
    ensures { Counted (length (begun_rows base.now start width n)) n result }
{
    let mut used = 0;
    for k in 0..n {
        if base[start + k * width] != 0 {
            used += 1;
        }
    }
    used
}

// Number k and the first `kept` bytes of the row at `row`, unless that begins with 0; what is told is where they end.
fn put_row(base: &[u8], row: usize, kept: usize, k: usize, out: &mut [u8], at: usize) -> usize
    requires row_in_bounds { (row < length base.now) × (row + kept ≤ length base.now) }
    requires k_bound { k < 256 }
    requires k_in_bounds { at + length (row_bytes base.now row kept k) ≤ length out.old }
    ensures { PutOn (row_bytes base.now row kept k) out.old at out.new result }
{
    if base[row] == 0 {
        return at;
    }
    out[at] = k as u8;
    let end = row + kept;
    rows::table::write(out, at + 1, &base[row..end]);
    at + 1 + kept
}

// The section of the rows that do not begin with 0: the number of each, and its first `kept` bytes.
pub fn put(base: &[u8], start: usize, width: usize, n: usize, kept: usize, out: &mut [u8]) -> usize
    requires width_nonzero { (0 < width) × (start + n * width ≤ length base.now) }
    requires kept_le_width { (kept ≤ width) × (n ≤ 256) }
    requires n_in_bounds { length (section (row_entries base.now start width kept n)) ≤ length out.old }
    ensures { PutDown (section (row_entries base.now start width kept n)) out.old out.new result }
{
    let many = count(base, start, width, n);
    let mut at = super::put_count(many, out);
    for k in 0..n {
        at = put_row(base, start + k * width, kept, k, out, at);
    }
    at
}
