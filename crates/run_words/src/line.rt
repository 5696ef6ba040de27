// A line as it is gathered.
ghost use Rattle.std.specs.Prelude.{◌≡◌, ◌≤◌, ◌++◌, [], length, take};
ghost use Rattle.run_words.specs.Lines.{Kept};

use std::marker::Model;

// A line may have 127 bytes. One more is kept of it, so that a longer one is told from it.
#[derive(Clone, Copy)]
pub struct Line {
    bytes: [u8; 128],
    kept: usize,
}

impl Model for Line {
    ghost use Rattle.std.specs.Prelude.{◌≤◌, take};
    ghost use Rattle.run_words.specs.Lines.{Held};

    ghost Value = { Held };

    ghost view = { λ l. record { kept = take l.kept l.bytes; bytes = l.bytes; many = l.kept } };

    ghost inverse = { λ l. record { bytes = l.bytes; kept = l.many } };

    ghost invariant = { λ l. l.kept ≤ 128 };
}

// Puts of a piece what there is room for behind the n bytes that are kept of a line, and says how many are kept then.
fn keep(line: &mut [u8], n: usize, piece: &[u8]) -> usize
    requires { (length line.old ≡ 128) × (n ≤ 128) }
    ensures { Kept line.old n piece.now line.new result }
{
    let more = piece.len().min(line.len() - n);
    line[n..n + more].copy_from_slice(&piece[..more]);
    n + more
}

impl Line {
    pub const KEPT: usize = 128;

    pub fn new() -> Line
        ensures { result.kept ≡ [] }
    {
        Line {
            bytes: [0; 128],
            kept: 0,
        }
    }

    pub fn as_bytes(&self) -> &[u8]
        ensures { result.now ≡ self.now.kept }
    {
        &self.bytes[..self.kept]
    }

    pub fn clear(&mut self)
        ensures { self.new.kept ≡ [] }
    {
        self.kept = 0;
    }

    pub fn extend(&mut self, piece: &[u8])
        ensures { self.new.kept ≡ take 128 (self.old.kept ++ piece.now) }
    {
        self.kept = keep(&mut self.bytes, self.kept, piece);
    }
}
