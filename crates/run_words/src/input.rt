// An input, line by line.
ghost use Rattle.std.specs.Prelude.{◌≡◌, []};
ghost use Rattle.run_words.specs.Input.{Filled, Gathered, NextLine};

use super::line::Line;
use std::io::Read;
use std::marker::Model;

// The bytes that were read last, of which there are n, and how many of them are gathered. Where the last read brought none the input is over.
#[derive(Clone, Copy)]
pub struct Input {
    read: [u8; 4096],
    from: usize,
    n: usize,
}

impl Model for Input {
    ghost use Rattle.std.specs.Prelude.{◌≤◌, eqb, drop, take};
    ghost use Rattle.run_words.specs.Input.{Left};

    ghost Value = { Left };

    ghost view = { λ x. record { unread = drop x.from (take x.n x.read); over = eqb x.n 0; read = x.read; from = x.from; n = x.n } };

    ghost inverse = { λ x. record { read = x.read; from = x.from; n = x.n } };

    ghost invariant = { λ x. (x.from ≤ x.n) × (x.n ≤ 4096) };
}

impl Input {
    pub fn new() -> Input
        ensures { result.unread ≡ [] }
    {
        Input {
            read: [0; 4096],
            from: 0,
            n: 0,
        }
    }

    // Reads on where all that was read is gathered; whether there is something to gather then. A read that fails ends the input.
    fn fill<R: Read>(&mut self, reader: &mut R) -> bool
        ensures { Filled self.old.unread self.new result }
    {
        if self.from < self.n {
            return true;
        }
        self.from = 0;
        self.n = reader.read(&mut self.read).unwrap_or(0);
        0 < self.n
    }

    // Whether the last read brought nothing: then the line that `next_line` gave had no newline. So it is, too, where nothing was read yet.
    pub fn is_over(&self) -> bool
        ensures { result ≡ self.now.over }
    {
        self.n == 0
    }

    // Puts what is to be gathered to a line, up to a newline; whether there is one.
    pub fn gather(&mut self, line: &mut Line) -> bool
        ensures { Gathered self.old line.old.kept self.new line.new.kept result }
    {
        let unread = &self.read[self.from..self.n];
        match unread.iter().position(|&c| c == b'\n') {
            Some(end) => {
                line.extend(&unread[..end]);
                self.from += end + 1;
                true
            }
            None => {
                line.extend(unread);
                self.from = self.n;
                false
            }
        }
    }

    // The next line, or the first bytes of a longer one; whether there is one. Where the input is over and no byte is kept, there is none.
    // A proved loop has to end, and nothing says that a file does: the turns are as many as no run uses up.
    pub fn next_line<R: Read>(&mut self, reader: &mut R, line: &mut Line) -> bool
        ensures { NextLine self.old.unread self.new line.new.kept result }
    {
        line.clear();
        for _ in 0..u64::MAX {
            if !self.fill(reader) {
                return !line.as_bytes().is_empty();
            }
            if self.gather(line) {
                return true;
            }
        }
        true
    }
}
