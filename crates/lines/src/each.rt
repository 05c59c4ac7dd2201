// The lines of an input, one after another.
ghost use Rattle.std.specs.Prelude.{◌≡◌, ◌^◌, ◌-◌};
ghost use Rattle.std.specs.Iterator.{at_most};
ghost use Rattle.lines.specs.Each.{lines_left, known_left, GivesLine};

use crate::{Line, read_line};
use std::io;
use std::io::BufRead;

// The lines of an input, no more than 2^64 - 1.
#[derive(Drop)]
pub struct Lines<R> {
    from: R,
    left: u64,
}

impl<R: BufRead> Lines<R> {
    // All lines that are left of the input.
    pub fn of(from: R) -> Lines<R>
        ensures known { known_left R.remaining result ≡ R.remaining from }
        ensures left { lines_left result ≡ 2 ^ 64 - 1 }
    {
        Lines {
            from,
            left: u64::MAX,
        }
    }
}

impl<R: BufRead> Iterator for Lines<R>
where
    R: Drop,
{
    type Item = io::Result<Line>;

    ghost next_gives = { λ s r t. GivesLine (lines_left s) (known_left R.remaining s) r (known_left R.remaining t) };

    ghost remaining = { λ s. at_most (lines_left s) };

    fn next(&mut self) -> Option<io::Result<Line>> {
        self.left = self.left.checked_sub(1)?;
        // by a match, for a line that `transpose` hands on is taken apart and put together
        let mut line = Line::new();
        match read_line(&mut self.from, &mut line) {
            Ok(true) => Some(Ok(line)),
            Ok(false) => None,
            Err(error) => Some(Err(error)),
        }
    }
}
