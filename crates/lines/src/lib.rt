// Lines of input of at most 128 bytes, read piece by piece with bounded memory.
#![tactic(auto)]

ghost use Rattle.std.specs.Prelude.{◌≡◌, ◌==◌, ℕ, List, [], ◌++◌, position, IfSome, IfOk};
ghost use Rattle.std.specs.Bool.{then_some};
ghost use Rattle.lines.specs.Lines.{line_text, until_feed};
ghost use Rattle.lines.specs.Said.{said, SaysLine, ReadsLine};
ghost use Rattle.lines.specs.Pieces.{Takes};

use std::io;
use std::io::{BufRead, ErrorKind};

mod each;
mod line;

pub use each::Lines;
pub use line::Line;

// What a piece of input is to the line that is read.
#[derive(Clone, Copy, Debug, PartialEq, Eq)]
enum Piece {
    // none: the input is at its end
    End,
    // the line's last
    Last,
    // the line goes on behind it
    More,
}

// Where the first line feed stands; one call of `position` is no reason to stand on `numerals`.
fn find_feed(piece: &[u8]) -> Option<usize>
    ensures { result ≡ position (λ b. b == 10) piece.now }
{
    piece.iter().position(|b| *b == b'\n')
}

// Takes the bytes of a piece up to its first line feed into the line; where that stands.
fn take_until_feed(line: &mut Line, piece: &[u8]) -> Option<usize>
    ensures feed { result ≡ position (λ b. b == 10) piece.now }
    ensures after { (bs : List ℕ) → said line.old ≡ line_text bs → said line.new ≡ line_text (bs ++ until_feed piece.now) }
{
    let feed = find_feed(piece);
    match feed {
        Some(at) => line.extend(&piece[..at]),
        None => line.extend(piece),
    }
    feed
}

// Takes the next piece of the input into the line, up to its first line feed.
fn take_piece<R: BufRead>(from: &mut R, line: &mut Line) -> io::Result<Piece>
    ensures { IfOk result (λ p. Takes p (R.remaining from.old) (R.remaining from.new) line.old line.new) }
{
    let piece = from.fill_buf()?;
    if piece.is_empty() {
        return Ok(Piece::End);
    }
    let all = piece.len();
    let Some(at) = take_until_feed(line, piece) else {
        from.consume(all);
        return Ok(Piece::More);
    };
    from.consume(at + 1);
    Ok(Piece::Last)
}

// Takes the next line of the input into an empty one, where it lies; whether there was any.
fn read_line<R: BufRead>(from: &mut R, line: &mut Line) -> io::Result<bool>
    requires { said line.old ≡ line_text [] }
    ensures says { IfOk result (λ some. IfSome (then_some some line.new) SaysLine) }
    ensures reads { IfOk result (λ some. ReadsLine (R.remaining from.old) (then_some some line.new) (R.remaining from.new)) }
{
    // bounded, as every loop is; the index tells whether anything was taken
    for taken in 0..u64::MAX {
        match take_piece(from, line)? {
            Piece::More => {}
            Piece::Last => return Ok(true),
            Piece::End => return Ok(taken > 0),
        }
    }
    // more pieces than any input has
    Err(ErrorKind::Other.into())
}

// The next line of the input, or nothing at its end. The last line may lack its line feed.
pub fn next_line<R: BufRead>(from: &mut R) -> io::Result<Option<Line>>
    ensures says { IfOk result (λ o. IfSome o SaysLine) }
    ensures reads { IfOk result (λ o. ReadsLine (R.remaining from.old) o (R.remaining from.new)) }
{
    let mut line = Line::new();
    let some = read_line(from, &mut line)?;
    Ok(some.then_some(line))
}
