// The input of the program `dayline`, read in pieces: what a read gave, and the first line.
ghost use Rattle.std.specs.Prelude.{IfOk};
ghost use Rattle.std.specs.Io.{ReadsAtMost};
ghost use Rattle.io.specs.Counts.{IsPrefixLen};
ghost use Rattle.dayline_text.specs.Input.{Reads, Takes, Begins};

use crate::first_line::Line;
use std::io::{ErrorKind, Read, Result, Stdin};
use texts::bytes::find;

// The next piece of the input, at the start of the buffer: how long it is, 0 at the input's end.
#[tactic(auto, using(crate::proofs::Answers::reads))]
pub fn read(input: &mut Stdin, piece: &mut [u8]) -> Result<usize>
    ensures prefix_len { IfOk result (λ n. IsPrefixLen n piece.new) }
    ensures reads { Reads piece.new result }
{
    input.read(piece)
}

// Where the reports begin in a piece of the input, and how long that piece is: the piece is lent for each read, so its length is told beside it.
#[derive(Clone, Copy)]
pub struct Place {
    pub from: usize,
    pub got: usize,
}

// The first line with what a read gave more of it: where the reports begin, if the line ended. It ends at its LF, and at the end of the
// input.
fn take(line: &mut Line, answer: Result<usize>, piece: &[u8]) -> Result<Option<Place>>
    requires { ReadsAtMost answer piece.now }
    ensures { Takes line.old answer piece.now line.new result }
{
    let got = answer?;
    let s = &piece[..got];
    match find(s, b'\n') {
        Some(k) => {
            line.piece(&s[..k]);
            Ok(Some(Place { from: k + 1, got }))
        }
        None => {
            line.piece(s);
            Ok((got == 0).then_some(Place { from: 0, got }))
        }
    }
}

// The first line, and the place of the reports in the piece of the input that its end lies in.
#[derive(Clone, Copy)]
pub struct Start {
    pub line: Line,
    pub place: Place,
}

// The first line: pieces are read until it ends. A proved loop has to end, so the pieces are counted, up to a number that no run reaches.
pub fn first_line(input: &mut Stdin, piece: &mut [u8]) -> Result<Start>
    ensures { IfOk result (λ r. Begins piece.new r) }
{
    let mut line = Line::new();
    for _ in 0..u64::MAX {
        let answer = read(input, piece);
        if let Some(place) = take(&mut line, answer, piece)? {
            return Ok(Start { line, place });
        }
    }
    Err(ErrorKind::Other.into())
}
