//! The framer, which keeps the bytes that came and hands out their lines.
use memchr::{memchr, memrchr};
use std::alloc::{AllocError, Global};
use std::marker::Model;

/// The most bytes that a line may have, without its LF.
pub const MOST_LINE_BYTES: usize = 16_384;

// As many bytes of a line that is not ended yet are kept: they show that it is too long.
const MOST_OPEN_BYTES: usize = MOST_LINE_BYTES + 1;

/// What [`Framer::next_line`] hands out.
#[derive(Clone, Copy, Debug, PartialEq, Eq)]
pub enum Framed {
    /// A line, which [`Framer::line`] reads.
    Line,
    /// A line of more bytes than a line may have.
    TooLong,
}

/// Takes a stream in any pieces, and hands out its lines in order, each once.
#[derive(Drop)]
pub struct Framer {
    buffer: Vec<u8>,
    // the bytes before this place were handed out
    at: usize,
    // the bytes from here on are the line that is not ended yet
    open_start: usize,
    // where the line that was handed out last begins and ends, while it can be read
    current: Option<(usize, usize)>,
}

impl Model for Framer {
    ghost use Rattle.line_frame.specs.Lines.{Framing};
    ghost use Rattle.line_frame.specs.Held.{framing_of, IsLaidOut};

    ghost Value = { Framing };

    ghost view = { λ f. framing_of f.buffer.items f.at f.open_start f.current };

    ghost invariant = { λ f. IsLaidOut f.buffer.items f.at f.open_start f.current };
}

impl Framer {
    ghost use Rattle.std.specs.Prelude.{◌≡◌, ◌≢◌, ◌≤◌, [], ◌∷◌, length, OnOk, OnErr};
    ghost use Rattle.line_frame.specs.Lines.{Whole, most_line_bytes};
    ghost use Rattle.line_frame.specs.Held.{HasNoLf, IsLastLf};
    ghost use Rattle.line_frame.specs.Calls.{Feeds, HandsNext};

    /// A framer to which nothing was fed. It takes no memory.
    pub fn new(alloc: Global) -> Framer
        ensures { result ≡ record { waiting = []; open_line = Whole []; current = [] } }
    {
        Framer {
            buffer: Vec::new(alloc),
            at: 0,
            open_start: 0,
            current: None,
        }
    }

    /// Puts a piece behind what was fed. Where memory runs out nothing changes.
    pub fn feed(&mut self, piece: &[u8]) -> Result<(), AllocError>
        ensures ok { OnOk result (Feeds self.old piece.now self.new) }
        ensures current { OnOk result (self.new.current ≡ []) }
        ensures err { OnErr result (self.new ≡ self.old) }
    {
        match memrchr(b'\n', piece) {
            Some(last) => self.take_lines(piece, last)?,
            None => self.take_open(piece)?,
        }
        self.forget_handed_out();
        Ok(())
    }

    // Takes a piece that has no LF: the open line goes on.
    fn take_open(&mut self, piece: &[u8]) -> Result<(), AllocError>
        requires { HasNoLf piece.now }
        ensures ok { OnOk result (Feeds self.old piece.now self.new) }
        ensures err { OnErr result (self.new ≡ self.old) }
    {
        let open_len = self.buffer.len() - self.open_start;
        let kept = piece.len().min(MOST_OPEN_BYTES - open_len);
        self.buffer.extend_from_slice(&piece[..kept])?;
        Ok(())
    }

    // Takes a piece whose last LF stands at `last`: the open line and all lines up to there
    // wait now.
    fn take_lines(&mut self, piece: &[u8], last: usize) -> Result<(), AllocError>
        requires { IsLastLf piece.now last }
        ensures ok { OnOk result (Feeds self.old piece.now self.new) }
        ensures err { OnErr result (self.new ≡ self.old) }
    {
        let kept = piece.len().min(last + 1 + MOST_OPEN_BYTES);
        self.buffer.extend_from_slice(&piece[..kept])?;
        self.open_start = self.buffer.len() - (kept - (last + 1));
        Ok(())
    }

    // The current line is not read any more. The bytes that were handed out are moved away once
    // they are as many as the others.
    fn forget_handed_out(&mut self)
        ensures { self.new ≡ record self.old { current = [] } }
    {
        self.current = None;
        let left = self.buffer.len() - self.at;
        if self.at >= left {
            self.buffer.copy_within(self.at.., 0);
            self.buffer.truncate(left);
            self.open_start -= self.at;
            self.at = 0;
        }
    }

    /// Hands out the first line that waits, or answers `None` where none waits. It takes no memory.
    pub fn next_line(&mut self) -> Option<Framed>
        ensures next { HandsNext result self.old self.new }
        ensures open_line { self.new.open_line ≡ self.old.open_line }
    {
        self.current = None;
        if self.at == self.open_start {
            return None;
        }
        let start = self.at;
        let Some(len) = memchr(b'\n', &self.buffer[start..self.open_start]) else {
            unreachable!()
        };
        self.at = start + len + 1;
        if len > MOST_LINE_BYTES {
            return Some(Framed::TooLong);
        }
        self.current = Some((start, start + len));
        Some(Framed::Line)
    }

    /// The line that [`Framer::next_line`] handed out last.
    pub fn line(&self) -> &[u8]
        requires { self.now.current ≢ [] }
        ensures line { self.now.current ≡ result.now ∷ [] }
        ensures short { length result.now ≤ most_line_bytes }
    {
        match self.current {
            Some((start, end)) => &self.buffer[start..end],
            None => unreachable!(),
        }
    }
}
