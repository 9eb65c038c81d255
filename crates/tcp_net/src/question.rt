// The request that is being answered, as an operator is told of it.

// How many bytes are kept of it.
const MOST_BYTES: usize = 200;

// What of a request is coming.
#[derive(Clone, Copy, PartialEq, Eq)]
enum Part {
    Line,
    Fields,
    Body,
}

// The front of a request: its first line, and its body behind a blank. Its fields say nothing of what is asked.
#[derive(Clone, Copy)]
pub(crate) struct Question {
    bytes: [u8; MOST_BYTES],
    count: usize,
    part: Part,
}

impl Question {
    pub(crate) fn new() -> Self {
        Question {
            bytes: [0; MOST_BYTES],
            count: 0,
            part: Part::Line,
        }
    }

    // What is kept, as it came.
    pub(crate) fn bytes(&self) -> &[u8] {
        match self.bytes.get(..self.count) {
            Some(bytes) => bytes,
            None => &self.bytes,
        }
    }

    // A piece of the request came, of which so many bytes stand behind the head.
    pub(crate) fn note_read(&mut self, piece: &[u8], behind: u64) {
        let body = behind.min(piece.len() as u64) as usize;
        let (head, body) = piece.split_at(piece.len() - body);
        self.note_head(head);
        self.note_body(body);
    }

    // Keeps the first line. Line ends before it are passed over.
    fn note_head(&mut self, head: &[u8]) {
        if self.part != Part::Line {
            return;
        }
        let head = match self.count {
            0 => without_line_ends(head),
            _ => head,
        };
        match head.iter().position(|byte| *byte == b'\n') {
            Some(at) => {
                let line = &head[..at];
                self.keep(line.strip_suffix(b"\r").unwrap_or(line));
                self.part = Part::Fields;
            }
            None => self.keep(head),
        }
    }

    fn note_body(&mut self, body: &[u8]) {
        if body.is_empty() {
            return;
        }
        if self.part != Part::Body {
            self.keep(b" ");
            self.part = Part::Body;
        }
        self.keep(body);
    }

    // Keeps as many bytes as there is room for.
    fn keep(&mut self, piece: &[u8]) {
        for byte in piece {
            let Some(place) = self.bytes.get_mut(self.count) else {
                return;
            };
            *place = *byte;
            self.count += 1;
        }
    }
}

fn without_line_ends(piece: &[u8]) -> &[u8] {
    match piece
        .iter()
        .position(|byte| !matches!(*byte, b'\r' | b'\n'))
    {
        Some(at) => &piece[at..],
        None => b"",
    }
}
