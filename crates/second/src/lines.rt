// The lines of the input, which are read one after the other.
ghost use Rattle.std.specs.Prelude.{◌<◌, ◌≤◌, length, IfSome};
ghost use Rattle.second.specs.declared.lines.TheConstants.{ROOM};

use std::io::Read;

// The bytes of the text that are held at a time: a line may have no more, its newline among them.
const ROOM: usize = 65600;

// The text that is held, and the place of the next line in it.
#[derive(Drop)]
pub struct Lines {
    text: [u8; ROOM],
    at: usize,
    held: usize,
    ghost begun: { at ≤ held },
    ghost within: { held ≤ ROOM },
}

// Reads until the room is full, the input ends or a read fails. The answer is how many bytes were read.
fn read_full(input: &mut impl Read, room: &mut [u8]) -> usize
    ensures { result ≤ length room.old }
{
    // Kept: a while, since no call of the library fills a room and tells how much the input had.
    let mut done = 0;
    while done < room.len() {
        match input.read(&mut room[done..]) {
            Ok(0) | Err(_) => return done,
            Ok(more) => done += more,
        }
    }
    done
}

impl Lines {
    // Before anything is read.
    pub fn new() -> Lines {
        Lines {
            text: [0; ROOM],
            at: 0,
            held: 0,
        }
    }

    // The place of the next newline that is held.
    fn end(&self) -> Option<usize>
        ensures { IfSome result (λ n. (self.now.at ≤ n) × (n < self.now.held)) }
    {
        let length = self.text[self.at..self.held]
            .iter()
            .position(|x| *x == b'\n')?;
        Some(self.at + length)
    }

    // Drops what stands before the next line, and reads on behind what is held.
    fn refill(&mut self, input: &mut impl Read) {
        self.text.copy_within(self.at..self.held, 0);
        let held = self.held - self.at;
        let more = read_full(input, &mut self.text[held..]);
        self.at = 0;
        self.held = held + more;
    }

    // The next line. Where its newline is not held, more is read first; there is none where no newline is held then.
    pub fn next(&mut self, input: &mut impl Read) -> Option<&[u8]> {
        let end = match self.end() {
            Some(end) => end,
            None => {
                self.refill(input);
                self.end()?
            }
        };
        let start = self.at;
        self.at = end + 1;
        Some(&self.text[start..end])
    }
}
