// A line of output, which is built from its end to its beginning, in fixed memory: a `write!` could fail, and an answer can't.

ghost use Rattle.std.specs.Prelude.{◌≡◌, ◌+◌, ◌≤◌, ◌++◌, [], length};
ghost use Rattle.protocol.specs.Program.{decimal, side_text};

use protocol::Side;
use std::marker::Model;

// Its octets are those from `start` to the array's end, behind zeros. The longest is a disallow with three numbers of 20 digits: 93 octets.
#[derive(Drop)]
pub struct Line {
    octets: [u8; 96],
    start: usize,
}

impl Model for Line {
    ghost use Rattle.std.specs.Prelude.{List, ℕ};

    ghost Value = { List ℕ };

    ghost use Rattle.output.specs.Written.{written, ZerosInFront};

    ghost view = { written };

    ghost invariant = { ZerosInFront };
}

impl Line {
    pub(crate) fn new() -> Self
        ensures { result ≡ [] }
    {
        Line {
            octets: [0; 96],
            start: 96,
        }
    }

    // The octets that are to be written.
    pub fn octets(&self) -> &[u8]
        ensures { result.now ≡ self.now }
    {
        &self.octets[self.start..]
    }

    // A text, in front of what stands there.
    pub(crate) fn put_text(&mut self, text: &[u8])
        requires { length text.now + length self.old ≤ 96 }
        ensures value { self.new ≡ text.now ++ self.old }
        ensures size { length self.new ≡ length text.now + length self.old }
    {
        let end = self.start;
        self.start -= text.len();
        self.octets[self.start..end].copy_from_slice(text);
    }

    // A number in decimal.
    pub(crate) fn put_decimal(&mut self, n: usize)
        requires { 20 + length self.old ≤ 96 }
        ensures value { self.new ≡ decimal n ++ self.old }
        ensures size { length self.new ≤ 20 + length self.old }
    {
        let mut rest = n;
        // No `for`: nobody knows how many digits there are before they are written.
        while 10 <= rest {
            self.put_text(&[b'0' + (rest % 10) as u8]);
            rest /= 10;
        }
        self.put_text(&[b'0' + rest as u8]);
    }

    // The word of a side.
    #[tactic(auto, unfolding(protocol::specs::Program::side_text, protocol::specs::Text::octets))]
    pub(crate) fn put_side(&mut self, side: Side)
        requires { 8 + length self.old ≤ 96 }
        ensures { self.new ≡ side_text side ++ self.old }
    {
        match side {
            Side::Allow => self.put_text(b"allow"),
            Side::Disallow => self.put_text(b"disallow"),
        }
    }
}
