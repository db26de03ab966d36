// The types that document 01's answers are told in, and the names of its fields. What each answer is, for every input, is defined in specs/.

#![tactic(auto)]

ghost use Rattle.std.specs.Prelude.{◌≡◌};
ghost use Rattle.protocol.specs.Answers.{side_number};
ghost use Rattle.protocol.specs.Outcomes.{refusal_number, Chosen};

// The table of the octets' class numbers, one for each octet.
pub type ClassTable = [u8; 256];

// A sort of octets that the code asks for.
#[derive(Clone, Copy, PartialEq, Eq)]
pub enum Sort {
    Token,
    Unreserved,
    Hex,
    Blank,
    LineEnd,
    Stop,
    Delimiter,
}

// The number of a line, counted from 1; 0 stands for no line, as document 01 and robots_decide_line have it.
#[derive(Clone, Copy, PartialEq, Eq)]
pub struct LineNumber {
    pub number: usize,
}

// The place of an octet in a file or in a line, counted from 0.
#[derive(Clone, Copy, PartialEq, Eq)]
pub struct Place {
    pub offset: usize,
}

// Where a line stands in its file. That its number is at most its place plus one is asked for by who counts on: `next_line` makes a position of any
// two.
#[derive(Clone, Copy)]
pub struct Position {
    pub number: LineNumber,
    pub place: Place,
}

// The side of a rule, and of a decision.
#[derive(Clone, Copy, PartialEq, Eq)]
pub enum Side {
    Allow,
    Disallow,
}

// A rule: its line, its side, and the place and length of its pattern in the file: two fields, as document 01 names them.
#[derive(Clone, Copy)]
pub struct Rule {
    pub line: LineNumber,
    pub side: Side,
    pub place: Place,
    pub length: usize,
}

// The paper whose rules decide: RFC 9309, or the draft of 1996.
#[derive(Clone, Copy, PartialEq, Eq)]
pub enum Dialect {
    Rfc9309,
    Draft1996,
}

// Whose groups apply: those that name the crawler, those of "*", or nobody's.
#[derive(Clone, Copy, PartialEq, Eq)]
pub enum Audience {
    Crawler,
    Everyone,
    Nobody,
}

// The value of an agent line, with its place and length: 0 and 0 where it is empty, as `agent_at` defines it.
#[derive(Clone, Copy, PartialEq, Eq)]
pub enum Agent {
    Readable(Place, usize),
    Unreadable(Place, usize),
}

// The pattern of a rule line, with its place and length.
#[derive(Clone, Copy, PartialEq, Eq)]
pub enum Pattern {
    Empty,
    Readable(Place, usize),
    Unreadable(Place, usize),
}

// The kind of a line.
#[derive(Clone, Copy, PartialEq, Eq)]
pub enum Kind {
    Blank,
    // Document 01's own term: something is left of the line, and no colon is in it.
    Noise,
    Other,
    Agent(Agent),
    Rule(Side, Pattern),
}

// One try of a run at one place of a path: whether no pair of octets differed, and the pairs compared so far, which are meant in both cases. It is
// the record of the definition `tried`.
#[derive(Clone, Copy)]
pub struct Tried {
    pub stood: bool,
    pub count: usize,
}

// A walk after some of its runs: whether all of them stood, where the last one ends in the path (0 where one failed), and the pairs compared so far.
// It is the record of the definition `walk`.
#[derive(Clone, Copy)]
pub struct Walked {
    pub stood: bool,
    pub past: usize,
    pub count: usize,
}

// A decision that isn't refused: its side, and the deciding rule's line, place and length: 0 where no rule decides, as the C functions answer.
#[derive(Clone, Copy)]
pub struct Verdict {
    pub side: Side,
    pub line: LineNumber,
    pub place: Place,
    pub length: usize,
    // Document 01's own term: the number of unreadable agent and rule lines in the whole file.
    pub unread: usize,
    pub compared: usize,
}

// Why a question is refused, with document 01's numbers.
#[derive(Clone, Copy, PartialEq, Eq)]
pub enum Refusal {
    TooLong = 1,
    BadName = 2,
    BadLength = 3,
    BadStart = 4,
    BadOctet = 5,
    NoRoom = 6,
    InputTooLong = 7,
    BadPattern = 8,
    SeveralLines = 9,
    BadEnds = 12,
    ShortAnswers = 13,
    UnknownDialect = 20,
}

impl Refusal {
    // Its number in the table of refusals. A method and no `From`: who reads a call of it sees which number it is.
    pub fn number(self) -> usize
        ensures { result ≡ refusal_number self }
    {
        self as usize
    }
}

// Allow or disallow, where a number is wanted.
impl From<Side> for usize {
    ghost from_gives = { λ side n. n ≡ side_number side };

    fn from(side: Side) -> usize {
        match side {
            Side::Allow => 0,
            Side::Disallow => 1,
        }
    }
}

// The dialect of a number.
impl TryFrom<usize> for Dialect {
    type Error = Refusal;

    ghost try_from_gives = { Chosen };

    fn try_from(number: usize) -> Result<Self, Refusal> {
        match number {
            0 => Ok(Dialect::Rfc9309),
            1 => Ok(Dialect::Draft1996),
            _ => Err(Refusal::UnknownDialect),
        }
    }
}

// The names of the fields that the protocol knows: one to a row, in lower case, zeros behind it. Rows of one width, since `near.rt` of fields reads
// the first eight octets of each as one word.
pub const FIELDS: [[u8; 10]; 3] = [*b"user-agent", *b"allow\0\0\0\0\0", *b"disallow\0\0"];
