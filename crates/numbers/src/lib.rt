// Answers as numbers: of a line's kind, and of its value's place and length.

#![tactic(auto)]

ghost use Rattle.std.specs.Prelude.{ℕ, ◌≡◌};
ghost use Rattle.protocol.specs.Kinds.{place_of, length_of};
ghost use Rattle.protocol.specs.Answers.{kind_number, kind_number_of, value_place, value_length};
ghost use Rattle.protocol.specs.Outcomes.{line_answer_by};

use protocol::{Agent, Kind, Pattern, Place, Side};

// The number of a kind, from 1 on. No `From`: it is asked for here alone.
fn kind_number(kind: Kind) -> usize
    ensures { result ≡ kind_number kind }
{
    match kind {
        Kind::Blank => 1,
        Kind::Noise => 2,
        Kind::Other => 3,
        Kind::Agent(Agent::Readable(_, _)) => 4,
        Kind::Agent(Agent::Unreadable(_, _)) => 5,
        Kind::Rule(Side::Allow, Pattern::Empty) => 6,
        Kind::Rule(Side::Allow, Pattern::Readable(_, _)) => 7,
        Kind::Rule(Side::Allow, Pattern::Unreadable(_, _)) => 8,
        Kind::Rule(Side::Disallow, Pattern::Empty) => 9,
        Kind::Rule(Side::Disallow, Pattern::Readable(_, _)) => 10,
        Kind::Rule(Side::Disallow, Pattern::Unreadable(_, _)) => 11,
    }
}

// The number of a line's kind: 0 where the line is refused, whatever tells the refusal.
pub fn kind_number_of<R: Copy>(answer: Result<Kind, R>) -> usize
    ensures { (number : R → ℕ) → result ≡ kind_number_of (line_answer_by number answer) }
{
    answer.map_or(0, kind_number)
}

// The place in the line of an agent's value or a rule's pattern: 0 where there is none, as robots_line_place answers. It and the length are two
// functions, as those of C are.
pub fn place_of(kind: Kind) -> Place
    ensures { result ≡ place_of kind }
{
    match kind {
        Kind::Agent(Agent::Readable(place, _) | Agent::Unreadable(place, _)) => place,
        Kind::Rule(_, Pattern::Readable(place, _) | Pattern::Unreadable(place, _)) => place,
        Kind::Blank | Kind::Noise | Kind::Other | Kind::Rule(_, Pattern::Empty) => Place {
            offset: 0,
        },
    }
}

pub fn value_place<R: Copy>(answer: Result<Kind, R>) -> Place
    ensures { (number : R → ℕ) → result ≡ value_place (line_answer_by number answer) }
{
    answer.map_or(Place { offset: 0 }, place_of)
}

// Its length.
pub fn length_of(kind: Kind) -> usize
    ensures { result ≡ length_of kind }
{
    match kind {
        Kind::Agent(Agent::Readable(_, length) | Agent::Unreadable(_, length)) => length,
        Kind::Rule(_, Pattern::Readable(_, length) | Pattern::Unreadable(_, length)) => length,
        Kind::Blank | Kind::Noise | Kind::Other | Kind::Rule(_, Pattern::Empty) => 0,
    }
}

pub fn value_length<R: Copy>(answer: Result<Kind, R>) -> usize
    ensures { (number : R → ℕ) → result ≡ value_length (line_answer_by number answer) }
{
    answer.map_or(0, length_of)
}
