// What the program reads and writes: the parts of its input, and the line of its output.

#![tactic(auto)]

mod line; // line.rt: a line of output, built from its end to its beginning
pub mod parts; // parts.rt: the lines of the input, one after the other

ghost use Rattle.std.specs.Prelude.{◌≡◌};
ghost use Rattle.protocol.specs.Refusals.{unless_refused};
ghost use Rattle.protocol.specs.Outcomes.{decided, decision_of};
ghost use Rattle.protocol.specs.Program.{refused_text, answer_text};

pub use line::Line;
use protocol::{Refusal, Verdict};

#[tactic(auto, unfolding(protocol::specs::Program::refused_text, protocol::specs::Text::octets))]
pub fn refused_line(number: usize) -> Line
    ensures { result ≡ refused_text number }
{
    let mut line = Line::new();
    line.put_text(b"\n");
    line.put_decimal(number);
    line.put_text(b"refused ");
    line
}

#[tactic(auto, using(std::proofs::lemmas::List::append_assoc), unfolding(protocol::specs::Program::answer_text, protocol::specs::Text::octets))]
fn answered_line(verdict: Verdict) -> Line
    ensures { result ≡ answer_text (decided verdict) }
{
    let mut line = Line::new();
    line.put_text(b"\n");
    line.put_decimal(verdict.compared);
    line.put_text(b" compared ");
    line.put_decimal(verdict.unread);
    line.put_text(b" unread ");
    line.put_decimal(verdict.line.number);
    line.put_text(b" line ");
    line.put_side(verdict.side);
    line
}

// The line of a decision, refused or not.
#[tactic(auto, using(protocol::proofs::Refused::unless_refused_lem, protocol::proofs::Outcomes::refused_number), unfolding(protocol::specs::Refusals::unless_refused))]
pub fn answer_line(answer: Result<Verdict, Refusal>) -> Line
    ensures { result ≡ unless_refused (decision_of answer).refusal refused_text (answer_text (decision_of answer)) }
{
    match answer {
        Ok(verdict) => answered_line(verdict),
        Err(refusal) => refused_line(refusal.number()),
    }
}
