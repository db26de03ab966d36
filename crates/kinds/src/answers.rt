// The answer to: tell the kind of one line.

ghost use Rattle.std.specs.Prelude.{◌≡◌};
ghost use Rattle.protocol.specs.Answers.{line_answer, refusal_of};
ghost use Rattle.protocol.specs.Outcomes.{number_of, line_answer_of};

use octets::Classes;
use protocol::{Kind, Refusal};

// Why a line is refused.
#[tactic(auto, using(crate::proofs::Answering::line_long, crate::proofs::Answering::line_several, crate::proofs::Answering::line_good))]
pub fn check_line(classes: &Classes, line: &[u8]) -> Result<(), Refusal>
    ensures { number_of result ≡ refusal_of (line_answer line.now) }
{
    if 512000 < line.len() {
        return Err(Refusal::TooLong);
    }
    if text::holds_line_end(classes, line) {
        return Err(Refusal::SeveralLines);
    }
    Ok(())
}

// A line's kind, unless it is refused.
#[tactic(auto, using(crate::proofs::Answering::kind_answer))]
pub fn line_answer(classes: &Classes, line: &[u8]) -> Result<Kind, Refusal>
    ensures { line_answer_of result ≡ line_answer line.now }
{
    check_line(classes, line)?;
    Ok(crate::line::kind_of(classes, line))
}
