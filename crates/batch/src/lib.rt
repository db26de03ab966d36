// Many paths against one file and one name, in one call.

#![tactic(auto)]

ghost use Rattle.std.specs.Prelude.{◌≡◌, ◌≤◌, length};
ghost use Rattle.protocol.specs.Meaning.{readable_for};
ghost use Rattle.protocol.specs.Outcomes.{number_of};
ghost use Rattle.protocol.specs.Batch.{batch_refusal, refusals_after, sides_after, lines_after};
ghost use Rattle.listing.specs.Memory.{held, Same, Fits, Cleared};
ghost use Rattle.hearing.specs.Heard.{whom};
ghost use Rattle.rounds.specs.Rounds.{Round};
ghost use Rattle.batch.specs.Asked.{asked, Answered};

use listing::{Answers, Paths};
use octets::Classes;
use protocol::{Audience, Dialect, Refusal};

// The name that those have whose groups apply: nobody has none.
#[tactic(auto, unfolding(protocol::specs::Text::octets))]
fn whom(audience: Audience, name: &[u8]) -> &[u8]
    ensures { result.now ≡ whom audience name.now }
{
    match audience {
        Audience::Crawler => name,
        Audience::Everyone => b"*".as_slice(),
        Audience::Nobody => &name[..0],
    }
}

// Zeros in the first n places. It stays over one slice: filled through the struct of the three, what is `Cleared` doesn't close.
fn clear(slice: &mut [usize], n: usize)
    requires { n ≤ length slice.old }
    ensures { Cleared n slice.old slice.new }
{
    slice[..n].fill(0);
}

// Each path goes through all rules that apply. A struct of the call would hold the lent memory too, and be borrowed again for each path; so what has to
// fit stays a clause.
fn lead_paths(
    classes: &Classes,
    dialect: Dialect,
    file: &[u8],
    name: &[u8],
    paths: Paths,
    answers: &mut Answers,
)
    requires short { length file.now ≤ 512000 }
    requires fits { Fits (length paths.ends.now) (held answers.old) }
    ensures same { Same answers.old answers.new }
    ensures round { Round dialect file.now (readable_for file.now name.now) paths.entry.joined.now paths.entry.ends.now (held answers.old) (held answers.new) }
{
    let chosen = passes::audience::choose_audience(classes, file, name);
    let who = whom(chosen.audience, name);
    rounds::rounds(classes, dialect, file, who, paths, answers);
}

// The answers where the call isn't refused.
fn answer(
    classes: &Classes,
    dialect: Dialect,
    file: &[u8],
    name: &[u8],
    paths: Paths,
    answers: &mut Answers,
)
    requires short { length file.now ≤ 512000 }
    requires fits { Fits (length paths.ends.now) (held answers.old) }
    ensures same { Same answers.old answers.new }
    ensures answered { Answered dialect file.now name.now paths.entry.joined.now paths.entry.ends.now (held answers.old) (held answers.new) }
{
    let count = paths.ends.len();
    clear(answers.refusals, count);
    clear(answers.sides, count);
    clear(answers.lines, count);
    lead_paths(classes, dialect, file, name, paths, answers);
    answers.finish(paths);
}

// Each path's refusal, decision and line go to its place in the lent memory; where the call is refused, nothing is written. The arguments are those
// of robots_batch, whose clauses speak of each slice.
pub fn batch(
    classes: &Classes,
    file: &[u8],
    name: &[u8],
    paths: &[u8],
    ends: &[usize],
    refusals: &mut [usize],
    sides: &mut [usize],
    lines: &mut [usize],
    dialect: usize,
) -> Result<(), Refusal>
    ensures value { number_of result ≡ batch_refusal (asked dialect file.now name.now paths.now ends.now refusals.old sides.old lines.old) }
    ensures refusals_after { refusals.new ≡ refusals_after (asked dialect file.now name.now paths.now ends.now refusals.old sides.old lines.old) }
    ensures sides_after { sides.new ≡ sides_after (asked dialect file.now name.now paths.now ends.now refusals.old sides.old lines.old) }
    ensures lines_after { lines.new ≡ lines_after (asked dialect file.now name.now paths.now ends.now refusals.old sides.old lines.old) }
{
    let mut answers = Answers {
        refusals,
        sides,
        lines,
    };
    let short = answers.is_short(ends.len());
    let known = listing::check_call(classes, file, name, paths, ends, short, dialect)?;
    let paths = Paths {
        joined: paths,
        ends,
    };
    answer(classes, known, file, name, paths, &mut answers);
    Ok(())
}
