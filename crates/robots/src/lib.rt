// Every function that is exported to C. Each asks one question of the crates below, and returns one number of the answer. include/robots.h
// says what a caller owes.

#![tactic(auto)]

ghost use Rattle.std.specs.Prelude.{◌≡◌, ◌↔◌, ◌+◌, ◌*◌, ◌≤◌, length};
ghost use Rattle.lists.specs.Lists.{total};
ghost use Rattle.protocol.specs.Normal.{normal_path};
ghost use Rattle.protocol.specs.Pattern.{shape_of, weight};
ghost use Rattle.protocol.specs.Matching.{Matches};
ghost use Rattle.protocol.specs.Refusals.{dialect_of, decide_rows, match_rows, normalise_rows, line_rows, match_refusal, normalise_refusal};
ghost use Rattle.protocol.specs.Decision.{weight_in};
ghost use Rattle.protocol.specs.Meaning.{ByTable, Shut};
ghost use Rattle.protocol.specs.Outcomes.{number_of, decision_of};
ghost use Rattle.decide.specs.Telling.{told};
ghost use Rattle.protocol.specs.Batch.{batch_rows, batch_refusal, refusals_after, sides_after, lines_after};
ghost use Rattle.batch.specs.Asked.{asked};
ghost use Rattle.protocol.specs.Answers.{decide, walked_rules, side_number, match_of, found_number, normalise_of, normalise_buffer, line_answer, refusal_of, kind_number_of, value_place, value_length};

use octets::Classes;
use protocol::{Refusal, Verdict};

// A refusal's number: 0 where nothing is refused.
fn number_of<T: Copy>(outcome: Result<T, Refusal>) -> usize
    ensures { result ≡ number_of outcome }
{
    match outcome {
        Ok(_) => 0,
        Err(refusal) => refusal.number(),
    }
}

// The decision; with its unread count only where the whole file is to be read for it.
fn decide_by(
    whole: bool,
    dialect: usize,
    file: &[u8],
    name: &[u8],
    path: &[u8],
) -> Result<Verdict, Refusal>
    ensures { decision_of result ≡ told whole (decide dialect file.now name.now path.now) }
{
    let classes = Classes::new();
    decide::answers::decide(&classes, whole, file, name, path, dialect)
}

// Why a decision is refused, by the table of refusals: 0 where it isn't.
#[tactic(auto, using(protocol::proofs::Demands::decide_refusal_lem))]
#[unsafe(no_mangle)]
pub extern "C" fn robots_decide_refusal(
    dialect: usize,
    file: &[u8],
    name: &[u8],
    path: &[u8],
) -> usize
    ensures value { result ≡ (decide dialect file.now name.now path.now).refusal }
    ensures by_table { ByTable (decide_rows dialect file.now name.now path.now) result }
{
    let classes = Classes::new();
    number_of(decide::answers::check_question(&classes, file, name, path, dialect))
}

// 0 where the path is allowed, 1 where it is disallowed. A refused decision is 1: it fails shut.
#[unsafe(no_mangle)]
pub extern "C" fn robots_decide_disallow(
    dialect: usize,
    file: &[u8],
    name: &[u8],
    path: &[u8],
) -> usize
    ensures value { result ≡ side_number (decide dialect file.now name.now path.now).side }
    ensures variant { (result ≡ 1) ↔ Shut dialect file.now name.now path.now }
{
    let answer = decide_by(false, dialect, file, name, path);
    answer.map_or(1, |verdict| usize::from(verdict.side))
}

// The line of the rule that decided, counted from 1: 0 where none did.
#[unsafe(no_mangle)]
pub extern "C" fn robots_decide_line(dialect: usize, file: &[u8], name: &[u8], path: &[u8]) -> usize
    ensures { result ≡ (decide dialect file.now name.now path.now).line.number }
{
    let answer = decide_by(false, dialect, file, name, path);
    answer.map_or(0, |verdict| verdict.line.number)
}

// Where that rule's pattern begins in the file, counted from 0: 0 where none decided.
#[unsafe(no_mangle)]
pub extern "C" fn robots_decide_place(
    dialect: usize,
    file: &[u8],
    name: &[u8],
    path: &[u8],
) -> usize
    ensures { result ≡ (decide dialect file.now name.now path.now).place.offset }
{
    let answer = decide_by(false, dialect, file, name, path);
    answer.map_or(0, |verdict| verdict.place.offset)
}

// How many octets that pattern has: 0 where none decided. From their place on, they lie inside the file.
#[tactic(auto, using(protocol::proofs::Demands::decide_inside))]
#[unsafe(no_mangle)]
pub extern "C" fn robots_decide_length(
    dialect: usize,
    file: &[u8],
    name: &[u8],
    path: &[u8],
) -> usize
    ensures value { result ≡ (decide dialect file.now name.now path.now).length }
    ensures result_in_bounds { (decide dialect file.now name.now path.now).place.offset + result ≤ length file.now }
{
    let answer = decide_by(false, dialect, file, name, path);
    answer.map_or(0, |verdict| verdict.length)
}

// The unreadable agent and rule lines of the whole file.
#[unsafe(no_mangle)]
pub extern "C" fn robots_decide_unread(
    dialect: usize,
    file: &[u8],
    name: &[u8],
    path: &[u8],
) -> usize
    ensures { result ≡ (decide dialect file.now name.now path.now).unread }
{
    let answer = decide_by(true, dialect, file, name, path);
    answer.map_or(0, |verdict| verdict.unread)
}

// The pairs of octets that the walks of the applying rules compare, at most their summed weights times the octets of the normalised path.
#[tactic(auto, using(protocol::proofs::Demands::decide_bound))]
#[unsafe(no_mangle)]
pub extern "C" fn robots_decide_compared(
    dialect: usize,
    file: &[u8],
    name: &[u8],
    path: &[u8],
) -> usize
    ensures value { result ≡ (decide dialect file.now name.now path.now).compared }
    ensures upper_bound { result ≤ total (weight_in (dialect_of dialect) file.now) (walked_rules dialect file.now name.now path.now) * length (normal_path path.now) }
{
    let answer = decide_by(false, dialect, file, name, path);
    answer.map_or(0, |verdict| verdict.compared)
}

// Many paths in one call: why it is refused, 0 where it isn't. Then each path's refusal, decision and line, as the functions above give them, stand at
// its place in the lent memory, whose other places stay. Refused, nothing is written.
#[tactic(auto, using(protocol::proofs::BatchAnswer::batch_by_table))]
#[unsafe(no_mangle)]
pub extern "C" fn robots_batch(
    dialect: usize,
    file: &[u8],
    name: &[u8],
    paths: &[u8],
    ends: &[usize],
    refusals: &mut [usize],
    sides: &mut [usize],
    lines: &mut [usize],
) -> usize
    ensures value { result ≡ batch_refusal (asked dialect file.now name.now paths.now ends.now refusals.old sides.old lines.old) }
    ensures by_table { ByTable (batch_rows (asked dialect file.now name.now paths.now ends.now refusals.old sides.old lines.old)) result }
    ensures refusals_after { refusals.new ≡ refusals_after (asked dialect file.now name.now paths.now ends.now refusals.old sides.old lines.old) }
    ensures sides_after { sides.new ≡ sides_after (asked dialect file.now name.now paths.now ends.now refusals.old sides.old lines.old) }
    ensures lines_after { lines.new ≡ lines_after (asked dialect file.now name.now paths.now ends.now refusals.old sides.old lines.old) }
{
    let classes = Classes::new();
    number_of(batch::batch(
        &classes, file, name, paths, ends, refusals, sides, lines, dialect,
    ))
}

// Why a match is refused: 0 where it isn't.
#[tactic(auto, using(protocol::proofs::Refused::match_refusal_by_table))]
#[unsafe(no_mangle)]
pub extern "C" fn robots_match_refusal(pattern: &[u8], path: &[u8]) -> usize
    ensures value { result ≡ match_refusal pattern.now path.now }
    ensures by_table { ByTable (match_rows pattern.now path.now) result }
{
    number_of(matching::check_match(pattern, path))
}

// 1 where the pattern matches the path, and 0 where it doesn't or the match is refused. Not refused, it is 1 exactly where some filling of the
// stars gives a beginning of the path, or all of it where there is an end mark.
#[unsafe(no_mangle)]
pub extern "C" fn robots_match_found(pattern: &[u8], path: &[u8]) -> usize
    ensures value { result ≡ found_number (match_of pattern.now path.now).found }
    ensures variant { match_refusal pattern.now path.now ≡ 0 → (result ≡ 1) ↔ Matches (shape_of pattern.now) (normal_path path.now) }
{
    let answer = matching::match_pattern(pattern, path);
    answer.map_or(0, |walked| usize::from(walked.stood))
}

// The pairs of octets that the leftmost walk compares, at most the pattern's weight times the octets of the normalised path. 0 where the match is
// refused.
#[tactic(auto, using(protocol::proofs::MatchAnswer::match_bound))]
#[unsafe(no_mangle)]
pub extern "C" fn robots_match_compared(pattern: &[u8], path: &[u8]) -> usize
    ensures value { result ≡ (match_of pattern.now path.now).compared }
    ensures upper_bound { result ≤ weight (shape_of pattern.now) * length (normal_path path.now) }
{
    let answer = matching::match_pattern(pattern, path);
    answer.map_or(0, |walked| walked.count)
}

// The octets written into the front of the buffer: 0 where the path is refused, and then the buffer is as it was.
#[tactic(auto, using(protocol::proofs::NormaliseAnswer::normalise_keeps))]
#[unsafe(no_mangle)]
pub extern "C" fn robots_normalise(path: &[u8], buffer: &mut [u8]) -> usize
    ensures value { result ≡ (normalise_of path.now buffer.old).written }
    ensures buffer_after { buffer.new ≡ normalise_buffer path.now buffer.old }
    ensures buffer_unchanged { (normalise_refusal (length buffer.old) path.now ≡ 0 → ⊥) → buffer.new ≡ buffer.old }
{
    paths::normalise(path, buffer).unwrap_or(0)
}

// Why a path is refused for a buffer with room for so many octets: 0 where it isn't.
#[tactic(auto, using(protocol::proofs::Refused::normalise_refusal_by_table))]
#[unsafe(no_mangle)]
pub extern "C" fn robots_normalise_refusal(path: &[u8], room: usize) -> usize
    ensures value { result ≡ normalise_refusal room path.now }
    ensures by_table { ByTable (normalise_rows room path.now) result }
{
    number_of(paths::check_room(path, room))
}

// Why a line is refused: 0 where it isn't.
#[tactic(auto, using(protocol::proofs::KindAnswer::line_by_table))]
#[unsafe(no_mangle)]
pub extern "C" fn robots_line_refusal(line: &[u8]) -> usize
    ensures value { result ≡ refusal_of (line_answer line.now) }
    ensures by_table { ByTable (line_rows line.now) result }
{
    let classes = Classes::new();
    number_of(kinds::answers::check_line(&classes, line))
}

// The number of its kind: 0 where it is refused.
#[unsafe(no_mangle)]
pub extern "C" fn robots_line_kind(line: &[u8]) -> usize
    ensures { result ≡ kind_number_of (line_answer line.now) }
{
    let classes = Classes::new();
    let answer = kinds::answers::line_answer(&classes, line);
    numbers::kind_number_of(answer)
}

// The place in it of an agent's value or a rule's pattern, counted from 0: 0 where there is none.
#[unsafe(no_mangle)]
pub extern "C" fn robots_line_place(line: &[u8]) -> usize
    ensures { result ≡ (value_place (line_answer line.now)).offset }
{
    let classes = Classes::new();
    let answer = kinds::answers::line_answer(&classes, line);
    numbers::value_place(answer).offset
}

// How many octets that value or pattern has.
#[unsafe(no_mangle)]
pub extern "C" fn robots_line_length(line: &[u8]) -> usize
    ensures { result ≡ value_length (line_answer line.now) }
{
    let classes = Classes::new();
    let answer = kinds::answers::line_answer(&classes, line);
    numbers::value_length(answer)
}
