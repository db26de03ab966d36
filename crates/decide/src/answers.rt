// The answer to: decide for a file, a name and a path.

ghost use Rattle.std.specs.Prelude.{◌≡◌, ◌≤◌, length, IfOk};
ghost use Rattle.protocol.specs.Entries.{entries};
ghost use Rattle.protocol.specs.Normal.{normal_path};
ghost use Rattle.protocol.specs.Refusals.{dialect_of, decide_refusal};
ghost use Rattle.protocol.specs.Decision.{answered};
ghost use Rattle.protocol.specs.Answers.{decide};
ghost use Rattle.protocol.specs.Outcomes.{number_of, decided, decision_of};
ghost use Rattle.passes.specs.Entries.{audience_for};
ghost use Rattle.passes.specs.Choosing.{ChosenOf};
ghost use Rattle.decide.specs.Telling.{told};

use octets::Classes;
use passes::audience::Chosen;
use protocol::{Audience, Dialect, Place, Refusal, Verdict};

// Why a decision is refused; and the dialect, where it isn't.
#[tactic(auto, using(readable::proofs::Asking::asked_later), unfolding(protocol::specs::Refusals::decide_refusal))]
pub fn check_question(
    classes: &Classes,
    file: &[u8],
    name: &[u8],
    path: &[u8],
    dialect: usize,
) -> Result<Dialect, Refusal>
    ensures refusal { number_of result ≡ decide_refusal dialect file.now name.now path.now }
    ensures dialect { IfOk result (λ d. d ≡ dialect_of dialect) }
{
    let chosen = readable::check_asker(classes, dialect, file, name)?;
    paths::check_path(path)?;
    Ok(chosen)
}

// The dialect of a number: the RFC's where it is none's. Who decides refuses such a number, and doesn't ask for it.
#[tactic(auto, unfolding(protocol::specs::Refusals::dialect_of))]
pub fn dialect_of(number: usize) -> Dialect
    ensures { result ≡ dialect_of number }
{
    Dialect::try_from(number).unwrap_or(Dialect::Rfc9309)
}

// What is asked of a file, for any path: for whom, by which paper's rules, and whether the whole file is to be read for the unread count.
#[derive(Clone, Copy)]
struct Question<'a> {
    classes: &'a Classes,
    dialect: Dialect,
    whole: bool,
    file: &'a [u8],
    name: &'a [u8],
    ghost file_fits: { length file.now ≤ 512000 },
}

impl<'a> Question<'a> {
    // Whose groups apply for a normalised path: nobody's for /robots.txt, which is always allowed.
    fn audience_for(&self, path: &[u8]) -> Chosen
        ensures { ChosenOf self.now.file.now self.now.name.now (audience_for self.now.file.now self.now.name.now path.now) result }
    {
        if paths::is_robots_file(path) {
            return Chosen {
                audience: Audience::Nobody,
                first: Place {
                    offset: self.file.len(),
                },
                only: true,
            };
        }
        passes::audience::choose_audience(self.classes, self.file, self.name)
    }

    // The answer about a normalised path, with memory for the runs of patterns.
    fn answer_for(&self, path: &[u8], scratch: &mut [u8]) -> Verdict
        requires path_fits { length path.now ≤ 6142 }
        requires scratch_fits { length path.now ≤ length scratch.old }
        ensures { decided result ≡ told self.now.whole (answered self.now.dialect self.now.file.now (entries self.now.file.now) self.now.name.now path.now) }
    {
        let chosen = self.audience_for(path);
        let g = passes::gather::gather(
            self.classes,
            self.dialect,
            self.file,
            self.whole,
            chosen,
            self.name,
            path,
            scratch,
        );
        considering::conclude(g.considered, g.unread)
    }

    // The answer about a path, for which there is room for so many octets once it is normalised. `walk_in_room` of matching begins alike; a closure over
    // the two lent slices would need a contract longer than these lines.
    fn answer_in_room<const ROOM: usize>(&self, path: &[u8]) -> Verdict
        requires room { ROOM ≤ 6142 }
        requires fits { length (normal_path path.now) ≤ ROOM }
        ensures { decided result ≡ told self.now.whole (answered self.now.dialect self.now.file.now (entries self.now.file.now) self.now.name.now (normal_path path.now)) }
    {
        let mut buffer = [0u8; ROOM];
        let mut scratch = [0u8; ROOM];
        let n = normal::write(false, path, &mut buffer);
        let written = &buffer[..n];
        self.answer_for(written, &mut scratch)
    }

    // The answer about a path that is its own normalised path: nothing is copied, and there is room for the runs of patterns.
    fn answer_unchanged<const ROOM: usize>(&self, path: &[u8]) -> Verdict
        requires room { ROOM ≤ 6142 }
        requires fits { length path.now ≤ ROOM }
        ensures { decided result ≡ told self.now.whole (answered self.now.dialect self.now.file.now (entries self.now.file.now) self.now.name.now path.now) }
    {
        let mut scratch = [0u8; ROOM];
        self.answer_for(path, &mut scratch)
    }

    // The answer about a path that isn't refused, in a small room where the path is short: to clear more would take longer than to decide by a small
    // file.
    fn answer(&self, path: &[u8]) -> Verdict
        requires short { length path.now ≤ 2048 }
        requires fits { length (normal_path path.now) ≤ 6142 }
        ensures { decided result ≡ told self.now.whole (answered self.now.dialect self.now.file.now (entries self.now.file.now) self.now.name.now (normal_path path.now)) }
    {
        let short = path.len() <= 128;
        if !normal::may_change(path) {
            return if short {
                self.answer_unchanged::<128>(path)
            } else {
                self.answer_unchanged::<2048>(path)
            };
        }
        if short {
            return self.answer_in_room::<384>(path);
        }
        if path.len() <= 512 {
            return self.answer_in_room::<1536>(path);
        }
        self.answer_in_room::<6142>(path)
    }
}

// The decision; with its unread count only where the whole file is to be read for it.
pub fn decide(
    classes: &Classes,
    whole: bool,
    file: &[u8],
    name: &[u8],
    path: &[u8],
    dialect: usize,
) -> Result<Verdict, Refusal>
    ensures { decision_of result ≡ told whole (decide dialect file.now name.now path.now) }
{
    let dialect = check_question(classes, file, name, path, dialect)?;
    let question = Question {
        classes,
        dialect,
        whole,
        file,
        name,
    };
    Ok(question.answer(path))
}
