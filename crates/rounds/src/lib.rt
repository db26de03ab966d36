// Rounds over the rules of a file, as many at a time as a table has room for: in a round each path of a list goes through them. Between the rounds
// the memory lent for the answers holds the rule that leads for each path.

#![tactic(auto)]

ghost use Rattle.std.specs.Prelude.{◌≡◌, ◌+◌, ◌≤◌, length, set};
ghost use Rattle.std.proofs.Props.{props};
ghost use Rattle.protocol.specs.Normal.{normal_path};
ghost use Rattle.protocol.specs.Refusals.{path_rows, refusal};
ghost use Rattle.listing.specs.Memory.{memory, held, Same, Fits};
ghost use Rattle.tables.specs.Tables.{Sound};
ghost use Rattle.collecting.specs.Left.{first_pass, left};
ghost use Rattle.rounds.specs.Rounds.{leader_in, led_for, Placed, Round};

use leading::Leader;
use listing::{Answers, Paths};
use octets::Classes;
use protocol::{Dialect, LineNumber};
use tables::{Kept, NO_RULE};

// Memory for a normalised path and its walks. It is fixed, for there is no heap: no path that is answered is longer when it is normalised.
#[derive(Drop)]
struct Room {
    buffer: [u8; 6142],
    scratch: [u8; 6142],
}

// The rules of a round, whose patterns stand in the file.
#[derive(Clone, Copy)]
struct Table<'a> {
    dialect: Dialect,
    file: &'a [u8],
    rules: &'a [Kept],
    ghost short: { length file.now ≤ 512000 },
    ghost sound: { Sound file.now (length rules.now) rules.now } by { Prim.hlevel props },
}

// The rule that leads for the path at place i.
fn leader_at(answers: &Answers, i: usize) -> Leader
    requires { Fits (i + 1) (held answers.now) }
    ensures { result ≡ leader_in (held answers.now) i }
{
    Leader {
        weight: answers.refusals[i],
        side: answers.sides[i],
        line: LineNumber {
            number: answers.lines[i],
        },
    }
}

// From now on that rule leads for it.
fn store(answers: &mut Answers, i: usize, leader: Leader)
    requires { Fits (i + 1) (held answers.old) }
    ensures same { Same answers.old answers.new }
    ensures stored { held answers.new ≡ memory (set answers.old.refusals.now i leader.weight) (set answers.old.sides.now i leader.side) (set answers.old.lines.now i leader.line.number) }
{
    answers.refusals[i] = leader.weight;
    answers.sides[i] = leader.side;
    answers.lines[i] = leader.line.number;
}

impl Table<'_> {
    ghost use Rattle.rounds.specs.Tabled.{rules_in};

    // The leader for a normalised path, after the rules.
    fn lead_normal(&self, path: &[u8], scratch: &mut [u8; 6142], leader: Leader) -> Leader
        requires { length path.now ≤ 6142 }
        ensures { result ≡ led_for self.now.dialect self.now.file.now (rules_in self.now) path.now leader }
    {
        if paths::is_robots_file(path) {
            return leader;
        }
        leading::lead_all(self.dialect, self.file, self.rules, path, scratch, leader)
    }

    // The same for a raw path that isn't refused.
    fn lead_path(&self, path: &[u8], room: &mut Room, leader: Leader) -> Leader
        requires { refusal (path_rows path.now) ≡ 0 }
        ensures { result ≡ led_for self.now.dialect self.now.file.now (rules_in self.now) (normal_path path.now) leader }
    {
        if !normal::may_change(path) {
            return self.lead_normal(path, &mut room.scratch, leader);
        }
        let n = normal::write(false, path, &mut room.buffer);
        self.lead_normal(&room.buffer[..n], &mut room.scratch, leader)
    }

    // One path of a round, at place i.
    fn lead_place(&self, path: &[u8], i: usize, answers: &mut Answers, room: &mut Room)
        requires { Fits (i + 1) (held answers.old) }
        ensures same { Same answers.old answers.new }
        ensures placed { Placed self.now.dialect self.now.file.now (rules_in self.now) path.now i (held answers.old) (held answers.new) }
    {
        if paths::check_path(path).is_err() {
            return;
        }
        let before = leader_at(answers, i);
        let leader = self.lead_path(path, room, before);
        store(answers, i, leader);
    }

    // A round: each path goes through the rules.
    fn round(&self, paths: Paths, answers: &mut Answers, room: &mut Room)
        requires { Fits (length paths.ends.now) (held answers.old) }
        ensures same { Same answers.old answers.new }
        ensures round { Round self.now.dialect self.now.file.now (rules_in self.now) paths.entry.joined.now paths.entry.ends.now (held answers.old) (held answers.new) }
    {
        for i in 0..paths.ends.len() {
            self.lead_place(paths.path(i), i, answers, room);
        }
    }
}

// Rounds until the file is read, for those who have the name `who`.
pub fn rounds(
    classes: &Classes,
    dialect: Dialect,
    file: &[u8],
    who: &[u8],
    paths: Paths,
    answers: &mut Answers,
)
    requires short { length file.now ≤ 512000 }
    requires fits { Fits (length paths.ends.now) (held answers.old) }
    ensures same { Same answers.old answers.new }
    ensures round { Round dialect file.now (left file.now who.now (first_pass file.now)) paths.entry.joined.now paths.entry.ends.now (held answers.old) (held answers.new) }
{
    let mut kept = [NO_RULE; 512];
    let mut room = Room {
        buffer: [0; 6142],
        scratch: [0; 6142],
    };
    let mut pass = collecting::first_pass(file);
    // No `for`: a round goes as far as the table has room.
    while pass.at.place.offset < file.len() {
        let collected = collecting::collect(classes, file, who, pass, &mut kept);
        pass = collected.pass;
        let table = Table {
            dialect,
            file,
            rules: &kept[..collected.count],
        };
        table.round(paths, answers, &mut room);
    }
}
