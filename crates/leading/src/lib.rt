// The rule that leads for a path, after the rules of a table, one after the other. A rule that is walked is compared with the path only as far as
// tells whether it matches: no count is told here. Path and scratch stay parameters, as in walk.

#![tactic(auto)]

ghost use Rattle.std.specs.Prelude.{◌≡◌, false, ◌+◌, ◌≤◌, ◌<◌, ◌^◌, length};
ghost use Rattle.protocol.specs.Answers.{side_number};
ghost use Rattle.walk.specs.Weights.{weighed};
ghost use Rattle.tables.specs.Tables.{front_of, rules_of, SoundKept};
ghost use Rattle.leading.specs.Leading.{outdoes, settled, led, led_all, whole_weight, Room};

use protocol::{Dialect, LineNumber, Rule};
use tables::Kept;

// The rule that leads so far: its weight, its side and its line, numbers as the memory lent for the answers holds them between two rounds
// (`leader_in` of the specs of rounds). All zeros where none has matched.
#[derive(Clone, Copy)]
pub struct Leader {
    pub weight: usize,
    pub side: usize,
    pub line: LineNumber,
}

impl Leader {
    // A rule of that weight leads from now on: allow before disallow at equal weight. Its side is read last, since it is seldom asked for: no rule of
    // a leader's weight outdoes one that allows, or that is all zeros.
    fn is_outdone(self, weight: usize, rule: &Rule) -> bool
        ensures { result ≡ outdoes weight (side_number rule.now.side) self }
    {
        self.weight < weight
            || self.weight == weight && 0 < self.side && usize::from(rule.side) < self.side
    }

    // No further rule is walked.
    fn is_settled(self, dialect: Dialect) -> bool
        ensures { result ≡ settled dialect self }
    {
        considering::is_settled(dialect, 0 < self.weight)
    }
}

// The weight of a pattern, of whose rest behind literal octets the weight is given: 0 where that is 0.
fn whole_weight(front: usize, rest: usize) -> usize
    requires { front + rest < 2 ^ 64 }
    ensures { result ≡ whole_weight front rest }
{
    if rest == 0 { 0 } else { front + rest }
}

// The weight of what stands behind a pattern's literal octets, where it matches what stands behind them in the path.
fn weigh_rest(dialect: Dialect, rest: &[u8], path: &[u8], scratch: &mut [u8]) -> usize
    requires { (length rest.now ≤ 512000) × (length path.now ≤ 6142) × (length path.now ≤ length scratch.old) }
    ensures value { result ≡ (weighed dialect rest.now path.now).weight }
    ensures scratch_len_unchanged { length scratch.new ≡ length scratch.old }
{
    let w = match dialect {
        Dialect::Rfc9309 => walk::weigh_starred(rest, path, scratch),
        Dialect::Draft1996 => walk::weigh_plain(rest, path, scratch),
    };
    w.weight
}

// A pattern's weight, 0 where it doesn't match. So many literal octets in front are compared as they stand, and only where they begin the path is the
// rest of the pattern walked, from there on.
fn weigh_from(
    dialect: Dialect,
    front: usize,
    pattern: &[u8],
    path: &[u8],
    scratch: &mut [u8],
) -> usize
    requires { (front ≡ front_of pattern.now) × (length pattern.now ≤ 512000) × (length path.now ≤ 6142) × (length path.now ≤ length scratch.old) }
    ensures value { result ≡ (weighed dialect pattern.now path.now).weight }
    ensures scratch_len_unchanged { length scratch.new ≡ length scratch.old }
{
    let w = runs::first_run(&pattern[..front], path, false);
    if !w.stood {
        return 0;
    }
    if front == pattern.len() {
        return front;
    }
    let rest = weigh_rest(dialect, &pattern[front..], &path[front..], scratch);
    whole_weight(front, rest)
}

// After one rule more, which is to be walked.
fn lead(
    dialect: Dialect,
    file: &[u8],
    kept: &Kept,
    path: &[u8],
    scratch: &mut [u8],
    leader: Leader,
) -> Leader
    requires file_size { length file.now ≤ 512000 }
    requires sound { SoundKept file.now kept.now }
    requires path_short { length path.now ≤ 6142 }
    requires scratch_fits { length path.now ≤ length scratch.old }
    requires unsettled { settled dialect leader ≡ false }
    ensures value { result ≡ led dialect file.now path.now leader kept.now.rule }
    ensures scratch_len_unchanged { length scratch.new ≡ length scratch.old }
{
    let pattern = considering::pattern_of(file, kept.rule);
    let weight = weigh_from(dialect, kept.front, pattern, path, scratch);
    if leader.is_outdone(weight, &kept.rule) {
        // The line is read here alone, since few rules lead.
        Leader {
            weight,
            side: usize::from(kept.rule.side),
            line: kept.rule.line,
        }
    } else {
        leader
    }
}

// After the rules of a table.
pub fn lead_all(
    dialect: Dialect,
    file: &[u8],
    rules: &[Kept],
    path: &[u8],
    scratch: &mut [u8],
    before: Leader,
) -> Leader
    requires { Room file.now rules.now (length rules.now) path.now scratch.old }
    ensures value { result ≡ led_all dialect file.now path.now before (rules_of rules.now) }
    ensures scratch_len_unchanged { length scratch.new ≡ length scratch.old }
{
    let mut leader = before;
    for kept in rules {
        if leader.is_settled(dialect) {
            break;
        }
        leader = lead(dialect, file, kept, path, scratch, leader);
    }
    leader
}
