// What the rules that apply come to for a path, one after the other: the heaviest match of each side, and the pairs compared; and the decision
// that these are. A rule is known by its line, side and place, and by its pattern's octets: no line's kind and no group is in it.

#![tactic(auto)]

ghost use Rattle.std.specs.Prelude.{◌≡◌, ◌+◌, ◌≤◌, ◌<◌, ◌^◌, length};
ghost use Rattle.protocol.specs.Decision.{pattern_of};
ghost use Rattle.protocol.specs.Outcomes.{decided};
ghost use Rattle.considering.specs.Considering.{better, none_considered, added, best_with, matched, first_settles, considered, Room, decided_as, concluded};

use protocol::{Dialect, LineNumber, Place, Rule, Side, Verdict};
use walk::Weighed;

// A rule's pattern, where it stands in the file.
#[tactic(auto, unfolding(protocol::specs::Text::octets_at))]
pub fn pattern_of(file: &[u8], rule: Rule) -> &[u8]
    requires { rule.place.offset + rule.length ≤ length file.now }
    ensures { result.now ≡ pattern_of file.now rule }
{
    let start = rule.place.offset;
    let end = start + rule.length;
    &file[start..end]
}

// The heaviest rule of one side that matches: its weight, line, place and length.
#[derive(Clone, Copy)]
pub struct Best {
    pub weight: usize,
    pub line: LineNumber,
    pub place: Place,
    pub length: usize,
}

// None matches. An Option would be no plainer: what matches weighs at least 1, so that any is heavier, and a decision by no rule has these zeros.
const NO_BEST: Best = Best {
    weight: 0,
    line: LineNumber { number: 0 },
    place: Place { offset: 0 },
    length: 0,
};

impl Best {
    // The heavier of two, and at equal weight the earlier.
    #[tactic(auto, unfolding(crate::specs::Considering::better))]
    fn better(self, later: Best) -> Best
        ensures { result ≡ better self later }
    {
        if self.weight < later.weight {
            later
        } else {
            self
        }
    }
}

// What the rules that were considered have come to: the heaviest match of each side, and the pairs compared.
#[derive(Clone, Copy)]
pub struct Considered {
    pub allow: Best,
    pub disallow: Best,
    pub compared: usize,
}

// No further rule is walked: in the draft's dialect the first match decides.
pub fn is_settled(dialect: Dialect, is_matched: bool) -> bool
    ensures { result ≡ first_settles dialect is_matched }
{
    match dialect {
        Dialect::Rfc9309 => false,
        Dialect::Draft1996 => is_matched,
    }
}

impl Considered {
    // Before the first rule.
    pub fn new() -> Self
        ensures { result ≡ none_considered }
    {
        Considered {
            allow: NO_BEST,
            disallow: NO_BEST,
            compared: 0,
        }
    }

    // Some rule has matched.
    fn is_matched(self) -> bool
        ensures { result ≡ matched self }
    {
        0 < self.allow.weight || 0 < self.disallow.weight
    }

    // One rule more, as its walk found it; of one that doesn't match only the pairs count.
    #[tactic(auto, unfolding(crate::specs::Considering::added))]
    fn add(mut self, rule: Rule, walked: Weighed) -> Self
        requires { self.compared + walked.compared < 2 ^ 64 }
        ensures { result ≡ added rule.side (best_with rule walked.weight) walked.compared self }
    {
        let best = Best {
            weight: walked.weight,
            line: rule.line,
            place: rule.place,
            length: rule.length,
        };
        match rule.side {
            Side::Allow => self.allow = self.allow.better(best),
            Side::Disallow => self.disallow = self.disallow.better(best),
        }
        self.compared += walked.compared;
        self
    }

    // One rule more, with its pattern's octets. It is walked at most once: match, weight and count come out of that one walk. What the scratch
    // then holds is left free.
    #[tactic(auto, unfolding(crate::specs::Considering::walked_once, crate::specs::Considering::considered))]
    pub fn consider(
        self,
        dialect: Dialect,
        rule: Rule,
        pattern: &[u8],
        path: &[u8],
        scratch: &mut [u8],
    ) -> Self
        requires { Room pattern.now path.now scratch.old self }
        ensures value { result ≡ considered dialect pattern.now path.now rule self }
        ensures scratch_len_unchanged { length scratch.new ≡ length scratch.old }
    {
        if is_settled(dialect, self.is_matched()) {
            return self;
        }
        self.add(rule, walk::weigh(dialect, pattern, path, scratch))
    }
}

// The decision by a rule of that side.
fn decided_as(side: Side, rule: Best, unread: usize, compared: usize) -> Verdict
    ensures { decided result ≡ decided_as side rule unread compared }
{
    Verdict {
        side,
        line: rule.line,
        place: rule.place,
        length: rule.length,
        unread,
        compared,
    }
}

// After the last rule: allow, unless the heaviest disallow rule outweighs the heaviest allow rule. In the draft's dialect there is at most one.
#[tactic(auto, unfolding(crate::specs::Considering::concluded))]
pub fn conclude(c: Considered, unread: usize) -> Verdict
    ensures { decided result ≡ concluded c unread }
{
    if c.allow.weight < c.disallow.weight {
        decided_as(Side::Disallow, c.disallow, unread, c.compared)
    } else {
        decided_as(Side::Allow, c.allow, unread, c.compared)
    }
}
