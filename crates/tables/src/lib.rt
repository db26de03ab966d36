// A rule as a table keeps it.

#![tactic(auto)]

ghost use Rattle.std.specs.Prelude.{◌≡◌};
ghost use Rattle.tables.specs.Tables.{kept_of};

use protocol::{LineNumber, Place, Rule, Side};

// A rule, and how many literal octets its pattern has in front.
#[derive(Clone, Copy)]
pub struct Kept {
    pub rule: Rule,
    pub front: usize,
}

// A place of a table that holds no rule yet. No Option: how many places hold one is known beside it, and no other is read.
pub const NO_RULE: Kept = Kept {
    rule: Rule {
        line: LineNumber { number: 0 },
        side: Side::Allow,
        place: Place { offset: 0 },
        length: 0,
    },
    front: 0,
};

impl Kept {
    // A rule with its pattern's octets.
    pub fn new(rule: Rule, pattern: &[u8]) -> Self
        ensures { result ≡ kept_of rule pattern.now }
    {
        Kept {
            rule,
            front: normal::literal_front(pattern),
        }
    }
}
