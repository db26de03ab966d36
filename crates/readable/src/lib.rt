// Whether the value of an agent line is readable, and whom it names; whether the pattern of a rule line is readable; and whether a crawler's name, a
// file's length or a dialect's number is refused.

#![tactic(auto)]

ghost use Rattle.std.specs.Prelude.{◌≡◌, ◌&&◌, not, [], ◌∷◌, length, drop, IfOk};
ghost use Rattle.std.specs.List.{list_all};
ghost use Rattle.lists.specs.Lists.{empty, up_to, same};
ghost use Rattle.protocol.specs.Octets.{token};
ghost use Rattle.protocol.specs.Readable.{everyone, name_front, readable_agent, names, well_formed, pattern_start, readable_pattern};
ghost use Rattle.protocol.specs.Classes.{class_forms, due_up_to};
ghost use Rattle.protocol.specs.Refusals.{unknown_dialect, too_long, bad_name, refusal, dialect_of};
ghost use Rattle.protocol.specs.Outcomes.{number_of};
ghost use Rattle.readable.specs.Due.{due_ranges, due_or_never, due_past, unusual};

use octets::Classes;
use protocol::{Dialect, Place, Refusal, Sort};

// The octets that a character still lacks: `more` of them, the next from `low` to `high`, those behind it UTF8-tails. One form for none too: `due_ranges`
// reads the numbers as a list of ranges, and an enum would only give `past` an arm more.
#[derive(Clone, Copy)]
struct Due {
    low: u8,
    high: u8,
    more: usize,
}

impl Due {
    // Nothing: the character is whole.
    const NONE: Due = Due {
        low: 0,
        high: 0,
        more: 0,
    };

    // The next octet is from `low` to `high`, and `more` in all are due.
    fn new(low: u8, high: u8, more: usize) -> Due
        ensures { result ≡ record { low = low; high = high; more = more } }
    {
        Due { low, high, more }
    }

    // After the first octet of a character, by its class number: RFC 9309's UTF8-char-noctl. None where no octet makes it whole.
    #[tactic(auto, using(std::proofs::lemmas::Bool::Decides::nat_tests), unfolding(protocol::specs::Classes::class_forms, protocol::specs::Classes::due_up_to))]
    fn after(class: u8) -> Option<Due>
        ensures { due_or_never result ≡ due_up_to class class_forms }
    {
        let due = match class {
            0..=66 | 226 => Due::NONE,
            67..=96 => Due::new(0x80, 0xBF, 1),
            97 => Due::new(0xA0, 0xBF, 2),
            98..=111 => Due::new(0x80, 0xBF, 2),
            112 => Due::new(0x80, 0x9F, 2),
            113 => Due::new(0x90, 0xBF, 3),
            114..=116 => Due::new(0x80, 0xBF, 3),
            117 => Due::new(0x80, 0x8F, 3),
            _ => return None,
        };
        Some(due)
    }

    // After one octet more. Test by test, with returns: else the compiler makes no branches, and each octet waits for the one before it.
    #[tactic(auto, using(protocol::proofs::Classes::due_told, crate::proofs::Characters::past_none, crate::proofs::Characters::past_some, std::proofs::lemmas::Bool::Decides::nat_tests))]
    fn past(self, classes: &Classes, x: u8) -> Option<Due>
        ensures { due_or_never result ≡ due_past (due_ranges self) x }
    {
        if self.more == 0 {
            return Due::after(classes.class_of(x));
        }
        if x < self.low {
            return None;
        }
        if self.high < x {
            return None;
        }
        Some(Due::new(0x80, 0xBF, self.more - 1))
    }
}

// How many ordinary octets stand in front.
pub fn ordinary_front(s: &[u8]) -> usize
    ensures { result ≡ length (up_to unusual s.now) }
{
    text::seek(s, Place { offset: 0 }, 0x24, 0x7F, false).offset
}

// Whole characters only, up to the first octet that nothing makes whole. The table is copied only for a text with other octets than the ordinary ones.
#[tactic(auto, using(crate::proofs::Characters::well_formed_ordinary, crate::proofs::Characters::well_formed_front, crate::proofs::Characters::well_formed_on, crate::proofs::Characters::well_formed_never, crate::proofs::Characters::well_formed_end, lists::proofs::Scans::rest_of, lists::proofs::Scans::up_to_fits))]
fn well_formed(s: &[u8]) -> bool
    ensures { result ≡ well_formed [] s.now }
{
    let front = ordinary_front(s);
    if front == s.len() {
        return true;
    }
    let classes = Classes::new();
    let mut due = Due::NONE;
    for x in &s[front..] {
        let Some(next) = due.past(&classes, *x) else {
            return false;
        };
        due = next;
    }
    due.more == 0
}

// What a pattern may begin with.
#[tactic(auto, unfolding(protocol::specs::Readable::pattern_start, protocol::specs::Text::begins))]
pub fn pattern_start(p: &[u8]) -> bool
    ensures { result ≡ pattern_start p.now }
{
    matches!(p.first(), Some(b'/' | b'*'))
}

#[tactic(auto, unfolding(protocol::specs::Readable::readable_pattern))]
pub fn readable_pattern(p: &[u8]) -> bool
    ensures { result ≡ readable_pattern p.now }
{
    pattern_start(p) && well_formed(p)
}

// Octets of a crawler's name only, or none.
fn all_token(classes: &Classes, s: &[u8]) -> bool
    ensures { result ≡ list_all token s.now }
{
    s.iter().all(|x| classes.is_of(Sort::Token, *x))
}

// One or more of them.
fn is_name(classes: &Classes, v: &[u8]) -> bool
    ensures { result ≡ (not (empty v.now) && list_all token v.now) }
{
    !v.is_empty() && all_token(classes, v)
}

// The value "*".
#[tactic(auto, using(lists::proofs::Library::same_is), unfolding(protocol::specs::Text::octets))]
pub fn is_everyone(v: &[u8]) -> bool
    ensures { result ≡ same v.now everyone }
{
    v == b"*".as_slice()
}

// No octet of a name stands there: a name that reaches so far ends in front of it.
#[tactic(auto, using(crate::proofs::Naming::ends_none, crate::proofs::Naming::ends_here))]
fn name_ends(classes: &Classes, v: &[u8], at: Place) -> bool
    ensures { result ≡ empty (name_front (drop at.offset v.now)) }
{
    v.get(at.offset)
        .is_none_or(|x| !classes.is_of(Sort::Token, *x))
}

#[tactic(auto, unfolding(protocol::specs::Readable::readable_agent, protocol::specs::Readable::agent_name, protocol::specs::Text::octets))]
pub fn readable_agent(classes: &Classes, v: &[u8]) -> bool
    ensures { result ≡ readable_agent v.now }
{
    is_everyone(v) || !name_ends(classes, v, Place { offset: 0 })
}

// An agent's value names a crawler, or "*". Octets that are equal to a name's are a name's, so the one behind them tells the rest.
#[tactic(auto, using(protocol::proofs::Agents::star_names, crate::proofs::Naming::names_begun, crate::proofs::Naming::names_named, crate::proofs::Naming::names_ended, lists::proofs::Library::all_is))]
pub fn names(classes: &Classes, value: &[u8], who: &[u8]) -> bool
    ensures { result ≡ names value.now who.now }
{
    if is_everyone(value) {
        return is_everyone(who);
    }
    text::same::begins_with(classes, value, who)
        && is_name(classes, who)
        && name_ends(classes, value, Place { offset: who.len() })
}

// A crawler's name that is refused.
#[tactic(auto, using(lists::proofs::Tests::empty_none, lists::proofs::Tests::empty_some, lists::proofs::Library::all_is, std::proofs::lemmas::Bool::Decides::nat_tests))]
pub fn is_bad_name(classes: &Classes, name: &[u8]) -> bool
    ensures { result ≡ (bad_name name.now).given }
{
    name.is_empty() || 64 < name.len() || !all_token(classes, name)
}

// Why a question about a file and a crawler is refused, whatever else is asked: the dialect's number, then the file's length, then the name. Or the
// dialect, where none of them is.
#[tactic(auto, unfolding(protocol::specs::Refusals::refusal, protocol::specs::Refusals::dialect_of))]
pub fn check_asker(
    classes: &Classes,
    dialect: usize,
    file: &[u8],
    name: &[u8],
) -> Result<Dialect, Refusal>
    ensures refusal { number_of result ≡ refusal (unknown_dialect dialect ∷ too_long file.now ∷ bad_name name.now ∷ []) }
    ensures dialect { IfOk result (λ d. d ≡ dialect_of dialect) }
{
    let chosen = Dialect::try_from(dialect)?;
    if 512000 < file.len() {
        return Err(Refusal::TooLong);
    }
    if is_bad_name(classes, name) {
        return Err(Refusal::BadName);
    }
    Ok(chosen)
}
