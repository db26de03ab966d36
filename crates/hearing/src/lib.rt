// Whose group this is, and how many lines are unread, after some agent and rule lines: of each it is known whether it is unreadable, and of an
// agent line its value's octets.

#![tactic(auto)]

ghost use Rattle.std.specs.Prelude.{◌≡◌, ◌&&◌, ◌||◌, ◌+◌, ◌<◌, ◌^◌};
ghost use Rattle.lists.specs.Choice.{one_if};
ghost use Rattle.protocol.specs.Readable.{everyone, names};
ghost use Rattle.hearing.specs.Heard.{nothing_heard, whom, addressed, after_agent, after_rule};

use octets::Classes;
use protocol::Audience;

// After some agent and rule lines: the rules of the group above apply; an agent line here would join the group above; the unreadable lines.
#[derive(Clone, Copy, Default)]
pub struct Hearing {
    pub applies: bool,
    pub joins: bool,
    pub unread: usize,
}

// Before the first line.
pub fn nothing_heard() -> Hearing
    ensures { result ≡ nothing_heard }
{
    Hearing::default()
}

// An agent's value names "*".
#[tactic(auto, unfolding(protocol::specs::Text::octets))]
fn names_everyone(classes: &Classes, value: &[u8]) -> bool
    ensures { result ≡ names value.now everyone }
{
    readable::names(classes, value, b"*")
}

// Whom an agent's value names: the crawler, "*", or neither. `value_audience` of passes promises the same of a value that something stands behind.
pub fn addressed(classes: &Classes, name: &[u8], value: &[u8]) -> Audience
    ensures { result ≡ addressed name.now value.now }
{
    if readable::names(classes, value, name) {
        Audience::Crawler
    } else if names_everyone(classes, value) {
        Audience::Everyone
    } else {
        Audience::Nobody
    }
}

// An agent's value names those whose groups apply.
#[tactic(auto, using(crate::proofs::Naming::names_nobody))]
fn is_addressed(classes: &Classes, audience: Audience, name: &[u8], value: &[u8]) -> bool
    ensures { result ≡ names value.now (whom audience name.now) }
{
    match audience {
        Audience::Crawler => readable::names(classes, value, name),
        Audience::Everyone => names_everyone(classes, value),
        Audience::Nobody => false,
    }
}

// After an agent line with that value, which is unreadable or not.
pub fn hear_agent(
    classes: &Classes,
    h: Hearing,
    audience: Audience,
    name: &[u8],
    value: &[u8],
    unreadable: bool,
) -> Hearing
    requires { h.unread + 1 < 2 ^ 64 }
    ensures { result ≡ after_agent (whom audience name.now) value.now unreadable h }
{
    Hearing {
        applies: h.joins && h.applies || is_addressed(classes, audience, name, value),
        joins: true,
        unread: h.unread + usize::from(unreadable),
    }
}

// After a rule line, which is unreadable or not.
pub fn hear_rule(h: Hearing, unreadable: bool) -> Hearing
    requires { h.unread + 1 < 2 ^ 64 }
    ensures { result ≡ after_rule unreadable h }
{
    Hearing {
        // an agent line behind a rule line starts a group
        joins: false,
        unread: h.unread + usize::from(unreadable),
        ..h
    }
}
