// The kind of a line, read where it stands: r is the rest of a file from the line's start on.

ghost use Rattle.std.specs.Prelude.{◌≡◌, ◌≤◌, None, length, drop};
ghost use Rattle.lists.specs.Lists.{up_to};
ghost use Rattle.protocol.specs.Text.{trim_end};
ghost use Rattle.protocol.specs.Lines.{line_text};
ghost use Rattle.protocol.specs.Readable.{readable_pattern};
ghost use Rattle.protocol.specs.Kinds.{agent_at, pattern_at, kind_of};
ghost use Rattle.protocol.specs.Classes.{stop};
ghost use Rattle.fields.specs.Fields.{field_of, ended, value_at};

use octets::Classes;
use protocol::{Agent, Kind, Pattern, Place, Sort};

// The agent of a value, which stands at that place of the line. It and `pattern_at` stay two: an agent and a pattern are types of the protocol, and
// an empty agent isn't told as an empty pattern is.
#[tactic(auto, using(crate::proofs::Kinding::agent_none, crate::proofs::Kinding::agent_readable, crate::proofs::Kinding::agent_unreadable))]
pub fn agent_at(classes: &Classes, place: Place, value: &[u8]) -> Agent
    ensures { result ≡ agent_at place value.now }
{
    if value.is_empty() {
        return Agent::Unreadable(Place { offset: 0 }, 0);
    }
    if readable::readable_agent(classes, value) {
        Agent::Readable(place, value.len())
    } else {
        Agent::Unreadable(place, value.len())
    }
}

// The pattern of a value, likewise; whether it is readable has been asked.
#[tactic(auto, using(crate::proofs::Kinding::pattern_none, crate::proofs::Kinding::pattern_readable, crate::proofs::Kinding::pattern_unreadable))]
#[inline(always)]
pub fn pattern_at(place: Place, value: &[u8], readable: bool) -> Pattern
    requires { readable ≡ readable_pattern value.now }
    ensures { result ≡ pattern_at place value.now }
{
    if value.is_empty() {
        return Pattern::Empty;
    }
    if readable {
        Pattern::Readable(place, value.len())
    } else {
        Pattern::Unreadable(place, value.len())
    }
}

// The octets of the value that a text begins with.
pub fn value_length(classes: &Classes, s: &[u8]) -> usize
    ensures { result ≡ length (trim_end (up_to stop s.now)) }
{
    let end = text::scan(classes, s, Sort::Stop, true);
    text::trimmed_length(classes, &s[..end])
}

// The agent of the value that begins there.
pub fn agent_of(classes: &Classes, r: &[u8], value: Place) -> Agent
    requires { value.offset ≤ length r.now }
    ensures { result ≡ agent_at value (value_at value r.now) }
{
    let rest = &r[value.offset..];
    agent_at(classes, value, &rest[..value_length(classes, rest)])
}

// Nothing is examined from there on. Most octets are past all stops, which is told sooner than their class.
pub fn ends_at(classes: &Classes, s: &[u8], at: Place) -> bool
    ensures { result ≡ ended (drop at.offset s.now) }
{
    match s.get(at.offset) {
        None => true,
        Some(octet) => *octet <= b'#' && classes.is_of(Sort::Stop, *octet),
    }
}

// The kind of a line that has no field that the protocol knows.
fn idle_kind(classes: &Classes, r: &[u8]) -> Kind
    requires { field_of (kind_of (line_text r.now)) ≡ None }
    ensures { result ≡ kind_of (line_text r.now) }
{
    let start = text::lead(classes, r);
    let rest = &r[start..];
    let n = text::scan(classes, rest, Sort::Delimiter, true);
    if fields::colon_at(rest, Place { offset: n }) {
        return Kind::Other;
    }
    if n == 0 {
        return Kind::Blank;
    }
    Kind::Noise
}

// Most lines that have no field begin with what ends them.
#[tactic(auto, using(crate::proofs::Idle::ended_blank, fields::proofs::Heads::no_field))]
pub fn kind_of(classes: &Classes, r: &[u8]) -> Kind
    ensures { result ≡ kind_of (line_text r.now) }
{
    if ends_at(classes, r, Place { offset: 0 }) {
        return Kind::Blank;
    }
    match fields::head_of(classes, r) {
        None => idle_kind(classes, r),
        Some(head) => crate::entry::entry_at(classes, r, head).kind,
    }
}
