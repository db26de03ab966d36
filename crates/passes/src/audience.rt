// Whose groups apply: one pass over the agent lines.

ghost use Rattle.std.specs.Prelude.{◌≡◌, ◌≤◌, length};
ghost use Rattle.lists.specs.Lists.{same};
ghost use Rattle.protocol.specs.Readable.{everyone};
ghost use Rattle.protocol.specs.Entries.{entries};
ghost use Rattle.protocol.specs.Rules.{audience};
ghost use Rattle.kinds.specs.Entries.{value_front};
ghost use Rattle.hearing.specs.Heard.{addressed};
ghost use Rattle.passes.specs.Entries.{line_audience};
ghost use Rattle.passes.specs.Choosing.{after_line, ChosenOf};

use octets::Classes;
use protocol::{Audience, Place};

// The value that a text begins with is "*".
fn is_star(classes: &Classes, s: &[u8]) -> bool
    ensures { result ≡ same (value_front s.now) everyone }
{
    let [first, rest @ ..] = s else {
        return false;
    };
    // A test of its own: in one pattern, no octet and another octet would be one case, and the proof has to tell them apart.
    if *first != b'*' {
        return false;
    }
    let end = text::lead(classes, rest);
    kinds::line::ends_at(classes, rest, Place { offset: end })
}

// Whom the value that a text begins with names. Where a name ends is told by the octet behind it, so the value's end isn't looked for.
fn value_audience(classes: &Classes, name: &[u8], s: &[u8]) -> Audience
    ensures { result ≡ addressed name.now (value_front s.now) }
{
    if is_star(classes, s) {
        if readable::is_everyone(name) {
            Audience::Crawler
        } else {
            Audience::Everyone
        }
    } else if readable::names(classes, s, name) {
        Audience::Crawler
    } else {
        Audience::Nobody
    }
}

// Whom the line that begins at `at` names.
fn line_audience(classes: &Classes, file: &[u8], at: Place, name: &[u8]) -> Audience
    requires { at.offset ≤ length file.now }
    ensures { result ≡ line_audience file.now name.now at }
{
    let start = at.offset;
    let rest = &file[start..];
    let Some(value) = fields::near::agent_head(classes, rest) else {
        return Audience::Nobody;
    };
    value_audience(classes, name, &rest[value.offset..])
}

// Whose groups apply; where the first line that names them begins, or the file's end; and whether it is known that no other line does. The end is no
// place that is missing: from there on nothing is read.
#[derive(Clone, Copy)]
pub struct Chosen {
    pub audience: Audience,
    pub first: Place,
    pub only: bool,
}

// After one line more, which doesn't name the crawler.
fn after_line(chosen: Chosen, here: Audience, at: Place) -> Chosen
    ensures { result ≡ after_line chosen.audience here at chosen }
{
    if here != Audience::Everyone {
        return chosen;
    }
    if chosen.audience == Audience::Everyone {
        return Chosen {
            only: false,
            ..chosen
        };
    }
    Chosen {
        audience: here,
        first: at,
        only: true,
    }
}

// The first agent line that names the crawler tells; otherwise it matters whether one names "*".
pub fn choose_audience(classes: &Classes, file: &[u8], name: &[u8]) -> Chosen
    ensures { ChosenOf file.now name.now (audience file.now (entries file.now) name.now) result }
{
    let mut chosen = Chosen {
        audience: Audience::Nobody,
        first: Place { offset: file.len() },
        only: true,
    };
    let mut at = lines::span::first_place(file);
    // No `for`: a turn finds where the next begins.
    while at.offset < file.len() {
        let here = line_audience(classes, file, at, name);
        if here == Audience::Crawler {
            return Chosen {
                audience: here,
                first: at,
                only: false,
            };
        }
        chosen = after_line(chosen, here, at);
        at = lines::skip::next_agent(file, at);
    }
    chosen
}
