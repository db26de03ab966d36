// What the agent and rule lines of a file come to. That a file isn't too long is asked for as a clause: it is lent as well to many that don't ask it,
// and a type for it would be made and taken apart at each of these calls.

ghost use Rattle.std.specs.Prelude.{◌≡◌, ◌+◌, ◌≤◌, ◌<◌, ◌^◌, length};
ghost use Rattle.protocol.specs.Lines.{skipped};
ghost use Rattle.protocol.specs.declared.Kind.{Kind};
ghost use Rattle.protocol.specs.Kinds.{kind_of, unreadable_kind};
ghost use Rattle.protocol.specs.Entries.{rule};
ghost use Rattle.lines.specs.Spans.{text_at};
ghost use Rattle.lines.specs.Skips.{PassedOver};
ghost use Rattle.kinds.specs.Entries.{entry_kind};
ghost use Rattle.hearing.specs.Heard.{whom};
ghost use Rattle.considering.specs.Considering.{considered_all};
ghost use Rattle.passes.specs.Entries.{heard_other, entry_at, rule_heard, gathered, told};
ghost use Rattle.passes.specs.Steps.{Room, PassedLine, line_entry, next_look, Jumped, first_line, first_read, next_read};
ghost use Rattle.passes.specs.Choosing.{ChosenOf};

use crate::audience::Chosen;
use considering::Considered;
use hearing::Hearing;
use kinds::entry::Entry;
use octets::Classes;
use protocol::{Agent, Audience, Dialect, Kind, LineNumber, Pattern, Place, Position, Side};

// What the rules that apply come to, and the unreadable lines of the whole file: 0 where it isn't read whole, as `told` defines it.
#[derive(Clone, Copy)]
pub struct Gathered {
    pub considered: Considered,
    pub unread: usize,
}

fn is_unread_agent(agent: Agent) -> bool
    ensures { result ≡ unreadable_kind (Kind.Agent agent) }
{
    matches!(agent, Agent::Unreadable(_, _))
}

// A pattern is another type than an agent; the side is here for the contract alone.
fn is_unread_rule(side: Side, pattern: Pattern) -> bool
    ensures { result ≡ unreadable_kind (Kind.Rule side pattern) }
{
    matches!(pattern, Pattern::Unreadable(_, _))
}

// What the lines of a file are read for: the rules of those whose groups apply, for a path. It isn't decide's question: whose groups apply is chosen
// already, and the path is normalised.
#[derive(Clone, Copy)]
struct Question<'a> {
    classes: &'a Classes,
    dialect: Dialect,
    file: &'a [u8],
    audience: Audience,
    name: &'a [u8],
    path: &'a [u8],
}

impl Question<'_> {
    // After a line that is no rule line: an agent line is heard, and any other changes nothing.
    fn hear_other(self, h: Hearing, at: Place, kind: Kind) -> Hearing
        requires inside { at.offset ≤ length self.file.now }
        requires told { kind ≡ entry_kind (kind_of (text_at self.file.now at)) }
        requires fits { h.unread + 1 < 2 ^ 64 }
        ensures { result ≡ heard_other self.entry.file.now (whom self.entry.audience self.entry.name.now) at kind h }
    {
        let Kind::Agent(agent) = kind else {
            return h;
        };
        let value = crate::line::value_of(self.file, at, kind);
        hearing::hear_agent(
            self.classes,
            h,
            self.audience,
            self.name,
            value,
            is_unread_agent(agent),
        )
    }

    // After a rule line: a readable rule of a group that applies is considered.
    fn consider_rule(
        self,
        c: Considered,
        applies: bool,
        at: Position,
        side: Side,
        pattern: Pattern,
        scratch: &mut [u8],
    ) -> Considered
        requires told { Kind.Rule side pattern ≡ kind_of (text_at self.file.now at.place) }
        requires room { Room self.file.now self.path.now scratch.old at.place c }
        ensures value { result ≡ considered_all self.entry.dialect self.entry.file.now self.entry.path.now c (rule_heard self.entry.file.now applies (rule side) (entry_at at (Kind.Rule side pattern) (rule side))) }
        ensures scratch_len_unchanged { length scratch.new ≡ length scratch.old }
    {
        let Pattern::Readable(place, length) = pattern else {
            return c;
        };
        if !applies {
            return c;
        }
        let rule = crate::line::rule_of(at, side, place, length);
        let octets = considering::pattern_of(self.file, rule);
        c.consider(self.dialect, rule, octets, self.path, scratch)
    }
}

// Past whole blocks without an agent or rule line, unless it is too soon to look for them.
fn pass_idle(file: &[u8], at: Position, soonest: Place) -> Position
    requires { (at.place.offset < length file.now) × (at.number.number ≤ at.place.offset + 1) }
    ensures { PassedOver file.now at result }
{
    if at.place.offset < soonest.offset {
        at
    } else {
        lines::skip::pass(file, at)
    }
}

// An octet of the last line that is passed: of the line at `at`, or of one behind it, no agent or rule line being among those.
fn pass_line(file: &[u8], at: Position, entry: Entry, soonest: Place) -> Position
    requires { (at.place.offset < length file.now) × (at.number.number ≤ at.place.offset + 1) × (entry ≡ line_entry file.now at.place) }
    ensures { PassedLine file.now at result }
{
    if matches!(entry.kind, Kind::Other) {
        return pass_idle(file, at, soonest);
    }
    Position {
        number: at.number,
        place: Place {
            offset: at.place.offset + entry.end.offset,
        },
    }
}

// A block of 64 octets in which such a line begins is not looked at again for each of its lines.
fn next_look(soonest: Place, over: Place) -> Place
    requires { over.offset + 64 < 2 ^ 64 }
    ensures { result ≡ next_look soonest over }
{
    if over.offset < soonest.offset {
        soonest
    } else {
        Place {
            offset: over.offset + 64,
        }
    }
}

// The line that begins at `to`, with its number; its number is left free at the file's end.
fn jump(file: &[u8], at: Position, to: Place) -> Position
    requires { (at.number.number ≤ at.place.offset + 1) × (at.place.offset ≤ to.offset) × (length file.now ≤ 512000) }
    ensures { Jumped file.now at to result }
{
    if file.len() <= to.offset {
        return Position {
            number: at.number,
            place: to,
        };
    }
    let count = at.number.number + lines::skip::count_endings(file, at.place, to);
    Position {
        number: LineNumber { number: count },
        place: to,
    }
}

// The first line to be read: the file's, where the whole file is read, or the first that names those whose groups apply.
fn first_read(file: &[u8], whole: bool, first: Place) -> Position
    requires { (skipped file.now ≤ first.offset) × (length file.now ≤ 512000) }
    ensures { Jumped file.now (first_line file.now) (first_read file.now whole first) result }
{
    let at = crate::line::first_line(file);
    if whole { at } else { jump(file, at, first) }
}

// Behind a line of a group that doesn't apply: the next line that may be an agent line, or the file's end where no other names those whose groups
// apply.
#[tactic(auto, using(lines::proofs::Passing::agents_further, crate::proofs::Turns::next_none, crate::proofs::Turns::next_some))]
fn next_group(file: &[u8], at: Position, only: bool) -> Position
    requires { (at.number.number ≤ at.place.offset + 1) × (at.place.offset < length file.now) × (length file.now ≤ 512000) }
    ensures { Jumped file.now at (next_read file.now at.place only) result }
{
    if only {
        return Position {
            number: at.number,
            place: Place { offset: file.len() },
        };
    }
    jump(file, at, lines::skip::far_agent(file, at.place))
}

// After all lines of a file, for those whose groups apply. Only for the unread count is the whole file read.
pub fn gather(
    classes: &Classes,
    dialect: Dialect,
    file: &[u8],
    whole: bool,
    chosen: Chosen,
    name: &[u8],
    path: &[u8],
    scratch: &mut [u8],
) -> Gathered
    requires { ChosenOf file.now name.now chosen.audience chosen × (length file.now ≤ 512000) × (length path.now ≤ 6142) × (length path.now ≤ length scratch.old) }
    ensures value { result ≡ told whole (gathered dialect file.now name.now chosen.audience path.now) }
    ensures scratch_len_unchanged { length scratch.new ≡ length scratch.old }
{
    let question = Question {
        classes,
        dialect,
        file,
        audience: chosen.audience,
        name,
        path,
    };
    let mut h = hearing::nothing_heard();
    let mut c = Considered::new();
    let mut at = first_read(file, whole, chosen.first);
    let mut soonest = at.place;
    // No `for`: a turn finds where the next begins.
    while at.place.offset < file.len() {
        let here = at;
        let start = here.place.offset;
        let entry = kinds::entry::entry_of(classes, &file[start..]);
        let over = pass_line(file, here, entry, soonest);
        soonest = next_look(soonest, over.place);
        at = crate::line::next_line(over, lines::span::next_place(classes, file, over.place));
        let Kind::Rule(side, pattern) = entry.kind else {
            h = question.hear_other(h, here.place, entry.kind);
            if !h.applies && !whole {
                at = next_group(file, here, chosen.only);
            }
            continue;
        };
        c = question.consider_rule(c, h.applies, here, side, pattern, scratch);
        h = hearing::hear_rule(h, is_unread_rule(side, pattern));
    }
    Gathered {
        considered: c,
        unread: if whole { h.unread } else { 0 },
    }
}
