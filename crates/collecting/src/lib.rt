// The readable rules of the groups that apply, kept in a lent table.

#![tactic(auto)]

ghost use Rattle.std.specs.Prelude.{◌≡◌, false, ◌&&◌, ◌||◌, List, [], ℕ, ◌+◌, ◌≤◌, ◌<◌, length};
ghost use Rattle.lists.specs.Lists.{any};
ghost use Rattle.protocol.specs.Octets.{line_end};
ghost use Rattle.protocol.specs.Readable.{names};
ghost use Rattle.protocol.specs.declared.Kind.{Kind};
ghost use Rattle.protocol.specs.Kinds.{kind_of};
ghost use Rattle.lines.specs.Spans.{text_at, next_at};
ghost use Rattle.collecting.specs.Left.{first_pass, Counted, IdlePassed, is_rule, Next, Turn, Rounded};

use octets::Classes;
use protocol::{Kind, Pattern, Place, Position, Side};
use tables::Kept;

// How far the lines are read: the next line, whether the rules of the group above it apply, and whether an agent line there would join that group.
#[derive(Clone, Copy)]
pub struct Pass {
    pub at: Position,
    pub applies: bool,
    pub joins: bool,
}

// How many rules are in the lent table, which no heap lets grow, and how far the lines are read for them.
#[derive(Clone, Copy)]
pub struct Collected {
    pub count: usize,
    pub pass: Pass,
}

// Before the first line.
pub fn first_pass(file: &[u8]) -> Pass
    ensures { result ≡ first_pass file.now }
{
    Pass {
        at: passes::line::first_line(file),
        applies: false,
        joins: false,
    }
}

// The kind of a line, which is never refused.
#[tactic(auto, using(crate::proofs::Reading::kind_told))]
fn line_kind(classes: &Classes, line: &[u8]) -> Kind
    requires short { length line.now ≤ 512000 }
    requires one_line { any line_end line.now ≡ false }
    ensures { result ≡ kind_of line.now }
{
    kinds::answers::line_answer(classes, line).unwrap_or(Kind::Other)
}

// The group that an agent line with that value starts or joins applies: it is theirs who have the name `who`. As hearing's `hear_agent` has it, for one
// name, and with no count of unread lines.
fn group_applies(classes: &Classes, pass: Pass, who: &[u8], value: &[u8]) -> bool
    ensures { result ≡ ((pass.joins && pass.applies) || names value.now who.now) }
{
    pass.joins && pass.applies || readable::names(classes, value, who)
}

// A file that is read for the rules of the groups that `who` names. That a pass stands at a line of it is asked for: a pass is kept between calls,
// without its file.
#[derive(Clone, Copy)]
struct Reader<'a> {
    classes: &'a Classes,
    file: &'a [u8],
    who: &'a [u8],
}

impl Reader<'_> {
    // Past a line that is no agent or rule line, and past whole blocks behind it in which none begins.
    fn pass_idle(self, at: Position) -> Position
        requires { Counted self.file.now at }
        ensures { IdlePassed self.entry.file.now at result }
    {
        let over = lines::skip::pass(self.file, at);
        let end = text::line_end(self.classes, self.file, over.place);
        passes::line::next_line(over, lines::span::behind_end(self.file, end))
    }

    // Behind a line that is no rule line, and in front of the one at `next`: an agent line may change whether rules apply, and any other changes
    // nothing.
    fn hear_other(self, pass: Pass, kind: Kind, next: Place) -> Pass
        requires counted { Counted self.file.now pass.at }
        requires told { kind ≡ kind_of (text_at self.file.now pass.at.place) }
        requires idle { is_rule kind ≡ false }
        requires behind { next ≡ next_at self.file.now pass.at.place }
        ensures { Next self.entry.file.now self.entry.who.now pass [] result }
    {
        let Kind::Agent(_) = kind else {
            return Pass {
                at: self.pass_idle(pass.at),
                ..pass
            };
        };
        let value = passes::line::value_of(self.file, pass.at.place, kind);
        let applies = group_applies(self.classes, pass, self.who, value);
        Pass {
            at: passes::line::next_line(pass.at, next),
            applies,
            joins: true,
        }
    }

    // Behind a rule line, and in front of the one at `next`: a readable rule that applies is kept.
    fn take_rule(
        self,
        c: Collected,
        side: Side,
        pattern: Pattern,
        next: Place,
        table: &mut [Kept],
    ) -> Collected
        requires counted { Counted self.file.now c.pass.at }
        requires told { Kind.Rule side pattern ≡ kind_of (text_at self.file.now c.pass.at.place) }
        requires behind { next ≡ next_at self.file.now c.pass.at.place }
        requires room { c.count < length table.old }
        ensures { (who : List ℕ) → Turn self.entry.file.now who table.old c table.new result }
    {
        let at = c.pass.at;
        let pass = Pass {
            at: passes::line::next_line(at, next),
            joins: false,
            ..c.pass
        };
        let Pattern::Readable(place, length) = pattern else {
            return Collected { pass, ..c };
        };
        if !pass.applies {
            return Collected { pass, ..c };
        }
        let rule = passes::line::rule_of(at, side, place, length);
        table[c.count] = Kept::new(rule, considering::pattern_of(self.file, rule));
        Collected {
            count: c.count + 1,
            pass,
        }
    }

    // One line more.
    fn read_line(self, c: Collected, table: &mut [Kept]) -> Collected
        requires counted { Counted self.file.now c.pass.at }
        requires room { c.count < length table.old }
        ensures { Turn self.entry.file.now self.entry.who.now table.old c table.new result }
    {
        let pass = c.pass;
        let last = text::line_end(self.classes, self.file, pass.at.place);
        let start = pass.at.place.offset;
        let end = last.offset;
        let kind = line_kind(self.classes, &self.file[start..end]);
        let next = lines::span::behind_end(self.file, last);
        if let Kind::Rule(side, pattern) = kind {
            self.take_rule(c, side, pattern, next, table)
        } else {
            Collected {
                pass: self.hear_other(pass, kind, next),
                ..c
            }
        }
    }
}

// The rules from a line on whose groups `who` names, in file order, as many as the table has room for. A loop of its own, and not passes' `gather`: with
// a loop or a function in common, a question takes 4 to 33 % more time.
pub fn collect(
    classes: &Classes,
    file: &[u8],
    who: &[u8],
    pass: Pass,
    table: &mut [Kept],
) -> Collected
    requires { (length file.now ≤ 512000) × (pass.at.number.number ≤ pass.at.place.offset + 1) }
    ensures { Rounded file.now who.now pass table.old table.new result }
{
    let reader = Reader { classes, file, who };
    let mut c = Collected { count: 0, pass };
    // No `for`: a turn ends where the next line begins that may be an agent or rule line.
    while c.pass.at.place.offset < file.len() {
        if c.count == table.len() {
            break;
        }
        c = reader.read_line(c, table);
    }
    c
}
