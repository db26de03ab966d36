// The head of a line in a file, told sooner than by `head_of` where the line is written as most are: the colon right behind the name, and at
// most one space or tab behind it.

ghost use Rattle.std.specs.Prelude.{IfSome, ◌≡◌, ◌+◌, ◌≤◌, length, take, drop};
ghost use Rattle.protocol.specs.Text.{lead};
ghost use Rattle.words.specs.Words.{octets_of};
ghost use Rattle.fields.specs.declared.Field.{Field};
ghost use Rattle.fields.specs.Fields.{head_of};
ghost use Rattle.fields.specs.Names.{begins_name, field_at};
ghost use Rattle.fields.specs.Near.{name_word, kept_word, folded, word_begins, near_value, agent_first, agent_value};

use crate::{Field, Head};
use octets::Classes;
use protocol::{FIELDS, Place, Side, Sort};

impl Field {
    // The first eight octets of its name, in a word; zeros behind a shorter one.
    fn name_word(self) -> u64
        ensures { octets_of 8 result ≡ name_word self }
    {
        match self {
            Field::Agent => words::word_at(&FIELDS[0], 0),
            Field::Rule(Side::Allow) => words::word_at(&FIELDS[1], 0),
            Field::Rule(Side::Disallow) => words::word_at(&FIELDS[2], 0),
        }
    }

    // 255 in the place of each octet of it.
    fn kept_word(self) -> u64
        ensures { octets_of 8 result ≡ kept_word self }
    {
        match self {
            Field::Agent => 0xFFFF_FFFF_FFFF_FFFF,
            Field::Rule(Side::Allow) => 0xFF_FFFF_FFFF,
            Field::Rule(Side::Disallow) => 0xFFFF_FFFF_FFFF_FFFF,
        }
    }

    // A word begins with its name, as far as it goes.
    fn begins_word(self, w: u64) -> bool
        ensures { result ≡ word_begins self (octets_of 8 w) }
    {
        w & self.kept_word() == self.name_word()
    }
}

// A text's first eight octets, each with the bit 32 set: with it, a letter is a lower-case one. It is set in all of them, once for all names,
// so that the compiler reads the eight octets at once.
fn folded_word(s: &[u8]) -> u64
    requires { 8 ≤ length s.now }
    ensures { octets_of 8 result ≡ folded (take 8 s.now) }
{
    words::word_at(s, 0) | 0x2020_2020_2020_2020
}

// A text begins with the agent's name: w holds its first eight octets, folded. Its hyphen is asked for by itself, since CR is folded to one too.
fn begins_agent(classes: &Classes, w: u64, s: &[u8]) -> bool
    requires long { 10 ≤ length s.now }
    requires front { octets_of 8 w ≡ folded (take 8 s.now) }
    ensures { result ≡ begins_name Field.Agent s.now }
{
    Field::Agent.begins_word(w)
        && s[4] == FIELDS[0][4]
        && classes.is_same(s[8], FIELDS[0][8])
        && classes.is_same(s[9], FIELDS[0][9])
}

// The field whose name a text begins with, by its first eight octets: as `field_at`, but that the agent's name is longer than a word.
fn field_in(classes: &Classes, s: &[u8]) -> Option<Field>
    requires { 10 ≤ length s.now }
    ensures { result ≡ field_at s.now }
{
    let w = folded_word(s);
    if Field::Rule(Side::Disallow).begins_word(w) {
        return Some(Field::Rule(Side::Disallow));
    }
    if Field::Rule(Side::Allow).begins_word(w) {
        return Some(Field::Rule(Side::Allow));
    }
    if begins_agent(classes, w, s) {
        return Some(Field::Agent);
    }
    None
}

// Where the value begins, if a colon stands there and at most one space or tab behind it.
fn near_value(classes: &Classes, r: &[u8], colon: usize) -> Option<usize>
    requires { colon + 3 ≤ length r.now }
    ensures { result ≡ near_value colon (drop colon r.now) }
{
    if r[colon] != b':' {
        return None;
    }
    if !classes.is_of(Sort::Blank, r[colon + 1]) {
        return Some(colon + 1);
    }
    if !classes.is_of(Sort::Blank, r[colon + 2]) {
        return Some(colon + 2);
    }
    None
}

// The head of a line that is indented by so many octets, or that it has none: where the octets behind them tell it; and nothing where they don't. It
// leaves `head_of` to its callers, so that the compiler needn't hand it the text in memory, at each line.
fn indented(classes: &Classes, r: &[u8], start: usize) -> Option<Option<Head>>
    requires { start ≡ lead r.now }
    ensures { IfSome result (λ told. told ≡ head_of r.now) }
{
    let rest = &r[start..];
    if rest.len() < 13 {
        return None;
    }
    let Some(field) = field_in(classes, rest) else {
        return Some(None);
    };
    let value = near_value(classes, rest, field.name_length())?;
    let place = Place {
        offset: start + value,
    };
    Some(Some(Head {
        field,
        value: place,
    }))
}

// The head of the line that a text begins with. Its first octet isn't read by itself: the compiler would then put the word together from octets,
// at each line.
pub fn head_in(classes: &Classes, r: &[u8]) -> Option<Head>
    ensures { result ≡ head_of r.now }
{
    if 13 <= r.len() {
        if let Some(field) = field_in(classes, r) {
            if let Some(value) = near_value(classes, r, field.name_length()) {
                return Some(Head {
                    field,
                    value: Place { offset: value },
                });
            }
        } else {
            let start = text::lead(classes, r);
            if start == 0 {
                return None;
            }
            if let Some(told) = indented(classes, r, start) {
                return told;
            }
        }
    }
    crate::head_of(classes, r)
}

// Where the value of an agent line begins.
fn agent_value(head: Option<Head>) -> Option<Place>
    ensures { result ≡ agent_value head }
{
    match head {
        Some(
            Head {
                field: Field::Agent,
                value,
            },
        ) => Some(value),
        _ => None,
    }
}

// The octet at `start` is the first of the agent's name, ASCII case ignored.
fn may_be_agent(classes: &Classes, r: &[u8], start: usize) -> bool
    ensures { result ≡ agent_first (drop start r.now) }
{
    match r.get(start) {
        None => false,
        Some(first) => classes.is_same(*first, FIELDS[0][0]),
    }
}

// Where the value of the line that a text begins with begins, if it is an agent line. A line of spaces and tabs alone, or one whose first other
// octet isn't that of the agent's name, is told sooner.
pub fn agent_head(classes: &Classes, r: &[u8]) -> Option<Place>
    ensures { result ≡ agent_value (head_of r.now) }
{
    if 13 <= r.len() {
        let w = folded_word(r);
        if begins_agent(classes, w, r) {
            if let Some(value) = near_value(classes, r, 10) {
                return Some(Place { offset: value });
            }
        } else {
            if !classes.is_of(Sort::Blank, r[0]) {
                return None;
            }
            let start = text::lead(classes, r);
            if !may_be_agent(classes, r, start) {
                return None;
            }
            if let Some(told) = indented(classes, r, start) {
                return agent_value(told);
            }
        }
    }
    agent_value(crate::head_of(classes, r))
}
