// The kind of a line for a pass over a file. Most lines of most files have a value of ordinary octets, which are looked at eight at a time.
// `entry_at` and what it calls are put into its callers, so that the compiler makes one loop of them all.

ghost use Rattle.std.specs.Prelude.{◌≡◌, Some, length};
ghost use Rattle.lists.specs.Lists.{all, up_to};
ghost use Rattle.protocol.specs.Lines.{line_text, place_after};
ghost use Rattle.protocol.specs.Readable.{readable_pattern};
ghost use Rattle.protocol.specs.Kinds.{kind_of};
ghost use Rattle.readable.specs.Due.{ordinary, unusual};
ghost use Rattle.fields.specs.Fields.{head_of, value_at, kind_as};
ghost use Rattle.kinds.specs.Entries.{entry_told, value_front};

use fields::{Field, Head};
use octets::Classes;
use protocol::{Kind, Place};

// A line, for a pass: its kind, as `entry_kind` tells it, to which blank and noise lines are other lines too; and where what is examined of it ends,
// from where the next line is looked for.
#[derive(Clone, Copy)]
pub struct Entry {
    pub kind: Kind,
    pub end: Place,
}

// The octets of a value, and whether all of them are ordinary. Both are told of each value, so that they are no `Option`.
#[derive(Clone, Copy)]
struct Value<'a> {
    octets: &'a [u8],
    usual: bool,
    ghost told: { usual ≡ all ordinary octets.now },
}

// How many ordinary octets stand in front. `readable::ordinary_front` tells the same; with it alone in this place, a line takes a tenth more time. An
// iterator over the words would need the octets that are passed counted beside it.
#[inline(always)]
fn ordinary_words(s: &[u8]) -> usize
    ensures { result ≡ length (up_to unusual s.now) }
{
    let mut i = 0;
    while 8 <= s.len() - i {
        let m = words::marks(words::word_at(s, i), 0x24, 0x7F, false);
        if m != 0 {
            return i + words::first_mark(m);
        }
        i += 8;
    }
    i + readable::ordinary_front(&s[i..])
}

// The value that a text begins with. Where spaces and tabs and then a stop stand behind the ordinary octets, these are the value; otherwise it goes
// on behind the spaces and tabs, and nothing in front of its rest is looked at again.
#[inline(always)]
fn value_in<'a>(classes: &Classes, s: &'a [u8]) -> Value<'a>
    ensures { result.octets.now ≡ value_front s.now }
{
    let n = ordinary_words(s);
    if crate::line::ends_at(classes, s, Place { offset: n }) {
        return Value {
            octets: &s[..n],
            usual: true,
        };
    }
    let end = n + text::lead(classes, &s[n..]);
    if crate::line::ends_at(classes, s, Place { offset: end }) {
        return Value {
            octets: &s[..n],
            usual: true,
        };
    }
    let all = end + crate::line::value_length(classes, &s[end..]);
    Value {
        octets: &s[..all],
        usual: false,
    }
}

// A value is a readable pattern. Ordinary octets are whole characters.
#[tactic(auto, using(crate::proofs::Values::ordinary_readable))]
#[inline(always)]
fn is_pattern(value: Value) -> bool
    ensures { result ≡ readable_pattern value.entry.octets.now }
{
    if value.usual {
        return readable::pattern_start(value.octets);
    }
    readable::readable_pattern(value.octets)
}

// The kind of a line with that head, whose value is given.
#[inline(always)]
fn kind_with(classes: &Classes, head: Head, value: Value) -> Kind
    ensures { result ≡ kind_as head.field head.value value.entry.octets.now }
{
    match head.field {
        Field::Agent => Kind::Agent(crate::line::agent_at(classes, head.value, value.octets)),
        Field::Rule(side) => {
            let readable = is_pattern(value);
            Kind::Rule(
                side,
                crate::line::pattern_at(head.value, value.octets, readable),
            )
        }
    }
}

// The kind of a line whose head is known, and where what is examined of it ends.
#[inline(always)]
pub fn entry_at(classes: &Classes, r: &[u8], head: Head) -> Entry
    requires { Some head ≡ head_of r.now }
    ensures kind { result.kind ≡ kind_of (line_text r.now) }
    ensures end { result.end ≡ place_after head.value (length (value_at head.value r.now)) }
{
    let start = head.value.offset;
    let value = value_in(classes, &r[start..]);
    let kind = kind_with(classes, head, value);
    let end = Place {
        offset: start + value.octets.len(),
    };
    Entry { kind, end }
}

// The kind of the line that a text begins with, and where what is examined of it ends.
#[tactic(auto, using(crate::proofs::Kinding::none_told))]
pub fn entry_of(classes: &Classes, r: &[u8]) -> Entry
    ensures { result ≡ entry_told r.now }
{
    match fields::near::head_in(classes, r) {
        None => Entry {
            kind: Kind::Other,
            end: Place { offset: 0 },
        },
        Some(head) => entry_at(classes, r, head),
    }
}
