// Lines of a file: the first and the next one, the value of a line that begins at `at` and is of that kind, and a rule line's rule.

ghost use Rattle.std.specs.Prelude.{◌≡◌, ◌+◌, ◌≤◌, ◌<◌, ◌^◌, length};
ghost use Rattle.protocol.specs.Lines.{line_number, place_at, number_after, skipped};
ghost use Rattle.protocol.specs.Kinds.{kind_of};
ghost use Rattle.lines.specs.Spans.{text_at};
ghost use Rattle.kinds.specs.Entries.{entry_kind};
ghost use Rattle.passes.specs.Entries.{line_value, value_end};

use protocol::{Kind, LineNumber, Place, Position, Rule, Side};

// The first line.
pub fn first_line(file: &[u8]) -> Position
    ensures { result ≡ record { number = line_number 1; place = place_at (skipped file.now) } }
{
    Position {
        number: LineNumber { number: 1 },
        place: lines::span::first_place(file),
    }
}

// The line behind the one at `at`, which begins at `place`.
pub fn next_line(at: Position, place: Place) -> Position
    requires { at.number.number + 1 < 2 ^ 64 }
    ensures { result ≡ record { number = number_after at.number 1; place = place } }
{
    Position {
        number: LineNumber {
            number: at.number.number + 1,
        },
        place,
    }
}

// Where the value ends, which is inside of the line or at its end. What `kind` is of is asked for: who calls has just read it there.
pub fn value_end(file: &[u8], at: Place, kind: Kind) -> Place
    requires { (at.offset ≤ length file.now) × (kind ≡ entry_kind (kind_of (text_at file.now at))) }
    ensures { result ≡ value_end at kind }
{
    let place = numbers::place_of(kind);
    Place {
        offset: at.offset + place.offset + numbers::length_of(kind),
    }
}

// Its octets.
pub fn value_of(file: &[u8], at: Place, kind: Kind) -> &[u8]
    requires { (at.offset ≤ length file.now) × (kind ≡ entry_kind (kind_of (text_at file.now at))) }
    ensures { result.now ≡ line_value file.now at kind }
{
    let end = value_end(file, at, kind).offset;
    let start = end - numbers::length_of(kind);
    &file[start..end]
}

// The rule of a rule line at `at` whose pattern stands at that place of the line.
pub fn rule_of(at: Position, side: Side, place: Place, length: usize) -> Rule
    requires { at.place.offset + place.offset < 2 ^ 64 }
    ensures { result ≡ record { line = at.number; side = side; place = place_at (at.place.offset + place.offset); length = length } }
{
    Rule {
        line: at.number,
        side,
        place: Place {
            offset: at.place.offset + place.offset,
        },
        length,
    }
}
