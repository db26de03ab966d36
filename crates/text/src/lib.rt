// Parts of a text: where an octet stands, and where spaces and tabs at the ends stop.

#![tactic(auto)]

pub mod same; // same.rt: beginnings, ASCII case ignored

ghost use Rattle.std.specs.Prelude.{◌≡◌, ℕ, Bool, map, ◌≤◌, length};
ghost use Rattle.lists.specs.Lists.{any, up_to};
ghost use Rattle.protocol.specs.Text.{lead, trim_end};
ghost use Rattle.protocol.specs.Octets.{line_end};
ghost use Rattle.words.specs.Words.{octets_of, among, mark, Marks};
ghost use Rattle.text.specs.Parts.{equals, opens, first_from, sought};

use octets::Classes;
use protocol::{Place, Sort};

// The octets in front of the first that `marks` marks, all of them where there is none. Eight are looked at at a time, the last eight once more, so
// that none are left over; so there have to be eight. Who has less looks at each.
#[tactic(auto, using(crate::proofs::Marked::mark_fits))]
fn first_marked<F: Fn(u64) -> u64>(s: &[u8], marks: F) -> usize
    requires eight { 8 ≤ length s.now }
    requires callable { F.IsAlwaysCallable marks }
    ensures { (f : ℕ → Bool) → Marks (F.post marks) f → result ≡ length (up_to f s.now) }
{
    let last = s.len() - 8;
    let mut i = 0;
    // Over the slices of `as_chunks` the compiler counts both words and octets, which takes an eighth longer.
    while i < last {
        let m = marks(words::word_at(s, i));
        if m != 0 {
            return i + words::first_mark(m);
        }
        i += 8;
    }
    let m = marks(words::word_at(s, last));
    if m == 0 {
        s.len()
    } else {
        last + words::first_mark(m)
    }
}

// The octets in front of the first from low to high, or of the first other one, all of them where there is none.
pub fn clear_front(s: &[u8], low: u8, high: u8, inside: bool) -> usize
    requires { (8 ≤ length s.now) × (low ≤ 128) × (high ≤ 127) }
    ensures { result ≡ length (up_to (among low high inside) s.now) }
{
    first_marked(s, |w| words::marks(w, low, high, inside))
}

// An octet from low to high, or any other. The three stay parameters: any octets may be sought, and only of words is asked that they are small, so no
// one invariant holds of them.
fn is_among(x: u8, low: u8, high: u8, inside: bool) -> bool
    ensures { result ≡ among low high inside x }
{
    (low..=high).contains(&x) == inside
}

// As `clear_front`, of any text and any octets. Octets over 127 are sought one by one.
fn front(s: &[u8], low: u8, high: u8, inside: bool) -> usize
    ensures { result ≡ length (up_to (among low high inside) s.now) }
{
    if s.len() < 8 || 127 < low || 127 < high {
        return s
            .iter()
            .position(|x| is_among(*x, low, high, inside))
            .unwrap_or(s.len());
    }
    clear_front(s, low, high, inside)
}

// The place of the first octet from low to high, or of the first other one, from `from` on, or the text's end.
#[tactic(auto, using(crate::proofs::Seeks::first_past, lists::proofs::Scans::up_to_fits))]
pub fn seek(s: &[u8], from: Place, low: u8, high: u8, inside: bool) -> Place
    ensures { result ≡ first_from (among low high inside) s.now from }
{
    match s.get(from.offset..) {
        Some(rest) => Place {
            offset: from.offset + front(rest, low, high, inside),
        },
        None => from,
    }
}

// The octets in front of the first x: all of them where there is none.
pub fn find(s: &[u8], x: u8) -> usize
    ensures { result ≡ length (up_to (equals x) s.now) }
{
    front(s, x, x, true)
}

// 128 in the place of each CR and LF of a word. Most words have no octet up to CR.
#[tactic(auto, using(crate::proofs::Seeks::end_marks, crate::proofs::Seeks::no_end_marks))]
fn line_end_marks(w: u64) -> u64
    ensures { octets_of 8 result ≡ map (mark line_end) (octets_of 8 w) }
{
    if words::marks(w, 0, b'\r', true) == 0 {
        return 0;
    }
    words::marks(w, b'\r', b'\r', true) | words::marks(w, b'\n', b'\n', true)
}

// The octets in front of the first CR or LF, all of them where there is none.
fn line_front(classes: &Classes, s: &[u8]) -> usize
    ensures { result ≡ length (up_to line_end s.now) }
{
    if s.len() < 8 {
        return scan(classes, s, Sort::LineEnd, true);
    }
    first_marked(s, line_end_marks)
}

// The text begins with CR or LF.
fn is_at_end(classes: &Classes, s: &[u8]) -> bool
    ensures { result ≡ opens line_end s.now }
{
    s.first().is_some_and(|x| classes.is_of(Sort::LineEnd, *x))
}

// The place of the first CR or LF from `from` on, or the text's end. Mostly one stands there.
#[tactic(auto, using(crate::proofs::Seeks::first_past, crate::proofs::Seeks::first_here, lists::proofs::Scans::up_to_fits))]
pub fn line_end(classes: &Classes, s: &[u8], from: Place) -> Place
    ensures { result ≡ first_from line_end s.now from }
{
    match s.get(from.offset..) {
        Some(rest) if !is_at_end(classes, rest) => Place {
            offset: from.offset + line_front(classes, rest),
        },
        _ => from,
    }
}

// The octets in front of the first that is of the sort; where `inside` is false, of the first that isn't.
pub fn scan(classes: &Classes, s: &[u8], sort: Sort, inside: bool) -> usize
    ensures { result ≡ length (up_to (sought sort inside) s.now) }
{
    s.iter()
        .position(|x| classes.is_of(sort, *x) == inside)
        .unwrap_or(s.len())
}

// The number of spaces and tabs at the front.
#[tactic(auto, unfolding(protocol::specs::Text::lead))]
pub fn lead(classes: &Classes, s: &[u8]) -> usize
    ensures { result ≡ lead s.now }
{
    scan(classes, s, Sort::Blank, false)
}

// The octets that are left without spaces and tabs at the end.
pub fn trimmed_length(classes: &Classes, s: &[u8]) -> usize
    ensures { result ≡ length (trim_end s.now) }
{
    match s.iter().rposition(|x| !classes.is_of(Sort::Blank, *x)) {
        Some(i) => i + 1,
        None => 0,
    }
}

// Some octet is CR or LF. Most texts have no octet up to CR.
#[tactic(auto, using(lists::proofs::Scans::up_to_fits))]
pub fn holds_line_end(classes: &Classes, s: &[u8]) -> bool
    ensures { result ≡ any line_end s.now }
{
    let rest = &s[front(s, 0, b'\r', true)..];
    rest.iter().any(|x| classes.is_of(Sort::LineEnd, *x))
}
