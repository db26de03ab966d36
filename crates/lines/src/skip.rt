// Passing over octets in which no agent or rule line begins.

ghost use Rattle.std.specs.Prelude.{◌≡◌, ◌+◌, ◌≤◌, ◌<◌, true, false, length, IfSome, MatchOption};
ghost use Rattle.std.specs.List.{zip, position};
ghost use Rattle.protocol.specs.Octets.{is, line_end};
ghost use Rattle.lines.specs.Skips.{agent_octet, entry_octet, pairs, opens, quiet, closes, endings, between, agent_front, next_agent, PassedFrom};

use protocol::{FIELDS, LineNumber, Place, Position};

// An agent line may begin with the octet. By `|` and not by `matches!`, so that the compiler can look at many octets at a time: with `matches!` it
// looks at one.
#[tactic(auto, using(crate::proofs::Skips::agent_bits))]
fn may_begin(x: u8) -> bool
    ensures { result ≡ agent_octet x }
{
    (x | 32 == FIELDS[0][0]) | (x == b' ') | (x == b'\t')
}

// A line ends with the octet, or is ended by it and the one behind it: by `|`, without a branch too.
#[tactic(auto, unfolding(protocol::specs::Octets::line_end))]
fn ends_line(x: u8) -> bool
    ensures { result ≡ line_end x }
{
    (x == b'\r') | (x == b'\n')
}

// An agent or rule line may begin with the octet, without a branch too.
#[tactic(auto, using(crate::proofs::Skips::entry_bits))]
fn may_begin_entry(x: u8) -> bool
    ensures { result ≡ entry_octet x }
{
    (x | 32 == FIELDS[1][0]) | (x | 32 == FIELDS[2][0]) | may_begin(x)
}

// The octet x, in front of y, is the last of its line and of its ending.
fn closes_line(x: u8, y: u8) -> bool
    ensures { result ≡ closes x (is "\n" y) }
{
    (x == b'\n') | ((x == b'\r') & (y != b'\n'))
}

// An agent line may begin between the octet x and the octet y behind it.
fn opens_agent(x: u8, y: u8) -> bool
    ensures { result ≡ opens agent_octet (x, y) }
{
    ends_line(x) & may_begin(y)
}

// No agent line begins behind any of the octets; `behind` holds the octet behind each of them. By `fold` and not by `any`: all are looked at, so
// that the compiler can look at many at a time, and in two texts, so that it needn't put together one from the other.
fn is_quiet(b: &[u8], behind: &[u8]) -> bool
    ensures { result ≡ quiet agent_octet (zip b.now behind.now) }
{
    !b.iter()
        .zip(behind)
        .fold(false, |found, (x, y)| found | opens_agent(*x, *y))
}

// Which of 64 octets is the first behind which an agent line may begin. By the least index and not by `position`, so that the compiler can look at many at a time; and of slices, whose
// length who lends them knows and needn't test.
fn front_agent(b: &[u8], behind: &[u8]) -> Option<usize>
    requires block { length b.now ≡ 64 }
    requires block_behind { length behind.now ≡ 64 }
    ensures { result ≡ position (opens agent_octet) (zip b.now behind.now) }
{
    let mut first = 64;
    for i in 0..64u8 {
        let at = usize::from(i);
        let here = if opens_agent(b[at], behind[at]) {
            i
        } else {
            64
        };
        first = first.min(here);
    }
    if first < 64 {
        Some(usize::from(first))
    } else {
        None
    }
}

// The same of any octets, one by one.
fn near_agent(b: &[u8], behind: &[u8]) -> Option<usize>
    ensures { result ≡ position (opens agent_octet) (zip b.now behind.now) }
{
    b.iter()
        .zip(behind)
        .position(|(x, y)| ends_line(*x) && may_begin(*y))
}

// Where in the octets the first line begins that may be an agent line; their end, if there is none. Most texts end without an agent line, so all
// octets are looked at first.
fn tail_agent(s: &[u8]) -> usize
    requires { 1 ≤ length s.now }
    ensures { result ≡ agent_front (pairs s.now) + 1 }
{
    let behind = &s[1..];
    if is_quiet(s, behind) {
        return s.len();
    }
    match near_agent(s, behind) {
        Some(i) => i + 1,
        None => s.len(),
    }
}

// As `next_agent`, block by block: for a place from which the next such line is mostly far. The place goes on beside the blocks: behind the loop the rest
// is looked at from there.
pub fn far_agent(s: &[u8], from: Place) -> Place
    requires { from.offset < length s.now }
    ensures { result ≡ next_agent s.now from }
{
    let mut at = from.offset;
    let (blocks, _) = s[at..].as_chunks::<64>();
    let (behinds, _) = s[at + 1..].as_chunks::<64>();
    for (b, behind) in blocks.iter().zip(behinds) {
        if !is_quiet(b, behind) {
            if let Some(i) = front_agent(b, behind) {
                return Place { offset: at + i + 1 };
            }
        }
        at += 64;
    }
    Place {
        offset: at + tail_agent(&s[at..]),
    }
}

// Which octet ends the first line, if the line behind it begins in the octets and may be an agent line.
fn behind_line(s: &[u8]) -> Option<usize>
    ensures { IfSome result (λ i. (i + 1 < length s.now) × (i ≡ agent_front (pairs s.now))) }
{
    let end = text::seek(s, Place { offset: 0 }, b'\n', b'\r', true);
    let rest = &s[end.offset..];
    match rest {
        [x, y, ..] if ends_line(*x) && may_begin(*y) => Some(end.offset),
        _ => None,
    }
}

// Where the next line begins that may be an agent line; the text's end, if there is none. Before any block, the next five octets are looked at one
// by one, and then the line behind this one: where such lines are short, or many, the next is near. In the first block the place is looked for at
// once: mostly it is there.
pub fn next_agent(s: &[u8], from: Place) -> Place
    requires { from.offset < length s.now }
    ensures { result ≡ next_agent s.now from }
{
    let start = from.offset;
    if s.len() - start < 70 {
        return Place {
            offset: start + tail_agent(&s[start..]),
        };
    }
    if let Some(i) = near_agent(&s[start..start + 5], &s[start + 1..start + 6]) {
        return Place {
            offset: start + i + 1,
        };
    }
    if let Some(i) = behind_line(&s[start..start + 33]) {
        return Place {
            offset: start + i + 1,
        };
    }
    let on = start + 5;
    if let Some(i) = front_agent(&s[on..on + 64], &s[on + 1..on + 65]) {
        return Place { offset: on + i + 1 };
    }
    far_agent(s, Place { offset: on + 64 })
}

// The line endings that 64 octets close, if no agent or rule line begins behind them. Both are looked for in one pass, as in `is_quiet`: that takes
// fewer instructions than `few_endings` behind another `is_quiet`.
#[tactic(auto, unfolding(lists::specs::Lists::total, lists::specs::Lists::any))]
fn glance(b: &[u8; 64], behind: &[u8; 64]) -> Option<usize>
    ensures { MatchOption result (quiet entry_octet (zip b.now behind.now) ≡ false) (λ n. (quiet entry_octet (zip b.now behind.now) ≡ true) × (n ≡ endings (zip b.now behind.now))) }
{
    let mut found = false;
    let mut n = 0u8;
    for (x, y) in b.iter().zip(behind) {
        found |= ends_line(*x) & may_begin_entry(*y);
        n += u8::from(closes_line(*x, *y));
    }
    if found { None } else { Some(usize::from(n)) }
}

// Passes over whole blocks of 64 octets, as long as no agent or rule line begins behind these, and counts the lines that they close.
#[tactic(auto, using(crate::proofs::Skips::none_passed))]
pub fn pass(s: &[u8], at: Position) -> Position
    requires inside { at.place.offset ≤ length s.now }
    requires few_lines { at.number.number ≤ at.place.offset + 1 }
    ensures { PassedFrom s.now at result }
{
    let start = at.place.offset;
    if s.len() - start < 65 {
        return at;
    }
    let (blocks, _) = s[start..].as_chunks::<64>();
    let (behinds, _) = s[start + 1..].as_chunks::<64>();
    let mut number = at.number.number;
    let mut offset = start;
    for (b, behind) in blocks.iter().zip(behinds) {
        let Some(lines) = glance(b, behind) else {
            break;
        };
        number += lines;
        offset += 64;
    }
    Position {
        number: LineNumber { number },
        place: Place { offset },
    }
}

// The line endings that up to 64 octets close. In a `u8` and not by `count`, so that the compiler can look at many at a time.
#[tactic(auto, unfolding(lists::specs::Lists::total))]
fn few_endings(b: &[u8], behind: &[u8]) -> usize
    requires few { length b.now ≤ 64 }
    ensures { result ≡ endings (zip b.now behind.now) }
{
    let mut n = 0u8;
    for (x, y) in b.iter().zip(behind) {
        n += u8::from(closes_line(*x, *y));
    }
    usize::from(n)
}

// The line endings that the octets from one place up to another close.
pub fn count_endings(s: &[u8], from: Place, to: Place) -> usize
    requires forward { from.offset ≤ to.offset }
    requires inside { to.offset < length s.now }
    ensures { result ≡ endings (between s.now from to) }
{
    let (blocks, rest) = s[from.offset..to.offset].as_chunks::<64>();
    let (behinds, rest_behind) = s[from.offset + 1..to.offset + 1].as_chunks::<64>();
    let mut n = few_endings(rest, rest_behind);
    for (b, behind) in blocks.iter().zip(behinds) {
        n += few_endings(b, behind);
    }
    n
}
