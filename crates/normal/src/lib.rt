// Normalising a text: written to lent memory, one run of a pattern among them, or measured, or found to stay as it is; and a pattern's weight.

#![tactic(auto)]

ghost use Rattle.std.specs.Prelude.{◌≡◌, false, ◌+◌, ◌≤◌, ◌<◌, ◌^◌, Some, None, length, leb, if◌then◌else◌};
ghost use Rattle.std.proofs.lemmas.List.Edits.{sets};
ghost use Rattle.lists.specs.Lists.{any, up_to};
ghost use Rattle.protocol.specs.Normal.{normal, is_encoded};
ghost use Rattle.protocol.specs.Pattern.{raw_text, shape_of, weight};
ghost use Rattle.protocol.specs.Answers.{at_front};
ghost use Rattle.normal.specs.Runs.{run_of, run_scratch};
ghost use Rattle.normal.specs.Literal.{not_literal};

use octets::Classes;
use protocol::Place;

// The octets in front of the first that isn't literal, many looked at at a time. Normalising leaves literal ones as they are, and they are no star
// and no end mark in a pattern.
pub fn literal_front(s: &[u8]) -> usize
    ensures { result ≡ length (up_to not_literal s.now) }
{
    text::seek(s, Place { offset: 0 }, 0x2B, 0x7E, false).offset
}

// How many octets are in front of the first that doesn't stay as it is: literal ones, many looked at at a time, and others, one by one.
#[tactic(auto, using(lists::proofs::Scans::up_to_fits))]
fn kept_front(stars: bool, s: &[u8]) -> usize
    ensures kept { result ≡ length (up_to (is_encoded stars) s.now) }
    ensures inside { result ≤ length s.now }
{
    let front = literal_front(s);
    let rest = &s[front..];
    front
        + rest
            .iter()
            .position(|x| !escapes::is_kept(stars, *x))
            .unwrap_or(rest.len())
}

// Normalising may change a path: some octet doesn't stay as it is.
#[tactic(auto, using(lists::proofs::Scans::any_found, std::proofs::lemmas::Bool::Decides::nat_tests))]
pub fn may_change(path: &[u8]) -> bool
    ensures { result ≡ any (is_encoded false) path.now }
{
    kept_front(false, path) < path.len()
}

// Writes what is left of a text, normalised, to a place, and tells the place past it. Only here is the table worth its copy.
#[tactic(auto, using(crate::proofs::Steps::first_some, crate::proofs::Steps::first_inside, crate::proofs::Steps::first_length, crate::proofs::Steps::first_least, crate::proofs::Steps::normal_none, crate::proofs::Steps::first_written, escapes::proofs::Forms::kept_alone, escapes::proofs::Forms::replacement_kept, escapes::proofs::Forms::changed_is))]
fn write_rest(stars: bool, s: &[u8], out: &mut [u8], at: usize) -> usize
    requires { at + length (normal stars 0 s.now) ≤ length out.old }
    ensures past { result ≡ at + length (normal stars 0 s.now) }
    ensures written { out.new ≡ sets out.old at (normal stars 0 s.now) }
{
    let classes = Classes::new();
    let mut end = at;
    let mut rest = s;
    // No `for`: an escape takes three octets, and what isn't one takes one.
    while !rest.is_empty() {
        let x = rest[0];
        if escapes::is_kept(stars, x) {
            out[end] = x;
            end += 1;
            rest = &rest[1..];
        } else {
            let (replacement, taken) = escapes::changed_first(&classes, rest);
            end = replacement.write(out, end);
            rest = &rest[taken..];
        }
    }
    end
}

// Copies the octets in front of the first that doesn't stay as it is, and tells how many; one by one, for a short text.
fn write_short(stars: bool, s: &[u8], out: &mut [u8]) -> usize
    requires { length (up_to (is_encoded stars) s.now) ≤ length out.old }
    ensures kept { result ≡ length (up_to (is_encoded stars) s.now) }
    ensures written { out.new ≡ sets out.old 0 (up_to (is_encoded stars) s.now) }
{
    for i in 0..s.len() {
        let x = s[i];
        if !escapes::is_kept(stars, x) {
            return i;
        }
        out[i] = x;
    }
    s.len()
}

// The same of any text. By an index, and no `copy_from_slice`, which is the C library's `memmove` where so many octets are copied as it turns out.
fn write_kept(stars: bool, s: &[u8], out: &mut [u8]) -> usize
    requires { length (up_to (is_encoded stars) s.now) ≤ length out.old }
    ensures kept { result ≡ length (up_to (is_encoded stars) s.now) }
    ensures written { out.new ≡ sets out.old 0 (up_to (is_encoded stars) s.now) }
{
    if s.len() < 16 {
        return write_short(stars, s, out);
    }
    let n = kept_front(stars, s);
    for i in 0..n {
        out[i] = s[i];
    }
    n
}

// Writes the normalised octets to the front, and tells how many.
#[tactic(auto, using(lists::proofs::Scans::up_to_fits))]
pub fn write(stars: bool, s: &[u8], out: &mut [u8]) -> usize
    requires { length (normal stars 0 s.now) ≤ length out.old }
    ensures { (result ≡ length (normal stars 0 s.now)) × (out.new ≡ at_front (normal stars 0 s.now) out.old) }
{
    let n = write_kept(stars, s, out);
    if n == s.len() {
        return n;
    }
    write_rest(stars, &s[n..], out, n)
}

// How many the normalised octets are, where they fit a room. A loop of its own beside `write_rest`: it ends where there is no room, and nothing is lent
// to it.
#[tactic(auto, using(crate::proofs::Steps::first_some, crate::proofs::Steps::first_inside, crate::proofs::Steps::first_length, crate::proofs::Steps::first_least, crate::proofs::Steps::length_none, std::proofs::lemmas::Bool::Decides::nat_tests))]
fn size_within(stars: bool, s: &[u8], room: usize) -> Option<usize>
    ensures { result ≡ (if leb (length (normal stars 0 s.now)) room then Some (length (normal stars 0 s.now)) else None) }
{
    let classes = Classes::new();
    let mut size = 0;
    let mut rest = s;
    // No `for`, for the same reason.
    while !rest.is_empty() {
        let (replacement, taken) = escapes::replace_first(&classes, stars, rest);
        if room - size < replacement.size() {
            return None;
        }
        size += replacement.size();
        rest = &rest[taken..];
    }
    Some(size)
}

// There is room for the normalised octets. Where there is room for three times the raw ones, nothing is measured.
#[tactic(auto, using(protocol::proofs::Sizes::normal_size, std::proofs::lemmas::Bool::Decides::nat_tests))]
pub fn fits(stars: bool, s: &[u8], room: usize) -> bool
    ensures { result ≡ leb (length (normal stars 0 s.now)) room }
{
    s.len() <= room / 3 || size_within(stars, s, room).is_some()
}

// One run of a pattern, raw, into the front of the scratch; nothing is written where it doesn't fit. A "*" in it is a star, or is none.
#[tactic(auto, using(std::proofs::lemmas::Bool::Decides::nat_tests), unfolding(crate::specs::Runs::run_of, crate::specs::Runs::run_scratch))]
pub fn normalise_run(stars: bool, run: &[u8], scratch: &mut [u8]) -> Option<usize>
    ensures value { result ≡ run_of stars run.now scratch.old }
    ensures scratch_after { scratch.new ≡ run_scratch stars run.now scratch.old }
{
    if !fits(stars, run, scratch.len()) {
        return None;
    }
    Some(write(stars, run, scratch))
}

// How many raw octets stand before the end mark, or all of them where there is none. Only the last octet can be one.
#[tactic(auto, using(crate::proofs::EndMarks::marked, crate::proofs::EndMarks::unmarked, crate::proofs::EndMarks::none_marked))]
pub fn text_length(pattern: &[u8]) -> usize
    ensures { result ≡ length (raw_text pattern.now) }
{
    match pattern {
        [.., b'$'] => pattern.len() - 1,
        _ => pattern.len(),
    }
}

// A pattern's weight, measured as for a buffer, with the largest room there is: what is required says that this suffices.
#[tactic(auto, using(crate::proofs::EndMarks::weight_parts, crate::proofs::EndMarks::text_front, crate::proofs::EndMarks::text_inside, std::proofs::lemmas::Bool::Decides::nat_tests))]
pub fn weight_of(pattern: &[u8]) -> usize
    requires { weight (shape_of pattern.now) < 2 ^ 64 }
    ensures { result ≡ weight (shape_of pattern.now) }
{
    let end = text_length(pattern);
    let end_marks = pattern.len() - end;
    size_within(true, &pattern[..end], usize::MAX).unwrap() + end_marks
}
