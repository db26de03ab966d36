// Where the lines of a file begin.

ghost use Rattle.std.specs.Prelude.{◌≡◌, true, ◌<◌, length, drop, get_or, IfSome};
ghost use Rattle.protocol.specs.Octets.{line_end};
ghost use Rattle.protocol.specs.Lines.{skipped, place_at, place_after, ending_length, line_length};
ghost use Rattle.lines.specs.Spans.{next_at};

use octets::Classes;
use protocol::Place;

// The mark that a file may begin with, and that is in none of its lines.
const LEADING_MARK: [u8; 3] = [0xEF, 0xBB, 0xBF];

// Where the first line of a file begins: behind the leading mark.
#[tactic(auto, using(crate::proofs::Endings::leading_mark_starts))]
pub fn first_place(file: &[u8]) -> Place
    ensures { result ≡ place_at (skipped file.now) }
{
    if file.starts_with(&LEADING_MARK) {
        Place { offset: 3 }
    } else {
        Place { offset: 0 }
    }
}

// The octets of the line ending that a text begins with. It has to begin with one.
#[tactic(auto, using(crate::proofs::Endings::ending_cr_lf, crate::proofs::Endings::ending_last, crate::proofs::Endings::ending_no_cr, crate::proofs::Endings::ending_no_lf))]
fn ending_length(s: &[u8]) -> usize
    requires some_octet { 0 < length s.now }
    requires ended { line_end (get_or s.now 0 0) ≡ true }
    ensures { result ≡ ending_length s.now }
{
    match s {
        [b'\r', b'\n', ..] => 2,
        _ => 1,
    }
}

// The octets of the line that a text begins with, and of its ending, if that begins among the first four. They are looked at one by one, so that
// the place behind the line is guessed and not waited for.
#[tactic(auto, using(crate::proofs::Forward::left_lf, crate::proofs::Forward::left_cr, crate::proofs::Forward::left_inner, crate::proofs::Forward::left_ends, crate::proofs::Forward::left_fits))]
fn near_end(s: &[u8]) -> Option<usize>
    ensures { IfSome result (λ n. n ≡ line_length s.now) }
{
    for i in 0..4 {
        match *s.get(i)? {
            b'\n' => return Some(i + 1),
            b'\r' => return Some(i + ending_length(&s[i..])),
            _ => {}
        }
    }
    None
}

// Where the line begins behind a text that ends at `end`: there, if that is the end of the file.
#[tactic(auto, using(crate::proofs::Endings::no_ending, crate::proofs::Endings::ending_few))]
pub fn behind_end(file: &[u8], end: Place) -> Place
    requires { end.offset < length file.now → line_end (get_or (drop end.offset file.now) 0 0) ≡ true }
    ensures { result ≡ place_after end (ending_length (drop end.offset file.now)) }
{
    if file.len() <= end.offset {
        return end;
    }
    Place {
        offset: end.offset + ending_length(&file[end.offset..]),
    }
}

// Where the line behind the one at `from` begins: the end of the file, if none does. Mostly what is examined of a line goes up to its ending.
pub fn next_place(classes: &Classes, file: &[u8], from: Place) -> Place
    ensures { result ≡ next_at file.now from }
{
    if from.offset < file.len() {
        if let Some(length) = near_end(&file[from.offset..]) {
            return Place {
                offset: from.offset + length,
            };
        }
    }
    behind_end(file, text::line_end(classes, file, from))
}
