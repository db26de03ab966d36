// The walk of a raw pattern: it is cut at its stars, and each run that is reached is normalised into lent scratch, which needs no more room
// than the path. Path and scratch stay two parameters: a struct of both would be borrowed again at each call, and hide that only the scratch is written.

#![tactic(auto)]

ghost use Rattle.std.specs.Prelude.{◌≡◌, true, false, ◌&&◌, ◌≤◌, ◌<◌, ◌^◌, length, eqb};
ghost use Rattle.protocol.specs.declared.Dialect.{Dialect};
ghost use Rattle.protocol.specs.Pattern.{shape_of, shape_in, weight};
ghost use Rattle.protocol.specs.Walk.{first, next, walk};
ghost use Rattle.normal.specs.Runs.{normal_run, run_scratch};
ghost use Rattle.walk.specs.Texts.{walk_text, scratch_text, walk_scratch, scratch_of, weigh_scratch};
ghost use Rattle.walk.specs.Weights.{CountFits, weighed_walk, weighed};

use protocol::{Dialect, Walked};

// A pattern's weight where it matches, 0 where it doesn't, and the pairs compared. What matches weighs at least 1, so 0 needs no Option.
#[derive(Clone, Copy)]
pub struct Weighed {
    pub weight: usize,
    pub compared: usize,
}

// The first run, raw. One that doesn't fit the scratch is longer than the path. It and a later one differ in what is called and in the count of a run
// that doesn't fit: a closure for that would be longer than the two lines.
#[tactic(auto, using(crate::proofs::Scratch::run_room, crate::proofs::Scratch::run_taken, crate::proofs::Scratch::run_read, crate::proofs::Scratch::run_outgrows, protocol::proofs::Steps::first_short))]
fn first_raw(stars: bool, run: &[u8], path: &[u8], last: bool, scratch: &mut [u8]) -> Walked
    requires { length path.now ≤ length scratch.old }
    ensures value { result ≡ first last (normal_run stars run.now) path.now }
    ensures scratch_after { scratch.new ≡ run_scratch stars run.now scratch.old }
{
    match normal::normalise_run(stars, run, scratch) {
        Some(n) => runs::first_run(&scratch[..n], path, last),
        None => runs::fail(0),
    }
}

// A later run, raw, where all runs before it stood.
#[tactic(auto, using(crate::proofs::Scratch::run_room, crate::proofs::Scratch::run_taken, crate::proofs::Scratch::run_read, crate::proofs::Scratch::run_outgrows, protocol::proofs::Steps::next_short))]
fn later_raw(run: &[u8], path: &[u8], last: bool, w: Walked, scratch: &mut [u8]) -> Walked
    requires lent { length path.now ≤ length scratch.old }
    requires stood { w.stood ≡ true }
    requires inside { w.past ≤ length path.now }
    requires fits { (next last (normal_run true run.now) path.now w).count < 2 ^ 64 }
    ensures value { result ≡ next last (normal_run true run.now) path.now w }
    ensures scratch_after { scratch.new ≡ run_scratch true run.now scratch.old }
{
    match normal::normalise_run(true, run, scratch) {
        Some(n) => runs::later_run(&scratch[..n], path, last, w),
        None => runs::fail(w.count),
    }
}

// A run is the end-marked last one if the pattern has an end mark and no star is behind the run.
fn is_last(anchored: bool, end: usize, size: usize) -> bool
    ensures { result ≡ (anchored && eqb end size) }
{
    anchored && end == size
}

// The walk of a raw pattern without its end mark.
fn walk_text(text: &[u8], anchored: bool, path: &[u8], scratch: &mut [u8]) -> Walked
    requires { (length path.now ≤ length scratch.old) × ((walk_text anchored text.now path.now).count < 2 ^ 64) }
    ensures value { result ≡ walk_text anchored text.now path.now }
    ensures scratch_after { scratch.new ≡ scratch_text anchored text.now path.now scratch.old }
{
    let mut end = text::find(text, b'*');
    let mut w = first_raw(
        true,
        &text[..end],
        path,
        is_last(anchored, end, text.len()),
        scratch,
    );
    // No `for` over the parts of `split`: a run has to know whether it is the last one.
    while end < text.len() {
        if !w.stood {
            return w;
        }
        let start = end + 1;
        end = start + text::find(&text[start..], b'*');
        w = later_raw(
            &text[start..end],
            path,
            is_last(anchored, end, text.len()),
            w,
            scratch,
        );
    }
    w
}

// The walk of a raw pattern.
#[tactic(auto, using(protocol::proofs::Counted::walk_bound, normal::proofs::EndMarks::text_front, crate::proofs::EndMarks::pattern_walk, crate::proofs::EndMarks::pattern_scratch))]
pub fn walk_pattern(pattern: &[u8], path: &[u8], scratch: &mut [u8]) -> Walked
    requires { (length path.now ≤ length scratch.old) × CountFits (shape_of pattern.now) path.now }
    ensures value { result ≡ walk (shape_of pattern.now) path.now }
    ensures scratch_after { scratch.new ≡ walk_scratch pattern.now path.now scratch.old }
{
    let end = normal::text_length(pattern);
    let anchored = end < pattern.len();
    walk_text(&pattern[..end], anchored, path, scratch)
}

// The walk of a raw pattern: one of literal octets is one run as it stands, and isn't copied.
#[tactic(auto, using(crate::proofs::Literal::literal_walked, crate::proofs::Literal::literal_scratch, crate::proofs::Literal::other_scratch), unfolding(protocol::specs::Pattern::shape_in))]
pub fn walk_of(pattern: &[u8], path: &[u8], scratch: &mut [u8]) -> Walked
    requires { (length path.now ≤ length scratch.old) × CountFits (shape_of pattern.now) path.now }
    ensures value { result ≡ walk (shape_of pattern.now) path.now }
    ensures scratch_after { scratch.new ≡ scratch_of pattern.now path.now scratch.old }
{
    if normal::literal_front(pattern) == pattern.len() {
        return runs::first_run(pattern, path, false);
    }
    walk_pattern(pattern, path, scratch)
}

// What a walk comes to, for a pattern of that weight.
fn weighed_walk(w: Walked, weight: usize) -> Weighed
    ensures { result ≡ weighed_walk w weight }
{
    Weighed {
        weight: if w.stood { weight } else { 0 },
        compared: w.count,
    }
}

// A run as it stands, which weighs its octets.
fn weigh_literal(pattern: &[u8], path: &[u8]) -> Weighed
    ensures { result ≡ weighed_walk (first false pattern.now path.now) (length pattern.now) }
{
    weighed_walk(runs::first_run(pattern, path, false), pattern.len())
}

// A pattern in which a star is a star, and a last dollar the end mark. It is measured only where it matches.
#[tactic(auto, using(crate::proofs::Weighing::weighed_found, crate::proofs::Weighing::weighed_not_found), unfolding(protocol::specs::Pattern::shape_in))]
pub fn weigh_starred(pattern: &[u8], path: &[u8], scratch: &mut [u8]) -> Weighed
    requires { (length path.now ≤ length scratch.old) × (weight (shape_of pattern.now) < 2 ^ 64) × CountFits (shape_of pattern.now) path.now }
    ensures value { result ≡ weighed Dialect.Rfc9309 pattern.now path.now }
    ensures scratch_after { scratch.new ≡ walk_scratch pattern.now path.now scratch.old }
{
    let w = walk_pattern(pattern, path, scratch);
    if w.stood {
        return weighed_walk(w, normal::weight_of(pattern));
    }
    weighed_walk(w, 0)
}

// A pattern in which star and dollar are plain octets: one run, normalised as a path is. Where it stands, it weighs what it covers of the path.
#[tactic(auto, using(crate::proofs::Weighing::weighed_plain), unfolding(protocol::specs::Normal::normal_path))]
pub fn weigh_plain(pattern: &[u8], path: &[u8], scratch: &mut [u8]) -> Weighed
    requires { length path.now ≤ length scratch.old }
    ensures value { result ≡ weighed Dialect.Draft1996 pattern.now path.now }
    ensures scratch_after { scratch.new ≡ run_scratch false pattern.now scratch.old }
{
    let w = first_raw(false, pattern, path, false, scratch);
    weighed_walk(w, w.past)
}

// A pattern's weight and count, out of one walk. The literal octets in front are part of the first run: where they are more than the path's, it
// fails at no cost.
#[tactic(auto, using(crate::proofs::Weighing::weighed_front, crate::proofs::Weighing::scratch_front, crate::proofs::Weighing::weighed_whole, crate::proofs::Weighing::scratch_whole, crate::proofs::Weighing::scratch_starred, crate::proofs::Weighing::scratch_plain), unfolding(protocol::specs::Pattern::shape_in))]
pub fn weigh(dialect: Dialect, pattern: &[u8], path: &[u8], scratch: &mut [u8]) -> Weighed
    requires { (length path.now ≤ length scratch.old) × (weight (shape_in dialect pattern.now) < 2 ^ 64) × CountFits (shape_in dialect pattern.now) path.now }
    ensures value { result ≡ weighed dialect pattern.now path.now }
    ensures scratch_after { scratch.new ≡ weigh_scratch dialect pattern.now path.now scratch.old }
{
    let front = normal::literal_front(pattern);
    if path.len() < front {
        return weighed_walk(runs::fail(0), 0);
    }
    if front == pattern.len() {
        return weigh_literal(pattern, path);
    }
    match dialect {
        Dialect::Rfc9309 => weigh_starred(pattern, path, scratch),
        Dialect::Draft1996 => weigh_plain(pattern, path, scratch),
    }
}
