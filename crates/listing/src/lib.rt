// A list of paths: where each stands, why the call is refused, and what the memory lent for the answers holds in the end.

#![tactic(auto)]

ghost use Rattle.std.specs.Prelude.{◌≡◌, ◌||◌, not, [], ◌∷◌, ◌<◌, ◌≤◌, ltb, eqb, length, IfOk};
ghost use Rattle.protocol.specs.Refusals.{◌when◌, refusal, path_rows, dialect_of, decrease, last_end, unknown_dialect, too_long, bad_name, bad_ends};
ghost use Rattle.protocol.specs.Outcomes.{number_of};
ghost use Rattle.listing.specs.Listing.{GoodEnds, start_at, path_at, side_for};

use octets::Classes;
use protocol::{Dialect, Refusal, Side};

// Joined paths, with the end of each, as the C caller of robots_batch lends them.
#[derive(Clone, Copy)]
pub struct Paths<'a> {
    pub joined: &'a [u8],
    pub ends: &'a [usize],
    ghost good: { GoodEnds joined.now ends.now },
}

impl<'a> Paths<'a> {
    // Where path i begins: at the end in front of it.
    fn start(&self, i: usize) -> usize
        requires { i < length self.now.ends.now }
        ensures { result ≡ start_at self.now.ends.now i }
    {
        if i == 0 { 0 } else { self.ends[i - 1] }
    }

    // Path i, counted from 0.
    #[tactic(auto, using(crate::proofs::Ends::path_begins, crate::proofs::Ends::path_stops), unfolding(protocol::specs::Text::octets_at))]
    pub fn path(&self, i: usize) -> &'a [u8]
        requires { i < length self.now.ends.now }
        ensures { result.now ≡ path_at self.now.joined.now self.now.ends.now i }
    {
        &self.joined[self.start(i)..self.ends[i]]
    }
}

// The memory lent for the answers, a place for each path: three slices, as the C caller of robots_batch lends them.
#[derive(Drop)]
pub struct Answers<'a> {
    pub refusals: &'a mut [usize],
    pub sides: &'a mut [usize],
    pub lines: &'a mut [usize],
}

// The ends decrease somewhere, or the last isn't the joined length. No `is_sorted`: `decrease` and `last_end` go along the ends together, from 0 on.
#[tactic(auto, using(crate::proofs::Ends::decrease_here, crate::proofs::Ends::decrease_on, crate::proofs::Ends::decrease_end, crate::proofs::Ends::last_on, crate::proofs::Ends::last_end_lem))]
fn are_bad(ends: &[usize], joined: usize) -> bool
    ensures { result ≡ (decrease 0 ends.now || not (eqb (last_end 0 ends.now) joined)) }
{
    let mut last = 0;
    for &end in ends {
        if end < last {
            return true;
        }
        last = end;
    }
    last != joined
}

// Why the call is refused, or its dialect.
#[tactic(auto, using(readable::proofs::Asking::asked_later), unfolding(protocol::specs::Refusals::refusal))]
pub fn check_call(
    classes: &Classes,
    file: &[u8],
    name: &[u8],
    paths: &[u8],
    ends: &[usize],
    short: bool,
    dialect: usize,
) -> Result<Dialect, Refusal>
    ensures refusal { number_of result ≡ refusal (unknown_dialect dialect ∷ too_long file.now ∷ bad_name name.now ∷ bad_ends paths.now ends.now ∷ (13 when short) ∷ []) }
    ensures dialect { IfOk result (λ d. d ≡ dialect_of dialect) }
{
    let known = readable::check_asker(classes, dialect, file, name)?;
    if are_bad(ends, paths.len()) {
        return Err(Refusal::BadEnds);
    }
    if short {
        return Err(Refusal::ShortAnswers);
    }
    Ok(known)
}

// A path's own refusal, in the place of its leader's weight. A refused path fails shut.
fn finish_path(path: &[u8], refused: &mut usize, side: &mut usize)
    ensures refused { refused.new ≡ refusal (path_rows path.now) }
    ensures side { side.new ≡ side_for (refusal (path_rows path.now)) side.old }
{
    match paths::check_path(path) {
        Ok(()) => *refused = 0,
        Err(refusal) => {
            *refused = refusal.number();
            *side = usize::from(Side::Disallow);
        }
    }
}

impl Answers<'_> {
    ghost use Rattle.listing.specs.Memory.{held, Same, Finished};

    // Some slice has no place for each of so many paths.
    pub fn is_short(&self, count: usize) -> bool
        ensures { result ≡ (ltb (length self.now.refusals.now) count || ltb (length self.now.sides.now) count || ltb (length self.now.lines.now) count) }
    {
        self.refusals.len() < count || self.sides.len() < count || self.lines.len() < count
    }

    // After the last round: each path's own refusal and decision.
    pub fn finish(&mut self, paths: Paths)
        requires refusals { length paths.ends.now ≤ length self.old.refusals.now }
        requires sides { length paths.ends.now ≤ length self.old.sides.now }
        ensures same { Same self.old self.new }
        ensures finished { Finished paths.entry.joined.now paths.entry.ends.now (held self.old) (held self.new) }
    {
        // The borrow checker doesn't cover the loan of a place in a slice that is a field.
        let refusals = &mut *self.refusals;
        let sides = &mut *self.sides;
        // By its index: a path needs the end in front of it too.
        for i in 0..paths.ends.len() {
            finish_path(paths.path(i), &mut refusals[i], &mut sides[i]);
        }
    }
}
