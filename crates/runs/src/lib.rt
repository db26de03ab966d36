// One run of a walk, its octets normalised, over a normalised path. `before` is the number of pairs compared before.

#![tactic(auto)]

ghost use Rattle.std.specs.Prelude.{◌≡◌, true, ◌+◌, ◌≤◌, ◌<◌, ◌^◌, length, drop};
ghost use Rattle.protocol.specs.Walk.{failed, placed, seek, final, first, next};

use protocol::{Tried, Walked};

// No place for a run: it fails at no further cost.
pub fn fail(count: usize) -> Walked
    ensures { result ≡ failed count }
{
    Walked {
        stood: false,
        past: 0,
        count,
    }
}

// What a try of a run of `size` octets at a place leads to.
fn place_run(size: usize, at: usize, t: Tried) -> Walked
    requires { at + size < 2 ^ 64 }
    ensures { result ≡ placed size at t }
{
    if t.stood {
        Walked {
            stood: true,
            past: at + size,
            count: t.count,
        }
    } else {
        fail(t.count)
    }
}

// Tries a run at `from`, then one further each time, until it stands or would pass the path's end. Most tries fail at the run's first octet.
#[tactic(auto, using(crate::proofs::Searches::searches))]
fn seek_run(run: &[u8], path: &[u8], from: usize, before: usize) -> Walked
    requires { (from ≤ length path.now) × ((seek run.now from before (drop from path.now)).count < 2 ^ 64) }
    ensures { result ≡ seek run.now from before (drop from path.now) }
{
    let [first, others @ ..] = run else {
        return Walked {
            stood: true,
            past: from,
            count: before,
        };
    };
    let mut count = before;
    let mut at = from;
    // No `for`: a turn goes on behind the next place of the run's first octet, however far that is.
    while run.len() <= path.len() - at {
        let starts = &path[at..path.len() - run.len() + 1];
        let f = tries::try_first(*first, starts, count);
        if !f.stood {
            return fail(f.count);
        }
        at += f.count - count;
        let t = tries::try_run(others, &path[at..], f.count);
        if t.stood {
            return place_run(others.len(), at, t);
        }
        count = t.count;
    }
    fail(count)
}

// Tries an end-marked last run at its one possible start, the path's length less its own.
#[tactic(auto, using(protocol::proofs::Steps::final_in, protocol::proofs::Steps::final_out, protocol::proofs::Tries::placed_count, lists::proofs::Scans::rest_of))]
fn last_run(run: &[u8], path: &[u8], from: usize, before: usize) -> Walked
    requires { (final run.now from before path.now).count < 2 ^ 64 }
    ensures { result ≡ final run.now from before path.now }
{
    match path.len().checked_sub(run.len()) {
        Some(start) if from <= start => {
            let t = tries::try_run(run, &path[start..], before);
            place_run(run.len(), start, t)
        }
        _ => fail(before),
    }
}

// Tries the first run at 0; where it is the end-marked last run too, it has to be as long as the path.
#[tactic(auto, using(protocol::proofs::Steps::first_out, protocol::proofs::Steps::first_short, protocol::proofs::Steps::first_in, protocol::proofs::Tries::tried_most))]
pub fn first_run(run: &[u8], path: &[u8], last: bool) -> Walked
    ensures { result ≡ first last run.now path.now }
{
    if path.len() < run.len() || last && run.len() < path.len() {
        return fail(0);
    }
    let t = tries::try_run(run, path, 0);
    place_run(run.len(), 0, t)
}

// A later run, where all runs before it stood; `last` says whether it is the end-marked last one, as in the definition `next`.
#[tactic(auto, using(protocol::proofs::Steps::next_final, protocol::proofs::Steps::next_seek))]
pub fn later_run(run: &[u8], path: &[u8], last: bool, w: Walked) -> Walked
    requires { (w.stood ≡ true) × (w.past ≤ length path.now) × ((next last run.now path.now w).count < 2 ^ 64) }
    ensures { result ≡ next last run.now path.now w }
{
    if last {
        last_run(run, path, w.past, w.count)
    } else {
        seek_run(run, path, w.past, w.count)
    }
}
