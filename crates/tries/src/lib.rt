// A try of a run, its octets normalised, at a place of a normalised path. `before` is the number of pairs compared before.

#![tactic(auto)]

ghost use Rattle.std.specs.Prelude.{◌≡◌, ◌+◌, ◌≤◌, ◌<◌, ◌^◌, length, eqb};
ghost use Rattle.protocol.specs.Walk.{tried};
ghost use Rattle.tries.specs.Tries.{tried_first};

use protocol::Tried;

// The one function that compares a pattern's octets with the path's: it adds 1 for the pair.
fn compare(a: u8, b: u8, before: usize) -> Tried
    requires { before + 1 < 2 ^ 64 }
    ensures { result ≡ record { stood = eqb a b; count = before + 1 } }
{
    Tried {
        stood: a == b,
        count: before + 1,
    }
}

// Tries a run at a place: from the first pair to the first that differs.
#[tactic(auto, using(crate::proofs::Turns::compares))]
pub fn try_run(run: &[u8], rest: &[u8], before: usize) -> Tried
    requires { (length run.now ≤ length rest.now) × ((tried run.now rest.now before).count < 2 ^ 64) }
    ensures { result ≡ tried run.now rest.now before }
{
    let mut t = Tried {
        stood: true,
        count: before,
    };
    // By an index: `zip` would look at the ends of both at each pair, which takes longer.
    for (i, a) in run.iter().enumerate() {
        t = compare(*a, rest[i], t.count);
        if !t.stood {
            return t;
        }
    }
    t
}

// As `try_first`, one place a turn.
#[tactic(auto, using(crate::proofs::Turns::firsts))]
fn try_each(first: u8, places: &[u8], before: usize) -> Tried
    requires { (tried_first first places.now before).count < 2 ^ 64 }
    ensures { result ≡ tried_first first places.now before }
{
    let mut t = Tried {
        stood: false,
        count: before,
    };
    for b in places {
        t = compare(first, *b, t.count);
        if t.stood {
            return t;
        }
    }
    t
}

// Compares a run's first octet with those of the places, up to the first that is equal: elsewhere a try fails at that one pair.
// Eight places a turn, since a turn costs more than a pair.
#[tactic(auto, using(crate::proofs::Turns::chunks))]
pub fn try_first(first: u8, places: &[u8], before: usize) -> Tried
    requires { (tried_first first places.now before).count < 2 ^ 64 }
    ensures { result ≡ tried_first first places.now before }
{
    let (eights, others) = places.as_chunks::<8>();
    let mut count = before;
    for eight in eights {
        let t = try_each(first, eight, count);
        if t.stood {
            return t;
        }
        count = t.count;
    }
    try_each(first, others, count)
}
