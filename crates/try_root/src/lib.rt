// The search for the integer root, exported for the test that counts its rounds (rust/tests/rounds.rs) and for the benchmark beside Rust's
// own root (rust/benches/root.rs). It is no part of the library that firmware links.
#![tactic(auto)]

ghost use Rattle.std.specs.Prelude.{◌≡◌, is_none, unwrap_or};
ghost use Rattle.rounding.specs.Root.{root};
ghost use Rattle.rounding.specs.Search.{first_candidate, round_of};
ghost use Rattle.rounding.specs.Answers.{Searched};
ghost use Rattle.try_root.specs.Exports.{rooted};

// The first candidate for the root of n.
#[unsafe(no_mangle)]
pub extern "C" fn try_root_first_candidate(n: u64) -> u32
    ensures { result ≡ first_candidate n }
{
    rounding::first_candidate(n)
}

// One round of the search for the root of n, which tries c: whether it is the last. Where it is not, the next candidate goes into `next`:
// C has no Option.
#[unsafe(no_mangle)]
pub extern "C" fn try_root_round(n: u64, c: u32, next: &mut u32) -> bool
    ensures { (result ≡ is_none (round_of n c)) × (next.new ≡ unwrap_or (round_of n c) next.old) }
{
    let Some(after) = rounding::try_candidate(n, c) else {
        return true;
    };
    *next = after;
    false
}

// The whole search: how many rounds it took. Its candidates go into `tried`, in their order, with 0 past them.
#[unsafe(no_mangle)]
pub extern "C" fn try_root_search(n: u64, tried: &mut [u32; 40]) -> u64
    ensures { Searched n (rooted n result tried.new) }
{
    let found = rounding::root_search(n);
    let candidates = found.tried;
    *tried = candidates;
    found.rounds
}

// The root of n, as the library calculates it.
#[unsafe(no_mangle)]
pub extern "C" fn try_root_integer_root(n: u64) -> u64
    ensures { result ≡ root n }
{
    rounding::integer_root(n)
}
