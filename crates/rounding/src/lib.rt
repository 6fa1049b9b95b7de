// Rounding to the nearest whole number, halves upward, and the integer square root.
#![tactic(auto)]

ghost use Rattle.std.specs.Prelude.{◌≡◌, ◌+◌, ◌/◌, ◌^◌, ◌<◌, pos, neg_ℤ, nat_abs};
ghost use Rattle.rounding.specs.Near.{near, near_z};
ghost use Rattle.rounding.specs.Wide.{Wide, dividend};
ghost use Rattle.rounding.specs.Root.{root};
ghost use Rattle.rounding.specs.Search.{next_candidate, first_candidate, round_of};
ghost use Rattle.rounding.specs.Answers.{Searched};

// The whole number nearest to n / q, halves upward. n is not doubled, so every n has an answer.
// Every caller knows that its q is above 0, and would have to make a `NonZeroU64` of it.
pub fn nearest(n: u64, q: u64) -> u64
    requires { 0 < q }
    ensures { result ≡ near n q }
{
    let whole = n / q;
    let rest = n % q;
    if rest < q - rest { whole } else { whole + 1 }
}

// The same for the dividend whole * 10^9 + rest, by long division: first whole, then rest in digits of 10^5 and 10^4.
// A struct of the two would be made for this call alone: a register is a type of crates/meter, and that of a mass has another base.
pub fn nearest_wide(whole: u64, rest: u64, q: u64) -> u64
    requires { Wide whole rest q }
    ensures { result ≡ near (dividend whole rest) q }
{
    let n1 = whole % q * 100000 + rest / 10000;
    let n2 = n1 % q * 10000 + rest % 10000;
    whole / q * 1000000000 + n1 / q * 10000 + nearest(n2, q)
}

// The size of the whole number nearest to -n / q, halves upward: of a half, the smaller one.
// One function for both would take a flag, which each caller of `nearest` would have to give.
fn nearest_below_zero(n: u64, q: u64) -> u64
    requires { 0 < q }
    ensures { neg_ℤ (pos result) ≡ near_z (neg_ℤ (pos n)) q }
{
    let whole = n / q;
    let rest = n % q;
    if q - rest < rest { whole + 1 } else { whole }
}

// The whole number nearest to n / q on the signed scale, halves upward.
pub fn nearest_signed(n: i64, q: u64) -> i64
    requires { (0 < q) × (nat_abs n < 2 ^ 63) }
    ensures { result ≡ near_z n q }
{
    let size = n.unsigned_abs();
    if n < 0 {
        -(nearest_below_zero(size, q) as i64)
    } else {
        nearest(size, q) as i64
    }
}

// Roots near those of hydrogen, and of natural gases.
const HYDROGEN_ROOT: u64 = 265000000;

const NATURAL_ROOT: u64 = 780000000;

// The search for the root of an n below the first begins near the root for hydrogen, below the second near that for natural gases: relative
// densities of 0.2 and 6.
const HYDROGEN_BELOW: u64 = 200000000000000000;

const NATURAL_BELOW: u64 = 6000000000000000000;

// The candidate after c: the mean of c and n / c, rounded down.
fn next_candidate(n: u64, c: u64) -> u64
    requires { (0 < c) × (c + n / c < 2 ^ 64) }
    ensures { result ≡ next_candidate n c }
{
    (c + n / c) / 2
}

// The first candidate for the root, at least the root.
pub fn first_candidate(n: u64) -> u32
    ensures { result ≡ first_candidate n }
{
    if n < HYDROGEN_BELOW {
        return next_candidate(n, HYDROGEN_ROOT) as u32;
    }
    if n < NATURAL_BELOW {
        return next_candidate(n, NATURAL_ROOT) as u32;
    }
    u32::MAX
}

// One round, which tries the candidate c. It answers the candidate after c, or none where c² ≤ n: a c that is at least the root is the root
// then.
pub fn try_candidate(n: u64, c: u32) -> Option<u32>
    ensures { result ≡ round_of n c }
{
    let candidate = u64::from(c);
    if candidate * candidate <= n {
        return None;
    }
    Some(next_candidate(n, candidate) as u32)
}

// A root, the rounds that its search took, and the candidate of each in their order, with 0 past them.
#[derive(Clone, Copy)]
pub struct Rooted {
    pub root: u64,
    pub rounds: u64,
    pub tried: [u32; 40],
}

// The integer square root by Newton's method, from above: a candidate is at least the root, and at most half as far from it as
// the one before. Each round tries one candidate, and the search ends with the round whose candidate is the root.
pub fn root_search(n: u64) -> Rooted
    ensures { Searched n result }
{
    let mut tried = [0u32; 40];
    let mut c = first_candidate(n);
    let mut rounds: u64 = 0;
    loop {
        tried[rounds as usize] = c;
        rounds += 1;
        let Some(next) = try_candidate(n, c) else {
            return Rooted {
                root: u64::from(c),
                rounds,
                tried,
            };
        };
        c = next;
    }
}

// The greatest whole number whose square is at most n.
pub fn integer_root(n: u64) -> u64
    ensures { result ≡ root n }
{
    root_search(n).root
}
