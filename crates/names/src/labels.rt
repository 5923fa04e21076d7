// The labels of a body, each of which may have a name of its own only: the first whose name stands again.
//
// What is remembered of one body is room of that body's own, made anew and as large as its tokens ask for, so that nothing of it is left for the next.
ghost use Rattle.std.specs.Prelude.{◌+◌, ◌-◌, ◌*◌, ◌≤◌, ◌≡◌, ltb};
ghost use Rattle.tokens.specs.Number.{most_tokens};
ghost use Rattle.grammar.specs.Again.{first_again};
ghost use Rattle.names.specs.Labels.{short_body};
ghost use Rattle.names.specs.Names.{Fresh};
ghost use Rattle.names.specs.Remembered.{seen};
ghost use Rattle.tokens.specs.Source.{all};

use crate::names::Remembered;
use tokens::{Source, kind};

// Room for names by the number of tokens, a label for every two of them, since its Colon stands behind it; what is made anew for each body should cost less than its
// reading. A bucket for every token, so that two names seldom meet in one. `files` has constants of these names for a file's macros, with numbers of its own.
const FEW_TOKENS: usize = 32;

const FEW_NAMES: usize = 16;

const FEW_BUCKETS: usize = 32;

// as `short_body`
const SOME_TOKENS: usize = 512;

const SOME_NAMES: usize = 256;

const SOME_BUCKETS: usize = 512;

const MORE_TOKENS: usize = 2048;

const MORE_NAMES: usize = 1024;

const MORE_BUCKETS: usize = 2048;

const LOTS_TOKENS: usize = 8192;

const LOTS_NAMES: usize = 4096;

const LOTS_BUCKETS: usize = 8192;

const MANY_NAMES: usize = 32768;

const MANY_BUCKETS: usize = 65536;

// The first Label from place `from` on and before place `to` whose name a Label before it has; if there is none, a place that is not before `to`. `names` has room for
// the labels' names.
//
// No Option: what is promised is the equation with grammar's `first_again` (specs/Again), which docs/PROMISES.md names, and who asks (`judged`, statements) compares the
// place with its cursor. `from` and `to` beside each other, and that they are at most `most_tokens` in each clause: of a `Range` the clauses would name both ends just so.
fn walk(source: &Source, from: usize, to: usize, names: &mut Remembered) -> usize
    requires to_le_most_tokens { to ≤ most_tokens }
    requires fresh { Fresh 2 (to - from) (all source.now) (seen names.old) }
    ensures { result ≡ first_again (all source.now) from to }
{
    let mut q = from;
    // by one token or by two
    while q < to {
        if source.kind_at(q) != kind::LABEL {
            q += 1;
            continue;
        }
        if names.check_duplicate(q) {
            return q;
        }
        // its Colon is no Label
        q += 2;
    }
    q
}

// The same with its own room for as many names. The three arrays stand here and in `parse_with` (files): a struct of them would be no plainer, since what makes it would
// have to promise its zeros and its lengths.
fn walk_with<const NAMES: usize, const BUCKETS: usize>(
    source: &Source,
    from: usize,
    to: usize,
) -> usize
    requires to_le_most_tokens { to ≤ most_tokens }
    requires names { (to - from ≤ 2 * NAMES) × (NAMES ≤ most_tokens) }
    requires buckets { (1 ≤ BUCKETS) × (BUCKETS ≤ most_tokens) }
    ensures { result ≡ first_again (all source.now) from to }
{
    let mut heads = [0; BUCKETS];
    let mut next = [0; NAMES];
    let mut places = [0; NAMES];
    let mut names = Remembered::new(source, &mut heads, &mut next, &mut places);
    walk(source, from, to, &mut names)
}

// Whether a body from one place up to another is not short.
pub fn is_long(from: usize, to: usize) -> bool
    requires { from ≤ most_tokens }
    ensures { result ≡ ltb (from + short_body) to }
{
    from + SOME_TOKENS < to
}

// The same in a short body.
pub fn first_again(source: &Source, from: usize, to: usize) -> usize
    requires from_le_most_tokens { (from ≤ most_tokens) × (to ≤ most_tokens) × (to ≤ from + short_body) }
    ensures { result ≡ first_again (all source.now) from to }
{
    if to <= from + FEW_TOKENS {
        return walk_with::<FEW_NAMES, FEW_BUCKETS>(source, from, to);
    }
    walk_with::<SOME_NAMES, SOME_BUCKETS>(source, from, to)
}

// The same in any body. Two functions: with one, many macros took more than four times mode 0's time in mode 1 (bench/README.md, `named_once_long`).
pub fn first_again_long(source: &Source, from: usize, to: usize) -> usize
    requires from_le_most_tokens { (from ≤ most_tokens) × (to ≤ most_tokens) }
    ensures { result ≡ first_again (all source.now) from to }
{
    if to <= from + MORE_TOKENS {
        return walk_with::<MORE_NAMES, MORE_BUCKETS>(source, from, to);
    }
    if to <= from + LOTS_TOKENS {
        return walk_with::<LOTS_NAMES, LOTS_BUCKETS>(source, from, to);
    }
    walk_with::<MANY_NAMES, MANY_BUCKETS>(source, from, to)
}
