// Remembered names: is a new one among them, byte for byte? The Rust's `check_duplicate_macro`, over any list of places: who asks decides which tokens are remembered,
// macros' names or labels.
ghost use Rattle.std.specs.Prelude.{◌+◌, ◌≤◌, ◌<◌, ◌≡◌, [], ◌∷◌, length, min, replicate};
ghost use Rattle.tokens.specs.Number.{most_tokens};
ghost use Rattle.tokens.specs.Token.{token_at};
ghost use Rattle.tokens.specs.Name.{one_of};
ghost use Rattle.tokens.specs.Byte.{same};
ghost use Rattle.tokens.specs.Source.{all};
ghost use Rattle.names.specs.Names.{mixed, rest_of, hash_of, bucket_in, tag_of, place_of, Noted, Checked, CheckedIn};

use tokens::{Source, same_name};

// A name's note: its tag times this number, and its token's place, which is less.
const TAGS: u32 = 65536;

// A number mixed into the next hash: what stands in the low bits reaches the high ones by the product, and what stands in the high bits of it reaches
// the low ones by the quotient. Both moduli and the divisor are powers of two, so that they cost no division. The numbers stand as `mixed` has them.
#[tactic(auto, unfolding(crate::specs::Names::mixed))]
fn mix(h: u64) -> u64
    ensures { result ≡ mixed h }
{
    h % 4294967296 * 2654435761 / 4096 % 4294967296
}

// Fewer than four bytes as one number. By cases and not by a loop, which would cost a short name more than its bytes (docs/DECISIONS.md, the hash of a name).
fn rest_of(bytes: &[u8]) -> u64
    requires { length bytes.now < 4 }
    ensures value { result ≡ rest_of bytes.now }
    ensures upper_bound { result ≤ 4294967295 }
{
    match bytes {
        [] => 0,
        [a] => u64::from(*a),
        [a, b] => u64::from(*a) * 256 + u64::from(*b),
        [a, b, c, ..] => (u64::from(*a) * 256 + u64::from(*b)) * 256 + u64::from(*c),
    }
}

// The hash of a name: four bytes at a time, which cost one load and one product, then those that are left, which cost one product together.
#[tactic(auto, using(crate::proofs::NamesLaws::mixed_small))]
fn hash_of(name: &[u8]) -> u32
    ensures { result ≡ hash_of name.now }
{
    let (fours, rest) = name.as_chunks::<4>();
    let mut h = 0;
    for four in fours {
        h = mix(h + u64::from(u32::from_le_bytes(*four)));
    }
    mix(h + rest_of(rest)) as u32
}

// The bucket of a hash among so many: a mask, and no division.
#[tactic(auto, using(crate::proofs::NamesLaws::bucket_inside), unfolding(crate::specs::Names::bucket_in))]
fn bucket_of(h: u32, size: usize) -> usize
    requires { 1 ≤ size }
    ensures value { result ≡ bucket_in size h }
    ensures upper_bound { result < size }
{
    h as usize & (size - 1)
}

// Whether the remembered name of a note is this one, whose hash is h. A struct of name and hash would not spare the clauses that say that they belong together: `remember`
// is given a place, and would ask that the struct's name is the one there.
fn is_noted(source: &Source, name: &[u8], h: u32, note: u32) -> bool
    requires h_value { (h ≡ hash_of name.now) × (tag_of note ≡ tag_of (hash_of (token_at (all source.now) (place_of note)).text)) }
    ensures { result ≡ same (token_at (all source.now) (place_of note)).text name.now }
{
    if note / TAGS != h / TAGS {
        return false;
    }
    same_name(source.text_at((note % TAGS) as usize), name)
}

// Names of tokens of one list, in room that is lent.
//
// A walk over all of them for each new one would make the time grow with the square of their number. So each name has a bucket by its hash, and only the names of its
// bucket are looked at: `heads` has for each bucket the name remembered last, `next` for each name the one of its bucket before it, both as one more than its number,
// 0 where there is none: an `Option<u16>` would take twice the room, which is cleared for each body and file, and of an `Option<NonZeroU16>` neither the clause of `new`
// nor `Noted` could stand, which speak of the number 0. `places` has the place of each name's token and above it the name's tag, the bits of its hash that choose no
// bucket: only where the tags agree are the bytes compared.
//
// `next` and `places` are two slices: one of records would have 8 bytes a name in place of 6 to clear. The room is lent: loops with const parameters, one for each room,
// took many constants 40 in 100 longer (bench/README.md, `Remembered`).
#[derive(Drop)]
pub struct Remembered<'a> {
    source: &'a Source<'a, 'a>,
    heads: &'a mut [u16],
    next: &'a mut [u16],
    places: &'a mut [u32],
    count: usize,
    ghost noted: { Noted (all source.now) heads.now next.now places.now count },
}

impl<'a> Remembered<'a> {
    ghost use Rattle.names.specs.Remembered.{seen, SameTables};

    // None yet. What next and places hold is of no account.
    #[tactic(auto, unfolding(crate::specs::Names::names_at))]
    pub fn new(
        source: &'a Source<'a, 'a>,
        heads: &'a mut [u16],
        next: &'a mut [u16],
        places: &'a mut [u32],
    ) -> Remembered<'a>
        requires some { 1 ≤ length heads.old }
        requires empty { heads.old ≡ replicate (length heads.old) 0 }
        ensures { seen result ≡ record { tokens = all source.now; names = []; room = min (length next.old) (length places.old) } }
    {
        Remembered {
            source,
            heads,
            next,
            places,
            count: 0,
        }
    }

    // Whether one of them is the same as this one, whose hash is h: of those in its bucket, from the last one on, each is looked at.
    fn is_remembered(&self, name: &[u8], h: u32) -> bool
        requires { h ≡ hash_of name.now }
        ensures { result ≡ one_of (seen self.now).names name.now }
    {
        let mut j = usize::from(self.heads[bucket_of(h, self.heads.len())]);
        // a chain, and no range: which name is next stands in `next`
        while 0 < j {
            let i = j - 1;
            if is_noted(self.source, name, h, self.places[i]) {
                return true;
            }
            j = usize::from(self.next[i]);
        }
        false
    }

    // The name at place p, whose hash is h, is one of them from now on.
    #[tactic(auto, using(crate::proofs::NamesLaws::names_length))]
    fn remember(&mut self, p: usize, h: u32)
        requires h_value { h ≡ hash_of (token_at (all self.old.source.now) p).text }
        requires room { (length (seen self.old).names < (seen self.old).room) × (length (seen self.old).names + 1 < most_tokens) }
        requires p_lt_most_tokens { p < most_tokens }
        ensures remembered { seen self.new ≡ record (seen self.old) { names = (token_at (all self.old.source.now) p).text ∷ (seen self.old).names } }
        ensures same_tables { SameTables self.old self.new }
    {
        let b = bucket_of(h, self.heads.len());
        let n = self.count;
        // the bucket and the count last: until then nothing that is remembered has changed
        self.next[n] = self.heads[b];
        self.places[n] = h / TAGS * TAGS + p as u32;
        self.heads[b] = (n + 1) as u16;
        self.count = n + 1;
    }

    // Whether one of them is the name at place p; if none is, it is remembered. A call would cost each name more (bench/README.md). The name, which tells of the test alone,
    // is the Rust's (`check_duplicate_macro`), and docs/PROMISES.md has it.
    #[inline(always)]
    pub fn check_duplicate(&mut self, p: usize) -> bool
        requires room { (length (seen self.old).names < (seen self.old).room) × (length (seen self.old).names + 1 < most_tokens) }
        requires p_lt_most_tokens { p < most_tokens }
        ensures checked { Checked (token_at (all self.old.source.now) p).text (seen self.old) result (seen self.new) }
        ensures same_tables { SameTables self.old self.new }
    {
        let name = self.source.text_at(p);
        let h = hash_of(name);
        if self.is_remembered(name, h) {
            return true;
        }
        self.remember(p, h);
        false
    }
}

// The same of tables that the caller holds, with `count` names in them: where none is the same, they hold one more. The readers here go on with one `Remembered`.
pub fn check_duplicate(
    source: &Source,
    p: usize,
    heads: &mut [u16],
    next: &mut [u16],
    places: &mut [u32],
    count: usize,
) -> bool
    requires noted { Noted (all source.now) heads.old next.old places.old count }
    requires room { (count < length next.old) × (count < length places.old) × (count + 1 < most_tokens) }
    requires p_lt_most_tokens { p < most_tokens }
    ensures { CheckedIn (all source.now) (token_at (all source.now) p).text places.old count result heads.new next.new places.new }
{
    let mut names = Remembered {
        source,
        heads,
        next,
        places,
        count,
    };
    names.check_duplicate(p)
}
