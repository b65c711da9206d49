// Names by buckets: equal names have one bucket, so a name is compared with those of its own bucket only. The names are
// those of the users or those of the permissions, and so are the numbers.
ghost use Rattle.std.specs.Prelude.{◌≡◌, ℕ, ◌+◌, ◌%◌, ◌≤◌, ◌<◌, length};
ghost use Rattle.std.proofs.Math.Bool.{So};
ghost use Rattle.spec.specs.Vocabulary.{repeats};
ghost use Rattle.spec.specs.Text.{same_name};
ghost use Rattle.bits.specs.Bit.{bit, word_bits};
ghost use Rattle.names.specs.NamesAt.{Inside, PartThere, all_names};
ghost use Rattle.buckets.specs.Buckets.{bucket_count, bucket_words, letters, bucket_of, BitsNamed, meets_word};
ghost use Rattle.buckets.specs.Buckets.{meets_bucket};

use bits::WORD_BITS;
use names::part_at;
use numbers::USER_LIMIT;
use text::{LETTERS, same_name};

// How many buckets there are.
const BUCKETS: usize = 128;

// The words of a bucket: a bit for each name that there can be.
const BUCKET_WORDS: usize = USER_LIMIT / WORD_BITS;

// The words of all buckets.
const TABLE_WORDS: usize = BUCKETS * BUCKET_WORDS;

// Up to so many names are compared without buckets: to clear the table takes longer.
const FEW: usize = 8;

// What the bucket of some bytes is multiplied by before the next byte is added.
const SPREAD: usize = 9;

// The bucket of a name. Equal names have one bucket: nothing else is asked of it.
fn bucket_of(name: &[u8]) -> usize
    ensures { result ≡ bucket_of name.now }
{
    let mut h = 0;
    for b in name {
        h = (h * SPREAD + letter(*b)) % BUCKETS;
    }
    h
}

// What a byte of a name counts for in its bucket: the same for a capital and its small letter.
fn letter(b: u8) -> usize
    ensures { (result ≡ b % letters) × (result < letters) }
{
    (b % LETTERS) as usize
}

// Whether a name equals one of those whose numbers are in a word, where position 0 is the number `first`.
fn meets_word<'a, 'b>(
    s: &'a [u8],
    places: &'b [u64],
    word: u64,
    first: usize,
    name: &'a [u8],
) -> bool
    requires { (p : ℕ) → p < word_bits → So (bit word p) → PartThere s.now places.now (first + p) }
    ensures { result ≡ meets_word s.now places.now word first name.now }
{
    for p in bits::positions(word) {
        if same_name(part_at(s, places, first + p), name) {
            return true;
        }
    }
    false
}

// Whether a name equals one of those whose numbers are in the first words of a bucket.
fn meets_bucket<'a, 'b>(
    s: &'a [u8],
    places: &'b [u64],
    table: &'b [u64; TABLE_WORDS],
    bucket: usize,
    words: usize,
    name: &'a [u8],
) -> bool
    requires { BitsNamed table.now s.now places.now × (bucket < bucket_count) × (words ≤ bucket_words) }
    ensures { result ≡ meets_bucket s.now places.now table.now bucket words
        name.now }
{
    for k in 0..words {
        let at = bucket * BUCKET_WORDS + k;
        if meets_word(s, places, table[at], k * WORD_BITS, name) {
            return true;
        }
    }
    false
}

// Whether two names are equal, each compared with all before it.
fn repeated_few<'a>(s: &'a [u8], places: &'a [u64]) -> bool
    requires { Inside s.now places.now × (length places.now ≤ word_bits) }
    ensures { result ≡ repeats same_name (all_names s.now places.now) }
{
    for i in 0..places.len() {
        let name = part_at(s, places, i);
        if meets_word(s, places, bits::full(i), 0, name) {
            return true;
        }
    }
    false
}

// Whether two names are equal, by buckets: the table has a bit for each name before number i, in the bucket of that
// name.
#[tactic(auto, using(crate::specs::Laws::Bucket::bucket_below), unfolding(spec::specs::Limits::user_limit))]
fn repeated_by_buckets<'a>(s: &'a [u8], places: &'a [u64]) -> bool
    requires { Inside s.now places.now }
    ensures { result ≡ repeats same_name (all_names s.now places.now) }
{
    let mut table = [0; TABLE_WORDS];
    for i in 0..places.len() {
        let name = part_at(s, places, i);
        let bucket = bucket_of(name);
        let k = i / WORD_BITS;
        if meets_bucket(s, places, &table, bucket, k + 1, name) {
            return true;
        }
        let at = bucket * BUCKET_WORDS + k;
        table[at] = bits::with(table[at], i % WORD_BITS);
    }
    false
}

// Whether two of the names at these places are equal.
pub fn repeated_in<'a>(s: &'a [u8], places: &'a [u64]) -> bool
    requires { Inside s.now places.now }
    ensures { result ≡ repeats same_name (all_names s.now places.now) }
{
    if places.len() <= FEW {
        repeated_few(s, places)
    } else {
        repeated_by_buckets(s, places)
    }
}
