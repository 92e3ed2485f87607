// The tuples seen in the search for instances, found by key: the excluded ones are the first entries of a table, and the instances
// found those behind them.
ghost use Rattle.std.specs.Prelude.{◌≡◌, ◌+◌, ◌*◌, ◌-◌, ◌≤◌, ◌<◌, length, get_or, set, take, drop, replicate};
ghost use Rattle.model.specs.Words.{equal_all};
ghost use Rattle.instances.specs.Keyed.{key_of, entry_at, among_first, Keyed};

use crate::excluded::Excluded;
use environments::environment::Environment;
use words::equal_words;

// The key of the tuple of v words at an index.
pub fn key(words: &[i32], at: usize, v: usize) -> usize
    requires { at + v ≤ length words.now }
    ensures { result ≡ key_of (take v (drop at words.now)) }
{
    let mut sum = 0;
    for i in 0..v {
        let word = words::offset(words, at + i);
        sum = sum % 4294967296 * 1540483477 + word % 4294967296 * 2654435761;
    }
    sum / 524288 % 8192
}

// An entry is put in front of the chain of its key.
pub fn enter(heads: &mut [u16], links: &mut [u16], key: usize, entry: usize)
    requires { (key < length heads.old) × (entry < length links.old) × (entry < 65535) }
    ensures heads_after { heads.new ≡ set heads.old key (entry + 1) }
    ensures links_after { links.new ≡ set links.old entry (get_or heads.old key 0) }
{
    links[entry] = heads[key];
    heads[key] = (entry + 1) as u16;
}

// The excluded tuples are entered in an empty table.
pub fn enter_excluded(excluded: Excluded<'_>, heads: &mut [u16], links: &mut [u16])
    requires { (excluded.m ≤ 8192) × (heads.old ≡ replicate 8192 0) × (length links.old ≡ 8192) }
    ensures { Keyed (λ e. take excluded.entry.v (drop (excluded.entry.from + excluded.entry.v * e) excluded.entry.words.now)) excluded.entry.m heads.new links.new }
{
    for e in 0..excluded.m {
        let at = excluded.from + excluded.v * e;
        let k = key(excluded.words, at, excluded.v);
        enter(heads, links, k, e);
    }
}

// Whether the tuple at an index of scratch, whose key is given, is one of the excluded ones or of the instances found: n entries.
pub fn seen(
    excluded: Excluded<'_>,
    scratch: &[i32],
    start: usize,
    n: usize,
    at: usize,
    key: usize,
    heads: &[u16],
    links: &[u16],
) -> bool
    requires { (at + excluded.v ≤ length scratch.now)
        × (start + 17 * (n - excluded.m) + excluded.v ≤ length scratch.now + 17)
        × (n ≤ 8192)
        × (key ≡ key_of (take excluded.v (drop at scratch.now)))
        × Keyed (entry_at excluded.words.now excluded.from excluded.m excluded.v scratch.now start) n heads.now links.now }
    ensures { result
        ≡ among_first (entry_at excluded.entry.words.now excluded.entry.from excluded.entry.m excluded.entry.v scratch.now start) (take excluded.entry.v (drop at scratch.now)) n }
{
    let mut link = heads[key] as usize;
    // By hand: a chain is followed from link to link.
    while 0 < link {
        let e = link - 1;
        if equal_entry(excluded, scratch, start, e, at) {
            return true;
        }
        link = links[e] as usize;
    }
    false
}

// A table of entries by their keys. A head is 1 more than the last entry of its key, a link 1 more than the entry before with the same
// key; 0 is the end of a chain. Two arrays, since no call takes memory: a map would.
#[derive(Drop)]
pub struct Keys {
    pub heads: [u16; 8192],
    pub links: [u16; 8192],
}

impl Keys {
    // An entry is put in front of the chain of its key.
    pub fn enter(&mut self, key: usize, entry: usize)
        requires { (key < 8192) × (entry < 8192) }
        ensures heads { self.new.heads ≡ set self.old.heads key (entry + 1) }
        ensures links { self.new.links ≡ set self.old.links entry (get_or self.old.heads key 0) }
    {
        enter(&mut self.heads, &mut self.links, key, entry);
    }

    // The excluded tuples are entered in an empty table.
    pub fn enter_excluded(&mut self, excluded: Excluded<'_>)
        requires { (excluded.m ≤ 8192) × (self.old.heads ≡ replicate 8192 0) }
        ensures { Keyed (λ e. take excluded.entry.v (drop (excluded.entry.from + excluded.entry.v * e) excluded.entry.words.now)) excluded.entry.m self.new.heads self.new.links }
    {
        enter_excluded(excluded, &mut self.heads, &mut self.links);
    }

    // Whether the tuple at an index of scratch, whose key is given, is one of the excluded ones or of the instances found: n entries.
    pub fn seen(
        &self,
        excluded: Excluded<'_>,
        scratch: &[i32],
        start: usize,
        n: usize,
        at: usize,
        key: usize,
    ) -> bool
        requires { (at + excluded.v ≤ length scratch.now)
            × (start + 17 * (n - excluded.m) + excluded.v ≤ length scratch.now + 17)
            × (n ≤ 8192)
            × (key ≡ key_of (take excluded.v (drop at scratch.now)))
            × Keyed (entry_at excluded.words.now excluded.from excluded.m excluded.v scratch.now start) n self.now.heads self.now.links }
        ensures { result
            ≡ among_first (entry_at excluded.entry.words.now excluded.entry.from excluded.entry.m excluded.entry.v scratch.now start) (take excluded.entry.v (drop at scratch.now)) n }
    {
        seen(
            excluded,
            scratch,
            start,
            n,
            at,
            key,
            &self.heads,
            &self.links,
        )
    }
}

// Whether the tuple at an index of scratch is that of an entry.
fn equal_entry(excluded: Excluded<'_>, scratch: &[i32], start: usize, e: usize, at: usize) -> bool
    requires { (at + excluded.v ≤ length scratch.now)
        × (excluded.m ≤ e → start + 17 * (e - excluded.m) + excluded.v ≤ length scratch.now) }
    ensures { result
        ≡ equal_all (take excluded.entry.v (drop at scratch.now)) (entry_at excluded.entry.words.now excluded.entry.from excluded.entry.m excluded.entry.v scratch.now start e) }
{
    let v = excluded.v;
    if e < excluded.m {
        return equal_words(scratch, at, excluded.words, excluded.from + v * e, v);
    }
    equal_words(
        scratch,
        at,
        scratch,
        start + Environment::WORDS * (e - excluded.m),
        v,
    )
}
