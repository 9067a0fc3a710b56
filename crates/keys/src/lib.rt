// The keys of the live states, of sixteen bytes each: ascending, none twice. A key's place is found by halving.
#![tactic(auto)]

ghost use Rattle.std.specs.Prelude.{◌≡◌, ◌∷◌, ◌++◌, ◌+◌, ◌≤◌, ◌<◌, List, ℕ, [], length, take, drop, slice_index_or};
ghost use Rattle.records.specs.Sizes.{most_rows};
ghost use Rattle.words.specs.Order.{before};
ghost use Rattle.words.specs.Picture.{insert};
ghost use Rattle.keys.specs.Keys.{AreKeys, rank_of};

use arrayvec::ArrayVec;
use records::ROWS;
use std::marker::Model;
use words::JOURNALS;

// A key's places: one for each journal that there can be.
pub type Key = [u8; JOURNALS];

// How many keys there is room for: one more than there are rows.
const ROOM: usize = ROWS + 1;

// Whether the first of two keys comes before the second.
// Kept: tried with the language's own `<` of arrays: drawing a picture takes 1.6 times as long as it did, and speed is held against the
// plain version (`rust/bench`).
fn comes_before(a: &Key, b: &Key) -> bool
    ensures { result ≡ before a.now b.now }
{
    for i in 0..JOURNALS {
        if a[i] != b[i] {
            return a[i] < b[i];
        }
    }
    false
}

// Moves the last key down to place p, and those from there on a place further.
// Kept: by a loop, since std's insert and its rotation call memmove, and the archive for C wants no name more from outside than it did.
fn last_to(keys: &mut [Key], p: usize)
    requires { p < length keys.old }
    ensures { (front : List (List ℕ)) (last : List ℕ) → keys.old ≡ front ++ last ∷ [] → keys.new ≡ take p front ++ last ∷ drop p front }
{
    let last = keys[keys.len() - 1];
    for i in (p + 1..keys.len()).rev() {
        keys[i] = keys[i - 1];
    }
    keys[p] = last;
}

// At most one key more than there are rows, in their order.
#[derive(Clone, Drop)]
pub struct Keys {
    held: ArrayVec<Key, ROOM>,
}

impl Model for Keys {
    ghost use Rattle.std.specs.Prelude.{List, ℕ};
    ghost use Rattle.keys.specs.Keys.{AreKeys};

    ghost Value = { List (List ℕ) };

    ghost view = { λ k. k.held.items };

    ghost invariant = { λ k. AreKeys k.held.items };
}

impl Keys {
    // No keys.
    pub fn new() -> Self
        ensures { result ≡ [] }
    {
        Keys {
            held: ArrayVec::new(),
        }
    }

    // Takes all keys out.
    pub fn clear(&mut self)
        ensures { self.new ≡ [] }
    {
        self.held.clear();
    }

    // How many keys there are.
    pub fn len(&self) -> usize
        ensures many { result ≡ length self.now }
        ensures keys { AreKeys self.now }
    {
        self.held.len()
    }

    // Key i.
    pub fn key(&self, i: usize) -> Key
        requires { i < length self.now }
        ensures { result ≡ slice_index_or self.now i [] }
    {
        self.held[i]
    }

    // How many of the keys come before a key, found by halving.
    pub fn rank(&self, key: Key) -> usize
        ensures place { result ≡ rank_of key self.now }
        ensures fits { result ≤ most_rows + 1 }
    {
        self.held
            .as_slice()
            .partition_point(|held| comes_before(held, &key))
    }

    // Puts a key behind the first p keys, where the keys stay keys with it there.
    fn open_at(&mut self, p: usize, key: Key)
        requires { (p ≤ length self.old) × (length self.old ≤ most_rows) × AreKeys (take p self.old ++ key ∷ drop p self.old) }
        ensures { self.new ≡ take p self.old ++ key ∷ drop p self.old }
    {
        self.held.push(key);
        last_to(self.held.as_mut_slice(), p);
    }

    // Puts a key among the others, in order, unless it is there.
    pub fn insert(&mut self, key: Key)
        requires { length self.old ≤ most_rows }
        ensures { self.new ≡ insert key self.old }
    {
        let p = self.rank(key);
        if self.held.get(p) != Some(&key) {
            self.open_at(p, key);
        }
    }
}
