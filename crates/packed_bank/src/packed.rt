//! The packed bank.
#![tactic(auto, using(crate::proofs::Threes::cell_is, crate::proofs::Threes::items_are, crate::proofs::Threes::put_is))]

ghost use Rattle.std.specs.Prelude.{◌≡◌, ◌+◌, ◌*◌, [], ◌∷◌};
ghost use Rattle.bank.specs.Cells.{has, stores_lock, swaps_lock, swaps_count, change, with_lock, with_value, with_count};
ghost use Rattle.packed_bank.specs.Lent.{words_of, cells_of, place_of};
ghost use Rattle.packed_bank.specs.Words.{with_word, put_word, offset, lock_word, count_word};

use crate::words::{Part, count_from, items_in, lock_from, word_from, word_in};
use bank::{Bank, Lock, MOST_PROCESSES};
use kinds::Kind;
use std::marker::PhantomData;

/// The bank; whoever lent the words has them back, as the bank left them, when it is dropped.
#[derive(Drop)]
pub struct PackedBank<'a, V: Kind> {
    words: &'a mut [u64],
    // fixes the kind; never read
    kind: PhantomData<V>,
}

impl<'a, V: Kind> PackedBank<'a, V> {
    /// The bank of these words, as they are: one item for every three of them, and none where there are more than
    /// 192 words or no multiple of three.
    pub fn new(words: &'a mut [u64]) -> PackedBank<'a, V>
        ensures cells { words_of result ≡ words.old }
        ensures places { place_of result ≡ words.entry.ghost_name }
    {
        PackedBank {
            words,
            kind: PhantomData,
        }
    }

    // Puts a word of the item anew. Answers whether there is the item; else nothing changes.
    fn put(&mut self, item: usize, part: Part, word: u64) -> bool
        ensures answer { result ≡ has (cells_of V.unpacking self.old) item }
        ensures after { cells_of V.unpacking self.new ≡ change result (with_word V.unpacking part word) V.blank (cells_of V.unpacking self.old) item }
        ensures stays { place_of self.new ≡ place_of self.old }
        ensures words { words_of self.new ≡ put_word result (3 * item + offset part) word (words_of self.old) }
    {
        // by one name: where the field itself is lent and then written, the proof did not close
        let words = &mut *self.words;
        let has = item < items_in(words);
        if has {
            // by index: after `get_mut` a proof knows no element of the slice
            words[part.index(item)] = word;
        }
        has
    }
}

impl<V: Kind> Bank for PackedBank<'_, V> {
    type Value = V;

    ghost cells = { cells_of V.unpacking };

    ghost places = { λ b. place_of b ∷ [] };

    fn items(&self) -> usize {
        items_in(self.words)
    }

    fn read_lock(&self, item: usize) -> Lock {
        word_in(self.words, item, Part::Lock).map_or(Lock::free(), lock_from)
    }

    fn read_value(&self, item: usize) -> V {
        word_in(self.words, item, Part::Value).map_or_else(|| V::blank(), |word| V::unpack(word))
    }

    fn read_count(&self, item: usize) -> u8 {
        word_in(self.words, item, Part::Count).map_or(0, count_from)
    }

    fn write_lock(&mut self, item: usize, lock: Lock) -> bool
        ensures answer { result ≡ stores_lock (cells_of V.unpacking self.old) item lock }
        ensures after { cells_of V.unpacking self.new ≡ change result (with_lock lock) V.blank (cells_of V.unpacking self.old) item }
        ensures stays { place_of self.new ∷ [] ≡ place_of self.old ∷ [] }
        ensures words { words_of self.new ≡ put_word result (3 * item) (lock_word lock) (words_of self.old) }
    {
        lock.is_storable() && self.put(item, Part::Lock, word_from(lock))
    }

    fn write_value(&mut self, item: usize, value: V) -> bool
        ensures answer { result ≡ has (cells_of V.unpacking self.old) item }
        ensures after { cells_of V.unpacking self.new ≡ change result (with_value value) V.blank (cells_of V.unpacking self.old) item }
        ensures stays { place_of self.new ∷ [] ≡ place_of self.old ∷ [] }
        ensures words { words_of self.new ≡ put_word result (3 * item + 2) (V.packing value) (words_of self.old) }
    {
        self.put(item, Part::Value, value.pack())
    }

    fn swap_lock(&mut self, item: usize, expected: Lock, lock: Lock) -> bool
        ensures answer { result ≡ swaps_lock V.blank (cells_of V.unpacking self.old) item expected lock }
        ensures after { cells_of V.unpacking self.new ≡ change result (with_lock lock) V.blank (cells_of V.unpacking self.old) item }
        ensures stays { place_of self.new ∷ [] ≡ place_of self.old ∷ [] }
        ensures words { words_of self.new ≡ put_word result (3 * item) (lock_word lock) (words_of self.old) }
    {
        self.read_lock(item) == expected && self.write_lock(item, lock)
    }

    fn swap_count(&mut self, item: usize, expected: u8, count: u8) -> bool
        ensures answer { result ≡ swaps_count V.blank (cells_of V.unpacking self.old) item expected count }
        ensures after { cells_of V.unpacking self.new ≡ change result (with_count count) V.blank (cells_of V.unpacking self.old) item }
        ensures stays { place_of self.new ∷ [] ≡ place_of self.old ∷ [] }
        ensures words { words_of self.new ≡ put_word result (3 * item + 1) (count_word count) (words_of self.old) }
    {
        self.read_count(item) == expected
            && count <= MOST_PROCESSES
            && self.put(item, Part::Count, (count as u64) << 56)
    }
}
