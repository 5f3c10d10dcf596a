//! The words of a packed bank: how many items they make, and what each word of an item holds.
ghost use Rattle.std.specs.Prelude.{◌≡◌, ◌+◌, ◌*◌, ◌<◌, IsTrue, slice_index};
ghost use Rattle.std.specs.Bool.{then_some};
ghost use Rattle.bank.specs.Cells.{storable};
ghost use Rattle.packed_bank.specs.Words.{item_count, has_words, offset, lock_of, count_of, lock_word};

use bank::{Lock, MOST_ITEMS};

// The words of one item.
const ITEM_WORDS: usize = 3;

// The most words that make a bank.
const MOST_WORDS: usize = ITEM_WORDS * MOST_ITEMS;

/// What each of the three words of an item holds, in their order.
#[derive(Clone, Copy)]
pub(crate) enum Part {
    Lock,
    Count,
    Value,
}

impl Part {
    /// Where the item's word of it stands.
    pub(crate) fn index(self, item: usize) -> usize
        requires { item < 64 }
        ensures { result ≡ 3 * item + offset self }
    {
        ITEM_WORDS * item + self as usize
    }
}

/// How many items the words make.
pub(crate) fn items_in(words: &[u64]) -> usize
    ensures { result ≡ item_count words.now }
{
    if words.len() <= MOST_WORDS && words.len() % ITEM_WORDS == 0 {
        words.len() / ITEM_WORDS
    } else {
        0
    }
}

/// The word of a part of the item, if there is the item.
pub(crate) fn word_in(words: &[u64], item: usize, part: Part) -> Option<u64>
    ensures { result ≡ then_some (has_words words.now item) (slice_index words.now (3 * item + offset part)) }
{
    (item < items_in(words)).then(|| words[part.index(item)])
}

// Functions, since `From` between a lock and a word may not be written here: neither is a type of this crate.

/// The lock that a word holds.
pub(crate) fn lock_from(word: u64) -> Lock
    ensures { result ≡ lock_of word }
{
    Lock {
        owner: (word >> 56) as u8,
        sequence: word % (1 << 56),
    }
}

/// The word of a lock that a bank stores.
pub(crate) fn word_from(lock: Lock) -> u64
    requires { IsTrue (storable lock) }
    ensures word { result ≡ lock_word lock }
    ensures back { lock_of result ≡ lock }
{
    ((lock.owner as u64) << 56) + lock.sequence
}

/// The count that a word holds.
pub(crate) fn count_from(word: u64) -> u8
    ensures { result ≡ count_of word }
{
    (word >> 56) as u8
}
