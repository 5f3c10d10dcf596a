//! What a type must offer to be kept in a bank.
ghost use Rattle.std.specs.Prelude.{◌≡◌, ℕ};

/// A value that goes into one 64-bit word and comes back from it.
pub trait Kind: Copy {
    // the values that the machine's types can hold; the logic's numbers have no bound, so the law below asks for it
    ghost held: { Self → Type 0 };

    // the word of a value
    ghost packing: { Self → ℕ };

    // the value of a word, whatever bits it has
    ghost unpacking: { ℕ → Self };

    // the value that an item which a bank has not got reads as
    ghost blank: { Self };

    /// The value's word.
    fn pack(self) -> u64
        ensures word { result ≡ packing self }
        ensures held { held self };

    /// The value of any word.
    fn unpack(word: u64) -> Self
        ensures { result ≡ unpacking word };

    /// The blank value.
    fn blank() -> Self
        ensures { result ≡ blank };

    // unpacking a packed value gives that value
    ghost back: { (x : Self) → held x → unpacking (packing x) ≡ x };
}
