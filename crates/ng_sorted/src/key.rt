// Entries in order of numbers, and the search by a number.
ghost use Rattle.std.specs.Prelude.{◌≡◌, ℕ, IfErr, IfOk};
ghost use Rattle.ng_sorted.specs.Order.{IsGap, IsInOrder, IsPlace};

/// An entry that stands in order of its number.
pub trait Key: Drop {
    /// The number.
    ghost key_of: { Self → ℕ };

    /// The number.
    fn key(&self) -> u64
        ensures { result ≡ key_of self.now };
}

/// Where the entry of this number stands, or where it would. It takes a time of the logarithm of their number.
///
/// # Errors
/// The place for it, where no entry has the number.
pub fn place<T: Key>(entries: &[T], key: u64) -> Result<usize, usize>
    requires { IsInOrder T.key_of entries.now }
    ensures found { IfOk result (IsPlace T.key_of entries.now key) }
    ensures missing { IfErr result (IsGap T.key_of entries.now key) }
{
    entries.binary_search_by_key(&key, |entry| entry.key())
}
