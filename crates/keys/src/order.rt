ghost use Rattle.std.specs.Prelude.{◌≡◌, Bool, true, false, ◌≢◌};
ghost use Rattle.keys.specs.Order.{same_key};

/// A kind of key: keys with a relation "stands before" that keeps three laws.
pub trait Ordered: Copy {
    /// Whether the first key stands before the second.
    ghost before: { Self → Self → Bool };

    fn stands_before(&self, other: &Self) -> bool
        ensures { result ≡ before self.now other.now };

    /// No key stands before itself.
    ghost irreflexive: { (a : Self) → before a a ≡ false };

    ghost transitive: { (a b c : Self) → before a b ≡ true → before b c ≡ true → before a c ≡ true };

    /// Of two different keys one stands before the other: where neither does, they are one key.
    ghost connected: { (a b : Self) → before a b ≡ false → before b a ≡ false → a ≡ b };
}

/// Whether two keys are one, asked of their order alone.
pub fn same<K: Ordered>(a: &K, b: &K) -> bool
    ensures test { result ≡ same_key K.Ordered.before a.now b.now }
    ensures equal { result ≡ true → a.now ≡ b.now }
    ensures differ { result ≡ false → a.now ≢ b.now }
{
    !a.stands_before(b) && !b.stands_before(a)
}
