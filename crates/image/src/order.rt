//! The order of an image's keys.

ghost use Rattle.std.specs.Prelude.{◌≡◌, ◌-◌, ◌^◌, List};
ghost use Rattle.std.specs.Iterator.{UpTo};
ghost use Rattle.std.proofs.lemmas.Iterator.{YieldsList};
ghost use Rattle.image.specs.Verdict.{first_unordered};

use keys::order::Ordered;

/// The first place whose key does not stand after the one before it.
pub(crate) fn first_unordered<K: Ordered, I: Iterator<Item = K> + Drop>(keys: I) -> Option<usize>
    requires can { I.can_next keys }
    requires few { UpTo (I.remaining keys) (2 ^ 64 - 1) }
    ensures { (ks : List K) → YieldsList I.next_gives (λ k. k) keys ks → result ≡ first_unordered K.Ordered.before ks }
{
    let mut previous: Option<K> = None;
    for (place, key) in keys.enumerate() {
        if let Some(previous) = previous
            && !previous.stands_before(&key)
        {
            return Some(place);
        }
        previous = Some(key);
    }
    None
}
