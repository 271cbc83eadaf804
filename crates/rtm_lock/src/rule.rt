//! What a lock keeps between any two steps, and what each step tells the thread that makes it.

ghost use Rattle.std.specs.Prelude.{◌≡◌};
ghost use Rattle.rtm_lock.specs.Kept.{IsKept, HasTaken};

use atomic_table::{Play, TableRule};
use std::marker::PhantomData;

/// A value that can lie behind a lock that was made with a key of that type.
pub trait Keyed<K> {
    /// The value belongs to the key.
    ghost belongs: { K → Self → Type 0 };
}

/// The rule of a lock's table: the value that is at home belongs to the key. A seat knows the key.
pub struct Rule<T> {
    marker: PhantomData<T>,
}

impl<T: Keyed<K>, K> TableRule<Option<T>, K, K> for Rule<T> {
    ghost holds = { λ key. IsKept (T.belongs key) };

    ghost first = { λ key. key };
}

/// A try to take the value: who finds 0 has it.
pub struct Take<T> {
    marker: PhantomData<T>,
}

impl<T: Keyed<K>, K> Play<Option<T>, K> for Take<T> {
    ghost then = { λ st before found after. found ≡ 0 → HasTaken (T.belongs before.0) after };
}

/// One more change is counted, by the thread that has the value.
pub struct Count;

impl<T, K> Play<Option<T>, K> for Count {
    ghost then = { λ st before found after. after ≡ before };
}

/// The value is at home again.
pub struct GiveBack;

impl<T, K> Play<Option<T>, K> for GiveBack {
    ghost then = { λ st before found after. Unit {0} };
}
