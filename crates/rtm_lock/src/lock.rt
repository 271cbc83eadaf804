//! The lock, and what a thread has while it has the value.

ghost use Rattle.std.specs.Prelude.{◌≡◌, ◌∷◌, [], IfErr, IfOk, map};

use crate::rule::{Count, GiveBack, Keyed, Rule, Take};
use atomic_table::{Refused, Seat, Table};
use std::alloc::Global;
use std::sync::Wait;
use std::thread::yield_now;
use std::time::Duration;

// The word that is 0 while the value is at home, and 1 while a thread has it.
const HELD: usize = 0;

// The word that counts the changes of the value, round past the greatest number of 64 bits.
const CHANGES: usize = 1;

// How often a thread that finds the value gone tries again before it sleeps.
const TRIES: u32 = 64;

// How long it sleeps then between two tries, in microseconds.
const NAP: u64 = 50;

/// A lock round one value. A thread takes the value out, and puts one back that belongs to the same key; threads that
/// want it meanwhile wait. The lock is made with a key, which it doesn't keep: it stands in contracts alone.
///
/// A contract sees the key as `table.shared.key`, and which lock it is as `table.shared.table_id`.
#[derive(Drop)]
pub struct Lock<T: Keyed<K> + Drop, K> {
    table: Table<Option<T>, K, K, Rule<T>, Global>,
    ghost sized: { (table.shared.table_id.words ≡ 2) × (table.shared.table_id.slots ≡ 1) },
}

/// A thread has the value of a lock. It has no `Drop`: it ends in `put_back`.
///
/// A contract sees of which lock as `seat.table_id`.
pub struct Hold<T, K> {
    seat: Seat<Option<T>, K>,
    ghost has: { map (λ taken. taken.0) seat.me.1 ≡ 0 ∷ [] },
}

impl<T: Keyed<K> + Drop, K> Lock<T, K> {
    /// A lock round the value. Where there is no memory for it the value comes back.
    pub fn new(alloc: Global, value: T, key: &K) -> Result<Lock<T, K>, T>
        requires belongs { T.belongs key.now value }
        ensures key { IfOk result (λ lock. lock.table.shared.key ≡ key.now) }
        ensures refused { IfErr result (λ back. back ≡ value) }
    {
        let Ok(mut slots) = Vec::with_capacity(alloc, 1) else {
            return Err(value);
        };
        slots.push_reserved(Some(value));
        match Table::new(alloc, &[0, 0], slots, key) {
            Ok((table, _seat)) => Ok(Lock { table }),
            Err(Refused { mut slots }) => match slots.pop() {
                Some(Some(value)) => Err(value),
                Some(None) | None => unreachable!(),
            },
        }
    }

    /// Takes the value out, and waits for it where a thread has it.
    pub fn take<R: Wait>(&self, rt: &R) -> (T, Hold<T, K>)
        ensures belongs { T.belongs self.now.table.shared.key result.0 }
        ensures hold { result.1.seat.table_id ≡ self.now.table.shared.table_id }
    {
        let shared = &self.table.shared;
        let mut tried = 0;
        for _ in rt.forever() {
            let (found, mut seat) = shared.swap_new_seat::<Take<T>>(HELD, 1);
            if found == 0 {
                let value = shared.exchange(&mut seat, 0, None).unwrap();
                return (value, Hold { seat });
            }
            if tried < TRIES {
                tried += 1;
                yield_now();
            } else {
                shared.park_timeout(rt, HELD, 1, Duration::from_micros(NAP));
            }
        }
        unreachable!()
    }

    /// Puts a value back. `changed` says that it is another than the one that was taken: that is counted.
    pub fn put_back(&self, value: T, hold: Hold<T, K>, changed: bool)
        requires belongs { T.belongs self.now.table.shared.key value }
        requires hold { hold.seat.table_id ≡ self.now.table.shared.table_id }
    {
        let shared = &self.table.shared;
        let Hold { mut seat } = self.count(hold, changed);
        drop(shared.exchange(&mut seat, 0, Some(value)));
        shared.store::<GiveBack>(&mut seat, HELD, 0);
    }

    // Counts one more change where there was one, before it is seen.
    fn count(&self, hold: Hold<T, K>, changed: bool) -> Hold<T, K>
        requires hold { hold.seat.table_id ≡ self.now.table.shared.table_id }
        ensures hold { result.seat.table_id ≡ self.now.table.shared.table_id }
    {
        if !changed {
            return hold;
        }
        let Hold { mut seat } = hold;
        self.table.shared.fetch_add::<Count>(&mut seat, CHANGES, 1);
        Hold { seat }
    }

    /// How often the value was changed, in 32 bits. It is steady while a thread has the value.
    pub fn changes(&self) -> u32 {
        (self.table.shared.peek(CHANGES) % (1 << 32)) as u32
    }

    /// Sleeps for as long as that, and not at all where the value was changed since it had been changed that often.
    /// It may return sooner. No change ends a sleep that has begun.
    pub fn sleep_unless_changed<R: Wait>(&self, rt: &R, changes: u32, most: Duration) {
        self.table.shared.park_timeout(rt, CHANGES, changes, most);
    }

    /// Takes the value out for good.
    pub fn into_value<R: Wait>(self, rt: &R) -> T
        ensures belongs { T.belongs self.table.shared.key result }
    {
        let (value, hold) = self.take(rt);
        let Hold { seat: _ } = hold;
        value
    }
}
