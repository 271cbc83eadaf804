//! An example of managers of one's own: each counts, unit by unit, what of its class was still held as the unit ended.

ghost use Rattle.std.specs.Prelude.{◌≡◌, IfOk};
ghost use Rattle.rtm_desk.specs.MemManager.{manager_of};

use crate::program_tests::words;
use crate::run_tests::endings;
use rtm_codes::NoMemory;
use rtm_desk::{Manager, MemManager};
use rtm_io::{MemSink, MemSource};
use rtm_model::Res;
use rtm_top::{Status, plain_words};
use std::alloc::{AllocError, Global};
use std::sync::Arc;
use std::sync::atomic::{AtomicU64, Ordering};
use std::test::Fail;

// For the units of a deck, and behind them for the master, how many resources each still held.
type Counts = Vec<AtomicU64>;

// What the contracts ask of a manager the one in memory keeps; the counts are what its owner wants of it.
#[derive(Drop)]
struct StillHeld {
    told: MemManager,
    counts: Arc<Counts>,
}

impl Manager for StillHeld {
    ghost class = { λ a. a.told.class };

    ghost released = { λ a. a.told.released };

    ghost spare = { λ a. a.told.spare };

    fn reserve(&mut self, n: u64) -> Result<(), NoMemory> {
        self.told.reserve(n)
    }

    fn release(&mut self, unit: u16, id: u32) {
        self.told.release(unit, id);
        match self.counts.get(usize::from(unit)) {
            Some(count) => {
                count.fetch_add(1, Ordering::SeqCst);
            }
            None => {}
        }
    }

    fn count(&self) -> u64 {
        self.told.count()
    }
}

fn counts_of(alloc: Global, units: usize) -> Result<Arc<Counts>, AllocError> {
    let mut counts = Vec::new(alloc);
    for _ in 0..units {
        counts.push(AtomicU64::new(0))?;
    }
    Ok(Arc::new(alloc, counts)?)
}

fn still_held(alloc: Global, class: Res, counts: &Arc<Counts>) -> Result<StillHeld, AllocError>
    ensures { IfOk result (λ a. a.told ≡ manager_of class) }
{
    let counts = counts.clone()?;
    let told = MemManager::new(alloc, class);
    Ok(StillHeld { told, counts })
}

// In the night's batch CALC is cancelled while it holds storage, PRINT fails while it holds a data set, and READ and JOB
// have freed all they got.
#[test]
fn what_each_unit_left_behind(rt: HostRuntime) -> Result<(), Fail> {
    let alloc = rt.alloc();
    let enq = counts_of(alloc, 5)?;
    let stor = counts_of(alloc, 5)?;
    let dsn = counts_of(alloc, 5)?;
    let timr = counts_of(alloc, 5)?;
    let mut managers: Vec<Box<dyn Manager + Send>> = Vec::new(alloc);
    managers.push(Box::new(alloc, still_held(alloc, Res::Enq, &enq)?)?)?;
    managers.push(Box::new(alloc, still_held(alloc, Res::Stor, &stor)?)?)?;
    managers.push(Box::new(alloc, still_held(alloc, Res::Dsn, &dsn)?)?)?;
    managers.push(Box::new(alloc, still_held(alloc, Res::Timr, &timr)?)?)?;

    let deck = endings::ROWS[1].deck;
    let mut src = MemSource::new(Vec::from_slice(alloc, deck.as_bytes())?, Vec::new(alloc));
    let mut out = MemSink::new(alloc, 10_000, Vec::new(alloc))?;
    let outcome = plain_words(
        alloc,
        &words(alloc, &["seq"])?,
        &mut src,
        &mut out,
        managers,
    );
    assert_eq!(rt; outcome.status, Status::Fine);

    // JOB, READ, CALC, PRINT, and the master.
    let left = [
        (enq, [0, 0, 0, 0, 0]),
        (stor, [0, 0, 1, 0, 0]),
        (dsn, [0, 0, 0, 1, 0]),
        (timr, [0, 0, 0, 0, 0]),
    ];
    for (counts, wanted) in &left {
        for (count, held) in counts.iter().zip(wanted) {
            assert_eq!(rt; count.load(Ordering::SeqCst), *held);
        }
    }
    Ok(())
}
