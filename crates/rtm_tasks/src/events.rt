//! The events that are posted.

ghost use Rattle.std.specs.Prelude.{◌≡◌, false, not, [], replicate, IfOk};
ghost use Rattle.rtm_model.specs.Tasks.{is_posted, with_event};

use rtm_codes::NoMemory;
use std::alloc::Global;
use std::marker::Model;

// So many events there are (this profile).
const EVENTS: usize = 256;

/// The events that are posted. A contract sees the one first that was posted last.
#[derive(Drop)]
pub(crate) struct Events {
    /// In the order in which they were posted.
    list: Vec<u8>,
    /// For each event whether it is among them, since this is asked at each look at a unit that waits.
    posted: Vec<bool>,
}

impl Model for Events {
    ghost use Rattle.std.specs.Prelude.{◌≤◌, ℕ, List, reverse, vec_capacity};
    ghost use Rattle.rtm_tasks.specs.EventList.{AreEvents, Tells};

    ghost Value = { List ℕ };

    ghost view = { λ a. reverse a.list.items };

    ghost invariant = { λ a. AreEvents (reverse a.list.items) × (256 ≤ vec_capacity a.list)
        × Tells a.posted.items (reverse a.list.items) };
}

fn unposted_events(alloc: Global) -> Result<Vec<bool>, NoMemory>
    ensures { IfOk result (λ table. table.items ≡ replicate 256 false) }
{
    Ok(vec![in alloc; false; EVENTS]?)
}

impl Events {
    #[tactic(auto, using(crate::proofs::Distinct::no_events, crate::proofs::Told::tells_none))]
    pub(crate) fn with_room(alloc: Global) -> Result<Events, NoMemory>
        ensures { IfOk result (λ events. events ≡ []) }
    {
        Ok(Events {
            list: Vec::with_capacity(alloc, EVENTS)?,
            posted: unposted_events(alloc)?,
        })
    }

    pub(crate) fn is_posted(&self, event: u8) -> bool
        ensures { result ≡ is_posted event self.now }
    {
        self.posted[usize::from(event)]
    }

    /// True where the event was not posted before.
    pub(crate) fn post(&mut self, event: u8) -> bool
        ensures which { result ≡ not (is_posted event self.old) }
        ensures events { self.new ≡ with_event event self.old }
    {
        if self.is_posted(event) {
            return false;
        }
        self.list.push_reserved(event);
        self.posted[event as usize] = true;
        true
    }
}
