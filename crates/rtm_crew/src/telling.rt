//! Telling the managers of an entry.

ghost use Rattle.std.specs.Prelude.{◌≡◌, ◌+◌, ℕ};
ghost use Rattle.rtm_desk.specs.Told.{HasRoom, tell_of};

use rtm_desk::{Desks, Manager};
use rtm_model::What;

/// Tells the manager of the class where the entry is a release, and nobody of any other entry.
pub(crate) fn tell<M: Manager>(desks: &mut Desks<M>, what: What)
    requires room { HasRoom 1 desks.old }
    ensures told { desks.new.told ≡ tell_of what desks.old.told }
    ensures room { (least : ℕ) → HasRoom (least + 1) desks.old → HasRoom least desks.new }
{
    match what {
        What::Release { class, id, owner } => desks.release(class, owner, id),
        What::Exec { .. }
        | What::Error { .. }
        | What::Land { .. }
        | What::Enter { .. }
        | What::Leave { .. }
        | What::Arrive { .. }
        | What::Begin { .. }
        | What::Done { .. }
        | What::Purge { .. }
        | What::MemEnd => {}
    }
}
