//! The aborts that are pending for a unit.

ghost use Rattle.std.specs.Prelude.{◌≡◌, ◌<◌, [], ◌∷◌, ◌++◌, length, IfNone, IfSome};
ghost use Rattle.rtm_model.specs.Aborts.{is_same_class, is_of_class, has_class, fate_of, with_abort, first_abort, after_landing, HasDistinctClasses};

use arrayvec::ArrayVec;
use rtm_codes::Code;
use rtm_model::{Abort, Class, Fate};
use std::marker::Model;

// One abort of each class.
const MOST_ABORTS: usize = 6;

// A place of the list: an abort, or a blank where the list has none.
#[derive(Clone, Copy)]
struct Posted {
    abort: Abort,
}

impl Model for Posted {
    ghost use Rattle.rtm_model.specs.declared.abort.Abort.{Abort};

    ghost Value = { Abort };

    ghost view = { λ a. a.abort };

    ghost inverse = { λ abort. record { abort = abort } };
}

impl Default for Posted {
    fn default() -> Posted {
        Posted {
            abort: Abort {
                class: Class::Cancel,
                from: 0,
                code: Code::Sys(0),
                reason: None,
                dump: false,
                retry: false,
                term_only: false,
            },
        }
    }
}

/// The aborts that were posted to a unit and have not landed, at most one of each class (this profile).
///
/// A contract sees them in the order in which they came.
#[derive(Drop)]
pub struct Pending {
    list: ArrayVec<Posted, MOST_ABORTS>,
}

impl Model for Pending {
    ghost use Rattle.std.specs.Prelude.{List};
    ghost use Rattle.rtm_model.specs.declared.abort.Abort.{Abort};
    ghost use Rattle.rtm_model.specs.Aborts.{HasDistinctClasses};

    ghost Value = { List Abort };

    ghost view = { λ a. a.list.items };

    ghost invariant = { λ a. HasDistinctClasses a.list.items };
}

fn is_same_class(one: Class, other: Class) -> bool
    ensures { result ≡ is_same_class one other }
{
    match one {
        Class::Cancel => matches!(other, Class::Cancel),
        Class::Detach => matches!(other, Class::Detach),
        Class::Mother => matches!(other, Class::Mother),
        Class::Step => matches!(other, Class::Step),
        Class::Abterm => matches!(other, Class::Abterm),
        Class::Srb => matches!(other, Class::Srb),
    }
}

fn is_of_class(class: Class, posted: Posted) -> bool
    ensures { result ≡ is_of_class class posted }
{
    is_same_class(class, posted.abort.class)
}

fn has_class(list: &[Posted], class: Class) -> bool
    ensures { result ≡ has_class class list.now }
{
    list.iter()
        .copied()
        .any(|posted| is_of_class(class, posted))
}

fn first_abort(list: &[Posted]) -> Option<Abort>
    ensures { result ≡ first_abort list.now }
{
    match list.first() {
        Some(posted) => Some(posted.abort),
        None => None,
    }
}

// One more abort, the last.
fn add(list: &mut ArrayVec<Posted, MOST_ABORTS>, abort: Abort)
    requires { length list.old.items < 6 }
    ensures { list.new.items ≡ list.old.items ++ abort ∷ [] }
{
    list.push(Posted { abort });
}

impl Pending {
    /// No abort.
    pub fn new() -> Pending
        ensures { result ≡ [] }
    {
        Pending {
            list: ArrayVec::new(),
        }
    }

    /// Posts an abort: `Late` where the caller says that its target can't be aborted any more (it is dormant, has
    /// begun to end or doesn't live), else `Merged` where one of its class is pending, which stays as it is, else
    /// `Queued`, and it stands last.
    #[tactic(auto, using(crate::proofs::Classes::may_join))]
    pub fn post(&mut self, abort: Abort, late: bool) -> Fate
        ensures fate { result ≡ fate_of late abort.class self.old }
        ensures list { self.new ≡ with_abort late abort self.old }
    {
        if late {
            return Fate::Late;
        }
        if has_class(self.list.as_slice(), abort.class) {
            return Fate::Merged;
        }
        add(&mut self.list, abort);
        Fate::Queued
    }

    /// Whether an abort of the class is pending.
    pub fn has(&self, class: Class) -> bool
        ensures { result ≡ has_class class self.now }
    {
        has_class(self.list.as_slice(), class)
    }

    /// The fate that an abort of the class would have if it was posted now.
    pub fn fate(&self, class: Class, late: bool) -> Fate
        ensures { result ≡ fate_of late class self.now }
    {
        if late {
            return Fate::Late;
        }
        if self.has(class) {
            Fate::Merged
        } else {
            Fate::Queued
        }
    }

    /// The abort that lands next: the one that came first.
    pub fn first(&self) -> Option<Abort>
        ensures which { result ≡ first_abort self.now }
        ensures classes { HasDistinctClasses self.now }
    {
        first_abort(self.list.as_slice())
    }

    /// It lands, and is pending no more.
    #[tactic(auto, using(crate::proofs::Landing::first_lands))]
    pub fn land(&mut self) -> Option<Abort>
        ensures which { result ≡ first_abort self.old }
        ensures list { IfSome result
            (λ abort. self.new ≡ after_landing abort.class abort.from self.old) }
        ensures none { IfNone result (self.new ≡ self.old) }
    {
        if self.list.is_empty() {
            return None;
        }
        Some(self.list.remove(0).abort)
    }

    /// The unit has begun to end, or is purged: no abort is pending any more.
    pub fn drop_all(&mut self)
        ensures { self.new ≡ [] }
    {
        self.list.clear();
    }
}
