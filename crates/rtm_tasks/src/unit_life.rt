//! The life of one unit.

ghost use Rattle.std.specs.Prelude.{◌≡◌};
ghost use Rattle.rtm_model.specs.Tasks.{Dormant, Lives, is_dormant, is_living, has_ended, mother_of, living_mother, ended_life};

use std::marker::Model;

// Where a unit stands in its life; `mother` is the number of the task that attached it.
#[derive(Clone, Copy)]
enum Stage {
    Unborn,
    Alive { mother: Option<u16> },
    Gone { mother: Option<u16> },
}

/// The life of a unit. A contract sees it as the model's.
#[derive(Drop)]
pub(crate) struct UnitLife {
    stage: Stage,
}

impl Model for UnitLife {
    ghost use Rattle.rtm_model.specs.Tasks.{Life};
    ghost use Rattle.rtm_tasks.specs.Stage.{life_at};

    ghost Value = { Life };

    ghost view = { λ a. life_at a.stage };
}

impl UnitLife {
    pub(crate) fn before_birth() -> UnitLife
        ensures { result ≡ Dormant }
    {
        UnitLife {
            stage: Stage::Unborn,
        }
    }

    pub(crate) fn at_birth(mother: Option<u16>) -> UnitLife
        ensures { result ≡ Lives mother }
    {
        UnitLife {
            stage: Stage::Alive { mother },
        }
    }

    pub(crate) fn is_dormant(&self) -> bool
        ensures { result ≡ is_dormant self.now }
    {
        matches!(self.stage, Stage::Unborn)
    }

    pub(crate) fn is_living(&self) -> bool
        ensures { result ≡ is_living self.now }
    {
        matches!(self.stage, Stage::Alive { .. })
    }

    pub(crate) fn has_ended(&self) -> bool
        ensures { result ≡ has_ended self.now }
    {
        matches!(self.stage, Stage::Gone { .. })
    }

    pub(crate) fn mother(&self) -> Option<u16>
        ensures { result ≡ mother_of self.now }
    {
        match self.stage {
            Stage::Unborn => None,
            Stage::Alive { mother } | Stage::Gone { mother } => mother,
        }
    }

    /// Who attached the unit, while it lives.
    pub(crate) fn living_mother(&self) -> Option<u16>
        ensures { result ≡ living_mother self.now }
    {
        match self.stage {
            Stage::Alive { mother } => mother,
            Stage::Unborn | Stage::Gone { .. } => None,
        }
    }

    /// The life after its end, if it is one.
    pub(crate) fn after_end(&self) -> UnitLife
        ensures { result ≡ ended_life self.now }
    {
        let stage = match self.stage {
            Stage::Alive { mother } => Stage::Gone { mother },
            other => other,
        };
        UnitLife { stage }
    }
}
