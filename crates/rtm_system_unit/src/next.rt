//! The entry that a unit makes next.

ghost use Rattle.std.specs.Prelude.{◌≡◌, None, Some, false, if◌then◌else◌};
ghost use Rattle.std.specs.Option.{option_map};
ghost use Rattle.rtm_model.specs.declared.entry.What.{What};
ghost use Rattle.rtm_deck_items.specs.declared.op.Op.TheVariants.{Return};
ghost use Rattle.rtm_model.specs.Blocks.{without_bracket};
ghost use Rattle.rtm_model.specs.Cards.{outcome};
ghost use Rattle.rtm_model.specs.Levels.{current, error_in};
ghost use Rattle.rtm_system_unit.specs.Choosing.{entry_of};
ghost use Rattle.rtm_model.specs.NextEntry.{begin_of, card_entry, card_entry_at, card_entry_by, done_of, eligible_routine, ending_or_card, ends_step, enter_of, failure_of, handling_of, interruptible, is_dumped, is_entered_bare, is_from_error, is_logged, is_outermost, is_retry, land_of, last_return, leave_by_verdict, leave_of, manager_or, master_act, next_landing, next_master, next_unit, normal_end, release_or, retry_birth, retry_prog, unit_act, with_subtasks};

use crate::here;
use crate::unit_core::{Beginning, Core};
use rtm_aborts::interruptible;
use rtm_codes::Code;
use rtm_deck_items::{Deck, Op};
use rtm_ending::{Act, next_act};
use rtm_model::{
    Abort, Block, Holding, Kind, Manager1, Mark, Outcome, Place, Reg, Surroundings, Verdict, What,
};
use rtm_percolate::Choice;
use rtm_sdwa::Sdwa;

const NORMAL_END: Code = Code::Sys(0);

const WITH_SUBTASKS: Code = Code::Sys(0xA03);

// What an entry shows of an error that no routine has seen yet.
fn first_mark(code: Code, reason: Option<u32>, clup: bool) -> Mark
    ensures { result
        ≡ record { code = code; reason = reason; clup = clup; perc = false; staf = false } }
{
    Mark {
        code,
        reason,
        clup,
        perc: false,
        staf: false,
    }
}

fn land_of(abort: Abort) -> What
    ensures { result ≡ land_of abort }
{
    What::Land {
        class: abort.class,
        from: abort.from,
        mark: first_mark(abort.code, abort.reason, !abort.retry),
    }
}

// Whether a routine of that kind gets no SDWA, in a deck whose ESTAE and ESTAI routines get one, or don't.
fn is_entered_bare(sdwa: bool, kind: Kind) -> bool
    ensures { result ≡ is_entered_bare sdwa kind }
{
    match kind {
        Kind::Frr | Kind::Mgr => false,
        Kind::Estae | Kind::Estai => !sdwa,
    }
}

fn enter_of(sdwa: bool, error: &Sdwa, reg: Reg) -> What
    ensures { result ≡ enter_of sdwa error.now reg }
{
    What::Enter {
        kind: reg.kind,
        reg: reg.born,
        mark: error.mark(),
        bare: is_entered_bare(sdwa, reg.kind),
    }
}

fn failure_of(own: Reg) -> What
    ensures { result ≡ failure_of own }
{
    What::Leave {
        kind: own.kind,
        reg: own.born,
        verdict: Verdict::Fail,
        logrec: false,
        dump: false,
    }
}

fn begin_of(error: &Sdwa) -> What
    ensures { result ≡ begin_of error.now }
{
    What::Begin {
        code: error.code,
        dump: error.flags.ten().dump,
    }
}

// What an open error leads to, as an entry.
fn entry_of(sdwa: bool, error: &Sdwa, choice: Choice) -> What
    ensures { result ≡ entry_of sdwa error.now choice }
{
    match choice {
        Choice::Enter(reg) => enter_of(sdwa, error, reg),
        Choice::FailRoutine(own) => failure_of(own),
        Choice::Begin(error) => begin_of(&error),
    }
}

fn is_logged(error: Option<Sdwa>) -> bool
    ensures { result ≡ is_logged error }
{
    match error {
        None => false,
        Some(error) => error.flags.ten().logrec,
    }
}

fn is_dumped(error: Option<Sdwa>) -> bool
    ensures { result ≡ is_dumped error }
{
    match error {
        None => false,
        Some(error) => error.flags.ten().dump,
    }
}

fn is_retry(verdict: Verdict) -> bool
    ensures { result ≡ is_retry verdict }
{
    matches!(verdict, Verdict::Retry(_))
}

// A routine that had that record is left.
fn leave_by_verdict(reg: Reg, error: Option<Sdwa>, verdict: Verdict) -> What
    ensures { result ≡ leave_by_verdict reg error verdict }
{
    What::Leave {
        kind: reg.kind,
        reg: reg.born,
        verdict,
        logrec: is_logged(error),
        dump: is_dumped(error) && is_retry(verdict),
    }
}

// The code of a unit whose last request block returns, of whose subtasks one lives, or none.
fn end_code(subtask: bool) -> Code
    ensures { result ≡ (if subtask then with_subtasks else normal_end) }
{
    if subtask { WITH_SUBTASKS } else { NORMAL_END }
}

// A manager gets control, at an end of that code.
fn enter_of_manager(code: Code, manager: Manager1) -> What
    ensures { (rest : What) → result ≡ manager_or code (Some manager) rest }
{
    What::Enter {
        kind: Kind::Mgr,
        reg: manager.born,
        mark: first_mark(code, None, false),
        bare: false,
    }
}

fn release_of(holding: Holding) -> What
    ensures { (rest : What) → result ≡ release_or (Some holding) rest }
{
    What::Release {
        class: holding.class,
        id: holding.id,
        owner: holding.owner,
    }
}

impl Beginning {
    fn is_from_error(&self) -> bool
        ensures { result ≡ is_from_error self.now }
    {
        self.cause.is_some()
    }

    fn ends_step(&self) -> bool
        ensures { result ≡ ends_step self.now }
    {
        match self.cause {
            None => false,
            Some(error) => error.flags.ten().step,
        }
    }

    fn done_of(&self, surroundings: &Surroundings) -> What
        ensures { result ≡ done_of self.now surroundings.now }
    {
        let to_task = if self.is_from_error() {
            surroundings.to_task
        } else {
            None
        };
        let to_step = if self.ends_step() {
            surroundings.to_step
        } else {
            None
        };
        What::Done {
            code: self.code,
            to_task,
            to_step,
        }
    }

    // The next act of a unit that has begun to end.
    #[inline(always)]
    fn unit_act(&self, surroundings: &Surroundings) -> Option<What>
        ensures { result ≡ unit_act self.now surroundings.now }
    {
        match next_act(
            surroundings.subtask,
            surroundings.manager,
            surroundings.holding,
        ) {
            Act::Wait => None,
            Act::Run(manager) => Some(enter_of_manager(self.code, manager)),
            Act::Give(holding) => Some(release_of(holding)),
            Act::Finish => Some(self.done_of(surroundings)),
        }
    }
}

// The master's next act once no unit lives.
fn space_act(code: Code, surroundings: &Surroundings) -> What
    ensures { result ≡ master_act code None surroundings.now }
{
    match next_act(false, surroundings.manager, surroundings.holding) {
        Act::Run(manager) => enter_of_manager(code, manager),
        Act::Give(holding) => release_of(holding),
        Act::Wait | Act::Finish => What::MemEnd,
    }
}

// The master's next act, where that unit is the first that lives.
fn master_act(code: Code, living: Option<u16>, surroundings: &Surroundings) -> What
    ensures { result ≡ master_act code living surroundings.now }
{
    match living {
        Some(unit) => What::Purge { unit },
        None => space_act(code, surroundings),
    }
}

impl Core {
    fn is_interruptible(&self) -> bool
        ensures { result ≡ interruptible self.now }
    {
        self.begun.is_none()
            && interruptible(
                self.frrs.any(),
                self.levels.shielded(),
                self.doomed,
                self.levels.error_here(),
            )
    }

    // The abort that lands next.
    fn next_landing(&self, surroundings: &Surroundings) -> Option<Abort>
        ensures { result ≡ next_landing self.now surroundings.now }
    {
        let abort = surroundings.abort?;
        if self.is_interruptible() {
            Some(abort)
        } else {
            None
        }
    }

    // The birth of the request block under which the routine that runs would be retried.
    fn retry_birth(&self, reg: Reg) -> u32
        ensures { result ≡ retry_birth reg (without_bracket self.now.blocks) }
    {
        match reg.kind {
            Kind::Frr => self.blocks.outer_newest(),
            Kind::Estae => reg.owner,
            Kind::Estai => self.blocks.outer_oldest(),
            Kind::Mgr => 0,
        }
    }

    // The program in which its retry label is sought.
    fn retry_prog(&self, reg: Reg) -> u16
        ensures { result ≡ retry_prog self.now reg }
    {
        self.blocks.outer_place_of(self.retry_birth(reg)).prog
    }

    // The routine that runs is left.
    #[inline(never)]
    fn leave_of(&self, deck: &Deck, reg: Reg) -> What
        ensures { result ≡ leave_of deck.now self.now reg }
    {
        let verdict = self.levels.verdict(self.retry_prog(reg), deck);
        leave_by_verdict(reg, self.levels.sdwa(), verdict)
    }

    // A bracket's last request block returns.
    fn last_return(&self, deck: &Deck, surroundings: &Surroundings, own: Option<Reg>) -> What
        ensures { result ≡ last_return deck.now self.now surroundings.now own }
    {
        match own {
            Some(reg) => self.leave_of(deck, reg),
            None => What::Begin {
                code: end_code(surroundings.subtask),
                dump: false,
            },
        }
    }

    #[inline(always)]
    fn card_entry_by(
        &self,
        deck: &Deck,
        surroundings: &Surroundings,
        at: Place,
        outcome: Outcome,
    ) -> Option<What>
        ensures { result ≡ card_entry_by deck.now self.now surroundings.now at outcome }
    {
        match outcome {
            Outcome::Executed { rc } => Some(What::Exec { at, rc }),
            Outcome::Abends { code, reason, .. } => Some(What::Error {
                at,
                mark: first_mark(code, reason, self.doomed),
            }),
            Outcome::Waits => None,
            Outcome::Returns => Some(self.last_return(deck, surroundings, self.levels.current())),
        }
    }

    #[inline(always)]
    fn card_entry_at(
        &self,
        deck: &Deck,
        surroundings: &Surroundings,
        block: Option<Block>,
    ) -> Option<What>
        ensures { result ≡ card_entry_at deck.now self.now surroundings.now block }
    {
        let at = block?.place;
        match here::card_at(deck, at) {
            None => self.entry_behind_the_last(deck, surroundings, at),
            Some(op) => {
                self.card_entry_by(deck, surroundings, at, self.outcome(surroundings, op))
            }
        }
    }

    // What the unit makes behind the last card of a program, which returns there.
    #[inline(never)]
    fn entry_behind_the_last(
        &self,
        deck: &Deck,
        surroundings: &Surroundings,
        at: Place,
    ) -> Option<What>
        ensures { result
            ≡ card_entry_by deck.now self.now surroundings.now at
            (outcome self.now surroundings.now Return) }
    {
        self.card_entry_by(
            deck,
            surroundings,
            at,
            self.outcome(surroundings, &Op::Return),
        )
    }

    // What the card at which the unit stands does.
    #[inline(always)]
    fn card_entry(&self, deck: &Deck, surroundings: &Surroundings) -> Option<What>
        ensures { result ≡ card_entry deck.now self.now surroundings.now }
    {
        self.card_entry_at(deck, surroundings, self.blocks.newest_block())
    }

    fn is_outermost(&self) -> bool
        ensures { result ≡ is_outermost self.now.levels }
    {
        self.levels.depth() == 0
    }

    #[inline(always)]
    fn ending_or_card(&self, deck: &Deck, surroundings: &Surroundings) -> Option<What>
        ensures { result ≡ ending_or_card deck.now self.now surroundings.now self.now.begun }
    {
        match &self.begun {
            Some(begun) if self.is_outermost() => begun.unit_act(surroundings),
            _ => self.card_entry(deck, surroundings),
        }
    }

    // What the error leads to that is open in the innermost bracket, if one is.
    #[inline(never)]
    #[tactic(auto, using(crate::proofs::Choosing::handled))]
    fn error_handling(&self, sdwa: bool) -> Option<What>
        ensures { result
            ≡ option_map
            (λ r. handling_of sdwa r (eligible_routine self.now r) (current self.now.levels))
            (error_in self.now.levels) }
    {
        let error = self.levels.error()?;
        let choice = self.levels.choose(&self.frrs, &self.estaes, &self.estais);
        Some(entry_of(sdwa, &error, choice))
    }

    /// The entry that the unit makes next, while it lives.
    #[inline(always)]
    pub(crate) fn next(&self, deck: &Deck, surroundings: &Surroundings) -> Option<What>
        ensures { result ≡ next_unit deck.now self.now surroundings.now }
    {
        if self.levels.error_here() {
            return self.error_handling(deck.sdwa);
        }
        match self.next_landing(surroundings) {
            Some(abort) => Some(land_of(abort)),
            None => self.ending_or_card(deck, surroundings),
        }
    }

    /// The master's next entry at memory end, of that end code and where that unit is the first that lives.
    pub(crate) fn next_at_memory_end(
        &self,
        deck: &Deck,
        surroundings: &Surroundings,
        code: Code,
        living: Option<u16>,
    ) -> Option<What>
        ensures { result ≡ next_master deck.now self.now surroundings.now code living }
    {
        if self.levels.error_here() {
            return self.error_handling(deck.sdwa);
        }
        if self.is_outermost() {
            Some(master_act(code, living, surroundings))
        } else {
            self.card_entry(deck, surroundings)
        }
    }
}
