//! A routine is left: what its verdict makes of the unit's control blocks.

ghost use Rattle.std.specs.Prelude.{◌≡◌, ◌<◌, ◌&&◌, length};
ghost use Rattle.rtm_model.specs.OwnChange.{after_retry, estais_left, has_remrec, is_estae, is_gone_after, with_bracket_closed, with_retry, with_routine_left, without_left, without_routine};
ghost use Rattle.rtm_model.specs.Levels.{after_leave, is_frr};
ghost use Rattle.rtm_model.specs.NextEntry.{retry_birth};
ghost use Rattle.rtm_model.specs.Record.{is_estai};

use crate::unit_core::Core;
use rtm_chains::{EstaeChain, EstaiList, FrrStack};
use rtm_model::{Kind, Place, Reg, Verdict};
use rtm_percolate::Levels;
use rtm_sdwa::Sdwa;

fn is_frr(kind: Kind) -> bool
    ensures { result ≡ is_frr kind }
{
    matches!(kind, Kind::Frr)
}

fn is_estae(kind: Kind) -> bool
    ensures { result ≡ is_estae kind }
{
    matches!(kind, Kind::Estae)
}

fn is_estai(kind: Kind) -> bool
    ensures { result ≡ is_estai kind }
{
    matches!(kind, Kind::Estai)
}

// Whether the routine is to be removed at a retry.
fn has_remrec(error: Option<Sdwa>) -> bool
    ensures { result ≡ has_remrec error }
{
    match error {
        None => false,
        Some(error) => error.flags.ten().remrec,
    }
}

// Whether the routine is gone after its verdict, where that is its record.
fn is_gone_after(verdict: Verdict, error: Option<Sdwa>) -> bool
    ensures { result ≡ is_gone_after verdict error }
{
    match verdict {
        Verdict::Retry(_) => has_remrec(error),
        _ => true,
    }
}

fn drop_frr(frrs: &mut FrrStack, gone: bool, born: u32)
    ensures { frrs.new ≡ without_left gone born frrs.old }
{
    if gone {
        frrs.remove(born);
    }
}

fn drop_estae(estaes: &mut EstaeChain, gone: bool, born: u32)
    ensures { estaes.new ≡ without_left gone born estaes.old }
{
    if gone {
        estaes.remove(born);
    }
}

fn drop_estai(estais: &mut EstaiList, gone: bool, born: u32)
    ensures { estais.new ≡ without_left gone born estais.old }
{
    if gone {
        estais.left(born);
    }
}

// What the verdict leaves of the ESTAI routines: none after a stop.
fn leave_estais(estais: &mut EstaiList, verdict: Verdict, gone: bool, kind: Kind, born: u32)
    ensures { estais.new ≡ estais_left verdict gone kind born estais.old }
{
    match verdict {
        Verdict::Stop => estais.stop(),
        _ => drop_estai(estais, gone && is_estai(kind), born),
    }
}

// The innermost bracket is closed with that verdict on its routine.
fn close_level(levels: &mut Levels, verdict: Verdict)
    requires { 1 < length levels.old }
    ensures { levels.new ≡ after_leave verdict levels.old }
{
    match verdict {
        Verdict::Fail => levels.fail(),
        other => levels.close(other),
    }
}

impl Core {
    // The innermost bracket is closed, and what was born in it goes.
    fn close(&mut self, verdict: Verdict)
        requires { 1 < length self.old.levels }
        ensures { self.new ≡ with_bracket_closed verdict self.old }
    {
        let depth = self.levels.depth();
        self.blocks.leave();
        close_level(&mut self.levels, verdict);
        self.frrs.purge(depth);
        self.estaes.drop_depth(depth);
    }

    // The routine itself goes, or stays.
    fn drop_routine(&mut self, verdict: Verdict, gone: bool, kind: Kind, born: u32)
        ensures { self.new ≡ without_routine verdict gone kind born self.old }
    {
        drop_frr(&mut self.frrs, gone && is_frr(kind), born);
        drop_estae(&mut self.estaes, gone && is_estae(kind), born);
        leave_estais(&mut self.estais, verdict, gone, kind, born);
    }

    // The birth of the request block of the innermost bracket under which the routine is retried.
    fn birth_for_retry(&self, reg: Reg) -> u32
        ensures { result ≡ retry_birth reg self.now.blocks }
    {
        match reg.kind {
            Kind::Frr => self.blocks.newest(),
            Kind::Estae => reg.owner,
            Kind::Estai => self.blocks.oldest(),
            Kind::Mgr => 0,
        }
    }

    // The unit goes on at the place, under the request block of that birth.
    fn retry(&mut self, place: Place, born: u32)
        ensures { self.new ≡ with_retry place born self.old }
    {
        self.blocks.cut_to(born);
        self.blocks.set_place(place);
        self.estaes.drop_newer_owners(born);
    }

    fn after_verdict(&mut self, verdict: Verdict, own: Option<Reg>)
        ensures { self.new ≡ after_retry verdict own self.old }
    {
        if let Verdict::Retry(place) = verdict
            && let Some(reg) = own
        {
            let born = self.birth_for_retry(reg);
            self.retry(place, born);
        }
    }

    /// The routine of the innermost bracket is left.
    pub(crate) fn leave(&mut self, kind: Kind, born: u32, verdict: Verdict)
        requires { 1 < length self.old.levels }
        ensures { self.new ≡ with_routine_left kind born verdict self.old }
    {
        let own = self.levels.current();
        let gone = is_gone_after(verdict, self.levels.sdwa());
        self.close(verdict);
        self.drop_routine(verdict, gone, kind, born);
        self.after_verdict(verdict, own);
    }
}
