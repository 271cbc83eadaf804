//! What a card changes of its own unit's control blocks.

ghost use Rattle.std.specs.Prelude.{◌≡◌, ◌+◌, ◌<◌, ◌∷◌, IsTrue, length};
ghost use Rattle.rtm_deck_items.specs.declared.op.Op.TheVariants.{Link};
ghost use Rattle.rtm_model.specs.Births.{new_estae, new_frr};
ghost use Rattle.rtm_model.specs.OwnChange.{branch_place, label_place, next_place, own_card, place_after};
ghost use Rattle.rtm_model.specs.Blocks.{after_return, newest_birth, newest_bracket, with_linked, with_place, with_program};
ghost use Rattle.rtm_model.specs.Chains.{after_cancel, after_overlay, after_xctl, is_of_depth, with_in_place, without_first, without_owner};
ghost use Rattle.rtm_model.specs.Levels.{after_ret15, after_setrp, depth_in};
ghost use Rattle.rtm_model.specs.Limits.{most_blocks, most_estaes, most_frrs, words};
ghost use Rattle.rtm_deck_operands.specs.Value.{is_return_code};
ghost use Rattle.rtm_model.specs.SetrpCard.{is_setrp_card};
ghost use Rattle.rtm_system_unit.specs.Applying.{HasRoomFor, IsFitting};

use crate::unit_core::Core;
use rtm_blocks::Blocks;
use rtm_chains::{EstaeChain, FrrStack};
use rtm_deck_items::{Deck, Name, Op, Setrp};
use rtm_model::{Kind, Place, Reg};

fn next_place(at: Place) -> Place
    requires { at.op < 65535 }
    ensures { result ≡ next_place at }
{
    Place {
        prog: at.prog,
        op: at.op + 1,
    }
}

// Where a branch goes.
fn label_place(deck: &Deck, at: Place, label: &Name) -> Place
    requires { at.op < 65535 }
    ensures { result ≡ label_place deck.now at label.now }
{
    match deck.label_at(at.prog, label) {
        Some(op) => Place { prog: at.prog, op },
        None => next_place(at),
    }
}

// Where a branch goes that was taken, or not, by its return code.
fn branch_place(deck: &Deck, at: Place, label: &Name, rc: u8) -> Place
    requires { at.op < 65535 }
    ensures { result ≡ branch_place deck.now at label.now rc }
{
    if rc == 4 {
        label_place(deck, at, label)
    } else {
        next_place(at)
    }
}

/// Where the unit goes on after a card.
pub(crate) fn place_after(deck: &Deck, at: Place, rc: u8, op: &Op) -> Place
    requires { at.op < 65535 }
    ensures { result ≡ place_after deck.now at rc op.now }
{
    match op {
        Op::Branch { label } => label_place(deck, at, label),
        Op::IfCode { label, .. } | Op::IfClup { label } | Op::IfPerc { label } => {
            branch_place(deck, at, label, rc)
        }
        Op::Nop
        | Op::Get { .. }
        | Op::Free { .. }
        | Op::Link { .. }
        | Op::Xctl { .. }
        | Op::Return
        | Op::Abend { .. }
        | Op::EstaexCt { .. }
        | Op::EstaexOv { .. }
        | Op::EstaexZero
        | Op::FrrAdd { .. }
        | Op::FrrDelete
        | Op::FrrReplace { .. }
        | Op::FrrPurge
        | Op::Attachx { .. }
        | Op::Detach { .. }
        | Op::Abterm { .. }
        | Op::Memterm { .. }
        | Op::MgrAdd { .. }
        | Op::MgrDelete { .. }
        | Op::Schedule { .. }
        | Op::Wait { .. }
        | Op::WaitTask { .. }
        | Op::Post { .. }
        | Op::SetRp(_)
        | Op::Ret15 { .. } => next_place(at),
    }
}

// One more request block, whose caller will go on at the place.
#[tactic(auto, using(crate::proofs::Room::placed_len))]
fn link(blocks: &mut Blocks, place: Place, born: u32, prog: u16)
    requires { length (newest_bracket blocks.old) < most_blocks }
    ensures { blocks.new ≡ with_linked born prog (with_place place blocks.old) }
{
    blocks.set_place(place);
    if blocks.link(born, prog).is_err() {
        unreachable!("the bracket has room");
    }
}

fn add_estae(estaes: &mut EstaeChain, reg: Reg)
    requires { length estaes.old < most_estaes }
    ensures { estaes.new ≡ reg ∷ estaes.old }
{
    if estaes.create(reg).is_err() {
        unreachable!("the chain has room");
    }
}

fn add_frr(frrs: &mut FrrStack, reg: Reg)
    requires { length frrs.old < most_frrs }
    ensures { frrs.new ≡ reg ∷ frrs.old }
{
    if frrs.add(reg).is_err() {
        unreachable!("the stack has room");
    }
}

impl Core {
    fn new_frr(&self, index: u32, prog: u16) -> Reg
        ensures { result ≡ new_frr index self.now prog }
    {
        Reg {
            kind: Kind::Frr,
            born: index,
            owner: self.blocks.newest(),
            depth: self.levels.depth(),
            prog,
            term: false,
            cancel: true,
            xctl: false,
        }
    }

    fn new_estae(&self, index: u32, prog: u16, term: bool, cancel: bool, xctl: bool) -> Reg
        ensures { result ≡ new_estae index self.now prog term cancel xctl }
    {
        Reg {
            kind: Kind::Estae,
            born: index,
            owner: self.blocks.newest(),
            depth: self.levels.depth(),
            prog,
            term,
            cancel,
            xctl,
        }
    }

    fn link(&mut self, index: u32, place: Place, prog: u16)
        requires room { length (newest_bracket self.old.blocks) < most_blocks }
        requires index { index + 1 < words }
        ensures { self.new ≡ own_card index place (Link prog) self.old }
    {
        link(&mut self.blocks, place, index + 1, prog);
    }

    fn xctl(&mut self, prog: u16)
        ensures { self.new
            ≡ record self.old {
              blocks = with_program prog self.old.blocks;
              estaes = after_xctl (newest_birth self.old.blocks) self.old.estaes;
            } }
    {
        self.estaes.over_xctl(self.blocks.newest());
        self.blocks.xctl(prog);
    }

    /// RETURN: the request block that runs ends, unless it is its bracket's only one.
    pub(crate) fn end_block(&mut self)
        ensures { self.new
            ≡ record self.old {
              blocks = after_return self.old.blocks;
              estaes = without_owner (newest_birth self.old.blocks) self.old.estaes;
            } }
    {
        self.estaes.drop_owner(self.blocks.newest());
        let _ended = self.blocks.end();
    }

    fn create_estae(&mut self, index: u32, prog: u16, term: bool, cancel: bool, xctl: bool)
        requires { length self.old.estaes < most_estaes }
        ensures { self.new
            ≡ record self.old
            { estaes = new_estae index self.old prog term cancel xctl ∷ self.old.estaes } }
    {
        let reg = self.new_estae(index, prog, term, cancel, xctl);
        add_estae(&mut self.estaes, reg);
    }

    fn overlay(&mut self, index: u32, prog: u16, term: bool, cancel: bool, xctl: bool)
        ensures { self.new
            ≡ record self.old {
              estaes = after_overlay (depth_in self.old.levels) (newest_birth self.old.blocks)
                  (new_estae index self.old prog term cancel xctl) self.old.estaes;
            } }
    {
        let reg = self.new_estae(index, prog, term, cancel, xctl);
        let _old = self
            .estaes
            .overlay(self.levels.depth(), self.blocks.newest(), reg);
    }

    fn cancel(&mut self)
        ensures { self.new
            ≡ record self.old {
              estaes = after_cancel (depth_in self.old.levels)
                  (newest_birth self.old.blocks) self.old.estaes;
            } }
    {
        let _old = self
            .estaes
            .cancel(self.levels.depth(), self.blocks.newest());
    }

    fn add_frr(&mut self, index: u32, prog: u16)
        requires { length self.old.frrs < most_frrs }
        ensures { self.new
            ≡ record self.old { frrs = new_frr index self.old prog ∷ self.old.frrs } }
    {
        let reg = self.new_frr(index, prog);
        add_frr(&mut self.frrs, reg);
    }

    fn delete_frr(&mut self)
        ensures { self.new
            ≡ record self.old
            { frrs = without_first (is_of_depth (depth_in self.old.levels)) self.old.frrs } }
    {
        let _old = self.frrs.delete(self.levels.depth());
    }

    fn replace_frr(&mut self, index: u32, prog: u16)
        ensures { self.new
            ≡ record self.old {
              frrs = with_in_place (is_of_depth (depth_in self.old.levels))
                  (new_frr index self.old prog) self.old.frrs;
            } }
    {
        let reg = self.new_frr(index, prog);
        let _old = self.frrs.replace(self.levels.depth(), reg);
    }

    fn setrp(&mut self, card: &Setrp)
        requires { IsTrue (is_setrp_card card.now) }
        ensures { self.new ≡ record self.old { levels = after_setrp card.now self.old.levels } }
    {
        let _changed = self.levels.setrp(card);
    }

    fn ret15(&mut self, rc: u8, label: Option<Name>)
        requires { IsTrue (is_return_code rc) }
        ensures { self.new ≡ record self.old { levels = after_ret15 rc label self.old.levels } }
    {
        let _changed = self.levels.ret15(rc, label);
    }

    /// A card was executed, and the unit goes on at the place.
    pub(crate) fn own_card(&mut self, index: u32, place: Place, op: &Op)
        requires room { HasRoomFor self.old op.now }
        requires card { IsFitting op.now }
        requires index { index + 1 < words }
        ensures { self.new ≡ own_card index place op.now self.old }
    {
        match *op {
            Op::Link { prog } => return self.link(index, place, prog),
            Op::Xctl { prog } => return self.xctl(prog),
            Op::Return => return self.end_block(),
            Op::EstaexCt {
                prog,
                term,
                cancel,
                xctl,
            } => self.create_estae(index, prog, term, cancel, xctl),
            Op::EstaexOv {
                prog,
                term,
                cancel,
                xctl,
            } => self.overlay(index, prog, term, cancel, xctl),
            Op::EstaexZero => self.cancel(),
            Op::FrrAdd { prog } => self.add_frr(index, prog),
            Op::FrrDelete => self.delete_frr(),
            Op::FrrReplace { prog } => self.replace_frr(index, prog),
            Op::FrrPurge => self.frrs.purge(self.levels.depth()),
            Op::SetRp(setrp) => self.setrp(&setrp),
            Op::Ret15 { rc, label } => self.ret15(rc, label),
            Op::Nop
            | Op::Get { .. }
            | Op::Free { .. }
            | Op::Abend { .. }
            | Op::Attachx { .. }
            | Op::Detach { .. }
            | Op::Abterm { .. }
            | Op::Memterm { .. }
            | Op::MgrAdd { .. }
            | Op::MgrDelete { .. }
            | Op::Schedule { .. }
            | Op::Wait { .. }
            | Op::WaitTask { .. }
            | Op::Post { .. }
            | Op::Branch { .. }
            | Op::IfCode { .. }
            | Op::IfClup { .. }
            | Op::IfPerc { .. } => {}
        }
        self.blocks.set_place(place);
    }
}
