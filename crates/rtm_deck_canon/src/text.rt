//! Writing the canonical text of a deck.

ghost use Rattle.std.specs.Prelude.{◌≡◌, ◌++◌, OnOk, IfOk, IsTrue};
ghost use Rattle.std.specs.List.{flat_map, list_all};
ghost use Rattle.rtm_deck_items.specs.WellFormed.{has_region};
ghost use Rattle.rtm_deck_items.specs.Items.{RegionCard};
ghost use Rattle.rtm_deck_items.specs.Canon.{canon};
ghost use Rattle.rtm_deck_canon.specs.Fits.{item_fits, line_fits, program_fits, unit_fits, command_fits};
ghost use Rattle.rtm_deck_canon.specs.Text.{region_text, line_text, program_text, unit_text};
ghost use Rattle.rtm_deck_canon.specs.Text.{command_text, commands_text};

use crate::card::{push_bare_card, push_card};
use crate::op::{form_of_op, values_of_op};
use crate::value::{flag, number, one, program_name, related_name, three, two, unit_name};
use rtm_cards::DEFAULT_ENTRIES;
use rtm_codes::NoMemory;
use rtm_deck_items::{CardForm, Command, Deck, Line, Program, Unit, UnitKind};
use rtm_deck_operands::Values;
use std::alloc::Global;

/// The canonical text of a deck (this profile): the one spelling that is written.
///
/// REGION stands first where the limit isn't the default or routines get no SDWA, then the programs, the units and,
/// behind OPER, the commands in their order, and END. Each card is its name or label, a blank, the operation and, where
/// there are operands, a blank and the operands between commas, in the order of their table. An operand at its default
/// is left out; SETRP has those that are given. Each card ends with a line feed. The only error is want of memory.
pub fn deck_text(alloc: Global, deck: &Deck) -> Result<Vec<u8>, NoMemory>
    ensures { IfOk result (λ text. text.items ≡ canon deck.now) }
{
    deck.keeps_its_form();
    let mut text = Vec::new(alloc);
    push_region(&mut text, deck)?;
    push_programs(&mut text, deck)?;
    push_units(&mut text, deck)?;
    push_commands(&mut text, deck)?;
    push_bare_card(&mut text, None, CardForm::End)?;
    Ok(text)
}

// REGION has to stand there.
fn has_region(deck: &Deck) -> bool
    ensures { result ≡ has_region deck.now.limit deck.now.sdwa }
{
    deck.limit != DEFAULT_ENTRIES || !deck.sdwa
}

// REGION, where it has to stand there.
fn push_region(out: &mut Vec<u8>, deck: &Deck) -> Result<(), NoMemory>
    requires { IsTrue (item_fits deck.now (RegionCard deck.now.limit deck.now.sdwa)) }
    ensures { OnOk result (out.new.items
        ≡ out.old.items ++ region_text deck.now) }
{
    if !has_region(deck) {
        return Ok(());
    }
    let values = two(number(deck.limit), flag(deck.sdwa));
    push_card(out, None, CardForm::Region, &values)
}

fn push_programs(out: &mut Vec<u8>, deck: &Deck) -> Result<(), NoMemory>
    requires { IsTrue (list_all (program_fits deck.now) deck.now.programs) }
    ensures { OnOk result (out.new.items
        ≡ out.old.items ++ flat_map (program_text deck.now) deck.now.programs) }
{
    for program in &deck.programs {
        push_program(out, deck, program)?;
    }
    Ok(())
}

// PROG, the cards of the program, and PEND.
fn push_program(out: &mut Vec<u8>, deck: &Deck, program: &Program) -> Result<(), NoMemory>
    requires { IsTrue (program_fits deck.now program.now) }
    ensures { OnOk result (out.new.items ≡ out.old.items ++ program_text deck.now program.now) }
{
    push_bare_card(out, Some(program.name), CardForm::Prog)?;
    push_lines(out, deck, &program.lines)?;
    push_bare_card(out, None, CardForm::Pend)
}

fn push_lines(out: &mut Vec<u8>, deck: &Deck, lines: &[Line]) -> Result<(), NoMemory>
    requires { IsTrue (list_all (line_fits deck.now) lines.now) }
    ensures { OnOk result
        (out.new.items ≡ out.old.items ++ flat_map (line_text deck.now) lines.now) }
{
    for line in lines {
        push_line(out, deck, line)?;
    }
    Ok(())
}

fn push_line(out: &mut Vec<u8>, deck: &Deck, line: &Line) -> Result<(), NoMemory>
    requires { IsTrue (line_fits deck.now line.now) }
    ensures { OnOk result (out.new.items ≡ out.old.items ++ line_text deck.now line.now) }
{
    push_card(
        out,
        line.label,
        form_of_op(line.op),
        &values_of_op(deck, &line.op),
    )
}

fn push_units(out: &mut Vec<u8>, deck: &Deck) -> Result<(), NoMemory>
    requires { IsTrue (list_all (unit_fits deck.now) deck.now.units) }
    ensures { OnOk result
        (out.new.items ≡ out.old.items ++ flat_map (unit_text deck.now) deck.now.units) }
{
    for unit in &deck.units {
        push_unit(out, deck, unit)?;
    }
    Ok(())
}

// TASK or SRB.
fn push_unit(out: &mut Vec<u8>, deck: &Deck, unit: &Unit) -> Result<(), NoMemory>
    requires { IsTrue (unit_fits deck.now unit.now) }
    ensures { OnOk result (out.new.items ≡ out.old.items ++ unit_text deck.now unit.now) }
{
    let program = program_name(deck, unit.prog);
    match unit.kind {
        UnitKind::Task => push_card(out, Some(unit.name), CardForm::Task, &one(program)),
        UnitKind::Srb => {
            let values = two(program, related_name(deck, unit.related));
            push_card(out, Some(unit.name), CardForm::Srb, &values)
        }
    }
}

// OPER and the commands, where there are any.
fn push_commands(out: &mut Vec<u8>, deck: &Deck) -> Result<(), NoMemory>
    requires { IsTrue (list_all (command_fits deck.now) deck.now.commands) }
    ensures { OnOk result (out.new.items
        ≡ out.old.items ++ commands_text deck.now deck.now.commands) }
{
    if deck.commands.is_empty() {
        return Ok(());
    }
    push_bare_card(out, None, CardForm::Oper)?;
    for command in &deck.commands {
        push_command(out, deck, command)?;
    }
    Ok(())
}

// CANCEL.
fn push_command(out: &mut Vec<u8>, deck: &Deck, command: &Command) -> Result<(), NoMemory>
    requires { IsTrue (command_fits deck.now command.now) }
    ensures { OnOk result (out.new.items ≡ out.old.items ++ command_text deck.now command.now) }
{
    let values = three(
        unit_name(deck, command.target),
        number(command.at),
        flag(command.dump),
    );
    push_card(out, None, CardForm::Cancel, &values)
}
