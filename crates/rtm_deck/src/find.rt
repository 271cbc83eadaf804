//! Finding what cards name.

ghost use Rattle.std.specs.Prelude.{◌≡◌, ◌≤◌, [], length, drop, OnOk, IfOk, IfErr, Option, Some, None};
ghost use Rattle.rtm_deck_operands.specs.declared.slot.Kind.TheVariants as kinds;
ghost use Rattle.rtm_deck_items.specs.Faults.{why_of_name};
ghost use Rattle.rtm_deck.specs.inner.Seen.{has_name};
ghost use Rattle.rtm_deck.specs.inner.References.{finds, unfound, first_unfound, labels_onto, own_labels, first_nameless, refusal};
ghost use Rattle.rtm_deck.specs.inner.Reader.{Finds};

use crate::card::Read;
use crate::fault::DeckFault;
use crate::role::role_of;
use crate::seen::{Seen, put_name};
use indexmap::IndexSet;
use rtm_codes::NoMemory;
use rtm_deck_items::{Name, Why};
use rtm_deck_operands::{Kind, NameOf, Slot, Value};
use std::alloc::Global;

// Whether the name is there, with these labels of the own program.
fn finds(seen: &Seen, own: &IndexSet<Name>, named: NameOf, name: &Name) -> bool
    ensures { result ≡ finds seen.now own.now.keys named name.now }
{
    match named {
        NameOf::Program => seen.programs.contains(name),
        NameOf::Task => seen.tasks.contains(name),
        NameOf::Srb => seen.srbs.contains(name),
        NameOf::OwnLabel => own.contains(name),
        NameOf::AnyLabel => seen.labels.contains(name),
    }
}

// The fault of a name that isn't there.
fn why_of_name(named: NameOf) -> Why
    ensures { result ≡ why_of_name named }
{
    match named {
        NameOf::Program | NameOf::Task | NameOf::Srb => Why::UnknownName,
        NameOf::OwnLabel | NameOf::AnyLabel => Why::UnknownLabel,
    }
}

// The fault of a value that names what isn't there.
fn unfound_value(seen: &Seen, own: &IndexSet<Name>, named: NameOf, value: Value) -> Option<Why>
    ensures { result ≡ unfound seen.now own.now.keys (kinds.Name named) (Some value) }
{
    match value {
        Value::Name(name) => {
            if finds(seen, own, named, &name) {
                None
            } else {
                Some(why_of_name(named))
            }
        }
        _ => None,
    }
}

// The same of a value of that kind, where one is given.
fn unfound(seen: &Seen, own: &IndexSet<Name>, kind: Kind, value: Option<Value>) -> Option<Why>
    ensures { result ≡ unfound seen.now own.now.keys kind value }
{
    let Kind::Name(named) = kind else {
        return None;
    };
    match value {
        None => None,
        Some(value) => unfound_value(seen, own, named, value),
    }
}

// The fault of the first of the values of these slots that names what isn't there. A table has at most eight slots.
fn first_unfound(
    seen: &Seen,
    own: &IndexSet<Name>,
    slots: &[Slot],
    values: &[Option<Value>],
) -> Option<Why>
    ensures { result ≡ first_unfound seen.now own.now.keys slots.now values.now }
{
    let [slot, others @ ..] = slots else {
        return None;
    };
    let [value, rest @ ..] = values else {
        return None;
    };
    match unfound(seen, own, slot.kind, *value) {
        Some(why) => Some(why),
        None => first_unfound(seen, own, others, rest),
    }
}

// Puts the labels of the cards up to the first that is none of a program behind the others.
fn put_labels(labels: &mut IndexSet<Name>, reads: &[Read]) -> Result<(), NoMemory>
    ensures { OnOk result (labels.new.keys ≡ labels_onto labels.old.keys reads.now) }
{
    for read in reads {
        if !role_of(read.form).is_line() {
            return Ok(());
        }
        put_name(labels, &read.name)?;
    }
    Ok(())
}

// Behind PROG the labels of the cards that follow; else they stay.
fn put_own_labels(own: &mut IndexSet<Name>, read: &Read, others: &[Read]) -> Result<(), NoMemory>
    ensures { OnOk result (own.new.keys ≡ own_labels own.old.keys read.now others.now) }
{
    if !role_of(read.form).is_program() {
        return Ok(());
    }
    own.clear();
    put_labels(own, others)
}

/// Nothing, where all that the cards name is there; else the least card that names what isn't.
pub(crate) fn find_names(alloc: Global, seen: &Seen, reads: &[Read]) -> Result<(), DeckFault>
    ensures { Finds result (first_nameless seen.now [] reads.now) }
{
    let mut own = IndexSet::new(alloc);
    for (i, read) in reads.iter().enumerate() {
        put_own_labels(&mut own, read, &reads[i + 1..])?;
        if let Some(why) = first_unfound(seen, &own, read.form.slots(), &read.values) {
            return Err(DeckFault::Refused {
                card: read.number,
                why,
            });
        }
    }
    Ok(())
}
