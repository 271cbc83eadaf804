//! Writing one card.

ghost use Rattle.std.specs.Prelude.{◌≡◌, ◌++◌, ◌∷◌, [], OnOk, Option};
ghost use Rattle.rtm_cards.specs.Text.{line_feed};
ghost use Rattle.rtm_deck_operands.specs.Slot.{FitsSlots};
ghost use Rattle.rtm_deck_items.specs.Forms.{slots_of};
ghost use Rattle.rtm_deck_items.specs.Items.{label_text};
ghost use Rattle.rtm_deck_items.specs.Canon.{card_line};

use rtm_codes::NoMemory;
use rtm_deck_items::{CardForm, Name};
use rtm_deck_operands::{Values, push_name, push_operands};
use rtm_text::push_bytes;

/// Writes a card of that form: its name or nothing, its operation, and the values that aren't at their default.
pub(crate) fn push_card(
    out: &mut Vec<u8>,
    name: Option<Name>,
    form: CardForm,
    values: &Values,
) -> Result<(), NoMemory>
    requires { FitsSlots (slots_of form) values.now.items }
    ensures { OnOk result (out.new.items
        ≡ out.old.items ++ (card_line (label_text name) form values.now.items ++ line_feed ∷ [])) }
{
    push_label(out, name)?;
    out.push(b' ')?;
    push_bytes(out, form.operation())?;
    push_operands(out, form.slots(), values.as_slice())?;
    out.push(b'\n')?;
    Ok(())
}

/// A card without operands.
pub(crate) fn push_bare_card(
    out: &mut Vec<u8>,
    name: Option<Name>,
    form: CardForm,
) -> Result<(), NoMemory>
    requires { slots_of form ≡ [] }
    ensures { OnOk result (out.new.items
        ≡ out.old.items ++ (card_line (label_text name) form [] ++ line_feed ∷ [])) }
{
    push_card(out, name, form, &Values::new())
}

fn push_label(out: &mut Vec<u8>, label: Option<Name>) -> Result<(), NoMemory>
    ensures { OnOk result (out.new.items ≡ out.old.items ++ label_text label) }
{
    match label {
        None => Ok(()),
        Some(name) => push_name(out, &name),
    }
}
