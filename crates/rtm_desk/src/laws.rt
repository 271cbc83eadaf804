//! Laws of what the managers are told. Each function does nothing: its contract is the law, for every history.

ghost use Rattle.std.specs.Prelude.{◌≡◌, ◌++◌, ◌∷◌, [], List, map};
ghost use Rattle.rtm_model.specs.declared.entry.Entry.{Entry};
ghost use Rattle.rtm_desk.specs.Told.{classes, tell_of, told_by};

/// Of no entry nobody is told.
pub fn nothing_is_told_at_first()
    ensures { told_by [] ≡ map (λ class. (class, [])) classes }
{}

/// One entry more: the release of a resource is told once, to the manager of its class, behind what that one was told
/// before; any other entry is told to nobody.
pub fn an_entry_tells_one_more()
    ensures { (history : List Entry) (e : Entry) → told_by (history ++ e ∷ [])
        ≡ tell_of e.what (told_by history) }
{}
