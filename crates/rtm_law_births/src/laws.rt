//! What lives after a legal history is what its entries make and no later entry ends. Each law is the contract of a
//! function that does nothing.

ghost use Rattle.std.specs.Prelude.{IsTrue, List};
ghost use Rattle.rtm_deck_items.specs.View.{DeckView};
ghost use Rattle.rtm_deck_items.specs.WellFormed.{is_well_formed};
ghost use Rattle.rtm_model.specs.Legal.{Legal};
ghost use Rattle.rtm_model.specs.declared.entry.Entry.{Entry};
ghost use Rattle.rtm_law_births.specs.Aborts.{AreTheAborts};
ghost use Rattle.rtm_law_births.specs.Brackets.{AreTheBrackets};
ghost use Rattle.rtm_law_births.specs.Errors.{AreTheErrors};
ghost use Rattle.rtm_law_births.specs.Estaes.{AreTheEstaes};
ghost use Rattle.rtm_law_births.specs.Estais.{AreTheEstais};
ghost use Rattle.rtm_law_births.specs.Frrs.{AreTheFrrs};
ghost use Rattle.rtm_law_births.specs.Holdings.{AreTheHoldings};
ghost use Rattle.rtm_law_births.specs.LivingUnits.{AreTheUnits};
ghost use Rattle.rtm_law_births.specs.Managers.{AreTheManagers};
ghost use Rattle.rtm_law_births.specs.RequestBlocks.{AreTheBlocks};

/// The resource managers of a legal history are those that RESMGR ADD has added, until RESMGR DELETE, the routine's
/// LEAVE, or the PURGE of its task.
pub fn managers_are_born_and_die()
    ensures { (d : DeckView) (h : List Entry) → IsTrue (is_well_formed d) → Legal d h
        → AreTheManagers d h }
{}

/// The holdings of a legal history are those that GET has got, until FREE, or a RELEASE at an end.
pub fn holdings_are_born_and_die()
    ensures { (d : DeckView) (h : List Entry) → IsTrue (is_well_formed d) → Legal d h
        → AreTheHoldings d h }
{}

/// The pending aborts of a legal history are those that were queued, until their LAND, or the BEGIN or PURGE of their
/// target.
pub fn aborts_are_born_and_die()
    ensures { (d : DeckView) (h : List Entry) → IsTrue (is_well_formed d) → Legal d h
        → AreTheAborts d h }
{}

/// The FRRs of a legal history are those that SETFRR has made, until SETFRR takes them away, their bracket or they are
/// left, or their unit has its BEGIN or PURGE.
pub fn frrs_are_born_and_die()
    ensures { (d : DeckView) (h : List Entry) → IsTrue (is_well_formed d) → Legal d h
        → AreTheFrrs d h }
{}

/// The ESTAI routines of a legal history are those that ATTACHX has named or a mother has handed on, until they are
/// left, or their unit is left with Stop or has its BEGIN or PURGE.
pub fn estais_are_born_and_die()
    ensures { (d : DeckView) (h : List Entry) → IsTrue (is_well_formed d) → Legal d h
        → AreTheEstais d h }
{}

/// The units of a legal history are the job step task and those that ATTACHX and SCHEDULE have brought to life, until
/// their DONE or PURGE, and the master until its MEMEND.
pub fn units_are_born_and_die()
    ensures { (d : DeckView) (h : List Entry) → IsTrue (is_well_formed d) → Legal d h
        → AreTheUnits d h }
{}

/// The errors of a legal history are those of an ERROR or a LAND, until they are retried, their bracket fails, or their
/// unit has its BEGIN or PURGE; and the record of each is what SETRP, RET15 and the ends of its routines have made of
/// it.
pub fn errors_are_born_and_die()
    ensures { (d : DeckView) (h : List Entry) → IsTrue (is_well_formed d) → Legal d h
        → AreTheErrors d h }
{}

/// The inner brackets of a legal history are those that ENTER has opened, each bare where its ENTER is, until their
/// LEAVE or the PURGE of their unit; the innermost is the newest.
pub fn brackets_are_born_and_die()
    ensures { (d : DeckView) (h : List Entry) → IsTrue (is_well_formed d) → Legal d h
        → AreTheBrackets d h }
{}

/// The request blocks of a legal history are those of a unit's birth, of LINK and of ENTER, until their RETURN, the
/// LEAVE of their bracket, a retry under an older one, or their unit's BEGIN or PURGE; and each stands where the cards
/// that it has executed, and retries, have brought it.
pub fn request_blocks_are_born_and_die()
    ensures { (d : DeckView) (h : List Entry) → IsTrue (is_well_formed d) → Legal d h
        → AreTheBlocks d h }
{}

/// The ESTAE routines of a legal history are those that ESTAEX has made, until ESTAEX takes them away, XCTL does, they
/// are left, or the request block that made them dies.
pub fn estaes_are_born_and_die()
    ensures { (d : DeckView) (h : List Entry) → IsTrue (is_well_formed d) → Legal d h
        → AreTheEstaes d h }
{}
