//! The flags of a record, and their bits.

ghost use Rattle.std.specs.Prelude.{⊤, ◌≡◌, ◌≤◌, [], ◌∷◌, codes};
ghost use Rattle.rtm_sdwa.specs.Flags.{word_of, bit_where, word_in, ten_in, HasFlagsAlone};

use bitflags::{Flag, Flags, bitflag_items};
use rtm_model::RecordFlags;

/// The flags of an SDWA as a word of 16 bits, of which ten have a meaning (this profile).
#[derive(Clone, Copy, Debug, PartialEq, Eq)]
pub struct SdwaFlags(u16);

bitflag_items! {
    impl SdwaFlags: u16 {
        // No retry.
        const CLUP = 0x8000;
        // A routine has percolated.
        const PERC = 0x4000;
        // A routine has failed.
        const STAF = 0x2000;
        // The job step is to end.
        const STEP = 0x1000;
        // There is a reason code.
        const REASON = 0x0800;
        // Routines with TERM=YES alone are eligible.
        const TERMONLY = 0x0400;
        // A dump is asked for.
        const DUMP = 0x0200;
        // The routine is to be removed at a retry.
        const REMREC = 0x0100;
        // The record is to be logged.
        const LOGREC = 0x0080;
        // The record's storage is to be freed.
        const FRESDWA = 0x0040;
    }
}

impl Flags for SdwaFlags {
    type Bits = u16;

    ghost exact = { ⊤ };

    ghost table = { (codes "CLUP", 0x8000) ∷ (codes "PERC", 0x4000) ∷ (codes "STAF", 0x2000) ∷ (codes "STEP", 0x1000)
        ∷ (codes "REASON", 0x0800) ∷ (codes "TERMONLY", 0x0400) ∷ (codes "DUMP", 0x0200) ∷ (codes "REMREC", 0x0100)
        ∷ (codes "LOGREC", 0x0080) ∷ (codes "FRESDWA", 0x0040) ∷ [] };

    ghost set_of = { λ flags. flags.0 };

    fn flags<'a>() -> &'a [Flag<SdwaFlags>] {
        SdwaFlags::FLAGS
    }

    fn bits(&self) -> u16 {
        self.0
    }

    fn from_bits_retain(bits: u16) -> SdwaFlags {
        SdwaFlags(bits)
    }
}

// The flag's bit where it stands, else 0.
fn bit_where(bit: u16, flag: bool) -> u16
    ensures value { result ≡ bit_where bit flag }
    ensures bound { result ≤ bit }
{
    if flag { bit } else { 0 }
}

impl SdwaFlags {
    /// The word in which those flags stand, and no other bit.
    #[tactic(auto, using(crate::proofs::Words::flags_again))]
    pub fn of(flags: RecordFlags) -> SdwaFlags
        ensures word { word_in result ≡ word_of flags }
        ensures flags { ten_in result ≡ flags }
        ensures alone { HasFlagsAlone (word_in result) }
    {
        let first = bit_where(0x8000, flags.clup)
            + bit_where(0x4000, flags.perc)
            + bit_where(0x2000, flags.staf)
            + bit_where(0x1000, flags.step);
        SdwaFlags(
            first
                + bit_where(0x0800, flags.reason)
                + bit_where(0x0400, flags.term_only)
                + bit_where(0x0200, flags.dump)
                + bit_where(0x0100, flags.remrec)
                + bit_where(0x0080, flags.logrec)
                + bit_where(0x0040, flags.fresdwa),
        )
    }

    /// Which of the ten flags stand in the word.
    pub fn ten(self) -> RecordFlags
        ensures { result ≡ ten_in self }
    {
        RecordFlags {
            clup: self.contains(SdwaFlags::CLUP),
            perc: self.contains(SdwaFlags::PERC),
            staf: self.contains(SdwaFlags::STAF),
            step: self.contains(SdwaFlags::STEP),
            reason: self.contains(SdwaFlags::REASON),
            term_only: self.contains(SdwaFlags::TERMONLY),
            dump: self.contains(SdwaFlags::DUMP),
            remrec: self.contains(SdwaFlags::REMREC),
            logrec: self.contains(SdwaFlags::LOGREC),
            fresdwa: self.contains(SdwaFlags::FRESDWA),
        }
    }
}
