//! The 48 bytes of an SDWA (this profile). Numbers have their high byte first.

ghost use Rattle.std.specs.Prelude.{◌≡◌, ◌≢◌, ◌+◌, ◌≤◌, ◌++◌, [], ◌∷◌, length, take, drop, slice_index, IsTrue, Some, None, IfSome, IfNone, if◌then◌else◌};
ghost use Rattle.std.specs.Int.{w16, w32, from_be_bytes};
ghost use Rattle.rtm_codes.specs.declared.code.Code.{Code};
ghost use Rattle.rtm_codes.specs.Code.{IsInRange, packed_of};
ghost use Rattle.rtm_model.specs.declared.error_record.ErrorRecord.{ErrorRecord};
ghost use Rattle.rtm_deck_operands.specs.Value.{is_return_code};
ghost use Rattle.rtm_sdwa.specs.Bytes.{bytes_of};
ghost use Rattle.rtm_sdwa.specs.Sdwa.{IsSdwa};

use crate::flags::SdwaFlags;
use crate::label::{self, FIELD_LEN};
use crate::sdwa::Sdwa;
use bitflags::Flags;
use rtm_codes::{Code, packed, unpacked};

// How many bytes an SDWA has.
const SDWA_LEN: usize = 48;

// Where the parts stand behind the eye catcher.
const CODE_AT: usize = 4;

const FIRST_AT: usize = 8;

const REASON_AT: usize = 12;

const FLAGS_AT: usize = 16;

const RC_AT: usize = 18;

const LABEL_AT: usize = 20;

// Writes a part into its place.
fn put(bytes: &mut [u8; SDWA_LEN], at: usize, part: &[u8])
    requires { at + length part.now ≤ 48 }
    ensures { bytes.new ≡ take at bytes.old ++ (part.now ++ drop (at + length part.now) bytes.old) }
{
    bytes[at..at + part.len()].copy_from_slice(part);
}

/// The bytes of the record: the eye catcher `SDWA`, the code, the first code, the reason or 0, the flags, the return
/// code, a zero, the label of the retry or blanks, and twenty zeros.
pub fn sdwa_bytes(sdwa: &Sdwa) -> [u8; SDWA_LEN]
    ensures { result ≡ bytes_of sdwa.now }
{
    let mut bytes = [0; SDWA_LEN];
    put(&mut bytes, 0, b"SDWA");
    put(&mut bytes, CODE_AT, &packed(sdwa.code).to_be_bytes());
    put(&mut bytes, FIRST_AT, &packed(sdwa.first).to_be_bytes());
    put(
        &mut bytes,
        REASON_AT,
        &sdwa.reason.unwrap_or(0).to_be_bytes(),
    );
    put(&mut bytes, FLAGS_AT, &sdwa.flags.bits().to_be_bytes());
    put(&mut bytes, RC_AT, &[sdwa.rc]);
    put(&mut bytes, LABEL_AT, &label::label_field(sdwa.retaddr));
    bytes
}

// The number of four bytes.
fn word_at(bytes: &[u8; SDWA_LEN], at: usize) -> u32
    requires { at + 4 ≤ 48 }
    ensures { result
        ≡ from_be_bytes w32
        (slice_index bytes.now at ∷ slice_index bytes.now (at + 1) ∷ slice_index bytes.now (at + 2) ∷ slice_index bytes.now (at + 3) ∷ []) }
{
    u32::from_be_bytes([bytes[at], bytes[at + 1], bytes[at + 2], bytes[at + 3]])
}

// The number of the two bytes of the flags.
fn flags_at(bytes: &[u8; SDWA_LEN]) -> u16
    ensures { result
        ≡ from_be_bytes w16 (slice_index bytes.now 16 ∷ slice_index bytes.now 17 ∷ []) }
{
    u16::from_be_bytes([bytes[FLAGS_AT], bytes[FLAGS_AT + 1]])
}

// The eight bytes of the label.
fn label_at(bytes: &[u8; SDWA_LEN]) -> [u8; FIELD_LEN]
    ensures { result ≡ take 8 (drop 20 bytes.now) }
{
    let mut field = [0; FIELD_LEN];
    field.copy_from_slice(&bytes[LABEL_AT..LABEL_AT + FIELD_LEN]);
    field
}

// The code of that word; that of normal end where no code has it.
fn code_in(word: u32) -> Code
    ensures in_range { IsInRange result }
    ensures only { (code : Code) → IsInRange code → packed_of code ≡ word → result ≡ code }
{
    match unpacked(word) {
        Some(code) => code,
        None => Code::Sys(0),
    }
}

// The reason, where there is one.
fn reason_in(stands: bool, word: u32) -> Option<u32>
    ensures { result ≡ (if stands then Some word else None) }
{
    if stands { Some(word) } else { None }
}

// The return code; 0 for a byte that is none.
fn rc_in(byte: u8) -> u8
    ensures in_range { IsTrue (is_return_code result) }
    ensures only { IsTrue (is_return_code byte) → result ≡ byte }
{
    if byte == 4 || byte == 16 { byte } else { 0 }
}

// The record whose bytes these are. Where they are those of none, a record which has other bytes.
fn nearest_record(bytes: &[u8; SDWA_LEN]) -> Sdwa
    ensures { (r : ErrorRecord) → IsSdwa r → bytes_of r ≡ bytes.now → result ≡ r }
{
    let flags = SdwaFlags::from_bits_retain(flags_at(bytes)).ten();
    Sdwa {
        code: code_in(word_at(bytes, CODE_AT)),
        first: code_in(word_at(bytes, FIRST_AT)),
        reason: reason_in(flags.reason, word_at(bytes, REASON_AT)),
        flags: SdwaFlags::of(flags),
        rc: rc_in(bytes[RC_AT]),
        retaddr: label::label_in(label_at(bytes)),
    }
}

/// The record that has these bytes. `None` where no record has them.
pub fn sdwa_read(bytes: &[u8; SDWA_LEN]) -> Option<Sdwa>
    // What is read has those bytes.
    ensures found { IfSome result (λ r. bytes_of r ≡ bytes.now) }

    // The bytes of a record give that record.
    ensures only { (r : ErrorRecord) → IsSdwa r → bytes_of r ≡ bytes.now → result ≡ Some r }
    ensures none { IfNone result ((r : ErrorRecord) → IsSdwa r → bytes_of r ≢ bytes.now) }
{
    let sdwa = nearest_record(bytes);
    if sdwa_bytes(&sdwa) == *bytes {
        Some(sdwa)
    } else {
        None
    }
}
