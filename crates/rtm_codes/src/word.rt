//! The word of a completion code, as a record holds it.

ghost use Rattle.std.specs.Prelude.{◌≡◌, ◌≢◌, Some, IfSome, IfNone};
ghost use Rattle.rtm_codes.specs.declared.code.Code.{Code};
ghost use Rattle.rtm_codes.specs.Code.{IsInRange, packed_of};

use crate::code::{Code, GREATEST_NUMBER};

// What a system code's number is multiplied by.
const SYSTEM_UNIT: u32 = 4096;

// What is added to a user code's number, the top bit.
const USER_BIT: u32 = 0x8000_0000;

/// The word of a code in records (this profile): 4096 times a system code's number, or 2147483648
/// and a user code's number.
pub fn packed(code: Code) -> u32
    requires { IsInRange code }
    ensures { result ≡ packed_of code }
{
    match code {
        Code::Sys(number) => u32::from(number) * SYSTEM_UNIT,
        Code::User(number) => USER_BIT + u32::from(number),
    }
}

/// The code in range with this word, or `None` where no code in range has it.
pub fn unpacked(word: u32) -> Option<Code>
    ensures in_range { IfSome result IsInRange }
    ensures found { IfSome result (λ code. packed_of code ≡ word) }

    // The word of a code in range gives that code.
    ensures only { (code : Code) → IsInRange code → packed_of code ≡ word → result ≡ Some code }
    ensures none { IfNone result ((code : Code) → IsInRange code → packed_of code ≢ word) }
{
    let greatest = u32::from(GREATEST_NUMBER);
    if word >= USER_BIT && word - USER_BIT <= greatest {
        Some(Code::User((word - USER_BIT) as u16))
    } else if word % SYSTEM_UNIT == 0 && word / SYSTEM_UNIT <= greatest {
        Some(Code::Sys((word / SYSTEM_UNIT) as u16))
    } else {
        None
    }
}
