//! The numbers of what calls of macros give.
ghost use Rattle.std.specs.Prelude.{◌≡◌};
ghost use Rattle.rust_oracle.specs.Numbers.{call_number, code_of};

use def_ids::{Macro2Id, MacroId, MacroRulesId};
use item_tree::MacroCallId;

/// The lower halves of numbers from here on stand for macros whose definitions are not known yet.
const FIRST_UNKNOWN: u32 = 0x8000_0000;

/// The numbers of macros that such a lower half has room for.
const MACROS: usize = 0x4000_0000;

/// Which macro a call's number stands for.
#[derive(Clone, Copy, PartialEq, Eq, Debug)]
pub enum CalledMacro {
    /// The number that was written down of its definition.
    Known(u32),
    /// A macro of which nothing was written down.
    Unknown(MacroId),
}

/// A call's number, taken apart.
#[derive(Clone, Copy, PartialEq, Eq, Debug)]
pub struct CallNumber {
    /// The number of the place where the call stands.
    pub place: u32,
    pub called: CalledMacro,
}

/// The lower half of the number of a call, where nothing was written down of the macro that is found.
/// None where there is no room for its number, and for procedural macros.
pub(crate) fn code_of(id: MacroId) -> Option<u32>
    ensures { result ≡ code_of id }
{
    match id {
        MacroId::MacroRules(rules) => {
            if rules.0 < MACROS {
                Some(FIRST_UNKNOWN + 2 * rules.0 as u32)
            } else {
                None
            }
        }
        MacroId::Macro2(two) => {
            if two.0 < MACROS {
                Some(FIRST_UNKNOWN + 2 * two.0 as u32 + 1)
            } else {
                None
            }
        }
        MacroId::ProcMacro(_) => None,
    }
}

/// The number of a call: that of its place, and then that of its macro.
pub(crate) fn call_number(place: u32, code: u32) -> MacroCallId
    ensures { result ≡ call_number place code }
{
    MacroCallId(place as usize * 0x1_0000_0000 + code as usize)
}

impl CallNumber {
    /// The number of what a call gives, at a place and by a macro whose definition has a number.
    pub fn known(place: u32, definition: u32) -> MacroCallId {
        call_number(place, definition)
    }

    /// Takes a number apart.
    pub fn of(call: MacroCallId) -> CallNumber {
        let place = (call.0 >> 32) as u32;
        let code = (call.0 & 0xffff_ffff) as u32;
        let called = match code.checked_sub(FIRST_UNKNOWN) {
            None => CalledMacro::Known(code),
            Some(rest) => {
                let number = (rest / 2) as usize;
                CalledMacro::Unknown(if rest % 2 == 0 {
                    MacroId::MacroRules(MacroRulesId(number))
                } else {
                    MacroId::Macro2(Macro2Id(number))
                })
            }
        };
        CallNumber { place, called }
    }
}
