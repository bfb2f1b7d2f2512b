// What documents 01 and 004 say is in specs/; here stand the opcodes, and the refusals, in the order of 01's tables and then of
// the requests that bring them (document 02), and their numbers.
#![tactic(auto)]

pub mod op; // the fourteen opcodes

ghost use Rattle.std.specs.Prelude.{◌≡◌};
ghost use Rattle.documents.specs.Numbers.{number_of};

#[derive(Clone, Copy, Debug, PartialEq, Eq)]
pub enum Refusal {
    TableNotGood = 1,
    TooManyWords = 2,
    TooDeep = 3,
    MetavariableInSubject = 4,
    LeftRootNoSymbol = 5,
    FreeVariable = 6,
    ArgumentsNotDistinctVariables = 7,
    MetavariableAbsentOnLeft = 8,
    TooManyMetavariables = 9,
    CodeTableShort = 10,
    DoesNotPass = 11,
    MatchFails = 12,
    ResultTooLarge = 13,
    ResultTooDeep = 14,
    ResultIndexTooLarge = 15,
    WorkingTableShort = 16,
    BadFile = 17,
    ListTooLong = 37,
}

// The number of a refusal.
impl From<Refusal> for u32 {
    ghost from_gives = { λ refusal number. number ≡ number_of refusal };

    fn from(refusal: Refusal) -> u32 {
        refusal as u32
    }
}
