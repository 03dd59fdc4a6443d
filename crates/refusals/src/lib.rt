// The causes of refusal that have a number, as an error: what an operation answers in place of its result.
#![tactic(auto)]

ghost use Rattle.std.specs.Prelude.{◌≡◌};
ghost use Rattle.refusals.specs.Answers.{number_of};

// Each cause, in the order of its number, from 1.
#[derive(Clone, Copy, Debug, PartialEq, Eq)]
pub enum Refusal {
    LentTooShort,
    WrongSections,
    TooManyEntries,
    WrongTypes,
    WrongStatement,
    TypesDisagree,
    WrongImmediate,
    WrongBlocks,
    TooManyNodes,
    TooManyConjuncts,
    NeverSettles,
    WrongCondition,
    WrongInput,
    TooManyCombinations,
    BlankField,
    WrongProcedures,
}

// A refusal's number.
impl From<Refusal> for u8 {
    ghost from_gives = { λ r n. n ≡ number_of r };

    fn from(refusal: Refusal) -> u8 {
        match refusal {
            Refusal::LentTooShort => 1,
            Refusal::WrongSections => 2,
            Refusal::TooManyEntries => 3,
            Refusal::WrongTypes => 4,
            Refusal::WrongStatement => 5,
            Refusal::TypesDisagree => 6,
            Refusal::WrongImmediate => 7,
            Refusal::WrongBlocks => 8,
            Refusal::TooManyNodes => 9,
            Refusal::TooManyConjuncts => 10,
            Refusal::NeverSettles => 11,
            Refusal::WrongCondition => 12,
            Refusal::WrongInput => 13,
            Refusal::TooManyCombinations => 14,
            Refusal::BlankField => 15,
            Refusal::WrongProcedures => 16,
        }
    }
}
