ghost use Rattle.std.specs.Prelude.{◌≡◌, ℕ, List, Option, true, false};
ghost use Rattle.mj_deeds.specs.declared.answer.Answer.{Answer};
ghost use Rattle.mj_deeds.specs.declared.four.Four.{Four};
ghost use Rattle.mj_history.specs.After.{Taken, slots_after};
ghost use Rattle.mj_seating.specs.Sitting.{Occupant};
ghost use Rattle.mj_umpire.specs.Inner.States.{desk_after};
ghost use Rattle.mj_umpire.specs.Inner.Verdicts.{verdict_given};

use mj_deeds::Rule;

// The verdict on an answer.
#[derive(Clone, Copy, Debug, PartialEq, Eq)]
pub enum Verdict {
    Taken,
    Late,
    Refused(Rule),
    Closing(Rule),
}

impl Verdict {
    // Whether the answer is taken. Any other leaves the slots as they are.
    pub fn is_taken(&self) -> bool
        ensures taken { result ≡ true → verdict_given self.now ≡ Taken }
        ensures other { result ≡ false → (slots : Four (Option Answer)) (seat : ℕ) (answer : Answer)
            → slots ≡ slots_after (verdict_given self.now) slots seat answer }
    {
        match self {
            Verdict::Taken => true,
            Verdict::Late => false,
            Verdict::Refused(_) => false,
            Verdict::Closing(_) => false,
        }
    }

    // Whether the answer is refused for good. Any other leaves the desk as it is.
    pub fn is_closing(&self) -> bool
        ensures { result ≡ false → (desk : List Occupant) (seat : ℕ)
            → desk ≡ desk_after (verdict_given self.now) desk seat }
    {
        match self {
            Verdict::Taken => false,
            Verdict::Late => false,
            Verdict::Refused(_) => false,
            Verdict::Closing(_) => true,
        }
    }
}
