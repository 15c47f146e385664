//! The answers of a check are exact: a law of the texts alone.

ghost use Rattle.mj_replay.specs.Checks.{AnswersAreExact};

/// What `check` says of a text is the one thing that can be said of it. The call does nothing.
pub fn answers_are_exact()
    ensures { AnswersAreExact }
{}
