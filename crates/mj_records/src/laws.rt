//! What is written of a deed is read again: laws of the texts alone.

ghost use Rattle.mj_records.specs.Laws.{FieldsAreRead, ActsAreRead, CallsAreRead, GameStartsAreRead, ReachesAreRead, HandStartsAreRead, WinsAreRead, DrawnHandsAreRead, ReadDeedsTellTheSame};

/// What is written of a field is read again, whatever stands after it. The call does nothing.
pub fn fields_are_read()
    ensures { FieldsAreRead }
{}

/// The line of a draw, a discard, a reach, a new indicator and an end of a hand is read again. The call does nothing.
pub fn acts_are_read()
    ensures { ActsAreRead }
{}

/// The line of a call, a kan and an end of a game is read again. The call does nothing.
pub fn calls_are_read()
    ensures { CallsAreRead }
{}

/// The line of a start of a game is read again. The call does nothing.
pub fn game_starts_are_read()
    ensures { GameStartsAreRead }
{}

/// The line of an accepted reach is read again. The call does nothing.
pub fn reaches_are_read()
    ensures { ReachesAreRead }
{}

/// The line of a start of a hand is read again. The call does nothing.
pub fn hand_starts_are_read()
    ensures { HandStartsAreRead }
{}

/// The line of a win is read again. The call does nothing.
pub fn wins_are_read()
    ensures { WinsAreRead }
{}

/// The line of a drawn hand is read again. The call does nothing.
pub fn drawn_hands_are_read()
    ensures { DrawnHandsAreRead }
{}

/// A deed is read of each deed's line: one with the same line, which tells of the same answers. The call does nothing.
pub fn read_deeds_tell_the_same()
    ensures { ReadDeedsTellTheSame }
{}
