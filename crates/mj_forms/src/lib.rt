//! The forms of lines, as definitions: what the line of a deed, a header or a wall says, and what a line of a player reads as.
//! No rule of play stands here. Nothing here runs: the functions are the places where the laws are stated.
#![tactic(auto)]

ghost use Rattle.mj_forms.specs.Laws.{AnswersThatAreReadAreInForm, LinesAreOfMasks, LinesClose, ListsAreWritten};

/// Whatever a line says, it reads as an answer in form: the own tiles that it names together stand in tile order, hidden ones
/// last.
pub fn answers_that_are_read_are_in_form()
    ensures { AnswersThatAreReadAreInForm }
{}

/// The line of a deed for a viewer is a function of the deed as the viewer sees it.
pub fn lines_are_of_masks()
    ensures { LinesAreOfMasks }
{}

/// The line of a deed ends with a brace and a newline, between which and the rest a seat's line has the list of answers.
pub fn lines_close()
    ensures { LinesClose }
{}

/// A list of answers as it is written.
pub fn lists_are_written()
    ensures { ListsAreWritten }
{}
