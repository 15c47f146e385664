//! A whole game that four built-in players play against each other, and what it comes to.
#![tactic(auto)]

ghost use Rattle.mj_selfplay.specs.Laws.{WholeGameIsOne, WholeGamesArePlayed};

mod game;
mod supply;
mod tally;
mod text;

pub use game::self_play;
pub use tally::Summary;
pub use text::summary_lines;

/// There is one whole game for some walls: two in which every window is answered by the choices of the four seats are the same
/// deeds, for each choice is one, and nothing follows the end of the game.
pub fn whole_game_is_one()
    ensures { WholeGameIsOne }
{}

/// The deeds of a whole game that four built-in players play are played, each given by four lawful answers, where there are walls
/// and all of them are whole.
pub fn whole_games_are_played()
    ensures { WholeGamesArePlayed }
{}
