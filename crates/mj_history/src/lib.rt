//! The history of a game, as definitions: what entries come to, which are permitted, who sits, what an input and a record
//! hold, and what a game shows to those who play it; and the laws over them. Nothing here runs: the functions are the places
//! where the laws are stated.
#![tactic(auto)]

ghost use Rattle.mj_history.specs.Laws.{ReadGamesAreLegal, LegalGamesArePlayed, TakenAnswersAreLawful, OwnPartCanGoOn, NextDeedIsPlayed, LegalDeedsFit, NextDeedFits};
ghost use Rattle.mj_history.specs.Told.{ToldAnswersGive, EachWinnerIsTold, NothingPlayed};
ghost use Rattle.mj_history.specs.Seated.{BeginningsAreLegal, LinesStay, EndedConnectionsStay, OthersLeaveAlone, SeatsBegin};
ghost use Rattle.mj_history.specs.Seated.{ReturnsBegin, AnswersGoByVerdict, SeatsLeave, SeatsAreClosed, ScriptsByPlace};
ghost use Rattle.mj_history.specs.Arriving.{OneDeedAnEntry, LawfulAnswersAreTaken, NewNamesAreSeated, ExpiriesClose};
ghost use Rattle.mj_history.specs.Edges.{FourStart, TheFourthStarts, ReturnsAreSeated};
ghost use Rattle.mj_history.specs.Order.{OrderIsFree};
ghost use Rattle.mj_history.specs.Windows.{SlotsHoldTheTaken, WindowsDecide, AnyOrderLiesIn, AnyOrderIsFree};

/// Whatever an input holds, the game that is read off it is legal.
pub fn read_games_are_legal()
    ensures { ReadGamesAreLegal }
{}

/// The deeds of a legal game are played: the first starts it with four different good names, and each later one is what four
/// lawful answers give.
pub fn legal_games_are_played()
    ensures { LegalGamesArePlayed }
{}

/// Each answer that a legal game has taken in the window on its newest deed is lawful for its seat: it is in form and breaks
/// no rule.
pub fn taken_answers_are_lawful()
    ensures { TakenAnswersAreLawful }
{}

/// Once an entry whose answer is in form has changed what is its own seat's, and before a deed is
/// added, the deeds are played and the answers in the slots lawful, and so are all four with the
/// default answer in each empty slot.
pub fn own_part_can_go_on()
    ensures { OwnPartCanGoOn }
{}

/// The deeds of a legal game are played with the deed that a permitted entry adds.
pub fn next_deed_is_played()
    ensures { NextDeedIsPlayed }
{}

/// Every deed of a legal game fits after the deeds before it: the tiles of a wall are brought in from different places, so
/// no kind has a fifth tile; a seat puts down what it holds, and so has never more than four melds.
pub fn legal_deeds_fit()
    ensures { LegalDeedsFit }
{}

/// The deed that a permitted entry adds to a legal game fits after the deeds of that game.
pub fn next_deed_fits()
    ensures { NextDeedFits }
{}

/// What a deed tells of the answers that gave it is enough: wherever some four lawful answers give a deed after played deeds,
/// the four that are read off the deed are lawful and give it too.
pub fn told_answers_give()
    ensures { ToldAnswersGive }
{}

/// A win that isn't after another tells of the winner and of each seat of `rest` that it wins on a tile of the target; the
/// tile isn't named.
pub fn each_winner_is_told()
    ensures { EachWinnerIsTold }
{}

/// The summary of no deeds has no deeds, 30,000 points for each seat and no deposits.
pub fn nothing_played()
    ensures { NothingPlayed }
{}

/// What was legal stays legal when later entries are left out.
pub fn beginnings_are_legal()
    ensures { BeginningsAreLegal }
{}

/// Lines stay as they are, and so does the end of a game, after which no deed comes.
pub fn lines_stay()
    ensures { LinesStay }
{}

/// A connection that has ended is told nothing more.
pub fn ended_connections_stay()
    ensures { EndedConnectionsStay }
{}

/// An entry of another author or seat leaves a present seat alone: it stays present by its author, with its due deed, and
/// what its connection was told stays the same.
pub fn others_leave_alone()
    ensures { OthersLeaveAlone }
{}

/// A seat that is taken begins a connection with the hello line.
pub fn seats_begin()
    ensures { SeatsBegin }
{}

/// A seat that is taken back begins a connection with the hello line, the replay head, and the lines before its due deed.
pub fn returns_begin()
    ensures { ReturnsBegin }
{}

/// An answer of a seat goes by its verdict: the seat goes on to the next deed, is asked again, or leaves; and its connection is
/// told what was pending, and then why, where the answer is refused.
pub fn answers_go_by_verdict()
    ensures { AnswersGoByVerdict }
{}

/// A seat that is gone leaves, and its connection is told nothing but what was pending.
pub fn seats_leave()
    ensures { SeatsLeave }
{}

/// Once the game is over, each line that wants a seat is refused.
pub fn seats_are_closed()
    ensures { SeatsAreClosed }
{}

/// An entry adds at most one deed.
pub fn one_deed_an_entry()
    ensures { OneDeedAnEntry }
{}

/// Every lawful answer of a present seat to the prompt of the newest deed is taken.
pub fn lawful_answers_are_taken()
    ensures { LawfulAnswersAreTaken }
{}

/// Every join under a new name is given the next seat, as long as there is one and the game goes on.
pub fn new_names_are_seated()
    ensures { NewNamesAreSeated }
{}

/// Every expiry of the open window with at least the limit between its readings closes it.
pub fn expiries_close()
    ensures { ExpiriesClose }
{}

/// In one window in which nobody comes, goes or runs out of time, the order of answers makes no difference: any two orders of
/// the same accepted answers, with any refused ones between, give equal deeds, slots and due prompts.
pub fn order_is_free()
    ensures { OrderIsFree }
{}

/// The script of each connection, found by the place of the entry by which its seat sat down or came
/// back, is what the seat is told in it.
pub fn scripts_by_place()
    ensures { ScriptsByPlace }
{}

/// The slot of a seat, 0 to 3, holds exactly the answer of the seat that was taken since the newest deed, and is empty where
/// there is none.
pub fn slots_hold_the_taken()
    ensures { SlotsHoldTheTaken }
{}

/// Each deed of a legal game but the first is what the answers to its own window come to: those that were taken in it, and the
/// default of each seat that has given none.
pub fn windows_decide()
    ensures { WindowsDecide }
{}

/// Answers that could be said in the open window, each seat by itself, lie in that window in whatever order they come, and are
/// accepted as each seat by itself would have them: no answer closes it while another is still to come.
pub fn any_order_lies_in()
    ensures { AnyOrderLiesIn }
{}

/// Of answers that lie in one window any other order lies in it too, with any refused ones between that stay below sixteen at
/// each prompt, and comes to the same deeds, slots and due prompts.
pub fn any_order_is_free()
    ensures { AnyOrderIsFree }
{}

/// A game has a deed exactly where four have sat down.
pub fn four_start()
    ensures { FourStart }
{}

/// Who sits down as the fourth adds the start of the game, with the four names in the order of the seats.
pub fn the_fourth_starts()
    ensures { TheFourthStarts }
{}

/// Every join under the name and the key of a seat that may be taken back is given that seat.
pub fn returns_are_seated()
    ensures { ReturnsAreSeated }
{}
