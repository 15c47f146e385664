//! The rules of play as definitions: which rule an answer breaks, which deed follows a closed window, and which deeds are
//! played. Nothing here runs: the functions are the places where the laws are stated.
#![tactic(auto)]

ghost use Rattle.mj_rules.specs.Accepted.{AcceptedOfDiscard};
ghost use Rattle.mj_rules.specs.Hands.{CompleteIsFound, WaitsAreFound, ReadyIsFound, ReadingsAreFound, WorthIsFound};
ghost use Rattle.mj_rules.specs.Hands.{KansAreFound, SeatWaitsAreFound, NoYakuIsFound, LawfulWinsAreGreatest};
ghost use Rattle.mj_rules.specs.Laws.{EachIsWall, PlayedWithOneMore, PlayedWithoutTheLast, PlayedDeedsFit, NextOfPlayedFits, SomeDeedFollows, SomeDiscardIsLawful, FittingDefaultIsLawful};
ghost use Rattle.mj_rules.specs.Laws.{PlayedDefaultIsLawful, TotalStays, FewDeeds, FewDraws, PlainIsListed, ListedIsPlain, ListedInTurn, PlayedInTurn};
ghost use Rattle.mj_rules.specs.Paid.{LawfulWinsAreWorth, FirstRonIsPaid, FurtherRonsArePaid, OwnWinIsPaid};
ghost use Rattle.mj_rules.specs.Precedence.{AllWinsCome, OnePonOrKan, OneChi, PonOrKanComes, ChiComes, NothingIsCalled, KeptCallComes};
ghost use Rattle.mj_rules.specs.Said.{PointsAreRead};

/// Where there is a wall and all walls are whole, the one that each hand is played with is.
pub fn each_is_wall()
    ensures { EachIsWall }
{}

/// Deeds are played with one more exactly where they are played and the one is played after them: a start of a game after
/// none, and else what some four lawful answers give.
pub fn played_one_by_one()
    ensures more { PlayedWithOneMore }
    ensures less { PlayedWithoutTheLast }
{}

/// Every deed of a played game fits after the deeds before it: the tiles of a wall are brought in from different places, so
/// no kind has a fifth tile; a seat puts down what it holds, and so has never more than four melds.
pub fn played_deeds_fit()
    ensures { PlayedDeedsFit }
{}

/// The deed that four lawful answers give after played deeds fits there, and the deeds are played with it too.
pub fn next_of_played_fits()
    ensures { NextOfPlayedFits }
{}

/// After played deeds four lawful answers give a deed, until the end of the game: no game is stuck.
pub fn some_deed_follows()
    ensures { SomeDeedFollows }
{}

/// In played deeds a seat that has to discard right after its own reach, chi or pon has a discard that breaks no rule: no
/// reach and no call is lawful that leaves it none.
pub fn some_discard_is_lawful()
    ensures { SomeDiscardIsLawful }
{}

/// The default answer of a seat, 0 to 3, is lawful in played deeds: it is in form and breaks no rule. So it is where each
/// deed fits after those before it, as long as some discard right after its own reach or call breaks none.
pub fn default_is_lawful()
    ensures fitting { FittingDefaultIsLawful }
    ensures played { PlayedDefaultIsLawful }
{}

/// In played deeds the points of the four seats and 1,000 for each deposit on the table are 120,000 together: what a seat
/// gains another pays, or it comes from the table.
pub fn points_stay()
    ensures { TotalStays }
{}

/// In played deeds a hand has at most 300 deeds, and a game at most 60,002: no hand goes on without drawing, calling or
/// discarding tiles, of which there are few, and a game has at most 200 hands.
pub fn few_deeds()
    ensures { FewDeeds }
{}

/// A plain answer is in the list of possible answers of a seat exactly where it is lawful, and no other answer is there. The
/// list stands in turn: by type, within a type by the tiles in tile order, so that no answer stands there twice. That asks that no two
/// triplets of the seat are of one kind, as they never are after played deeds.
pub fn lawful_answers_are_listed()
    ensures listed { PlainIsListed }
    ensures plain { ListedIsPlain }
    ensures in_turn { ListedInTurn }
    ensures played { PlayedInTurn }
{}

/// All who win on a discard or on the tile of an added kan win, in turn order after its seat, and nothing else comes.
pub fn all_wins_come()
    ensures { AllWinsCome }
{}

/// Of four lawful answers to a discard at most one is a pon or an open kan, and at most one a chi.
pub fn one_call_of_a_kind()
    ensures triplet { OnePonOrKan }
    ensures run { OneChi }
{}

/// Where nobody wins on a discard, a pon or an open kan comes before a chi, and a chi before the next draw; where a reason to draw
/// the hand holds, it comes before all of them, and a reach is accepted first and keeps the call.
pub fn calls_come_in_order()
    ensures triplet { PonOrKanComes }
    ensures run { ChiComes }
    ensures none { NothingIsCalled }
    ensures kept { KeptCallComes }
{}

/// A lawful win is worth something, whatever the dora: its hand, as the seat holds it, has a reading with a yaku.
pub fn lawful_wins_are_worth()
    ensures { LawfulWinsAreWorth }
{}

/// A lawful win is paid by what it is worth by the view by which its answer is judged: the first on a tile and a win on the own
/// draw with the honba and the deposits, and each further one on a tile without them. The winner shows its concealed tiles but for the
/// one that is won on, and in riichi the hidden indicators under the shown ones; the deed lists each yaku with its han and the dora,
/// and its value is what the winner gets without honba and deposits.
pub fn wins_are_paid()
    ensures first { FirstRonIsPaid }
    ensures further { FurtherRonsArePaid }
    ensures own { OwnWinIsPaid }
{}

/// The points that a played deed says of a seat are those that are read off the deeds with it: 30,000 and what each deed changes.
pub fn points_are_read()
    ensures { PointsAreRead }
{}

/// In played deeds the live draws and the kans of a hand are at most 70 together, the kans at most four, and so are the melds of a
/// seat.
pub fn few_draws()
    ensures { FewDraws }
{}

/// A reach is accepted right after a discard of its own seat, which stands right after its own reach: that discard is what it
/// comes of.
pub fn reaches_are_accepted()
    ensures { AcceptedOfDiscard }
{}

/// For all counts of a hand, what is found by a walk over them is what the sentences on hands say: that the hand is complete, that
/// a kind is a wait, that the hand is ready, all of its readings and no others, and what it is worth: the greatest score of those
/// that have a yaku.
pub fn walks_find_hands()
    ensures complete { CompleteIsFound }
    ensures waits { WaitsAreFound }
    ensures ready { ReadyIsFound }
    ensures readings { ReadingsAreFound }
    ensures worth { WorthIsFound }
{}

/// A lawful win is of a complete hand, and worth the greatest score of the readings of its tiles that have a yaku.
pub fn lawful_wins_are_greatest()
    ensures { LawfulWinsAreGreatest }
{}

/// The rules that look at a whole hand, for all counts: a concealed kan in riichi is found lawful exactly where it leaves the waits
/// and how the hand reads, the kinds that a seat may miss are exactly its waits, and a win is found to have no yaku exactly where no
/// reading has one.
pub fn rules_go_by_hands()
    ensures kan { KansAreFound }
    ensures waits { SeatWaitsAreFound }
    ensures yaku { NoYakuIsFound }
{}
