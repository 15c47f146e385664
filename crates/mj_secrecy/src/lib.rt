//! What a seat learns of a game, as definitions, and the laws that it is told no more: games that agree for a seat tell it the
//! same. Nothing here runs: the functions are the places where the laws are stated.
#![tactic(auto)]

ghost use Rattle.mj_secrecy.specs.Laws.{AgreeingGamesTellTheSame, AgreeingConnectionsAreTheSame};
ghost use Rattle.mj_secrecy.specs.Safe.{SafeInEveryGame};
ghost use Rattle.mj_secrecy.specs.Witness.{SomeAgreeApart};
ghost use Rattle.mj_secrecy.specs.Bare.{TokensHoldNoMore};
ghost use Rattle.mj_secrecy.specs.Follows.{FactsFollow, VerdictsFollow, LinesFollow, BeginningsAgree};

/// The law of one world: what a game tells a seat, over all its connections, depends on nothing but
/// what the seat learns of it, so two games that agree for a seat tell it the same bytes.
pub fn agreeing_games_tell_the_same()
    ensures { AgreeingGamesTellTheSame }
{}

/// The law of one world, connection by connection: two games that agree for a seat have as many
/// connections of it, and tell each of them the same bytes.
pub fn agreeing_connections_are_the_same()
    ensures { AgreeingConnectionsAreTheSame }
{}

/// Facts follow: in two games that agree for a seat of the four the facts that it may know are the
/// same: the points of all, the deposits, the honba, the dealer, the round and the hand; the live
/// tiles, the kans, the indicators, every river and meld, every riichi and ippatsu, the kinds that
/// each let pass; its own tiles, those that it sees, and which kinds are safe for it and why;
/// and its slot, its presence, its due prompt and how many of its answers to that were refused.
pub fn facts_follow()
    ensures { FactsFollow }
{}

/// Verdicts follow: in two games that agree for a seat of the four all that the seat said had the
/// same verdicts, in order, and so has whatever it may say next: it breaks the same rules, the same
/// one first, and is late, refused, refused for good or taken in both. The answer that stands where
/// the seat gives none is the same too.
pub fn verdicts_follow()
    ensures { VerdictsFollow }
{}

/// Lines follow: in two games that agree for a seat of the four the seat's line of each deed is the
/// same, and so is its token; and after any number of deeds all that the numbers of a win or of a
/// drawn hand are made of is the same, beside what the deed's own token tells.
pub fn lines_follow()
    ensures { LinesFollow }
{}

/// Safe tiles stay safe: where a seat of the four has a reason why a kind is safe against another, then in every legal game that
/// goes on, by a discard of this kind, from a game that agrees for the seat, no win of that other seat is lawful in the window on
/// the discard.
pub fn safe_tiles_stay_safe()
    ensures { SafeInEveryGame }
{}

/// Beginnings agree: two legal games under the same switches, of which a seat learns the same up to
/// some deed, begin with games that agree for the seat and of which it learns just this. So facts,
/// verdicts, lines and scripts are the same up to the last deed before what the seat learns differs.
pub fn beginnings_agree()
    ensures { BeginningsAgree }
{}

/// The law has games to speak of: for each seat of the four two games agree that differ in the walls and their number, and so in
/// what other seats are dealt and draw, in the limit of a window, in the authors, in the order in which the other seats answer, and
/// in that in one of them an answer of another seat is refused, another seat bids for a discard and isn't given it, another seat
/// leaves and comes back, and the time of a window runs out.
pub fn some_games_agree_apart()
    ensures { SomeAgreeApart }
{}

/// The token of a deed holds nothing but what the seat sees and can't reckon: it is the same whatever the points, the honba,
/// the deposits, the round and the dealer, the yaku, fu, han and value of a win, the seats that are ready, the call that is
/// kept at an accepted reach, the winners after one, the hands that others are dealt and the tiles that they draw.
pub fn tokens_hold_no_more()
    ensures { TokensHoldNoMore }
{}
