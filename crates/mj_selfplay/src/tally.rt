ghost use Rattle.std.specs.Prelude.{◌≡◌, ◌<◌, ◌≤◌, []};
ghost use Rattle.mj_deeds.specs.Hand.{is_hand_start};
ghost use Rattle.mj_deeds.specs.Points.{points, deposits, is_win};
ghost use Rattle.mj_selfplay.specs.SelfGame.{is_drawn_hand, summary_of};
ghost use Rattle.mj_selfplay.specs.Inner.Tallies.{tally_of, with_one};

use mj_deeds::Deed;
use mj_table::Table;

/// What a whole game comes to: how many hands started, how many wins and drawn hands there were, the number of its deeds,
/// and at its end the points of the four seats and the deposits on the table.
#[derive(Drop, Debug)]
pub struct Summary {
    pub hands: u32,
    pub wins: u32,
    pub draws: u32,
    pub deeds: u32,
    pub points: [i32; 4],
    pub deposits: u32,
}

// How many starts of hands, wins, drawn hands and deeds there were so far.
#[derive(Clone, Copy)]
pub(crate) struct Tally {
    pub(crate) hands: u32,
    wins: u32,
    draws: u32,
    deeds: u32,
}

impl Tally {
    // Of no deed.
    #[tactic(auto, unfolding(crate::specs::Inner::Tallies::tally_of))]
    pub(crate) fn none() -> Tally
        ensures { result ≡ tally_of [] }
    {
        Tally {
            hands: 0,
            wins: 0,
            draws: 0,
            deeds: 0,
        }
    }

    // With one deed more.
    #[tactic(auto, unfolding(crate::specs::Inner::Tallies::with_one))]
    pub(crate) fn with(self, deed: Deed) -> Tally
        requires few { self.deeds ≤ 60002 }
        requires hands { self.hands ≤ self.deeds }
        requires wins { self.wins ≤ self.deeds }
        requires draws { self.draws ≤ self.deeds }
        ensures { result ≡ with_one self deed }
    {
        Tally {
            hands: self.hands + u32::from(is_start(&deed)),
            wins: self.wins + u32::from(is_win(&deed)),
            draws: self.draws + u32::from(is_drawn_hand(&deed)),
            deeds: self.deeds + 1,
        }
    }

    // What the game on the table comes to, of whose deeds this is the tally.
    #[tactic(auto, unfolding(crate::specs::Inner::Tallies::tally_of))]
    pub(crate) fn summary(self, table: &Table) -> Summary
        requires { self ≡ tally_of table.now.deeds }
        ensures { result ≡ summary_of table.now.deeds }
    {
        Summary {
            hands: self.hands,
            wins: self.wins,
            draws: self.draws,
            deeds: self.deeds,
            points: table.points(),
            deposits: table.deposits(),
        }
    }
}

fn is_start(deed: &Deed) -> bool
    ensures { result ≡ is_hand_start deed.now }
{
    matches!(deed, Deed::StartHand { .. })
}

fn is_win(deed: &Deed) -> bool
    ensures { result ≡ is_win deed.now }
{
    matches!(deed, Deed::Win { .. })
}

fn is_drawn_hand(deed: &Deed) -> bool
    ensures { result ≡ is_drawn_hand deed.now }
{
    matches!(deed, Deed::DrawnHand { .. })
}
