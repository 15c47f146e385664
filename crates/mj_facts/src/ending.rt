ghost use Rattle.std.specs.Prelude.{◌≡◌, List};
ghost use Rattle.mj_deeds.specs.declared.deed.Deed.{Deed};
ghost use Rattle.mj_deeds.specs.Ends.{dealer_won, end_of};
ghost use Rattle.mj_facts.specs.Courses.{Draws};

use crate::course_facts::HandDraw;
use mj_deeds::end_by_draw;
use mj_rounds::HandEnd;

/// How a hand ended for its dealer, who has won or not: by its first draw, or else by its wins.
pub fn hand_end(draw: Option<HandDraw>, dealer: u8, dealer_among: bool) -> HandEnd
    ensures { (deeds : List Deed) → Draws deeds draw → dealer_among ≡ dealer_won deeds dealer
        → result ≡ end_of deeds dealer }
{
    match draw {
        Some(draw) => end_by_draw(draw.reason, draw.ready, dealer),
        None => HandEnd::Won { dealer_among },
    }
}
