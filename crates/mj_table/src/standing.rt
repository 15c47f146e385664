ghost use Rattle.std.specs.Prelude.{◌≡◌, if◌then◌else◌, Some};
ghost use Rattle.mj_deeds.specs.Hand.{is_hand_start};
ghost use Rattle.mj_deeds.specs.Standings.{standing_by};

use mj_deeds::Deed;
use mj_rounds::Standing;

// Takes the standing of the newest hand a deed further: a start of a hand says it, and has the number of the next hand.
pub(crate) fn stand(standing: &mut Standing, number: u32, deed: &Deed)
    ensures { standing.new ≡ (if is_hand_start deed.now then standing_by number (Some deed.now) else
        standing.old) }
{
    match deed {
        Deed::StartHand {
            round,
            dealer,
            honba,
            ..
        } => {
            *standing = Standing {
                round: *round,
                dealer: *dealer,
                honba: *honba,
                hand: number,
            };
        }
        _ => {}
    }
}
