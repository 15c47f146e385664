ghost use Rattle.std.specs.Prelude.{◌≡◌, if◌then◌else◌, false, List, ℤ, option_copied};
ghost use Rattle.std.specs.Option.{option_map_or};
ghost use Rattle.mj_deeds.specs.declared.deed.Deed.{Deed};
ghost use Rattle.mj_deeds.specs.Ends.{standing_after, end_of};
ghost use Rattle.mj_deeds.specs.Fits.{is_in_place, is_in_hand, is_after_start, is_after_dora, is_after_kan, is_after_result, is_after_hand, is_discard_of, taken_from, starts_hand, starts_with};
ghost use Rattle.mj_rounds.specs.Rounds.{first_standing, next_standing, stays, is_draw, honba_after, dealer_after, is_last, round_is_over};

use crate::course::is_kan;
use crate::deed::Deed;
use crate::four::next_seat;
use mj_rounds::{HandEnd, LAST_HAND, Standing, first};
use mj_tiles::{SOUTH, Tile};

/// Whether a deed stands in its place after the newest one and the deeds of its hand, of which the discard that may be
/// taken is given, how the hand ended as far as it has, its standing and the deposits on the table.
pub fn is_in_place(
    newest: Option<&Deed>,
    taken: Option<&Deed>,
    end: HandEnd,
    standing: &Standing,
    deposits: u32,
    deed: &Deed,
) -> bool
    ensures { (hand : List Deed) → (points : List ℤ)
        → option_copied taken.entry ≡ taken_from hand (option_copied newest.entry)
        → end ≡ end_of hand standing.now.dealer → result
        ≡ is_in_place (record {
          newest = option_copied newest.entry;
          hand = hand;
          standing =
              standing.now;
          points = points;
          deposits = deposits;
        }) deed.now }
{
    match deed {
        Deed::StartGame { .. } => newest.is_none(),
        Deed::StartHand { .. } => starts_hand(newest, end, standing, deposits, deed),
        Deed::Draw { replacement, .. } if *replacement => {
            is_in_hand(newest) && is_after_dora(newest)
        }
        Deed::Draw { .. } => is_in_hand(newest) && !is_after_dora(newest),
        Deed::Discard { .. } => is_in_hand(newest),
        Deed::Chi { target, tile, .. } => is_discard_of(taken, *target, *tile),
        Deed::Pon { target, tile, .. } => is_discard_of(taken, *target, *tile),
        Deed::OpenKan { target, tile, .. } => is_discard_of(taken, *target, *tile),
        Deed::ClosedKan { .. } => is_in_hand(newest),
        Deed::AddedKan { .. } => is_in_hand(newest),
        Deed::Dora { .. } => is_after_kan(newest),
        Deed::Reach { .. } => is_in_hand(newest),
        Deed::ReachAccepted { .. } => is_in_hand(newest),
        Deed::Win { .. } => is_in_hand(newest),
        Deed::DrawnHand { .. } => is_in_hand(newest),
        Deed::EndHand => is_after_result(newest),
        Deed::EndGame { .. } => is_after_hand(newest),
    }
}

// Whether a deed starts the hand that comes next.
fn starts_hand(
    newest: Option<&Deed>,
    end: HandEnd,
    standing: &Standing,
    deposits: u32,
    deed: &Deed,
) -> bool
    ensures { (hand : List Deed) → (points : List ℤ) → end ≡ end_of hand standing.now.dealer → result
        ≡ starts_hand (record {
          newest = option_copied newest.entry;
          hand = hand;
          standing =
              standing.now;
          points = points;
          deposits = deposits;
        }) deed.now }
{
    if is_after_start(newest) {
        return starts_with(&first(), 0, deed);
    }
    is_after_hand(newest) && starts_after(standing, end, deposits, deed)
}

// Whether a deed starts a hand with this standing and so many deposits.
fn starts_with(now: &Standing, lying: u32, deed: &Deed) -> bool
    ensures { result ≡ starts_with now.now lying deed.now }
{
    match deed {
        Deed::StartHand {
            round,
            number,
            honba,
            deposits,
            dealer,
            ..
        } => {
            round.number() == now.round.number()
                && u16::from(*number) == u16::from(now.dealer) + 1
                && *honba == now.honba
                && *deposits == lying
                && *dealer == now.dealer
        }
        _ => false,
    }
}

// Whether a deed starts the hand that follows one that stood and ended so, with so many deposits.
#[tactic(auto, unfolding(mj_rounds::specs::Rounds::next_standing))]
fn starts_after(now: &Standing, end: HandEnd, lying: u32, deed: &Deed) -> bool
    ensures { result ≡ option_map_or
        (λ next. starts_with next lying deed.now) (next_standing now.now end) false }
{
    match deed {
        Deed::StartHand {
            round,
            number,
            honba,
            deposits,
            dealer,
            ..
        } => {
            !is_last(now, end)
                && round.number() == round_after(now, end)
                && u16::from(*number) == u16::from(dealer_after(now.dealer, end)) + 1
                && u64::from(*honba) == honba_after(now.honba, end)
                && *deposits == lying
                && *dealer == dealer_after(now.dealer, end)
        }
        _ => false,
    }
}

// Whether the game ends with a hand that stood and ended so.
fn is_last(now: &Standing, end: HandEnd) -> bool
    ensures { result ≡ is_last now.now end }
{
    now.hand == LAST_HAND || (round_is_over(now, end) && now.round.number() == SOUTH)
}

// Whether the last dealer passes.
fn round_is_over(now: &Standing, end: HandEnd) -> bool
    ensures { result ≡ round_is_over now.now end }
{
    now.dealer == 3 && !stays(end)
}

// The number of the kind of the next hand's round.
fn round_after(now: &Standing, end: HandEnd) -> u8
    ensures { result ≡ if round_is_over now.now end then 28 else now.now.round }
{
    if round_is_over(now, end) {
        SOUTH
    } else {
        now.round.number()
    }
}

// The next dealer.
fn dealer_after(dealer: u8, end: HandEnd) -> u8
    ensures { result ≡ dealer_after dealer end }
{
    if stays(end) {
        dealer
    } else {
        next_seat(dealer)
    }
}

// The honba of the next hand.
fn honba_after(honba: u32, end: HandEnd) -> u64
    ensures { result ≡ honba_after honba end }
{
    match end {
        HandEnd::Won {
            dealer_among: false,
        } => 0,
        _ => u64::from(honba) + 1,
    }
}

// Whether the dealer stays.
fn stays(end: HandEnd) -> bool
    ensures { result ≡ stays end }
{
    match end {
        HandEnd::Won { dealer_among } => dealer_among,
        HandEnd::Drawn { dealer_ready } => dealer_ready,
        HandEnd::Aborted => true,
    }
}

// Whether a hand is under way.
fn is_in_hand(newest: Option<&Deed>) -> bool
    ensures { result ≡ is_in_hand (option_copied newest.entry) }
{
    match newest {
        None => false,
        Some(Deed::StartGame { .. }) => false,
        Some(Deed::EndHand) => false,
        Some(Deed::EndGame { .. }) => false,
        Some(_) => true,
    }
}

fn is_after_start(newest: Option<&Deed>) -> bool
    ensures { result ≡ is_after_start (option_copied newest.entry) }
{
    matches!(newest, Some(Deed::StartGame { .. }))
}

fn is_after_dora(newest: Option<&Deed>) -> bool
    ensures { result ≡ is_after_dora (option_copied newest.entry) }
{
    matches!(newest, Some(Deed::Dora { .. }))
}

fn is_after_kan(newest: Option<&Deed>) -> bool
    ensures { result ≡ is_after_kan (option_copied newest.entry) }
{
    match newest {
        Some(deed) => is_kan(deed),
        None => false,
    }
}

fn is_after_result(newest: Option<&Deed>) -> bool
    ensures { result ≡ is_after_result (option_copied newest.entry) }
{
    matches!(
        newest,
        Some(Deed::Win { .. }) | Some(Deed::DrawnHand { .. })
    )
}

fn is_after_hand(newest: Option<&Deed>) -> bool
    ensures { result ≡ is_after_hand (option_copied newest.entry) }
{
    matches!(newest, Some(Deed::EndHand))
}

// Whether a deed is the discard of that tile by the target.
fn is_discard_of(taken: Option<&Deed>, target: u8, called: Tile) -> bool
    ensures { result ≡ is_discard_of (option_copied taken.entry) target called }
{
    match taken {
        Some(Deed::Discard { seat, tile, .. }) => {
            *seat == target && tile.face() == called.face()
        }
        _ => false,
    }
}
