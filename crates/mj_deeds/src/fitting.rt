ghost use Rattle.std.specs.Prelude.{◌≡◌, ◌++◌, nat_lt};
ghost use Rattle.std.specs.List.{list_all};
ghost use Rattle.mj_deeds.specs.Shown.{tiles_shown};
ghost use Rattle.mj_deeds.specs.Fits.{seats_in_bid, is_face, faces_in_bid, has_seats, has_tiles};

use crate::bid::Bid;
use crate::deed::Deed;
use crate::hands::Hands;
use crate::shown_hands::ShownHands;
use mj_tiles::{FACES, RED, Tile};

/// Whether every seat that stands in a deed is 0 to 3.
pub fn has_seats(deed: &Deed) -> bool
    ensures { result ≡ has_seats deed.now }
{
    match deed {
        Deed::StartGame { .. } => true,
        Deed::StartHand { dealer, .. } => *dealer < 4,
        Deed::Draw { seat, .. } => *seat < 4,
        Deed::Discard { seat, .. } => *seat < 4,
        Deed::Chi { seat, target, .. } => *seat < 4 && *target < 4,
        Deed::Pon { seat, target, .. } => *seat < 4 && *target < 4,
        Deed::OpenKan { seat, target, .. } => *seat < 4 && *target < 4,
        Deed::ClosedKan { seat, .. } => *seat < 4,
        Deed::AddedKan { seat, .. } => *seat < 4,
        Deed::Dora { .. } => true,
        Deed::Reach { seat } => *seat < 4,
        Deed::ReachAccepted { seat, then, .. } => *seat < 4 && are_seats_of_bid(*then),
        Deed::Win {
            seat,
            target,
            rest,
            ..
        } => *seat < 4 && *target < 4 && are_seats(rest.as_slice()),
        Deed::DrawnHand { .. } => true,
        Deed::EndHand => true,
        Deed::EndGame { .. } => true,
    }
}

fn are_seats_of_bid(bid: Bid) -> bool
    ensures { result ≡ list_all (λ seat. nat_lt seat 4) (seats_in_bid bid) }
{
    match bid {
        Bid::NoBid => true,
        Bid::Chi { seat, target, .. } => seat < 4 && target < 4,
        Bid::Pon { seat, target, .. } => seat < 4 && target < 4,
        Bid::OpenKan { seat, target, .. } => seat < 4 && target < 4,
    }
}

fn are_seats(seats: &[u8]) -> bool
    ensures { result ≡ list_all (λ seat. nat_lt seat 4) seats.now }
{
    seats.iter().all(|seat| *seat < 4)
}

/// Whether each tile that is named in a deed is one that the game has: a plain one, and in a game with red fives also one of
/// these.
pub fn has_tiles(red: bool, deed: &Deed) -> bool
    ensures { result ≡ has_tiles red deed.now }
{
    match deed {
        Deed::StartGame { .. } => true,
        Deed::StartHand {
            indicator,
            hands,
            ..
        } => are_faces(red, &[*indicator]) && are_dealt_faces(red, hands),
        Deed::Draw { tile, .. } => are_faces(red, &[*tile]),
        Deed::Discard { tile, .. } => are_faces(red, &[*tile]),
        Deed::Chi { tile, a, b, .. } => are_faces(red, &[*tile, *a, *b]),
        Deed::Pon { tile, a, b, .. } => are_faces(red, &[*tile, *a, *b]),
        Deed::OpenKan { tile, a, b, c, .. } => are_faces(red, &[*tile, *a, *b, *c]),
        Deed::ClosedKan { a, b, c, d, .. } => are_faces(red, &[*a, *b, *c, *d]),
        Deed::AddedKan { tile, a, b, c, .. } => are_faces(red, &[*tile, *a, *b, *c]),
        Deed::Dora { tile } => are_faces(red, &[*tile]),
        Deed::Reach { .. } => true,
        Deed::ReachAccepted { then, .. } => are_faces_of_bid(red, *then),
        Deed::Win {
            tile,
            unders,
            hand,
            ..
        } => {
            are_faces(red, &[*tile])
                && are_faces(red, unders.as_slice())
                && are_faces(red, hand.as_slice())
        }
        Deed::DrawnHand { hands, .. } => are_shown_faces(red, hands),
        Deed::EndHand => true,
        Deed::EndGame { .. } => true,
    }
}

fn are_faces_of_bid(red: bool, bid: Bid) -> bool
    ensures { result ≡ list_all (is_face red) (faces_in_bid bid) }
{
    match bid {
        Bid::NoBid => true,
        Bid::Chi { tile, a, b, .. } => are_faces(red, &[tile, a, b]),
        Bid::Pon { tile, a, b, .. } => are_faces(red, &[tile, a, b]),
        Bid::OpenKan { tile, a, b, c, .. } => are_faces(red, &[tile, a, b, c]),
    }
}

fn are_shown_faces(red: bool, hands: &ShownHands) -> bool
    ensures { result ≡ list_all (is_face red)
        (tiles_shown hands.now.first ++ tiles_shown hands.now.second ++ tiles_shown hands.now.third
        ++ tiles_shown hands.now.fourth) }
{
    are_faces(red, hands.at(0))
        && are_faces(red, hands.at(1))
        && are_faces(red, hands.at(2))
        && are_faces(red, hands.at(3))
}

fn are_dealt_faces(red: bool, hands: &Hands) -> bool
    ensures { result ≡ list_all (is_face red)
        (hands.now.first ++ hands.now.second ++ hands.now.third ++ hands.now.fourth) }
{
    are_faces(red, hands.at(0))
        && are_faces(red, hands.at(1))
        && are_faces(red, hands.at(2))
        && are_faces(red, hands.at(3))
}

// Whether each tile is one that the game has.
fn are_faces(red: bool, tiles: &[Tile]) -> bool
    ensures { result ≡ list_all (is_face red) tiles.now }
{
    tiles.iter().all(|tile| is_face(red, *tile))
}

/// Whether a tile is one that the game has: a plain one, and in a game with red fives also one of these.
pub fn is_face(red: bool, tile: Tile) -> bool
    ensures { result ≡ is_face red tile }
{
    tile.face() < if red { FACES as u8 } else { RED }
}
