//! Games as texts, played line by line on a table. A line is a deed, or a question and what the table tells: `live?
//! 64`.

ghost use Rattle.std.specs.Prelude.{◌≤◌};

use crate::safety::why;
use mj_bot::choose;
use mj_deeds::{Answer, Deed, Reason, Rule};
use mj_judge::{case_of, default, is_lawful, judge, possible};
use mj_memory::Memory;
use mj_readings::Riichi;
use mj_table::Table;
use mj_tiles::{Kinds, Meld, Tile};
use mj_wall::Rules;
use std::alloc::Global;
use std::process::Abort;
use test_words::{
    answer, are, counts, deed, end, kind, kinds, meld, name, number, number_or_none, parted,
    points, seat, standing, tile, tile_or_none, word, yes,
};

/// Asserts that each line of some games is a deed that fits, or a question with the right answer.
pub(crate) fn ask_games(rt: &impl Abort, alloc: Global, games: &[&str]) {
    for game in games {
        none_is_wrong(rt, wrong_line(alloc, *game));
    }
}

/// Asserts that no line is wrong.
pub(crate) fn none_is_wrong(rt: &impl Abort, wrong: &str) {
    assert!(rt; wrong.is_empty(), "{wrong}");
}

/// The first line of a game that is no deed which fits, and no question with the right answer; empty where there is
/// none.
fn wrong_line<'a>(alloc: Global, game: &'a str) -> &'a str {
    match Table::new(rules(game)) {
        Ok(mut table) => first_wrong(alloc, &mut table, game),
        Err(_) => "no memory",
    }
}

fn first_wrong<'a>(alloc: Global, table: &mut Table, game: &'a str) -> &'a str {
    for line in game.lines() {
        if !follow(alloc, table, line) {
            return line;
        }
    }
    ""
}

/// The rules by the first words: `game red` has red fives, `game draws` the draw reasons.
pub(crate) fn rules(game: &str) -> Rules {
    Rules {
        limit: 1000,
        draws: game.starts_with("game draws"),
        red: game.starts_with("game red"),
    }
}

/// Adds the deed of a line, or asks its question.
pub(crate) fn follow(alloc: Global, table: &mut Table, line: &str) -> bool {
    let (question, told) = parted(line, '?');
    if let Some(line) = question.strip_prefix("fits ") {
        return is_taken(table, deed(alloc, line), Some(yes(told.trim())));
    }
    if line.contains('?') {
        return tells(alloc, table, question, told.trim());
    }
    if let Some(times) = line.strip_prefix("draws ") {
        return draws(table, number(times));
    }
    is_taken(table, deed(alloc, line), None)
}

/// What takes values, which `is_taken` owns and knows nothing else of.
trait Takes<T> {
    /// Takes a value that fits, or tells whether it fits or not as told.
    fn takes(&mut self, value: &T, told: Option<bool>) -> bool;
}

/// Whether there is a value, and it is taken so.
fn is_taken<T: Drop, Q: Takes<T>>(taker: &mut Q, value: Option<T>, told: Option<bool>) -> bool {
    match &value {
        Some(value) => taker.takes(value, told),
        None => false,
    }
}

impl Takes<Deed> for Table {
    fn takes(&mut self, deed: &Deed, told: Option<bool>) -> bool {
        match told {
            Some(told) => self.fits(deed) == told,
            None => self.fits(deed) && self.push(deed).is_ok(),
        }
    }
}

/// Adds a deed, and tells whether it fits.
pub(crate) fn add(table: &mut Table, deed: Deed) -> bool {
    is_taken(table, Some(deed), None)
}

/// Seat 3 draws so many tiles: each of the circles and bamboos four times.
fn draws(table: &mut Table, times: u8) -> bool {
    let mut all = true;
    for k in 0..times {
        all = all && adds_draw(table, (k / 4).saturating_add(9));
    }
    all
}

fn adds_draw(table: &mut Table, face: u8) -> bool {
    match Tile::of(face) {
        Some(tile) => add(
            table,
            Deed::Draw {
                seat: 3,
                tile,
                replacement: false,
            },
        ),
        None => false,
    }
}

/// Whether a table tells this to a question.
fn tells(alloc: Global, table: &Table, question: &str, told: &str) -> bool {
    if let Some(line) = question.strip_prefix("judge ") {
        return judges(table, line, told);
    }
    let asked = word(question, 0);
    match asked {
        "live" | "live_drawn" | "kans" | "shown" | "deposits" => {
            number_told(table, asked) == usize::from(number(told))
        }
        "newest" | "cause" | "before_wins" => name(deed_told(table, asked)) == told,
        "reason" => reason(table) == told,
        "points" => table.points() == points(told),
        "winner" | "dealer_won" => truth_told(table, asked) == yes(told),
        _ => tells_of_hand(alloc, table, question, told),
    }
}

/// Whether a table tells this to a question about the end of its hand, its kans, or a seat.
fn tells_of_hand(alloc: Global, table: &Table, question: &str, told: &str) -> bool {
    match word(question, 0) {
        "ended" => table.hand_end() == end(told),
        "standing" => Some(table.standing()) == standing(told),
        "kan_seat" => table.kan_seat() == number_or_none(told),
        "indicator" => table.indicator(number(word(question, 1))) == tile_or_none(told),
        _ => tells_seat(alloc, table, seat(word(question, 1)), question, told),
    }
}

/// Whether a table tells this to a question about a seat.
fn tells_seat(alloc: Global, table: &Table, who: u8, question: &str, told: &str) -> bool
    requires { who ≤ 3 }
{
    match word(question, 0) {
        "concealed" => has_concealed(alloc, table, who, told),
        "possible" => may_answer(alloc, table, who, told),
        "choose" => chooses(alloc, table, who, told),
        _ => tells_of_seat(table, who, question, told),
    }
}

fn truth_told(table: &Table, word: &str) -> bool {
    match word {
        "winner" => table.has_winner(),
        _ => table.dealer_won(),
    }
}

fn has_concealed(alloc: Global, table: &Table, seat: u8, told: &str) -> bool
    requires { seat ≤ 3 }
{
    match table.concealed(alloc, seat) {
        Ok(tiles) => are(tiles.as_slice(), told),
        Err(_) => false,
    }
}

// The built-in player gives this answer, with nothing remembered and with what it remembers of giving it.
fn chooses(alloc: Global, table: &Table, seat: u8, told: &str) -> bool
    requires { seat ≤ 3 }
{
    match Memory::new(alloc) {
        Ok(mut memory) => {
            let first = choose(table, seat, &mut memory);
            let again = choose(table, seat, &mut memory);
            first == answer(told) && again == answer(told)
        }
        Err(_) => false,
    }
}

/// Whether a table tells this to a question about a seat alone.
fn tells_of_seat(table: &Table, who: u8, question: &str, told: &str) -> bool
    requires { who ≤ 3 }
{
    let asked = word(question, 0);
    match asked {
        "default" => default(table, who) == answer(told),
        "drawn" => table.drawn(who) == tile_or_none(told),
        "holds" => table.holds(who) == counts(told),
        "reds" => has_reds(table, who, told),
        "own" | "passed" | "since_reach" => kinds_told(table, who, asked) == kinds(told),
        "first" => [table.marks(who).first, table.is_first(who)] == [yes(told); 2],
        "riichi" => table.is_in_riichi(who) == yes(told),
        "marks" => has_marks(table, who, told),
        "case" => has_case(table, who, told),
        _ => tells_of_tiles(table, who, question, told),
    }
}

/// Whether a table tells this to a question about melds, kinds or tiles and a seat.
fn tells_of_tiles(table: &Table, who: u8, question: &str, told: &str) -> bool
    requires { who ≤ 3 }
{
    match word(question, 0) {
        "meld" => meld_at(table, who, number(word(question, 2))) == Some(meld(told)),
        "safe" => why(table, who, seat(word(question, 2)), kind(word(question, 3))) == told,
        "triplet" => has_triplet(table, who, question) == yes(told),
        _ => number_of(table, who, question) == Some(usize::from(number(told))),
    }
}

/// How many melds a seat has, how many of a tile it holds, or how many of a kind it has room for or sees.
fn number_of(table: &Table, seat: u8, question: &str) -> Option<usize>
    requires { seat ≤ 3 }
{
    let asked = tile(word(question, 2));
    match word(question, 0) {
        "melds" => Some(table.melds(seat).as_slice().len()),
        "held" => Some(table.held_count(seat, asked)),
        "room" => Some(usize::from(table.room(seat).get(asked.kind()))),
        "sees" => Some(usize::from(table.seen(seat).get(asked.kind()))),
        _ => None,
    }
}

fn has_triplet(table: &Table, seat: u8, question: &str) -> bool
    requires { seat ≤ 3 }
{
    table.has_triplet(
        seat,
        tile(word(question, 2)),
        tile(word(question, 3)),
        tile(word(question, 4)),
        tile(word(question, 5)),
    )
}

/// Kinds that a table tells of a seat.
fn kinds_told(table: &Table, seat: u8, word: &str) -> Kinds
    requires { seat ≤ 3 }
{
    match word {
        "own" => table.own(seat),
        "passed" => table.passed(seat),
        _ => table.passed_in_riichi(seat),
    }
}

/// A number that a table tells of its newest hand.
fn number_told(table: &Table, word: &str) -> usize {
    match word {
        "live" => usize::from(table.live()),
        "live_drawn" => table.live_drawn(),
        "kans" => usize::from(table.kans()),
        "shown" => table.shown(),
        _ => table.deposits() as usize,
    }
}

/// A deed that a table tells.
fn deed_told<'a>(table: &'a Table, word: &str) -> Option<&'a Deed> {
    match word {
        "newest" => table.newest(),
        "cause" => table.cause(),
        _ => table.before_wins(),
    }
}

/// The word for the reason that ends the newest hand of a table.
pub(crate) fn reason(table: &Table) -> &'static str {
    match table.reason() {
        None => "none",
        Some(Reason::Fanpai) => "fanpai",
        Some(Reason::Kyushukyuhai) => "kyushukyuhai",
        Some(Reason::Suufonrenta) => "suufonrenta",
        Some(Reason::Suuchareach) => "suuchareach",
        Some(Reason::Suukaikan) => "suukaikan",
    }
}

/// Whether a seat has red fives of just these suits, of `m`, `p` and `s`.
fn has_reds(table: &Table, seat: u8, told: &str) -> bool
    requires { seat ≤ 3 }
{
    table.reds(seat)
        == [
            has_word(told, "m"),
            has_word(told, "p"),
            has_word(told, "s"),
        ]
}

/// Whether a seat has just these marks of riichi.
fn has_marks(table: &Table, seat: u8, told: &str) -> bool
    requires { seat ≤ 3 }
{
    let marks = table.marks(seat);
    marks.reached == has_word(told, "reached")
        && marks.accepted == has_word(told, "accepted")
        && marks.double == has_word(told, "double")
        && marks.ippatsu == has_word(told, "ippatsu")
}

fn has_word(text: &str, word: &str) -> bool {
    for other in text.split_whitespace() {
        if other == word {
            return true;
        }
    }
    false
}

/// Whether a win of a seat would have these circumstances: its wind, that of the round, and what else holds.
fn has_case(table: &Table, seat: u8, told: &str) -> bool
    requires { seat ≤ 3 }
{
    let case = case_of(table, seat);
    [case.seat_wind, case.round_wind] == [kind(word(told, 0)), kind(word(told, 1))]
        && has_word(told, "single") == (case.riichi == Riichi::Single)
        && has_word(told, "double") == (case.riichi == Riichi::Double)
        && [
            case.closed,
            case.by_draw,
            case.rinshan,
            case.robbed,
            case.first,
            case.last,
            case.ippatsu,
        ] == [
            has_word(told, "closed"),
            has_word(told, "draw"),
            has_word(told, "replacement"),
            has_word(told, "robbed"),
            has_word(told, "first"),
            has_word(told, "last"),
            has_word(told, "ippatsu"),
        ]
}

fn meld_at(table: &Table, seat: u8, place: u8) -> Option<Meld>
    requires { seat ≤ 3 }
{
    table
        .melds(seat)
        .as_slice()
        .get(usize::from(place))
        .copied()
}

/// Whether a seat may answer just so, the answers parted by commas.
fn may_answer(alloc: Global, table: &Table, seat: u8, told: &str) -> bool
    requires { seat ≤ 3 }
{
    match possible(alloc, table, seat) {
        Ok(answers) => are_answers(answers.as_slice(), told),
        Err(_) => false,
    }
}

fn are_answers(answers: &[Answer], told: &str) -> bool {
    let mut rest = answers;
    for text in told.split(',') {
        let Some((first, others)) = rest.split_first() else {
            return false;
        };
        if *first != answer(text.trim()) {
            return false;
        }
        rest = others;
    }
    rest.is_empty()
}

/// Whether an answer of a seat breaks that rule first, or none where it is `lawful`.
fn judges(table: &Table, line: &str, told: &str) -> bool {
    let (who, line) = parted(line, ' ');
    let who = seat(who);
    let answer = answer(line);
    let stands = is_lawful(table, who, &answer);
    match judge(table, who, &answer) {
        Ok(()) => stands && told == "lawful",
        Err(broken_rule) => !stands && rule(broken_rule) == told,
    }
}

fn rule(broken_rule: Rule) -> &'static str {
    match broken_rule {
        Rule::Unreadable => "Unreadable",
        Rule::NotYours => "NotYours",
        Rule::NotNow => "NotNow",
        Rule::NoSuchTile => "NoSuchTile",
        Rule::WrongTarget => "WrongTarget",
        Rule::LastTile => "LastTile",
        Rule::NotHeld => "NotHeld",
        Rule::NotDrawn => "NotDrawn",
        Rule::BadSet => "BadSet",
        Rule::NotLeft => "NotLeft",
        Rule::SwapCall => "SwapCall",
        Rule::StuckCall => "StuckCall",
        Rule::KanFull => "KanFull",
        Rule::KanDry => "KanDry",
        Rule::Locked => "Locked",
        Rule::RiichiKan => "RiichiKan",
        Rule::ReachOpen => "ReachOpen",
        Rule::ReachPoor => "ReachPoor",
        Rule::ReachLate => "ReachLate",
        Rule::ReachUnready => "ReachUnready",
        Rule::NotComplete => "NotComplete",
        Rule::Furiten => "Furiten",
        Rule::NoYaku => "NoYaku",
        Rule::NotNine => "NotNine",
    }
}
