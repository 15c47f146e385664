//! Lines of mjai: of deeds as each viewer sees them, of refusals, and what a player's line reads as.

ghost use Rattle.std.specs.Prelude.{◌≡◌, ◌<◌};

use crate::asking::{ask, ask_deeds};
use crate::views::seen_by;
use mj_deeds::{Answer, Deed, Rule, Viewer};
use mj_ports::{JoinLine, Picked, SitRefused};
use mjai_answers::read_room;
use mjai_lines::{Steps, error_line, read_answer, read_join, refusal_line, write};
use std::alloc::Global;
use std::marker::Brand;
use std::sync::ledger::{Blank, Ledger};
use test_words::{Of, Question, answer, is_as, number_or_none, parted};

/// A deed, a viewer, which is a seat or the record, and its line. A start of a hand shows a seat its own tiles alone and the record
/// all, a draw hides its tile from others, and the record alone is told the call that is kept and the winners that follow.
const DEEDS: &str = "\
game=2 {\"type\":\"start_game\",\"id\":2,\"names\":[\"a\",\"b\",\"c\",\"d\"]}
game=record {\"type\":\"start_game\",\"id\":0,\"names\":[\"a\",\"b\",\"c\",\"d\"]}
deal|S 2 1 2|F|1111222233334m|4445550666677m|7788889999m 111p|1222233334444p=1 {\"type\":\"start_kyoku\",\"bakaze\":\"S\",\"kyoku\":3,\"honba\":1,\"kyotaku\":2,\"oya\":2,\"dora_marker\":\"F\",\"tehais\":[[\"?\",\"?\",\"?\",\"?\",\"?\",\"?\",\"?\",\"?\",\"?\",\"?\",\"?\",\"?\",\"?\"],[\"4m\",\"4m\",\"4m\",\"5m\",\"5m\",\"5m\",\"5mr\",\"6m\",\"6m\",\"6m\",\"6m\",\"7m\",\"7m\"],[\"?\",\"?\",\"?\",\"?\",\"?\",\"?\",\"?\",\"?\",\"?\",\"?\",\"?\",\"?\",\"?\"],[\"?\",\"?\",\"?\",\"?\",\"?\",\"?\",\"?\",\"?\",\"?\",\"?\",\"?\",\"?\",\"?\"]]}
deal|S 2 1 2|F|1111222233334m|4445550666677m|7788889999m 111p|1222233334444p=record {\"type\":\"start_kyoku\",\"bakaze\":\"S\",\"kyoku\":3,\"honba\":1,\"kyotaku\":2,\"oya\":2,\"dora_marker\":\"F\",\"tehais\":[[\"1m\",\"1m\",\"1m\",\"1m\",\"2m\",\"2m\",\"2m\",\"2m\",\"3m\",\"3m\",\"3m\",\"3m\",\"4m\"],[\"4m\",\"4m\",\"4m\",\"5m\",\"5m\",\"5m\",\"5mr\",\"6m\",\"6m\",\"6m\",\"6m\",\"7m\",\"7m\"],[\"7m\",\"7m\",\"8m\",\"8m\",\"8m\",\"8m\",\"9m\",\"9m\",\"9m\",\"9m\",\"1p\",\"1p\",\"1p\"],[\"1p\",\"2p\",\"2p\",\"2p\",\"2p\",\"3p\",\"3p\",\"3p\",\"3p\",\"4p\",\"4p\",\"4p\",\"4p\"]]}
hand|F|1111222233334m|4445555666677m|7788889999m 111p|1222233334444p=0 {\"type\":\"start_kyoku\",\"bakaze\":\"E\",\"kyoku\":1,\"honba\":0,\"kyotaku\":0,\"oya\":0,\"dora_marker\":\"F\",\"tehais\":[[\"1m\",\"1m\",\"1m\",\"1m\",\"2m\",\"2m\",\"2m\",\"2m\",\"3m\",\"3m\",\"3m\",\"3m\",\"4m\"],[\"?\",\"?\",\"?\",\"?\",\"?\",\"?\",\"?\",\"?\",\"?\",\"?\",\"?\",\"?\",\"?\"],[\"?\",\"?\",\"?\",\"?\",\"?\",\"?\",\"?\",\"?\",\"?\",\"?\",\"?\",\"?\",\"?\"],[\"?\",\"?\",\"?\",\"?\",\"?\",\"?\",\"?\",\"?\",\"?\",\"?\",\"?\",\"?\",\"?\"]]}
hand|F|1111222233334m|4455556666777m|4788889999m 111p|1222233334444p=0 {\"type\":\"start_kyoku\",\"bakaze\":\"E\",\"kyoku\":1,\"honba\":0,\"kyotaku\":0,\"oya\":0,\"dora_marker\":\"F\",\"tehais\":[[\"1m\",\"1m\",\"1m\",\"1m\",\"2m\",\"2m\",\"2m\",\"2m\",\"3m\",\"3m\",\"3m\",\"3m\",\"4m\"],[\"?\",\"?\",\"?\",\"?\",\"?\",\"?\",\"?\",\"?\",\"?\",\"?\",\"?\",\"?\",\"?\"],[\"?\",\"?\",\"?\",\"?\",\"?\",\"?\",\"?\",\"?\",\"?\",\"?\",\"?\",\"?\",\"?\"],[\"?\",\"?\",\"?\",\"?\",\"?\",\"?\",\"?\",\"?\",\"?\",\"?\",\"?\",\"?\",\"?\"]]}
replace 3 5p=3 {\"type\":\"tsumo\",\"actor\":3,\"pai\":\"5p\"}
replace 3 5p=1 {\"type\":\"tsumo\",\"actor\":3,\"pai\":\"?\"}
replace 3 5p=record {\"type\":\"tsumo\",\"actor\":3,\"pai\":\"5p\"}
discard 0 5p=3 {\"type\":\"dahai\",\"actor\":0,\"pai\":\"5p\",\"tsumogiri\":false}
discard 0 5p=1 {\"type\":\"dahai\",\"actor\":0,\"pai\":\"5p\",\"tsumogiri\":false}
discard 0 5p=record {\"type\":\"dahai\",\"actor\":0,\"pai\":\"5p\",\"tsumogiri\":false}
chi 1 0 7m 5m 6m=3 {\"type\":\"chi\",\"actor\":1,\"target\":0,\"pai\":\"7m\",\"consumed\":[\"5m\",\"6m\"]}
pon 2 0 7m 7m 7m=record {\"type\":\"pon\",\"actor\":2,\"target\":0,\"pai\":\"7m\",\"consumed\":[\"7m\",\"7m\"]}
open 2 0 7m 7m 7m 7m=3 {\"type\":\"daiminkan\",\"actor\":2,\"target\":0,\"pai\":\"7m\",\"consumed\":[\"7m\",\"7m\",\"7m\"]}
closed 1 N N N N=3 {\"type\":\"ankan\",\"actor\":1,\"consumed\":[\"N\",\"N\",\"N\",\"N\"]}
added 1 6m 6m 6m 6m=3 {\"type\":\"kakan\",\"actor\":1,\"pai\":\"6m\",\"consumed\":[\"6m\",\"6m\",\"6m\"]}
dora 8p=0 {\"type\":\"dora\",\"dora_marker\":\"8p\"}
reach 1=0 {\"type\":\"reach\",\"actor\":1}
accepted|1|30000 29000 30000 -200|pon 2 1 5mr 5m 5m=2 {\"type\":\"reach_accepted\",\"actor\":1,\"deltas\":[0,-1000,0,0],\"scores\":[30000,29000,30000,-200]}
accepted|1|30000 29000 30000 -200=record {\"type\":\"reach_accepted\",\"actor\":1,\"deltas\":[0,-1000,0,0],\"scores\":[30000,29000,30000,-200],\"then\":null}
accepted|1|30000 29000 30000 -200|pon 2 1 5mr 5m 5m=record {\"type\":\"reach_accepted\",\"actor\":1,\"deltas\":[0,-1000,0,0],\"scores\":[30000,29000,30000,-200],\"then\":{\"type\":\"pon\",\"actor\":2,\"target\":1,\"pai\":\"5mr\",\"consumed\":[\"5m\",\"5m\"]}}
win|1|1|7m|-1300 2700 -700 -700|28700 32700 29300 29300|2 0|23456m 456p 33678s=0 {\"type\":\"hora\",\"actor\":1,\"target\":1,\"pai\":\"7m\",\"uradora_markers\":[],\"hora_tehais\":[\"2m\",\"3m\",\"4m\",\"5m\",\"6m\",\"4p\",\"5p\",\"6p\",\"3s\",\"3s\",\"6s\",\"7s\",\"8s\"],\"yakus\":[[\"menzen_tsumo\",1],[\"pinfu\",1],[\"tanyao\",1]],\"fu\":20,\"fan\":3,\"hora_points\":2700,\"deltas\":[-1300,2700,-700,-700],\"scores\":[28700,32700,29300,29300]}
win|1|1|7m|-1300 2700 -700 -700|28700 32700 29300 29300||23456m 456p 33678s=record {\"type\":\"hora\",\"actor\":1,\"target\":1,\"pai\":\"7m\",\"uradora_markers\":[],\"hora_tehais\":[\"2m\",\"3m\",\"4m\",\"5m\",\"6m\",\"4p\",\"5p\",\"6p\",\"3s\",\"3s\",\"6s\",\"7s\",\"8s\"],\"yakus\":[[\"menzen_tsumo\",1],[\"pinfu\",1],[\"tanyao\",1]],\"fu\":20,\"fan\":3,\"hora_points\":2700,\"deltas\":[-1300,2700,-700,-700],\"scores\":[28700,32700,29300,29300],\"rest\":[]}
win|1|1|7m|-1300 2700 -700 -700|28700 32700 29300 29300|0|23456m 456p 33678s=record {\"type\":\"hora\",\"actor\":1,\"target\":1,\"pai\":\"7m\",\"uradora_markers\":[],\"hora_tehais\":[\"2m\",\"3m\",\"4m\",\"5m\",\"6m\",\"4p\",\"5p\",\"6p\",\"3s\",\"3s\",\"6s\",\"7s\",\"8s\"],\"yakus\":[[\"menzen_tsumo\",1],[\"pinfu\",1],[\"tanyao\",1]],\"fu\":20,\"fan\":3,\"hora_points\":2700,\"deltas\":[-1300,2700,-700,-700],\"scores\":[28700,32700,29300,29300],\"rest\":[0]}
win|1|1|7m|-1300 2700 -700 -700|28700 32700 29300 29300|2 0|23456m 456p 33678s=record {\"type\":\"hora\",\"actor\":1,\"target\":1,\"pai\":\"7m\",\"uradora_markers\":[],\"hora_tehais\":[\"2m\",\"3m\",\"4m\",\"5m\",\"6m\",\"4p\",\"5p\",\"6p\",\"3s\",\"3s\",\"6s\",\"7s\",\"8s\"],\"yakus\":[[\"menzen_tsumo\",1],[\"pinfu\",1],[\"tanyao\",1]],\"fu\":20,\"fan\":3,\"hora_points\":2700,\"deltas\":[-1300,2700,-700,-700],\"scores\":[28700,32700,29300,29300],\"rest\":[2,0]}
drawn|yes no no no|3000 -1000 -1000 -1000|33000 29000 29000 29000|fanpai|12m E|0 1 3=3 {\"type\":\"ryukyoku\",\"reason\":\"fanpai\",\"tehais\":[[\"1m\",\"2m\",\"E\"],[],[\"?\"],[\"?\",\"?\",\"?\"]],\"tenpais\":[true,false,false,false],\"deltas\":[3000,-1000,-1000,-1000],\"scores\":[33000,29000,29000,29000]}
end=3 {\"type\":\"end_kyoku\"}
over|30000 30000 31000 28000|1=3 {\"type\":\"end_game\",\"scores\":[30000,30000,31000,28000],\"kyotaku\":1}
drawn|yes no no no|3000 -1000 -1000 -1000|33000 29000 29000 29000|fanpai|12m E|0 1 3=record {\"type\":\"ryukyoku\",\"reason\":\"fanpai\",\"tehais\":[[\"1m\",\"2m\",\"E\"],[],[\"?\"],[\"?\",\"?\",\"?\"]],\"tenpais\":[true,false,false,false],\"deltas\":[3000,-1000,-1000,-1000],\"scores\":[33000,29000,29000,29000]}
end=record {\"type\":\"end_kyoku\"}
over|30000 30000 31000 28000|1=record {\"type\":\"end_game\",\"scores\":[30000,30000,31000,28000],\"kyotaku\":1}";

/// A deed and its copy are written so.
struct Written;

impl Of<Deed> for Written {
    fn is_as(alloc: Global, deed: &Deed, told: &str) -> bool {
        writes(alloc, deed, told) && is_as::<Deed, WrittenCopy>(alloc, deed.copy().ok(), told)
    }
}

struct WrittenCopy;

impl Of<Deed> for WrittenCopy {
    fn is_as(alloc: Global, deed: &Deed, told: &str) -> bool {
        writes(alloc, deed, told)
    }
}

fn writes(alloc: Global, deed: &Deed, told: &str) -> bool {
    let (viewer, line) = seen_by(told);
    writes_on::<Brand>(alloc, viewer, deed, line.as_bytes(), Blank::new(1))
}

fn writes_on<L: Ledger>(
    alloc: Global,
    viewer: Viewer,
    deed: &Deed,
    line: &[u8],
    blank: Blank,
) -> bool
    requires name { blank.name ≡ L.name }
    requires parts { blank.parts ≡ L.parts }
    requires some { 0 < blank.parts }
{
    let mut steps = Steps::<L>::new(blank);
    let mut written = Vec::new(alloc);
    write(alloc, viewer, deed, None, &mut written, &mut steps).is_ok()
        && written.as_slice().strip_suffix(b"\n") == Some(line)
}

#[test]
fn a_deed_has_its_line_for_each_viewer(rt: HostRuntime) {
    ask_deeds::<HostRuntime, Written>(&rt, rt.alloc(), DEEDS);
}

const RULES: [Rule; 3] = [Rule::NotHeld, Rule::Unreadable, Rule::NotNine];

const ERRORS: &[u8] =
    b"{\"type\":\"error\",\"rule\":7,\"message\":\"NotHeld\"}\n{\"type\":\"error\",\"rule\":1,\"message\":\"Unreadable\"}\n{\"type\":\"error\",\"rule\":24,\"message\":\"NotNine\"}\n";

const CAUSES: [SitRefused; 4] = [
    SitRefused::Full,
    SitRefused::WrongKey,
    SitRefused::BadName,
    SitRefused::NoRoom,
];

const REFUSALS: &[u8] =
    b"{\"type\":\"error\",\"sit\":1,\"message\":\"Full\"}\n{\"type\":\"error\",\"sit\":3,\"message\":\"WrongKey\"}\n{\"type\":\"error\",\"sit\":7,\"message\":\"BadName\"}\n{\"type\":\"error\",\"sit\":8,\"message\":\"NoRoom\"}\n";

fn are_errors(alloc: Global, rules: &[Rule], lines: &[u8]) -> bool {
    let mut written = Vec::new(alloc);
    let mut all = true;
    for rule in rules {
        all = error_line(alloc, *rule, &mut written).is_ok() && all;
    }
    all && written.as_slice() == lines
}

fn are_refusals(alloc: Global, causes: &[SitRefused], lines: &[u8]) -> bool {
    let mut written = Vec::new(alloc);
    let mut all = true;
    for cause in causes {
        all = refusal_line(alloc, *cause, &mut written).is_ok() && all;
    }
    all && written.as_slice() == lines
}

#[test]
fn a_refusal_is_told_by_its_number_and_its_name(rt: HostRuntime) {
    assert!(rt; are_errors(rt.alloc(), &RULES, ERRORS));
    assert!(rt; are_refusals(rt.alloc(), &CAUSES, REFUSALS));
}

/// A line of a player, and the answer that it reads as.
const ANSWERS: &str = "\
{\"type\":\"none\"}=pass
{\"type\":\"none\",\"actor\":2}=pass 2
 {\"type\":\"none\",\"actor\":3}\r=pass 3
{\"type\":\"dahai\",\"actor\":0,\"pai\":\"5pr\",\"tsumogiri\":true}=cut 0 5pr
{\"type\":\"dahai\",\"actor\":3,\"pai\":\"?\",\"tsumogiri\":false}=discard 3 *
{\"actor\":3,\"tsumogiri\":false,\"pai\":\"?\",\"type\":\"dahai\"}=discard 3 *
{\"type\":\"chi\",\"actor\":1,\"target\":0,\"pai\":\"7m\",\"consumed\":[\"6m\",\"5m\"]}=chi 1 0 7m 5m 6m
{\"type\":\"pon\",\"actor\":2,\"target\":0,\"pai\":\"?\",\"consumed\":[\"?\",\"5mr\"]}=pon 2 0 * 5mr *
{\"consumed\":[\"5mr\",\"5m\",\"5m\"],\"pai\":\"5m\",\"target\":3,\"actor\":2,\"type\":\"daiminkan\"}=open 2 3 5m 5m 5m 5mr
{\"type\":\"ankan\",\"actor\":3,\"consumed\":[\"5m\",\"5mr\",\"?\",\"5m\"],\"pai\":7}=closed 3 5m 5m 5mr *
{\"type\":\"kakan\",\"actor\":1,\"pai\":\"5m\",\"consumed\":[],\"consumed\":[\"5mr\",\"5m\",\"5m\"]}=added 1 5m 5m 5m 5mr
{\"type\":\"reach\",\"actor\":2,\"pai\":null}=reach 2
{\"type\":\"hora\",\"actor\":2,\"target\":0}=ron 2 0
{\"pai\":\"5sr\",\"target\":2,\"actor\":2,\"type\":\"hora\"}=ron 2 2 5sr
{\"type\":\"hora\",\"actor\":2,\"target\":0,\"pai\":\"?\"}=ron 2 0 *
{\"type\":\"ryukyoku\",\"actor\":1}=nine 1
{\"type\":\"ryukyoku\",\"actor\":1,\"reason\":\"kyushukyuhai\"}=nine 1
{\"type\":\"reach\"}=unread
{\"type\":\"hora\",\"actor\":2}=unread
{\"type\":\"hora\",\"actor\":2,\"target\":0,\"pai\":null}=unread
{\"type\":\"ryukyoku\",\"actor\":1,\"reason\":\"fanpai\"}=unread
{\"type\":\"ryukyoku\",\"actor\":1,\"reason\":null}=unread
{\"type\":\"none\"}\0=unread
{\"type\":\"none\",\"actor\":4}=unread
{\"type\":\"dahai\",\"actor\":0,\"pai\":\"0m\",\"tsumogiri\":true}=unread
{\"type\":\"ankan\",\"consumed\":[\"N\",\"N\",\"N\",\"N\"]}=unread";

struct Reads;

impl Question for Reads {
    fn holds(alloc: Global, line: &str) -> bool {
        let (line, told) = parted(line, '=');
        match read_answer(alloc, line.as_bytes()) {
            Ok(found) => found == answer(told),
            Err(_) => false,
        }
    }
}

#[test]
fn a_line_reads_as_the_answer_that_it_is(rt: HostRuntime) {
    ask::<HostRuntime, Reads>(&rt, rt.alloc(), ANSWERS);
    let no_text = b"{\"type\":\"none\",\"x\":\"\xff\"}";
    assert!(rt; matches!(read_answer(rt.alloc(), no_text), Ok(Answer::Unread)));
}

/// A line, and the name of the join that it is, after a bar its key if it has one, and nothing where it is none. A name
/// has 1 to 64 bytes, and a key at most 64.
const JOINS: &str = "\
{\"type\":\"join\",\"name\":\"\\u0061é\",\"room\":\"default\"}=aé
{\"type\":\"join\",\"name\":\"b\",\"key\":\"\"}=b|
{\"key\":\"k\",\"name\":\"c\",\"type\":\"join\",\"room\":7}=c|k
{\"type\":\"join\",\"name\":\"n\",\"key\":\"\"}=n|
{\"type\":\"join\",\"name\":\"nnnnnnnnnnnnnnnnnnnnnnnnnnnnnnnnnnnnnnnnnnnnnnnnnnnnnnnnnnnnnnnn\",\"key\":\"kkkkkkkkkkkkkkkkkkkkkkkkkkkkkkkkkkkkkkkkkkkkkkkkkkkkkkkkkkkkkkkk\"}=nnnnnnnnnnnnnnnnnnnnnnnnnnnnnnnnnnnnnnnnnnnnnnnnnnnnnnnnnnnnnnnn|kkkkkkkkkkkkkkkkkkkkkkkkkkkkkkkkkkkkkkkkkkkkkkkkkkkkkkkkkkkkkkkk
{\"type\":\"join\",\"name\":\"\",\"key\":\"k\"}=
{\"type\":\"join\",\"name\":\"nnnnnnnnnnnnnnnnnnnnnnnnnnnnnnnnnnnnnnnnnnnnnnnnnnnnnnnnnnnnnnnnn\",\"key\":\"k\"}=
{\"type\":\"join\",\"name\":\"n\",\"key\":\"kkkkkkkkkkkkkkkkkkkkkkkkkkkkkkkkkkkkkkkkkkkkkkkkkkkkkkkkkkkkkkkkk\"}=";

struct Join;

impl Question for Join {
    fn holds(alloc: Global, line: &str) -> bool {
        let (line, told) = parted(line, '=');
        match read_join(alloc, line.as_bytes()) {
            Ok(Some(join)) => is_named(&join, told),
            Ok(None) => told.is_empty(),
            Err(_) => false,
        }
    }
}

fn is_named(join: &JoinLine, told: &str) -> bool {
    let (name, text) = parted(told, '|');
    let has_key = name.len() < told.len();
    let is_keyed = match &join.key {
        Some(key) => has_key && key.as_slice() == text.as_bytes(),
        None => !has_key,
    };
    is_keyed && join.name.as_slice() == name.as_bytes()
}

#[test]
fn a_join_has_a_name_and_perhaps_a_key(rt: HostRuntime) {
    ask::<HostRuntime, Join>(&rt, rt.alloc(), JOINS);
}

/// A line, and the number of the table, one of three, that it is for.
const ROOMS: &str = "\
{\"type\":\"join\",\"name\":\"a\"}=0
{\"type\":\"join\",\"name\":\"a\",\"room\":\"default\"}=0
{\"type\":\"join\",\"name\":\"a\",\"room\":\"room1\"}=0
{\"room\":\"room2\",\"key\":\"k\",\"name\":\"a\",\"type\":\"join\"}=1
{\"type\":\"join\",\"name\":\"a\",\"room\":\"room\\u0033\"}=2
{\"type\":\"join\",\"name\":\"a\",\"room\":\"room4\"}=no room
{\"type\":\"join\",\"name\":\"a\",\"room\":\"room0\"}=no room
{\"type\":\"join\",\"name\":\"a\",\"room\":\"room01\"}=no room
{\"type\":\"join\",\"name\":\"a\",\"room\":\"Room1\"}=no room
{\"type\":\"join\",\"name\":\"a\",\"room\":1}=no room
{\"type\":\"join\",\"name\":\"\",\"room\":\"room4\"}=no name
{\"type\":\"none\",\"name\":\"a\",\"room\":\"room1\"}=no name
join room1=no name";

struct Picks;

impl Question for Picks {
    fn holds(alloc: Global, line: &str) -> bool {
        let (line, told) = parted(line, '=');
        match read_room(alloc, line.as_bytes(), 3) {
            Ok(picked) => is_picked(picked, told),
            Err(_) => false,
        }
    }
}

fn is_picked(picked: Picked, told: &str) -> bool {
    match picked {
        Picked::BadName => told == "no name",
        Picked::NoRoom => told == "no room",
        Picked::Table(table) => number_or_none(told) == Some(table),
    }
}

#[test]
fn a_join_is_for_the_table_whose_room_it_names(rt: HostRuntime) {
    ask::<HostRuntime, Picks>(&rt, rt.alloc(), ROOMS);
}
