//! A player in memory that answers each line that it is told.

ghost use Rattle.std.specs.Prelude.{◌≡◌, None, IfOk};
ghost use Rattle.mj_links.specs.Links.{ReadingStays, WritingStays};

use crate::board::Board;
use crate::guests::Guests;
use crate::script::row_at;
use mj_links::{FaultCount, Got, Link, Put, Sink, Source};
use std::alloc::{AllocError, Global};
use std::time;

const PASS: &[u8] = b"\"type\":\"none\"";

const HELLO: &[u8] = b"{\"type\":\"hello\"";

const REPLAY: &[u8] = b"{\"type\":\"replay\"";

const ERROR: &[u8] = b"{\"type\":\"error\"";

const START: &[u8] = b"{\"type\":\"start_game\",\"id\":";

/// The link of a player. It tells nothing for proofs.
#[derive(Drop)]
pub struct PlayerLink<'a, R> {
    rt: &'a R,
    player: Player<'a>,
    read_faults: FaultCount,
    write_faults: FaultCount,
}

// A player that joins, discards each tile that it draws, and passes else, but where the script has its answer. After so many
// answers it leaves, and where the script has the answer of another seat. What it says stands in `said`, of which so much is gone;
// `place` and `deeds` are the bytes and the lines that it was told of deeds on this link, and `newest` is the last of these.
#[derive(Drop)]
struct Player<'a> {
    board: &'a Board,
    guests: Guests,
    number: u32,
    answers: u32,
    said: Vec<u8>,
    gone: usize,
    newest: Vec<u8>,
    place: usize,
    deeds: u32,
    seat: u32,
    is_back: bool,
}

impl<'a, R> PlayerLink<'a, R> {
    /// The link of a player by its number, from 0: four have one room, the next four the next one.
    pub fn new(
        rt: &'a R,
        alloc: Global,
        board: &'a Board,
        number: u32,
        guests: Guests,
    ) -> Result<PlayerLink<'a, R>, AllocError>
        ensures { IfOk result (λ l. (l.read_faults.count ≡ 0) × (l.write_faults.count ≡ 0)) }
    {
        Ok(PlayerLink {
            rt,
            player: Player::new(alloc, board, number, guests)?,
            read_faults: FaultCount::new(),
            write_faults: FaultCount::new(),
        })
    }
}

impl<'a> Player<'a> {
    fn new(
        alloc: Global,
        board: &'a Board,
        number: u32,
        guests: Guests,
    ) -> Result<Player<'a>, AllocError> {
        Ok(Player {
            board,
            guests,
            number,
            answers: guests.answers,
            said: join_of(alloc, number)?,
            gone: 0,
            newest: Vec::new(alloc),
            place: 0,
            deeds: 0,
            seat: 0,
            is_back: false,
        })
    }

    // Takes whole lines that it is told; false where memory is wanting.
    fn hear(&mut self, piece: &[u8]) -> bool {
        let mut heard = true;
        for line in piece.split_inclusive(|byte| *byte == b'\n') {
            heard = heard && self.hear_line(line);
        }
        if !self.is_back && !piece.starts_with(HELLO) {
            self.is_back = true;
            self.board.come_back();
        }
        heard
    }

    fn hear_line(&mut self, line: &[u8]) -> bool {
        if line.starts_with(HELLO) || line.starts_with(REPLAY) {
            return true;
        }
        if line.starts_with(ERROR) {
            self.board.tell_wrong();
            return true;
        }
        if let Some([seat, ..]) = line.strip_prefix(START) {
            self.seat = u32::from(seat.saturating_sub(b'0'));
            self.board.sit(self.number, self.seat);
        }
        self.board.add(self.number, self.place, line);
        self.place = self.place.saturating_add(line.len());
        self.deeds = self.deeds.saturating_add(1);
        self.newest.clear();
        self.newest.extend_from_slice(line).is_ok()
    }

    // Says the answer to the newest line, once all have come; false where it leaves, or memory is wanting.
    fn answer<R: time::Clock>(&mut self, rt: &R) -> bool {
        self.board.await_all(rt, self.guests.pauses);
        if self.answers == 0 {
            return false;
        }
        self.answers -= 1;
        self.board.answer(self.deeds);
        if !self.guests.scripted {
            return self.say("\"tsumogiri\":true", "");
        }
        match row_at(self.deeds.saturating_sub(1)) {
            Some(row) => {
                if row.seat != self.seat {
                    self.board.leave(self.number, row.seat);
                    return false;
                }
                self.say(row.word, row.tile)
            }
            None => self.say("\"tsumogiri\":true", ""),
        }
    }

    fn say(&mut self, word: &str, tile: &str) -> bool {
        self.said.clear();
        self.gone = 0;
        match chosen(self.newest.as_slice(), word.as_bytes(), tile.as_bytes()) {
            Some(answer) => put_answer(&mut self.said, answer).is_ok(),
            None => put_answer(&mut self.said, PASS).is_ok(),
        }
    }
}

fn join_of(alloc: Global, player: u32) -> Result<Vec<u8>, AllocError> {
    let name = match player % 4 {
        0 => "a",
        1 => "b",
        2 => "c",
        _ => "d",
    };
    let room = if player < 4 { "room1" } else { "room2" };
    let mut line = b"{\"type\":\"join\",\"name\":\"".to_vec(alloc)?;
    line.extend_from_slice(name.as_bytes())?;
    line.extend_from_slice(b"\",\"key\":\"k\",\"room\":\"")?;
    line.extend_from_slice(room.as_bytes())?;
    line.extend_from_slice(b"\"}\n")?;
    Ok(line)
}

// The first possible answer of a line that has both words, without its braces.
fn chosen<'a>(line: &'a [u8], word: &[u8], tile: &[u8]) -> Option<&'a [u8]> {
    for text in line.split(|byte| *byte == b'{').skip(2) {
        if has(text, word) && has(text, tile) {
            let end = text.iter().position(|byte| *byte == b'}')?;
            return text.get(..end);
        }
    }
    None
}

fn has(text: &[u8], word: &[u8]) -> bool {
    word.is_empty() || text.windows(word.len()).any(|bytes| bytes == word)
}

fn put_answer(said: &mut Vec<u8>, answer: &[u8]) -> Result<(), AllocError> {
    said.extend_from_slice(b"{")?;
    said.extend_from_slice(answer)?;
    said.extend_from_slice(b"}\n")?;
    Ok(())
}

impl<'a, R: time::Clock> Source for PlayerLink<'a, R> {
    ghost left = { λ _. None };

    ghost read_faults = { λ l. l.read_faults.count };

    ghost also_reads = { λ _ _ old new.
        WritingStays None None old.write_faults.count new.write_faults.count };

    fn read(&mut self, into: &mut [u8]) -> Got {
        let player = &mut self.player;
        if player.gone >= player.said.len() && !player.answer(self.rt) {
            return Got::End;
        }
        let Some(rest) = player.said.get(player.gone..) else {
            return Got::End;
        };
        let count = rest.len().min(into.len());
        if count == 0 {
            return Got::End;
        }
        into[..count].copy_from_slice(&rest[..count]);
        player.gone = player.gone.saturating_add(count);
        Got::Bytes(count)
    }
}

impl<'a, R> Sink for PlayerLink<'a, R> {
    ghost written = { λ _. None };

    ghost write_faults = { λ l. l.write_faults.count };

    ghost also_writes = { λ _ _ old new.
        ReadingStays None None None None old.read_faults.count new.read_faults.count };

    fn write(&mut self, piece: &[u8]) -> Put {
        if self.player.hear(piece) {
            return Put::Took(piece.len());
        }
        self.write_faults = self.write_faults.more();
        Put::Failed
    }
}

impl<'a, R: time::Clock> Link for PlayerLink<'a, R> {
    ghost was_read = { λ _. None };

    ghost at_end = { λ _. ⊥ };

    fn shut(&mut self) {}

    fn has_ended(&mut self) -> bool {
        false
    }

    ghost reads_apart = { λ got into old new h. (tt, h) };

    ghost ends = { λ got into old new h none. absurd none };

    ghost untold = { λ link none. absurd none };

    ghost writes_apart = { λ put piece old new h. h };
}
