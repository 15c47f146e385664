use crate::words::ask;
use mj_hand::hand_lines;
use std::alloc::{AllocError, Global};
use test_words::{Question, field};

/// Words, and the shanten, the target and the waits that are written of their hand: hands that are ready, one of them with its
/// tiles in another order, hands that are not, one of them with a red five, and hands with melds, whose tiles are not
/// written.
const WRITTEN: &str = "\
1m 2m 3m 4p 5p 6p 7s 8s 9s E E S S|0|1m 2m 3m 4p 5p 6p 7s 8s 9s E E E S S|E S
1m 9m 1p 9p 1s 9s E S W N P F C|0|1m 1m 9m 1p 9p 1s 9s E S W N P F C|1m 9m 1p 9p 1s 9s E S W N P F C
E 9s E 7s 8s S 5p 6p S 3m 4p 1m 2m|0|1m 2m 3m 4p 5p 6p 7s 8s 9s E E E S S|E S
1p 2p 3p 4p 5p 6p 7p 8p 9p 1s 1s 1s 1s|1|1m 1m 1p 2p 3p 4p 5p 6p 7p 8p 9p 1s 1s 1s|-
5mr 2m 3m 4p 5p 6p 7s 8s 9s E E S S|1|1m 2m 3m 4p 5p 6p 7s 8s 9s E E E S S|-
1m 1m 1m 1m 2p 2p 2p 2p 3s 3s 3s 3s E|2|1m 1m 1m 1m 2m 3m 2p 2p 2p 3s 3s 3s E E|-
1m+2m+3m 4p 5p 6p 7s 8s 9s E E S S|0|4p 5p 6p 7s 8s 9s E E E S S|E S
4m+5mr+6m 4p 5p 6p 7s 8s 9s E E S S|0|4p 5p 6p 7s 8s 9s E E E S S|E S
4p 5p 6p 3m+1m+2m 7s 8s 9s E E S S|0|4p 5p 6p 7s 8s 9s E E E S S|E S
1m+2m+3m 1m 1m 1m 2m 3m 4p 5p 6p 7s 8s|0|1m 1m 1m 2m 3m 4p 5p 6p 6s 7s 8s|6s 9s
1m+2m+3m 1m 4m 7m 1p 4p 7p 1s 4s 7s E|6|1m 1m 1m 2m 3m 4m 5m 6m 7m 1p 1p|-
E+E+E+E 1m+1m+1m 7s+9s+8s 5p+5p+5p+5p C|0|C C|C
E+E+E 2m+2m+2m 7s+9s+8s 5p+5p+5p+5p 2m|1|1m 1m|-";

/// Words that are no hand: too few or too many tiles, a fifth one, a second red five of a suit, texts that are no tiles, words
/// that are no melds, and melds beside too few tiles, with a fifth tile, or five of them.
const NO_HAND: &str = "\
1m

1m 1m 1m 1m 1m 2p 3p 4p 5p 6p 7p 8p 9p
5mr 5mr 3m 4p 5p 6p 7s 8s 9s E E S S
2m 3m 4p 5p 6p 7s 8s 9s E E S S
1m 2m 3m 4p 5p 6p 7s 8s 9s E E S S S
1z 2m 3m 4p 5p 6p 7s 8s 9s E E S S
e 2m 3m 4p 5p 6p 7s 8s 9s E E S S
-h 2m 3m 4p 5p 6p 7s 8s 9s E E S S
1m+2m 4p 5p 6p 7s 8s 9s E E S S
1m+2m+4m 4p 5p 6p 7s 8s 9s E E S S
8m+9m+1p 4p 5p 6p 7s 8s 9s E E S S
E+S+W 4p 5p 6p 7s 8s 9s E E S S
1m+1m+1m+2m 4p 5p 6p 7s 8s 9s E E S S
1m+1m+1m+1m+1m 4p 5p 6p 7s 8s 9s E E S S
1m+2m+3m+4m 4p 5p 6p 7s 8s 9s E E S S
4m+5mr+6m 5mr 5p 6p 7s 8s 9s E E S S
1m+2m+3m+ 4p 5p 6p 7s 8s 9s E E S S
+1m+2m+3m 4p 5p 6p 7s 8s 9s E E S S
1m++2m+3m 4p 5p 6p 7s 8s 9s E E S S
1m+2m+3m 4p 5p 6p 7s 8s 9s E E S
E+E+E+E 4p 5p 6p 7s 8s 9s E S S S
1m+2m+3m 1m+2m+3m 1m+2m+3m 1m+2m+3m 1m
1m+1m+1m 2m+2m+2m 3m+3m+3m 4m+4m+4m 5m+5m+5m";

fn words_in(alloc: Global, line: &str) -> Result<Vec<String>, AllocError> {
    let mut words = Vec::new(alloc);
    for word in line.split_whitespace() {
        words.push(String::from_str(alloc, word)?)?;
    }
    Ok(words)
}

/// What is written of the hand of these words, which spaces part.
fn written(alloc: Global, words: &str) -> Result<Option<Vec<u8>>, AllocError> {
    let words = words_in(alloc, words)?;
    hand_lines(alloc, words.as_slice())
}

/// Whether a text begins with a word, a space, what is told, and a newline; what stands behind.
fn behind<'a>(text: &'a [u8], word: &str, told: &str) -> Option<&'a [u8]> {
    text.strip_prefix(word.as_bytes())?
        .strip_prefix(b" ")?
        .strip_prefix(told.as_bytes())?
        .strip_prefix(b"\n")
}

/// Whether a text is the shanten, the target and the waits of a line.
fn are_told(text: &[u8], line: &str) -> bool {
    match behind(text, "shanten", field(line, 1)) {
        Some(text) => match behind(text, "target", field(line, 2)) {
            Some(text) => behind(text, "waits", field(line, 3)) == Some(b"".as_slice()),
            None => false,
        },
        None => false,
    }
}

struct Hand;

impl Question for Hand {
    fn holds(alloc: Global, line: &str) -> bool {
        match written(alloc, field(line, 0)) {
            Ok(Some(text)) => are_told(text.as_slice(), line),
            _ => false,
        }
    }
}

#[test]
fn three_lines_are_written_of_a_hand(rt: HostRuntime) {
    ask::<HostRuntime, Hand>(&rt, rt.alloc(), WRITTEN);
}

struct NotWritten;

impl Question for NotWritten {
    fn holds(alloc: Global, line: &str) -> bool {
        matches!(written(alloc, line), Ok(None))
    }
}

#[test]
fn words_that_are_no_hand_have_no_text(rt: HostRuntime) {
    ask::<HostRuntime, NotWritten>(&rt, rt.alloc(), NO_HAND);
}
