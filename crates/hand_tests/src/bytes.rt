use crate::words::ask;
use mj_bytes::{
    push_all, push_number, push_signed, read_number, split_at_first, split_line, split_space, strip,
};
use std::alloc::{AllocError, Global};
use test_words::{Question, field};

fn written(alloc: Global) -> Result<Vec<u8>, AllocError> {
    let mut text = Vec::new(alloc);
    push_all(&mut text, b"points ")?;
    push_number(&mut text, 18_446_744_073_709_551_615)?;
    push_signed(&mut text, -8000)?;
    push_signed(&mut text, 0)?;
    Ok(text)
}

fn is_written(alloc: Global, wanted: &[u8]) -> bool {
    match written(alloc) {
        Ok(text) => text.as_slice() == wanted,
        Err(_) => false,
    }
}

#[test]
fn pieces_and_numbers_stand_behind_the_text(rt: HostRuntime) {
    assert!(rt; is_written(rt.alloc(), b"points 18446744073709551615-80000"));
}

const NUMBERS: &str = "\
0|0
25000|25000
18446744073709551615|18446744073709551615
18446744073709551616|-
007|-
+7|-
|-
1 7|-";

/// The number of a text is the one after the bar.
struct Number;

impl Question for Number {
    fn holds(_alloc: Global, line: &str) -> bool {
        match read_number(field(line, 0).as_bytes()) {
            Some(number) => field(line, 1).parse() == Ok(number),
            None => field(line, 1) == "-",
        }
    }
}

#[test]
fn numbers_are_digits_without_sign_or_leading_zero(rt: HostRuntime) {
    ask::<HostRuntime, Number>(&rt, rt.alloc(), NUMBERS);
}

/// Whether a split gave these two parts.
fn is_cut(cut: Option<(&[u8], &[u8])>, first: &str, rest: &str) -> bool {
    match cut {
        Some((front, behind)) => front == first.as_bytes() && behind == rest.as_bytes(),
        None => false,
    }
}

fn are_split() -> bool {
    let text = b"say 0+1 \n\nrest";
    is_cut(split_line(text), "say 0+1 ", "\nrest")
        && is_cut(split_line(b"\nrest"), "", "rest")
        && is_cut(split_space(text), "say", "0+1 \n\nrest")
        && is_cut(split_at_first(text, b'+'), "say 0", "1 \n\nrest")
}

fn are_whole() -> bool {
    let text = b"rest";
    split_line(text).is_none()
        && split_space(text).is_none()
        && split_at_first(text, b'+').is_none()
}

#[test]
fn a_text_is_split_at_its_first_newline_or_space_or_other_byte(rt: HostRuntime) {
    assert!(rt; are_split() && are_whole());
}

/// Whether the beginning was stripped to this rest.
fn is_rest(rest: Option<&[u8]>, wanted: &[u8]) -> bool {
    match rest {
        Some(rest) => rest == wanted,
        None => false,
    }
}

#[test]
fn a_beginning_is_stripped_where_it_stands(rt: HostRuntime) {
    assert!(rt; is_rest(strip(b"limit=10", b"limit="), b"10"));
    assert!(rt; strip(b"limit", b"limit=").is_none() && strip(b"draws=10", b"limit=").is_none());
}
