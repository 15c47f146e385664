use mj_ports::{Entry, JoinLine, Key, Name};

const LONGEST: &str = "0123456789012345678901234567890123456789012345678901234567890123";

/// Whether a name and a key of this text give its bytes back.
fn is_kept(text: &str) -> bool {
    let bytes = text.as_bytes();
    if bytes.len() > 64 {
        return false;
    }
    Name::of(bytes).as_slice() == bytes && Key::of(bytes).as_slice() == bytes
}

#[test]
fn names_and_keys_keep_their_bytes(rt: HostRuntime) {
    for text in ["a", "", LONGEST] {
        assert!(rt; is_kept(text), "{text}");
    }
}

/// Whether author 1 took a seat by an entry, with the name `b`.
fn is_taken(entry: Entry<u8>) -> bool {
    match entry {
        Entry::Sat { author, name, .. } => author == 1 && name == Name::of(b"b"),
        _ => false,
    }
}

/// The entry of a join by author 1.
fn taken() -> Entry<u8> {
    let join = JoinLine {
        name: Name::of(b"b"),
        key: Some(Key::of(b"k")),
    };
    Entry::Sat {
        author: 1,
        name: join.name,
        key: join.key,
    }
}

/// Whether an entry and its copy are whole.
fn is_whole(entry: Entry<u8>) -> bool {
    let copied = entry;
    is_taken(copied) && is_taken(entry)
}

#[test]
fn an_entry_is_copied_whole(rt: HostRuntime) {
    assert!(rt; is_whole(taken()));
}
