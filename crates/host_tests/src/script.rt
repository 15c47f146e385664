//! A whole game that is over after few deeds: four players help each other, and no dealer wins.

/// The seed of the game's walls.
pub const SEED: [u8; 32] = [
    217, 160, 15, 0, 0, 0, 0, 0, 0, 0, 0, 0, 0, 0, 0, 0, 0, 0, 0, 0, 0, 0, 0, 0, 0, 0, 0, 0, 0, 0,
    0, 0,
];

/// How many calls of its disk the game makes.
pub const CALLS: u64 = 1052;

/// What is answered to a deed: by which seat, and two words that the answer has.
#[derive(Clone, Copy)]
pub struct Row {
    pub seat: u32,
    pub word: &'static str,
    pub tile: &'static str,
}

// The deeds, from 0 on, to which the default answers aren't given, each with what one seat answers.
const ROWS: [(u32, u32, &str, &str); 63] = [
    (2, 1, "none", ""),
    (4, 1, "dahai", "8p"),
    (12, 1, "dahai", "4s"),
    (18, 0, "dahai", "2p"),
    (19, 1, "chi", "1p"),
    (20, 1, "dahai", "9s"),
    (22, 2, "dahai", "3m"),
    (23, 1, "hora", ""),
    (33, 0, "dahai", "6p"),
    (41, 0, "dahai", "9p"),
    (46, 0, "pon", ""),
    (47, 0, "dahai", "4s"),
    (49, 1, "dahai", "3m"),
    (50, 0, "hora", ""),
    (57, 0, "chi", "2m"),
    (58, 0, "dahai", "4s"),
    (61, 0, "pon", ""),
    (62, 0, "dahai", "5s"),
    (66, 2, "dahai", "W"),
    (67, 0, "pon", ""),
    (68, 0, "dahai", "F"),
    (75, 0, "hora", ""),
    (79, 3, "dahai", "7p"),
    (80, 1, "pon", ""),
    (81, 1, "dahai", "1m"),
    (88, 1, "pon", ""),
    (89, 1, "dahai", "S"),
    (91, 2, "dahai", "4p"),
    (92, 1, "hora", ""),
    (96, 0, "dahai", "4p"),
    (97, 1, "chi", "2p"),
    (98, 1, "dahai", "8m"),
    (100, 2, "dahai", "2m"),
    (101, 1, "pon", ""),
    (102, 1, "dahai", "9s"),
    (110, 1, "dahai", "E"),
    (112, 2, "dahai", "6m"),
    (113, 1, "hora", ""),
    (117, 1, "dahai", "4s"),
    (118, 2, "chi", "2s"),
    (119, 2, "dahai", "3p"),
    (123, 0, "dahai", "P"),
    (124, 2, "pon", ""),
    (125, 2, "dahai", "C"),
    (129, 0, "dahai", "5m"),
    (130, 2, "hora", ""),
    (135, 3, "chi", "8p"),
    (136, 3, "dahai", "4m"),
    (143, 3, "pon", ""),
    (144, 3, "dahai", "W"),
    (150, 2, "dahai", "5s"),
    (151, 3, "chi", "3s"),
    (152, 3, "dahai", "F"),
    (157, 3, "hora", ""),
    (161, 3, "dahai", "S"),
    (162, 2, "pon", ""),
    (163, 2, "dahai", "5m"),
    (171, 2, "dahai", "8p"),
    (173, 3, "dahai", "5s"),
    (174, 2, "pon", ""),
    (175, 2, "dahai", "3s"),
    (179, 0, "dahai", "4p"),
    (180, 2, "hora", ""),
];

/// What is answered to a deed, if not the default answers.
pub fn row_at(deed: u32) -> Option<Row> {
    for (at, seat, word, tile) in &ROWS {
        if *at == deed {
            return Some(Row {
                seat: *seat,
                word,
                tile,
            });
        }
    }
    None
}
