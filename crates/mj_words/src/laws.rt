ghost use Rattle.mj_words.specs.Laws.{WordsAreRead, PlainWordsAreValues};

/// What some words ask for: each command has its words and no others, and a word that begins with a hyphen is a value after `--`
/// alone.
pub fn words_are_read()
    ensures { WordsAreRead }
{}

/// After `referee` and `selfplay` one word that doesn't begin with a hyphen is the value, and so is any word after `--`.
pub fn plain_words_are_values()
    ensures { PlainWordsAreValues }
{}
