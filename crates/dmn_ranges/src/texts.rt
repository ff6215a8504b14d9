//! Sets of texts.
ghost use Rattle.std.specs.Prelude.{◌≡◌, ◌<◌, length, is_some, position, IfNone, IfSome, IsUtf8};
ghost use Rattle.std.specs.Option.{is_none};
ghost use Rattle.std.specs.List.{fold, list_any};
ghost use Rattle.dmn_ranges.specs.Ranges.{text_of, is_word as is_word_of, no_texts};
ghost use Rattle.dmn_ranges.specs.Texts.{word_of, one_if as one_if_of, one_text, any_if as any_if_of, is_some_text, with_word as with_word_of, with_if as with_if_of, joined_texts, is_other_word as is_other_word_of, is_word_in as is_word_in_of, is_word_apart as is_word_apart_of, meet, differ};

const LONGEST: usize = 32;

/// A text of at most 32 bytes.
#[derive(Clone, Copy, Debug, PartialEq, Eq)]
pub struct Word {
    // How many bytes the text has.
    count: u8,
    // The text, and zeros behind it.
    bytes: [u8; 32],
}

/// Any text, or one of a few.
#[derive(Clone, Copy, Debug, PartialEq, Eq)]
pub enum Texts {
    Any,
    Few([Option<Word>; 8]),
}

impl Word {
    // The word of a text, unless this is too long.
    fn of(text: &str) -> Option<Word>
        ensures { result ≡ word_of text.now }
    {
        let bytes = text.as_bytes();
        if LONGEST < bytes.len() {
            return None;
        }
        let mut padded = [0u8; 32];
        padded[..bytes.len()].copy_from_slice(bytes);
        Some(Word {
            count: bytes.len() as u8,
            bytes: padded,
        })
    }

    /// The text; none of bytes that are no text, which no word of a text has.
    pub fn as_str(&self) -> Option<&str>
        ensures some { IfSome result (λ s. s.now ≡ text_of self.now) }
        ensures none { IfNone result (¬ (IsUtf8 (text_of self.now))) }
    {
        match str::from_utf8(self.text()) {
            Ok(text) => Some(text),
            Err(_) => None,
        }
    }

    // The bytes of its text.
    fn text(&self) -> &[u8]
        ensures { result.now ≡ text_of self.now }
    {
        match self.bytes.get(..usize::from(self.count)) {
            Some(bytes) => bytes,
            None => &self.bytes,
        }
    }
}

// Whether this is a word with that text.
fn is_word(text: &[u8], word: &Option<Word>) -> bool
    ensures { result ≡ is_word_of text.now word.now }
{
    match word {
        Some(word) => word.text() == text,
        None => false,
    }
}

// Whether this is a word with another text.
fn is_other_word(text: &[u8], word: &Option<Word>) -> bool
    ensures { result ≡ is_other_word_of text.now word.now }
{
    match word {
        Some(word) => !(word.text() == text),
        None => false,
    }
}

// Whether a word has that text.
fn has_word(words: &[Option<Word>], text: &[u8]) -> bool
    ensures { result ≡ list_any (is_word_of text.now) words.now }
{
    words.iter().any(|word| is_word(text, word))
}

// Whether a word has another text.
fn has_other_word(words: &[Option<Word>], text: &[u8]) -> bool
    ensures { result ≡ list_any (is_other_word_of text.now) words.now }
{
    words.iter().any(|word| is_other_word(text, word))
}

// Whether there is one.
fn has_some(words: &[Option<Word>]) -> bool
    ensures { result ≡ list_any is_some words.now }
{
    words.iter().any(|word| word.is_some())
}

// The first place that is free.
fn free_place(words: &[Option<Word>]) -> Option<usize>
    ensures place { result ≡ position is_none words.now }
    ensures within { IfSome result (λ i. i < length words.now) }
{
    words.iter().position(|word| word.is_none())
}

// One word more, which needs a place that is free.
fn with_word(words: [Option<Word>; 8], word: Word) -> Texts
    ensures { result ≡ with_word_of words word }
{
    if has_word(&words, word.text()) {
        return Texts::Few(words);
    }
    let mut more = words;
    match free_place(&words) {
        Some(place) => {
            more[place] = Some(word);
            Texts::Few(more)
        }
        None => Texts::Any,
    }
}

// One word more, if it is there.
fn with_if(texts: Texts, word: &Option<Word>) -> Texts
    ensures { result ≡ with_if_of texts word.now }
{
    let Some(word) = word else {
        return texts;
    };
    match texts {
        Texts::Any => Texts::Any,
        Texts::Few(words) => with_word(words, *word),
    }
}

// Whether this is a word whose text is among those.
fn is_word_in(words: &[Option<Word>], word: &Option<Word>) -> bool
    ensures { result ≡ is_word_in_of words.now word.now }
{
    match word {
        Some(word) => has_word(words, word.text()),
        None => false,
    }
}

// Whether some word of those has a text of these.
fn have_same(words: &[Option<Word>], others: &[Option<Word>]) -> bool
    ensures { result ≡ list_any (is_word_in_of words.now) others.now }
{
    others.iter().any(|word| is_word_in(words, word))
}

// Whether this is a word beside whose text there is another one among those.
fn is_word_apart(words: &[Option<Word>], word: &Option<Word>) -> bool
    ensures { result ≡ is_word_apart_of words.now word.now }
{
    match word {
        Some(word) => has_other_word(words, word.text()),
        None => false,
    }
}

// Whether some word of those has another text than one of these.
fn have_other(words: &[Option<Word>], others: &[Option<Word>]) -> bool
    ensures { result ≡ list_any (is_word_apart_of words.now) others.now }
{
    others.iter().any(|word| is_word_apart(words, word))
}

impl Texts {
    /// No text.
    pub fn none() -> Texts
        ensures { result ≡ no_texts }
    {
        Texts::Few([None; 8])
    }

    /// One text.
    pub fn one(text: &str) -> Texts
        ensures { result ≡ one_text text.now }
    {
        Texts::one_if(Word::of(text))
    }

    // One text, or any if its word is not there.
    fn one_if(word: Option<Word>) -> Texts
        ensures { result ≡ one_if_of word }
    {
        let Some(word) = word else {
            return Texts::Any;
        };
        Texts::Few([Some(word), None, None, None, None, None, None, None])
    }

    /// Any text where this is said, and otherwise none.
    pub(crate) fn any_if(is_any: bool) -> Texts
        ensures { result ≡ any_if_of is_any }
    {
        if is_any { Texts::Any } else { Texts::none() }
    }

    /// Whether there is one.
    pub fn is_some(&self) -> bool
        ensures { result ≡ is_some_text self.now }
    {
        match self {
            Texts::Any => true,
            Texts::Few(words) => has_some(words),
        }
    }

    /// The texts of both, or any where these are too many.
    pub(crate) fn joined(self, other: Texts) -> Texts
        ensures { result ≡ joined_texts self other }
    {
        match other {
            Texts::Any => Texts::Any,
            Texts::Few(words) => with_words(self, &words),
        }
    }

    /// Whether both can have the same text.
    pub(crate) fn meet(&self, other: &Texts) -> bool
        ensures { result ≡ meet self.now other.now }
    {
        let Texts::Few(words) = self else {
            return other.is_some();
        };
        match other {
            Texts::Any => self.is_some(),
            Texts::Few(others) => have_same(words, others),
        }
    }

    /// Whether a text of the one can be another than one of the other.
    pub(crate) fn differ(&self, other: &Texts) -> bool
        ensures { result ≡ differ self.now other.now }
    {
        let Texts::Few(words) = self else {
            return other.is_some();
        };
        match other {
            Texts::Any => self.is_some(),
            Texts::Few(others) => have_other(words, others),
        }
    }
}

// These words more.
fn with_words(texts: Texts, words: &[Option<Word>]) -> Texts
    ensures { result ≡ fold with_if_of texts words.now }
{
    let mut all = texts;
    for word in words {
        all = with_if(all, word);
    }
    all
}
