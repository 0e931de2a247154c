#![tactic(auto)]
// The words of an OFF text, one after the other: a cursor goes by value, and each step answers where it then stands. Words are parted by
// separators and comments; a word's bytes are looked at once for its end, and once more, at most ten of them, for its number (`digits`).
mod digits;

ghost use Rattle.std.specs.Prelude.{◌≡◌, true, ℕ, ◌+◌, ◌<◌, ◌≤◌, ltb, length, get_or, drop};
ghost use Rattle.paper.specs.Off.{separates as Off·separates, words_of, is_off};
ghost use Rattle.off_words.specs.Cursor.{ends, comment_words, Before, At, WordSpan, NumberRead, MarkRead};

// A place in the text, and the number of the word that comes there or after it. That it is one of a text stands in each contract (`Before`): a cursor that
// held its text would promise at each step that it is still the same text, which is no plainer.
#[derive(Clone, Copy)]
pub struct Cursor {
    pub at: usize,
    pub word: usize,
}

// A word as a number, and a cursor before the next word.
#[derive(Clone, Copy)]
pub struct Number {
    pub value: i32,
    pub next: Cursor,
}

// Before the first word.
fn start(text: &[u8]) -> Cursor
    ensures { Before text.now 0 result }
{
    Cursor { at: 0, word: 0 }
}

// Space, tab, carriage return and line feed.
#[tactic(auto, unfolding(paper::specs::Off::separates))]
fn separates(byte: u8) -> bool
    ensures { result ≡ Off·separates byte }
{
    matches!(byte, b' ' | b'\t' | b'\r' | b'\n')
}

// Whether a byte ends a word: a separator does, and the # of a comment.
#[tactic(auto, unfolding(crate::specs::Cursor::ends))]
fn ends_word(last: u8) -> bool
    ensures { result ≡ ends last }
{
    separates(last) || last == b'#'
}

// Where a comment ends of which `from` is past the #: at its line feed, or at the end of the text.
fn comment_end(text: &[u8], from: usize) -> usize
    requires { from ≤ length text.now }
    ensures { (from ≤ result) × (result ≤ length text.now) × (comment_words (drop from text.now) ≡ words_of (drop result text.now)) }
{
    match text[from..].iter().position(|byte| *byte == b'\n') {
        Some(before) => from + before,
        None => text.len(),
    }
}

// Where the word ends that has begun before or at `from`.
fn word_end(text: &[u8], from: usize) -> usize
    requires { from ≤ length text.now }
    ensures { WordSpan text.now from result }
{
    match text[from..].iter().position(|byte| ends_word(*byte)) {
        Some(before) => from + before,
        None => text.len(),
    }
}

// Whether a word is OFF.
fn is_off(word: &[u8]) -> bool
    ensures { result ≡ is_off word.now }
{
    word == b"OFF".as_slice()
}

// Past the first word, if it is OFF.
pub fn read_mark(text: &[u8]) -> Option<Cursor>
    ensures { MarkRead text.now result }
{
    let first = start(text).to_word(text);
    let at = first.at;
    let end = word_end(text, at);
    if is_off(&text[at..end]) {
        Some(first.moved(end, 1))
    } else {
        None
    }
}

impl Cursor {
    // The cursor moved on to a place, past so many words.
    fn moved(self, to: usize, words: usize) -> Cursor
        requires { self.word + words ≤ to }
        ensures { (result.at ≡ to) × (result.word ≡ self.word + words) }
    {
        Cursor {
            at: to,
            word: self.word + words,
        }
    }

    // Past a comment, from its #.
    fn past_comment(self, text: &[u8]) -> Cursor
        requires { (self.at < length text.now) × (get_or text.now self.at 0 ≡ 35) × Before text.now self.word self }
        ensures { (self.at < result.at) × Before text.now self.word result }
    {
        let at = self.at;
        let end = comment_end(text, at + 1);
        self.moved(end, 0)
    }

    // Past a separator.
    fn past_separator(self, text: &[u8]) -> Cursor
        requires { (self.at < length text.now) × (Off·separates (get_or text.now self.at 0) ≡ true) × Before text.now self.word self }
        ensures { (self.at < result.at) × Before text.now self.word result }
    {
        let at = self.at;
        self.moved(at + 1, 0)
    }

    // To the first byte of the next word, past separators and comments, or to the end of the text.
    fn to_word(self, text: &[u8]) -> Cursor
        requires { Before text.now self.word self }
        ensures { At text.now self.word result }
    {
        let mut c = self;
        let mut at = c.at;
        // The place jumps over comments.
        while at < text.len() {
            let byte = text[at];
            if byte == b'#' {
                c = c.past_comment(text);
            } else {
                if !separates(byte) {
                    return c;
                }
                c = c.past_separator(text);
            }
            at = c.at;
        }
        c
    }

    // The next word as a number, if there is one and it is a number.
    pub fn number(self, text: &[u8]) -> Option<Number>
        requires { Before text.now self.word self }
        ensures { NumberRead text.now self.word result }
    {
        let first = self.to_word(text);
        let at = first.at;
        let end = word_end(text, at);
        let value = crate::digits::number(&text[at..end])?;
        Some(Number {
            value,
            next: first.moved(end, 1),
        })
    }

    // Whether there is a next word.
    pub fn has_word(self, text: &[u8]) -> bool
        requires { Before text.now self.word self }
        ensures { result ≡ ltb self.word (length (words_of text.now)) }
    {
        let first = self.to_word(text);
        first.at < text.len()
    }
}
