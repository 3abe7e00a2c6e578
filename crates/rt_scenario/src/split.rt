// Cuts a text into lines, and a line into words.
ghost use Rattle.std.specs.Prelude.{◌≡◌, ◌≢◌, ◌<◌, ◌≤◌, ℕ, List, [], ◌∷◌, length, slice_index, IfSome, MatchOption, ◌==◌, Some, None};
ghost use Rattle.std.specs.List.{list_all, list_any};
ghost use Rattle.rt_scenario.specs.Scenario.{is_printable, is_passed_over, has_stray_space, names_run};
ghost use Rattle.rt_scenario.specs.Lines.{lines_of, words_of, words_in};

/// Returns the first line, with its LF if it has one, and what is after it.
pub fn split_line(text: &[u8]) -> (&[u8], &[u8])
    requires { 0 < length text.now }
    ensures lines { lines_of text.now ≡ result.0.now ∷ lines_of result.1.now }
    ensures some { 0 < length result.0.now }
    ensures shorter { length result.1.now < length text.now }
{
    let end = front_len(text, b'\n');
    if end < text.len() {
        text.split_at(end + 1)
    } else {
        text.split_at(end)
    }
}

/// Returns the first word, and what is after the space that follows it.
pub fn split_word(text: &[u8]) -> (&[u8], Option<&[u8]>)
    ensures words { words_of text.now ≡ result.0.now ∷ words_in result.1 }
    ensures shorter { IfSome result.1 (λ rest. length rest.now < length text.now) }
{
    let end = front_len(text, b' ');
    if end < text.len() {
        (&text[..end], Some(&text[end + 1..]))
    } else {
        (text, None)
    }
}

/// Returns the word, where there is just one.
pub fn only_word<'a>(text: Option<&'a [u8]>) -> Option<&'a [u8]>
    ensures { MatchOption result (length (words_in text.entry) ≢ 1) (λ word. words_in text.entry ≡ word.now ∷ []) }
{
    match split_word(text?) {
        (word, None) => Some(word),
        (_, Some(_)) => None,
    }
}

/// Returns the two words, where there are just two.
pub fn two_words<'a>(text: Option<&'a [u8]>) -> Option<(&'a [u8], &'a [u8])>
    ensures { MatchOption result (length (words_in text.entry) ≢ 2) (λ words. words_in text.entry ≡ words.0.now ∷ words.1.now ∷ []) }
{
    let (first, rest) = split_word(text?);
    let second = only_word(rest)?;
    Some((first, second))
}

/// Returns the word of a root and the words after `with`, where the words are those of a run.
pub fn run_words<'a>(text: Option<&'a [u8]>) -> Option<(&'a [u8], Option<&'a [u8]>)>
    ensures { MatchOption result (names_run (words_in text.entry) ≡ None) (λ words. names_run (words_in text.entry) ≡ Some (words.0.now ∷ words_in words.1)) }
{
    let (root, rest) = split_word(text?);
    let Some(rest) = rest else {
        return Some((root, None));
    };
    let (word, names) = split_word(rest);
    if names.is_some() && word == b"with".as_slice() {
        Some((root, names))
    } else {
        None
    }
}

/// Returns whether the line is empty or a comment.
pub fn is_passed_over(text: &[u8]) -> bool
    ensures { result ≡ is_passed_over text.now }
{
    text.is_empty() || text[0] == b'#'
}

/// What one pass over a line finds.
#[derive(Clone, Copy)]
pub struct Tested {
    /// Each byte is within 0x20 to 0x7E.
    pub is_printable: bool,
    /// A space begins or ends the text, or two are next to each other.
    pub has_stray_space: bool,
}

/// Tests a text in one pass.
#[tactic(auto, using(crate::proofs::Spaces::has_empty_by_pass))]
pub fn test_text(text: &[u8]) -> Tested
    ensures printable { result.is_printable ≡ list_all is_printable text.now }
    ensures stray { result.has_stray_space ≡ has_stray_space text.now }
{
    let mut printable = true;
    let mut stray = false;
    let mut behind_space = true;
    for byte in text {
        let is_space = *byte == b' ';
        printable &= *byte >= b' ' && *byte <= b'~';
        stray |= is_space && behind_space;
        behind_space = is_space;
    }
    Tested {
        is_printable: printable,
        has_stray_space: !text.is_empty() && (stray || behind_space),
    }
}

// How many bytes are before the first of this kind.
fn front_len(text: &[u8], byte: u8) -> usize
    ensures within { result ≤ length text.now }
    ensures before { (k : ℕ) → k < result → slice_index text.now k ≢ byte }
    ensures found { result < length text.now → slice_index text.now result ≡ byte }
{
    for (place, b) in text.iter().enumerate() {
        if *b == byte {
            return place;
        }
    }
    text.len()
}
