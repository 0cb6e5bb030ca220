// The words of a line: what stands between spaces, tabs, commas and returns.
ghost use Rattle.std.specs.Prelude.{◌≤◌, ◌≡◌, length};
ghost use Rattle.names.specs.Text.{is_separator, word_length, gap_length, first_word, after_separators, after_word, same_word};

// The word at the start of a text, or nothing where a separator stands there.
#[tactic(auto, unfolding(crate::specs::Text::first_word))]
pub fn first_word(text: &[u8]) -> &[u8]
    ensures { result.now ≡ first_word text.now }
{
    &text[..word_length(text)]
}

// What stands after the word at the start of a text and the separators that end it.
#[tactic(auto, unfolding(crate::specs::Text::after_word))]
pub fn after_word(text: &[u8]) -> &[u8]
    ensures { result.now ≡ after_word text.now }
{
    after_separators(&text[word_length(text)..])
}

#[tactic(auto, unfolding(crate::specs::Text::after_separators))]
pub fn after_separators(text: &[u8]) -> &[u8]
    ensures { result.now ≡ after_separators text.now }
{
    &text[gap_length(text)..]
}

// How long the word at the start of a text is.
fn word_length(text: &[u8]) -> usize
    ensures value { result ≡ word_length text.now }
    ensures upper_bound { result ≤ length text.now }
{
    text.iter().take_while(|b| !is_separator(**b)).count()
}

// How many separators a text begins with. It stands beside `word_length`, since one function of both, with the test as a closure, would
// need a contract longer than the two: what the closure computes.
fn gap_length(text: &[u8]) -> usize
    ensures value { result ≡ gap_length text.now }
    ensures upper_bound { result ≤ length text.now }
{
    text.iter().take_while(|b| is_separator(**b)).count()
}

fn is_separator(b: u8) -> bool
    ensures { result ≡ is_separator b }
{
    matches!(b, b' ' | b'\t' | b'\r' | b',')
}

// Whether a word is a name, in any case.
#[tactic(auto, unfolding(crate::specs::Text::same_word))]
pub(crate) fn same_word(word: &[u8], name: &[u8]) -> bool
    ensures { result ≡ same_word word.now name.now }
{
    word.len() == name.len()
        && word
            .iter()
            .zip(name)
            .all(|(b, letter)| b.to_ascii_uppercase() == *letter)
}
