// The lines of a text, and the words of a line: bytes that stand together, parted by blanks; a comment mark ends the last one.
ghost use Rattle.std.specs.Prelude.{◌≡◌, ◌≤◌, length, take};
ghost use Rattle.text.specs.Words.{is_blank, is_letter, line_end, word_start, word_end, word, behind, word_at};
ghost use Rattle.text.specs.Words.{begins as Words·begins};

// Where the first line of a text ends: at its line feed, or at the end.
pub fn line_end(text: &[u8]) -> usize
    ensures upper_bound { result ≤ length text.now }
    ensures value { result ≡ line_end text.now }
{
    text.iter().take_while(|c| **c != b'\n').count()
}

// Where the first word of a line begins.
pub fn word_start(line: &[u8]) -> usize
    ensures upper_bound { result ≤ length line.now }
    ensures value { result ≡ word_start line.now }
{
    line.iter().take_while(|c| is_blank(**c)).count()
}

// Where it ends.
pub fn word_end(line: &[u8]) -> usize
    ensures upper_bound { result ≤ length line.now }
    ensures lower_bound { word_start line.now ≤ result }
    ensures value { result ≡ word_end line.now }
{
    let start = word_start(line);
    start + line[start..].iter().take_while(|c| is_letter(**c)).count()
}

// Word k of a line, counted from 0; nothing where the line has fewer.
#[tactic(auto, using(crate::proofs::WordPlaces::word_more, crate::proofs::WordPlaces::word_there))]
pub fn word_at(line: &[u8], k: u8) -> &[u8]
    ensures { result.now ≡ word_at k line.now }
{
    let mut rest = line;
    for _ in 0..k {
        rest = behind(rest);
    }
    word(rest)
}

// The first word of a line. Its blanks are passed once.
fn word(line: &[u8]) -> &[u8]
    ensures { result.now ≡ word line.now }
{
    let from = &line[word_start(line)..];
    &from[..word_end(from)]
}

// What stands behind the first word of a line.
#[tactic(auto, unfolding(crate::specs::Words::behind))]
fn behind(line: &[u8]) -> &[u8]
    ensures { result.now ≡ behind line.now }
{
    &line[word_end(line)..]
}

// The first bytes of a text, so many at most.
pub fn first(text: &[u8], most: usize) -> &[u8]
    ensures { result.now ≡ take most text.now }
{
    &text[..text.len().min(most)]
}

// Whether a text begins with another.
#[tactic(auto, using(crate::proofs::Reading::same_is))]
pub fn begins(beginning: &[u8], text: &[u8]) -> bool
    ensures { result ≡ Words·begins beginning.now text.now }
{
    text.starts_with(beginning)
}

fn is_blank(c: u8) -> bool
    ensures { result ≡ is_blank c }
{
    matches!(c, b' ' | b'\t')
}

fn is_letter(c: u8) -> bool
    ensures { result ≡ is_letter c }
{
    !(is_blank(c) || c == b'#')
}
