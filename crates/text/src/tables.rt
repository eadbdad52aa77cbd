// Tables of names: a text whose lines are the names, counted from 0. So a name stands in one place, whether it is read or written.
ghost use Rattle.std.specs.Prelude.{◌≡◌};
ghost use Rattle.text.specs.Tables.{behind_line, line_in, place_in};
ghost use Rattle.text.specs.Written.{written};

use crate::put::put;
use crate::words::line_end;

// Line k of a text; nothing where the text has fewer lines.
#[tactic(auto, using(crate::proofs::Places::line_more))]
pub fn line_in(text: &[u8], k: u8) -> &[u8]
    ensures { result.now ≡ line_in k text.now }
{
    let mut rest = text;
    for _ in 0..k {
        rest = behind_line(rest);
    }
    &rest[..line_end(rest)]
}

// Line k of a text, written.
pub fn put_line(to: &mut [u8], at: usize, text: &[u8], k: u8) -> usize
    ensures { (to.new, result) ≡ written (to.old, at) (line_in k text.now) }
{
    put(to, at, line_in(text, k))
}

// What stands behind the first line of a text and its line feed.
fn behind_line(text: &[u8]) -> &[u8]
    ensures { result.now ≡ behind_line text.now }
{
    text.get(line_end(text) + 1..).unwrap_or(&[])
}

// Of so many lines the first that a word is, if it is one of them.
pub fn place_in(table: &[u8], lines: u8, word: &[u8]) -> Option<u8>
    ensures { result ≡ place_in table.now lines word.now }
{
    (0..lines).find(|k| line_in(table, *k) == word)
}
