// Bytes, lines, words and the scan for a name. Every function is total: past its end a text has zeros.
#![tactic(auto)]

ghost use Rattle.std.specs.Prelude.{◌≡◌, ◌+◌, ◌*◌, ◌<◌, IfSome, ◌==◌, not, length, drop};
ghost use Rattle.std.specs.List.{take_while};
ghost use Rattle.std.proofs.Math.Seq.{slice};
ghost use Rattle.lists.specs.Rows.{num};
ghost use Rattle.lists.specs.Tests.{within as is_within};
ghost use Rattle.lists.specs.Pieces.{starts};
ghost use Rattle.scan.specs.Bytes.{word_at, plain as plain_bytes};
ghost use Rattle.scan.specs.Names.{lookup};
ghost use Rattle.scan.specs.Lines.{row, lines};
ghost use Rattle.scan.specs.Iterating.{row_of, lines_left};
ghost use Rattle.std.specs.Iterator.{YieldsFirstBy, item_count};

use lists::get_or;

// The same as a range's `contains`, said by the definition.
#[tactic(auto, unfolding(lists::specs::Tests::within, lists::specs::Tests::every))]
pub fn within(byte: u8, lo: u8, hi: u8) -> bool
    ensures { result ≡ is_within lo hi byte }
{
    (lo..=hi).contains(&byte)
}

// What is left of a text from a column on; past its end, nothing.
#[tactic(auto, using(crate::proofs::WordLaws::rest_from))]
pub fn rest(s: &[u8], column: usize) -> &[u8]
    ensures { result.now ≡ drop column s.now }
{
    &s[column.min(s.len())..]
}

// How many bytes stand before the first stop, in the library's words: so the chain is proved.
fn unstopped(s: &[u8], stop: u8) -> usize
    ensures { result ≡ length (take_while (λ byte. not (byte == stop)) s.now) }
{
    s.iter().take_while(|byte| **byte != stop).count()
}

// The word that starts at from and ends at the first stop, or at the line's end.
#[tactic(auto, using(crate::proofs::WordLaws::passed_over, lists::proofs::PieceLaws::take_up_to, lists::proofs::PieceLaws::length_up_to))]
pub fn word(s: &[u8], from: usize, stop: u8) -> &[u8]
    ensures { result.now ≡ word_at stop s.now from }
{
    let left = rest(s, from);
    &left[..unstopped(left, stop)]
}

// The part of a text from from to to, as far as it lies in the text.
pub fn part(s: &[u8], from: usize, to: usize) -> &[u8]
    ensures { result.now ≡ slice from to s.now }
{
    rest(&s[..to.min(s.len())], from)
}

// Byte j of entry i of a list of names, and 0 past the list's end.
fn entry_at(names: &[u8], i: usize, j: usize) -> u8
    requires { j < 4 }
    ensures { result ≡ num names.now (i * 4 + j) }
{
    if names.len() / 4 < i {
        return 0;
    }
    get_or(names, i * 4 + j, 0)
}

// The first of count names that is this word.
pub fn find(names: &[u8], count: usize, word: &[u8]) -> Option<usize>
    ensures found { result ≡ lookup names.now count word.now }
    ensures below { IfSome result (λ i. i < count) }
{
    // Taken once, and not at each entry.
    let bytes = [
        get_or(word, 0, 0),
        get_or(word, 1, 0),
        get_or(word, 2, 0),
        get_or(word, 3, 0),
    ];
    'names: {
        'entries: for i in 0..count {
            for j in 0..4 {
                if entry_at(names, i, j) != bytes[j] {
                    continue 'entries;
                }
            }
            break 'names Some(i);
        }
        None
    }
}

// The line goes on with this word.
#[tactic(auto, using(lists::proofs::PieceLaws::starts_is))]
pub fn follows(s: &[u8], column: usize, w: &[u8]) -> bool
    ensures { result ≡ starts w.now (drop column s.now) }
{
    rest(s, column).starts_with(w)
}

// No byte outside 32 to 126.
#[tactic(auto, unfolding(crate::specs::Bytes::all_of))]
pub fn plain(s: &[u8]) -> bool
    ensures { result ≡ plain_bytes s.now }
{
    s.iter().all(|byte| within(*byte, 32, 126))
}

// A line of a text: its bytes without LF, and whether its LF is there.
#[derive(Clone, Copy)]
pub struct Line<'a> {
    pub bytes: &'a [u8],
    pub ended: bool,
}

// The lines of a text, one after the other; a loop over them knows which are still to come.
#[derive(Drop)]
pub struct Lines<'a> {
    rest: &'a [u8],
}

impl<'a> Lines<'a> {
    pub fn new(text: &'a [u8]) -> Lines<'a>
        ensures { lines_left result ≡ lines text.now }
    {
        Lines { rest: text }
    }
}

impl<'a> Iterator for Lines<'a> {
    type Item = Line<'a>;

    ghost next_gives = { YieldsFirstBy row_of lines_left };

    ghost remaining = { item_count lines_left };

    fn next(&mut self) -> Option<Line<'a>> {
        let text = self.rest;
        if text.is_empty() {
            return None;
        }
        let end = unstopped(text, b'\n');
        self.rest = rest(text, end + 1);
        Some(Line {
            bytes: &text[..end],
            ended: end < text.len(),
        })
    }
}
