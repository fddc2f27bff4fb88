//! Blanks and words.

ghost use Rattle.std.specs.Prelude.{◌≡◌, ◌≤◌, false, length, bytes_eq};
ghost use Rattle.std.specs.List.{list_all, prefix_len};
ghost use Rattle.std.specs.Option.{option_map};
ghost use Rattle.std.specs.Char.{is_ascii_digit};
ghost use Rattle.rhd_syntax.specs.Bytes.{is_blank, is_bracket, is_word_byte, may_end};
ghost use Rattle.rhd_syntax.specs.Reading.{skip_blanks, is_end, run_at, word_at, flag_at};
ghost use Rattle.rhd_syntax.specs.Answers.{Gives};

use crate::fault::Stop;

fn is_blank(b: u8) -> bool
    ensures { result ≡ is_blank b }
{
    b == b' ' || b == b'\t'
}

fn is_bracket(b: u8) -> bool
    ensures { result ≡ is_bracket b }
{
    b == b'(' || b == b')' || b == b'[' || b == b']' || b == b'{' || b == b'}'
}

fn is_word_byte(b: u8) -> bool
    ensures { result ≡ is_word_byte b }
{
    // Most are letters.
    b.is_ascii_lowercase() || !(is_blank(b) || is_bracket(b) || b == b'"' || b == b'\'')
}

fn blanks_len(bytes: &[u8]) -> usize
    ensures length { result ≡ prefix_len is_blank bytes.now }
    ensures within { result ≤ length bytes.now }
{
    bytes.iter().take_while(|b| is_blank(**b)).count()
}

fn run_len(bytes: &[u8]) -> usize
    ensures length { result ≡ prefix_len is_word_byte bytes.now }
    ensures within { result ≤ length bytes.now }
{
    bytes.iter().take_while(|b| is_word_byte(**b)).count()
}

/// The bytes after the blanks at the front.
pub fn skip_blanks(bytes: &[u8]) -> &[u8]
    ensures { result.now ≡ skip_blanks bytes.now }
{
    &bytes[blanks_len(bytes)..]
}

/// Whether only blanks are left.
pub fn is_end(bytes: &[u8]) -> bool
    ensures { result ≡ is_end bytes.now }
{
    skip_blanks(bytes).is_empty()
}

/// Whether a word may end before these bytes.
pub fn may_end(bytes: &[u8]) -> bool
    ensures { result ≡ may_end bytes.now }
{
    match bytes {
        [] => true,
        [b, ..] => is_blank(*b) || is_bracket(*b),
    }
}

#[inline(always)]
fn find_run(bytes: &[u8]) -> Option<(&[u8], &[u8])>
    ensures { option_map (λ x. (x.0.now, x.1.now)) result ≡ run_at bytes.now }
{
    let (word, rest) = bytes.split_at(run_len(bytes));
    if word.is_empty() || !may_end(rest) {
        return None;
    }
    Some((word, rest))
}

/// The run of word bytes at the front, of one or more, and the bytes after it.
#[inline(always)]
pub fn run_at(bytes: &[u8]) -> Result<(&[u8], &[u8]), Stop>
    ensures { Gives (λ x. (x.0.now, x.1.now)) result (run_at bytes.now) }
{
    match find_run(bytes) {
        Some(found) => Ok(found),
        None => Err(Stop::Bad),
    }
}

/// The next word, and the bytes after it.
#[tactic(auto, unfolding(crate::specs::Reading::word_at))]
#[inline(always)]
pub fn word_at(bytes: &[u8]) -> Result<(&[u8], &[u8]), Stop>
    ensures { Gives (λ x. (x.0.now, x.1.now)) result (word_at bytes.now) }
{
    run_at(skip_blanks(bytes))
}

#[tactic(auto, unfolding(crate::specs::Reading::word_at))]
fn find_word(bytes: &[u8]) -> Option<(&[u8], &[u8])>
    ensures { option_map (λ x. (x.0.now, x.1.now)) result ≡ word_at bytes.now }
{
    find_run(skip_blanks(bytes))
}

/// Whether two words are the same. It walks as far as they are alike, so one of them should be short.
pub fn same_word(a: &[u8], b: &[u8]) -> bool
    ensures { result ≡ bytes_eq a.now b.now }
{
    match a {
        [] => b.is_empty(),
        [x, xs @ ..] => match b {
            [] => false,
            [y, ys @ ..] => *x == *y && same_word(xs, ys),
        },
    }
}

/// False only where this word doesn't come next, since what comes begins with another byte.
fn may_come(bytes: &[u8], word: &[u8]) -> bool
    ensures { result ≡ false → flag_at word.now bytes.now ≡ (false, bytes.now) }
{
    match skip_blanks(bytes) {
        [first, ..] => match word {
            [own, ..] => *first == *own,
            [] => true,
        },
        [] => true,
    }
}

/// Whether this word comes next, and the bytes after it if it does.
#[tactic(auto, unfolding(crate::specs::Reading::flag_at))]
#[inline(always)]
pub fn flag_at<'a>(bytes: &'a [u8], word: &[u8]) -> (bool, &'a [u8])
    ensures { (result.0, result.1.now) ≡ flag_at word.now bytes.now }
{
    if !may_come(bytes, word) {
        return (false, bytes);
    }
    let Some((next, rest)) = find_word(bytes) else {
        return (false, bytes);
    };
    if same_word(next, word) {
        (true, rest)
    } else {
        (false, bytes)
    }
}

/// Whether all bytes are digits.
pub fn all_digits(word: &[u8]) -> bool
    ensures { result ≡ list_all is_ascii_digit word.now }
{
    word.iter().all(|b| b.is_ascii_digit())
}
