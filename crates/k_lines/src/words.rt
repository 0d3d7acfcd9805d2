// Lines and words.
ghost use Rattle.std.specs.Prelude.{◌≡◌, ◌∷◌, [], map, position, MatchOption, IfOk, IfSome, length, ◌<◌};
ghost use Rattle.std.specs.List.{slice_split, list_all, list_any};
ghost use Rattle.k_lines.specs.Words.{is_line_feed, is_blank, is_printed, is_plain_byte, begins_comment, lines_of, words_of, parted, uncommented, is_plain, has_words};

use std::alloc::{AllocError, Global};

/// The first line, and what stands behind its line feed, which the last line may lack. Condition: there are bytes.
pub fn first_line(bytes: &[u8]) -> (&[u8], &[u8])
    requires { 0 < length bytes.now }
    ensures shorter { length result.1.now < length bytes.now }
    ensures split { lines_of bytes.now ≡ result.0.now ∷ lines_of result.1.now }
{
    match line_feed_at(bytes) {
        None => (bytes, &[]),
        Some(at) => (&bytes[..at], &bytes[at + 1..]),
    }
}

fn is_blank(b: u8) -> bool
    ensures { result ≡ is_blank b }
{
    b == b' ' || b == b'\t' || b == b'\r'
}

fn is_printed(b: u8) -> bool
    ensures { result ≡ is_printed b }
{
    33 <= b && b <= 126
}

fn is_plain_byte(b: u8) -> bool
    ensures { result ≡ is_plain_byte b }
{
    is_blank(b) || is_printed(b)
}

/// Whether no byte before the line's comment is bad.
pub fn is_plain(line: &[u8]) -> bool
    ensures { result ≡ is_plain line.now }
{
    has_plain_bytes(without_comment(line))
}

fn has_plain_bytes(text: &[u8]) -> bool
    ensures { result ≡ list_all is_plain_byte text.now }
{
    text.iter().all(|b| is_plain_byte(*b))
}

/// Whether a printed byte stands before the line's comment.
pub fn has_words(line: &[u8]) -> bool
    ensures { result ≡ has_words line.now }
{
    has_printed_bytes(without_comment(line))
}

fn has_printed_bytes(text: &[u8]) -> bool
    ensures { result ≡ list_any is_printed text.now }
{
    text.iter().any(|b| is_printed(*b))
}

/// The bytes before the first blank, and those behind it if there is one.
fn first_part(text: &[u8]) -> (&[u8], Option<&[u8]>)
    ensures shorter { IfSome result.1 (λ rest. length rest.now < length text.now) }
    ensures split { MatchOption result.1
        (slice_split is_blank text.now ≡ result.0.now ∷ [])
        (λ rest. slice_split is_blank text.now ≡ result.0.now ∷ slice_split is_blank rest.now) }
{
    match blank_at(text) {
        None => (text, None),
        Some(at) => (&text[..at], Some(&text[at + 1..])),
    }
}

fn without_comment(line: &[u8]) -> &[u8]
    ensures { result.now ≡ uncommented line.now }
{
    match comment_at(line) {
        None => line,
        Some(at) => &line[..at],
    }
}

fn parts<'a>(alloc: Global, text: &'a [u8]) -> Result<Vec<&'a [u8]>, AllocError>
    ensures { IfOk result (λ words. map (λ w. w.now) words.items ≡ parted text.now) }
{
    let mut words = Vec::new(alloc);
    let mut rest = Some(text);
    while let Some(text) = rest {
        let (word, after) = first_part(text);
        if !word.is_empty() {
            words.push(word)?;
        }
        rest = after;
    }
    Ok(words)
}

/// The words of a line.
pub fn line_words<'a>(alloc: Global, line: &'a [u8]) -> Result<Vec<&'a [u8]>, AllocError>
    ensures { IfOk result (λ words. map (λ w. w.now) words.items ≡ words_of line.now) }
{
    parts(alloc, without_comment(line))
}

fn line_feed_at(bytes: &[u8]) -> Option<usize>
    ensures { result ≡ position is_line_feed bytes.now }
{
    bytes.iter().position(|b| *b == b'\n')
}

fn blank_at(bytes: &[u8]) -> Option<usize>
    ensures { result ≡ position is_blank bytes.now }
{
    bytes.iter().position(|b| is_blank(*b))
}

fn comment_at(bytes: &[u8]) -> Option<usize>
    ensures { result ≡ position begins_comment bytes.now }
{
    bytes.iter().position(|b| *b == b';')
}
