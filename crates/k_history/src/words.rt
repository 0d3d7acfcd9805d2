// The words of a line: what stands between its spaces.
ghost use Rattle.std.specs.Prelude.{◌≡◌, ◌∷◌, [], ◌<◌, ◌≤◌, map, take, length, position, MatchOption, IfSome};
ghost use Rattle.std.specs.List.{slice_split};
ghost use Rattle.k_history.specs.Reading.{is_space, parts_of};

/// No line of a history has more words.
pub const MOST_WORDS: usize = 13;

/// The words of a line that has at most 13.
#[derive(Clone, Copy)]
pub struct Words<'a> {
    words: [&'a [u8]; 13],
    count: usize,
}

fn space_at(text: &[u8]) -> Option<usize>
    ensures { result ≡ position is_space text.now }
{
    text.iter().position(|b| *b == b' ')
}

/// The bytes before the first space, and those behind it if there is one.
fn first_part(text: &[u8]) -> (&[u8], Option<&[u8]>)
    ensures shorter { IfSome result.1 (λ rest. length rest.now < length text.now) }
    ensures split { MatchOption result.1
        (slice_split is_space text.now ≡ result.0.now ∷ [])
        (λ rest. slice_split is_space text.now ≡ result.0.now ∷ slice_split is_space rest.now) }
{
    match space_at(text) {
        None => (text, None),
        Some(at) => (&text[..at], Some(&text[at + 1..])),
    }
}

/// The words of a line, or `None` where there are more than 13.
pub fn line_words(line: &[u8]) -> Option<Words<'_>>
    ensures { MatchOption result (13 < length (parts_of line.now)) (λ w. (map (λ x. x.now) (take w.count w.words) ≡ parts_of line.now) × (w.count ≤ 13)) }
{
    let mut words = [line; 13];
    let mut count = 0;
    let mut rest = Some(line);
    while let Some(text) = rest {
        if count == MOST_WORDS {
            return None;
        }
        let (word, after) = first_part(text);
        words[count] = word;
        count += 1;
        rest = after;
    }
    Some(Words { words, count })
}

impl<'a> Words<'a> {
    pub fn as_slice(&self) -> &[&'a [u8]]
        requires { self.now.count ≤ 13 }
        ensures { result.now ≡ take self.now.count self.now.words }
    {
        &self.words[..self.count]
    }
}
