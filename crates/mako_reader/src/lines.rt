//! Lines and words: a line ends at a line feed, and words are apart by one space.

ghost use Rattle.std.specs.Prelude.{◌≡◌, ◌∷◌, ◌<◌, ◌==◌, length, position, IfErr, IfOk};
ghost use Rattle.mako_reader.specs.Finds.{Finds};
ghost use Rattle.mako_reader.specs.Words.{IsFirstLine, IsFirstWord, lines_of, words_behind, words_of};

use crate::refusal::Refusal;
use mako_text::text::place_of;

/// The first line of the text, and the text behind its line feed.
#[tactic(auto, using(crate::proofs::Splits::line_at_place, crate::proofs::Splits::line_at_no_place))]
pub fn next_line(text: &[u8]) -> Result<(&[u8], &[u8]), Refusal>
    ensures read { Finds (IsFirstLine (lines_of text.now)) (λ x. (x.0.now, lines_of x.1.now)) result }
    ensures shorter { IfOk result (λ x. length x.1.now < length text.now) }
    ensures kind { IfErr result (λ e. e ≡ Refusal.Bad) }
{
    match place_of(b'\n', text) {
        Some(end) => Ok((&text[..end], &text[end + 1..])),
        None => Err(Refusal::Bad),
    }
}

/// The first word of a line, and what stands behind it: nothing, or a space and further words.
#[tactic(auto, using(crate::proofs::Splits::words_at_place, crate::proofs::Splits::words_at_no_place))]
pub fn split_word(line: &[u8]) -> (&[u8], &[u8])
    ensures { words_of line.now ≡ result.0.now ∷ words_behind result.1.now }
{
    match place_of(b' ', line) {
        Some(end) => (&line[..end], &line[end..]),
        None => (line, &[]),
    }
}

/// The next word behind others, and what stands behind it.
#[tactic(auto, unfolding(crate::specs::Words::words_behind))]
pub fn next_word(rest: &[u8]) -> Result<(&[u8], &[u8]), Refusal>
    ensures read { Finds (IsFirstWord (words_behind rest.now)) (λ x. (x.0.now, words_behind x.1.now)) result }
    ensures kind { IfErr result (λ e. e ≡ Refusal.Bad) }
{
    match rest {
        [] => Err(Refusal::Bad),
        [_, words @ ..] => Ok(split_word(words)),
    }
}
