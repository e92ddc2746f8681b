//! Lines and words: the parts of a text between separators.
ghost use Rattle.std.specs.Prelude.{◌≡◌, None, Some, option_copied, option_map};
ghost use Rattle.debug_script.specs.Commands.{Two, Three, one, three, two};
ghost use Rattle.debug_script.specs.Parts.{after_part, first_part, parts_after};

/// The part before the first separator, and what stands behind it.
pub fn cut(separator: u8, text: &[u8]) -> (&[u8], Option<&[u8]>)
    ensures first { result.0.now ≡ first_part separator text.now }
    ensures after { option_copied result.1 ≡ after_part separator text.now }
{
    for k in 0..text.len() {
        if text[k] == separator {
            return (&text[..k], Some(&text[k + 1..]));
        }
    }
    (text, None)
}

/// The only word of a text, if that is all there is.
pub fn one_word(text: Option<&[u8]>) -> Option<&[u8]>
    ensures { option_copied result ≡ one (parts_after 32 (option_copied text.entry)) }
{
    let (word, rest) = cut(b' ', text?);
    match rest {
        None => Some(word),
        Some(_) => None,
    }
}

/// Two words, if those are all there is.
pub fn two_words(text: Option<&[u8]>) -> Option<(&[u8], &[u8])>
    ensures { option_map (λ w. record { first = w.0.now; second = w.1.now }) result ≡ two (parts_after 32 (option_copied text.entry)) }
{
    let (first, rest) = cut(b' ', text?);
    Some((first, one_word(rest)?))
}

/// Three words, if those are all there is.
pub fn three_words(text: Option<&[u8]>) -> Option<(&[u8], &[u8], &[u8])>
    ensures { option_map (λ w. record { first = w.0.now; second = w.1.now; third = w.2.now }) result ≡ three (parts_after 32 (option_copied text.entry)) }
{
    let (first, rest) = cut(b' ', text?);
    let (second, third) = two_words(rest)?;
    Some((first, second, third))
}
