//! A text is cut into its tokens.

ghost use Rattle.std.specs.Prelude.{◌≡◌, ◌==◌, ◌++◌, [], ◌∷◌, false, All, MatchOption};

/// The tokens of a text that are still to be read; one such byte stands between two of them.
#[derive(Drop)]
pub(crate) struct Tokens<'a> {
    /// The rest of the text: none behind the last token.
    rest: Option<&'a [u8]>,
    between: u8,
}

impl<'a> Tokens<'a> {
    ghost use Rattle.call_script.specs.Tokens.{pieces_of, tokens_left};

    pub(crate) fn new(text: &'a [u8], between: u8) -> Tokens<'a>
        ensures { tokens_left result ≡ pieces_of between text.now }
    {
        Tokens {
            rest: Some(text),
            between,
        }
    }

    /// The next token: none behind the last.
    pub(crate) fn next(&mut self) -> Option<&'a [u8]>
        ensures { MatchOption result (tokens_left self.old ≡ []) (λ token. tokens_left self.old
            ≡ token.now ∷ tokens_left self.new) }
    {
        let rest = self.rest?;
        match split_at_byte(rest, self.between) {
            Some((token, after)) => {
                self.rest = Some(after);
                Some(token)
            }
            None => {
                self.rest = None;
                Some(rest)
            }
        }
    }
}

/// What stands before the first such byte, and what stands behind it: none where there is none.
pub(crate) fn split_at_byte(text: &[u8], byte: u8) -> Option<(&[u8], &[u8])>
    ensures { MatchOption result
        (All (λ b. (b == byte) ≡ false) text.now)
        (λ parts. (text.now ≡ parts.0.now ++ (byte ∷ parts.1.now))
        × All (λ b. (b == byte) ≡ false) parts.0.now) }
{
    let at = text.iter().position(|b| *b == byte)?;
    Some((&text[..at], &text[at + 1..]))
}
