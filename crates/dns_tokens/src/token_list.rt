//! The tokens of a list.

ghost use Rattle.std.specs.Prelude.{◌≡◌, drop};
ghost use Rattle.std.specs.Iterator.{YieldsFirst, item_count};

/// An iterator over the tokens of a list. Allocates nothing.
#[derive(Drop)]
pub struct TokenList<'a> {
    tokens: &'a [&'a str],
    index: usize,
}

impl<'a> TokenList<'a> {
    /// Starts at the first token.
    #[inline]
    pub fn new(tokens: &'a [&'a str]) -> TokenList<'a>
        ensures tokens { result.tokens.now ≡ tokens.now }
        ensures first { result.index ≡ 0 }
    {
        TokenList { tokens, index: 0 }
    }
}

impl<'a> Iterator for TokenList<'a> {
    type Item = &'a str;

    ghost next_gives = { YieldsFirst (λ s. drop s.index s.tokens.now) };

    ghost remaining = { item_count (λ s. drop s.index s.tokens.now) };

    #[inline]
    fn next(&mut self) -> Option<&'a str> {
        if self.index >= self.tokens.len() {
            return None;
        }
        let token = self.tokens[self.index];
        self.index += 1;
        Some(token)
    }
}
