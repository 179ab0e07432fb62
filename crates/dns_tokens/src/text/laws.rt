//! Laws of tokens.

ghost use Rattle.std.specs.Prelude.{◌≡◌, ◌∷◌, ℕ, List};
ghost use Rattle.dns_tokens.specs.{Lists.IsList, Ttl.IsTtl, Tokens.TokenValue, Tokens.FirstToken, Tokens.NoToken, Tokens.Tokens, Tokens.HasNoTokens};

/// A text and its tokens.
#[tactic(auto, using(crate::proofs::FirstSteps::token_laws))]
pub fn tokens_hold()
    // a text has at most one list of tokens
    ensures one { (text : List ℕ) (tokens others : List TokenValue) → Tokens tokens text → Tokens others text →
        tokens ≡ others }
    // it has at most one first token, and one rest after it
    ensures first { (text rest end : List ℕ) (token other : TokenValue) → FirstToken token text rest →
        FirstToken other text end → (token ≡ other) × (rest ≡ end) }
    // it has no first token where it ends
    ensures ends { (text rest : List ℕ) (token : TokenValue) → NoToken text → FirstToken token text rest → ⊥ }
    // its first token is followed by the others: so if a rest has no tokens, the whole text has no list of tokens
    ensures behind { (text rest : List ℕ) (token : TokenValue) (tokens : List TokenValue) → FirstToken token text rest →
        Tokens tokens text → (others : List TokenValue) × (tokens ≡ token ∷ others) × Tokens others rest }
    // a text that is rejected has no list of tokens
    ensures refused { (text : List ℕ) (tokens : List TokenValue) → HasNoTokens text → Tokens tokens text → ⊥ }
{}

/// A text is the text of at most one TTL, and of at most one list of items.
#[tactic(auto, using(crate::proofs::TtlSteps::periods_one, crate::proofs::ListSteps::items_one))]
pub fn texts_hold()
    ensures ttl { (text : List ℕ) (ttl other : ℕ) → IsTtl text ttl → IsTtl text other → ttl ≡ other }
    ensures items { (text : List ℕ) (items others : List (List ℕ)) → IsList text items → IsList text others →
        items ≡ others }
{}
