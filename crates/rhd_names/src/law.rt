//! Laws of names and tokens.

ghost use Rattle.std.specs.Prelude.{◌≡◌, ◌↔◌, List, ◌++◌, ℕ, Some, true, false, codes};
ghost use Rattle.rhd_names.specs.declared.token.OpToken.{OpToken};
ghost use Rattle.rhd_names.specs.Tokens.{token_text, token_of};
ghost use Rattle.rhd_names.specs.Names.{is_reserved, is_identifier, is_anonymous};

/// A text is looked up as the token that is written so, and as no other.
pub fn a_token_is_looked_up_by_its_text()
    ensures { (text : List ℕ) (t : OpToken) → (token_of text ≡ Some t) ↔ (text ≡ token_text t) }
{}

/// No text is both reserved and a token.
pub fn no_token_is_reserved()
    ensures { (t : OpToken) → is_reserved (token_text t) ≡ false }
{}

/// The name of a property is neither an identifier nor anonymous.
pub fn no_property_is_an_identifier()
    ensures getters { (name : List ℕ) → (is_identifier (codes "get$" ++ name) ≡ false) × (is_anonymous (codes "get$" ++ name) ≡ false) }
    ensures setters { (name : List ℕ) → (is_identifier (codes "set$" ++ name) ≡ false) × (is_anonymous (codes "set$" ++ name) ≡ false) }
{}

/// An anonymous name is no identifier.
pub fn no_anonymous_name_is_an_identifier()
    ensures { (name : List ℕ) → is_anonymous name ≡ true → is_identifier name ≡ false }
{}
