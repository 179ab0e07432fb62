//! Laws of names on the wire and of their texts.

ghost use Rattle.std.specs.Prelude.{◌≡◌, ◌↔◌, ℕ, ◌<◌, ◌≤◌, ◌++◌, List, length, map};
ghost use Rattle.std.specs.Char.{to_ascii_lowercase};
ghost use Rattle.dns_fields.specs.{declared.RDataEncoding.RDataEncoding, Names.IsNameIn, Names.NameWrote};
ghost use Rattle.dns_fields.specs.Labels.{DomainName, full_name, IsName, lowname};
ghost use Rattle.dns_labels.specs.Text.{IsNameText, HasOctets, name_text};

/// What holds of names in messages, of written names, and of their order.
#[tactic(auto, using(crate::proofs::Wrote::name_laws))]
pub fn names_hold()
    // at one offset is at most one name, and it has one end
    ensures one { (m : List ℕ) (p : ℕ) (x y : DomainName) (e f : ℕ) →
        IsNameIn m p x e → IsNameIn m p y f → (x ≡ y) × (e ≡ f) }
    // octets after a message change no name in it
    ensures stays { (m more : List ℕ) (p : ℕ) (x : DomainName) (e : ℕ) →
        IsNameIn m p x e → IsNameIn (m ++ more) p x e }
    // a name takes at least one octet, and ends in the message
    ensures inside { (m : List ℕ) (p : ℕ) (x : DomainName) (e : ℕ) →
        IsNameIn m p x e → (p < e) × (e ≤ length m) }
    // what was written is read as that very name, fully qualified, after any octets and whatever follows
    ensures written { (mode : RDataEncoding) (m octets more : List ℕ) (x : DomainName) → NameWrote mode m x octets →
        IsNameIn (octets ++ more) (length m) (full_name x) (length octets) }
    // canonical octets are the same where the labels are, but for the case of their letters
    ensures lowered { (x y : DomainName) → (lowname x ≡ lowname y)
        ↔ (map (map to_ascii_lowercase) x.labels ≡ map (map to_ascii_lowercase) y.labels) }
{}

/// A text is the text of at most one name, and the printed text of a name is read as that name.
#[tactic(auto, using(crate::proofs::NameTexts::one_name, crate::proofs::NameTexts::name_reads))]
pub fn texts_hold()
    ensures one { (text : List ℕ) (x y : DomainName) → IsNameText x text → IsNameText y text → x ≡ y }
    ensures printed { (x : DomainName) → IsName x → HasOctets x → IsNameText x (name_text x) }
{}
