//! Names put together from labels and from other names.

ghost use Rattle.std.specs.Prelude.{◌≡◌, [], ◌∷◌, ◌++◌, OnOk, OnErr, Err, true};
ghost use Rattle.dns_fields.specs.Labels.{IsName};
ghost use Rattle.dns_labels.specs.Labels.{labels_of, AreNameOctets};

use crate::buffer::MAX_OCTETS;
use crate::error::NameError;

/// Appends a label to a name's labels.
///
/// Returns [`Invalid`](NameError::Invalid) if the label has no octets or more than 63, or if the name would have more
/// than 255 octets with the 0 at its end. After an error the octets are unchanged.
#[tactic(auto, using(crate::proofs::Built::label_joined, crate::proofs::Built::label_fits))]
pub fn append_label(octets: &mut Vec<u8>, label: &[u8]) -> Result<(), NameError>
    requires { AreNameOctets octets.old.items }
    ensures ok { OnOk result (labels_of octets.new.items ≡ labels_of octets.old.items ++ label.now ∷ []) }
    ensures octets { AreNameOctets octets.new.items }
    ensures refused { result ≡ Err NameError.Invalid →
        IsName (record { labels = labels_of octets.old.items ++ label.now ∷ []; fully_qualified = true }) → ⊥ }
    ensures err { OnErr result (octets.new.items ≡ octets.old.items) }
{
    let count = label.len();
    if count == 0 || count > 63 || octets.len() + count >= MAX_OCTETS {
        return Err(NameError::Invalid);
    }
    octets.reserve(count + 1)?;
    octets.extend_from_slice(&[count as u8])?;
    octets.extend_from_slice(label)?;
    Ok(())
}

/// Appends a name's labels to another name's.
///
/// Returns [`Invalid`](NameError::Invalid) if there would be more than 255 octets with the 0 at the end. After an error
/// the octets are unchanged.
#[tactic(auto, using(crate::proofs::Built::octets_joined, crate::proofs::Built::octets_fit))]
pub fn append_octets(octets: &mut Vec<u8>, other: &[u8]) -> Result<(), NameError>
    requires octets { AreNameOctets octets.old.items }
    requires other { AreNameOctets other.now }
    ensures ok { OnOk result (labels_of octets.new.items ≡ labels_of octets.old.items ++ labels_of other.now) }
    ensures octets { AreNameOctets octets.new.items }
    ensures refused { result ≡ Err NameError.Invalid →
        IsName (record { labels = labels_of octets.old.items ++ labels_of other.now; fully_qualified = true }) → ⊥ }
    ensures err { OnErr result (octets.new.items ≡ octets.old.items) }
{
    if octets.len() + other.len() > MAX_OCTETS {
        return Err(NameError::Invalid);
    }
    octets.extend_from_slice(other)?;
    Ok(())
}
