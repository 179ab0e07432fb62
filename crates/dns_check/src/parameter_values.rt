//! The values of service parameters (RFC 9460, 7 and 8; RFC 9461, 5).

ghost use Rattle.std.specs.Prelude.{◌≡◌, ◌↔◌, true, IsTrue, IsUtf8, OnOk, IfErr};
ghost use Rattle.dns_fields.specs.Octets.{AreOctets};
ghost use Rattle.dns_fields.specs.Tlvs.{Keys, Names};
ghost use Rattle.dns_check.specs.ParameterValues.{HasForm, HasValue, IsFormError, IsKeyError};

use dns_types::DecodeError;

/// For the proof: what a slice holds are numbers of 0 to 255.
#[inline]
pub fn are_octets(octets: &[u8])
    ensures { AreOctets octets.now }
{
    let _ = octets;
}

// Returns whether all octets are ASCII, as those of most texts are.
#[inline]
#[tactic(auto, using(crate::proofs::ValueForms::all_ascii))]
fn are_ascii(octets: &[u8]) -> bool
    ensures { result ≡ true → IsUtf8 octets.now }
{
    for octet in octets {
        if *octet >= 128 {
            return false;
        }
    }
    true
}

/// Returns whether the octets are UTF-8.
#[inline]
pub fn is_text(octets: &[u8]) -> bool
    ensures { IsTrue result ↔ IsUtf8 octets.now }
{
    are_ascii(octets) || str::from_utf8(octets).is_ok()
}

// Checks a list of protocols (RFC 9460, 7.1.1): at least one name, each of them UTF-8.
#[tactic(auto, using(crate::proofs::ValueForms::names_all, crate::proofs::ValueForms::names_done))]
fn check_names(octets: &[u8]) -> Result<(), DecodeError>
    ensures found { OnOk result (HasForm Names octets.now) }
    ensures refused { IfErr result (λ e. IsFormError Names octets.now e) }
{
    if octets.len() == 0 {
        return Err(DecodeError::SvcParamMissingValue);
    }
    let mut rest = octets;
    'names: while rest.len() > 0 {
        let len = rest[0] as usize;
        if rest.len() - 1 < len {
            return Err(DecodeError::InsufficientBytes);
        }
        if !is_text(&rest[1..1 + len]) {
            return Err(DecodeError::Utf8);
        }
        rest = &rest[1 + len..];
    }
    Ok(())
}

// Checks the keys that a client has to know (RFC 9460, 8): at least one, of two octets each.
#[inline]
#[tactic(auto, using(crate::proofs::ValueForms::keys_form))]
fn check_keys(octets: &[u8]) -> Result<(), DecodeError>
    ensures found { OnOk result (HasForm Keys octets.now) }
    ensures refused { IfErr result (λ e. IsFormError Keys octets.now e) }
{
    are_octets(octets);
    if octets.len() == 0 {
        return Err(DecodeError::SvcParamMissingValue);
    }
    if octets.len() % 2 != 0 {
        return Err(DecodeError::InsufficientBytes);
    }
    Ok(())
}

/// Checks that octets are a value of a service parameter of this key. Allocates nothing.
///
/// # Errors
///
/// - [`SvcParamMissingValue`](DecodeError::SvcParamMissingValue): no keys that a client has to know, or no protocols.
/// - [`InsufficientBytes`](DecodeError::InsufficientBytes): the octets end within a key, a protocol, a port or an address.
/// - [`Utf8`](DecodeError::Utf8): a protocol, or a path of DNS queries, is not UTF-8.
/// - [`IncorrectRDataLengthRead`](DecodeError::IncorrectRDataLengthRead): octets of the key that has none.
pub(crate) fn check_value(key: u16, octets: &[u8]) -> Result<(), DecodeError>
    ensures found { OnOk result (HasValue key octets.now) }
    ensures refused { IfErr result (λ e. IsKeyError key octets.now e) }
{
    are_octets(octets);
    let short = Err(DecodeError::InsufficientBytes);
    match key {
        0 => check_keys(octets),
        1 => check_names(octets),
        2 => match octets.len() {
            0 => Ok(()),
            read => Err(DecodeError::IncorrectRDataLengthRead { read, len: 0 }),
        },
        3 => {
            if octets.len() < 2 {
                return short;
            }
            Ok(())
        }
        4 => {
            if octets.len() % 4 != 0 {
                return short;
            }
            Ok(())
        }
        6 => {
            if octets.len() % 16 != 0 {
                return short;
            }
            Ok(())
        }
        7 => {
            if !is_text(octets) {
                return Err(DecodeError::Utf8);
            }
            Ok(())
        }
        _ => Ok(()),
    }
}
