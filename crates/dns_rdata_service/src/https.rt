//! HTTPS: how a web service is reached (RFC 9460, section 9).

ghost use Rattle.std.specs.Prelude.{◌≡◌, ◌≤◌, length, refl, IfOk};
ghost use Rattle.std.specs.{List.Sorted.IsPermutation, List.Sorted.IsNonDecreasingBy, List.Sorted.IsStableByKey, Ordering.nat_cmp};
ghost use Rattle.dns_rdata_service.specs.{SVCB.number_of_parameter, HTTPS.https_facts};

use crate::svcb::SVCB;
use dns_check::DecodesRow;
use dns_names_wire::{
    BinDecoder, BinEncoder, DecodeError, EncodesFields, ProtoError, RDataEncoding, Record, Restrict,
};
use dns_rows::{Part, row};
use std::alloc::AllocError;
use std::fmt;
use std::ops::Deref;

/// How a web service is reached (RFC 9460, section 9): the fields of SVCB.
#[derive(Debug, Drop, Eq, Hash, PartialEq)]
pub struct HTTPS(pub SVCB);

impl HTTPS {
    /// Sorts the parameters by the numbers of their keys, as `SVCB::sort_params` does. Allocates nothing.
    #[inline]
    pub fn sort_params(&mut self)
        ensures permutation { IsPermutation self.old.0.svc_params self.new.0.svc_params }
        ensures order { IsNonDecreasingBy number_of_parameter self.new.0.svc_params }
        ensures stable { length self.old.0.svc_params ≤ 20 →
            IsStableByKey number_of_parameter nat_cmp self.old.0.svc_params self.new.0.svc_params }
        ensures priority { self.new.0.svc_priority ≡ self.old.0.svc_priority }
        ensures target { self.new.0.target_name ≡ self.old.0.target_name }
    {
        self.0.sort_params();
    }
}

impl Record for HTTPS {
    ghost facts = { https_facts };

    #[inline]
    fn row() -> &'static [Part] {
        &row::SVCB
    }
}

impl DecodesRow for HTTPS {
    ghost checked = { refl };

    /// Reads the fields of an SVCB.
    #[inline]
    fn read_row(decoder: &mut BinDecoder<'_>, length: Restrict<u16>) -> Result<HTTPS, DecodeError> {
        Ok(HTTPS(SVCB::read_row(decoder, length)?))
    }
}

impl EncodesFields for HTTPS {
    ghost use Rattle.dns_fields.specs.declared.RDataEncoding.TheVariants as modes;

    /// The target name is written uncompressed, its case preserved.
    const MODE: RDataEncoding = RDataEncoding::Other;

    ghost MODE = { modes.Other };

    /// Appends the fields of the SVCB. The errors are those of `SVCB`.
    #[inline]
    fn emit_fields(&self, encoder: &mut BinEncoder<'_>) -> Result<(), ProtoError> {
        self.0.emit_fields(encoder)
    }
}

impl Deref for HTTPS {
    type Target = SVCB;

    ghost deref_gives = { λ x svcb. svcb ≡ x.0 };

    /// The SVCB.
    #[inline]
    fn deref(&self) -> &SVCB {
        &self.0
    }
}

impl Clone for HTTPS {
    ghost is_clone = { λ a b. b ≡ a };

    /// Copies the record.
    #[inline]
    fn clone(&self) -> Result<HTTPS, AllocError>
        ensures { IfOk result (λ copy. copy ≡ self.now) }
    {
        Ok(HTTPS(self.0.clone()?))
    }
}

impl fmt::Display for HTTPS {
    ghost use Rattle.std.specs.Prelude.{Some};
    ghost use Rattle.dns_rdata_service.specs.SVCB.{svcb_text};

    ghost output = { λ x. Some (svcb_text x.0) };

    /// Writes the text of the SVCB.
    fn fmt<W: fmt::Write>(&self, f: &mut fmt::Formatter<W>) -> fmt::Result {
        let svcb = &self.0;
        write!(f, "{svcb}")
    }
}
