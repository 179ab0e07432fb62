//! Certificates, keys and hashes. Without data they print in the unknown-data form.

ghost use Rattle.std.specs.Prelude.{Some};
ghost use Rattle.dns_rdata_zone.specs.Records.{zone_cert, zone_sshfp, zone_tlsa, zone_openpgpkey};

use crate::generic::Generic;
use crate::tokens::{Base64Tokens, HexTokens};
use dns_canonical::Head;
use dns_rdata::{CERT, OPENPGPKEY, SSHFP, TLSA};
use std::fmt;

/// CERT: numbers in decimal, and base64; without a certificate the unknown-data form.
#[derive(Clone, Copy)]
pub(crate) struct ZoneCert<'a>(pub &'a CERT);

impl fmt::Display for ZoneCert<'_> {
    ghost output = { λ z. Some (zone_cert z.0.now) };

    #[tactic(auto, unfolding(dns_fields::specs::Fields::field_octets))]
    fn fmt<W: fmt::Write>(&self, f: &mut fmt::Formatter<W>) -> fmt::Result {
        let x = self.0;
        let data = x.cert_data.as_slice();
        if data.is_empty() {
            let mut head = Head::new();
            head.two(x.cert_type.number());
            head.two(x.key_tag);
            head.one(x.algorithm.number());
            return f.write(Generic(head.as_slice()));
        }
        let cert_type = x.cert_type.number();
        let algorithm = x.algorithm.number();
        let data = Base64Tokens(data);
        write!(f, "{cert_type} {} {algorithm} {data}", x.key_tag)
    }
}

/// SSHFP; without a fingerprint the unknown-data form.
#[derive(Clone, Copy)]
pub(crate) struct ZoneSshfp<'a>(pub &'a SSHFP);

impl fmt::Display for ZoneSshfp<'_> {
    ghost output = { λ z. Some (zone_sshfp z.0.now) };

    #[tactic(auto, unfolding(dns_fields::specs::Fields::field_octets))]
    fn fmt<W: fmt::Write>(&self, f: &mut fmt::Formatter<W>) -> fmt::Result {
        let x = self.0;
        if x.fingerprint.is_empty() {
            let mut head = Head::new();
            head.one(x.algorithm.number());
            head.one(x.fingerprint_type.number());
            return f.write(Generic(head.as_slice()));
        }
        let algorithm = x.algorithm.number();
        let fingerprint_type = x.fingerprint_type.number();
        let fingerprint = HexTokens::new(x.fingerprint.as_slice());
        write!(f, "{algorithm} {fingerprint_type} {fingerprint}")
    }
}

/// TLSA; without data the unknown-data form.
#[derive(Clone, Copy)]
pub(crate) struct ZoneTlsa<'a>(pub &'a TLSA);

impl fmt::Display for ZoneTlsa<'_> {
    ghost output = { λ z. Some (zone_tlsa z.0.now) };

    #[tactic(auto, unfolding(dns_fields::specs::Fields::field_octets))]
    fn fmt<W: fmt::Write>(&self, f: &mut fmt::Formatter<W>) -> fmt::Result {
        let x = self.0;
        if x.cert_data.is_empty() {
            let mut head = Head::new();
            head.one(x.cert_usage.number());
            head.one(x.selector.number());
            head.one(x.matching.number());
            return f.write(Generic(head.as_slice()));
        }
        let usage = x.cert_usage.number();
        let selector = x.selector.number();
        let matching = x.matching.number();
        let data = HexTokens::new(x.cert_data.as_slice());
        write!(f, "{usage} {selector} {matching} {data}")
    }
}

/// OPENPGPKEY; without a key the unknown-data form.
#[derive(Clone, Copy)]
pub(crate) struct ZoneOpenpgpkey<'a>(pub &'a OPENPGPKEY);

impl fmt::Display for ZoneOpenpgpkey<'_> {
    ghost output = { λ z. Some (zone_openpgpkey z.0.now) };

    fn fmt<W: fmt::Write>(&self, f: &mut fmt::Formatter<W>) -> fmt::Result {
        let x = self.0;
        if x.public_key.is_empty() {
            return f.write_str("\\# 0");
        }
        f.write(Base64Tokens(x.public_key.as_slice()))
    }
}
