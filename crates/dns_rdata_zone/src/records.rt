//! Records of numbers, strings and names whose zone text is not their display text, or not always.

ghost use Rattle.std.specs.{Prelude.◌≡◌, Prelude.Some, Char.is_ascii_alphanumeric, List.list_all};
ghost use Rattle.dns_rdata_zone.specs.Records.{zone_hinfo, zone_txt, zone_naptr, zone_soa, has_plain_tag, zone_caa, zone_type, zone_csync};

use crate::names::ZoneName;
use crate::strings::{Quoted, Spaced};
use crate::tokens::{HEX_OCTETS, HexTokens};
use dns_canonical::Head;
use dns_rdata::{CAA, CSYNC, HINFO, NAPTR, RecordType, SOA, TXT};
use dns_rdata_certs::hexadecimal::Hexadecimal;
use std::{fmt, str};

/// HINFO: two strings.
#[derive(Clone, Copy)]
pub(crate) struct ZoneHinfo<'a>(pub &'a HINFO);

impl fmt::Display for ZoneHinfo<'_> {
    ghost output = { λ z. Some (zone_hinfo z.0.now) };

    fn fmt<W: fmt::Write>(&self, f: &mut fmt::Formatter<W>) -> fmt::Result {
        let cpu = Quoted(self.0.cpu.as_slice());
        let os = Quoted(self.0.os.as_slice());
        write!(f, "{cpu} {os}")
    }
}

/// TXT: strings; without any the unknown-data form.
#[derive(Clone, Copy)]
pub(crate) struct ZoneTxt<'a>(pub &'a TXT);

impl fmt::Display for ZoneTxt<'_> {
    ghost output = { λ z. Some (zone_txt z.0.now) };

    fn fmt<W: fmt::Write>(&self, f: &mut fmt::Formatter<W>) -> fmt::Result {
        let strings = self.0.txt_data.as_slice();
        let Some((first, others)) = strings.split_first() else {
            return f.write_str("\\# 0");
        };
        let first = Quoted(first.as_slice());
        let others = Spaced(others);
        write!(f, "{first}{others}")
    }
}

/// NAPTR: two numbers, three strings, a name.
#[derive(Clone, Copy)]
pub(crate) struct ZoneNaptr<'a>(pub &'a NAPTR);

impl fmt::Display for ZoneNaptr<'_> {
    ghost output = { λ z. Some (zone_naptr z.0.now) };

    fn fmt<W: fmt::Write>(&self, f: &mut fmt::Formatter<W>) -> fmt::Result {
        let x = self.0;
        let flags = Quoted(x.flags.as_slice());
        let services = Quoted(x.services.as_slice());
        let regexp = Quoted(x.regexp.as_slice());
        let replacement = ZoneName(&x.replacement);
        write!(f, "{} {}", x.order, x.preference)?;
        write!(f, " {flags} {services} {regexp} {replacement}")
    }
}

/// SOA: two names and five numbers without signs.
#[derive(Clone, Copy)]
pub(crate) struct ZoneSoa<'a>(pub &'a SOA);

impl fmt::Display for ZoneSoa<'_> {
    ghost output = { λ z. Some (zone_soa z.0.now) };

    fn fmt<W: fmt::Write>(&self, f: &mut fmt::Formatter<W>) -> fmt::Result {
        let x = self.0;
        let mname = ZoneName(&x.mname);
        let rname = ZoneName(&x.rname);
        let refresh = x.refresh.cast_unsigned();
        let retry = x.retry.cast_unsigned();
        let expire = x.expire.cast_unsigned();
        write!(f, "{mname} {rname} {}", x.serial)?;
        write!(f, " {refresh} {retry} {expire} {}", x.minimum)
    }
}

// Whether each octet is a letter or a digit of ASCII.
fn are_alphanumeric(octets: &[u8]) -> bool
    ensures { result ≡ list_all is_ascii_alphanumeric octets.now }
{
    octets.iter().all(|c| c.is_ascii_alphanumeric())
}

// Whether a tag can be written in a text: it has only letters and digits, and at least one.
fn has_plain_tag(x: &CAA) -> bool
    ensures { result ≡ has_plain_tag x.now }
{
    x.tag.len() != 0 && are_alphanumeric(x.tag.as_slice())
}

/// CAA: flags, tag and value; if the tag has other octets than letters and digits, the unknown-data form.
#[derive(Clone, Copy)]
pub(crate) struct ZoneCaa<'a>(pub &'a CAA);

impl fmt::Display for ZoneCaa<'_> {
    ghost output = { λ z. Some (zone_caa z.0.now) };

    #[tactic(auto, unfolding(dns_fields::specs::Fields::field_octets))]
    fn fmt<W: fmt::Write>(&self, f: &mut fmt::Formatter<W>) -> fmt::Result {
        let x = self.0;
        let flags = x.flags();
        let tag = x.tag.as_slice();
        if has_plain_tag(x) {
            let tag = str::from_utf8(tag).map_err(|_| fmt::Error)?;
            let value = Quoted(x.value.as_slice());
            return write!(f, "{flags} {tag} {value}");
        }
        if tag.len() > 255 {
            return Err(fmt::Error);
        }
        let value = x.value.as_slice();
        let count = 2 + tag.len() + value.len();
        let mut head = Head::new();
        head.one(flags);
        head.one(tag.len() as u8);
        let head = Hexadecimal(head.as_slice());
        let value = HexTokens {
            octets: value,
            left: HEX_OCTETS - 2 - tag.len(),
        };
        let tag = Hexadecimal(tag);
        write!(f, "\\# {count} {head}{tag}{value}")
    }
}

/// A type as zone files have it: without a mnemonic by its number (RFC 3597, section 5).
#[derive(Clone, Copy)]
pub(crate) struct ZoneType(pub RecordType);

impl fmt::Display for ZoneType {
    ghost output = { λ t. Some (zone_type t.0) };

    fn fmt<W: fmt::Write>(&self, f: &mut fmt::Formatter<W>) -> fmt::Result {
        match self.0 {
            RecordType::ZERO => f.write_str("TYPE0"),
            RecordType::ANAME => f.write_str("TYPE65305"),
            kind => write!(f, "{kind}"),
        }
    }
}

/// CSYNC: serial, flags, types.
#[derive(Clone, Copy)]
pub(crate) struct ZoneCsync<'a>(pub &'a CSYNC);

impl fmt::Display for ZoneCsync<'_> {
    ghost output = { λ z. Some (zone_csync z.0.now) };

    fn fmt<W: fmt::Write>(&self, f: &mut fmt::Formatter<W>) -> fmt::Result {
        let serial = self.0.soa_serial;
        let flags = self.0.flags();
        write!(f, "{serial} {flags}")?;
        for kind in self.0.type_bit_maps.iter() {
            let kind = ZoneType(kind);
            write!(f, " {kind}")?;
        }
        Ok(())
    }
}
