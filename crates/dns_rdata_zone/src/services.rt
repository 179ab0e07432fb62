//! Service bindings printed for zone files (RFC 9460, section 2.1).

ghost use Rattle.std.specs.Prelude.{◌≡◌, ◌*◌, ◌^◌, ◌≤◌, Some, IfSome, IfNone, length, drop};
ghost use Rattle.std.specs.Fmt.{DisplaysOnOk};
ghost use Rattle.hex.specs.Hex.{encode_lower};
ghost use Rattle.dns_fields.specs.Fields.{canonical};
ghost use Rattle.dns_rdata.specs.Data.{data_octets};
ghost use Rattle.dns_rdata_service.specs.SVCB.{svcb_shape, svcb_fields};
ghost use Rattle.dns_rdata_zone.specs.{Generic.generic, Services.service_text, Services.service_octets, Services.zone_service, Tokens.tokens_from};

use crate::generic::NameDigits;
use crate::names::ZoneName;
use crate::parameters::{ZoneParameter, have_text};
use crate::tokens::{HEX_OCTETS, HexTokens, left_after};
use dns_canonical::Head;
use dns_rdata::{CanonicalOctets, RData, SVCB};
use dns_rdata_certs::hexadecimal::Hexadecimal;
use std::fmt;

/// Priority, target, and each parameter.
#[derive(Clone, Copy)]
struct ServiceText<'a>(&'a SVCB);

impl fmt::Display for ServiceText<'_> {
    ghost output = { λ z. Some (service_text z.0.now) };

    fn fmt<W: fmt::Write>(&self, f: &mut fmt::Formatter<W>) -> fmt::Result {
        let priority = self.0.svc_priority;
        let target = ZoneName(&self.0.target_name);
        write!(f, "{priority} {target}")?;
        for parameter in self.0.svc_params.as_slice() {
            let parameter = ZoneParameter(parameter);
            write!(f, " {parameter}")?;
        }
        Ok(())
    }
}

/// Writes the service binding that `rdata` is: its text, or the unknown-data form if a parameter has no text.
pub(crate) fn write_service<W: fmt::Write>(
    rdata: &RData,
    x: &SVCB,
    f: &mut fmt::Formatter<W>,
) -> fmt::Result
    requires { data_octets rdata.now ≡ canonical svcb_shape (svcb_fields x.now) }
    ensures { DisplaysOnOk W.write_str_gives f.old result (Some (zone_service x.now)) f.new }
{
    if have_text(x.svc_params.as_slice()) {
        let text = ServiceText(x);
        return write!(f, "{text}");
    }
    write_generic(rdata, x, f)
}

// How many canonical octets there are. `None` if 64 bits do not hold the number.
pub(crate) fn count_octets(rdata: &RData) -> Option<u64>
    ensures some { IfSome result (λ n. n ≡ length (data_octets rdata.now)) }
    ensures none { IfNone result (2 ^ 64 ≤ length (data_octets rdata.now)) }
{
    let mut octets = rdata.canonical_octets();
    let mut count = 0u64;
    'octets: while let Some(_octet) = octets.next() {
        if count == u64::MAX {
            return None;
        }
        count += 1;
    }
    Some(count)
}

// The canonical octets after the first n.
fn octets_behind(rdata: &RData, n: usize) -> CanonicalOctets<'_>
    ensures { result.octets ≡ drop n (data_octets rdata.now) }
{
    let mut octets = rdata.canonical_octets();
    for i in 0..n {
        let _ = i;
        let _before = octets.next();
    }
    octets
}

// Writes the remaining canonical octets in hexadecimal, in tokens, of which the first takes `left` more octets.
fn write_digits<W: fmt::Write>(
    octets: &mut CanonicalOctets<'_>,
    left: usize,
    f: &mut fmt::Formatter<W>,
) -> fmt::Result
    ensures { DisplaysOnOk W.write_str_gives f.old result (Some (tokens_from (2 * left) (encode_lower octets.old.octets))) f.new }
{
    let mut left = left;
    'octets: loop {
        match octets.next() {
            None => return Ok(()),
            Some(octet) => {
                f.write(HexTokens {
                    octets: &[octet],
                    left,
                })?;
                left = left_after(left, 1);
            }
        }
    }
}

// Writes the unknown-data form: the canonical octets, but with the case of the target preserved.
fn write_generic<W: fmt::Write>(rdata: &RData, x: &SVCB, f: &mut fmt::Formatter<W>) -> fmt::Result
    requires { data_octets rdata.now ≡ canonical svcb_shape (svcb_fields x.now) }
    ensures { DisplaysOnOk W.write_str_gives f.old result (Some (generic (service_octets x.now))) f.new }
{
    let Some(count) = count_octets(rdata) else {
        return Err(fmt::Error);
    };
    let mut head = Head::new();
    head.two(x.svc_priority);
    let priority = Hexadecimal(head.as_slice());
    let target = NameDigits(&x.target_name);
    write!(f, "\\# {count} {priority}{target}")?;
    let mut octets = octets_behind(rdata, x.target_name.len() + 2);
    write_digits(&mut octets, HEX_OCTETS - 2 - x.target_name.len(), f)
}
