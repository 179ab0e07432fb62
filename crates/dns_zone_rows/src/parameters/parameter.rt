//! Service parameters (RFC 9460, section 2.2).

ghost use Rattle.std.specs.Prelude.{◌<◌, ◌^◌, length};

use dns_types::Octets;

/// A service parameter.
#[derive(Drop)]
pub struct Parameter {
    /// The number of its key.
    pub number: u16,
    /// The octets of its value on the wire.
    pub value: Octets,
    ghost short: { length value < 2 ^ 16 },
}
