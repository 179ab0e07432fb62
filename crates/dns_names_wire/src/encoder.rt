//! Writes a message.

ghost use Rattle.std.specs.Prelude.{◌≡◌, ◌≢◌, ◌+◌, ◌<◌, ◌≤◌, ◌^◌, ◌↔◌, ◌⊎◌, ℕ, Bool, IsTrue, IfErr, List, [], ◌∷◌, ◌++◌, length, take, drop, IfOk, OnOk, OnErr};
ghost use Rattle.std.specs.Int.{cast_unsigned, bytes_high_first, w32};
ghost use Rattle.dns_fields.specs.{declared.Kind.TheVariants.Number, declared.Kind.TheVariants.Rest};
ghost use Rattle.dns_fields.specs.{declared.Kind.TheVariants.CharacterString, declared.Kind.TheVariants.Name};
ghost use Rattle.dns_fields.specs.{Octets.AreOctets, Names.NameWrote};
ghost use Rattle.dns_names_wire.specs.{Terms.EmitsField, Terms.AppendedField, Terms.StoppedField, Terms.Keeps, Terms.Because, State.Writing};
ghost use Rattle.dns_labels.specs.{Labels.AreNameOctets, Labels.name_of, Messages.StaysInVector};

use dns_fields::RDataEncoding;
use dns_labels::writing::write_name;
use dns_labels::{MessageOctets, NameOffsets, WriteError};
use dns_types::ProtoError;
use std::alloc::Global;
use std::marker::Model;

// The most octets of a message over TCP (RFC 1035, section 4.2.2).
const MAX_SIZE: usize = 65535;

/// Writes a message (RFC 1035, section 4.1) to the end of a vector, up to a limit.
///
/// Each call appends everything or nothing. It fails with `Memory` if an allocation fails, and with
/// `MaxBufferSizeExceeded` exactly if the octets would pass the limit. On error the octets that were there are
/// unchanged. Appending allocates as the vector grows.
///
/// ```rust
/// fn emit_record(
///     encoder: &mut BinEncoder<'_>,
///     owner: &Name,
///     ttl: u32,
///     rdata: &RData,
/// ) -> ProtoResult<()> {
///     owner.emit(encoder)?;
///     rdata.record_type().emit(encoder)?;
///     encoder.emit_u16(IN)?;
///     encoder.emit_u32(ttl)?;
///     let place = encoder.place()?;
///     rdata.emit(encoder)?;
///     let length = encoder.len_since_place(&place);
///     encoder.replace(place, length as u16);
///     Ok(())
/// }
/// ```
#[derive(Drop)]
pub struct BinEncoder<'a> {
    alloc: Global,
    message: MessageOctets<'a>,
    limit: usize,
    mode: RDataEncoding,
    // the offsets of labels of names
    name_offsets: NameOffsets,
}

impl<'a> Model for BinEncoder<'a> {
    ghost Value = { Writing };

    ghost view = { λ e. record { before = e.message.before; octets = e.message.items; limit = e.limit; mode = e.mode; target = e.message.vector } };

    ghost invariant = { λ e. (e.limit ≤ 65535) × AreOctets e.message.items × (length e.message.items ≤ 65535) };
}

/// Two octets of the message that are reserved for a number, such as RDLENGTH.
#[derive(Clone, Copy, Debug, PartialEq, Eq)]
pub struct Place {
    /// The offset of the first of the two octets.
    pub index: usize,
}

impl<'a> BinEncoder<'a> {
    /// An encoder of a message that begins where the vector ends. It starts without octets, with the limit 65535, and
    /// in the mode of RFC 1035's records, which compresses names. What the vector has already, such as the two octets
    /// of a length for TCP (RFC 1035, section 4.2.2), precedes the message: it never changes, and compression pointers
    /// do not count it. Offsets of compressed names are kept in memory of `alloc`.
    #[inline]
    pub fn new(alloc: Global, octets: &'a mut Vec<u8>) -> BinEncoder<'a>
        ensures { result ≡ record { before = octets.old.items; octets = []; limit = 65535; mode = RDataEncoding.StandardRecord; target = octets.entry.ghost_name } }
    {
        let start = octets.len();
        BinEncoder::starting(alloc, start, octets)
    }

    /// An encoder of a message that begins at this offset of the vector: what the vector has from there on are the
    /// message's first octets, as a header that was written by other means. Limit and mode are those of
    /// [`new`](BinEncoder::new).
    ///
    /// # Errors
    ///
    /// - [`Message`](ProtoError::Message): the offset is past the vector's end.
    /// - [`MaxBufferSizeExceeded`](ProtoError::MaxBufferSizeExceeded): the vector has more than 65535 octets from the
    ///   offset on.
    pub fn with_offset(
        alloc: Global,
        octets: &'a mut Vec<u8>,
        offset: usize,
    ) -> Result<BinEncoder<'a>, ProtoError>
        ensures starts { IfOk result (λ e. e ≡ record { before = take offset octets.old.items; octets = drop offset octets.old.items; limit = 65535; mode = RDataEncoding.StandardRecord; target = octets.entry.ghost_name }) }
        ensures inside { OnOk result ((offset ≤ length octets.old.items) × (length octets.old.items ≤ offset + 65535)) }
        ensures why { IfErr result (λ e. Because e (offset + 65535 < length octets.old.items) (length octets.old.items < offset)) }
        ensures memory { IfErr result (λ e. e ≢ ProtoError.Memory) }
    {
        let len = octets.len();
        if offset > len {
            return Err(ProtoError::Message("offset past the end of the vector"));
        }
        if len - offset > MAX_SIZE {
            return Err(ProtoError::MaxBufferSizeExceeded);
        }
        Ok(BinEncoder::starting(alloc, offset, octets))
    }

    // An encoder of the message that begins at this offset of the vector.
    #[inline]
    fn starting(alloc: Global, start: usize, octets: &'a mut Vec<u8>) -> BinEncoder<'a>
        requires inside { start ≤ length octets.old.items }
        requires short { length octets.old.items ≤ start + 65535 }
        ensures { result ≡ record { before = take start octets.old.items; octets = drop start octets.old.items; limit = 65535; mode = RDataEncoding.StandardRecord; target = octets.entry.ghost_name } }
    {
        BinEncoder {
            alloc,
            message: MessageOctets::new(start, octets),
            limit: MAX_SIZE,
            mode: RDataEncoding::StandardRecord,
            name_offsets: NameOffsets::new(alloc),
        }
    }

    /// Ends the message, and returns the vector with its octets.
    #[inline]
    pub fn into_bytes(self) -> &'a mut Vec<u8>
        ensures same { result.ghost_name ≡ self.entry.target }
        ensures octets { result.now.items ≡ self.entry.before ++ self.entry.octets }
    {
        let BinEncoder { message, .. } = self;
        message.into_vec()
    }

    /// The allocator of the table of names.
    #[inline]
    pub fn allocator(&self) -> Global {
        self.alloc
    }

    /// How many octets the message has: at most 65535.
    #[inline]
    pub fn len(&self) -> usize
        ensures value { result ≡ length self.now.octets }
        ensures small { result ≤ 65535 }
        ensures limited { self.now.limit ≤ 65535 }
        ensures octets { AreOctets self.now.octets }
    {
        self.message.len()
    }

    /// Whether the message has no octet.
    #[inline]
    pub fn is_empty(&self) -> bool
        ensures { IsTrue result ↔ (self.now.octets ≡ []) }
    {
        self.message.is_empty()
    }

    /// Sets how many octets the message may have. Octets that are there stay, also past the new limit.
    #[inline]
    pub fn set_max_size(&mut self, max: u16)
        ensures { self.new ≡ record self.old { limit = max } }
    {
        self.limit = max as usize;
    }

    /// Sets how names are written, and returns how they were written before.
    #[inline]
    pub fn with_rdata_behavior(&mut self, mode: RDataEncoding) -> RDataEncoding
        ensures earlier { result ≡ self.old.mode }
        ensures set { self.new ≡ record self.old { mode = mode } }
    {
        let earlier = self.mode;
        self.mode = mode;
        earlier
    }

    /// Appends octets.
    #[inline]
    #[tactic(auto, unfolding(dns_fields::specs::Fields::field_octets))]
    pub fn emit_vec(&mut self, octets: &[u8]) -> Result<(), ProtoError>
        ensures emits { EmitsField Rest octets.now result self.old self.new }
        ensures room { OnOk result (length self.old.octets + length octets.now ≤ self.old.limit) }
        ensures whole { OnErr result (self.new ≡ self.old) }
    {
        if self.message.len() + octets.len() > self.limit {
            return Err(ProtoError::MaxBufferSizeExceeded);
        }
        self.message.extend_from_slice(octets)?;
        Ok(())
    }

    /// Appends some octets and then others, both or nothing, with one test of the limit.
    #[inline]
    #[tactic(auto, unfolding(dns_fields::specs::Fields::field_octets))]
    pub fn emit_both(&mut self, front: &[u8], rest: &[u8]) -> Result<(), ProtoError>
        ensures emits { EmitsField Rest (front.now ++ rest.now) result self.old self.new }
        ensures room { OnOk result (length self.old.octets + (length front.now + length rest.now) ≤ self.old.limit) }
        ensures whole { OnErr result (self.new ≡ self.old) }
    {
        let len = self.message.len() + rest.len();
        if len > self.limit || front.len() > self.limit - len {
            return Err(ProtoError::MaxBufferSizeExceeded);
        }
        append_both(&mut self.message, front, rest)
    }

    /// Appends one octet, as [`emit_u8`](BinEncoder::emit_u8).
    #[inline]
    pub fn emit(&mut self, octet: u8) -> Result<(), ProtoError>
        ensures emits { EmitsField (Number 1) octet result self.old self.new }
        ensures room { OnOk result (length self.old.octets + 1 ≤ self.old.limit) }
        ensures whole { OnErr result (self.new ≡ self.old) }
    {
        self.emit_u8(octet)
    }

    /// Appends a number of one octet.
    #[inline]
    #[tactic(auto, unfolding(dns_fields::specs::Fields::field_octets))]
    pub fn emit_u8(&mut self, n: u8) -> Result<(), ProtoError>
        ensures emits { EmitsField (Number 1) n result self.old self.new }
        ensures room { OnOk result (length self.old.octets + 1 ≤ self.old.limit) }
        ensures whole { OnErr result (self.new ≡ self.old) }
    {
        self.emit_vec(&n.to_be_bytes())?;
        Ok(())
    }

    /// Appends a number of two octets in network order.
    #[inline]
    #[tactic(auto, unfolding(dns_fields::specs::Fields::field_octets))]
    pub fn emit_u16(&mut self, n: u16) -> Result<(), ProtoError>
        ensures emits { EmitsField (Number 2) n result self.old self.new }
        ensures room { OnOk result (length self.old.octets + 2 ≤ self.old.limit) }
        ensures whole { OnErr result (self.new ≡ self.old) }
    {
        self.emit_vec(&n.to_be_bytes())?;
        Ok(())
    }

    /// Appends a number of four octets in network order.
    #[inline]
    #[tactic(auto, unfolding(dns_fields::specs::Fields::field_octets))]
    pub fn emit_u32(&mut self, n: u32) -> Result<(), ProtoError>
        ensures emits { EmitsField (Number 4) n result self.old self.new }
        ensures room { OnOk result (length self.old.octets + 4 ≤ self.old.limit) }
        ensures whole { OnErr result (self.new ≡ self.old) }
    {
        self.emit_vec(&n.to_be_bytes())?;
        Ok(())
    }

    /// Appends a signed number of four octets in network order, in two's complement.
    #[inline]
    pub fn emit_i32(&mut self, n: i32) -> Result<(), ProtoError>
        ensures emits { EmitsField (Number 4) (cast_unsigned w32 n) result self.old self.new }
        ensures room { OnOk result (length self.old.octets + 4 ≤ self.old.limit) }
        ensures whole { OnErr result (self.new ≡ self.old) }
    {
        self.emit_u32(n.cast_unsigned())
    }

    /// Appends a character string (RFC 1035, section 3.3): its length in one octet, and its octets.
    ///
    /// # Errors
    ///
    /// [`Message`](ProtoError::Message): there are more than 255 octets; and those of every call.
    #[inline]
    #[tactic(auto, unfolding(dns_fields::specs::Fields::field_octets))]
    pub fn emit_character_data(&mut self, octets: &[u8]) -> Result<(), ProtoError>
        ensures emits { EmitsField CharacterString octets.now result self.old self.new }
        ensures room { OnOk result (length self.old.octets + 1 + length octets.now ≤ self.old.limit) }
        ensures whole { OnErr result (self.new ≡ self.old) }
    {
        if octets.len() > 255 {
            return Err(ProtoError::Message("character data past 255 octets"));
        }
        if self.message.len() + 1 + octets.len() > self.limit {
            return Err(ProtoError::MaxBufferSizeExceeded);
        }
        append_both(&mut self.message, &[octets.len() as u8], octets)
    }

    /// Appends two octets 0, which [`replace`](BinEncoder::replace) fills with a number later.
    pub fn place(&mut self) -> Result<Place, ProtoError>
        ensures placed { IfOk result (λ p. (p.index ≡ length self.old.octets) × AppendedField self.old (Number 2) 0 self.new) }
        ensures refused { IfErr result (λ e. StoppedField e self.old (Number 2) 0 self.new) }
        ensures room { OnOk result (length self.old.octets + 2 ≤ self.old.limit) }
        ensures whole { OnErr result (self.new ≡ self.old) }
    {
        let index = self.message.len();
        self.emit_u16(0)?;
        Ok(Place { index })
    }

    /// Appends the name of these octets, in the encoder's mode.
    #[inline(always)]
    pub(crate) fn emit_name(&mut self, octets: &[u8], is_fqdn: bool) -> Result<(), ProtoError>
        requires { AreNameOctets octets.now }
        ensures emits { EmitsField Name (name_of octets.now is_fqdn) result self.old self.new }
        ensures room { OnOk result (length self.new.octets ≤ self.old.limit) }
        ensures whole { OnErr result (self.new ≡ self.old) }
    {
        let _ = is_fqdn;
        append_name(
            &mut self.name_offsets,
            &mut self.message,
            self.mode,
            self.limit,
            octets,
        )
    }

    /// Writes a number of two octets in network order over two octets that [`place`](BinEncoder::place) appended. Both
    /// must be in the message. Allocates nothing.
    pub fn replace(&mut self, place: Place, number: u16)
        requires { place.index + 2 ≤ length self.old.octets }
        ensures keeps { Keeps self.old self.new }
        ensures octets { self.new.octets ≡ take place.index self.old.octets ++ (bytes_high_first 2 number ++ drop (place.index + 2) self.old.octets) }
    {
        self.message.replace_u16(place.index, number);
    }

    /// How many octets were appended after two octets that [`place`](BinEncoder::place) appended. Both must be in the
    /// message.
    pub fn len_since_place(&self, place: &Place) -> usize
        requires { place.now.index + 2 ≤ length self.now.octets }
        ensures value { place.now.index + 2 + result ≡ length self.now.octets }
        ensures small { result < 65534 }
    {
        self.message.len() - place.index - 2
    }
}

// Appends some octets and then others, or nothing.
#[inline]
fn append_both(message: &mut MessageOctets<'_>, front: &[u8], rest: &[u8]) -> Result<(), ProtoError>
    ensures ok { OnOk result (message.new.items ≡ message.old.items ++ (front.now ++ rest.now)) }
    ensures err { OnErr result (message.new.items ≡ message.old.items) }
    ensures stays { StaysInVector message.old message.new }
    ensures memory { IfErr result (λ e. e ≡ ProtoError.Memory) }
{
    let len = message.len();
    message.extend_from_slice(front)?;
    if message.extend_from_slice(rest).is_err() {
        message.truncate(len);
        return Err(ProtoError::Memory);
    }
    Ok(())
}

// Appends a name's octets in a mode, or nothing.
#[inline(always)]
fn append_name(
    name_offsets: &mut NameOffsets,
    message: &mut MessageOctets<'_>,
    mode: RDataEncoding,
    limit: usize,
    name: &[u8],
) -> Result<(), ProtoError>
    requires { AreNameOctets name.now }
    ensures ok { OnOk result ((mark : Bool) → NameWrote mode message.old.items (name_of name.now mark) message.new.items) }
    ensures within { OnOk result (length message.new.items ≤ limit) }
    ensures err { OnErr result (message.new.items ≡ message.old.items) }
    ensures stays { StaysInVector message.old message.new }
    ensures full { IfErr result (λ e. Because e (limit < length message.old.items + (length name.now + 1)) ⊥) }
    ensures octets { AreOctets message.new.items }
{
    match write_name(name_offsets, message, mode, limit, name) {
        Ok(()) => Ok(()),
        Err(WriteError::Memory) => Err(ProtoError::Memory),
        Err(WriteError::Buffer) => Err(ProtoError::MaxBufferSizeExceeded),
    }
}
