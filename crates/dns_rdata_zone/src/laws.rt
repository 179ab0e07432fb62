//! Laws that clients may cite: functions without a body, whose contracts say what is true of all values.

ghost use Rattle.dns_rdata_zone.specs.ZoneReads.{TextsGive, TextsTell, OneGiven, TextsPrint, FillsGive, FillsTell, FillsPrint};

/// Texts of zone files.
pub fn zone_texts_hold()
    // The text of a value, whose uncompressed octets are at most 65535, gives these octets, whatever the origin.
    ensures give { TextsGive }
    // Two values of a type with one text have the same octets.
    ensures tell { TextsTell }
    // The text of a value is printable ASCII in one line, of any length.
    ensures print { TextsPrint }
    // A text gives at most one value of a type.
    ensures one { OneGiven }
    // The text of a value that was read from a message, and whose uncompressed octets are at most 65535, gives the same
    // value, whatever the origin.
    ensures filled_give { FillsGive }
    // Two values that were read under a type and have one text have the same octets.
    ensures filled_tell { FillsTell }
    // The text of a value that was read is printable ASCII in one line.
    ensures filled_print { FillsPrint }
{}
