//! Laws that clients may cite: functions without a body, whose contracts say what is true of all tokens.

ghost use Rattle.dns_zone_rows.specs.ParameterLaws.{OneReading, TokensRead, NamesRead, PlainItemsRead};

/// Tokens that are service parameters, and lists.
pub fn parameters_hold()
    // Tokens have at most one list of octets.
    ensures one { OneReading }
    // A parameter is read from its name, `=` and its value, in quotes or without.
    ensures tokens { TokensRead }
    // Protocol names with a `\` before each comma and each `\`, and with a comma between two names, are read as these
    // names.
    ensures names { NamesRead }
    // So are items without a comma and without a `\`, such as addresses.
    ensures items { PlainItemsRead }
{}
