//! What is proved of all certificates.

ghost use Rattle.cert_json.specs.FirstLaws.{FirstDecides};

/// A refusal names the first field that hasn't its shape, and in a certificate each field has it.
pub fn the_first_field_decides()
    ensures { FirstDecides }
{}
