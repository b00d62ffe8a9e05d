//! What is to be converted.

ghost use Rattle.std.specs.Prelude.{◌≡◌, option_map};
ghost use Rattle.trace_converter.specs.Rules.{rule_for};

/// What becomes of the events of a schema.
#[derive(Clone, Copy)]
pub struct Rule<'r> {
    /// The name of the schema.
    pub from: &'r str,
    /// The name of the new schema.
    pub to: &'r str,
    /// Its slot, as that of an event type: from 1 to 255 it is the wire id of the new schema, which else goes by its
    /// name.
    pub slot: u16,
    /// The fields that are kept, in the order of the new schema: each the name of a field, and its new name. Of fields
    /// with one name the first is meant.
    pub fields: &'r [(&'r str, &'r str)],
}

// The first rule for the events of a schema.
pub(crate) fn rule_of<'s, 'r>(rules: &'s [Rule<'r>], name: &str) -> Option<&'s Rule<'r>>
    ensures { option_map (λ r. r.now) result ≡ rule_for rules.now name.now }
{
    for rule in rules {
        if rule.from == name {
            return Some(rule);
        }
    }
    None
}
