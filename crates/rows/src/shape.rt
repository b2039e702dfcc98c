//! What the rows of a subject look like, so that a mistake in a table is found before its row runs.
//!
//! A field keeps to a rule: `#` a number, `+` a number of nodes, 1 to 65,536, `/` a delimiter, `S*` any bytes that begin so,
//! else one of the words that `|` parts. An option keeps to one of the rules `space=#`, a name and the rule of what it is set
//! to, or else to one as a field does: `-n`, `w:*`.

use crate::options::{delimiter_in, parted};
use std::str;

/// The shapes of rows, a line each: the subject, the rules of its fields, and after a `;` those of its options.
const SHAPES: &str = "expressions basic|extended * * #;delimiter=/ nodes=+
lists * # is|not *;delimiter=/
delimiters * # / *;
matches basic|extended * * # *;most=# least=#
occurrences basic|extended * * *;most=# least=# groups_most=# groups_least=#
refusals * none;-E nodes=+
refusals * S* #;-E nodes=+ inside=#
readings * *;-E -n r:* w:*
runs * * *;-n -E cuts F* r:* w:* space=# queue=# look=# turns=# nodes=+ output=# fails=# read=# room=# refuses=# lost=#
failing * * *;-n -E F* r:* w:* space=# queue=# look=# turns=# nodes=+ output=#
cycles * * *;-n -E lines taken=# calls=# all=# held=# r:* w:* space=# queue=# look=# turns=# nodes=+ output=# fails=# read=# room=# refuses=#
limits # # # # # accepted|refused;
calls * * * #;errors=* errors_begin=* output_begins=* f:* w:* space=# queue=# turns=# nodes=+ output=# fails=# room=# refuses=# write=#
own_limits * * * *;
by_cycles * * * *;";

/// Whether the fields of a row of the subject keep to one of its shapes.
pub(crate) fn have_shape(fields: &[Vec<u8>], subject: &str) -> bool {
    for line in SHAPES.lines() {
        if let Some((name, shape)) = line.split_once(' ')
            && name == subject
            && keep_to(fields, shape)
        {
            return true;
        }
    }
    false
}

/// Whether fields keep to the rules of a shape for them, and those that follow to the rules of options.
fn keep_to(fields: &[Vec<u8>], shape: &str) -> bool {
    let (rules, options) = shape.split_once(';').unwrap_or((shape, ""));
    let mut rest = fields;
    for rule in rules.split(' ') {
        match rest.split_first() {
            Some((field, others)) if keeps(field.as_slice(), rule) => rest = others,
            _ => return false,
        }
    }
    are_allowed(rest, options)
}

/// Whether one of the rules allows each option.
fn are_allowed(options: &[Vec<u8>], rules: &str) -> bool {
    'options: for option in options {
        for rule in rules.split(' ') {
            if allows(rule, option.as_slice()) {
                continue 'options;
            }
        }
        return false;
    }
    true
}

/// Whether the rule allows the option.
fn allows(rule: &str, option: &[u8]) -> bool {
    match (rule.split_once('='), parted(option, b'=')) {
        (Some((wanted, rule)), Some((name, value))) => {
            name == wanted.as_bytes() && keeps(value, rule)
        }
        (None, _) => keeps(option, rule),
        _ => false,
    }
}

/// Whether the bytes keep to the rule.
fn keeps(bytes: &[u8], rule: &str) -> bool {
    if let Some(beginning) = rule.strip_suffix('*') {
        return bytes.starts_with(beginning.as_bytes());
    }
    match rule.as_bytes() {
        [b'#'] => number_in(bytes).is_some(),
        [b'+'] => matches!(number_in(bytes), Some(1..=65536)),
        [b'/'] => delimiter_in(bytes).is_some(),
        _ => rule.split('|').any(|word| word.as_bytes() == bytes),
    }
}

/// The number that the bytes say, where they say one.
pub(crate) fn number_in(bytes: &[u8]) -> Option<usize> {
    str::from_utf8(bytes).ok()?.parse::<usize>().ok()
}
