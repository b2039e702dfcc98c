//! The text of a script, put together from parts.

ghost use Rattle.std.specs.Prelude.{◌≡◌, OnErr, OnOk};
ghost use Rattle.sedscript.specs.Script.{with_part};

use std::alloc::AllocError;

/// Appends a part of a script, as the word of -e or the file of -f, and a newline where the part doesn't end with one;
/// so an empty part gives an empty line.
///
/// # Errors
/// `AllocError` where a request for memory was refused; the text is then unchanged.
pub fn add_part(text: &mut Vec<u8>, part: &[u8]) -> Result<(), AllocError>
    ensures added { OnOk result (text.new.items ≡ with_part text.old.items part.now) }
    ensures kept { OnErr result (text.new.items ≡ text.old.items) }
{
    let start = text.len();
    text.extend_from_slice(part)?;
    if part.ends_with(b"\n") {
        return Ok(());
    }
    if text.push(b'\n').is_err() {
        text.truncate(start);
        return Err(AllocError);
    }
    Ok(())
}
