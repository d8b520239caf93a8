//! Reads names.

ghost use Rattle.std.specs.Prelude.{◌≡◌, [], IfOk};
ghost use Rattle.report_elements.specs.Names.{ascii_on};

use std::alloc::{AllocError, Global};
use wsym_terms::Name;

/// The name that ASCII bytes spell.
pub fn name_from(alloc: Global, word: &[u8]) -> Result<Option<Name>, AllocError>
    ensures { IfOk result (λ o. o ≡ ascii_on [] word.now) }
{
    let mut text = String::new(alloc);
    for byte in word {
        let byte = *byte;
        if byte >= 128 {
            return Ok(None);
        }
        text.push(char::from(byte))?;
    }
    Ok(Some(Name::new(text)))
}
