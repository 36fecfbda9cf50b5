//! Words of four bytes, the lowest first.

ghost use Rattle.std.specs.Prelude.{◌≡◌, ◌++◌, OnOk};
ghost use Rattle.log_model.specs.Logs.{word32};
ghost use Rattle.core_file.specs.Headers.{words};

use no_memory::NoMemory;

/// Appends a word.
pub(crate) fn push_word(file: &mut Vec<u8>, word: u32) -> Result<(), NoMemory>
    ensures { OnOk result (file.new.items ≡ file.old.items ++ word32 word) }
{
    Ok(file.extend_from_slice(&word.to_le_bytes())?)
}

/// Appends fields of a word each.
pub(crate) fn push_words(file: &mut Vec<u8>, fields: &[u32]) -> Result<(), NoMemory>
    ensures { OnOk result (file.new.items ≡ file.old.items ++ words fields.now) }
{
    for field in fields {
        push_word(file, *field)?;
    }
    Ok(())
}
