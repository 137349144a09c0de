//! Lines of words.
ghost use Rattle.std.specs.Prelude.{◌≡◌, ◌∷◌, ◌++◌, map, OnOk};
ghost use Rattle.std.specs.List.{flat_map, join_with_byte};
ghost use Rattle.run_command.specs.Report.{words_line};

use std::alloc::AllocError;

/// Adds a line of these words, with one space between each two. At `Err` a beginning of it may have been added.
pub(crate) fn push_words(text: &mut Vec<u8>, words: &[&[u8]]) -> Result<(), AllocError>
    ensures { OnOk result (text.new.items ≡ text.old.items
        ++ words_line (map (λ word. word.now) words.now)) }
{
    push_joined(text, words)?;
    text.push(b'\n')?;
    Ok(())
}

/// Adds these words, with one space between each two.
fn push_joined(text: &mut Vec<u8>, words: &[&[u8]]) -> Result<(), AllocError>
    ensures { OnOk result (text.new.items ≡ text.old.items
        ++ join_with_byte 32 (map (λ word. word.now) words.now)) }
{
    match words {
        [] => Ok(()),
        [first, others @ ..] => {
            text.extend_from_slice(first)?;
            push_others(text, others)
        }
    }
}

/// Adds these words, each after a space.
fn push_others(text: &mut Vec<u8>, words: &[&[u8]]) -> Result<(), AllocError>
    ensures { OnOk result (text.new.items ≡ text.old.items
        ++ flat_map (λ word. 32 ∷ word.now) words.now) }
{
    for word in words {
        text.push(b' ')?;
        text.extend_from_slice(word)?;
    }
    Ok(())
}
