//! What there is to say of a fault.
ghost use Rattle.std.specs.Prelude.{◌≡◌, ◌++◌, IfOk, OnOk};
ghost use Rattle.explain_command.specs.Explained.{explained as explained_of, explanation, explanation_of_common, explanation_of_files, explanation_of_messages, line_of_name, paragraph, said, texts_of, word_of};

use crate::table::{Explanation, FAULTS, FAULTS_OF_FILES, FAULTS_OF_MESSAGES};
use std::alloc::{AllocError, Global};

/// What there is to say of the program's faults of this name, or each name on a line where none is given. Of a name that no
/// fault has there is nothing to say.
#[tactic(auto, unfolding(crate::specs::Explained::explanation))]
pub(crate) fn explanation_of(alloc: Global, name: Option<&str>) -> Result<Vec<u8>, AllocError>
    ensures { IfOk result (λ text. text.items ≡ explanation (word_of name.entry)) }
{
    let mut text = Vec::new(alloc);
    push_common(&mut text, name)?;
    push_of_files(&mut text, name)?;
    push_of_messages(&mut text, name)?;
    Ok(text)
}

/// Adds what there is to say of the faults that are none of a file or of a message.
#[tactic(auto, unfolding(crate::specs::Explained::explanation_of_common))]
fn push_common(text: &mut Vec<u8>, name: Option<&str>) -> Result<(), AllocError>
    ensures { OnOk result (text.new.items ≡ text.old.items
        ++ explanation_of_common (word_of name.entry)) }
{
    push_all(text, &FAULTS, name)
}

/// Adds what there is to say of the faults of a file.
#[tactic(auto, unfolding(crate::specs::Explained::explanation_of_files))]
fn push_of_files(text: &mut Vec<u8>, name: Option<&str>) -> Result<(), AllocError>
    ensures { OnOk result (text.new.items ≡ text.old.items
        ++ explanation_of_files (word_of name.entry)) }
{
    push_all(text, &FAULTS_OF_FILES, name)
}

/// Adds what there is to say of the faults of messages.
#[tactic(auto, unfolding(crate::specs::Explained::explanation_of_messages))]
fn push_of_messages(text: &mut Vec<u8>, name: Option<&str>) -> Result<(), AllocError>
    ensures { OnOk result (text.new.items ≡ text.old.items
        ++ explanation_of_messages (word_of name.entry)) }
{
    push_all(text, &FAULTS_OF_MESSAGES, name)
}

/// Adds what there is to say of each of these under the name.
fn push_all(
    text: &mut Vec<u8>,
    faults: &[Explanation],
    name: Option<&str>,
) -> Result<(), AllocError>
    ensures { OnOk result (text.new.items ≡ text.old.items
        ++ explained_of faults.now (word_of name.entry)) }
{
    for fault in faults {
        push_said(text, fault, name)?;
    }
    Ok(())
}

/// Adds what there is to say of one under the name.
fn push_said(text: &mut Vec<u8>, fault: &Explanation, name: Option<&str>) -> Result<(), AllocError>
    ensures { OnOk result (text.new.items
        ≡ text.old.items ++ said (word_of name.entry) (texts_of fault.now)) }
{
    match name {
        None => push_line(text, fault.0),
        Some(name) if name == fault.0 => push_paragraph(text, fault),
        Some(_) => Ok(()),
    }
}

/// Adds a line of this text.
fn push_line(text: &mut Vec<u8>, line: &str) -> Result<(), AllocError>
    ensures { OnOk result (text.new.items ≡ text.old.items ++ line_of_name line.now) }
{
    text.extend_from_slice(line.as_bytes())?;
    text.push(b'\n')?;
    Ok(())
}

/// Adds what a fault means and what causes it, under its name.
fn push_paragraph(text: &mut Vec<u8>, fault: &Explanation) -> Result<(), AllocError>
    ensures { OnOk result (text.new.items ≡ text.old.items ++ paragraph (texts_of fault.now)) }
{
    push_line(text, fault.0)?;
    text.extend_from_slice(b"  ")?;
    push_line(text, fault.1)?;
    text.extend_from_slice(b"  Usual causes: ")?;
    push_line(text, fault.2)
}
