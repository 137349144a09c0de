//! In which form a file is.
ghost use Rattle.std.specs.Prelude.{◌≡◌};
ghost use Rattle.std.specs.List.{after_first};
ghost use Rattle.console.specs.Lines.{is_space};
ghost use Rattle.difference_commands.specs.Forms.{begins_car as begins_car_of, begins_cid as begins_cid_of, form_found as form_found_of, form_of as form_of_file, is_pair_line as is_pair_line_of};

use crate::command::Form;
use console::{numbered_lines, space_in};

/// The form that is asked for, or the one that the file begins as.
pub(crate) fn form_of(asked: Option<Form>, file: &[u8]) -> Form
    ensures { result ≡ form_of_file asked file.now }
{
    match asked {
        Some(form) => form,
        None => form_found(file),
    }
}

/// The form that a file begins as: a CAR by its second byte, and lines by the first that isn't empty.
fn form_found(file: &[u8]) -> Form
    ensures { result ≡ form_found_of file.now }
{
    if begins_car(file) {
        return Form::Car;
    }
    match numbered_lines(file).next() {
        Some((_, line)) if is_pair_line(line) => Form::Listing,
        _ => Form::Records,
    }
}

/// Whether the second byte begins the header of a CAR, a map of two, as no line has it.
fn begins_car(file: &[u8]) -> bool
    ensures { result ≡ begins_car_of file.now }
{
    let [_, second, ..] = file else {
        return false;
    };
    *second == 0xa2
}

/// Whether a CID stands behind the first space of a line, by its first letters.
fn is_pair_line(line: &[u8]) -> bool
    ensures { result ≡ is_pair_line_of line.now }
{
    begins_cid(after_space(line))
}

/// What stands behind the first space, or nothing where there is none.
fn after_space(line: &[u8]) -> &[u8]
    ensures { result.now ≡ after_first is_space line.now }
{
    let space = space_in(line);
    if space == line.len() {
        return &[];
    }
    &line[space + 1..]
}

/// Whether a word begins as the text of each CID does, and no hexadecimal.
fn begins_cid(word: &[u8]) -> bool
    ensures { result ≡ begins_cid_of word.now }
{
    match word.strip_prefix(b"bafy") {
        Some(_) => true,
        None => false,
    }
}
