//! One line of a script.
ghost use Rattle.std.specs.Prelude.{◌≡◌, ◌<◌, map, option_map, IfOk, IfSome};
ghost use Rattle.run_command.specs.Script.{batch_of as batch_of_tokens, call_of as call_of_tokens, get_of as get_of_words, line_of as line_of_text, line_of_tokens as line_of_tokens_of};
ghost use Rattle.run_command.specs.Views.{view_of_call, view_of_line};

use crate::script::tokens::{has_empty, number_of, tokens_of, worker_of};
use crate::script::writes::writes_of;
use batches::Stamp;
use scripts::{Call, Line};
use std::alloc::{AllocError, Global};

/// The line of a script with this text and number, for so many workers and with this DID for its batch; or `None` where it
/// has another form.
pub(crate) fn line_of(
    alloc: Global,
    workers: u32,
    did: &[u8],
    number: usize,
    text: &[u8],
) -> Result<Option<Line>, AllocError>
    ensures line { IfOk result (λ found. option_map view_of_line found
        ≡ line_of_text workers did.now number text.now) }
    ensures worker { IfOk result (λ found. IfSome found (λ l. l.worker < workers)) }
{
    let tokens = tokens_of(alloc, text)?;
    if has_empty(&tokens) {
        return Ok(None);
    }
    line_of_tokens(alloc, workers, did, number, &tokens)
}

/// The same of its tokens.
fn line_of_tokens(
    alloc: Global,
    workers: u32,
    did: &[u8],
    number: usize,
    tokens: &[&[u8]],
) -> Result<Option<Line>, AllocError>
    ensures line { IfOk result (λ found. option_map view_of_line found
        ≡ line_of_tokens_of workers did.now number (map (λ t. t.now) tokens.now)) }
    ensures worker { IfOk result (λ found. IfSome found (λ l. l.worker < workers)) }
{
    let [worker, repo, call @ ..] = tokens else {
        return Ok(None);
    };
    let Some(worker) = worker_of(workers, worker) else {
        return Ok(None);
    };
    let Some(repo) = number_of(repo) else {
        return Ok(None);
    };
    match call_of(alloc, did, call)? {
        Some(call) => Ok(Some(Line {
            number,
            worker,
            repo,
            call,
        })),
        None => Ok(None),
    }
}

/// What these tokens call, or `None` where they are no call.
fn call_of(alloc: Global, did: &[u8], tokens: &[&[u8]]) -> Result<Option<Call>, AllocError>
    ensures { IfOk result (λ found. option_map view_of_call found
        ≡ call_of_tokens did.now (map (λ t. t.now) tokens.now)) }
{
    match tokens {
        [word, key] => get_of(alloc, word, key),
        [rev, writes @ ..] => batch_of(alloc, did, rev, writes),
        [] => Ok(None),
    }
}

/// The look for a key, where this is its word.
fn get_of(alloc: Global, word: &[u8], key: &[u8]) -> Result<Option<Call>, AllocError>
    ensures { IfOk result (λ found. option_map view_of_call found
        ≡ get_of_words word.now key.now) }
{
    if word == b"get".as_slice() {
        Ok(Some(Call::Get(Vec::from_slice(alloc, key)?)))
    } else {
        Ok(None)
    }
}

/// The batch of these writes under a stamp.
fn batch_of(
    alloc: Global,
    did: &[u8],
    rev: &[u8],
    tokens: &[&[u8]],
) -> Result<Option<Call>, AllocError>
    ensures { IfOk result (λ found. option_map view_of_call found
        ≡ batch_of_tokens did.now rev.now (map (λ t. t.now) tokens.now)) }
{
    let Some(writes) = writes_of(alloc, tokens)? else {
        return Ok(None);
    };
    let stamp = Stamp {
        did: Vec::from_slice(alloc, did)?,
        rev: Vec::from_slice(alloc, rev)?,
    };
    Ok(Some(Call::Apply(stamp, writes)))
}
