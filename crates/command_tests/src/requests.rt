//! Which command `run_words` says that the words ask for.
use crate::held_files::NO_FILES;
use crate::running::EMPTY;
use change_commands::ChangeCommand;
use cid::Sha256;
use commands::{Request, run_words};
use event_commands::{EventCommand, Subject};
use export_commands::{ExportCommand, Values};
use repository_commands::RepositoryCommand;
use std::alloc::Global;
use std::random::RandomSource;
use std::sync::Wait;
use std::thread::Threads;

/// What words ask for: a command, or none.
#[derive(Clone, Copy, PartialEq, Eq)]
enum Asked {
    Nothing,
    Tree,
    Car,
    SignedCar,
    Prove,
    Verify,
    ProveChange,
    VerifyChange,
    CommitEvent,
    SyncEvent,
    CheckEvent,
    Check,
    Records,
    Json,
    Cids,
    Commit,
    Changes,
    Run,
    Explain,
    Help,
}

/// What the words ask for, over an input without lines.
fn request_of<T: Threads + Wait + RandomSource + Sync>(
    rt: &T,
    alloc: Global,
    words: &[&str],
) -> Asked {
    let mut input: &[u8] = b"";
    let mut out = Vec::new(alloc);
    let mut err = Vec::new(alloc);
    match run_words::<Sha256, _, _, _, _, _>(
        rt, alloc, words, &NO_FILES, &mut input, &mut out, &mut err,
    ).request
    {
        None => Asked::Nothing,
        Some(Request::Tree(_)) => Asked::Tree,
        Some(Request::OnRepository(RepositoryCommand::Car { .. })) => Asked::Car,
        Some(Request::OnRepository(RepositoryCommand::SignedCar { .. })) => Asked::SignedCar,
        Some(Request::OnRepository(RepositoryCommand::Prove { .. })) => Asked::Prove,
        Some(Request::OnRepository(RepositoryCommand::Verify { .. })) => Asked::Verify,
        Some(Request::OnChange(ChangeCommand::Prove { .. })) => Asked::ProveChange,
        Some(Request::OnChange(ChangeCommand::Verify { .. })) => Asked::VerifyChange,
        Some(
            Request::OnMessages(
                EventCommand::Write {
                    subject: Subject::Batch,
                    ..
                },
            ),
        ) => Asked::CommitEvent,
        Some(
            Request::OnMessages(
                EventCommand::Write {
                    subject: Subject::State,
                    ..
                },
            ),
        ) => Asked::SyncEvent,
        Some(Request::OnMessages(EventCommand::Check { .. })) => Asked::CheckEvent,
        Some(Request::OnExport(ExportCommand::Check)) => Asked::Check,
        Some(Request::OnExport(ExportCommand::Records(Values::Bytes))) => Asked::Records,
        Some(Request::OnExport(ExportCommand::Records(Values::Json))) => Asked::Json,
        Some(Request::OnExport(ExportCommand::Records(Values::Cids))) => Asked::Cids,
        Some(Request::OnExport(ExportCommand::Commit)) => Asked::Commit,
        Some(Request::OnDifference(_)) => Asked::Changes,
        Some(Request::Run(_)) => Asked::Run,
        Some(Request::Explain(_)) => Asked::Explain,
        Some(Request::Help) => Asked::Help,
    }
}

static ROWS: [(&[&str], Asked); 23] = [
    (&["msthost", "tree"], Asked::Tree),
    (&["msthost", "car"], Asked::Car),
    (&["msthost", "car", "--sig", "00"], Asked::SignedCar),
    (&["msthost", "prove", "a/b"], Asked::Prove),
    (&["msthost", "verify", EMPTY, "a/b"], Asked::Verify),
    (&["msthost", "prove-change"], Asked::ProveChange),
    (
        &["msthost", "verify-change", EMPTY, EMPTY],
        Asked::VerifyChange,
    ),
    (
        &[
            "msthost",
            "commit-event",
            "--seq",
            "1",
            "--time",
            "2026-11-30T12:00:00Z",
            "--sig",
            "00",
            "did:web:a.example",
            "3jzfcijpj2z2a",
        ],
        Asked::CommitEvent,
    ),
    (
        &[
            "msthost",
            "sync-event",
            "--seq",
            "1",
            "--time",
            "2026-11-30T12:00:00Z",
            "--sig",
            "00",
            "did:web:a.example",
            "3jzfcijpj2z2a",
        ],
        Asked::SyncEvent,
    ),
    (&["msthost", "check-event", EMPTY], Asked::CheckEvent),
    (&["msthost", "check"], Asked::Check),
    (&["msthost", "records"], Asked::Records),
    (&["msthost", "records", "--json"], Asked::Json),
    (&["msthost", "records", "--cids"], Asked::Cids),
    (&["msthost", "commit"], Asked::Commit),
    (&["msthost", "changes", "a", "b"], Asked::Changes),
    (&["msthost", "run"], Asked::Run),
    (&["msthost", "explain"], Asked::Explain),
    (&["msthost", "explain", "BadLine"], Asked::Explain),
    (&["msthost", "help"], Asked::Help),
    (&["msthost", "--help"], Asked::Nothing),
    (&["msthost", "--version"], Asked::Nothing),
    (&["msthost", "trees"], Asked::Nothing),
];

#[test]
fn the_command_is_told(rt: HostRuntime) {
    for (words, wanted) in &ROWS {
        assert!(rt; request_of(&rt, rt.alloc(), words) == *wanted, "{words:?}");
    }
}
