//! What `explain` says of a name.
use explain_command::{FAULTS, FAULTS_OF_FILES, FAULTS_OF_MESSAGES};

/// Whether `explain` says this of a name.
pub(crate) fn is_explained(name: &'static str, meaning: &'static str) -> bool {
    for (of, says, _) in &FAULTS {
        if *of == name {
            return *says == meaning;
        }
    }
    for (of, says, _) in &FAULTS_OF_FILES {
        if *of == name {
            return *says == meaning;
        }
    }
    for (of, says, _) in &FAULTS_OF_MESSAGES {
        if *of == name {
            return *says == meaning;
        }
    }
    false
}
