//! How many of each a run has, and how its report shows records.
ghost use Rattle.std.specs.Prelude.{◌≡◌, ◌≤◌, ◌↔◌, IsSome, IfSome};
ghost use Rattle.host.specs.Opening.{AreLawful};
ghost use Rattle.record_forms.specs.declared.form.Form.TheVariants as forms;

use host::Limits;
use record_forms::Form;

/// How many repositories and workers a run has, how many notices its queue has room for, and in which form its report has
/// records.
#[derive(Clone, Copy, PartialEq, Eq, Debug)]
pub struct Settings {
    repos: u32,
    workers: u32,
    queue: u32,
    form: Form,
    pub ghost least_repos: { 1 ≤ repos },
    pub ghost most_repos: { repos ≤ 1024 },
    pub ghost least_workers: { 1 ≤ workers },
    pub ghost most_workers: { workers ≤ 64 },
    pub ghost least_queue: { 1 ≤ queue },
    pub ghost most_queue: { queue ≤ 65536 },
}

/// How many blocks a shard may have.
const SHARD_BLOCKS: usize = 1_048_576;

/// How many writes a repository may have.
const REPO_WRITES: usize = 1_048_576;

impl Settings {
    /// So many repositories, 1 to 1,024, and workers, 1 to 64, with room for so many notices, 1 to 65,536; or `None` where
    /// one of them is out of its range. A record that a look-up finds is reported in this form, and one without JSON in
    /// hexadecimal.
    pub fn new(repos: u32, workers: u32, queue: u32, form: Form) -> Option<Settings>
        ensures repos { IfSome result (λ s. s.repos ≡ repos) }
        ensures workers { IfSome result (λ s. s.workers ≡ workers) }
        ensures queue { IfSome result (λ s. s.queue ≡ queue) }
        ensures form { IfSome result (λ s. s.form ≡ form) }
        ensures valid { IsSome result ↔ ((1 ≤ repos) × (repos ≤ 1024) × (1 ≤ workers)
            × (workers ≤ 64) × (1 ≤ queue) × (queue ≤ 65536)) }
    {
        if repos < 1 || repos > 1024 || workers < 1 || workers > 64 || queue < 1 || queue > 65536 {
            return None;
        }
        Some(Settings {
            repos,
            workers,
            queue,
            form,
        })
    }

    /// How many repositories there are.
    pub(crate) fn repos(&self) -> usize
        ensures value { result ≡ self.now.repos }
        ensures some { 1 ≤ result }
    {
        self.repos as usize
    }

    /// How many workers there are.
    pub(crate) fn workers(&self) -> u32
        ensures { result ≡ self.now.workers }
    {
        self.workers
    }

    /// The form of records in the report.
    pub(crate) fn form(&self) -> Form
        ensures { result ≡ self.now.form }
    {
        self.form
    }

    /// The limits of the host.
    pub(crate) fn limits(&self) -> Limits
        ensures repos { result.repos ≡ self.now.repos }
        ensures writers { result.writers ≡ self.now.workers }
        ensures queue { result.queue ≡ self.now.queue }
        ensures blocks { result.shard_blocks ≡ 1048576 }
        ensures writes { result.repo_writes ≡ 1048576 }
        ensures lawful { AreLawful result }
    {
        Limits {
            repos: self.repos,
            writers: self.workers,
            queue: self.queue as usize,
            shard_blocks: SHARD_BLOCKS,
            repo_writes: REPO_WRITES,
        }
    }
}

impl Default for Settings {
    ghost is_default = { λ s. (s.repos ≡ 1) × (s.workers ≡ 1) × (s.queue ≡ 1024)
        × (s.form ≡ forms.Hex) };

    /// One repository, one worker, room for 1,024 notices, and records in hexadecimal.
    fn default() -> Settings {
        Settings {
            repos: 1,
            workers: 1,
            queue: 1024,
            form: Form::Hex,
        }
    }
}
