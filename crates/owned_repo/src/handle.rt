//! A repository behind a pointer.

ghost use Rattle.std.specs.Prelude.{◌≡◌, Option, Some, None, is_some, true, option_map};
ghost use Rattle.owned_repo.specs.Owning.{Owned};
ghost use Rattle.owned_repo.specs.Held.{held};

use crate::owning::OwnedRepo;
use std::alloc::Global;
use std::marker::Model;
use std::mem::replace;
use std::ptr::null_mut;

/// The pointer: it owns the repository behind it, if there is one.
#[repr(C)]
#[derive(Drop)]
pub struct Handle {
    at: *mut u8,
    pub ghost repo: { Option Owned },
}

impl Model for Handle {
    ghost also_owns = { λ h. held h.at h.repo };
}

unsafe impl Send for Handle {}

/// The box that the pointer was made of.
fn into_box(alloc: Global, handle: Handle) -> Box<OwnedRepo>
    requires { is_some handle.repo ≡ true }
    ensures { handle.repo ≡ Some result.value }
{
    let Handle { at } = handle;
    unsafe { Box::from_raw(alloc, at as *mut OwnedRepo) }
}

/// A pointer made of a box.
fn of_box(repo: Box<OwnedRepo>) -> Handle
    ensures { result.repo ≡ Some repo.value }
{
    let at = Box::into_raw(repo) as *mut u8;
    Handle { at }
}

/// A pointer that owns nothing.
fn nothing() -> Handle
    ensures { result.repo ≡ None }
{
    Handle { at: null_mut() }
}

/// A repository, or none where it isn't open: what a host holds for it. All bytes 0 is one that isn't open. A host may pass it to
/// another thread, between two calls.
#[repr(C)]
#[derive(Drop)]
pub struct Repository {
    is_open: bool,
    pub handle: Handle,
    ghost told: { is_open ≡ is_some handle.repo },
}

/// The same value, of a type that is proved to be one that may go to another thread.
fn may_cross<T: Send>(value: T) -> T
    ensures { result ≡ value }
{
    value
}

impl Repository {
    /// None.
    pub fn closed() -> Repository
        ensures { result.handle.repo ≡ None }
    {
        Repository {
            is_open: false,
            handle: nothing(),
        }
    }

    /// This one.
    pub fn opened(repo: Box<OwnedRepo>) -> Repository
        ensures { result.handle.repo ≡ Some repo.value }
    {
        may_cross(Repository {
            is_open: true,
            handle: of_box(repo),
        })
    }

    /// Whether there is one.
    pub fn is_open(&self) -> bool
        ensures { result ≡ is_some self.now.handle.repo }
    {
        self.is_open
    }

    /// The repository, for the time of a call: there is none until it is put back.
    pub fn taken(&mut self, alloc: Global) -> Option<Box<OwnedRepo>>
        ensures taken { option_map (λ repo. repo.value) result ≡ self.old.handle.repo }
        ensures none { self.new.handle.repo ≡ None }
    {
        let Repository { is_open, handle } = replace(self, Repository::closed());
        if is_open {
            Some(into_box(alloc, handle))
        } else {
            None
        }
    }
}
