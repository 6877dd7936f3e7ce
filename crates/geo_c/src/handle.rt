//! The handle: a pointer to a desk, or null.
ghost use Rattle.std.specs.Prelude.{◌≡◌, None, Some, MatchOption, OnErr, IfOk};
ghost use Rattle.std.specs.declared.option.Option.{Option};
ghost use Rattle.geo_c.specs.Held.{held_at, last_reply, talk_of};
ghost use Rattle.geo_c.specs.declared.desk.Desk.{Desk};

use crate::desk::Desk;
use crate::loose::Loose;
use exact_plane::Memory;
use std::alloc::Global;
use std::marker::Model;
use std::mem::replace;
use std::ptr::null_mut;

/// A script that is handed in piece by piece, its polygon and tree, the text of the last answers, and the reply to the last record
/// in numbers. In C it is one pointer. Zeroed it owns nothing, and stands for a script of which no piece was handed in yet.
#[repr(C)]
pub struct GeoSession {
    at: *mut u8,
    alloc: Global,
    pub ghost held: { Option Desk },
}

impl Model for GeoSession {
    ghost also_owns = { λ s. held_at s.alloc s.at s.held };
}

impl GeoSession {
    /// Takes the desk out, if there is one.
    pub(crate) fn take(&mut self, alloc: Global) -> Option<Box<Desk>>
        ensures taken { MatchOption result (self.old.held ≡ None) (λ desk. self.old.held ≡ Some desk.value) }
        ensures left { self.new.held ≡ None }
    {
        match replace(self, GeoSession::empty(alloc)).into_loose() {
            Some(loose) => Some(loose.into_box()),
            None => None,
        }
    }

    /// The same, or else a new desk.
    pub(crate) fn take_or_new(&mut self, alloc: Global) -> Result<Box<Desk>, Memory>
        ensures talk { IfOk result (λ desk. desk.value.dialog ≡ talk_of self.old.held) }
        ensures reply { IfOk result (λ desk. desk.value.reply ≡ last_reply self.old.held) }
        ensures memory { OnErr result ((self.old.held ≡ None) × (self.new.held ≡ None)) }
    {
        match self.take(alloc) {
            Some(desk) => Ok(desk),
            None => Box::new(alloc, Desk::new(alloc)).or(Err(Memory)),
        }
    }

    /// Keeps a desk, in the place of the one before.
    pub(crate) fn put(&mut self, desk: Box<Desk>)
        ensures { self.new.held ≡ Some desk.value }
    {
        *self = GeoSession::of_loose(Loose::of(desk));
    }

    /// Frees what it owns.
    pub(crate) fn clear(&mut self, alloc: Global)
        ensures { self.new.held ≡ None }
    {
        *self = GeoSession::empty(alloc);
    }

    pub(crate) fn empty(alloc: Global) -> GeoSession
        ensures { result.held ≡ None }
    {
        GeoSession {
            at: null_mut(),
            alloc,
        }
    }

    fn of_loose(desk: Loose<Desk, Global>) -> GeoSession
        ensures { result.held ≡ Some desk.value }
    {
        let Loose { at, alloc } = desk;
        GeoSession {
            at: at as *mut u8,
            alloc,
        }
    }

    fn into_loose(self) -> Option<Loose<Desk, Global>>
        ensures { MatchOption result (self.held ≡ None) (λ loose. self.held ≡ Some loose.value) }
    {
        let GeoSession { at, alloc } = self;
        if at.is_null() {
            None
        } else {
            Some(Loose {
                at: at as *mut Desk,
                alloc,
            })
        }
    }
}

impl Drop for GeoSession {
    fn drop(self) {
        if let Some(loose) = self.into_loose() {
            drop(loose.into_box());
        }
    }
}
