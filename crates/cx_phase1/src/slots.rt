//! The slots that a leader may still propose at.

ghost use Rattle.std.specs.Prelude.{◌≡◌, ◌≤◌, ◌+◌, ◌^◌};
ghost use Rattle.cx_phase1.specs.Window.{IsWindow, free_slot, advanced, raise_window};

use cx_base::{SLOTS, WINDOW};
use std::marker::Model;

/// The chosen watermark and the next free slot of a window of 32 slots from the chosen watermark on; slots end at 2^40 (VLDB 2021;
/// the window and the end are this project's own).
#[derive(Clone, Copy)]
pub struct Slots {
    cw: u64,
    next: u64,
}

impl Model for Slots {
    ghost use Rattle.cx_phase1.specs.Window.{Window, IsWindow};

    ghost Value = { Window };

    ghost view = { λ s. record { cw = s.cw; next = s.next } };

    ghost invariant = { λ s. IsWindow s.cw s.next };

    ghost inverse = { λ w. record { cw = w.cw; next = w.next } };
}

impl Slots {
    /// The slots from `next` on of the window that begins at `cw`.
    pub fn new(cw: u64, next: u64) -> Self
        requires low { cw ≤ next }
        requires high { next ≤ cw + 32 }
        requires end { next ≤ 2 ^ 40 }
        ensures { result ≡ record { cw = cw; next = next } }
    {
        Slots { cw, next }
    }

    /// The next slot, which then is not free any more; None exactly where the window is used up, or slots end.
    pub fn next_slot(&mut self) -> Option<u64>
        ensures slot { result ≡ free_slot self.old }
        ensures rest { self.new ≡ advanced self.old }
    {
        if self.next == self.cw + WINDOW || self.next == SLOTS {
            return None;
        }
        let slot = self.next;
        self.next += 1;
        Some(slot)
    }

    /// Raises the chosen watermark to `cw`, a number of slots of at most 2^40, or leaves a greater one; no slot below it is free.
    pub fn raise(&mut self, cw: u64)
        requires { cw ≤ 2 ^ 40 }
        ensures { self.new ≡ raise_window cw self.old }
    {
        self.cw = self.cw.max(cw);
        self.next = self.next.max(self.cw);
    }

    /// The chosen watermark.
    pub fn cw(&self) -> u64
        ensures cw { result ≡ self.now.cw }
        ensures window { IsWindow self.now.cw self.now.next }
    {
        self.cw
    }

    /// The next free slot, or the end of the window or of all slots.
    pub fn next(&self) -> u64
        ensures next { result ≡ self.now.next }
        ensures window { IsWindow self.now.cw self.now.next }
    {
        self.next
    }
}
