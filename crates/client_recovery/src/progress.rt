ghost use Rattle.std.specs.Prelude.{◌≡◌};
ghost use Rattle.client_recovery.specs.Progresses.{recovery_at, stage_of, turn_of};
ghost use Rattle.machine.specs.BlockRelease.{goes_to};
ghost use Rattle.machine.specs.Recovery.{fresh_of};
ghost use Rattle.machine.specs.RecoveryStage.{HasKey, HasView, view_of};

use arrayvec::ArrayVec;
use embedded_log::Walk;
use key_test::Object;
use kv_find::Find;
use kv_write::{LogWrite, Resolve};
use machine::recovery::Recovering;
use object_alloc::BitChange;
use object_form::units;
use race_slot::{Slot, pack};
use region_view::{Shape, View};
use slot_order::finger;
use snapshot_write::SlotWrite;
use std::marker::Model;

/// What a recovery does next.
#[derive(Debug, Drop)]
pub(crate) enum Stage {
    /// Reads the epoch word.
    ReadEpoch,
    /// Reads the client's begin word.
    ReadBegin,
    /// Walks along the client's links of a class.
    Walk(Walk),
    /// Sets the bit of the reserve of this class.
    Restock(u8, BitChange),
    /// Reads the meta word of the object of the client's last call.
    ReadMeta,
    /// Reads that object's words from the version on, which has a key of this length.
    ReadLog(u32, ArrayVec<u64, 10>),
    /// Looks for the object's key.
    Find(Find),
    /// Reads the version of the object that the slot's word names.
    ReadVersion { slot: u32, word: u64 },
    /// Writes the slot.
    WriteSlot(SlotWrite),
    /// Walks back the versions of the slot's objects.
    Resolve(Resolve),
    /// Writes the object's version 0.
    Erase(LogWrite),
    /// Sets the bit of the object that was replaced, or of the object itself.
    Free(BitChange),
    /// Writes the client's begin word even.
    WriteBegin,
    /// Reads the word of the next block.
    ReadBlock,
    /// Writes a block of this class as released to a backup.
    Spread { class: u8, backup: usize },
    /// Swaps the word of a block of this class on the primary from the client's to released.
    Release { class: u8 },
}

/// What a walk found of a class, as pointers: the object that the client linked last, with the
/// number of the call, and the class's reserve.
#[derive(Clone, Copy, Debug, Default)]
pub(crate) struct ClassEnd {
    pub(crate) last: Option<(u32, u32)>,
    pub(crate) reserve: Option<u32>,
}

impl Model for ClassEnd {
    ghost use Rattle.machine.specs.RecoveryStage.{ClassEnd};

    ghost Value = { ClassEnd };

    ghost view = { λ e. record { last = e.last; reserve = e.reserve } };

    ghost inverse = { λ v. record { last = v.last; reserve = v.reserve } };
}

/// How far the recovery of a client has come.
#[derive(Debug, Drop)]
pub(crate) struct Progress {
    pub(crate) shape: Shape,
    pub(crate) client: u32,
    pub(crate) stage: Stage,
    /// The mask of the view that is held.
    pub(crate) mask: u8,
    /// The number of the client's last call.
    pub(crate) number: u64,
    /// What was found of each class, by class.
    pub(crate) ends: ArrayVec<ClassEnd, 6>,
    /// The object of the last call.
    pub(crate) object: Object,
    pub(crate) key: ArrayVec<u8, 64>,
    pub(crate) version: u64,
    /// The slot word that the object was logged to replace.
    pub(crate) expect: u64,
    /// How many blocks were read.
    pub(crate) position: u32,
    /// Whether the last call is settled as one that has replaced its slot's word.
    pub(crate) won: bool,
}

impl Progress {
    pub(crate) fn view(&self) -> View
        requires { HasView (recovery_at self.now) }
        ensures { result ≡ view_of (recovery_at self.now) }
    {
        View {
            shape: self.shape,
            mask: self.mask,
        }
    }

    /// The slot word that names the call's object.
    pub(crate) fn fresh(&self) -> u64
        requires { HasKey (recovery_at self.now) }
        ensures { result ≡ fresh_of (recovery_at self.now) }
    {
        let object = self.object;
        pack(Slot {
            finger: finger(self.key.as_slice()),
            units: units(object.class) as u8,
            pointer: object.pointer,
        })
    }

    pub(crate) fn goes_to(&mut self, stage: Stage) -> Recovering
        ensures { turn_of self.new result ≡ goes_to (recovery_at self.old) (stage_of stage) }
    {
        self.stage = stage;
        Recovering::Going
    }
}
