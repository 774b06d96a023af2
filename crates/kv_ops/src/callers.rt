ghost use Rattle.std.specs.Prelude.{◌≡◌};
ghost use Rattle.kv_ops.specs.Callers.{client_of};
ghost use Rattle.machine.specs.Client.{view_of};
ghost use Rattle.machine.specs.EpochRead.{IsView};

use crate::calls::Operation;
use crate::remembered::Remembered;
use crate::stages::Stage;
use arrayvec::ArrayVec;
use kv_find::ReadValue;
use kv_write::ObjectWrite;
use machine::client_call::Outcome;
use object_alloc::Stock;
use object_form::LONGEST;
use region_view::{Shape, View};

/// The bytes of the longest value that an object's meta word may say.
pub(crate) const MOST_BYTES: usize = 2016;

/// A client and its present or last call.
#[derive(Drop)]
pub(crate) struct Caller {
    pub(crate) shape: Shape,
    pub(crate) client: u32,
    /// The number of the call.
    pub(crate) number: u32,
    pub(crate) stage: Stage,
    /// The present or last reading of a value, which the next one takes the place of.
    pub(crate) reading: Option<ReadValue>,
    /// The present or last writing of an object, which the next one takes the place of.
    pub(crate) body: Option<ObjectWrite>,
    pub(crate) operation: Operation,
    pub(crate) key: ArrayVec<u8, 64>,
    pub(crate) value: ArrayVec<u8, LONGEST>,
    /// The mask of the view that is held.
    pub(crate) mask: u8,
    /// The class of the call's object, its pointer, and the reserve after it.
    pub(crate) class: u8,
    pub(crate) object: u32,
    pub(crate) reserve: u32,
    /// The place in the order of the key's slots.
    pub(crate) place: usize,
    /// The slot word that is to be replaced.
    pub(crate) expect: u64,
    /// The version of the call's object.
    pub(crate) version: u64,
    /// The slot and the version at which the call was beaten.
    pub(crate) beaten: Option<(u32, u64)>,
    /// How the call is to return.
    pub(crate) outcome: Outcome,
    /// The value that a get has read.
    pub(crate) fetched: ArrayVec<u8, MOST_BYTES>,
    pub(crate) stock: Stock,
    pub(crate) remembered: Remembered,
}

impl Caller {
    /// The view that is held.
    pub(crate) fn view(&self) -> View
        requires { IsView (view_of (client_of self.now)) }
        ensures { result ≡ view_of (client_of self.now) }
    {
        View {
            shape: self.shape,
            mask: self.mask,
        }
    }
}
