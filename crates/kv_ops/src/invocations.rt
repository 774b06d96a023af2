ghost use Rattle.std.specs.Prelude.{◌≡◌, ◌↔◌, ◌≤◌, Err, OnOk, OnErr, length, true};
ghost use Rattle.kv_ops.specs.Callers.{client_of};
ghost use Rattle.kv_ops.specs.Invocations.{IsReason, IsRefusal};
ghost use Rattle.kv_ops.specs.Stages.{operation_as};
ghost use Rattle.machine.specs.declared.client_call.Before.{Before};
ghost use Rattle.machine.specs.Client.{invoked, is_idle, refusal};
ghost use Rattle.object_form.specs.Class.{IsKeyLength};
ghost use Rattle.object_form.specs.declared.classes.TheConstants.{LONGEST};

use crate::callers::Caller;
use crate::calls::Operation;
use crate::stages::Stage;
use arrayvec::ArrayVec;
use machine::client_call::{Before, Outcome};
use object_form::LONGEST;

// The making of calls.
impl Caller {
    /// Whether no call is open.
    pub(crate) fn is_idle(&self) -> bool
        ensures { result ≡ is_idle (client_of self.now) }
    {
        match &self.stage {
            Stage::Idle => true,
            Stage::Fetch => self.reading.is_none(),
            Stage::Body => self.body.is_none(),
            Stage::WriteSlot { awaits: true, .. } => false,
            Stage::WriteSlot { awaits: false, .. } => false,
            _ => false,
        }
    }

    /// Makes the call, where it is not refused.
    pub(crate) fn invoke(
        &mut self,
        operation: Operation,
        key: &[u8],
        value: &[u8],
    ) -> Result<(), Before>
        requires number { self.old.number ≤ self.old.shape.calls }
        ensures call { OnOk result (client_of self.new
            ≡ invoked (client_of self.old) (operation_as operation) key.now value.now) }
        ensures same { OnErr result (self.new ≡ self.old) }
        ensures refusal { IsRefusal (client_of self.old) (length key.now) (length value.now) result }
        ensures reason { (before : Before) → (result ≡ Err before)
            ↔ IsReason (client_of self.old) (length key.now) (length value.now) before }
    {
        if let Some(before) = self.refusal(key.len(), value.len()) {
            return Err(before);
        }
        self.number += 1;
        self.stage = Stage::Start;
        self.operation = operation;
        refill(&mut self.key, key);
        refill(&mut self.value, value);
        self.object = 0;
        self.beaten = None;
        self.outcome = Outcome::Done;
        self.fetched.clear();
        Ok(())
    }

    // Why a call with a key and a value of these lengths is refused.
    fn refusal(&self, key_len: usize, value_len: usize) -> Option<Before>
        ensures { result ≡ refusal (client_of self.now) key_len value_len }
    {
        if key_len == 0 || key_len > 64 {
            return Some(Before::KeyLength(key_len));
        }
        if value_len > LONGEST {
            return Some(Before::ValueLength(value_len));
        }
        if self.number == self.shape.calls {
            return Some(Before::Spent);
        }
        None
    }
}

// Puts these bytes in place of others.
fn refill<const CAP: usize>(buffer: &mut ArrayVec<u8, CAP>, bytes: &[u8])
    requires { length bytes.now ≤ CAP }
    ensures { buffer.new.items ≡ bytes.now }
{
    buffer.clear();
    let pushed = buffer.try_extend_from_slice(bytes);
    prove!(pushed.is_ok());
}
