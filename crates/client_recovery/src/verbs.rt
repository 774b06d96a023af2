ghost use Rattle.std.specs.Prelude.{◌≡◌};
ghost use Rattle.block_alloc.specs.BlockWord.{word_of};
ghost use Rattle.block_alloc.specs.declared.BlockWord.TheVariants.{Owned, Released};
ghost use Rattle.client_recovery.specs.Progresses.{IsKept, recovery_at};
ghost use Rattle.machine.specs.Places.{control};
ghost use Rattle.machine.specs.Recovery.{next};
ghost use Rattle.region_view.specs.Control.{Begin};

use crate::progress::{Progress, Stage};
use block_alloc::{BlockWord, block_word};
use region_view::begin_at;
use verb_words::{Place, Verb};

impl Progress {
    /// The verb that is due.
    pub(crate) fn next(&self) -> Verb
        requires { IsKept (recovery_at self.now) }
        ensures { result ≡ next (recovery_at self.now) }
    {
        match &self.stage {
            Stage::ReadEpoch => Verb::Read(Place { node: 0, at: 0 }),
            Stage::ReadBegin => Verb::Read(self.begin()),
            Stage::Walk(walk) => walk.next(),
            Stage::Restock(_, set) => set.next(),
            Stage::ReadMeta => Verb::Read(self.word_place(1)),
            Stage::ReadLog(_, words) => Verb::Read(self.word_place(2 + words.len() as u32)),
            Stage::Find(find) => find.next(),
            Stage::ReadVersion { slot, word } => Verb::Read(self.version_place(*slot, *word)),
            Stage::WriteSlot(write) => write.next(),
            Stage::Resolve(walk) => walk.next(),
            Stage::Erase(write) => write.next(),
            Stage::Free(set) => set.next(),
            Stage::WriteBegin => Verb::Write(self.begin(), self.number.wrapping_mul(2)),
            Stage::ReadBlock => Verb::Read(self.block_primary()),
            Stage::Spread { class, backup } => Verb::Write(
                self.block_backup(*backup),
                released_word(*class),
            ),
            Stage::Release { class } => Verb::Swap {
                place: self.block_primary(),
                expect: self.owned_word(*class),
                fresh: released_word(*class),
            },
        }
    }

    // The client's begin word.
    fn begin(&self) -> Place
        requires { IsKept (recovery_at self.now) }
        ensures { result ≡ control (Begin self.now.client) }
    {
        Place {
            node: 0,
            at: begin_at(self.client),
        }
    }

    fn owned_word(&self, class: u8) -> u64
        ensures { result ≡ word_of (Owned self.now.client class) }
    {
        block_word(BlockWord::Owned {
            client: self.client,
            class,
        })
    }
}

fn released_word(class: u8) -> u64
    ensures { result ≡ word_of (Released class) }
{
    block_word(BlockWord::Released { class })
}
