ghost use Rattle.std.specs.Prelude.{◌≡◌, ◌<◌, ◌≤◌, ◌==◌, [], All, Some, length, nat_lt};
ghost use Rattle.machine.specs.Choosing.{block_at, first_awaited, region_at, with_awaited, with_block, with_scanned};
ghost use Rattle.machine.specs.Stock.{class_stock, is_own, ripened, view_of, with_class_stock};
ghost use Rattle.object_alloc.specs.Choosers.{HasRoom, IsFit, IsInside, rooms_of, stock_of};
ghost use Rattle.object_alloc.specs.Classes.{class_of};
ghost use Rattle.region_view.specs.Placed.{LeavesNoneBare};
ghost use Rattle.reuse_epoch.specs.Awaited.{IsClient, client_of, noted, still_awaited};

use crate::blocks::{ClassStock, OwnBlock};
use region_view::{Shape, View};

/// What a choosing does next.
#[derive(Clone, Copy, Debug)]
pub(crate) enum Phase {
    /// No choosing is under way.
    Rest,
    /// Reads the begin word of the first client that is awaited.
    AskFirst,
    /// Reads the bitmap of this own block.
    Scan(usize),
    /// Reads the begin word of this client, to await it.
    Ask(u32),
    /// Reads the word of the next block.
    ReadBlock,
    /// Swaps this word, which the block has, to the client's own.
    Claim(u64),
    /// Writes the client's word to this backup of the block.
    Spread { unused: bool, backup: usize },
    /// Reads the bitmap of a block that was used before.
    ReadBitmap,
    /// Writes the first reserve of the class.
    WriteHead,
}

/// A client's stock, and its choosing of an object of a class.
#[derive(Drop)]
pub(crate) struct Chooser {
    pub(crate) client: u32,
    pub(crate) shape: Shape,
    pub(crate) classes: Vec<ClassStock>,
    pub(crate) mask: u8,
    /// The class that is chosen for.
    pub(crate) class: u8,
    /// Whether the own blocks of the class were scanned in this choosing.
    pub(crate) scanned: bool,
    /// How many blocks of the pool this choosing has read.
    pub(crate) position: u32,
    pub(crate) phase: Phase,
}

// What is read of a chooser.
impl Chooser {
    pub(crate) fn of_class(&self) -> &ClassStock
        requires fit { IsFit (stock_of self.now) }
        ensures { class_of result.now ≡ class_stock (stock_of self.now) }
    {
        &self.classes[self.class as usize]
    }

    pub(crate) fn view(&self) -> View
        requires { LeavesNoneBare self.now.shape self.now.mask }
        ensures { result ≡ view_of (stock_of self.now) }
    {
        View {
            shape: self.shape,
            mask: self.mask,
        }
    }

    /// The region of the block at the present position.
    pub(crate) fn region(&self) -> u32
        requires { IsInside (stock_of self.now) }
        ensures region { result ≡ region_at (stock_of self.now) }
        ensures least { 1 ≤ result }
        ensures most { result ≤ self.now.shape.regions }
    {
        1 + self.position / self.shape.blocks
    }

    /// The block at the present position.
    pub(crate) fn block(&self) -> u32
        requires { IsInside (stock_of self.now) }
        ensures block { result ≡ block_at (stock_of self.now) }
        ensures below { result < self.now.shape.blocks }
    {
        self.position % self.shape.blocks
    }

    pub(crate) fn first_awaited(&self) -> (u32, u64)
        requires fit { IsFit (stock_of self.now) }
        ensures { result ≡ first_awaited (stock_of self.now) }
    {
        self.of_class().awaited.first().unwrap_or((0, 0))
    }

    pub(crate) fn awaits_nobody(&self) -> bool
        requires fit { IsFit (stock_of self.now) }
        ensures { result ≡ (length (class_stock (stock_of self.now)).awaited == 0) }
    {
        self.of_class().awaited.first().is_none()
    }

    pub(crate) fn owns_any(&self) -> bool
        requires fit { IsFit (stock_of self.now) }
        ensures { result ≡ nat_lt 0 (length (class_stock (stock_of self.now)).own) }
    {
        !self.of_class().own.is_empty()
    }

    /// Whether the client has gained the block, for whatever class.
    pub(crate) fn is_own(&self, region: u32, block: u32) -> bool
        ensures { result ≡ is_own (stock_of self.now) region block }
    {
        for class in 0..self.classes.len() {
            if self.classes[class].has_block(region, block) {
                return true;
            }
        }
        false
    }
}

// What changes the stock of the class that is chosen for.
impl Chooser {
    pub(crate) fn ripen(&mut self)
        requires fit { IsFit (stock_of self.old) }
        ensures state { stock_of self.new ≡ with_class_stock (stock_of self.old) (ripened (class_stock (stock_of self.old))) }
        ensures fit { IsFit (stock_of self.new) }
        ensures rooms { rooms_of self.new ≡ rooms_of self.old }
    {
        self.classes[self.class as usize].ripen();
    }

    pub(crate) fn note(&mut self, client: u32, begin: u64)
        requires fit { IsFit (stock_of self.old) }
        requires client { IsClient client }
        requires last { All (λ one. client_of one < client) (class_stock (stock_of self.old)).awaited }
        ensures state { stock_of self.new ≡ with_awaited (stock_of self.old) (noted (class_stock (stock_of self.old)).awaited client begin) }
        ensures fit { IsFit (stock_of self.new) }
        ensures rooms { rooms_of self.new ≡ rooms_of self.old }
    {
        self.classes[self.class as usize]
            .awaited
            .note(client, begin);
    }

    pub(crate) fn see(&mut self, client: u32, begin: u64)
        requires fit { IsFit (stock_of self.old) }
        ensures state { stock_of self.new ≡ with_awaited (stock_of self.old) (still_awaited (class_stock (stock_of self.old)).awaited client begin) }
        ensures fit { IsFit (stock_of self.new) }
        ensures rooms { rooms_of self.new ≡ rooms_of self.old }
    {
        self.classes[self.class as usize]
            .awaited
            .seen(client, begin);
    }

    pub(crate) fn await_nobody(&mut self)
        requires fit { IsFit (stock_of self.old) }
        ensures state { stock_of self.new ≡ with_awaited (stock_of self.old) [] }
        ensures fit { IsFit (stock_of self.new) }
        ensures rooms { rooms_of self.new ≡ rooms_of self.old }
    {
        self.classes[self.class as usize].awaited.clear();
    }

    pub(crate) fn scan(&mut self, i: usize, found: u64)
        requires fit { IsFit (stock_of self.old) }
        requires i { i < length (class_stock (stock_of self.old)).own }
        ensures state { stock_of self.new ≡ with_scanned (stock_of self.old) i found }
        ensures fit { IsFit (stock_of self.new) }
        ensures rooms { rooms_of self.new ≡ rooms_of self.old }
    {
        let class = self.class;
        self.classes[class as usize].scan(class, i, found);
    }

    /// The class has a reserve now.
    pub(crate) fn reserves(&mut self, free: u32)
        requires fit { IsFit (stock_of self.old) }
        ensures state { stock_of self.new ≡ with_class_stock (stock_of self.old)
            (record (class_stock (stock_of self.old)) { reserve = Some free }) }
        ensures rooms { rooms_of self.new ≡ rooms_of self.old }
    {
        self.classes[self.class as usize].reserve = Some(free);
    }

    pub(crate) fn gain(&mut self, ripe: u64, waiting: u64)
        requires fit { IsFit (stock_of self.old) }
        requires inside { IsInside (stock_of self.old) }
        requires room { HasRoom self.old }
        ensures state { stock_of self.new ≡ with_block (stock_of self.old) ripe waiting }
        ensures fit { IsFit (stock_of self.new) }
        ensures rooms { rooms_of self.new ≡ rooms_of self.old }
    {
        let own = OwnBlock {
            region: self.region() as u8,
            block: self.block() as u8,
            ripe,
            waiting,
        };
        self.classes[self.class as usize].own.push_reserved(own);
        self.position += 1;
    }
}
