ghost use Rattle.std.specs.Prelude.{◌≡◌, ◌<◌, IfOk, Some, length};
ghost use Rattle.std.specs.List.{list_any};
ghost use Rattle.machine.specs.Stock.{any_waits, first_free, is_block, no_stock, reserve_bit, ripened, ripened_block, with_reserve, without};
ghost use Rattle.object_alloc.specs.Classes.{HasUnit, class_of, pointer_at, room_of, spot_bit, spot_of, with_scanned_block};
ghost use Rattle.object_form.specs.declared.classes.TheConstants.{CLASSES};

use block_alloc::all_bits;
use object_form::{block_at, object_at, pointer_of, region_of, units};
use reuse_epoch::Grace;
use std::alloc::{AllocError, Global};
use std::marker::Model;

/// A block that the client owns; bit j of a number is for its object j.
#[derive(Clone, Copy, Debug)]
pub(crate) struct OwnBlock {
    pub(crate) region: u8,
    pub(crate) block: u8,
    /// The objects that may be taken at once.
    pub(crate) ripe: u64,
    /// The objects that were given back, and that other clients may still read.
    pub(crate) waiting: u64,
}

impl Model for OwnBlock {
    ghost use Rattle.machine.specs.Stock.{OwnBlock};

    ghost Value = { OwnBlock };

    ghost view = { λ o. record {
      region = o.region;
      block = o.block;
      ripe = o.ripe;
      waiting = o.waiting;
    } };

    ghost inverse = { λ v. record {
      region = v.region;
      block = v.block;
      ripe = v.ripe;
      waiting = v.waiting;
    } };
}

/// What a client has of one class.
#[derive(Drop)]
pub(crate) struct ClassStock {
    /// The blocks in the order in which they were gained.
    pub(crate) own: Vec<OwnBlock>,
    /// The object that the client's next call writes.
    pub(crate) reserve: Option<u32>,
    /// The clients that the waiting objects wait for.
    pub(crate) awaited: Grace,
}

/// Where an object stands: its block, and its bit there.
#[derive(Clone, Copy, Debug)]
pub(crate) struct Spot {
    region: u32,
    block: u32,
    bit: u64,
}

fn spot_of(class: u8, pointer: u32) -> Spot
    requires class { class < CLASSES }
    requires pointer { HasUnit (Some pointer) }
    ensures { result ≡ spot_of class pointer }
{
    Spot {
        region: region_of(pointer),
        block: block_at(pointer),
        bit: 1 << object_at(pointer, class),
    }
}

// The object's bit, where it stands in this block, else 0.
fn spot_bit(spot: Option<Spot>, own: OwnBlock) -> u64
    ensures { result ≡ spot_bit spot own }
{
    match spot {
        Some(spot) if spot.region == u32::from(own.region) && spot.block == u32::from(own.block) =>
            { spot.bit }
        _ => 0,
    }
}

// The bits of a number that another does not have.
fn without(bits: u64, others: u64) -> u64
    ensures { result ≡ without bits others }
{
    bits - (bits & others)
}

// The pointer to the object of a block that the lowest of some bits is for.
fn pointer_at(own: OwnBlock, class: u8, bits: u64) -> u32
    requires class { class < CLASSES }
    requires some { 0 < bits }
    ensures { result ≡ pointer_at own class bits }
{
    let first = 16 + 64 * u32::from(own.block);
    pointer_of(
        u32::from(own.region),
        first + bits.trailing_zeros() * units(class),
    )
}

// All that waits in the block is ripe.
fn ripened(own: OwnBlock) -> OwnBlock
    ensures { result ≡ ripened_block own }
{
    OwnBlock {
        region: own.region,
        block: own.block,
        ripe: own.ripe | own.waiting,
        waiting: 0,
    }
}

// What stands at the spot is no longer ripe.
fn cleared(own: OwnBlock, spot: Option<Spot>) -> OwnBlock
    ensures { result ≡ record own { ripe = without own.ripe (spot_bit spot own) } }
{
    OwnBlock {
        region: own.region,
        block: own.block,
        ripe: without(own.ripe, spot_bit(spot, own)),
        waiting: own.waiting,
    }
}

impl ClassStock {
    /// Nothing yet, with room for so many blocks.
    pub(crate) fn new(alloc: Global, blocks: usize) -> Result<ClassStock, AllocError>
        ensures stock { IfOk result (λ stock. class_of stock ≡ no_stock) }
        ensures room { IfOk result (λ stock. room_of stock ≡ blocks) }
    {
        Ok(ClassStock {
            own: Vec::with_capacity(alloc, blocks)?,
            reserve: None,
            awaited: Grace::new(),
        })
    }

    fn reserve_spot(&self, class: u8) -> Option<Spot>
        requires class { class < CLASSES }
        requires reserve { HasUnit self.now.reserve }
        ensures { (own : OwnBlock) → spot_bit result own ≡ reserve_bit class (class_of self.now) own }
    {
        match self.reserve {
            Some(pointer) => Some(spot_of(class, pointer)),
            None => None,
        }
    }

    /// The lowest ripe object of the first block that has one, but for the reserve.
    #[tactic(auto, unfolding(machine::specs::Stock::first_free))]
    pub(crate) fn first_free(&self, class: u8) -> Option<u32>
        requires class { class < CLASSES }
        requires reserve { HasUnit self.now.reserve }
        ensures { result ≡ first_free class (class_of self.now) }
    {
        let reserve = self.reserve_spot(class);
        for i in 0..self.own.len() {
            let own = self.own[i];
            let free = without(own.ripe, spot_bit(reserve, own));
            if free != 0 {
                return Some(pointer_at(own, class, free));
            }
        }
        None
    }

    /// All that waits is ripe.
    pub(crate) fn ripen(&mut self)
        ensures stock { class_of self.new ≡ ripened (class_of self.old) }
        ensures room { room_of self.new ≡ room_of self.old }
    {
        for i in 0..self.own.len() {
            self.own[i] = ripened(self.own[i]);
        }
    }

    /// What the bitmap of a block has in stock, and what is neither ripe nor the reserve, waits.
    pub(crate) fn scan(&mut self, class: u8, i: usize, found: u64)
        requires class { class < CLASSES }
        requires reserve { HasUnit self.old.reserve }
        requires i { i < length self.old.own.items }
        ensures stock { class_of self.new ≡ with_scanned_block class (class_of self.old) i found }
        ensures room { room_of self.new ≡ room_of self.old }
    {
        let own = self.own[i];
        let reserve = spot_bit(self.reserve_spot(class), own);
        let in_stock = found & all_bits(class);
        let new = without(without(without(in_stock, own.ripe), own.waiting), reserve);
        self.own[i] = OwnBlock {
            region: own.region,
            block: own.block,
            ripe: own.ripe,
            waiting: own.waiting | new,
        };
    }

    /// Whether any object waits.
    pub(crate) fn any_waits(&self) -> bool
        ensures { result ≡ any_waits (class_of self.now) }
    {
        self.own.iter().any(|own| own.waiting != 0)
    }

    /// Whether the block is one of these.
    pub(crate) fn has_block(&self, region: u32, block: u32) -> bool
        ensures { result ≡ list_any (is_block region block) self.now.own.items }
    {
        self.own.iter().any(|own| u32::from(own.region) == region && u32::from(own.block) == block)
    }

    /// The reserve's bit is cleared, and the next object is the reserve.
    pub(crate) fn replace_reserve(&mut self, class: u8, next: u32)
        requires class { class < CLASSES }
        requires reserve { HasUnit self.old.reserve }
        ensures stock { class_of self.new ≡ with_reserve class (class_of self.old) next }
        ensures room { room_of self.new ≡ room_of self.old }
    {
        let reserve = self.reserve_spot(class);
        for i in 0..self.own.len() {
            self.own[i] = cleared(self.own[i], reserve);
        }
        self.reserve = Some(next);
    }
}
