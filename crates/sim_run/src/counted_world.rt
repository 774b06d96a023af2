// The world of a simulation, and counts beside it that spare each turn a look through its past.

ghost use Rattle.std.specs.Prelude.{◌≡◌, ◌+◌, ◌<◌, ◌≤◌, ◌^◌, IfOk, None, OnErr, OnOk, is_none, is_some, true, false};
ghost use Rattle.machine.specs.Client.{is_idle};
ghost use Rattle.machine_world.specs.Events.{comes_to, happens};
ghost use Rattle.machine_world.specs.Refusals.{refusal};
ghost use Rattle.machine_world.specs.World.{client_at, is_among, is_stopped};
ghost use Rattle.machine_world.specs.declared.events.Event.TheVariants as events;
ghost use Rattle.region_view.specs.Sizes.{all_words};
ghost use Rattle.script_meaning.specs.Lines.{is_settling, settles, takes, takes_up_to, told_line, works_on};
ghost use Rattle.sim_meaning.specs.Driver.{awaits_recovery, has_task, returned_in};
ghost use Rattle.sim_run.specs.Counted.{NoneAwaits, after_event, counts, event_of, first_counted, leaves_counts};

use crate::happened::{is_told_of, number_in, returns_by, returns_in, tells_of_step};
use crate::takers::Taker;
use map_model::Call;
use region_view::Shape;
use std::alloc::{AllocError, Global};
use std::marker::Model;
use world_core::{Event, Happened, Task, World};

/// A task takes so many verbs at most.
const MOST_VERBS: u64 = 4_294_967_296;

/// A world, the verbs that were taken up to it, and what is kept of its past.
#[derive(Drop)]
pub(crate) struct CountedWorld {
    world: World,
    verbs: u64,
    /// How many calls have returned.
    returned: u64,
    /// How many calls each client has made, client c at place c.
    made: Vec<u32>,
    /// Whether a client may await its recovery.
    awaits: bool,
}

impl Model for CountedWorld {
    ghost use Rattle.sim_run.specs.Counted.{Counted, IsCounted};

    ghost Value = { Counted };

    ghost view = { λ c. record { world = c.world; verbs = c.verbs } };

    ghost invariant = { λ c. IsCounted c.world c.verbs c.returned c.made.items c.awaits };
}

impl CountedWorld {
    /// The world as it opens. The shape has at most 2,097,152 words, 16 MiB.
    pub(crate) fn new(alloc: Global, shape: Shape) -> Result<CountedWorld, AllocError>
        requires { all_words shape ≤ 2097152 }
        ensures { IfOk result (λ counted. counted ≡ first_counted shape) }
    {
        let world = World::new(alloc, shape)?;
        let made = Vec::from_slice(alloc, &[0])?;
        Ok(CountedWorld {
            world,
            verbs: 0,
            returned: 0,
            made,
            awaits: false,
        })
    }

    pub(crate) fn world(&self) -> &World
        ensures { result.now ≡ self.now.world }
    {
        &self.world
    }

    /// How many verbs were taken.
    pub(crate) fn verbs(&self) -> u64
        ensures { result ≡ self.now.verbs }
    {
        self.verbs
    }

    /// How many calls have returned.
    pub(crate) fn returned(&self) -> u64
        ensures { result ≡ returned_in self.now.world }
    {
        self.returned
    }

    /// How many calls the client has made.
    pub(crate) fn number(&self, client: u32) -> u32
        ensures { result ≡ (client_at self.now.world client).number }
    {
        match self.made.get(client as usize) {
            Some(number) => *number,
            None => 0,
        }
    }

    /// Whether no call of the client is open.
    pub(crate) fn is_idle(&self, client: u32) -> bool
        ensures { result ≡ is_idle (client_at self.now.world client) }
    {
        let _kept = self.awaits;
        self.world.is_idle(client)
    }

    pub(crate) fn is_stopped(&self, client: u32) -> bool
        ensures { result ≡ is_stopped self.now.world client }
    {
        let _kept = self.awaits;
        self.world.is_stopped(client)
    }

    pub(crate) fn is_recovered(&self, client: u32) -> bool
        ensures { result ≡ is_among client self.now.world.master.recovered }
    {
        let _kept = self.awaits;
        self.world.is_recovered(client)
    }

    /// Whether the client is stopped and not yet recovered.
    pub(crate) fn awaits_recovery(&self, client: u32) -> bool
        ensures { result ≡ awaits_recovery self.now.world client }
    {
        let _kept = self.awaits;
        self.world
            .refusal(&Event::Choose(Task::Recover(client)))
            .is_none()
    }

    /// Whether a client may await its recovery.
    pub(crate) fn awaits(&self) -> bool
        ensures { result ≡ false → NoneAwaits self.now.world }
    {
        self.awaits
    }

    /// Whether the master works on something.
    pub(crate) fn has_task(&self) -> bool
        ensures { result ≡ has_task self.now.world.master.task }
    {
        self.world.task().is_some()
    }

    /// Finds out whether a client still awaits its recovery.
    pub(crate) fn look_for_stopped(&mut self)
        ensures { self.new ≡ self.old }
    {
        let awaits = self.finds_stopped();
        self.awaits = awaits;
    }

    fn finds_stopped(&self) -> bool
        ensures { result ≡ false → NoneAwaits self.now.world }
    {
        for i in 0..self.made.len() {
            let Ok(client) = u32::try_from(i) else {
                return true;
            };
            if self.awaits_recovery(client) {
                return true;
            }
        }
        false
    }

    /// Registers a client, unless there are as many as there may be.
    pub(crate) fn register(&mut self) -> Result<(), AllocError>
        requires { self.old.world.events < 2 ^ 63 }
        ensures { OnOk result (self.new ≡ after_event self.old events.Register) }
    {
        if self.world.refusal(&Event::Register).is_some() {
            return Ok(());
        }
        self.made.push(0)?;
        advance(Event::Register, &mut self.world)?;
        Ok(())
    }

    /// A client invokes a call, unless it may not.
    pub(crate) fn invoke(&mut self, client: u32, call: Call) -> Result<(), AllocError>
        requires { self.old.world.events < 2 ^ 63 }
        ensures { OnOk result (self.new ≡ after_event self.old (events.Invoke client call)) }
    {
        let event = Event::Invoke { client, call };
        if self.world.refusal(&event).is_some() {
            return Ok(());
        }
        let number = number_in(advance(event, &mut self.world)?);
        self.made[client as usize] = number;
        Ok(())
    }

    /// A client stops for good, unless it may not.
    pub(crate) fn stop(&mut self, client: u32) -> Result<(), AllocError>
        requires { self.old.world.events < 2 ^ 63 }
        ensures { OnOk result (self.new ≡ after_event self.old (events.Stop client)) }
    {
        if self.world.refusal(&Event::Stop { client }).is_some() {
            return Ok(());
        }
        advance(Event::Stop { client }, &mut self.world)?;
        self.awaits = true;
        Ok(())
    }

    /// A loss or a choice happens, unless it is refused.
    pub(crate) fn happen(&mut self, event: Event) -> Result<(), AllocError>
        requires room { self.old.world.events < 2 ^ 63 }
        requires leaves { leaves_counts event ≡ true }
        ensures { OnOk result (self.new ≡ after_event self.old event) }
    {
        if self.world.refusal(&event).is_some() {
            return Ok(());
        }
        advance(event, &mut self.world)?;
        Ok(())
    }

    /// The settling goes on where one is under way that awaits just the clients that are stopped, and
    /// else begins.
    pub(crate) fn settle(&mut self) -> Result<(), AllocError>
        requires { self.old.world.events + (2 ^ 32 + 1) ≤ 2 ^ 63 }
        ensures { OnOk result (self.new ≡ counts self.old (settles false self.old.world)) }
    {
        if self.is_settling() {
            self.take_up_to(MOST_VERBS, Taker::Master)
        } else {
            self.work_on(Task::Settle)
        }
    }

    fn is_settling(&self) -> bool
        ensures { result ≡ is_settling self.now.world self.now.world.master.task }
    {
        match self.world.settling() {
            Some(stopped) => stopped == self.world.stopped(),
            None => false,
        }
    }

    /// A task and its verbs, unless it may not be chosen.
    pub(crate) fn work_on(&mut self, task: Task) -> Result<(), AllocError>
        requires { self.old.world.events + (2 ^ 32 + 1) ≤ 2 ^ 63 }
        ensures { OnOk result (self.new ≡ counts self.old (works_on false self.old.world task)) }
    {
        if self.world.refusal(&Event::Choose(task)).is_some() {
            return Ok(());
        }
        self.happen(Event::Choose(task))?;
        self.take_up_to(MOST_VERBS, Taker::Master)
    }

    /// Takes verbs until something is told of one, and at most so many, unless the first is refused.
    pub(crate) fn take_up_to(&mut self, most: u64, taker: Taker) -> Result<(), AllocError>
        requires { self.old.world.events + most ≤ 2 ^ 63 }
        ensures { OnOk result (self.new ≡ counts self.old (takes_up_to most false (event_of taker) self.old.world)) }
    {
        if !self.may_take(taker) {
            return Ok(());
        }
        self.take(most, taker)
    }

    // Whether the taker's next verb is not refused.
    fn may_take(&self, taker: Taker) -> bool
        ensures { result ≡ is_none (refusal self.now.world (event_of taker)) }
    {
        let _kept = self.awaits;
        match taker {
            Taker::Client(client) => self.world.may_step(client),
            Taker::Master => self.world.refusal(&Event::Work).is_none(),
        }
    }

    // Takes verbs where the first is not refused. None of the later ones is, since something would have
    // been told.
    fn take(&mut self, most: u64, taker: Taker) -> Result<(), AllocError>
        requires room { self.old.world.events + most ≤ 2 ^ 63 }
        requires lawful { refusal self.old.world (event_of taker) ≡ None }
        ensures { OnOk result (self.new ≡ counts self.old (takes false (event_of taker) 0 most self.old.world)) }
    {
        for taken in 0..most {
            let told = self.take_one(taker)?;
            if told {
                return Ok(());
            }
        }
        Ok(())
    }

    // Takes one verb, and answers whether something is told of it.
    fn take_one(&mut self, taker: Taker) -> Result<bool, AllocError>
        requires room { self.old.world.events < 2 ^ 63 }
        requires lawful { refusal self.old.world (event_of taker) ≡ None }
        ensures counted { OnOk result (self.new ≡ after_event self.old (event_of taker)) }
        ensures told { IfOk result (λ told. told ≡ is_some (told_line self.old.world (comes_to self.old.world (event_of taker)))) }
    {
        match taker {
            Taker::Client(client) => self.step(client),
            Taker::Master => self.work(),
        }
    }

    // A client takes its verb.
    fn step(&mut self, client: u32) -> Result<bool, AllocError>
        requires room { self.old.world.events < 2 ^ 63 }
        requires lawful { refusal self.old.world (events.Step client) ≡ None }
        ensures counted { OnOk result (self.new ≡ after_event self.old (events.Step client)) }
        ensures told { IfOk result (λ told. told
            ≡ is_some (told_line self.old.world (comes_to self.old.world (events.Step client)))) }
    {
        let step = self.world.step(client)?;
        self.verbs += 1;
        self.returned += returns_by(step);
        Ok(tells_of_step(step))
    }

    // The master takes its task's verb.
    fn work(&mut self) -> Result<bool, AllocError>
        requires room { self.old.world.events < 2 ^ 63 }
        requires lawful { refusal self.old.world events.Work ≡ None }
        ensures counted { OnOk result (self.new ≡ after_event self.old events.Work) }
        ensures told { IfOk result (λ told. told ≡ is_some (told_line self.old.world (comes_to self.old.world events.Work))) }
    {
        let happened = advance(Event::Work, &mut self.world)?;
        self.verbs += 1;
        self.returned += returns_in(happened);
        Ok(is_told_of(happened))
    }
}

// Carries out an event that is not refused.
fn advance(event: Event, world: &mut World) -> Result<Happened, AllocError>
    requires room { world.old.events < 2 ^ 63 }
    requires lawful { refusal world.old event ≡ None }
    ensures happened { IfOk result (λ happened. happened ≡ comes_to world.old event) }
    ensures world { OnOk result (world.new ≡ happens world.old event) }
    ensures same { OnErr result (world.new ≡ world.old) }
{
    world.carry_out(event)
}
