ghost use Rattle.std.specs.Prelude.{◌≡◌, ◌≤◌, None, is_none, length, true};
ghost use Rattle.machine.specs.Client.{refusal as refusal_of_call};
ghost use Rattle.machine_world.specs.Calls.{key_of, value_of};
ghost use Rattle.machine_world.specs.Refusals.{is_node, of_all, of_call, of_client, of_late, of_lengths, of_loss, of_outside, of_recovery, of_seal, of_step, of_task, of_work, refusal};
ghost use Rattle.machine_world.specs.World.{is_registered};
ghost use Rattle.machine_world.specs.declared.events.Event.TheVariants as event;
ghost use Rattle.region_view.specs.Placed.{in_mask};

use crate::worlds::{Working, World};
use kv_ops::{Actor, Before};
use machine_world::events::{Event, Task};
use machine_world::outcomes::Refused;
use map_model::Call;
use object_form::LONGEST;
use world_ledger::{epoch_in_force, is_lost, is_sealed, mask_in_force, region_lost};

impl World {
    /// Why an event is refused, if it is.
    pub fn refusal(&self, event: &Event) -> Option<Refused>
        ensures { result ≡ refusal self.now event.now }
    {
        match event {
            Event::Register => self.of_all(),
            Event::Invoke { client, call } => self.of_invocation(*client, call),
            Event::Step { client } => self.of_step(*client),
            Event::Late { client } => self.of_late(*client),
            Event::Stop { client } => self.of_stop(*client),
            Event::Lose { node } => self.of_loss(*node),
            Event::Fill { node, .. } => self.of_fill(*node),
            Event::Choose(task) => self.of_task(*task),
            Event::Work => self.of_work(),
        }
    }

    /// Whether the client may take its next verb.
    #[inline(always)]
    pub fn may_step(&self, client: u32) -> bool
        ensures { result ≡ is_none (refusal self.now (event.Step client)) }
    {
        self.of_step(client).is_none()
    }

    fn of_all(&self) -> Option<Refused>
        ensures { result ≡ of_all self.now }
    {
        if self.clients.len() == self.shape.clients as usize {
            Some(Refused::Clients(self.shape.clients))
        } else {
            None
        }
    }

    fn of_stop(&self, client: u32) -> Option<Refused>
        ensures { result ≡ of_client self.now client None }
    {
        if !self.is_registered(client) {
            return Some(Refused::Unknown(client));
        }
        if self.is_stopped(client) {
            return Some(Refused::Stopped(client));
        }
        None
    }

    fn of_invocation(&self, client: u32, call: &Call) -> Option<Refused>
        ensures { result ≡ of_client self.now client (of_call self.now client call.now) }
    {
        if !self.is_registered(client) {
            return Some(Refused::Unknown(client));
        }
        if self.is_stopped(client) {
            return Some(Refused::Stopped(client));
        }
        let actor = self.client(client);
        if !actor.is_idle() {
            return Some(Refused::Busy(client));
        }
        match refusal_of_call(actor, key_len(call), value_len(call)) {
            Some(why) => Some(of_lengths(client, why)),
            None => None,
        }
    }

    fn of_step(&self, client: u32) -> Option<Refused>
        ensures { result ≡ of_client self.now client (of_step self.now client None) }
    {
        if !self.is_registered(client) {
            return Some(Refused::Unknown(client));
        }
        if self.is_stopped(client) {
            return Some(Refused::Stopped(client));
        }
        if self.client(client).is_idle() {
            return Some(Refused::Idle(client));
        }
        None
    }

    fn of_late(&self, client: u32) -> Option<Refused>
        ensures { result ≡ of_client self.now client (of_step self.now client (of_late self.now client)) }
    {
        if !self.is_registered(client) {
            return Some(Refused::Unknown(client));
        }
        if self.is_stopped(client) {
            return Some(Refused::Stopped(client));
        }
        if self.client(client).is_idle() {
            return Some(Refused::Idle(client));
        }
        self.of_live(client)
    }

    // Late verbs are carried out on lost nodes alone.
    fn of_live(&self, client: u32) -> Option<Refused>
        requires { is_registered self.now client ≡ true }
        ensures { result ≡ of_late self.now client }
    {
        let node = self.client(client).next().place().node;
        if is_lost(&self.nodes, node) {
            None
        } else {
            Some(Refused::Live(node))
        }
    }

    fn is_node(&self, node: u32) -> bool
        ensures { result ≡ is_node self.now node }
    {
        1 <= node && node <= self.shape.nodes
    }

    fn of_loss(&self, node: u32) -> Option<Refused>
        ensures { result ≡ of_loss self.now node }
    {
        if !self.is_node(node) {
            return Some(Refused::Node(node));
        }
        if is_lost(&self.nodes, node) {
            return Some(Refused::Gone(node));
        }
        match region_lost(&self.nodes, &self.shape, node) {
            Some(region) => Some(Refused::LastLive(region)),
            None => None,
        }
    }

    fn of_fill(&self, node: u32) -> Option<Refused>
        ensures { result ≡ of_outside self.now node (of_seal self.now) }
    {
        if !self.is_node(node) {
            return Some(Refused::Node(node));
        }
        if !is_lost(&self.nodes, node) {
            return Some(Refused::Live(node));
        }
        if in_mask(mask_in_force(&self.nodes), node) {
            return Some(Refused::Masked(node));
        }
        if is_sealed(&self.nodes) {
            return Some(Refused::Sealed(epoch_in_force(&self.nodes)));
        }
        None
    }

    fn of_join(&self, node: u32) -> Option<Refused>
        ensures { result ≡ of_outside self.now node None }
    {
        if !self.is_node(node) {
            return Some(Refused::Node(node));
        }
        if !is_lost(&self.nodes, node) {
            return Some(Refused::Live(node));
        }
        if in_mask(mask_in_force(&self.nodes), node) {
            return Some(Refused::Masked(node));
        }
        None
    }

    fn of_recovery(&self, client: u32) -> Option<Refused>
        ensures { result ≡ of_recovery self.now client }
    {
        if !self.is_registered(client) {
            return Some(Refused::Unknown(client));
        }
        if !self.is_stopped(client) {
            return Some(Refused::Running(client));
        }
        if self.recovered.has(client) {
            return Some(Refused::Recovered(client));
        }
        None
    }

    fn of_task(&self, task: Task) -> Option<Refused>
        ensures { result ≡ of_task self.now task }
    {
        match task {
            Task::Settle => None,
            Task::Recover(client) => self.of_recovery(client),
            Task::Join(node) => self.of_join(node),
        }
    }

    fn of_work(&self) -> Option<Refused>
        ensures { result ≡ of_work self.now.master.task }
    {
        match &self.task {
            Working::Rest => Some(Refused::NoTask),
            Working::Settle(_) => None,
            Working::Recover(_) => None,
            Working::Join(_) => None,
        }
    }
}

fn key_len(call: &Call) -> usize
    ensures { result ≡ length (key_of call.now) }
{
    match call {
        Call::Get { key } => key.as_slice().len(),
        Call::Put { key, .. } => key.as_slice().len(),
        Call::Delete { key } => key.as_slice().len(),
    }
}

fn value_len(call: &Call) -> usize
    ensures { result ≡ length (value_of call.now) }
{
    match call {
        Call::Get { .. } => 0,
        Call::Put { value, .. } => value.as_slice().len(),
        Call::Delete { .. } => 0,
    }
}

// Why a client may not make a call with a key and a value of these lengths, if it may not.
fn refusal_of_call(actor: &Actor, key_len: usize, value_len: usize) -> Option<Before>
    ensures { result ≡ refusal_of_call actor.now key_len value_len }
{
    if !(0 < key_len && key_len <= 64) {
        return Some(Before::KeyLength(key_len));
    }
    if value_len > LONGEST {
        return Some(Before::ValueLength(value_len));
    }
    if actor.number() == actor.shape().calls {
        return Some(Before::Spent);
    }
    None
}

fn of_lengths(client: u32, why: Before) -> Refused
    ensures { result ≡ of_lengths client why }
{
    match why {
        Before::KeyLength(len) => Refused::Key(len),
        Before::ValueLength(len) => Refused::Value(len),
        Before::Spent => Refused::Spent(client),
    }
}

fn in_mask(mask: u8, node: u32) -> bool
    requires least { 1 ≤ node }
    requires most { node ≤ 8 }
    ensures { result ≡ in_mask mask node }
{
    (mask >> (node - 1)) % 2 == 1
}
