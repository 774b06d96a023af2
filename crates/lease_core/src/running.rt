ghost use Rattle.std.specs.Prelude.{◌≡◌, OnOk, OnErr, IfOk, replicate};
ghost use Rattle.lease_core.specs.Book.{IsClient, is_client};
ghost use Rattle.lease_core.specs.Run.{answer_in_time, answer_of, is_out_of_time, new_member, opening, run_after, run_in_time};
ghost use Rattle.lease_core.specs.declared.lease_lines.LeaseLine.TheVariants as event;

use crate::answering::{LeaseAnswer, LeaseRefusal};
use crate::granting::{Book, CLIENTS, Fence, Grant};
use crate::lease_lines::LeaseLine;
use crate::lease_terms::Terms;
use crate::members::Member;
use std::alloc::{AllocError, Global};
use std::marker::Model;

/// A run over lease lines: what is known after those so far.
#[derive(Drop)]
pub struct LeaseRun {
    terms: Terms,
    /// The master's clock at the last accepted line.
    clock: u32,
    members: Vec<Member>,
    book: Book,
}

impl Model for LeaseRun {
    ghost use Rattle.std.specs.Prelude.{◌≡◌, vec_len};
    ghost use Rattle.lease_core.specs.declared.granting.TheConstants.{CLIENTS};
    ghost use Rattle.lease_core.specs.Run.{Run};

    ghost Value = { Run };

    ghost view = { λ r. record {
      terms = r.terms;
      clock = r.clock;
      members = r.members.items;
      book = r.book;
    } };

    ghost invariant = { λ r. vec_len r.members ≡ CLIENTS };
}

impl LeaseRun {
    /// Nothing is known yet.
    pub fn new(alloc: Global, terms: Terms) -> Result<LeaseRun, AllocError>
        ensures { IfOk result (λ run. run ≡ opening terms) }
    {
        Ok(LeaseRun {
            terms,
            clock: 0,
            members: new_members(alloc, terms)?,
            book: Book::new(terms),
        })
    }

    /// The answer to the next line. A line that is not refused moves the clocks.
    pub fn step(&mut self, line: &LeaseLine) -> Result<LeaseAnswer, AllocError>
        ensures answer { IfOk result (λ answer. answer ≡ answer_of self.old line.now) }
        ensures after { OnOk result (self.new ≡ run_after self.old line.now) }
        ensures err { OnErr result (self.new ≡ self.old) }
    {
        let client = line.client();
        if !is_client(client) {
            return Ok(LeaseAnswer::Refused(LeaseRefusal::Unknown(client)));
        }
        if self.is_out_of_time(client, line.client_clock(), line.master_clock()) {
            return Ok(LeaseAnswer::Refused(LeaseRefusal::Clocks));
        }
        match *line {
            LeaseLine::Ask { client, p, m } => self.ask(client, p, m),
            LeaseLine::Grant { client, ask, p, m } => Ok(self.grant(client, ask, p, m)),
            LeaseLine::Take { client, ask, p, m } => Ok(self.take(client, ask, p, m)),
            LeaseLine::Verb { client, p, m } => Ok(self.act(client, p, m)),
            LeaseLine::Fence { client, p, m } => Ok(self.fence(client, p, m)),
        }
    }

    // Whether the clocks differ by more than they may, or one of them ran back.
    fn is_out_of_time(&self, client: u32, p: u32, m: u32) -> bool
        requires { IsClient client }
        ensures { result ≡ is_out_of_time self.now client p m }
    {
        if u64::from(p.abs_diff(m)) > self.terms.error {
            return true;
        }
        if p < self.members[client as usize - 1].clock() {
            return true;
        }
        m < self.clock
    }

    // Each of these answers to a line of its kind that is in time.

    fn ask(&mut self, client: u32, p: u32, m: u32) -> Result<LeaseAnswer, AllocError>
        requires { IsClient client }
        ensures answer { IfOk result (λ answer. answer ≡ answer_in_time self.old (event.Ask client p m)) }
        ensures after { OnOk result (self.new ≡ run_in_time self.old (event.Ask client p m)) }
        ensures err { OnErr result (self.new ≡ self.old) }
    {
        let ask = self.members[client as usize - 1].ask(p)?;
        self.clock = m;
        Ok(LeaseAnswer::Asked { client, ask })
    }

    fn grant(&mut self, client: u32, ask: u32, p: u32, m: u32) -> LeaseAnswer
        requires { IsClient client }
        ensures answer { result ≡ answer_in_time self.old (event.Grant client ask p m) }
        ensures after { self.new ≡ run_in_time self.old (event.Grant client ask p m) }
    {
        let member = &mut self.members[client as usize - 1];
        if !member.has_ask(ask) {
            return LeaseAnswer::Refused(LeaseRefusal::Ask(ask));
        }
        match self.book.grant(client, u64::from(m)) {
            Grant::Fenced => LeaseAnswer::Refused(LeaseRefusal::Fenced(client)),
            Grant::Until(expiry) => {
                member.grant(ask, p);
                self.clock = m;
                LeaseAnswer::Granted {
                    client,
                    ask,
                    expiry,
                }
            }
        }
    }

    fn take(&mut self, client: u32, ask: u32, p: u32, m: u32) -> LeaseAnswer
        requires { IsClient client }
        ensures answer { result ≡ answer_in_time self.old (event.Take client ask p m) }
        ensures after { self.new ≡ run_in_time self.old (event.Take client ask p m) }
    {
        let member = &mut self.members[client as usize - 1];
        if !member.has_ask(ask) {
            return LeaseAnswer::Refused(LeaseRefusal::Ask(ask));
        }
        if !member.is_granted(ask) {
            return LeaseAnswer::Refused(LeaseRefusal::Grant(ask));
        }
        let until = member.take(ask, p);
        self.clock = m;
        LeaseAnswer::Taken { client, ask, until }
    }

    fn act(&mut self, client: u32, p: u32, m: u32) -> LeaseAnswer
        requires { IsClient client }
        ensures answer { result ≡ answer_in_time self.old (event.Verb client p m) }
        ensures after { self.new ≡ run_in_time self.old (event.Verb client p m) }
    {
        let lawful = self.members[client as usize - 1].act(p);
        self.clock = m;
        if lawful {
            LeaseAnswer::Lawful(client)
        } else {
            LeaseAnswer::Unlawful(client)
        }
    }

    fn fence(&mut self, client: u32, p: u32, m: u32) -> LeaseAnswer
        requires { IsClient client }
        ensures answer { result ≡ answer_in_time self.old (event.Fence client p m) }
        ensures after { self.new ≡ run_in_time self.old (event.Fence client p m) }
    {
        let answer = match self.book.fence(client, u64::from(m)) {
            Fence::Already => return LeaseAnswer::Refused(LeaseRefusal::Fenced(client)),
            Fence::Early(expiry) => LeaseAnswer::Early { client, expiry },
            Fence::Fenced => LeaseAnswer::Fenced(client),
        };
        self.members[client as usize - 1].pass(p);
        self.clock = m;
        answer
    }
}

fn is_client(client: u32) -> bool
    ensures { result ≡ is_client client }
{
    client > 0 && client as usize <= CLIENTS
}

fn new_members(alloc: Global, terms: Terms) -> Result<Vec<Member>, AllocError>
    ensures { IfOk result (λ members. members.items ≡ replicate CLIENTS (new_member terms)) }
{
    let mut members = Vec::with_capacity(alloc, CLIENTS)?;
    for _ in 0..CLIENTS {
        members.push(Member::new(alloc, terms))?;
    }
    Ok(members)
}
