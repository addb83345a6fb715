//! A node, and what it is set up with.
ghost use Rattle.std.specs.Prelude.{◌≡◌};
ghost use denote.Param.Send.{IsSend, IsSync};

use crate::acceptor::Acceptor;
use crate::costs::Reach;
use crate::dispatcher::{NodeMailbox, dispatch};
use crate::error_counts::ErrorCounts;
use crate::gate::Gate;
use crate::io_loop::serve;
use crate::live_backend::LiveBackend;
use crate::shared::Shared;
use crate::window::Window;
use cf_broker::{Broker, Passes};
use cf_link::Receiver;
use cf_protocol::{Namespaces, Tokens};
use cf_shard::{Delivery, Naming};
use cf_stream::Epochs;
use mio::Waker;
use mio::net::TcpListener;
use std::cell::RefCell;
use std::marker::PhantomData;
use std::net::Net;
use std::sync::Wait;
use std::sync::atomic::{AtomicU64, Ordering};
use std::thread::Threads;
use std::time::Clock;
use std::{io, thread};

/// What a node is set up with. Its namespaces are those that `N` names.
#[derive(Drop)]
pub struct Setup<'a, N: Naming> {
    node: u8,
    boot: u64,
    pub(crate) namespaces: &'a Namespaces,
    pub(crate) tokens: &'a Tokens,
    pub(crate) counts: Option<&'a ErrorCounts>,
    stale: u64,
    pub(crate) reach: Option<&'a Reach>,
    of: PhantomData<N>,
    ghost named: { namespaces.now ≡ N.namespaces },
}

impl<'a, N: Naming> Setup<'a, N> {
    /// A node of this number, from 0, at this start of the program, whose number stands in the ids
    /// of its clients.
    pub fn new(node: u8, boot: u64, namespaces: &'a Namespaces, tokens: &'a Tokens) -> Setup<'a, N>
        requires { namespaces.now ≡ N.namespaces }
    {
        Setup {
            node,
            boot,
            namespaces,
            tokens,
            counts: None,
            stale: 0,
            reach: None,
            of: PhantomData,
        }
    }

    /// The same, where what goes wrong is counted here.
    pub fn counted(mut self, counts: &'a ErrorCounts) -> Setup<'a, N>
        ensures { result.node ≡ self.entry.node }
    {
        self.counts = Some(counts);
        self
    }

    /// The same, where a connection is dropped that has sent no connect command for so many seconds; 0:
    /// it stays for ever, as where nothing is said.
    pub fn stale(mut self, seconds: u64) -> Setup<'a, N>
        ensures { result.node ≡ self.entry.node }
    {
        self.stale = seconds;
        self
    }

    /// The same, where what publications reach is kept here, for all nodes that share it. Without
    /// that a turn's cost doesn't tell who gets what is published in it.
    pub fn reaching(mut self, reach: &'a Reach) -> Setup<'a, N>
        ensures { result.node ≡ self.entry.node }
    {
        self.reach = Some(reach);
        self
    }

    /// The node's number, from 0.
    pub fn node(&self) -> u8
        ensures { result ≡ self.now.node }
    {
        self.node
    }
}

/// A node that listens, and serves nobody yet.
#[derive(Drop)]
pub struct Node<'a, N: Naming> {
    setup: Setup<'a, N>,
    acceptor: Acceptor,
    receiver: Receiver<Delivery<N>>,
    waker: Waker,
}

impl<'a, N: Naming> Node<'a, N> {
    /// A node at this listener, at this end of its link from the broker. An error where its
    /// readiness can't be set up.
    pub fn open<R: Net + AllocGlobal>(
        rt: &R,
        setup: Setup<'a, N>,
        receiver: Receiver<Delivery<N>>,
        listener: TcpListener,
    ) -> io::Result<Node<'a, N>> {
        let (acceptor, waker) = Acceptor::open(rt, listener)?;
        Ok(Node {
            setup,
            acceptor,
            receiver,
            waker,
        })
    }

    /// Serves the clients that connect, with these passes of the broker's shards, until `stop`
    /// isn't 0: then all sessions are closed with 3001 and both workers end. An error where a worker
    /// can't be started, waiting for readiness fails, or memory for it is refused; then `stop` is
    /// set, so that what shares it ends too.
    pub fn run<R, E, G>(
        self,
        rt: &'a R,
        broker: &'a Broker<N, E>,
        mut passes: Passes<N>,
        gate: &'a G,
        stop: &'a AtomicU64,
    ) -> io::Result<()>
    where
        R: Threads + Wait + Clock + AllocGlobal + Sync,
        N: Send + Sync,
        E: Epochs + Send + Drop,
        G: Gate + Sync,
    {
        let Node {
            setup,
            acceptor,
            receiver,
            waker,
        } = self;
        let node = setup.node;
        let stale = setup.stale;
        let reach = setup.reach;
        let seen = passes.lend(rt.alloc(), broker)?;
        let shared = Shared::new(rt.alloc(), node, setup.boot, waker, seen);
        let shared = &shared;
        let window = Window::new(rt.alloc(), broker.nodes())?;
        let backend = LiveBackend {
            rt,
            alloc: rt.alloc(),
            setup,
            shared,
            broker,
            passes: RefCell::new(passes),
            window: RefCell::new(window),
        };
        let backend = &backend;
        thread::scope(
            thread::scope_env(),
            rt,
            // What it calls requires these, which the prover doesn't take from its body.
            |scope|
                requires send { IsSend N.row }
                requires sync { IsSync N.row }
                requires epochs { IsSend E.row }
            {
                let brings = move || {
                    let mailbox = NodeMailbox::new(rt, gate, receiver, broker, shared);
                    let mut mailbox = mailbox.noting(node, reach);
                    dispatch(rt, node, &mut mailbox, gate, stop);
                };
                let served = match scope.spawn(brings) {
                    Ok(_) => serve(rt, node, backend, acceptor, stale, gate, stop),
                    Err(refused) => Err(io::Error::from(refused)),
                };
                stop.store(1, Ordering::SeqCst);
                served
            },
        )
    }
}
