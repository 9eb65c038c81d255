// What a net, its links and its closers share.
use crate::hang_up::HangUp;
use crate::net_closer::StopTimes;
use crate::port::{BoundPorts, Demand, Port};
use crate::questions_told::QuestionsTold;
use std::io;
use std::net::Net;
use std::sync::OnceLock;
use std::sync::atomic::{AtomicBool, Ordering};
use std::time::Duration;

#[derive(Drop)]
pub(crate) struct Shared {
    // none before `bind`
    ports: OnceLock<Ports>,
    closing: AtomicBool,
    // how long links go on after the ports were closed
    pub(crate) grace: Duration,
    pub(crate) hang_up: HangUp,
    // those without an answer
    pub(crate) questions: QuestionsTold,
}

#[derive(Drop)]
pub(crate) struct Ports {
    pub(crate) lines: Port,
    pub(crate) http: Port,
}

impl Shared {
    pub(crate) fn new(rt: &impl Net, times: StopTimes) -> io::Result<Self> {
        Ok(Shared {
            ports: OnceLock::new(),
            closing: AtomicBool::new(false),
            grace: times.grace,
            hang_up: HangUp::new(rt, times.rest)?,
            questions: QuestionsTold::new(),
        })
    }

    pub(crate) fn ports(&self) -> Option<&Ports> {
        self.ports.get()
    }

    pub(crate) fn bound(&self) -> Option<BoundPorts> {
        let ports = self.ports.get()?;
        Some(BoundPorts {
            lines: ports.lines.number(),
            http: ports.http.number(),
        })
    }

    // What is known of the connections for HTTP that nobody has taken yet.
    pub(crate) fn http_demand(&self) -> Demand {
        match self.ports.get() {
            Some(ports) => ports.http.demand(),
            None => Demand::None,
        }
    }

    // A link for HTTP that ended for the sake of another is over.
    pub(crate) fn count_ended(&self) {
        if let Some(ports) = self.ports.get() {
            ports.http.count_ended();
        }
    }

    // Keeps the ports, and says whether there were none before. Where the net was closed earlier, or is closed by
    // another thread just now, one of the two threads finds both the ports and the wish to close, so they close.
    pub(crate) fn keep(&self, ports: Ports) -> bool {
        if self.ports.try_set(ports).is_err() {
            return false;
        }
        if self.closing.load(Ordering::SeqCst) {
            self.close_ports();
        }
        true
    }

    pub(crate) fn close_ports(&self) {
        self.closing.store(true, Ordering::SeqCst);
        if let Some(ports) = self.ports.get() {
            ports.lines.close();
            ports.http.close();
        }
    }
}
