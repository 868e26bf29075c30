// The processes that the driver starts.
use crate::sockets::pause;
use std::process::{Child, Command};
use std::{env, io};

/// A server, an agent and a client, those that were started.
#[derive(Drop)]
pub struct Children {
    pub server: Option<Child>,
    pub agent: Option<Child>,
    pub client: Option<Child>,
}

/// Starts this program with the words.
pub fn start(rt: &HostRuntime, words: &[&str]) -> io::Result<Option<Child>> {
    let alloc = rt.alloc();
    let me = env::current_exe(rt)?;
    let mut command = Command::new(alloc, me)?;
    for word in words {
        command.arg(*word)?;
    }
    Ok(Some(command.spawn(rt)?))
}

/// Whether the process has ended, and with which status.
pub fn ended(child: &mut Option<Child>) -> Option<Option<i32>> {
    match child {
        Some(child) => match child.try_wait() {
            Ok(Some(status)) => Some(status.code()),
            Ok(None) => None,
            Err(_) => Some(None),
        },
        None => Some(None),
    }
}

/// Whether the process ends with status 0.
pub fn ends_well(rt: &HostRuntime, child: &mut Option<Child>) -> bool {
    for _ in 0..10_000 {
        if let Some(status) = ended(child) {
            return status == Some(0);
        }
        pause(rt, 10);
    }
    false
}

fn end(child: &mut Option<Child>) {
    if let Some(child) = child {
        let _ = child.kill();
        let _ = child.wait();
    }
}

impl Children {
    pub fn new() -> Children {
        Children {
            server: None,
            agent: None,
            client: None,
        }
    }

    /// Ends those that still run, and waits for them.
    pub fn end(&mut self) {
        end(&mut self.server);
        end(&mut self.agent);
        end(&mut self.client);
    }
}
