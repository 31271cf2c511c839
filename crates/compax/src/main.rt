//! The program: `replay` runs a schedule, `gen` generated events, `node` roles over UDP and files;
//! `check` says what is wrong with a file.
//!
//! Its theorem is the contract of `top`: Done only with the whole text of the run written, any other
//! status with its cause and a prefix of it; the run is lawful (`IsLawful`: agreement, one command
//! list, fresh reads, sessions, safe retirement, snapshots, announcement, changes of grid, sets of
//! matchmakers, recovery, no dead ends); a node does exactly what the run of its roles says.
#![tactic(auto)]

mod checked;
mod further;
mod line;
mod roles;
mod top;
mod words;

use crate::checked::{Checked, check_asked};
use crate::further::{Further, further_of};
use crate::line::write_line;
use crate::top::top;
use crate::words::said;
use cx_base::{
    ACCEPTORS, CLIENTS, Kind, MATCHMAKERS, NoMemory, PROXIES, REPLACERS, ROLES, RoleId, Status,
};
use cx_edge::{FileDepot, ReaderSource, RemarkingSink, Sink, Trouble, UdpLink, WriterSink};
use cx_explain::check;
use std::alloc::Global;
use std::env;
use std::fs::File;
use std::io::{self, ErrorKind};
use std::process::ExitCode;

// The words, the first of which is the program's name. Where they cannot be had, since one of them is no text or memory ran
// out, the status that `top` would answer.
fn arguments(rt: &HostRuntime) -> Result<Vec<String>, Status> {
    match env::args(rt) {
        Ok(args) => args
            .collect::<Vec<String>>(rt.alloc())
            .map_err(|_| Status::NoMemory),
        Err(error) if error.kind() == ErrorKind::OutOfMemory => Err(Status::NoMemory),
        Err(_) => Err(Status::BadWords),
    }
}

// How many roles with stores a cluster may have, by their kinds.
const STORED: [(Kind, u16); 6] = [
    (Kind::Leader, ROLES),
    (Kind::Acceptor, ACCEPTORS),
    (Kind::Matchmaker, MATCHMAKERS),
    (Kind::Replica, ROLES),
    (Kind::Reader, ROLES),
    (Kind::Replacer, REPLACERS),
];

// All roles of a cluster, which a process may host. Leaders, replicas, readers, batchers and unbatchers are as many.
const SOCKETS: usize = 5 * ROLES as usize
    + PROXIES as usize
    + ACCEPTORS as usize
    + MATCHMAKERS as usize
    + REPLACERS as usize
    + CLIENTS;

// All roles with stores that a cluster may have.
fn stored_roles(alloc: Global) -> Result<Vec<RoleId>, NoMemory> {
    let mut roles = Vec::new(alloc);
    for (kind, count) in &STORED {
        for index in 0..*count {
            roles.push(RoleId::new(*kind, index))?;
        }
    }
    Ok(roles)
}

// Says on standard error what the system said, where that is wanted.
fn say_further<N, R>(
    rt: &HostRuntime,
    words: &[String],
    status: &Status,
    link: &UdpLink<N>,
    depot: &FileDepot<R>,
) {
    let Ok(asked) = said(rt.alloc(), words) else {
        return;
    };
    match further_of(status, &asked) {
        Some(Further::Link) => say(rt, link.trouble()),
        Some(Further::Store { role }) => say(rt, depot.trouble(role)),
        None => {}
    }
}

fn say(rt: &HostRuntime, trouble: Option<Trouble<'_>>) {
    if let Some(trouble) = trouble {
        let _ = rt.eprintln(trouble);
    }
}

// Does what the words say, over sockets, files, and the standard streams.
fn run<E: Sink>(rt: &HostRuntime, words: &[String], err: &mut E) -> Result<Status, NoMemory> {
    let mut link = UdpLink::new(rt.alloc(), rt, SOCKETS)?;
    let mut depot = FileDepot::new(rt.alloc(), rt, &stored_roles(rt.alloc())?)?;
    let mut input = ReaderSource::new(rt.stdin());
    let mut out = RemarkingSink::new(WriterSink::new(rt.stdout()), rt.stderr());
    let status = top(
        rt.alloc(),
        words,
        &mut input,
        &mut out,
        err,
        &mut link,
        &mut depot,
    );
    say_further(rt, words, &status, &link, &depot);
    Ok(status)
}

// Checks a file, and says what is wrong with it.
fn check_file<E: Sink>(rt: &HostRuntime, asked: &Checked<'_>, err: &mut E) -> io::Result<Status> {
    let mut input = ReaderSource::new(File::open(rt, asked.file)?);
    let name = asked.file.as_bytes();
    Ok(check(rt.alloc(), asked.node, name, &mut input, err))
}

// The line of a bad input is said already.
fn write_other<E: Sink>(err: &mut E, status: Status) -> Status {
    match status {
        Status::BadInput { .. } => {}
        _ => write_line(err, &status),
    }
    status
}

// Checks a file; where it can't be opened, what the system said of it is one more line.
fn checked_file<E: Sink>(rt: &HostRuntime, asked: &Checked<'_>, err: &mut E) -> Status {
    match check_file(rt, asked, err) {
        Ok(status) => write_other(err, status),
        Err(error) => {
            write_line(err, &Status::ReadFault);
            let name = asked.file;
            say(rt, Some(Trouble::File { name, error }));
            Status::ReadFault
        }
    }
}

fn main(rt: HostRuntime) -> ExitCode {
    let mut err = WriterSink::new(rt.stderr());
    let words = match arguments(&rt) {
        Ok(words) => words,
        Err(status) => {
            write_line(&mut err, &status);
            return ExitCode::from(status.exit());
        }
    };
    if let Some(asked) = check_asked(&words) {
        return ExitCode::from(checked_file(&rt, &asked, &mut err).exit());
    }
    match run(&rt, &words, &mut err) {
        Ok(status) => ExitCode::from(status.exit()),
        Err(NoMemory) => {
            write_line(&mut err, &Status::NoMemory);
            ExitCode::from(Status::NoMemory.exit())
        }
    }
}
