//! A link in memory: calls that fail, and what comes out of its queue. Of sockets what no stored run of a node does.

use cx_base::{Kind, RoleId};
use cx_edge::{Front, Link, LinkFailing, LinkRoom, MemLink, TakeEnd, UdpLink};
use std::alloc::Global;
use std::net::UdpSocket;
use std::test::Fail;

const ROOM: LinkRoom = LinkRoom {
    binds: 1,
    takes: 6,
    sends: 3,
    bytes: 8,
};

// A call, and whether it succeeds; of a take what it answers, and the buffer after it.
enum Step {
    Bind(bool),
    Send(&'static [u8], bool),
    Take(TakeEnd, [u8; 2]),
}

// The first bind, the second send and the first take fail, as those without room do.
const STEPS: [Step; 11] = [
    Step::Bind(false),
    Step::Bind(true),
    Step::Bind(false),
    Step::Take(TakeEnd::Failed, [0, 0]),
    Step::Take(TakeEnd::Nothing, [0, 0]),
    Step::Send(&[1, 2, 3], true),
    Step::Send(&[4], false),
    Step::Take(TakeEnd::Got(1), [9, 0]),
    Step::Take(TakeEnd::Got(2), [1, 2]),
    Step::Send(&[5, 6, 7, 8, 9], false),
    Step::Take(TakeEnd::Nothing, [0, 0]),
];

fn leader() -> RoleId {
    RoleId::new(Kind::Leader, 0)
}

fn failing(alloc: Global) -> Result<LinkFailing, Fail> {
    Ok(LinkFailing {
        binds: vec![in alloc; 0]?,
        sends: vec![in alloc; 1]?,
        takes: vec![in alloc; 0]?,
    })
}

// The link, and a datagram of another's that comes before the third take.
fn link(alloc: Global) -> Result<MemLink, Fail> {
    let front = Front {
        before: 2,
        bytes: vec![in alloc; 9]?,
    };
    let fronts = vec![in alloc; front]?;
    Ok(MemLink::new(alloc, ROOM, failing(alloc)?, &fronts)?)
}

fn take_is(link: &mut MemLink, end: TakeEnd, bytes: [u8; 2]) -> bool {
    let mut buffer = [0; 2];
    link.take(&mut buffer) == end && buffer == bytes
}

fn is_so(link: &mut MemLink, step: &Step) -> bool {
    match step {
        Step::Bind(is_done) => link.bind(leader(), 1).is_ok() == *is_done,
        Step::Send(bytes, is_done) => link.send(leader(), 1, bytes).is_ok() == *is_done,
        Step::Take(end, bytes) => take_is(link, *end, *bytes),
    }
}

#[test]
fn a_link_in_memory_fails_where_it_is_told_to(rt: HostRuntime) -> Result<(), Fail> {
    let mut link = link(rt.alloc())?;
    for step in &STEPS {
        assert!(rt; is_so(&mut link, step));
    }
    Ok(())
}

#[test]
fn a_role_without_a_socket_sends_nothing(rt: HostRuntime) -> Result<(), Fail> {
    let mut link = UdpLink::new(rt.alloc(), &rt, 1)?;
    assert!(rt; link.bind(leader(), 0).is_ok());
    assert!(rt; link.bind(leader(), 0).is_err());
    assert!(rt; link.send(RoleId::new(Kind::Leader, 1), 1, &[1]).is_err());
    Ok(())
}

// What is told of the last call that failed.
fn told<N>(alloc: Global, link: &UdpLink<N>) -> Result<String, Fail> {
    let Some(trouble) = link.trouble() else {
        return Err("nothing is told".into());
    };
    Ok(format!(in alloc; "{trouble}")?)
}

#[test]
fn a_link_tells_what_the_system_said(rt: HostRuntime) -> Result<(), Fail> {
    let alloc = rt.alloc();
    let holder = UdpSocket::bind(&rt, "127.0.0.1:0")?;
    let port = holder.local_addr()?.port();
    let mut link = UdpLink::new(alloc, &rt, 2)?;
    assert!(rt; link.bind(leader(), 0).is_ok());
    assert!(rt; link.trouble().is_none());
    assert!(rt; link.bind(RoleId::new(Kind::Leader, 1), port).is_err());
    let expected = format!(in alloc; "port {port}: Address already in use (os error 98)")?;
    assert!(rt; told(alloc, &link)? == expected);
    Ok(())
}
